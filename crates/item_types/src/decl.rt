ghost use Rattle.std.specs.Prelude.{◌≡◌, slice_get};

use crate::memory::Memory;
use crate::same::Same;
use crate::seq::Seq;
use crate::text::Text;
use std::alloc::Global;

/// What a build item carries, and how many steps may produce it.
#[derive(Drop)]
pub enum ItemKind {
    /// One step produces it.
    Simple,
    /// Any number of steps produce it, and its consumers take the values in the order of production.
    Multi,
    /// As `Multi`, and the values are sorted by the whole number in this field.
    Ordered(Text),
    /// It carries nothing and only orders steps.
    Empty,
}

/// A build item, as an extension declares it.
#[derive(Drop)]
pub struct ItemDecl {
    pub name: Text,
    pub kind: ItemKind,
}

/// A bean: a name and the names of its fields, in declared order.
#[derive(Drop)]
pub struct BeanDecl {
    pub name: Text,
    pub fields: Seq<Text>,
}

/// A recorder's method: a name and the names of its parameters.
#[derive(Drop)]
pub struct MethodSig {
    pub name: Text,
    pub params: Seq<Text>,
}

/// A recorder, whose methods a recording step calls.
#[derive(Drop)]
pub struct RecorderDecl {
    pub name: Text,
    pub fields: Seq<Text>,
    pub statics: Seq<Text>,
    pub methods: Seq<MethodSig>,
}

/// All that the extensions of an application declare, numbered from 0 in the order of the file.
#[derive(Drop)]
pub struct Names {
    pub items: Seq<ItemDecl>,
    pub beans: Seq<BeanDecl>,
    pub recorders: Seq<RecorderDecl>,
}

impl Names {
    ghost use Rattle.item_types.specs.Named.{fields_of, bean_name, recorder_fields, recorder_statics, recorder_methods, method_params, static_place};

    /// The names of that bean's fields, in declared order; none where there is no such bean.
    pub fn fields_of(&self, bean: u32) -> &[Text]
        ensures { result.now ≡ fields_of (slice_get self.now.beans bean) }
    {
        match self.beans.as_slice().get(bean as usize) {
            Some(decl) => decl.fields.as_slice(),
            None => &[],
        }
    }

    /// That bean's name; the empty text where there is no such bean.
    pub fn bean_name(&self, bean: u32) -> &str
        ensures { result.now ≡ bean_name (slice_get self.now.beans bean) }
    {
        match self.beans.as_slice().get(bean as usize) {
            Some(decl) => decl.name.as_str(),
            None => "",
        }
    }

    /// The names of that recorder's fields, in declared order; none where there is no such
    /// recorder.
    pub fn recorder_fields(&self, recorder: u32) -> &[Text]
        ensures { result.now ≡ recorder_fields (slice_get self.now.recorders recorder) }
    {
        match self.recorders.as_slice().get(recorder as usize) {
            Some(decl) => decl.fields.as_slice(),
            None => &[],
        }
    }

    /// The names of that recorder's statics, in declared order; none where there is no such
    /// recorder.
    pub fn recorder_statics(&self, recorder: u32) -> &[Text]
        ensures { result.now ≡ recorder_statics (slice_get self.now.recorders recorder) }
    {
        match self.recorders.as_slice().get(recorder as usize) {
            Some(decl) => decl.statics.as_slice(),
            None => &[],
        }
    }

    /// That recorder's methods, in declared order; none where there is no such recorder.
    pub fn recorder_methods(&self, recorder: u32) -> &[MethodSig]
        ensures { result.now ≡ recorder_methods (slice_get self.now.recorders recorder) }
    {
        match self.recorders.as_slice().get(recorder as usize) {
            Some(decl) => decl.methods.as_slice(),
            None => &[],
        }
    }

    /// The names of the parameters of that method of the recorder, in declared order; none where
    /// there is no such method.
    pub fn method_params(&self, recorder: u32, method: u32) -> &[Text]
        ensures { result.now ≡ method_params (slice_get (recorder_methods (slice_get self.now.recorders recorder)) method) }
    {
        match self.recorder_methods(recorder).get(method as usize) {
            Some(sig) => sig.params.as_slice(),
            None => &[],
        }
    }

    /// The place, from 0, of the static of that name among the recorder's statics; `None` where
    /// the recorder has no such static.
    pub fn static_place(&self, recorder: u32, name: &str) -> Option<usize>
        ensures { result ≡ static_place self.now recorder name.now }
    {
        let statics = self.recorder_statics(recorder);
        statics.iter().position(|s| s.as_str() == name)
    }
}

impl Same for ItemKind {
    fn same(&self, other: &ItemKind) -> bool {
        match (self, other) {
            (ItemKind::Simple, ItemKind::Simple) => true,
            (ItemKind::Multi, ItemKind::Multi) => true,
            (ItemKind::Ordered(field), ItemKind::Ordered(other_field)) => field.same(other_field),
            (ItemKind::Empty, ItemKind::Empty) => true,
            _ => false,
        }
    }

    fn try_copy(&self, alloc: Global) -> Result<ItemKind, Memory> {
        match self {
            ItemKind::Simple => Ok(ItemKind::Simple),
            ItemKind::Multi => Ok(ItemKind::Multi),
            ItemKind::Ordered(field) => Ok(ItemKind::Ordered(field.try_copy(alloc)?)),
            ItemKind::Empty => Ok(ItemKind::Empty),
        }
    }
}

impl Same for ItemDecl {
    fn same(&self, other: &ItemDecl) -> bool {
        self.name.same(&other.name) && self.kind.same(&other.kind)
    }

    fn try_copy(&self, alloc: Global) -> Result<ItemDecl, Memory> {
        Ok(ItemDecl {
            name: self.name.try_copy(alloc)?,
            kind: self.kind.try_copy(alloc)?,
        })
    }
}

impl Same for BeanDecl {
    fn same(&self, other: &BeanDecl) -> bool {
        self.name.same(&other.name) && self.fields.same(&other.fields)
    }

    fn try_copy(&self, alloc: Global) -> Result<BeanDecl, Memory> {
        Ok(BeanDecl {
            name: self.name.try_copy(alloc)?,
            fields: self.fields.try_copy(alloc)?,
        })
    }
}

impl Same for MethodSig {
    fn same(&self, other: &MethodSig) -> bool {
        self.name.same(&other.name) && self.params.same(&other.params)
    }

    fn try_copy(&self, alloc: Global) -> Result<MethodSig, Memory> {
        Ok(MethodSig {
            name: self.name.try_copy(alloc)?,
            params: self.params.try_copy(alloc)?,
        })
    }
}

impl Same for RecorderDecl {
    fn same(&self, other: &RecorderDecl) -> bool {
        self.name.same(&other.name)
            && self.fields.same(&other.fields)
            && self.statics.same(&other.statics)
            && self.methods.same(&other.methods)
    }

    fn try_copy(&self, alloc: Global) -> Result<RecorderDecl, Memory> {
        Ok(RecorderDecl {
            name: self.name.try_copy(alloc)?,
            fields: self.fields.try_copy(alloc)?,
            statics: self.statics.try_copy(alloc)?,
            methods: self.methods.try_copy(alloc)?,
        })
    }
}

impl Same for Names {
    fn same(&self, other: &Names) -> bool {
        self.items.same(&other.items)
            && self.beans.same(&other.beans)
            && self.recorders.same(&other.recorders)
    }

    fn try_copy(&self, alloc: Global) -> Result<Names, Memory> {
        Ok(Names {
            items: self.items.try_copy(alloc)?,
            beans: self.beans.try_copy(alloc)?,
            recorders: self.recorders.try_copy(alloc)?,
        })
    }
}
