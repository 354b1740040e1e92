// What the worked texts may name, and the steps that they are bodies of.

use item_types::{
    BeanDecl, Consume, ItemDecl, ItemKind, Memory, MethodSig, Names, Phase, Produce, RecorderDecl,
    Seq, StepDecl, Text,
};
use std::alloc::Global;

fn one(alloc: Global, word: &str) -> Result<Seq<Text>, Memory> {
    let mut words = Seq::new(alloc);
    words.push(Text::of(alloc, word)?)?;
    Ok(words)
}

fn items(alloc: Global) -> Result<Seq<ItemDecl>, Memory> {
    let mut items = Seq::new(alloc);
    items.push(ItemDecl {
        name: Text::of(alloc, "T")?,
        kind: ItemKind::Multi,
    })?;
    items.push(ItemDecl {
        name: Text::of(alloc, "U")?,
        kind: ItemKind::Simple,
    })?;
    Ok(items)
}

fn recorders(alloc: Global) -> Result<Seq<RecorderDecl>, Memory> {
    let mut methods = Seq::new(alloc);
    methods.push(MethodSig {
        name: Text::of(alloc, "m")?,
        params: one(alloc, "p")?,
    })?;
    let mut recorders = Seq::new(alloc);
    recorders.push(RecorderDecl {
        name: Text::of(alloc, "R")?,
        fields: one(alloc, "f")?,
        statics: one(alloc, "s")?,
        methods,
    })?;
    Ok(recorders)
}

/// The items `T`, multi, and `U`, simple, the bean `B` with the field `f`, and the recorder `R`
/// with the field `f`, the static `s` and the method `m(p)`.
pub(crate) fn names(alloc: Global) -> Result<Names, Memory> {
    let mut beans = Seq::new(alloc);
    beans.push(BeanDecl {
        name: Text::of(alloc, "B")?,
        fields: one(alloc, "f")?,
    })?;
    Ok(Names {
        items: items(alloc)?,
        beans,
        recorders: recorders(alloc)?,
    })
}

/// A step that records, consumes these items and produces `T`.
pub(crate) fn step(alloc: Global, consumed: &[u32]) -> Result<StepDecl, Memory> {
    let mut consumes = Seq::new(alloc);
    for item in consumed {
        consumes.push(Consume {
            item: *item,
            optional: false,
        })?;
    }
    let mut produces = Seq::new(alloc);
    produces.push(Produce {
        item: 0,
        weak: false,
        overridable: false,
    })?;
    Ok(StepDecl {
        ext: Text::of(alloc, "a")?,
        name: Text::of(alloc, "s")?,
        consumes,
        produces,
        phase: Some(Phase::Static),
        active: true,
    })
}
