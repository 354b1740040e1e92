ghost use Rattle.std.specs.Prelude.{◌≡◌, ◌↔◌, IsTrue, IfOk};

use item_types::{Memory, Same, Seq, SharedText};
use std::alloc::Global;

/// What a variable, a field, a static or a list of a started application holds. An object stands
/// by its number in the world.
#[derive(Drop)]
pub enum Slot {
    Null,
    Bool(bool),
    Long(i64),
    Str(SharedText),
    Obj(u32),
}

/// An object of a started application.
#[derive(Drop)]
pub enum Object {
    /// A list and its elements.
    List(Seq<Slot>),
    /// A bean of this number, and its fields in declared order.
    Bean(u32, Seq<Slot>),
    /// A recorder of this number, and its fields in declared order.
    Recorder(u32, Seq<Slot>),
}

impl Same for Slot {
    fn same(&self, other: &Slot) -> bool {
        match (self, other) {
            (Slot::Null, Slot::Null) => true,
            (Slot::Bool(a), Slot::Bool(b)) => *a == *b,
            (Slot::Long(a), Slot::Long(b)) => *a == *b,
            (Slot::Str(a), Slot::Str(b)) => a.as_str() == b.as_str(),
            (Slot::Obj(a), Slot::Obj(b)) => *a == *b,
            _ => false,
        }
    }

    fn try_copy(&self, alloc: Global) -> Result<Slot, Memory> {
        let _ = alloc;
        self.share()
    }
}

impl Slot {
    /// A slot that equals it, and shares its text.
    ///
    /// # Errors
    /// `Memory` where the text is shared as often as can be counted.
    pub fn share(&self) -> Result<Slot, Memory>
        ensures { IfOk result (λ slot. slot ≡ self.now) }
    {
        match self {
            Slot::Null => Ok(Slot::Null),
            Slot::Bool(b) => Ok(Slot::Bool(*b)),
            Slot::Long(n) => Ok(Slot::Long(*n)),
            Slot::Str(text) => Ok(Slot::Str(text.share()?)),
            Slot::Obj(object) => Ok(Slot::Obj(*object)),
        }
    }
}
