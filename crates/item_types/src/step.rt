use crate::memory::Memory;
use crate::same::Same;
use crate::seq::Seq;
use crate::text::Text;
use std::alloc::Global;

/// When an application's start plays a recording.
#[derive(Clone, Copy, Debug, PartialEq, Eq)]
pub enum Phase {
    /// At STATIC_INIT, before everything that is of the runtime.
    Static,
    /// At RUNTIME_INIT.
    Runtime,
}

/// That a step consumes a build item.
#[derive(Clone, Copy, Debug, PartialEq, Eq)]
pub struct Consume {
    /// The item's number.
    pub item: u32,
    /// Whether the step also runs where nothing produces the item.
    pub optional: bool,
}

/// That a step produces a build item.
#[derive(Clone, Copy, Debug, PartialEq, Eq)]
pub struct Produce {
    /// The item's number.
    pub item: u32,
    /// Whether the item's being wanted doesn't make the step needed.
    pub weak: bool,
    /// Whether another step's production of the item takes this one's place.
    pub overridable: bool,
}

/// A build step, as an extension declares it.
#[derive(Drop)]
pub struct StepDecl {
    /// The name of its extension.
    pub ext: Text,
    pub name: Text,
    /// What it consumes, in declared order.
    pub consumes: Seq<Consume>,
    /// What it produces, in declared order.
    pub produces: Seq<Produce>,
    /// When the calls that it records are played; `None` where it records none.
    pub phase: Option<Phase>,
    /// Whether its conditions hold; a step that isn't active never runs.
    pub active: bool,
}

impl Same for Consume {
    fn same(&self, other: &Consume) -> bool {
        *self == *other
    }

    fn try_copy(&self, alloc: Global) -> Result<Consume, Memory> {
        let _ = alloc;
        Ok(*self)
    }
}

impl Same for Produce {
    fn same(&self, other: &Produce) -> bool {
        *self == *other
    }

    fn try_copy(&self, alloc: Global) -> Result<Produce, Memory> {
        let _ = alloc;
        Ok(*self)
    }
}

impl Same for StepDecl {
    fn same(&self, other: &StepDecl) -> bool {
        self.ext.same(&other.ext)
            && self.name.same(&other.name)
            && self.consumes.same(&other.consumes)
            && self.produces.same(&other.produces)
            && self.phase == other.phase
            && self.active == other.active
    }

    fn try_copy(&self, alloc: Global) -> Result<StepDecl, Memory> {
        Ok(StepDecl {
            ext: self.ext.try_copy(alloc)?,
            name: self.name.try_copy(alloc)?,
            consumes: self.consumes.try_copy(alloc)?,
            produces: self.produces.try_copy(alloc)?,
            phase: self.phase,
            active: self.active,
        })
    }
}
