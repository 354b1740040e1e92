use item_types::{Memory, Phase, Same, Seq, Value, copy_values, same_values};
use std::alloc::Global;

/// A recorded call of a recorder's method.
#[derive(Drop)]
pub struct Call {
    /// The recorder's number.
    pub recorder: u32,
    /// The method's number among the recorder's methods.
    pub method: u32,
    /// A value for each parameter of the method.
    pub args: Seq<Value>,
    /// Whether the start keeps what the call returns, for the proxies that name the call.
    pub keeps: bool,
}

/// What a step records: calls in order, and when the start plays them.
#[derive(Drop)]
pub struct Recording {
    /// The step's number.
    pub step: u32,
    pub phase: Phase,
    pub calls: Seq<Call>,
}

impl Same for Call {
    fn same(&self, other: &Call) -> bool {
        self.recorder == other.recorder
            && self.method == other.method
            && self.keeps == other.keeps
            && same_values(self.args.as_slice(), other.args.as_slice())
    }

    fn try_copy(&self, alloc: Global) -> Result<Call, Memory> {
        Ok(Call {
            recorder: self.recorder,
            method: self.method,
            args: copy_values(alloc, self.args.as_slice())?,
            keeps: self.keeps,
        })
    }
}

impl Same for Recording {
    fn same(&self, other: &Recording) -> bool {
        self.step == other.step && self.phase == other.phase && self.calls.same(&other.calls)
    }

    fn try_copy(&self, alloc: Global) -> Result<Recording, Memory> {
        Ok(Recording {
            step: self.step,
            phase: self.phase,
            calls: self.calls.try_copy(alloc)?,
        })
    }
}
