use crate::mark::Mark;
use crate::puts::Puts;
use item_types::Seq;
use recorder_proxy::Call;
use step_eval::{Inputs, Reason};

/// What the state keeps of a step.
#[derive(Drop)]
pub struct Slot {
    pub mark: Mark,
    /// What it took.
    pub inputs: Inputs,
    /// How many of its puts are in the history.
    pub made: usize,
    /// Its puts that aren't in the history yet.
    pub left: Puts,
    /// The calls that it recorded, until it ends.
    pub calls: Seq<Call>,
    /// Why it fails, until that is in the history.
    pub reason: Option<Reason>,
}
