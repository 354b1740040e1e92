/// Where a step stands, as the state keeps it: a `Stage` without its numbers.
#[derive(Clone, Copy, PartialEq, Eq, Debug)]
pub enum Mark {
    Unneeded,
    Waiting,
    Released,
    Taking,
    Ready,
    Putting,
    Failing,
    Ended,
    Failed,
}

/// Where a step stands.
#[derive(Clone, Copy, PartialEq, Eq, Debug)]
pub enum Stage {
    /// It isn't needed.
    Unneeded,
    /// So many of its edge producers haven't ended.
    Waiting(u32),
    /// It may start.
    Released,
    /// It has done so many takes, and has more to do.
    Taking(usize),
    /// It has done its takes, and waits for the outcome of its evaluation.
    Ready,
    /// It has done so many of its puts, and hasn't ended.
    Putting(usize),
    /// Its evaluation failed, and the failure isn't in the history yet.
    Failing,
    Ended,
    Failed,
}

/// Why nothing goes on.
#[derive(Clone, Copy, PartialEq, Eq, Debug)]
pub enum Halt {
    /// The history ends with a failure.
    Failed,
    /// Memory was wanting.
    Memory,
}
