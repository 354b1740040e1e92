/// A move of one who plays with a build state.
#[derive(Clone, Copy, PartialEq, Eq, Debug)]
pub enum Act {
    /// Starts the step.
    Claim(u32),
    /// Does the step's next take.
    Take(u32),
    /// Evaluates the step's body on what it took, and hands the work in.
    Eval(u32),
    /// Does the step's next put.
    Put(u32),
    /// Ends the step.
    End(u32),
    /// Puts the step's failure into the history.
    Fail(u32),
}
