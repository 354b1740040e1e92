//! An ordered set of steps, whose least member is found in logarithmic time.
#![tactic(auto)]

mod set;

pub use set::StepSet;
