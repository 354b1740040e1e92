//! How many edge producers of each step of a plan haven't ended yet.
//!
//! The end of a step lowers the counts of its dependents and tells those whose count reached 0.
#![tactic(auto)]

mod counts;
mod steps;

pub use counts::Counts;
pub use steps::Steps;
