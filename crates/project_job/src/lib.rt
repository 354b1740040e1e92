//! The job of a project: what is run of a project file whose chain is accepted, and laws that tie
//! the file's bytes to it.
#![tactic(auto)]

mod laws;

pub use laws::{a_body_for_each_step, steps_are_named};
