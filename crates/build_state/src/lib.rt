//! The value behind the build lock: a one-thread run of a job as far as it has come, and where each
//! step stands in it.
//!
//! Whatever is called on a state, in whatever order, its history is a one-thread run of its job,
//! and all that it keeps beside is what the history says: a step's mark says exactly which of its
//! events stand in the history. There is room made ahead for what is owed, so that puts and
//! failures take no memory.
#![tactic(auto)]

mod act;
mod drain;
mod kept;
mod mark;
mod one_step;
mod parts;
mod play;
mod puts;
mod slot;
mod state;

pub use act::Act;
pub use mark::{Halt, Mark, Stage};
pub use puts::{Puts, Twin};
pub use slot::Slot;
pub use state::{BuildState, HandIn};
