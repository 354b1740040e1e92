//! Running a job: the least released step whole, again and again, on one thread, or up to 64
//! workers round one build lock.
//!
//! The workers claim, take, put and end under the lock, and evaluate outside it. What lies under it
//! is a build state, whose history is a one-thread run of its job whenever the lock is free. A
//! worker that comes back to it looks again where its step stands, and leaves to the drain what it
//! can't do.
#![tactic(auto)]

mod begin;
mod desk;
mod finish;
mod one;
mod standing;
mod workers;

pub use one::run_one;
pub use workers::run_workers;
