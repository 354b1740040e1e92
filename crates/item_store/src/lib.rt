//! The values that build steps put, by their items, as consumers find them.
//!
//! A store is given room for what a step will put before the step puts it, so that a put takes no
//! memory and is never refused.
#![tactic(auto)]

mod pile;
mod store;

pub use store::Store;
