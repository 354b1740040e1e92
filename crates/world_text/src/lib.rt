//! The texts of what a started application prints and leaves, and of why a method failed.
#![tactic(auto)]

mod context;
mod fault;
mod numbering;
mod object;
mod statics;
mod world;

pub use fault::push_fault;
pub use numbering::Numbers;
pub use object::{push_object, push_slot};
pub use world::push_world;
