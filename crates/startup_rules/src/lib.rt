//! What a started application is, and what a recorder's method does to it: the plain types of the
//! world, and the definitions over them in `specs/`, with laws on public functions.
//!
//! A world's view is what its lines, statics and context show. The operations of methods are one
//! relation by cases over [`Op`]; the meaning of a method is a fold over its tree, which reaches
//! the world through operations alone. Recorded calls that are made directly are a fold over them.
#![tactic(auto)]

mod fault;
mod laws;
mod op;
mod slot;
mod world;

pub use fault::{Invoked, MethodFault};
pub use laws::{a_world_has_one_graph, methods_keep_kinds, operations_only_add, turns_are_spent};
pub use op::Op;
pub use slot::{Object, Slot};
pub use world::WorldParts;
