//! The rules of a startup: the machine that runs the code of loaded classes (JVMS 2.6, 6.5), in
//! this project's profile.
//!
//! The machine is one, whatever its values are: a domain says what an instruction does with its
//! operands, and all else stands once, the order of faults included. What code reads as is a
//! reader's, and the machine knows no class file. Definitions stand in `specs/`, with laws on
//! public functions.
#![tactic(auto)]

mod action;
mod code;
mod env;
mod fault;
mod item;
mod laws;

pub use action::{Action, First, Kind, Row};
pub use code::{Method, ReadCode};
pub use env::Env;
pub use fault::{CodeFault, Fault, Place, Refusal};
pub use item::Item;
pub use laws::{budget_is_spent, enough_is_enough, spelled_startup_is_same};
