//! The text of a class file: its head, its pool, its fields and methods with their instructions, and
//! its attributes, a line each.
#![tactic(auto)]

mod code;
mod entry;
mod hex;
mod name;
mod text;

pub use text::dump;
