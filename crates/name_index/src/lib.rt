//! Names in a row, of which each is found by a map and never by a look at the others.
#![tactic(auto)]

mod index;
mod named;
mod noting;

pub use index::Index;
pub use named::{Named, names_of};
