//! The objects that a world reaches, numbered by first visit, depth first.
#![tactic(auto)]

mod fresh;
mod roots;
mod walk;

pub use roots::graph;
