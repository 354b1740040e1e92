//! A project of a given number of steps, for measuring and for trying the whole program: a tree of
//! steps, each of which hands on what the one above it produced.
#![tactic(auto)]

mod step_line;
#[cfg(test)]
mod tests;
mod text;

pub use text::gen_text;
