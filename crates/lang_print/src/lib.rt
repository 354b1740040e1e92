//! The canonical text of bodies and methods: the tokens of a tree with one space between two,
//! but none before `; , ) ] . : (` and none after `( [ . !`.
#![tactic(auto)]

mod exprs;
mod naming;
mod print;
mod printer;
mod stmts;

pub use print::canonical_text;
