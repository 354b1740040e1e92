//! The trees of bodies and methods: what a text of the language of steps and recorders is, once
//! it is read. Each node keeps the number of its first token, so that a fault names its place.
//!
//! Trees are compared and copied as a whole, both exactly. A chain of fields, as `a.b.c`, is one
//! node with its links in a list, so that no work on a tree goes deeper for a longer chain.
#![tactic(auto)]

mod copy;
mod same;
mod tree;

pub use copy::{copy_block, copy_expr};
pub use same::{same_block, same_expr};
pub use tree::{Body, Expr, Invoke, Link, Method, Methods, NO_NUMBER, Stmt};
