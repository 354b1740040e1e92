//! Laws of the canonical text: its tokens are those it was written of, a tree's tokens are those
//! that it was read from, and so the canonical text of a body or a method that was read is that
//! body or method again, and different ones have different texts.
#![tactic(auto)]

mod bodies;
mod law;

pub use bodies::{body_again, method_again};
pub use law::{text_again, tree_tokens, written_tokens};
