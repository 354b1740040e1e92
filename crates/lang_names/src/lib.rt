//! The names in a tree: the first of them, in the order of its tokens, that may not stand there.
#![tactic(auto)]

mod check;
mod declared;
mod exprs;
mod setting;
mod stmts;
mod wrong;

pub use check::{check_body, check_method};
pub use wrong::{NameFault, Wrong};
