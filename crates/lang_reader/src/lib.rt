//! The reader of the language of steps and recorders: a text is the tree that the grammar gives
//! it, or it is refused at the token where it is stuck.
#![tactic(auto)]

mod block;
mod cursor;
mod expr;
mod parse;
mod plain;
mod reading;
mod simple;
mod text;

pub use lang_grammar::LangFault;
pub use parse::parse_text;
