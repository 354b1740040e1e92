//! The language of steps and recorders: bodies and methods are read from their text, refused at
//! the first token that is wrong, and printed as their canonical text.
#![tactic(auto)]

mod judge;
mod law;
mod parse;
mod print;

pub use lang_grammar::LangFault;
pub use law::{answers_are_sentences, one_body, one_method, read_is_right};
pub use name_directory::{Directory, Register};
pub use parse::{parse_body, parse_body_in, parse_method, parse_method_in};
pub use print::{print_body, print_method};
pub use syntax_tree::{Body, Expr, Invoke, Link, Method, Methods, Stmt};
