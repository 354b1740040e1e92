//! The tokens of a text of the language of steps and recorders: at each place the longest
//! beginning that is a token is taken, and blanks between tokens are passed over.
//!
//! What each kind of token is stands as a relation, and [`longest_tokens`] has the law that the
//! lexer takes the longest, and that no other list of tokens is that of the text.
#![tactic(auto)]

mod chars;
mod front;
mod law;
mod lexer;
mod number;
mod quoted;
mod token;
mod word;

pub use law::longest_tokens;
pub use lexer::tokens;
pub use token::{Mark, Token, told_apart};
