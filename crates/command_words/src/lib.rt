//! The words of a command line: which command the words after the program's name spell.
//!
//! The forms are defined in this crate's `specs`; other words are refused.
#![tactic(auto)]

mod arguments;
mod command;
mod laws;
mod number;
mod words;

pub use command::{Command, WordsErr};
pub use laws::{a_number_is_its_digits, operands_are_the_files, the_option_stands_anywhere};
pub use words::read_words;
