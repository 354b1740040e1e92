//! The grammar of the language of steps and recorders: what a sentence is, its one tree, and the
//! one token where a text is stuck.
//!
//! The table of forms stands as a definition. Each form says which trees its sentences are, how
//! far it is read from a place, and where it is stuck; [`one_reading`] has the law that a text is
//! a sentence with one tree or stuck at one token, and never both; [`first_token`] that no
//! sentence begins with the tokens of a text up to the one where it is stuck; [`read_parts`] that
//! what is read up to a place is a sentence of the tokens up to there.
#![tactic(auto)]

mod fault;
mod law;

pub use fault::{Fault, LangFault, ParseError};
pub use law::{first_token, one_reading, read_parts};
