//! The units of a recording's code: what each call and each node takes, in order, and the numbers of
//! recorders and nodes in the order of their first use.
#![tactic(auto)]

mod types;
mod walk;

pub use types::{Arg, Kept, Key, Kind, Piece, Used};
pub use walk::units_of;
