//! A TOML file as contracts see it: the table that its bytes write, and what stands at its keys.
//!
//! Nothing here knows what a file is for.
#![tactic(auto)]

mod document;
mod keys;
mod release;

pub use document::{ReadFault, read_table};
pub use keys::{
    array_at, entry_count, integer_at, is_among, key_count, other_key, text_at, value_at,
};
pub use release::let_go;
