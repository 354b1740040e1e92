//! What holds of the views of worlds: each world has one, and it doesn't tell in which order
//! objects were made, nor whether there are objects that nothing reaches. No command calls it.
#![tactic(auto)]

mod laws;

pub use laws::{a_view_knows_no_age, each_world_has_one_view, one_view_is_an_equivalence};
