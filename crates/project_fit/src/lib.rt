//! Which declarations fit each other as those of a project file do: a test for callers that build
//! them, and what holds of declarations that pass it.
#![tactic(auto)]

mod fitting;
mod full_names;
mod item_numbers;
mod laws;

pub use fitting::fits;
pub use laws::fitting_is_numbered;
