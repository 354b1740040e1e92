//! What a file declares, by name: the number of an item, a bean, a recorder or a method is found by
//! a map that is made once for all texts of the file.
#![tactic(auto)]

mod directory;
mod places;
mod register;

pub use directory::Directory;
pub use register::Register;
