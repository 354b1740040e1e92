//! The classes of an application that is started: a list of files is loaded to its classes, or is
//! refused with the first fault in the order of the list.
#![tactic(auto)]

mod classes;
mod law;
mod load_fault;
mod loading;

pub use classes::Classes;
pub use law::one_loading;
pub use load_fault::LoadFault;
pub use loading::{first_large, load};
