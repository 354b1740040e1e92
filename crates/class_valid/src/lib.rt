//! Laws of class files (JVMS 4): a class is valid, by conditions on its parts, exactly where some
//! bytes spell it, and then exactly one list of bytes does.
#![tactic(auto)]

mod law;

pub use law::{entered_pool_is_valid, one_list, valid_exactly};
