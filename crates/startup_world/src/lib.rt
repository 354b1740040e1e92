//! The world of a started application and its calls: objects are made and changed, statics and the
//! context are read and set, lines are added, and what is spent is paid for within the limits of a
//! startup.
//!
//! Each call makes its named change, as the definitions of `startup_rules` say, and no other.
#![tactic(auto)]

mod making;
mod object;
mod world;

pub use making::copy_slots;
pub use object::parts;
pub use world::World;
