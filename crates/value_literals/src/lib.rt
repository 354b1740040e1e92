//! The fields and methods of the class that plays a recording, entered into a constant pool, which
//! never is full.
#![tactic(auto)]

mod fill;
mod law;
mod member;
mod op;
mod ops;
mod texts;

pub use law::{filled_law, part_law};
pub use member::{Parts, code_of_recording};
pub use op::Op;
