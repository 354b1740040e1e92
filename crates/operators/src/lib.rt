//! What the operations of steps and of methods compute alike: sums, joined texts and their limit,
//! comparisons, truth values and lengths, each over what the operation sees of its operands.
//!
//! A step's values are trees, and a method's are slots. Both are seen here as an [`Operand`]. Which
//! fault a wrong operand makes, and at which token, is said where steps and methods are.
#![tactic(auto)]

mod operand;
mod operation;

pub use operand::Operand;
pub use operation::{Added, MAX_TEXT, is_too_long, join, len, less, plus, same_plain, truth};
