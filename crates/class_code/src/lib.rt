//! The instructions of class files (JVMS 6.5): those of startup classes, a row each, and those that
//! compiled methods have besides; their bytes both ways.
#![tactic(auto)]

mod instruction;
mod law;
mod method;
mod opcode;

pub use instruction::{Instruction, decode, push_instruction};
pub use law::{method_reads_back, reads_back};
pub use method::{MethodInstruction, decode_method, push_method_instruction};
pub use opcode::Opcode;
