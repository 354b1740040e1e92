use class_code::Opcode;
use class_pool::Shown;

/// An instruction, with what its operand names.
#[derive(Drop)]
pub enum Op {
    /// One without an operand.
    Plain(Opcode),
    /// One whose operand is the pool index of what this shows.
    Naming(Opcode, Shown),
}
