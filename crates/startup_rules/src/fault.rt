use crate::slot::Slot;
use item_types::Text;

/// Why a recorder's method fails. Where several faults hold at one moment, the first in this order
/// is told. `at` is the number of the operation's token.
#[derive(Drop)]
pub enum MethodFault {
    /// `fail e` was reached, and this is its text.
    Said(Text),
    /// An operand has another kind than the operation needs.
    Kind { at: u32 },
    /// The statements and turns of the whole startup pass 1,000,000.
    TooManyTurns,
    /// The cells that the whole startup makes pass 1,000,000.
    TooManyCells,
    /// A literal or a join has more than 65,535 bytes of modified UTF-8.
    TextTooLong,
    /// The text that the whole startup joins and prints passes 16,777,216 bytes.
    TooMuchText,
}

/// How a method, or one operation of it, ends.
#[derive(Drop)]
pub enum Invoked {
    Value(Slot),
    Failed(MethodFault),
}
