use crate::slot::Slot;
use item_types::{Seq, Text};

/// One operation of a method on the world, with its operands in order. A number behind them is that
/// of the operation's token.
#[derive(Drop)]
pub enum Op {
    /// Before each statement, and in each turn of a `for`.
    Turn,
    /// A text of the method that is too long.
    LongText,
    /// `static.f`
    GetStatic(Text),
    /// `static.f = e`
    PutStatic(Slot, Text),
    /// `a + b`
    Plus(Slot, Slot, u32),
    /// `a < b`
    Less(Slot, Slot, u32),
    /// `a == b`
    Equal(Slot, Slot),
    /// `!e`
    Not(Slot, u32),
    /// `len e`
    Len(Slot, u32),
    /// `e.f`
    FieldOf(Slot, Text, u32),
    /// A condition of `if`, or a part of `&&`.
    Truth(Slot, u32),
    /// `[e, ..]`
    ListOf(Seq<Slot>),
    /// `new B{f: e, ..}`, its fields in written order.
    Bean(Seq<(Text, Slot)>, Text),
    /// `x.f = e` and `self.f = e`
    Set(Slot, Slot, Text, u32),
    /// `add(l, e)`
    Add(Slot, Slot, u32),
    /// `print e`
    Print(Slot, u32),
    /// `fail e`
    FailWith(Slot, u32),
    /// The list that a `for` goes through.
    Rows(Slot, u32),
}
