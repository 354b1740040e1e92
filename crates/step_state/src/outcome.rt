use item_types::{Proxy, Seq, Text, Value};
use recorder_proxy::Call;

/// What a step took: one list of values for each of its consumptions, in declared order.
#[derive(Drop)]
pub struct Inputs {
    pub lists: Seq<Seq<Value>>,
}

/// How the evaluation of a body ends.
#[derive(Drop)]
pub enum Outcome {
    /// The body came to its end: what it produced, each value with its item's number, and the
    /// calls that it recorded, both in order.
    Done {
        puts: Seq<(u32, Value)>,
        calls: Seq<Call>,
    },
    /// It failed, for this reason.
    Fails(Reason),
}

/// Why a body fails. `at` is the number of a token of the body, from 0.
#[derive(Drop)]
pub enum Reason {
    /// `fail` was reached, with this text.
    Said(Text),
    /// An operand has another kind than the operation needs, or its bean lacks the field.
    Kind { at: u32 },
    /// An operand is a proxy.
    ProxyUsed { at: u32 },
    /// A simple item of this number was produced a second time.
    Twice(u32),
    /// A value of the ordered item of this number has no key.
    NoKey(u32),
    /// A static step hands this runtime proxy to a call.
    RuntimeInStatic(Proxy),
    /// A value has a depth of more than 64.
    TooDeep { at: u32 },
    /// What was taken up to the item of this number has more than 16,384 cells or more than
    /// 262,144 bytes of text.
    TooManyTaken(u32),
    /// More than 100,000 statements and turns.
    TooManyTurns,
    /// The values of all expressions have more than 65,536 cells.
    TooManyCells,
    /// The values of all expressions have more than 1,048,576 bytes of text.
    TooMuchText,
    /// A literal or a join has more than 65,535 bytes of modified UTF-8.
    TextTooLong,
    /// The produced values have more than 4,096 cells or more than 131,072 bytes of text.
    TooManyPut,
    /// The recorded calls have more than 8,192 cells or more than 131,072 bytes of text.
    TooManyRecorded,
}
