use item_types::{NodeId, Seq, SharedText};

/// What a number stands for.
#[derive(Clone, Copy, Debug, PartialEq, Eq)]
pub enum Key {
    Recorder(u32),
    Node(NodeId),
}

/// What is made for a number.
#[derive(Clone, Copy, Debug, PartialEq, Eq)]
pub enum Kind {
    List,
    Bean(u32),
    Recorder(u32),
}

/// A key in the order of first use, which is its number, and what is made for it.
#[derive(Clone, Copy, Debug)]
pub struct Used {
    pub key: Key,
    pub kind: Kind,
}

/// A call whose value is kept: its step, and its number among the calls of the step.
#[derive(Clone, Copy, Debug)]
pub struct Kept {
    pub step: u32,
    pub call: u32,
}

/// How a value is pushed.
#[derive(Drop)]
pub enum Arg {
    Null,
    Bool(bool),
    Long(i64),
    Str(SharedText),
    Kept(Kept),
    Made(u32, Kind),
}

/// A unit of a recording's code.
#[derive(Drop)]
pub enum Piece {
    /// Makes the number.
    Make(u32, Kind),
    /// Appends to the list of that number.
    SetElement(u32, Arg),
    /// Sets a field of the bean of that number: the bean's number, the field, the value.
    SetField(u32, u32, u32, Arg),
    /// Calls the recorder of that number: the recorder, the method, the arguments, and where the value is kept.
    CallOf(u32, u32, u32, Seq<Arg>, Option<Kept>),
}
