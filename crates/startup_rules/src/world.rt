use crate::slot::{Object, Slot};
use item_types::{Seq, Text};

/// The parts of a world, as contracts see a world: all that a started application is.
#[derive(Drop)]
pub struct WorldParts {
    /// The objects, by number.
    pub objects: Seq<Object>,
    /// Per recorder its statics, in declared order.
    pub statics: Seq<Seq<Slot>>,
    /// The context's keys with their slots, in the order of first puts.
    pub context: Seq<(Text, Slot)>,
    /// What was printed.
    pub lines: Seq<Text>,
    /// How many statements and turns were spent.
    pub turns: u64,
    /// How many cells were made.
    pub cells: u64,
    /// How many bytes of text were joined and printed.
    pub text: u64,
}
