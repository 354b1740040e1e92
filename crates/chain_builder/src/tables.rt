use crate::marks::Marks;
use item_types::Seq;

/// What is known of a chain: the needed steps, what each step effectively produces, and for each
/// step the edges to it and from it.
#[derive(Drop)]
pub struct Tables {
    pub needed: Marks,
    pub effective: Seq<Seq<u32>>,
    pub into: Seq<Seq<u32>>,
    pub dependents: Seq<Seq<u32>>,
}
