use crate::item::Item;
use item_types::Seq;
use startup_world::World;

/// What a startup keeps beside its frames.
#[derive(Drop)]
pub struct Env {
    /// The world.
    pub world: World,
    /// Per class, in the list's order, what its fields hold.
    pub statics: Seq<Seq<Item>>,
    /// How many calls of recorders were made.
    pub calls: u32,
    /// Whether the context was made.
    pub context_made: bool,
}
