ghost use Rattle.std.specs.Prelude.{◌≡◌, ◌↔◌, IsTrue};

use item_types::Seq;

/// Why a chain is refused. The first of these that holds is the answer.
#[derive(Drop)]
pub enum ChainFault {
    /// A simple item has two effective producers; the least such item and its two least producers.
    Duplicate { item: u32, first: u32, second: u32 },
    /// A simple or empty item is wanted and no needed step produces it. `consumer` is `None` for a
    /// final item.
    Missing { item: u32, consumer: Option<u32> },
    /// Needed steps, each with an edge to the next and the last to the first, from the least on.
    Cycle(Seq<u32>),
    /// Want of memory, which says nothing of the chain.
    Memory,
}

impl ChainFault {
    /// Whether it is want of memory. It takes no memory.
    pub fn is_memory(&self) -> bool
        ensures { IsTrue result ↔ (self.now ≡ ChainFault.Memory) }
    {
        match self {
            ChainFault::Memory => true,
            _ => false,
        }
    }
}
