ghost use Rattle.std.specs.Prelude.{◌≡◌, ◌<◌, IfOk};
ghost use Rattle.std.specs.List.{All};
ghost use Rattle.startup_rules.specs.Views.{IsGraph, number_in};

use item_types::{Memory, Seq};
use startup_world::World;
use std::alloc::Global;
use std::marker::Model;
use world_graph::graph;

/// The numbers of a world's objects in its view. Contracts see the objects in the order of their
/// numbers.
#[derive(Drop)]
pub struct Numbers {
    order: Seq<u32>,
    /// How many objects the view has.
    count: u32,
    /// By object its number, or `count` for an object that isn't in the view.
    table: Vec<u32>,
}

impl Model for Numbers {
    ghost use Rattle.std.specs.Prelude.{◌≡◌, List, ℕ, length};
    ghost use Rattle.world_text.specs.Numbered.{Tells};

    ghost Value = { List ℕ };

    ghost view = { λ n. n.order };

    ghost invariant = { λ n. (n.count ≡ length n.order) × Tells n.table.items n.order };
}

impl Numbers {
    /// The numbers of the objects that a world's statics and context reach.
    ///
    /// # Errors
    /// `Memory` for want of memory.
    pub fn new(alloc: Global, world: &World) -> Result<Numbers, Memory>
        ensures { IfOk result (λ numbers. IsGraph world.now numbers) }
    {
        let order = graph(alloc, world)?;
        numbers_of(alloc, world.objects().len(), order)
    }

    /// The objects in the order of their numbers. It takes no memory.
    pub fn order(&self) -> &[u32]
        ensures { result.now ≡ self.now }
    {
        self.order.as_slice()
    }

    /// The object's number, or how many objects the view has. It takes no memory.
    pub fn of(&self, object: u32) -> u32
        ensures { result ≡ number_in self.now object }
    {
        match self.table.get(object as usize) {
            Some(number) => *number,
            None => self.count,
        }
    }
}

fn numbers_of(alloc: Global, objects: usize, order: Seq<u32>) -> Result<Numbers, Memory>
    requires { All (λ o. o < objects) order }
    ensures { IfOk result (λ numbers. numbers ≡ order) }
{
    let Ok(count) = u32::try_from(order.len()) else {
        return Err(Memory);
    };
    let mut table = vec![in alloc; count; objects]?;
    for i in 0..count {
        let number = count - i - 1;
        let object = order.as_slice()[number as usize];
        table[object as usize] = number;
    }
    Ok(Numbers {
        order,
        count,
        table,
    })
}
