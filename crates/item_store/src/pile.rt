ghost use Rattle.std.specs.Prelude.{◌≡◌, ◌+◌, ◌-◌, ◌≤◌, [], ◌∷◌, ◌++◌, OnOk, OnErr};
ghost use Rattle.std.specs.List.{All};
ghost use Rattle.item_types.specs.Bounds.{IsBounded};
ghost use Rattle.item_store.specs.Kept.{nothing};

use item_types::{Memory, Value};
use std::alloc::Global;
use std::marker::Model;

/// The values of one item, in the order of production, and how many more take no memory.
#[derive(Drop)]
pub struct Pile {
    values: Vec<Value>,
    spare: usize,
}

impl Model for Pile {
    ghost use Rattle.std.specs.Prelude.{◌+◌, ◌≤◌, vec_len, vec_capacity};
    ghost use Rattle.std.specs.List.{All};
    ghost use Rattle.item_types.specs.Bounds.{IsBounded};
    ghost use Rattle.item_types.specs.contracts.value.Value as value;
    ghost use Rattle.std.specs.Coded.{codes};
    ghost use Rattle.item_store.specs.Kept.{Held};

    ghost Value = { Held };

    ghost coded = { Prim.hlevel (codes, value.the_row.coded) };

    ghost view = { λ p. record { values = p.values.items; spare = p.spare } };

    ghost invariant = { λ p. (vec_len p.values + p.spare ≤ vec_capacity p.values) × All IsBounded p.values.items };
}

impl Pile {
    /// No values, and no room. It takes no memory.
    pub fn new(alloc: Global) -> Pile
        ensures { result ≡ nothing }
    {
        Pile {
            values: Vec::new(alloc),
            spare: 0,
        }
    }

    /// Makes room for that many more.
    ///
    /// # Errors
    /// `Memory` for want of memory: the pile is as before.
    pub fn reserve(&mut self, more: u32) -> Result<(), Memory>
        ensures ok { OnOk result (self.new ≡ record self.old { spare = self.old.spare + more }) }
        ensures err { OnErr result (self.new ≡ self.old) }
    {
        let Some(spare) = self.spare.checked_add(more as usize) else {
            return Err(Memory);
        };
        self.values.reserve(spare)?;
        self.spare = spare;
        Ok(())
    }

    /// Appends the value. It takes no memory.
    pub fn put(&mut self, value: Value)
        requires spare { 1 ≤ self.old.spare }
        requires bounded { IsBounded value }
        ensures { self.new ≡ record { values = self.old.values ++ value ∷ []; spare = self.old.spare - 1 } }
    {
        match self.values.push(value) {
            Ok(()) => (),
            Err(_) => unreachable!(),
        }
        self.spare -= 1;
    }

    /// The values in the order of production. It takes no memory.
    pub fn values(&self) -> &[Value]
        ensures value { result.now ≡ self.now.values }
        ensures bounded { All IsBounded self.now.values }
    {
        self.values.as_slice()
    }
}
