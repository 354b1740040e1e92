ghost use Rattle.std.specs.Prelude.{◌≡◌, ◌+◌, ◌<◌, ◌≤◌, ℕ, [], ◌∷◌, ◌++◌, length, slice_index_or, IfOk, OnOk, OnErr};
ghost use Rattle.std.specs.List.{All};
ghost use Rattle.item_types.specs.Bounds.{IsBounded};
ghost use Rattle.value_order.specs.Found.{found, kind_of, HasKey, IsFound};
ghost use Rattle.item_store.specs.Kept.{nothing, held_of, values_of, spare_of, SameElsewhere};

use crate::pile::Pile;
use item_types::{Memory, Names, Same, Seq, Value};
use std::alloc::Global;
use std::marker::Model;
use value_order::found;

/// The values that were put of each item, in the order of production, and for each item how many
/// more take no memory.
///
/// Each value of an ordered item has a whole number in the item's field, and each value is within
/// the bounds on values.
#[derive(Drop)]
pub struct Store {
    names: Names,
    held: Vec<Pile>,
}

impl Model for Store {
    ghost use Rattle.std.specs.Prelude.{◌≡◌, ℕ, length};
    ghost use Rattle.item_types.specs.contracts.value.Value as value;
    ghost use Rattle.std.specs.Coded.{codes};
    ghost use Rattle.item_store.specs.Kept.{Kept, HaveKeys};

    ghost Value = { Kept };

    ghost coded = { Prim.hlevel (codes, value.the_row.coded) };

    ghost view = { λ s. record { names = s.names; held = s.held.items } };

    ghost invariant = { λ s. (length s.held.items ≡ length s.names.items) × HaveKeys s.names s.held.items };
}

impl Store {
    /// A store of these items with no values and no room.
    ///
    /// # Errors
    /// `Memory` for want of memory.
    pub fn new(alloc: Global, names: &Names) -> Result<Store, Memory>
        ensures names { IfOk result (λ s. s.names ≡ names.now) }
        ensures empty { IfOk result (λ s. (item : ℕ) → held_of s item ≡ nothing) }
    {
        let mut held = Seq::new(alloc);
        for _item in names.items.as_slice() {
            held.push(Pile::new(alloc))?;
        }
        Ok(Store {
            names: names.try_copy(alloc)?,
            held: held.into_vec(),
        })
    }

    /// Makes room for that many more values of the item.
    ///
    /// # Errors
    /// `Memory` for want of memory: the store is as before.
    pub fn reserve(&mut self, item: u32, more: u32) -> Result<(), Memory>
        requires { item < length self.old.names.items }
        ensures values { values_of self.new item ≡ values_of self.old item }
        ensures spare { OnOk result (spare_of self.new item ≡ spare_of self.old item + more) }
        ensures others { SameElsewhere item self.old self.new }
        ensures err { OnErr result (self.new ≡ self.old) }
    {
        let pile = &mut self.held[item as usize];
        pile.reserve(more)
    }

    /// Appends the value to those of the item. It takes no memory.
    pub fn put(&mut self, item: u32, value: Value)
        requires spare { 1 ≤ spare_of self.old item }
        requires key { HasKey self.old.names (kind_of self.old.names item) value }
        requires bounded { IsBounded value }
        ensures values { values_of self.new item ≡ values_of self.old item ++ value ∷ [] }
        ensures spare { spare_of self.new item + 1 ≡ spare_of self.old item }
        ensures others { SameElsewhere item self.old self.new }
    {
        let pile = &mut self.held[item as usize];
        pile.put(value);
    }

    /// A copy of the values of the item as a consumer finds them: in the order of production,
    /// those of an ordered item sorted by their whole numbers, and none of an empty item.
    ///
    /// # Errors
    /// `Memory` for want of memory.
    pub fn found(&self, alloc: Global, item: u32) -> Result<Seq<Value>, Memory>
        ensures value { IfOk result (λ s. s ≡ found self.now.names (kind_of self.now.names item) (values_of self.now item)) }
        ensures places { IfOk result (λ s. IsFound self.now.names (kind_of self.now.names item) (values_of self.now item) s) }
        ensures bounded { IfOk result (λ s. All IsBounded s) }
        ensures keyed { IfOk result (λ s. All (HasKey self.now.names (kind_of self.now.names item)) s) }
    {
        found(
            alloc,
            &self.names,
            item,
            values_at(self.held.as_slice(), item),
        )
    }
}

fn values_at(held: &[Pile], item: u32) -> &[Value]
    ensures value { result.now ≡ (slice_index_or held.now item nothing).values }
    ensures bounded { All IsBounded result.now }
{
    match held.get(item as usize) {
        Some(pile) => pile.values(),
        None => &[],
    }
}
