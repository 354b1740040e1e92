ghost use Rattle.std.specs.Prelude.{◌≡◌, ℕ, ◌<◌, ◌≤◌, [], ◌∷◌, ◌++◌, ◌⊎◌, ◌↔◌, length, Contains, IsTrue, IfOk, OnOk, slice_index};

use item_types::{Memory, Seq};
use std::alloc::Global;
use std::marker::Model;

/// Numbers below a limit, each at most once, in the order in which they were added.
#[derive(Drop)]
pub struct Marks {
    list: Seq<u32>,
    flags: Vec<bool>,
}

impl Model for Marks {
    ghost use Rattle.std.specs.Prelude.{length};
    ghost use Rattle.chain_builder.specs.Marks.{Numbers, coded_numbers, IsMarked};

    ghost Value = { Numbers };

    ghost coded = { coded_numbers };

    ghost view = { λ m. record { limit = length m.flags.items; items = m.list } };

    ghost invariant = { λ m. IsMarked m.list m.flags.items };
}

impl Marks {
    /// No numbers yet.
    pub fn new(alloc: Global, limit: usize) -> Result<Marks, Memory>
        ensures { IfOk result (λ marks. marks ≡ record { limit = limit; items = [] }) }
    {
        let flags = vec![in alloc; false; limit]?;
        Ok(Marks {
            list: Seq::new(alloc),
            flags,
        })
    }

    pub fn len(&self) -> usize
        ensures count { result ≡ length self.now.items }
        ensures bound { result ≤ self.now.limit }
    {
        self.list.len()
    }

    pub fn limit(&self) -> usize
        ensures value { result ≡ self.now.limit }
        ensures bound { (x : ℕ) → Contains self.now.items x → x < self.now.limit }
    {
        self.flags.len()
    }

    pub fn items(&self) -> &[u32]
        ensures { result.now ≡ self.now.items }
    {
        self.list.as_slice()
    }

    pub fn contains(&self, x: u32) -> bool
        ensures { IsTrue result ↔ Contains self.now.items x }
    {
        let at = x as usize;
        at < self.flags.len() && self.flags[at]
    }

    pub fn get(&self, at: usize) -> u32
        requires { at < length self.now.items }
        ensures value { result ≡ slice_index self.now.items at }
        ensures bound { result < self.now.limit }
    {
        self.list.as_slice()[at]
    }

    /// Adds a number, if it is not there yet.
    pub fn add(&mut self, x: u32) -> Result<(), Memory>
        requires { x < self.old.limit }
        ensures there { OnOk result (Contains self.new.items x) }
        ensures limit { self.new.limit ≡ self.old.limit }
        ensures fresh { OnOk result ((Contains self.old.items x → ⊥) → self.new.items ≡ self.old.items ++ x ∷ []) }
        ensures room { OnOk result (length self.new.items ≤ self.new.limit) }
        ensures items { OnOk result ((self.new.items ≡ self.old.items) ⊎ (self.new.items ≡ self.old.items ++ x ∷ [])) }
    {
        if !self.flags[x as usize] {
            self.list.push(x)?;
            self.flags[x as usize] = true;
        }
        Ok(())
    }
}
