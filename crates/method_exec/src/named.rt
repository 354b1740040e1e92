ghost use Rattle.std.specs.Prelude.{◌≡◌, [], ◌∷◌, ◌++◌, length, take, OnOk};
ghost use Rattle.std.specs.Option.{option_copied};
ghost use Rattle.operators.specs.Found.{found};
ghost use Rattle.method_exec.specs.Shown.{shown};

use item_types::{Memory, Text};
use startup_rules::Slot;
use std::alloc::Global;
use std::marker::Model;

/// Names and their values, the newest last. A newer name hides an older one. The names are
/// borrowed from the method's tree, so that none is copied for a turn of a loop.
#[derive(Drop)]
pub struct Named<'a> {
    entries: Vec<(&'a Text, Slot)>,
}

impl<'a> Model for Named<'a> {
    ghost use Rattle.std.specs.Prelude.{List, ℕ};
    ghost use Rattle.startup_rules.specs.declared.slot.Slot.{Slot as Held};
    ghost use Rattle.startup_rules.specs.contracts.slot.Slot as slot;
    ghost use Rattle.std.specs.Coded.{codes};
    ghost use Rattle.method_exec.specs.Shown.{shown};

    ghost Value = { List (List ℕ × Held) };

    ghost coded = { Prim.hlevel (codes, slot.the_row.coded) };

    ghost view = { λ s. shown s.entries.items };
}

impl<'a> Named<'a> {
    /// No name. It takes no memory.
    pub fn new(alloc: Global) -> Named<'a>
        ensures { result ≡ [] }
    {
        Named {
            entries: Vec::new(alloc),
        }
    }

    /// How many names there are.
    #[tactic(auto, using(crate::proofs::Showing::length_shown))]
    pub fn len(&self) -> usize
        ensures { result ≡ length self.now }
    {
        self.entries.len()
    }

    /// The newest value of that name.
    pub fn newest(&self, name: &str) -> Option<&Slot>
        ensures { option_copied result ≡ found self.now name.now }
    {
        newest(self.entries.as_slice(), name)
    }

    /// A new name.
    ///
    /// # Errors
    /// `Memory` for want of memory.
    #[tactic(auto, using(crate::proofs::Showing::shown_more))]
    pub fn push(&mut self, name: &'a Text, value: Slot) -> Result<(), Memory>
        ensures { OnOk result (self.new ≡ self.old ++ (name.now, value) ∷ []) }
    {
        match self.entries.push((name, value)) {
            Ok(()) => Ok(()),
            Err(_) => Err(Memory),
        }
    }

    /// Only the oldest names stay, that many.
    #[tactic(auto, using(crate::proofs::Showing::shown_take))]
    pub fn truncate(&mut self, count: usize)
        ensures { self.new ≡ take count self.old }
    {
        self.entries.truncate(count);
    }
}

fn newest<'b>(entries: &'b [(&Text, Slot)], name: &str) -> Option<&'b Slot>
    ensures { option_copied result ≡ found (shown entries.now) name.now }
{
    let count = entries.len();
    for i in 0..count {
        let entry = &entries[count - i - 1];
        if entry.0.as_str() == name {
            return Some(&entry.1);
        }
    }
    None
}
