ghost use Rattle.std.specs.Prelude.{◌≡◌, [], ◌∷◌, ◌++◌, length, take, OnOk, OnErr};
ghost use Rattle.std.specs.Option.{option_copied};
ghost use Rattle.operators.specs.Found.{found};
ghost use Rattle.step_state.specs.Bound.{bound};

use item_types::Memory;
use std::alloc::Global;
use std::marker::Model;

/// The names in scope and their values, the newest last. A newer name hides an older one. The
/// names are those of the tree that is evaluated.
#[derive(Drop)]
pub struct Scope<'a, V> {
    entries: Vec<(&'a str, V)>,
}

impl<'a, V> Model for Scope<'a, V> {
    ghost use Rattle.std.specs.Prelude.{List, ℕ};
    ghost use Rattle.std.specs.Coded.{coded_list, coded×, coded_ℕ};
    ghost use Rattle.step_state.specs.Bound.{bound};

    ghost Value = { List (List ℕ × V) };

    ghost coded = { coded_list (coded× (coded_list coded_ℕ) V.code) };

    ghost view = { λ s. bound s.entries.items };
}

impl<'a, V: Drop> Scope<'a, V> {
    /// No name. It takes no memory.
    pub fn new(alloc: Global) -> Scope<'a, V>
        ensures { result ≡ [] }
    {
        Scope {
            entries: Vec::new(alloc),
        }
    }

    /// How many names there are.
    pub fn len(&self) -> usize
        ensures { result ≡ length self.now }
    {
        self.entries.len()
    }

    /// The newest value of that name.
    pub fn newest(&self, name: &str) -> Option<&V>
        ensures { option_copied result ≡ found self.now name.now }
    {
        newest(self.entries.as_slice(), name)
    }

    /// A new name.
    ///
    /// # Errors
    /// `Memory` for want of memory: the scope is as before.
    pub fn push(&mut self, name: &'a str, value: V) -> Result<(), Memory>
        ensures ok { OnOk result (self.new ≡ self.old ++ (name.now, value) ∷ []) }
        ensures err { OnErr result (self.new ≡ self.old) }
    {
        match self.entries.push((name, value)) {
            Ok(()) => Ok(()),
            Err(_) => Err(Memory),
        }
    }

    /// The names and their values, in order.
    pub(crate) fn as_slice(&self) -> &[(&'a str, V)]
        ensures { bound result.now ≡ self.now }
    {
        self.entries.as_slice()
    }

    /// The names and their values, in order.
    pub(crate) fn into_entries(self) -> Vec<(&'a str, V)>
        ensures { bound result.items ≡ self.entry }
    {
        let Scope { entries } = self;
        entries
    }

    /// Only the oldest names stay, that many.
    #[tactic(auto, using(crate::proofs::Borrowed::take_bound))]
    pub fn truncate(&mut self, count: usize)
        ensures { self.new ≡ take count self.old }
    {
        self.entries.truncate(count);
    }
}

/// The value of the last entry of that name.
pub(crate) fn newest<'a, 'b, V>(entries: &'b [(&'a str, V)], name: &str) -> Option<&'b V>
    ensures { option_copied result ≡ found (bound entries.now) name.now }
{
    let count = entries.len();
    for i in 0..count {
        let entry = &entries[count - i - 1];
        if entry.0 == name {
            return Some(&entry.1);
        }
    }
    None
}
