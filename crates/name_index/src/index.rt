ghost use Rattle.std.specs.Prelude.{◌≡◌, ◌<◌, ◌-◌, [], ◌∷◌, ◌++◌, length, take, IfOk, OnOk, OnErr, IfSome};
ghost use Rattle.name_index.specs.Place.{place};

use crate::noting::{note, take_back};
use item_types::Memory;
use std::alloc::Global;
use std::collections::HashMap;
use std::marker::Model;

/// Names in a row, of which the first that equals a text is found without a look at the others.
/// Contracts see the list of the names.
#[derive(Drop)]
pub struct Index<'a> {
    names: Vec<&'a str>,
    places: HashMap<&'a str, usize>,
}

impl<'a> Model for Index<'a> {
    ghost use Rattle.std.specs.Prelude.{List, ℕ};
    ghost use Rattle.name_index.specs.Indexed.{texts, IsIndexed};

    ghost Value = { List (List ℕ) };

    ghost view = { λ x. texts x.names.items };

    ghost invariant = { λ x. IsIndexed x.places (texts x.names.items) };
}

impl<'a> Index<'a> {
    /// No names. It takes no memory.
    pub fn new(alloc: Global) -> Index<'a>
        ensures { result ≡ [] }
    {
        Index {
            names: Vec::new(alloc),
            places: HashMap::new(alloc),
        }
    }

    /// How many names.
    pub fn len(&self) -> usize
        ensures { result ≡ length self.now }
    {
        self.names.len()
    }

    /// Where the first of the names stands that equals the text. It takes no memory.
    pub fn place(&self, text: &str) -> Option<usize>
        ensures answer { result ≡ place self.now text.now }
        ensures within { IfSome result (λ n. n < length self.now) }
    {
        self.places.get(text).copied()
    }

    /// Puts one more name behind the others.
    ///
    /// # Errors
    /// `Memory` for want of memory; the names stay as they were.
    pub fn push(&mut self, name: &'a str) -> Result<(), Memory>
        ensures ok { OnOk result (self.new ≡ self.old ++ name.now ∷ []) }
        ensures err { OnErr result (self.new ≡ self.old) }
    {
        let place = self.names.len();
        match self.names.push(name) {
            Ok(()) => {}
            Err(_) => return Err(Memory),
        }
        match note(&mut self.places, name, place) {
            Ok(()) => Ok(()),
            Err(Memory) => {
                self.names.pop();
                Err(Memory)
            }
        }
    }

    /// The names with one more.
    ///
    /// # Errors
    /// `Memory` for want of memory.
    pub fn with(self, name: &'a str) -> Result<Index<'a>, Memory>
        ensures { IfOk result (λ x. x ≡ self.entry ++ name.now ∷ []) }
    {
        let mut names = self;
        names.push(name)?;
        Ok(names)
    }

    /// Takes the last name away, if there is one.
    fn pop(&mut self)
        ensures { self.new ≡ take (length self.old - 1) self.old }
    {
        if let Some(name) = self.names.pop() {
            take_back(&mut self.places, name, self.names.len());
        }
    }

    /// Takes the names behind the first `len` away. It takes no memory.
    pub fn truncate(&mut self, len: usize)
        ensures { self.new ≡ take len self.old }
    {
        for _ in len..self.len() {
            self.pop();
        }
    }
}
