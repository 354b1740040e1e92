ghost use Rattle.std.specs.Prelude.{◌≡◌};
ghost use Rattle.syntax_tree.specs.Naming as spec;
ghost use Rattle.name_directory.specs.Numbers.{IsRegister, number_at};

use crate::register::Register;
use item_types::{Names, Text};
use std::marker::Model;
use syntax_tree::NO_NUMBER;

/// What is declared, where each name is found by a map. Contracts see what is declared.
#[derive(Drop)]
pub struct Directory<'a> {
    names: &'a Names,
    register: &'a Register,
}

impl<'a> Model for Directory<'a> {
    ghost use Rattle.item_types.specs.declared.decl.Names.{Names};
    ghost use Rattle.name_directory.specs.Numbers.{IsRegister};

    ghost Value = { Names };

    ghost view = { λ d. d.names.now };

    ghost invariant = { λ d. IsRegister d.names.now d.register.now };
}

/// The number of a place.
fn number_at(place: Option<usize>) -> u32
    ensures { result ≡ number_at place }
{
    match place {
        Some(place) => {
            if place < NO_NUMBER as usize {
                place as u32
            } else {
                NO_NUMBER
            }
        }
        None => NO_NUMBER,
    }
}

impl<'a> Directory<'a> {
    /// The directory of all that is declared, which the register is of. It takes no memory.
    pub fn new(names: &'a Names, register: &'a Register) -> Directory<'a>
        requires { IsRegister names.now register.now }
        ensures { result ≡ names.now }
    {
        Directory { names, register }
    }

    /// All that is declared.
    pub fn names(&self) -> &'a Names
        ensures { result.now ≡ self.now }
    {
        self.names
    }

    /// The number of the item of that name: its place among all items, from 0; [`NO_NUMBER`] where
    /// there is none. It takes no memory, nor do the others.
    pub fn item_number(&self, word: &Text) -> u32
        ensures { result ≡ spec.item_number self.now word.now }
    {
        number_at(self.register.items.get(word.as_str()).copied())
    }

    /// The number of the bean of that name, as [`Directory::item_number`].
    pub fn bean_number(&self, word: &Text) -> u32
        ensures { result ≡ spec.bean_number self.now word.now }
    {
        number_at(self.register.beans.get(word.as_str()).copied())
    }

    /// The number of the recorder of that name, as [`Directory::item_number`].
    pub fn recorder_number(&self, word: &Text) -> u32
        ensures { result ≡ spec.recorder_number self.now word.now }
    {
        number_at(self.register.recorders.get(word.as_str()).copied())
    }

    /// The number of a recorder's method: its place among the recorder's methods, from 0;
    /// [`NO_NUMBER`] where there is no such recorder, or it has no such method.
    pub fn method_number(&self, recorder: &Text, word: &Text) -> u32
        ensures { result ≡ spec.method_number self.now recorder.now word.now }
    {
        let number = self.recorder_number(recorder);
        match self.register.methods.as_slice().get(number as usize) {
            Some(places) => number_at(places.get(word.as_str()).copied()),
            None => NO_NUMBER,
        }
    }
}
