ghost use Rattle.std.specs.Prelude.{◌≡◌, [], ◌∷◌, ◌++◌, length, IfOk, OnOk, OnErr};

use crate::memory::Memory;
use std::alloc::Global;
use std::marker::Model;

/// Declarations, statements, values or other elements in order. It grows at its end.
///
/// Contracts see the list of the elements, and nothing of the room that is left behind them: two
/// of the same elements are equal.
#[derive(Debug, Drop)]
pub struct Seq<T> {
    elements: Vec<T>,
}

/// Bytes, as files hold them.
pub type Bytes = Seq<u8>;

impl<T> Model for Seq<T> {
    ghost use Rattle.std.specs.Prelude.{List};
    ghost use Rattle.std.specs.Coded.{coded_list};

    ghost Value = { List T };

    ghost coded = { coded_list T.code };

    ghost view = { λ seq. seq.elements.items };
}

impl<T> Seq<T> {
    /// No element. It takes no memory.
    pub fn new(alloc: Global) -> Seq<T>
        ensures { result ≡ [] }
    {
        Seq::from_vec(Vec::new(alloc))
    }

    /// No element, and room for that many.
    ///
    /// # Errors
    /// `Memory` for want of memory.
    pub fn with_capacity(alloc: Global, room: usize) -> Result<Seq<T>, Memory>
        ensures { IfOk result (λ seq. seq ≡ []) }
    {
        let elements = Vec::with_capacity(alloc, room)?;
        Ok(Seq { elements })
    }

    /// The elements of a `Vec`. It takes no memory.
    pub fn from_vec(elements: Vec<T>) -> Seq<T>
        ensures { result ≡ elements.items }
    {
        Seq { elements }
    }

    /// The elements as a `Vec`, which can be changed anywhere. It takes no memory.
    pub fn into_vec(self) -> Vec<T>
        ensures { result.items ≡ self }
    {
        let Seq { elements } = self;
        elements
    }

    /// The elements, to be read. It takes no memory.
    pub fn as_slice(&self) -> &[T]
        ensures { result.now ≡ self.now }
    {
        self.elements.as_slice()
    }

    /// How many elements there are.
    pub fn len(&self) -> usize
        ensures { result ≡ length self.now }
    {
        self.elements.len()
    }
}

impl<T: Drop> Seq<T> {
    /// Puts one more element at the end.
    ///
    /// # Errors
    /// `Memory` for want of memory: the elements are as before, and the new one is given up.
    pub fn push(&mut self, element: T) -> Result<(), Memory>
        ensures ok { OnOk result (self.new ≡ self.old ++ element ∷ []) }
        ensures err { OnErr result (self.new ≡ self.old) }
    {
        match self.elements.push(element) {
            Ok(()) => Ok(()),
            Err(_) => Err(Memory),
        }
    }
}
