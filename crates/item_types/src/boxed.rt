ghost use Rattle.std.specs.Prelude.{◌≡◌, IfOk};

use crate::memory::Memory;
use std::alloc::Global;
use std::marker::Model;

/// A part of a tree, behind a pointer, so that the part may be a tree of the same kind. Contracts
/// don't see the pointer: they see the part.
#[derive(Debug, Drop)]
pub struct Boxed<T> {
    part: Box<T>,
}

impl<T> Model for Boxed<T> {
    ghost Value = { T };

    ghost coded = { T.code };

    ghost view = { λ boxed. boxed.part.value };
}

impl<T: Drop> Boxed<T> {
    /// Puts the part behind a pointer.
    ///
    /// # Errors
    /// `Memory` for want of memory: the part is given up.
    pub fn new(alloc: Global, part: T) -> Result<Boxed<T>, Memory>
        ensures { IfOk result (λ boxed. boxed ≡ part) }
    {
        match Box::new(alloc, part) {
            Ok(part) => Ok(Boxed { part }),
            Err(_) => Err(Memory),
        }
    }
}

impl<T> Boxed<T> {
    /// The part, to be read. It takes no memory.
    pub fn get(&self) -> &T
        ensures { result.now ≡ self.now }
    {
        &self.part
    }

    /// The part, and the pointer is given back.
    pub fn into_inner(self) -> T
        ensures { result ≡ self }
    {
        let Boxed { part } = self;
        Box::into_inner(part)
    }
}
