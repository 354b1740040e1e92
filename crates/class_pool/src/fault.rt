ghost use Rattle.std.specs.Prelude.{◌≡◌};
ghost use Rattle.class_pool.specs.declared.fault.ClassFault.TheVariants.{Memory};

use std::alloc::{AllocError, AllocFailed};

/// Why bytes are no class file: the first place, from front to back, where they go wrong.
#[derive(Clone, Copy, Debug)]
pub enum ClassFault {
    /// The first four bytes aren't `cafebabe`.
    Magic,
    /// The minor version isn't 0, or the major version isn't 49 to 65.
    Version,
    /// The number or run of bytes at this offset isn't whole.
    Short { at: u32 },
    /// The pool entry of this index is wrong, or with 0 the pool's count is.
    Pool { index: u16 },
    /// The index at this offset refers to no entry of the right kind, or the code there is wrong.
    Shape { at: u32 },
    /// Bytes follow the class, the first of them at this offset.
    Trailing { at: u32 },
    /// Want of memory. It says nothing of the bytes.
    Memory,
}

impl From<AllocError> for ClassFault {
    ghost from_gives = { λ _ e. e ≡ Memory };

    fn from(_error: AllocError) -> ClassFault {
        ClassFault::Memory
    }
}

impl<T: Drop> From<AllocFailed<T>> for ClassFault {
    ghost from_gives = { λ _ e. e ≡ Memory };

    fn from(_error: AllocFailed<T>) -> ClassFault {
        ClassFault::Memory
    }
}

impl From<item_types::Memory> for ClassFault {
    ghost from_gives = { λ _ e. e ≡ Memory };

    fn from(_error: item_types::Memory) -> ClassFault {
        ClassFault::Memory
    }
}
