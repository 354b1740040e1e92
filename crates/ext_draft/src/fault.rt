ghost use Rattle.std.specs.Prelude.{◌≡◌};
ghost use Rattle.ext_draft.specs.declared.fault.DraftFault.TheVariants as fault;

use item_types::{Memory, Text};
use std::alloc::AllocError;

/// Why a file's bytes give no draft. A path says where, as `extensions[0].steps[2].consumes[1]`.
#[derive(Debug, Drop)]
pub enum DraftFault {
    /// A list or a body is too long, or the file is; `found` is its length, or the sum so far where
    /// a limit counts over the whole file.
    Limit { path: Text, found: u64 },
    /// The bytes aren't TOML.
    Toml,
    /// A required key is absent, a value has another type or form than its key asks for, or the
    /// key is unknown.
    Field(Text),
    /// A text isn't a name.
    Name(Text),
    /// Want of memory.
    Memory,
}

impl From<Memory> for DraftFault {
    ghost from_gives = { λ _ e. e ≡ fault.Memory };

    fn from(_error: Memory) -> DraftFault {
        DraftFault::Memory
    }
}

impl From<AllocError> for DraftFault {
    ghost from_gives = { λ _ e. e ≡ fault.Memory };

    fn from(_error: AllocError) -> DraftFault {
        DraftFault::Memory
    }
}
