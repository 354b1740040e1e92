ghost use Rattle.std.specs.Prelude.{◌≡◌};
ghost use Rattle.ext_parser.specs.Faults.{fault_of};
ghost use Rattle.ext_parser.specs.declared.fault.ProjectFault.TheVariants as fault;

use ext_draft::DraftFault;
use item_types::{Memory, Text};
use std::alloc::AllocError;
use step_lang::LangFault;

/// Why a file's bytes are no project. A path says where, as `extensions[0].steps[2].consumes[1]`.
#[derive(Debug, Drop)]
pub enum ProjectFault {
    /// A list or a body is too long, or the file is; `found` is its length, or the sum so far where
    /// a limit counts over the whole file.
    Limit { path: Text, found: u64 },
    /// The bytes aren't TOML.
    Toml,
    /// A required key is absent, a value has another type or form than its key asks for, or the
    /// key is unknown.
    Field(Text),
    /// A text isn't a name.
    Name(Text),
    /// A name or an item stands there for the second time.
    Repeated(Text),
    /// An item isn't declared, or a condition is no key of `config`.
    Unknown(Text),
    /// A body or a method is no sentence of the language, or has a name that is wrong there.
    Body(Text, LangFault),
    /// Want of memory.
    Memory,
}

impl From<Memory> for ProjectFault {
    ghost from_gives = { λ _ e. e ≡ fault.Memory };

    fn from(_error: Memory) -> ProjectFault {
        ProjectFault::Memory
    }
}

impl From<AllocError> for ProjectFault {
    ghost from_gives = { λ _ e. e ≡ fault.Memory };

    fn from(_error: AllocError) -> ProjectFault {
        ProjectFault::Memory
    }
}

/// A fault of the first walk.
pub fn fault_of(fault: DraftFault) -> ProjectFault
    ensures { result ≡ fault_of fault }
{
    match fault {
        DraftFault::Limit { path, found } => ProjectFault::Limit { path, found },
        DraftFault::Toml => ProjectFault::Toml,
        DraftFault::Field(path) => ProjectFault::Field(path),
        DraftFault::Name(path) => ProjectFault::Name(path),
        DraftFault::Memory => ProjectFault::Memory,
    }
}
