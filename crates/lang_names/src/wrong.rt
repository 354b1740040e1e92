ghost use Rattle.std.specs.Prelude.{◌≡◌};
ghost use Rattle.lang_names.specs.declared.wrong.NameFault.TheVariants as faults;
ghost use Rattle.lang_names.specs.Checked as spec;

use item_types::Memory;

/// A name that may not stand at a token.
#[derive(Clone, Copy, Debug, PartialEq, Eq)]
pub enum Wrong {
    /// Nothing has the name.
    Unknown { at: u32 },
    /// What has the name may not be used there.
    Undeclared { at: u32 },
}

/// Why the names aren't all right.
#[derive(Debug, Drop)]
pub enum NameFault {
    Memory,
    Wrong(Wrong),
}

impl From<Memory> for NameFault {
    ghost from_gives = { λ _ e. e ≡ faults.Memory };

    fn from(_e: Memory) -> NameFault {
        NameFault::Memory
    }
}

impl From<Wrong> for NameFault {
    ghost from_gives = { λ w e. e ≡ faults.Wrong w };

    fn from(wrong: Wrong) -> NameFault {
        NameFault::Wrong(wrong)
    }
}

/// The number of a later token.
pub(crate) fn later(at: u32, by: u32) -> u32
    ensures { result ≡ spec.later at by }
{
    if at > u32::MAX - by {
        u32::MAX
    } else {
        at + by
    }
}

pub(crate) fn known(holds: bool, at: u32) -> Result<(), Wrong>
    ensures { result ≡ spec.known holds at }
{
    if holds {
        Ok(())
    } else {
        Err(Wrong::Unknown { at })
    }
}

pub(crate) fn fitting(holds: bool, at: u32) -> Result<(), Wrong>
    ensures { result ≡ spec.fitting holds at }
{
    if holds {
        Ok(())
    } else {
        Err(Wrong::Undeclared { at })
    }
}
