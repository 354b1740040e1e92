ghost use Rattle.std.specs.Prelude.{◌≡◌};

use item_types::{Memory, Text};
use std::alloc::AllocError;
use thiserror::Error;

/// What the words of a command line ask for. The names are those of the shelf.
#[derive(Drop)]
pub enum Command {
    /// To read the project in `file`, build its chain and print its plan.
    Plan { file: Text },
    /// To run the steps of the project in `file` by that many workers, 1 to 64, and to write and
    /// print what they did; `out` stands before the names of what is written.
    Build { file: Text, out: Text, workers: u32 },
    /// To read the class file `file` and print its dump.
    Dump { file: Text },
}

/// Why words name no command.
#[derive(Debug, Drop, Error)]
pub enum WordsErr {
    /// The words have none of the forms.
    #[error("no such command line")]
    Refused,
    /// Want of memory.
    #[error("out of memory")]
    Memory,
}

impl From<Memory> for WordsErr {
    ghost use Rattle.command_words.specs.declared.command.WordsErr.TheVariants as err;

    ghost from_gives = { λ _ e. e ≡ err.Memory };

    fn from(_want: Memory) -> WordsErr
        ensures { result ≡ WordsErr.Memory }
    {
        WordsErr::Memory
    }
}
