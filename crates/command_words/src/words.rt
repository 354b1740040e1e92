ghost use Rattle.std.specs.Prelude.{◌≡◌, ◌⊎◌, ◌++◌, [], ◌∷◌, Ok, Err, map, string_bytes, ok_or, IfOk};
ghost use Rattle.command_words.specs.Words.{HasWorkers, command_named, command_of, command_of_one, command_of_two, workers_of};

use crate::arguments::read_arguments;
use crate::number::read_number;
use crate::{Command, WordsErr};
use item_types::Text;
use std::alloc::Global;

/// How many workers a build may have.
const WORKERS_LIMIT: u32 = 64;

/// The command that the words after the program's name spell: `plan FILE`, `dump FILE`, or
/// `build FILE OUT` with the option `--workers N`. The first word is the command. The option may
/// stand before, between or after the others, at most once, and takes the next word as its value
/// or has it behind `=`; N is 1 to 64 in decimal digits, 1 where the option is left out. After a
/// word `--` each word is a file; before it another word that begins with `-` and is longer than
/// one character is refused.
///
/// # Errors
/// `Refused` exactly where the words have no such form, `Memory` for want of memory.
pub fn read_words(alloc: Global, words: &[String]) -> Result<Command, WordsErr>
    ensures value { (result ≡ Err WordsErr.Memory) ⊎ (result ≡ ok_or (command_of (map string_bytes words.now)) WordsErr.Refused) }
    ensures workers { IfOk result HasWorkers }
{
    match words {
        [] => Err(WordsErr::Refused),
        [word, rest @ ..] => match read_arguments(alloc, rest) {
            Ok(read) => name_command(
                alloc,
                word.as_str(),
                read.operands.as_slice(),
                read.workers.as_slice(),
            ),
            Err(fault) => Err(fault),
        },
    }
}

/// The command of that name over these operands and values of the option.
fn name_command(
    alloc: Global,
    word: &str,
    operands: &[Text],
    values: &[Text],
) -> Result<Command, WordsErr>
    ensures value { (result ≡ Err WordsErr.Memory) ⊎ (result ≡ ok_or (command_named word.now operands.now values.now) WordsErr.Refused) }
    ensures workers { IfOk result HasWorkers }
{
    match (operands, values) {
        ([file], []) => name_of_one(alloc, word, file.as_str()),
        ([file, out], values) => name_of_two(alloc, word, file.as_str(), out.as_str(), values),
        _ => Err(WordsErr::Refused),
    }
}

/// The command of that name over one file.
fn name_of_one(alloc: Global, word: &str, file: &str) -> Result<Command, WordsErr>
    ensures value { (result ≡ Err WordsErr.Memory) ⊎ (result ≡ ok_or (command_of_one word.now file.now) WordsErr.Refused) }
    ensures workers { IfOk result HasWorkers }
{
    let file = Text::of(alloc, file)?;
    if word == "plan" {
        Ok(Command::Plan { file })
    } else if word == "dump" {
        Ok(Command::Dump { file })
    } else {
        Err(WordsErr::Refused)
    }
}

/// The command of that name over a file and a folder, with the values of the option.
fn name_of_two(
    alloc: Global,
    word: &str,
    file: &str,
    out: &str,
    values: &[Text],
) -> Result<Command, WordsErr>
    ensures value { (result ≡ Err WordsErr.Memory) ⊎ (result ≡ ok_or (command_of_two word.now file.now out.now (workers_of values.now)) WordsErr.Refused) }
    ensures workers { IfOk result HasWorkers }
{
    if word != "build" {
        return Err(WordsErr::Refused);
    }
    let file = Text::of(alloc, file)?;
    let out = Text::of(alloc, out)?;
    let workers = read_workers(alloc, values)?;
    Ok(Command::Build { file, out, workers })
}

/// How many workers the values ask for.
fn read_workers(alloc: Global, values: &[Text]) -> Result<u32, WordsErr>
    ensures { (result ≡ Err WordsErr.Memory) ⊎ (result ≡ ok_or (workers_of values.now) WordsErr.Refused) }
{
    match values {
        [] => Ok(1),
        [value] => match read_number(alloc, value.as_str(), WORKERS_LIMIT)? {
            Some(workers) => Ok(workers),
            None => Err(WordsErr::Refused),
        },
        _ => Err(WordsErr::Refused),
    }
}
