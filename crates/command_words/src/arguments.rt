ghost use Rattle.std.specs.Prelude.{◌≡◌, ◌⊎◌, false, Ok, Err, map, string_bytes, option_map, ok_or};
ghost use Rattle.command_words.specs.Arguments.{and_then, arguments, as_value, is_option, joined_value, operands, single};

use crate::WordsErr;
use item_types::{Seq, Text};
use std::alloc::Global;

/// What the words after the command are.
#[derive(Drop)]
pub struct Arguments {
    /// The words that are no option and no option's value, in order.
    pub operands: Seq<Text>,
    /// The values that the option `--workers` is given, in order.
    pub workers: Seq<Text>,
}

/// Reads the words after the command.
///
/// # Errors
/// `Refused` where one looks like an option and is none, or an option has no value; `Memory` for
/// want of memory.
pub fn read_arguments(alloc: Global, words: &[String]) -> Result<Arguments, WordsErr>
    ensures { (result ≡ Err WordsErr.Memory) ⊎ (result ≡ ok_or (arguments false (map string_bytes words.now)) WordsErr.Refused) }
{
    let mut read = Arguments {
        operands: Seq::new(alloc),
        workers: Seq::new(alloc),
    };
    let mut is_value = false;
    for (at, word) in words.iter().enumerate() {
        let word = word.as_str();
        if is_value {
            read = with_value(alloc, read, word)?;
            is_value = false;
        } else if word == "--" {
            return with_operands(alloc, read, &words[at + 1..]);
        } else if word == "--workers" {
            is_value = true;
        } else {
            read = with_word(alloc, read, word)?;
        }
    }
    if is_value {
        return Err(WordsErr::Refused);
    }
    Ok(read)
}

/// The arguments and then the value that a word is, which `--` can't be.
fn with_value(alloc: Global, read: Arguments, word: &str) -> Result<Arguments, WordsErr>
    ensures { (result ≡ Err WordsErr.Memory) ⊎ (result ≡ ok_or (option_map (and_then read) (as_value word.now)) WordsErr.Refused) }
{
    if word == "--" {
        return Err(WordsErr::Refused);
    }
    let mut read = read;
    read.workers.push(Text::of(alloc, word)?)?;
    Ok(read)
}

/// The arguments and then what a word gives that stands for itself.
fn with_word(alloc: Global, read: Arguments, word: &str) -> Result<Arguments, WordsErr>
    ensures { (result ≡ Err WordsErr.Memory) ⊎ (result ≡ ok_or (option_map (and_then read) (single word.now (joined_value word.now))) WordsErr.Refused) }
{
    let mut read = read;
    match word.strip_prefix("--workers=") {
        Some(value) => read.workers.push(Text::of(alloc, value)?)?,
        None if is_option(word) => return Err(WordsErr::Refused),
        None => read.operands.push(Text::of(alloc, word)?)?,
    }
    Ok(read)
}

/// The arguments and then these words as operands.
fn with_operands(alloc: Global, read: Arguments, words: &[String]) -> Result<Arguments, WordsErr>
    ensures { (result ≡ Err WordsErr.Memory) ⊎ (result ≡ Ok (and_then read (operands (map string_bytes words.now)))) }
{
    let mut read = read;
    for word in words {
        read.operands.push(Text::of(alloc, word.as_str())?)?;
    }
    Ok(read)
}

/// Whether the word begins with `-` and is longer than one character.
fn is_option(word: &str) -> bool
    ensures { result ≡ is_option word.now }
{
    matches!(word.as_bytes(), [b'-', _, ..])
}
