ghost use Rattle.std.specs.Prelude.{◌≡◌, ◌≤◌, IfOk};
ghost use Rattle.command_words.specs.Numbers.{number_to};

use item_types::Memory;
use std::alloc::Global;

/// The number from 1 to `limit` whose decimal digits the word is; `None` for any other word.
///
/// # Errors
/// `Memory` for want of memory.
pub fn read_number(alloc: Global, word: &str, limit: u32) -> Result<Option<u32>, Memory>
    ensures { IfOk result (λ number. number ≡ number_to limit word.now) }
{
    let Ok(number) = word.parse::<u32>() else {
        return Ok(None);
    };
    if number < 1 || limit < number {
        return Ok(None);
    }
    // A sign and a leading zero aren't printed.
    let digits = number.to_string(alloc)?;
    if digits.as_str() == word {
        Ok(Some(number))
    } else {
        Ok(None)
    }
}
