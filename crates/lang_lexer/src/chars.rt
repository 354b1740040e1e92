ghost use Rattle.std.specs.Prelude.{◌≡◌, ◌≤◌, length, IfOk};
ghost use Rattle.std.specs.Str.{chars, encode_utf8_all};

use item_types::{Memory, Seq, Text};
use std::alloc::Global;

/// The characters of a text.
pub(crate) fn chars_of(alloc: Global, text: &str) -> Result<Seq<char>, Memory>
    ensures all { IfOk result (λ cs. cs ≡ chars text.now) }
    ensures few { IfOk result (λ cs. length cs ≤ length text.now) }
{
    let mut found = Seq::with_capacity(alloc, text.len())?;
    for c in text.chars() {
        found.push(c)?;
    }
    Ok(found)
}

/// The text of these characters.
pub(crate) fn text_of(alloc: Global, chars: &[char]) -> Result<Text, Memory>
    ensures { IfOk result (λ t. t ≡ encode_utf8_all chars.now) }
{
    let mut text = String::with_capacity(alloc, chars.len())?;
    for c in chars {
        text.push(*c)?;
    }
    Ok(Text::from_string(text))
}
