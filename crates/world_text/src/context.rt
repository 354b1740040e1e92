ghost use Rattle.std.specs.Prelude.{◌≡◌, ◌++◌, string_bytes, OnOk};
ghost use Rattle.std.specs.List.{list_any};
ghost use Rattle.std.specs.Str.{chars};
ghost use Rattle.world_text.specs.WorldText.{is_control, key_text, context_text};

use crate::numbering::Numbers;
use crate::object::push_slot;
use item_types::{Memory, Text, push_quoted};
use startup_rules::Slot;

/// Whether the text has a character that could end a line or be taken for another one.
fn has_control(text: &str) -> bool
    ensures { result ≡ list_any is_control (chars text.now) }
{
    text.chars().any(|c| c < ' ' || c == '\u{7f}')
}

/// Appends a key as it is, or quoted where it has a control character.
fn push_key(key: &str, out: &mut String) -> Result<(), Memory>
    ensures { OnOk result (string_bytes out.new ≡ string_bytes out.old ++ key_text key.now) }
{
    if has_control(key) {
        push_quoted(key, out)
    } else {
        out.push_str(key)?;
        Ok(())
    }
}

/// Appends a line for each pair of the context.
pub fn push_context(
    pairs: &[(Text, Slot)],
    numbers: &Numbers,
    out: &mut String,
) -> Result<(), Memory>
    ensures { OnOk result (string_bytes out.new ≡ string_bytes out.old ++ context_text numbers.now pairs.now) }
{
    for pair in pairs {
        out.push_str("context ")?;
        push_key(pair.0.as_str(), out)?;
        out.push_str(" = ")?;
        push_slot(&pair.1, numbers, out)?;
        out.push_str("\n")?;
    }
    Ok(())
}
