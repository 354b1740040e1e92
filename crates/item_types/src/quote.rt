ghost use Rattle.std.specs.Prelude.{◌≡◌, ◌++◌, string_bytes, OnOk};
ghost use Rattle.std.specs.Str.{chars};
ghost use Rattle.std.specs.List.{flat_map};
ghost use Rattle.item_types.specs.Quoted.{escaped, quoted};

use crate::memory::Memory;

/// Appends the text between quotes, with escapes where a character doesn't stand for itself.
///
/// # Errors
/// `Memory` for want of memory.
pub fn push_quoted(text: &str, out: &mut String) -> Result<(), Memory>
    ensures { OnOk result (string_bytes out.new ≡ string_bytes out.old ++ quoted text.now) }
{
    out.push_str("\"")?;
    push_all_escaped(text, out)?;
    out.push_str("\"")?;
    Ok(())
}

fn push_all_escaped(text: &str, out: &mut String) -> Result<(), Memory>
    ensures { OnOk result (string_bytes out.new ≡ string_bytes out.old ++ flat_map escaped (chars text.now)) }
{
    for c in text.chars() {
        push_escaped(c, out)?;
    }
    Ok(())
}

/// A character as a quoted text shows it.
fn push_escaped(c: char, out: &mut String) -> Result<(), Memory>
    ensures { OnOk result (string_bytes out.new ≡ string_bytes out.old ++ escaped c) }
{
    match c {
        '"' => out.push_str("\\\"")?,
        '\\' => out.push_str("\\\\")?,
        '\n' => out.push_str("\\n")?,
        '\t' => out.push_str("\\t")?,
        '\u{0}'..='\u{1f}' | '\u{7f}' => {
            let code = c as u32;
            write!(out, "\\u{{{code:x}}}")?;
        }
        _ => out.push(c)?,
    }
    Ok(())
}
