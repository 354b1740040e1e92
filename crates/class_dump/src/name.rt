ghost use Rattle.std.specs.Prelude.{◌≡◌, ◌++◌, string_bytes, OnOk};
ghost use Rattle.std.specs.List.{list_any};
ghost use Rattle.std.specs.Option.{option_copied};
ghost use Rattle.std.specs.Str.{chars};
ghost use Rattle.class_pool.specs.Entries.{entry_at};
ghost use Rattle.class_dump.specs.Names as spec;

use class_pool::Entry;
use item_types::{Memory, push_quoted};

fn entry_at(pool: &[Entry], index: u16) -> Option<&Entry>
    ensures { option_copied result ≡ entry_at pool.now index }
{
    if index == 0 {
        return None;
    }
    pool.get(index as usize - 1)
}

fn text_of(pool: &[Entry], index: u16) -> &str
    ensures { result.now ≡ spec.text_of (entry_at pool.now index) }
{
    match entry_at(pool, index) {
        Some(Entry::Utf8(text)) => text.as_str(),
        _ => "",
    }
}

fn class_name_of(pool: &[Entry], index: u16) -> &str
    ensures { result.now ≡ spec.class_name_of pool.now (entry_at pool.now index) }
{
    match entry_at(pool, index) {
        Some(Entry::Class(name)) => text_of(pool, *name),
        _ => "",
    }
}

fn has_control(text: &str) -> bool
    ensures { result ≡ list_any spec.is_control (chars text.now) }
{
    text.chars().any(|c| c < ' ' || c == '\u{7f}')
}

fn push_name(text: &str, out: &mut String) -> Result<(), Memory>
    ensures { OnOk result (string_bytes out.new ≡ string_bytes out.old ++ spec.name_text text.now) }
{
    if has_control(text) {
        push_quoted(text, out)
    } else {
        out.push_str(text)?;
        Ok(())
    }
}

/// Appends the name that is the text at the index.
///
/// # Errors
/// `Memory` for want of memory.
pub fn push_text_at(pool: &[Entry], index: u16, out: &mut String) -> Result<(), Memory>
    ensures { OnOk result (string_bytes out.new ≡ string_bytes out.old ++ spec.text_at pool.now index) }
{
    push_name(text_of(pool, index), out)
}

/// Appends the name of the class at the index.
///
/// # Errors
/// `Memory` for want of memory.
pub fn push_class_at(pool: &[Entry], index: u16, out: &mut String) -> Result<(), Memory>
    ensures { OnOk result (string_bytes out.new ≡ string_bytes out.old ++ spec.class_at pool.now index) }
{
    push_name(class_name_of(pool, index), out)
}
