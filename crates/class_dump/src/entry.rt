ghost use Rattle.std.specs.Prelude.{◌≡◌, ◌++◌, ◌<◌, length, codes, string_bytes, OnOk};
ghost use Rattle.class_dump.specs.Dump as spec;

use crate::hex::push_hex;
use class_pool::Entry;
use item_types::{Memory, push_quoted};

fn push_one(kind: &str, n: u16, out: &mut String) -> Result<(), Memory>
    ensures { OnOk result (string_bytes out.new ≡ string_bytes out.old ++ spec.one_text kind.now n) }
{
    write!(out, "{kind}{n}")?;
    Ok(())
}

fn push_two(kind: &str, a: u16, b: u16, out: &mut String) -> Result<(), Memory>
    ensures { OnOk result (string_bytes out.new ≡ string_bytes out.old ++ spec.two_text kind.now a b) }
{
    write!(out, "{kind}{a} {b}")?;
    Ok(())
}

fn push_entry(entry: &Entry, out: &mut String) -> Result<(), Memory>
    ensures { OnOk result (string_bytes out.new ≡ string_bytes out.old ++ spec.entry_text entry.now) }
{
    match entry {
        Entry::Utf8(text) => {
            out.push_str("utf8 ")?;
            push_quoted(text.as_str(), out)?;
        }
        Entry::Integer(n) => {
            out.push_str("integer ")?;
            push_hex(&n.to_be_bytes(), out)?;
        }
        Entry::Float(n) => {
            out.push_str("float ")?;
            push_hex(&n.to_be_bytes(), out)?;
        }
        Entry::Long(n) => write!(out, "long {n}")?,
        Entry::Double(n) => {
            out.push_str("double ")?;
            push_hex(&n.to_be_bytes(), out)?;
        }
        Entry::Class(n) => push_one("class ", *n, out)?,
        Entry::Str(n) => push_one("string ", *n, out)?,
        Entry::Field(a, b) => push_two("field ", *a, *b, out)?,
        Entry::Method(a, b) => push_two("method ", *a, *b, out)?,
        Entry::Interface(a, b) => push_two("interface ", *a, *b, out)?,
        Entry::NameType(a, b) => push_two("nametype ", *a, *b, out)?,
        Entry::Gap => {}
    }
    Ok(())
}

fn is_gap(entry: &Entry) -> bool
    ensures { result ≡ spec.is_gap entry.now }
{
    match entry {
        Entry::Gap => true,
        _ => false,
    }
}

fn push_entry_line(index: usize, entry: &Entry, out: &mut String) -> Result<(), Memory>
    ensures { OnOk result (string_bytes out.new ≡ string_bytes out.old ++ spec.entry_line index entry.now) }
{
    if is_gap(entry) {
        return Ok(());
    }
    write!(out, "pool {index}: ")?;
    push_entry(entry, out)?;
    out.push_str("\n")?;
    Ok(())
}

/// Appends a line for each entry but the gaps.
///
/// # Errors
/// `Memory` for want of memory.
pub fn push_pool(pool: &[Entry], out: &mut String) -> Result<(), Memory>
    ensures { OnOk result (string_bytes out.new ≡ string_bytes out.old ++ spec.pool_lines 1 pool.now) }
{
    let _len = len_of(pool);
    let mut index = 1;
    for entry in pool {
        push_entry_line(index, entry, out)?;
        index += 1;
    }
    Ok(())
}

/// No list of entries fills half of memory.
fn len_of(entries: &[Entry]) -> usize
    ensures value { result ≡ length entries.now }
    ensures small { result < 0x8000_0000_0000_0000 }
{
    entries.len()
}
