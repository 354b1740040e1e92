ghost use Rattle.std.specs.Prelude.{◌≡◌, ◌+◌, ◌<◌, ◌^◌, length};
ghost use Rattle.std.specs.Option.{option_copied};
ghost use Rattle.class_pool.specs.Entries as spec;
ghost use Rattle.class_grammar.specs.Grammar.{is_code_text};

use class_pool::Entry;

/// The entry at an index: none at 0 and past the end.
pub fn entry_at(pool: &[Entry], index: u16) -> Option<&Entry>
    ensures { option_copied result ≡ spec.entry_at pool.now index }
{
    if index == 0 {
        return None;
    }
    pool.get(index as usize - 1)
}

/// Whether the index is that of a text.
pub fn is_utf8(pool: &[Entry], index: u16) -> bool
    ensures { result ≡ spec.is_utf8 (spec.entry_at pool.now index) }
{
    match entry_at(pool, index) {
        Some(Entry::Utf8(_)) => true,
        _ => false,
    }
}

/// Whether the index is that of a class.
pub fn is_class(pool: &[Entry], index: u16) -> bool
    ensures { result ≡ spec.is_class (spec.entry_at pool.now index) }
{
    match entry_at(pool, index) {
        Some(Entry::Class(_)) => true,
        _ => false,
    }
}

fn is_name_type(pool: &[Entry], index: u16) -> bool
    ensures { result ≡ spec.is_name_type (spec.entry_at pool.now index) }
{
    match entry_at(pool, index) {
        Some(Entry::NameType(_, _)) => true,
        _ => false,
    }
}

/// Whether the index is that of the text `Code`.
pub fn is_code_text(pool: &[Entry], index: u16) -> bool
    ensures { result ≡ is_code_text (spec.entry_at pool.now index) }
{
    match entry_at(pool, index) {
        Some(Entry::Utf8(text)) => text.as_str() == "Code",
        _ => false,
    }
}

fn refers(pool: &[Entry], entry: &Entry) -> bool
    ensures { result ≡ spec.refers pool.now entry.now }
{
    match entry {
        Entry::Class(n) => is_utf8(pool, *n),
        Entry::Str(n) => is_utf8(pool, *n),
        Entry::NameType(a, b) => is_utf8(pool, *a) && is_utf8(pool, *b),
        Entry::Field(a, b) => is_class(pool, *a) && is_name_type(pool, *b),
        Entry::Method(a, b) => is_class(pool, *a) && is_name_type(pool, *b),
        Entry::Interface(a, b) => is_class(pool, *a) && is_name_type(pool, *b),
        _ => true,
    }
}

/// The least index of an entry that refers to none of the right kind, 0 where there is none.
pub fn bad(pool: &[Entry]) -> u16
    requires { length pool.now < 65535 }
    ensures { result ≡ spec.bad pool.now }
{
    let mut index: u16 = 1;
    for entry in pool {
        if !refers(pool, entry) {
            return index;
        }
        index += 1;
    }
    0
}
