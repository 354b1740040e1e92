ghost use Rattle.std.specs.Prelude.{◌≡◌, ◌++◌, ◌<◌, ◌^◌, length, IfOk, OnOk};
ghost use Rattle.std.specs.Option.{option_copied};
ghost use Rattle.class_pool.specs.Entries as spec;
ghost use Rattle.class_pool.specs.Index.{key, sized, IsSound};
ghost use Rattle.class_pool.specs.Showing.{is_text, is_class_of, is_pair_of, shows, passes};

use crate::entry::Entry;
use item_types::Text;
use std::alloc::{AllocError, Global};

/// What an entry of a pool shows: its kind, and its texts or its number.
#[derive(Debug, Drop)]
pub enum Shown {
    Text(Text),
    Integer(u32),
    Long(i64),
    Class(Text),
    Str(Text),
    NameType(Text, Text),
    Field(Text, Text, Text),
    Method(Text, Text, Text),
}

/// The entry at an index: none at 0 and past the end.
pub fn entry_at(pool: &[Entry], index: u16) -> Option<&Entry>
    ensures { option_copied result ≡ spec.entry_at pool.now index }
{
    if index == 0 {
        return None;
    }
    pool.get(index as usize - 1)
}

fn is_text(pool: &[Entry], text: &Text, index: u16) -> bool
    ensures { result ≡ is_text text.now (spec.entry_at pool.now index) }
{
    match entry_at(pool, index) {
        Some(Entry::Utf8(found)) => text.as_str() == found.as_str(),
        _ => false,
    }
}

fn is_class_of(pool: &[Entry], name: &Text, index: u16) -> bool
    ensures { result ≡ is_class_of pool.now name.now (spec.entry_at pool.now index) }
{
    match entry_at(pool, index) {
        Some(Entry::Class(n)) => is_text(pool, name, *n),
        _ => false,
    }
}

fn is_pair_of(pool: &[Entry], name: &Text, descriptor: &Text, index: u16) -> bool
    ensures { result ≡ is_pair_of pool.now name.now descriptor.now (spec.entry_at pool.now index) }
{
    match entry_at(pool, index) {
        Some(Entry::NameType(n, d)) => is_text(pool, name, *n) && is_text(pool, descriptor, *d),
        _ => false,
    }
}

/// Whether the entry shows this.
pub fn shows(pool: &[Entry], what: &Shown, entry: &Entry) -> bool
    ensures { result ≡ shows pool.now what.now entry.now }
{
    match (what, entry) {
        (Shown::Text(text), Entry::Utf8(found)) => text.as_str() == found.as_str(),
        (Shown::Integer(n), Entry::Integer(found)) => *n == *found,
        (Shown::Long(n), Entry::Long(found)) => *n == *found,
        (Shown::Class(name), Entry::Class(n)) => is_text(pool, name, *n),
        (Shown::Str(text), Entry::Str(n)) => is_text(pool, text, *n),
        (Shown::NameType(name, descriptor), Entry::NameType(n, d)) => {
            is_text(pool, name, *n) && is_text(pool, descriptor, *d)
        }
        (Shown::Field(class, name, descriptor), Entry::Field(c, n)) => {
            is_class_of(pool, class, *c) && is_pair_of(pool, name, descriptor, *n)
        }
        (Shown::Method(class, name, descriptor), Entry::Method(c, n)) => {
            is_class_of(pool, class, *c) && is_pair_of(pool, name, descriptor, *n)
        }
        _ => false,
    }
}

/// Whether the index holds an entry that shows this.
pub fn holds(pool: &[Entry], index: u16, what: &Shown) -> bool
    ensures { result ≡ passes (shows pool.now what.now) (spec.entry_at pool.now index) }
{
    match entry_at(pool, index) {
        Some(entry) => shows(pool, what, entry),
        None => false,
    }
}

fn put_sized(out: &mut Vec<u8>, text: &Text) -> Result<(), AllocError>
    ensures bytes { OnOk result (out.new.items ≡ out.old.items ++ sized text.now) }
    ensures small { length text.now < 2 ^ 64 }
{
    let bytes = text.as_str().as_bytes();
    out.extend_from_slice(&(bytes.len() as u64).to_be_bytes())?;
    out.extend_from_slice(bytes)
}

/// Under which key the index keeps it.
pub fn key_of(alloc: Global, what: &Shown) -> Result<Vec<u8>, AllocError>
    ensures key { IfOk result (λ k. k.items ≡ key what.now) }
    ensures sound { IfOk result (λ k. IsSound what.now) }
{
    let mut out = Vec::new(alloc);
    match what {
        Shown::Text(text) => {
            out.push(1)?;
            out.extend_from_slice(text.as_str().as_bytes())?;
        }
        Shown::Integer(n) => {
            out.push(3)?;
            out.extend_from_slice(&n.to_be_bytes())?;
        }
        Shown::Long(n) => {
            out.push(5)?;
            out.extend_from_slice(&n.to_be_bytes())?;
        }
        Shown::Class(name) => {
            out.push(7)?;
            out.extend_from_slice(name.as_str().as_bytes())?;
        }
        Shown::Str(text) => {
            out.push(8)?;
            out.extend_from_slice(text.as_str().as_bytes())?;
        }
        Shown::NameType(name, descriptor) => {
            out.push(12)?;
            put_sized(&mut out, name)?;
            out.extend_from_slice(descriptor.as_str().as_bytes())?;
        }
        Shown::Field(class, name, descriptor) => {
            out.push(9)?;
            put_sized(&mut out, class)?;
            put_sized(&mut out, name)?;
            out.extend_from_slice(descriptor.as_str().as_bytes())?;
        }
        Shown::Method(class, name, descriptor) => {
            out.push(10)?;
            put_sized(&mut out, class)?;
            put_sized(&mut out, name)?;
            out.extend_from_slice(descriptor.as_str().as_bytes())?;
        }
    }
    Ok(out)
}
