ghost use Rattle.std.specs.Prelude.{◌≡◌, ◌+◌, ◌<◌, ◌≤◌, [], ◌∷◌, length, IfOk, OnOk};
ghost use Rattle.class_grammar.specs.Layout.{Reads, ReadsBy, Grows, many};
ghost use Rattle.class_grammar.specs.Grammar as spec;

use crate::cursor::Cursor;
use crate::entries::{bad, is_class, is_utf8};
use class_pool::{ClassFault, Entry, Pool, Tag, decode_text};
use std::alloc::Global;

#[tactic(auto, unfolding(class_grammar::specs::Grammar::utf8))]
fn utf8(alloc: Global, cursor: &mut Cursor<'_>, index: u16) -> Result<Entry, ClassFault>
    ensures { ReadsBy spec.single ((spec.utf8 index).read cursor.old) result cursor.new }
{
    let len = cursor.u2()?;
    let bytes = cursor.run(len as u32)?;
    match decode_text(alloc, bytes) {
        Ok(Some(text)) => Ok(Entry::Utf8(text)),
        Ok(None) => Err(ClassFault::Pool { index }),
        Err(_) => Err(ClassFault::Memory),
    }
}

/// A number of eight bytes, whose entry takes the next index too.
#[tactic(auto, unfolding(class_grammar::specs::Grammar::eight))]
fn eight(cursor: &mut Cursor<'_>, index: u16, count: u16) -> Result<u64, ClassFault>
    requires { index < count }
    ensures reads { Reads ((spec.eight index count).read cursor.old) result cursor.new }
    ensures room { OnOk result (index + 1 < count) }
{
    let high = cursor.u4()?;
    let low = cursor.u4()?;
    if index + 1 < count {
        Ok(high as u64 * 0x1_0000_0000 + low as u64)
    } else {
        Err(ClassFault::Pool { index })
    }
}

#[tactic(auto, unfolding(class_grammar::specs::Grammar::long))]
fn long(cursor: &mut Cursor<'_>, index: u16, count: u16) -> Result<Entry, ClassFault>
    requires { index < count }
    ensures reads { ReadsBy spec.double ((spec.long index count).read cursor.old) result cursor.new }
    ensures room { OnOk result (index + 1 < count) }
{
    let bits = eight(cursor, index, count)?;
    Ok(Entry::Long(bits.cast_signed()))
}

#[tactic(auto, unfolding(class_grammar::specs::Grammar::double_of))]
fn double(cursor: &mut Cursor<'_>, index: u16, count: u16) -> Result<Entry, ClassFault>
    requires { index < count }
    ensures reads { ReadsBy spec.double ((spec.double_of index count).read cursor.old) result cursor.new }
    ensures room { OnOk result (index + 1 < count) }
{
    let bits = eight(cursor, index, count)?;
    Ok(Entry::Double(bits))
}

#[tactic(auto, unfolding(class_grammar::specs::Grammar::pair))]
fn pair(cursor: &mut Cursor<'_>) -> Result<(u16, u16), ClassFault>
    ensures { ReadsBy (λ x. x) (spec.pair.read cursor.old) result cursor.new }
{
    let first = cursor.u2()?;
    let second = cursor.u2()?;
    Ok((first, second))
}

/// What follows a tag, behind the entries that were found.
#[tactic(auto, unfolding(class_grammar::specs::Grammar::entry_with, class_grammar::specs::Grammar::one, class_grammar::specs::Grammar::four, class_grammar::specs::Grammar::two))]
fn entry_of(
    alloc: Global,
    cursor: &mut Cursor<'_>,
    index: u16,
    count: u16,
    tag: u8,
    found: &mut Vec<Entry>,
) -> Result<(), ClassFault>
    requires { (length found.old.items + 1 ≡ index) × (index < count) }
    ensures reads { Grows ((spec.entry_of index count tag).read cursor.old) result cursor.new found.old.items found.new.items }
    ensures small { OnOk result (length found.new.items + 1 ≤ count) }
{
    match Tag::of(tag) {
        Some(Tag::Utf8) => {
            found.push(utf8(alloc, cursor, index)?)?;
        }
        Some(Tag::Integer) => {
            found.push(Entry::Integer(cursor.u4()?))?;
        }
        Some(Tag::Float) => {
            found.push(Entry::Float(cursor.u4()?))?;
        }
        Some(Tag::Long) => {
            found.push(long(cursor, index, count)?)?;
            found.push(Entry::Gap)?;
        }
        Some(Tag::Double) => {
            found.push(double(cursor, index, count)?)?;
            found.push(Entry::Gap)?;
        }
        Some(Tag::Class) => {
            found.push(Entry::Class(cursor.u2()?))?;
        }
        Some(Tag::Str) => {
            found.push(Entry::Str(cursor.u2()?))?;
        }
        Some(Tag::Field) => {
            let (a, b) = pair(cursor)?;
            found.push(Entry::Field(a, b))?;
        }
        Some(Tag::Method) => {
            let (a, b) = pair(cursor)?;
            found.push(Entry::Method(a, b))?;
        }
        Some(Tag::Interface) => {
            let (a, b) = pair(cursor)?;
            found.push(Entry::Interface(a, b))?;
        }
        Some(Tag::NameType) => {
            let (a, b) = pair(cursor)?;
            found.push(Entry::NameType(a, b))?;
        }
        None => return Err(ClassFault::Pool { index }),
    }
    Ok(())
}

/// The next entry, where there is one.
#[tactic(auto, unfolding(class_grammar::specs::Grammar::next_entry, class_grammar::specs::Grammar::entry_from))]
fn next_entry(
    alloc: Global,
    cursor: &mut Cursor<'_>,
    count: u16,
    found: &mut Vec<Entry>,
) -> Result<(), ClassFault>
    requires { length found.old.items + 1 ≤ count }
    ensures reads { Grows ((spec.next_entry count found.old.items).read cursor.old) result cursor.new found.old.items found.new.items }
    ensures small { OnOk result (length found.new.items + 1 ≤ count) }
{
    let index = found.len() as u16 + 1;
    if index < count {
        let tag = cursor.u1()?;
        entry_of(alloc, cursor, index, count, tag, found)?;
    }
    Ok(())
}

fn entries(alloc: Global, cursor: &mut Cursor<'_>, count: u16) -> Result<Vec<Entry>, ClassFault>
    requires { 0 < count }
    ensures reads { ReadsBy (λ v. v.items) ((many count [] (spec.next_entry count)).read cursor.old) result cursor.new }
    ensures small { IfOk result (λ v. length v.items < count) }
{
    let mut found = Vec::new(alloc);
    for _turn in 0..count {
        next_entry(alloc, cursor, count, &mut found)?;
    }
    Ok(found)
}

/// The constant pool (JVMS 4.4).
#[tactic(auto, unfolding(class_grammar::specs::Grammar::pool))]
pub fn pool(alloc: Global, cursor: &mut Cursor<'_>) -> Result<Pool, ClassFault>
    ensures { Reads (spec.pool.read cursor.old) result cursor.new }
{
    let count = cursor.u2()?;
    if count == 0 {
        return Err(ClassFault::Pool { index: 0 });
    }
    let found = entries(alloc, cursor, count)?;
    let index = bad(found.as_slice());
    if index == 0 {
        Ok(Pool::from_entries(alloc, found))
    } else {
        Err(ClassFault::Pool { index })
    }
}

/// The index of a text.
pub fn text_index(cursor: &mut Cursor<'_>, es: &[Entry]) -> Result<u16, ClassFault>
    ensures { Reads ((spec.text_index es.now).read cursor.old) result cursor.new }
{
    let at = cursor.at();
    let index = cursor.u2()?;
    if is_utf8(es, index) {
        Ok(index)
    } else {
        Err(ClassFault::Shape { at })
    }
}

/// The index of a class.
pub fn class_index(cursor: &mut Cursor<'_>, es: &[Entry]) -> Result<u16, ClassFault>
    ensures { Reads ((spec.class_index es.now).read cursor.old) result cursor.new }
{
    let at = cursor.at();
    let index = cursor.u2()?;
    if is_class(es, index) {
        Ok(index)
    } else {
        Err(ClassFault::Shape { at })
    }
}

/// The index of a class, or 0 for none.
pub fn parent_index(cursor: &mut Cursor<'_>, es: &[Entry]) -> Result<u16, ClassFault>
    ensures { Reads ((spec.parent_index es.now).read cursor.old) result cursor.new }
{
    let at = cursor.at();
    let index = cursor.u2()?;
    if index == 0 || is_class(es, index) {
        Ok(index)
    } else {
        Err(ClassFault::Shape { at })
    }
}
