ghost use Rattle.std.specs.Prelude.{◌≡◌, ◌<◌, ◌^◌, [], ◌∷◌, length, true, false, ◌||◌, IfOk};
ghost use Rattle.std.specs.List.{list_any};
ghost use Rattle.class_pool.specs.declared.fault.ClassFault.TheVariants as fault;
ghost use Rattle.class_grammar.specs.Layout.{Reads, ReadsBy, place, many, read_run, choose, refused, filled};
ghost use Rattle.class_grammar.specs.Grammar as spec;

use crate::constants::text_index;
use crate::cursor::Cursor;
use crate::entries::is_code_text;
use class_pool::{Attribute, CatchRow, ClassFault, Code, Entry};
use item_types::Seq;
use std::alloc::Global;

fn bytes_of(alloc: Global, cursor: &mut Cursor<'_>, len: u32) -> Result<Seq<u8>, ClassFault>
    ensures { Reads (read_run len cursor.old) result cursor.new }
{
    let bytes = cursor.run(len)?;
    Ok(Seq::from_vec(Vec::from_slice(alloc, bytes)?))
}

/// An attribute that is kept as it stands.
#[tactic(auto, unfolding(class_grammar::specs::Grammar::raw))]
fn raw(alloc: Global, cursor: &mut Cursor<'_>, es: &[Entry]) -> Result<Attribute, ClassFault>
    ensures { ReadsBy (λ a. a ∷ []) ((spec.raw es.now).read cursor.old) result cursor.new }
{
    let name = text_index(cursor, es)?;
    let len = cursor.u4()?;
    let bytes = bytes_of(alloc, cursor, len)?;
    Ok(Attribute::Raw { name, bytes })
}

fn raws_of(
    alloc: Global,
    cursor: &mut Cursor<'_>,
    es: &[Entry],
    count: u16,
) -> Result<Seq<Attribute>, ClassFault>
    ensures { Reads ((many count [] (λ found. spec.raw es.now)).read cursor.old) result cursor.new }
{
    let mut found = Seq::new(alloc);
    for _turn in 0..count {
        found.push(raw(alloc, cursor, es)?)?;
    }
    Ok(found)
}

/// Attributes that are kept as they stand.
#[tactic(auto, unfolding(class_grammar::specs::Grammar::raws))]
pub fn raws(
    alloc: Global,
    cursor: &mut Cursor<'_>,
    es: &[Entry],
) -> Result<Seq<Attribute>, ClassFault>
    ensures { Reads ((spec.raws es.now).read cursor.old) result cursor.new }
{
    let count = cursor.u2()?;
    raws_of(alloc, cursor, es, count)
}

#[tactic(auto, unfolding(class_grammar::specs::Grammar::row))]
fn row(cursor: &mut Cursor<'_>) -> Result<CatchRow, ClassFault>
    ensures { ReadsBy (λ a. a ∷ []) (spec.row.read cursor.old) result cursor.new }
{
    let start = cursor.u2()?;
    let end = cursor.u2()?;
    let handler = cursor.u2()?;
    let caught = cursor.u2()?;
    Ok(CatchRow {
        start,
        end,
        handler,
        caught,
    })
}

fn rows(alloc: Global, cursor: &mut Cursor<'_>, count: u16) -> Result<Seq<CatchRow>, ClassFault>
    ensures { Reads ((many count [] (λ found. spec.row)).read cursor.old) result cursor.new }
{
    let mut found = Seq::new(alloc);
    for _turn in 0..count {
        found.push(row(cursor)?)?;
    }
    Ok(found)
}

/// A code (JVMS 4.7.3).
#[tactic(auto, unfolding(class_grammar::specs::Grammar::code))]
fn code(alloc: Global, cursor: &mut Cursor<'_>, es: &[Entry]) -> Result<Code, ClassFault>
    ensures { Reads ((spec.code es.now).read cursor.old) result cursor.new }
{
    let max_stack = cursor.u2()?;
    let max_locals = cursor.u2()?;
    let at = cursor.at();
    let len = cursor.u4()?;
    if !(!(len == 0) && len < 65536) {
        return Err(ClassFault::Shape { at });
    }
    let bytes = bytes_of(alloc, cursor, len)?;
    let count = cursor.u2()?;
    let catches = rows(alloc, cursor, count)?;
    let attributes = raws(alloc, cursor, es)?;
    Ok(Code {
        max_stack,
        max_locals,
        code: bytes,
        catches,
        attributes,
    })
}

/// A code that fills the bytes.
fn whole_code(
    alloc: Global,
    bytes: &[u8],
    es: &[Entry],
    seen: bool,
    at: u32,
) -> Result<Code, ClassFault>
    requires { length bytes.now < 2 ^ 32 }
    ensures { ReadsBy (λ c. c) (filled ((choose seen (refused fault.Magic) (spec.code es.now)).read (place 0 bytes.now)) (fault.Shape at) (place 0 [])) result (place 0 []) }
{
    if seen {
        return Err(ClassFault::Shape { at });
    }
    let mut cursor = Cursor::new(bytes);
    match code(alloc, &mut cursor, es) {
        Ok(code) => {
            if 0 < cursor.left() {
                Err(ClassFault::Shape { at })
            } else {
                Ok(code)
            }
        }
        Err(fault) => Err(shape_for(fault, at)),
    }
}

/// The one fault for all that may be wrong inside, but for memory.
fn shape_for(found: ClassFault, at: u32) -> ClassFault
    ensures memory { found ≡ fault.Memory → result ≡ fault.Memory }
    ensures other { (found ≡ fault.Memory → ⊥) → result ≡ fault.Shape at }
{
    match found {
        ClassFault::Memory => ClassFault::Memory,
        _ => ClassFault::Shape { at },
    }
}

#[tactic(auto, unfolding(class_grammar::specs::Grammar::coded))]
fn coded(
    alloc: Global,
    cursor: &mut Cursor<'_>,
    es: &[Entry],
    seen: bool,
    name: u16,
    len: u32,
) -> Result<Attribute, ClassFault>
    ensures reads { ReadsBy (λ a. a ∷ []) ((spec.coded es.now seen name len).read cursor.old) result cursor.new }
    ensures kind { IfOk result (λ a. spec.is_coded a ≡ true) }
{
    let at = cursor.at();
    let bytes = cursor.run(len)?;
    let code = whole_code(alloc, bytes, es, seen, at)?;
    Ok(Attribute::Coded { name, code })
}

#[tactic(auto, unfolding(class_grammar::specs::Grammar::plain))]
fn plain(
    alloc: Global,
    cursor: &mut Cursor<'_>,
    name: u16,
    len: u32,
) -> Result<Attribute, ClassFault>
    ensures reads { ReadsBy (λ a. a ∷ []) ((spec.plain name len).read cursor.old) result cursor.new }
    ensures kind { IfOk result (λ a. spec.is_coded a ≡ false) }
{
    let bytes = bytes_of(alloc, cursor, len)?;
    Ok(Attribute::Raw { name, bytes })
}

/// An attribute of a method, and whether a code was seen up to it.
#[tactic(auto, using(crate::proofs::Loops::or_true, crate::proofs::Loops::or_false), unfolding(class_grammar::specs::Grammar::attribute_of))]
fn attribute_of(
    alloc: Global,
    cursor: &mut Cursor<'_>,
    es: &[Entry],
    seen: bool,
) -> Result<(Attribute, bool), ClassFault>
    ensures reads { ReadsBy (λ x. x.0 ∷ []) ((spec.attribute_of es.now seen).read cursor.old) result cursor.new }
    ensures kind { IfOk result (λ x. x.1 ≡ (seen || spec.is_coded x.0)) }
{
    let name = text_index(cursor, es)?;
    let len = cursor.u4()?;
    if is_code_text(es, name) {
        let code = coded(alloc, cursor, es, seen, name, len)?;
        Ok((code, true))
    } else {
        let bytes = plain(alloc, cursor, name, len)?;
        Ok((bytes, seen))
    }
}

fn attributes_of(
    alloc: Global,
    cursor: &mut Cursor<'_>,
    es: &[Entry],
    count: u16,
) -> Result<Seq<Attribute>, ClassFault>
    ensures { Reads ((many count [] (λ found. spec.attribute_of es.now (list_any spec.is_coded found))).read cursor.old) result cursor.new }
{
    let mut found = Seq::new(alloc);
    let mut seen = false;
    for _turn in 0..count {
        let (attribute, after) = attribute_of(alloc, cursor, es, seen)?;
        found.push(attribute)?;
        seen = after;
    }
    Ok(found)
}

/// The attributes of a method.
#[tactic(auto, unfolding(class_grammar::specs::Grammar::attributes))]
pub fn attributes(
    alloc: Global,
    cursor: &mut Cursor<'_>,
    es: &[Entry],
) -> Result<Seq<Attribute>, ClassFault>
    ensures { Reads ((spec.attributes es.now).read cursor.old) result cursor.new }
{
    let count = cursor.u2()?;
    attributes_of(alloc, cursor, es, count)
}
