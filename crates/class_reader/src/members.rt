ghost use Rattle.std.specs.Prelude.{[], ◌∷◌};
ghost use Rattle.class_grammar.specs.Layout.{Reads, ReadsBy, many};
ghost use Rattle.class_grammar.specs.Grammar as spec;

use crate::attributes::{attributes, raws};
use crate::constants::{class_index, text_index};
use crate::cursor::Cursor;
use class_pool::{ClassFault, Entry, Flags, Member};
use item_types::Seq;
use std::alloc::Global;

#[tactic(auto, unfolding(class_grammar::specs::Grammar::interface))]
fn interface(cursor: &mut Cursor<'_>, es: &[Entry]) -> Result<u16, ClassFault>
    ensures { ReadsBy (λ n. n ∷ []) ((spec.interface es.now).read cursor.old) result cursor.new }
{
    class_index(cursor, es)
}

fn interfaces_of(
    alloc: Global,
    cursor: &mut Cursor<'_>,
    es: &[Entry],
    count: u16,
) -> Result<Seq<u16>, ClassFault>
    ensures { Reads ((many count [] (λ found. spec.interface es.now)).read cursor.old) result cursor.new }
{
    let mut found = Seq::new(alloc);
    for _turn in 0..count {
        found.push(interface(cursor, es)?)?;
    }
    Ok(found)
}

/// The classes that are the interfaces.
#[tactic(auto, unfolding(class_grammar::specs::Grammar::interfaces))]
pub fn interfaces(
    alloc: Global,
    cursor: &mut Cursor<'_>,
    es: &[Entry],
) -> Result<Seq<u16>, ClassFault>
    ensures { Reads ((spec.interfaces es.now).read cursor.old) result cursor.new }
{
    let count = cursor.u2()?;
    interfaces_of(alloc, cursor, es, count)
}

#[tactic(auto, unfolding(class_grammar::specs::Grammar::field))]
fn field(alloc: Global, cursor: &mut Cursor<'_>, es: &[Entry]) -> Result<Member, ClassFault>
    ensures { ReadsBy (λ m. m ∷ []) ((spec.field es.now).read cursor.old) result cursor.new }
{
    let bits = cursor.u2()?;
    let name = text_index(cursor, es)?;
    let descriptor = text_index(cursor, es)?;
    let attributes = raws(alloc, cursor, es)?;
    Ok(Member {
        flags: Flags { bits },
        name,
        descriptor,
        attributes,
    })
}

fn fields_of(
    alloc: Global,
    cursor: &mut Cursor<'_>,
    es: &[Entry],
    count: u16,
) -> Result<Seq<Member>, ClassFault>
    ensures { Reads ((many count [] (λ found. spec.field es.now)).read cursor.old) result cursor.new }
{
    let mut found = Seq::new(alloc);
    for _turn in 0..count {
        found.push(field(alloc, cursor, es)?)?;
    }
    Ok(found)
}

/// The fields (JVMS 4.5).
#[tactic(auto, unfolding(class_grammar::specs::Grammar::fields))]
pub fn fields(
    alloc: Global,
    cursor: &mut Cursor<'_>,
    es: &[Entry],
) -> Result<Seq<Member>, ClassFault>
    ensures { Reads ((spec.fields es.now).read cursor.old) result cursor.new }
{
    let count = cursor.u2()?;
    fields_of(alloc, cursor, es, count)
}

#[tactic(auto, unfolding(class_grammar::specs::Grammar::method))]
fn method(alloc: Global, cursor: &mut Cursor<'_>, es: &[Entry]) -> Result<Member, ClassFault>
    ensures { ReadsBy (λ m. m ∷ []) ((spec.method es.now).read cursor.old) result cursor.new }
{
    let bits = cursor.u2()?;
    let name = text_index(cursor, es)?;
    let descriptor = text_index(cursor, es)?;
    let attributes = attributes(alloc, cursor, es)?;
    Ok(Member {
        flags: Flags { bits },
        name,
        descriptor,
        attributes,
    })
}

fn methods_of(
    alloc: Global,
    cursor: &mut Cursor<'_>,
    es: &[Entry],
    count: u16,
) -> Result<Seq<Member>, ClassFault>
    ensures { Reads ((many count [] (λ found. spec.method es.now)).read cursor.old) result cursor.new }
{
    let mut found = Seq::new(alloc);
    for _turn in 0..count {
        found.push(method(alloc, cursor, es)?)?;
    }
    Ok(found)
}

/// The methods (JVMS 4.6).
#[tactic(auto, unfolding(class_grammar::specs::Grammar::methods))]
pub fn methods(
    alloc: Global,
    cursor: &mut Cursor<'_>,
    es: &[Entry],
) -> Result<Seq<Member>, ClassFault>
    ensures { Reads ((spec.methods es.now).read cursor.old) result cursor.new }
{
    let count = cursor.u2()?;
    methods_of(alloc, cursor, es, count)
}
