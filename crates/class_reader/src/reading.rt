ghost use Rattle.std.specs.Prelude.{◌≡◌, ◌<◌, ◌≤◌, ◌^◌, length, Ok, Err, IfOk};
ghost use Rattle.class_pool.specs.declared.class.Class.{Class};
ghost use Rattle.class_pool.specs.declared.fault.ClassFault.{ClassFault};
ghost use Rattle.class_pool.specs.declared.fault.ClassFault.TheVariants as fault;
ghost use Rattle.class_grammar.specs.Layout.{Reads, ReadsBy, Told};
ghost use Rattle.class_grammar.specs.Grammar as spec;
ghost use Rattle.class_grammar.specs.Valid.{IsValid};

use crate::attributes::raws;
use crate::constants::{class_index, parent_index, pool};
use crate::cursor::Cursor;
use crate::members::{fields, interfaces, methods};
use class_pool::{CLASS_LIMIT, Class, ClassFault, Flags};
use std::alloc::Global;

fn magic(cursor: &mut Cursor<'_>) -> Result<(), ClassFault>
    ensures { ReadsBy (λ u. tt) (spec.magic.read cursor.old) result cursor.new }
{
    let number = cursor.u4()?;
    if number == 0xcafe_babe {
        Ok(())
    } else {
        Err(ClassFault::Magic)
    }
}

#[tactic(auto, unfolding(class_grammar::specs::Grammar::version))]
fn version(cursor: &mut Cursor<'_>) -> Result<u16, ClassFault>
    ensures { Reads (spec.version.read cursor.old) result cursor.new }
{
    let minor = cursor.u2()?;
    let major = cursor.u2()?;
    if minor == 0 && !(major < 49) && major < 66 {
        Ok(major)
    } else {
        Err(ClassFault::Version)
    }
}

#[tactic(auto, unfolding(class_grammar::specs::Grammar::class))]
fn class(alloc: Global, cursor: &mut Cursor<'_>) -> Result<Class, ClassFault>
    ensures { Reads (spec.class.read cursor.old) result cursor.new }
{
    magic(cursor)?;
    let major = version(cursor)?;
    let pool = pool(alloc, cursor)?;
    let bits = cursor.u2()?;
    let this = class_index(cursor, pool.entries())?;
    let parent = parent_index(cursor, pool.entries())?;
    let interfaces = interfaces(alloc, cursor, pool.entries())?;
    let fields = fields(alloc, cursor, pool.entries())?;
    let methods = methods(alloc, cursor, pool.entries())?;
    let attributes = raws(alloc, cursor, pool.entries())?;
    Ok(Class {
        major,
        pool,
        flags: Flags { bits },
        this,
        parent,
        interfaces,
        fields,
        methods,
        attributes,
    })
}

#[tactic(auto, unfolding(class_grammar::specs::Grammar::file))]
fn file(alloc: Global, bytes: &[u8]) -> Result<Class, ClassFault>
    requires { length bytes.now < 2 ^ 32 }
    ensures { Told (spec.file bytes.now) result }
{
    let mut cursor = Cursor::new(bytes);
    let class = class(alloc, &mut cursor)?;
    if 0 < cursor.left() {
        return Err(ClassFault::Trailing { at: cursor.at() });
    }
    Ok(class)
}

/// The class that the bytes spell, or the first place, from front to back, where they go wrong.
///
/// # Errors
/// `Magic`, `Version`, `Short`, `Pool`, `Shape` or `Trailing` exactly where the bytes are stuck
/// so: every earlier part is spelled, and the one at that place isn't. `Memory` for want of memory.
pub fn read_class(alloc: Global, bytes: &[u8]) -> Result<Class, ClassFault>
    requires { length bytes.now ≤ CLASS_LIMIT }
    ensures spells { IfOk result (λ c. spec.Spells bytes.now c) }
    ensures valid { IfOk result (λ c. IsValid c) }
    ensures only { (c : Class) → spec.Spells bytes.now c → Told (Ok c) result }
    ensures stuck { (f : ClassFault) → result ≡ Err f → (f ≡ fault.Memory → ⊥) → spec.IsStuck bytes.now f }
    ensures first { (f : ClassFault) → spec.IsStuck bytes.now f → Told (Err f) result }
{
    file(alloc, bytes)
}
