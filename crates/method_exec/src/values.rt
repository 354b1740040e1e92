// The operations that make values of values. `at` is the number of the operation's token.

ghost use Rattle.std.specs.Prelude.{◌≡◌};
ghost use Rattle.operators.specs.Operands.{shown};
ghost use Rattle.startup_rules.specs.Operations as rules;
ghost use Rattle.startup_rules.specs.Acting.{op};
ghost use Rattle.method_exec.specs.Walking.{Does};

use crate::setting::Setting;
use crate::stop::{Stop, failed, wrong_kind};
use item_types::SharedText;
use operators::{Added, Operand};
use startup_rules::{MethodFault, Op, Slot};
use startup_world::World;

/// What an operation sees of the slot.
fn operand<'a>(world: &World, slot: &'a Slot) -> Operand<&'a str>
    ensures { shown result ≡ rules.operand world.now slot.now }
{
    match slot {
        Slot::Null => Operand::Null,
        Slot::Bool(b) => Operand::Bool(*b),
        Slot::Long(n) => Operand::Long(*n),
        Slot::Str(text) => Operand::Str(text.as_str()),
        Slot::Obj(_) => match world.items_of(slot) {
            Some(items) => Operand::List(items.len() as i64),
            None => Operand::Other,
        },
    }
}

/// Spends a turn.
#[tactic(auto, unfolding(startup_rules::specs::Operations::effect))]
pub fn turn(cx: &Setting<'_>, world: &mut World) -> Result<Slot, Stop>
    ensures { Does (op cx.now.within Op.Turn world.old) result world.new }
{
    if world.turn(cx.turns()) {
        return Ok(Slot::Null);
    }
    Err(failed(MethodFault::TooManyTurns))
}

/// A literal that is too long.
#[tactic(auto, unfolding(startup_rules::specs::Operations::effect))]
pub fn long_text(cx: &Setting<'_>, world: &World) -> Result<Slot, Stop>
    ensures { Does (op cx.now.within Op.LongText world.now) result world.now }
{
    Err(failed(MethodFault::TextTooLong))
}

/// The sum of two numbers, or the join of two texts.
#[tactic(auto, unfolding(startup_rules::specs::Operations::effect))]
pub fn plus(cx: &Setting<'_>, world: &mut World, a: &Slot, b: &Slot, at: u32) -> Result<Slot, Stop>
    ensures { Does (op cx.now.within (Op.Plus a.now b.now at) world.old) result world.new }
{
    match operators::plus(world.alloc(), &operand(world, a), &operand(world, b))? {
        Added::Long(n) => Ok(Slot::Long(n)),
        Added::Str(text) => {
            world.pay_text(text.modified_len())?;
            Ok(Slot::Str(SharedText::of(world.alloc(), text)?))
        }
        Added::WrongKind => Err(wrong_kind(at)),
        Added::TooLong => Err(failed(MethodFault::TextTooLong)),
    }
}

/// Whether the first number is less than the second.
#[tactic(auto, unfolding(startup_rules::specs::Operations::effect))]
pub fn less(cx: &Setting<'_>, world: &World, a: &Slot, b: &Slot, at: u32) -> Result<Slot, Stop>
    ensures { Does (op cx.now.within (Op.Less a.now b.now at) world.now) result world.now }
{
    match operators::less(&operand(world, a), &operand(world, b)) {
        Some(b) => Ok(Slot::Bool(b)),
        None => Err(wrong_kind(at)),
    }
}

fn same(world: &World, a: &Slot, b: &Slot) -> bool
    ensures { result ≡ rules.same world.now a.now b.now }
{
    match (a, b) {
        (Slot::Obj(a), Slot::Obj(b)) => *a == *b,
        _ => operators::same_plain(&operand(world, a), &operand(world, b)),
    }
}

/// Whether both are the same.
#[tactic(auto, unfolding(startup_rules::specs::Operations::effect))]
pub fn equal(cx: &Setting<'_>, world: &World, a: &Slot, b: &Slot) -> Result<Slot, Stop>
    ensures { Does (op cx.now.within (Op.Equal a.now b.now) world.now) result world.now }
{
    Ok(Slot::Bool(same(world, a, b)))
}

/// The other truth value.
#[tactic(auto, unfolding(startup_rules::specs::Operations::effect))]
pub fn not(cx: &Setting<'_>, world: &World, v: &Slot, at: u32) -> Result<Slot, Stop>
    ensures { Does (op cx.now.within (Op.Not v.now at) world.now) result world.now }
{
    match operators::truth(&operand(world, v)) {
        Some(b) => Ok(Slot::Bool(!b)),
        None => Err(wrong_kind(at)),
    }
}

/// The truth value.
#[tactic(auto, unfolding(startup_rules::specs::Operations::effect))]
pub fn truth(cx: &Setting<'_>, world: &World, v: &Slot, at: u32) -> Result<Slot, Stop>
    ensures { Does (op cx.now.within (Op.Truth v.now at) world.now) result world.now }
{
    match operators::truth(&operand(world, v)) {
        Some(b) => Ok(Slot::Bool(b)),
        None => Err(wrong_kind(at)),
    }
}

/// How many characters a text has, or how many elements a list.
#[tactic(auto, unfolding(startup_rules::specs::Operations::effect))]
pub fn len(cx: &Setting<'_>, world: &World, v: &Slot, at: u32) -> Result<Slot, Stop>
    ensures { Does (op cx.now.within (Op.Len v.now at) world.now) result world.now }
{
    match operators::len(&operand(world, v)) {
        Some(n) => Ok(Slot::Long(n)),
        None => Err(wrong_kind(at)),
    }
}

/// A list, whose elements are gone through.
#[tactic(auto, unfolding(startup_rules::specs::Operations::effect))]
pub fn rows(cx: &Setting<'_>, world: &World, v: Slot, at: u32) -> Result<Slot, Stop>
    ensures { Does (op cx.now.within (Op.Rows v at) world.now) result world.now }
{
    match world.items_of(&v) {
        Some(_) => Ok(v),
        None => Err(wrong_kind(at)),
    }
}
