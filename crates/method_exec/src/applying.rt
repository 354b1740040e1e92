ghost use Rattle.std.specs.Prelude.{◌≡◌, IfOk};
ghost use Rattle.startup_rules.specs.Acting.{op as made, apply as rule};
ghost use Rattle.method_exec.specs.Applied.{within};
ghost use Rattle.method_exec.specs.Walking.{Does};

use crate::field::{add, bean, field_of, get_static, list_of, put_static, set};
use crate::line::{fail_with, print};
use crate::named::Named;
use crate::setting::Setting;
use crate::stop::Stop;
use crate::values::{equal, len, less, long_text, not, plus, rows, truth, turn};
use item_types::{Memory, Names, Text};
use startup_rules::{Invoked, Op, Slot};
use startup_world::{World, copy_slots};
use std::alloc::Global;

/// Names that are borrowed, with their slots.
fn named_of<'a>(alloc: Global, fields: &'a [(Text, Slot)]) -> Result<Named<'a>, Memory>
    ensures { IfOk result (λ named. named ≡ fields.now) }
{
    let mut named = Named::new(alloc);
    for field in fields {
        named.push(&field.0, field.1.share()?)?;
    }
    Ok(named)
}

/// A new bean of fields that own their names.
fn bean_of(
    cx: &Setting<'_>,
    world: &mut World,
    fields: &[(Text, Slot)],
    name: &Text,
) -> Result<Slot, Stop>
    ensures { Does (made cx.now.within (Op.Bean fields.now name.now) world.old) result world.new }
{
    let written = named_of(world.alloc(), fields)?;
    bean(cx, world, &written, name.as_str())
}

fn perform(cx: &Setting<'_>, world: &mut World, op: &Op) -> Result<Slot, Stop>
    ensures { Does (made cx.now.within op.now world.old) result world.new }
{
    match op {
        Op::Turn => turn(cx, world),
        Op::LongText => long_text(cx, world),
        Op::GetStatic(name) => get_static(cx, world, name),
        Op::PutStatic(v, name) => put_static(cx, world, v.share()?, name),
        Op::Plus(a, b, at) => plus(cx, world, a, b, *at),
        Op::Less(a, b, at) => less(cx, world, a, b, *at),
        Op::Equal(a, b) => equal(cx, world, a, b),
        Op::Not(v, at) => not(cx, world, v, *at),
        Op::Len(v, at) => len(cx, world, v, *at),
        Op::FieldOf(v, name, at) => field_of(cx, world, v, name, *at),
        Op::Truth(v, at) => truth(cx, world, v, *at),
        Op::ListOf(items) => {
            let items = copy_slots(world.alloc(), items.as_slice())?;
            list_of(cx, world, items)
        }
        Op::Bean(fields, name) => bean_of(cx, world, fields.as_slice(), name),
        Op::Set(target, v, name, at) => set(cx, world, target, v.share()?, name, *at),
        Op::Add(list, v, at) => add(cx, world, list, v.share()?, *at),
        Op::Print(v, at) => print(cx, world, v.share()?, *at),
        Op::FailWith(v, at) => fail_with(cx, world, v.share()?, *at),
        Op::Rows(v, at) => rows(cx, world, v.share()?, *at),
    }
}

/// Makes one operation of the recorder's methods, with its checks, where the whole startup may
/// spend that many statements and turns. An operation without a value gives null, `Truth` gives the
/// truth value and `Rows` its list.
///
/// # Errors
/// `Memory` for want of memory: the world is given up.
pub fn apply(
    names: &Names,
    world: &mut World,
    recorder: u32,
    op: &Op,
    turns: u64,
) -> Result<Invoked, Memory>
    ensures { IfOk result (λ x. rule (within names.now recorder turns) op.now world.old ≡ (x, world.new)) }
{
    let cx = Setting {
        names,
        recorder,
        me: 0,
        turns,
    };
    match perform(&cx, world, op) {
        Ok(v) => Ok(Invoked::Value(v)),
        Err(Stop::Ends(x)) => Ok(x),
        Err(Stop::Memory) => Err(Memory),
    }
}
