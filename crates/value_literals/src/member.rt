ghost use Rattle.std.specs.Prelude.{◌≡◌, ◌≤◌, ◌<◌, ◌^◌, ◌*◌, ◌+◌, List, [], IfOk, Some, length};
ghost use Rattle.class_pool.specs.declared.class.Member.{Member};
ghost use Rattle.value_literals.specs.Emitted as spec;
ghost use Rattle.value_literals.specs.Emitted.{Does, Appends, front};
ghost use Rattle.value_literals.specs.Code as code_spec;
ghost use Rattle.value_literals.specs.Bounds.{NamesAreFew};
ghost use Rattle.value_literals.specs.Members.{AreMembers};
ghost use Rattle.recording_units.specs.Units.{calls_units};
ghost use Rattle.class_pool.specs.Growth.{ReferRight};
ghost use Rattle.recorder_proxy.specs.Sizes.{cells_of};

use crate::fill::push_ops;
use crate::op::Op;
use crate::ops::{part_ops, run_ops};
use crate::texts::{kind_class, number_name, of_class, part_name};
use class_pool::{Attribute, Code, Flags, Member, Pool, PoolErr};
use item_types::{Memory, Names, Seq, Text};
use recorder_proxy::Recording;
use recording_units::{Arg, Piece, Used, units_of};
use std::alloc::Global;

/// The fields and methods of a recording's class.
pub type Parts = (Seq<Member>, Seq<Member>);

fn text_index(pool: &mut Pool, text: &Text) -> Result<u16, PoolErr>
    ensures { Does (spec.text_index text.now pool.old) result pool.new }
{
    pool.utf8(text)
}

fn field_descriptor(pool: &mut Pool, name: u16, descriptor: &Text) -> Result<Member, PoolErr>
    ensures { Does (spec.field_descriptor name descriptor.now pool.old) result pool.new }
{
    match text_index(pool, descriptor) {
        Ok(descriptor) => Ok(Member {
            flags: Flags::PRIVATE_STATIC,
            name,
            descriptor,
            attributes: Seq::new(pool.alloc()),
        }),
        Err(fault) => Err(fault),
    }
}

fn field_member(pool: &mut Pool, names: &Names, number: u32, used: Used) -> Result<Member, PoolErr>
    ensures { Does (spec.field_member names.now number used pool.old) result pool.new }
{
    let alloc = pool.alloc();
    let name = number_name(alloc, number)?;
    let class = kind_class(alloc, names, used.kind)?;
    let descriptor = of_class(alloc, &class)?;
    match text_index(pool, &name) {
        Ok(name) => field_descriptor(pool, name, &descriptor),
        Err(fault) => Err(fault),
    }
}

fn field_members(
    pool: &mut Pool,
    names: &Names,
    used: &[Used],
    out: &mut Seq<Member>,
) -> Result<(), PoolErr>
    ensures { Appends (spec.field_members names.now 0 used.now pool.old) result out.old out.new pool.new }
{
    let mut number: u32 = 0;
    for one in used {
        if number == 4_294_967_295 {
            return Err(PoolErr::Memory);
        }
        match field_member(pool, names, number, *one) {
            Ok(member) => out.push(member)?,
            Err(fault) => return Err(fault),
        }
        number += 1;
    }
    Ok(())
}

fn coded(
    pool: &mut Pool,
    flags: Flags,
    name: u16,
    descriptor: u16,
    attribute: u16,
    stack: u16,
    ops: &[Op],
) -> Result<Member, PoolErr>
    ensures { Does (spec.coded flags name descriptor attribute stack ops.now pool.old) result pool.new }
{
    let alloc = pool.alloc();
    let mut code = Seq::new(alloc);
    match push_ops(pool, ops, &mut code) {
        Ok(()) => {
            let code = Code {
                max_stack: stack,
                max_locals: 1,
                code,
                catches: Seq::new(alloc),
                attributes: Seq::new(alloc),
            };
            let mut attributes = Seq::new(alloc);
            attributes.push(Attribute::Coded {
                name: attribute,
                code,
            })?;
            Ok(Member {
                flags,
                name,
                descriptor,
                attributes,
            })
        }
        Err(fault) => Err(fault),
    }
}

fn with_descriptor(
    pool: &mut Pool,
    flags: Flags,
    name: u16,
    descriptor: u16,
    stack: u16,
    ops: &[Op],
) -> Result<Member, PoolErr>
    ensures { Does (spec.with_descriptor flags name descriptor stack ops.now pool.old) result pool.new }
{
    let attribute = Text::of(pool.alloc(), "Code")?;
    match text_index(pool, &attribute) {
        Ok(attribute) => coded(pool, flags, name, descriptor, attribute, stack, ops),
        Err(fault) => Err(fault),
    }
}

fn with_name(
    pool: &mut Pool,
    flags: Flags,
    name: u16,
    stack: u16,
    ops: &[Op],
) -> Result<Member, PoolErr>
    ensures { Does (spec.with_name flags name stack ops.now pool.old) result pool.new }
{
    let descriptor = Text::of(pool.alloc(), "(Lio/quarkus/runtime/StartupContext;)V")?;
    match text_index(pool, &descriptor) {
        Ok(descriptor) => with_descriptor(pool, flags, name, descriptor, stack, ops),
        Err(fault) => Err(fault),
    }
}

fn method_member(
    pool: &mut Pool,
    flags: Flags,
    name: &Text,
    stack: u16,
    ops: &[Op],
) -> Result<Member, PoolErr>
    ensures { Does (spec.method_member flags name.now stack ops.now pool.old) result pool.new }
{
    match text_index(pool, name) {
        Ok(name) => with_name(pool, flags, name, stack, ops),
        Err(fault) => Err(fault),
    }
}

fn value_depth(value: &Arg) -> usize
    ensures depth { result ≡ code_spec.value_depth value.now }
    ensures small { result ≤ 2 }
{
    match value {
        Arg::Long(_) => 2,
        Arg::Kept(_) => 2,
        _ => 1,
    }
}

fn args_depth(first: usize, args: &[Arg]) -> usize
    requires { first ≤ 3 }
    ensures { result ≡ code_spec.args_depth first args.now }
{
    let _len = length_of(args);
    let mut deepest: usize = 0;
    let mut depth = first;
    for arg in args {
        deepest = deepest.max(depth + value_depth(arg));
        depth += 1;
    }
    deepest.max(depth)
}

/// No list of values fills half of memory.
fn length_of(args: &[Arg]) -> usize
    ensures value { result ≡ length args.now }
    ensures small { result < 2 ^ 60 }
{
    args.len()
}

fn unit_depth(unit: &Piece) -> usize
    ensures { result ≡ code_spec.unit_depth unit.now }
{
    match unit {
        Piece::Make(_, _) => 2,
        Piece::SetElement(_, value) => 1 + value_depth(value),
        Piece::SetField(_, _, _, value) => 1 + value_depth(value),
        Piece::CallOf(_, _, _, args, None) => args_depth(1, args.as_slice()),
        Piece::CallOf(_, _, _, args, Some(_)) => args_depth(3, args.as_slice()),
    }
}

fn units_depth(units: &[Piece]) -> usize
    ensures { result ≡ code_spec.units_depth units.now }
{
    let mut deepest: usize = 0;
    for unit in units {
        deepest = deepest.max(unit_depth(unit));
    }
    deepest
}

#[tactic(auto, using(crate::proofs::Steps::part_last))]
fn part_at(units: &[Piece], j: usize) -> &[Piece]
    requires { 200 * j ≤ length units.now }
    ensures { result.now ≡ spec.part units.now j }
{
    let rest = &units[200 * j..];
    if rest.len() < 200 {
        return rest;
    }
    &rest[..200]
}

fn part_member(
    pool: &mut Pool,
    names: &Names,
    class: &Text,
    units: &[Piece],
    j: u32,
) -> Result<Member, PoolErr>
    requires { 200 * j ≤ length units.now }
    ensures { Does (spec.part_member names.now class.now units.now j pool.old) result pool.new }
{
    let alloc = pool.alloc();
    let part = part_at(units, j as usize);
    let stack = units_depth(part);
    if stack > 65535 {
        return Err(PoolErr::Memory);
    }
    let ops = part_ops(alloc, names, class, part)?;
    let name = part_name(alloc, j)?;
    method_member(
        pool,
        Flags::PRIVATE_STATIC,
        &name,
        stack as u16,
        ops.as_slice(),
    )
}

fn part_members(
    pool: &mut Pool,
    names: &Names,
    class: &Text,
    units: &[Piece],
    count: u32,
    out: &mut Seq<Member>,
) -> Result<(), PoolErr>
    requires { 200 * count ≤ length units.now + 199 }
    ensures { Appends (spec.part_members names.now class.now units.now 0 count pool.old) result out.old out.new pool.new }
{
    for j in 0..count {
        match part_member(pool, names, class, units, j) {
            Ok(member) => out.push(member)?,
            Err(fault) => return Err(fault),
        }
    }
    Ok(())
}

fn run_member(pool: &mut Pool, class: &Text, count: u32) -> Result<Member, PoolErr>
    ensures { Does (spec.run_member class.now count pool.old) result pool.new }
{
    let alloc = pool.alloc();
    let ops = run_ops(alloc, class, count)?;
    let name = Text::of(alloc, "run")?;
    let stack = if count < 1 { 0 } else { 1 };
    method_member(pool, Flags::PUBLIC_STATIC, &name, stack, ops.as_slice())
}

fn methods_of(
    pool: &mut Pool,
    names: &Names,
    class: &Text,
    units: &[Piece],
) -> Result<Seq<Member>, PoolErr>
    ensures { Does (spec.methods_of names.now class.now units.now pool.old) result pool.new }
{
    if units.len() > 4_000_000_000 {
        return Err(PoolErr::Memory);
    }
    let count = ((units.len() + 199) / 200) as u32;
    let mut out = Seq::new(pool.alloc());
    match run_member(pool, class, count) {
        Ok(run) => out.push(run)?,
        Err(fault) => return Err(fault),
    }
    match part_members(pool, names, class, units, count, &mut out) {
        Ok(()) => Ok(out),
        Err(fault) => Err(fault),
    }
}

fn of_units(
    pool: &mut Pool,
    names: &Names,
    class: &Text,
    used: &[Used],
    units: &[Piece],
) -> Result<Parts, PoolErr>
    ensures { Does (spec.of_units names.now class.now (used.now, units.now) pool.old) result pool.new }
{
    let mut fields = Seq::new(pool.alloc());
    match field_members(pool, names, used, &mut fields) {
        Ok(()) => {}
        Err(fault) => return Err(fault),
    }
    match methods_of(pool, names, class, units) {
        Ok(methods) => Ok((fields, methods)),
        Err(fault) => Err(fault),
    }
}

fn of_recording(
    pool: &mut Pool,
    names: &Names,
    recording: &Recording,
    class: &Text,
) -> Result<Parts, PoolErr>
    ensures { Does (spec.code_of names.now recording.now class.now pool.old) result pool.new }
{
    let (used, units) = units_of(pool.alloc(), recording)?;
    of_units(pool, names, class, used.as_slice(), units.as_slice())
}

/// The fields and methods of the class of that name, which plays the recording, entered into the
/// pool. The pool never is full.
///
/// # Errors
/// `Memory` for want of memory: the pool may have more entries.
pub fn code_of_recording(
    names: &Names,
    recording: &Recording,
    class: &Text,
    pool: &mut Pool,
) -> Result<Parts, Memory>
    requires few { NamesAreFew names.now }
    requires cells { cells_of recording.now.calls ≤ 8192 }
    requires refer { ReferRight pool.old pool.old }
    requires small { length pool.old ≤ 1000 }
    ensures code { IfOk result (λ p. spec.code_of names.now recording.now class.now pool.old ≡ Some (p, pool.new)) }
    ensures refer { IfOk result (λ p. ReferRight pool.new pool.new) }
    ensures members { IfOk result (λ p. AreMembers names.now class.now (calls_units recording.now.step 0 recording.now.calls []) p pool.new) }
    ensures room { IfOk result (λ p. length pool.new ≤ 60693) }
{
    match of_recording(pool, names, recording, class) {
        Ok(parts) => Ok(parts),
        Err(PoolErr::Memory) => Err(Memory),
        Err(PoolErr::Full) => unreachable!(),
    }
}
