// The value of an expression.

ghost use Rattle.std.specs.Prelude.{◌≡◌, map, slice_index, IfOk};
ghost use Rattle.startup_rules.specs.Methods as spec;
ghost use Rattle.startup_rules.specs.Methods.{value};
ghost use Rattle.method_exec.specs.Walking.{Does};

use crate::field::{bean, field_of, get_static, list_of};
use crate::named::Named;
use crate::setting::Setting;
use crate::stop::Stop;
use crate::values::{equal, len, less, long_text, not, plus, truth};
use item_types::{Memory, Same, Seq, SharedText, Text};
use startup_rules::Slot;
use startup_world::World;
use syntax_tree::{Expr, Link};

/// A text of the method as a value.
fn literal(cx: &Setting<'_>, world: &World, text: &Text) -> Result<Slot, Stop>
    ensures { Does (spec.text cx.now text.now world.now) result world.now }
{
    if operators::is_too_long(text) {
        return long_text(cx, world);
    }
    let copy = text.try_copy(world.alloc())?;
    Ok(Slot::Str(SharedText::of(world.alloc(), copy)?))
}

/// The newest value of a name.
pub fn named_value(env: &Named<'_>, name: &Text) -> Result<Slot, Memory>
    ensures { IfOk result (λ v. v ≡ spec.named_value env.now name.now) }
{
    match env.newest(name.as_str()) {
        Some(slot) => slot.share(),
        None => Ok(Slot::Null),
    }
}

/// Each field of the value before it.
fn follow(cx: &Setting<'_>, world: &World, links: &[Link], v: Slot) -> Result<Slot, Stop>
    ensures { Does (spec.chain cx.now links.now v world.now) result world.now }
{
    let mut v = v;
    for link in links {
        v = field_of(cx, world, &v, &link.field, link.dot)?;
    }
    Ok(v)
}

/// The truth value that the slot is.
pub fn test(cx: &Setting<'_>, world: &World, v: &Slot, at: u32) -> Result<bool, Stop>
    ensures { Does (spec.test cx.now v.now at world.now) result world.now }
{
    let v = truth(cx, world, v, at)?;
    Ok(is_true(&v))
}

fn is_true(v: &Slot) -> bool
    ensures { result ≡ spec.is_true v.now }
{
    match v {
        Slot::Bool(b) => *b,
        _ => false,
    }
}

/// The value of an expression.
#[cycle(expr)]
pub fn value_of(
    cx: &Setting<'_>,
    env: &Named<'_>,
    world: &mut World,
    e: &Expr,
) -> Result<Slot, Stop>
    ensures { Does (value cx.now env.now e.now world.old) result world.new }
{
    match e {
        Expr::Null { .. } | Expr::Get { .. } | Expr::All { .. } => Ok(Slot::Null),
        Expr::Bool { value, .. } => Ok(Slot::Bool(*value)),
        Expr::Long { value, .. } => Ok(Slot::Long(*value)),
        Expr::Str { value, .. } => literal(cx, world, value),
        Expr::Name { name, .. } => Ok(named_value(env, name)?),
        Expr::New { bean, fields, .. } => value_of_new(cx, env, world, *bean, fields.as_slice()),
        Expr::ListOf { parts, .. } => {
            let items = values_of(cx, env, world, parts.as_slice())?;
            list_of(cx, world, items)
        }
        Expr::Fields { inner, links } => {
            let v = value_of(cx, env, world, inner.get())?;
            follow(cx, world, links.as_slice(), v)
        }
        Expr::Len { at, inner } => {
            let v = value_of(cx, env, world, inner.get())?;
            len(cx, world, &v, *at)
        }
        Expr::Not { at, inner } => {
            let v = value_of(cx, env, world, inner.get())?;
            not(cx, world, &v, *at)
        }
        Expr::Sum { parts, signs } => sum_of(cx, env, world, parts.as_slice(), signs.as_slice()),
        Expr::Both { parts, signs } => {
            let b = both_of(cx, env, world, parts.as_slice(), signs.as_slice())?;
            Ok(Slot::Bool(b))
        }
        Expr::Equal { left, right, .. } => {
            let a = value_of(cx, env, world, left.get())?;
            let b = value_of(cx, env, world, right.get())?;
            equal(cx, world, &a, &b)
        }
        Expr::Less { left, sign, right } => {
            let a = value_of(cx, env, world, left.get())?;
            let b = value_of(cx, env, world, right.get())?;
            less(cx, world, &a, &b, *sign)
        }
        Expr::Paren { inner, .. } => value_of(cx, env, world, inner.get()),
        Expr::Me { .. } => Ok(Slot::Obj(cx.me())),
        Expr::StaticOf { field, .. } => get_static(cx, world, field),
    }
}

/// The values of all parts, from left to right.
#[cycle(expr)]
fn values_of(
    cx: &Setting<'_>,
    env: &Named<'_>,
    world: &mut World,
    parts: &[Expr],
) -> Result<Seq<Slot>, Stop>
    ensures { Does (spec.all (map (value cx.now env.now) parts.now) world.old) result world.new }
{
    let mut out = Seq::with_capacity(world.alloc(), parts.len())?;
    for part in parts {
        let v = value_of(cx, env, world, part)?;
        out.push(v)?;
    }
    Ok(out)
}

#[cycle(expr)]
fn value_of_new(
    cx: &Setting<'_>,
    env: &Named<'_>,
    world: &mut World,
    bean_number: u32,
    fields: &[(Text, Expr)],
) -> Result<Slot, Stop>
    ensures { Does (spec.new_of cx.now bean_number (map (λ f. (f.0, value cx.now env.now f.1)) fields.now) world.old) result world.new }
{
    let written = values_of_fields(cx, env, world, fields)?;
    bean(cx, world, &written, cx.names().bean_name(bean_number))
}

#[cycle(expr)]
fn values_of_fields<'b>(
    cx: &Setting<'_>,
    env: &Named<'_>,
    world: &mut World,
    fields: &'b [(Text, Expr)],
) -> Result<Named<'b>, Stop>
    ensures { Does (spec.named (map (λ f. (f.0, value cx.now env.now f.1)) fields.now) world.old) result world.new }
{
    let mut out = Named::new(world.alloc());
    for field in fields {
        let v = value_of(cx, env, world, &field.1)?;
        out.push(&field.0, v)?;
    }
    Ok(out)
}

#[cycle(expr)]
fn sum_of(
    cx: &Setting<'_>,
    env: &Named<'_>,
    world: &mut World,
    parts: &[Expr],
    signs: &[u32],
) -> Result<Slot, Stop>
    ensures { Does (spec.sum cx.now (map (value cx.now env.now) parts.now) signs.now world.old) result world.new }
{
    let [first, others @ ..] = parts else {
        return Ok(Slot::Null);
    };
    let mut sum = value_of(cx, env, world, first)?;
    for (i, part) in others.iter().enumerate() {
        sum = add_part(cx, env, world, part, sum, sign_at(signs, i))?;
    }
    Ok(sum)
}

#[cycle(expr)]
fn add_part(
    cx: &Setting<'_>,
    env: &Named<'_>,
    world: &mut World,
    part: &Expr,
    sum: Slot,
    sign: u32,
) -> Result<Slot, Stop>
    ensures { Does (spec.added cx.now sum sign (value cx.now env.now part.now) world.old) result world.new }
{
    let v = value_of(cx, env, world, part)?;
    plus(cx, world, &sum, &v, sign)
}

#[cycle(expr)]
fn both_of(
    cx: &Setting<'_>,
    env: &Named<'_>,
    world: &mut World,
    parts: &[Expr],
    signs: &[u32],
) -> Result<bool, Stop>
    ensures { Does (spec.both_from cx.now (slice_index signs.now 0) (map (value cx.now env.now) parts.now) signs.now world.old) result world.new }
{
    let mut at = sign_at(signs, 0);
    for (i, part) in parts.iter().enumerate() {
        let v = value_of(cx, env, world, part)?;
        if !test(cx, world, &v, at)? {
            return Ok(false);
        }
        at = sign_at(signs, i);
    }
    Ok(true)
}

/// The sign at this place, or 0.
fn sign_at(signs: &[u32], place: usize) -> u32
    ensures { result ≡ slice_index signs.now place }
{
    signs.get(place).copied().unwrap_or(0)
}
