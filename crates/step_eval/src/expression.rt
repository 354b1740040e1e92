// The value of an expression.

ghost use Rattle.std.specs.Prelude.{◌≡◌, map, slice_index, IfOk};
ghost use Rattle.step_state.specs.Evaluation.{Evals};
ghost use Rattle.step_eval.specs.Expressions as spec;
ghost use Rattle.step_eval.specs.Expressions.{meaning};
ghost use Rattle.step_eval.specs.Taken.{taken, first_of};

use crate::context::Context;
use item_types::{Memory, Seq, Text, Value, copy_values};
use std::alloc::Global;
use step_state::{Scope, State, Stop, arranged, count, equal, field, less, plus, text, truth};
use syntax_tree::{Expr, Link};

/// The first token of an expression.
pub fn first_token(cx: &Context<'_>, e: &Expr) -> u32
    ensures { result ≡ spec.first_token cx.now e.now }
{
    match e {
        Expr::Null { at }
        | Expr::Bool { at, .. }
        | Expr::Long { at, .. }
        | Expr::Str { at, .. }
        | Expr::Name { at, .. }
        | Expr::Get { at, .. }
        | Expr::All { at, .. }
        | Expr::New { at, .. }
        | Expr::ListOf { at, .. }
        | Expr::Len { at, .. }
        | Expr::Not { at, .. }
        | Expr::Paren { at, .. }
        | Expr::Me { at }
        | Expr::StaticOf { at, .. } => *at,
        Expr::Fields { inner, .. } => first_token(cx, inner.get()),
        Expr::Equal { left, .. } => first_token(cx, left.get()),
        Expr::Less { left, .. } => first_token(cx, left.get()),
        Expr::Sum { parts, .. } => match parts.as_slice() {
            [] => 0,
            [part, ..] => first_token(cx, part),
        },
        Expr::Both { parts, .. } => match parts.as_slice() {
            [] => 0,
            [part, ..] => first_token(cx, part),
        },
    }
}

/// The first value that was taken of the item, or null.
fn first_taken(cx: &Context<'_>, item: u32) -> Result<Value, Memory>
    ensures { IfOk result (λ v. v ≡ first_of (taken cx.now item)) }
{
    match cx.taken(item) {
        [] => Ok(Value::Null),
        [first, ..] => first.try_copy(),
    }
}

/// Each field of the value before it.
fn follow(
    alloc: Global,
    cx: &Context<'_>,
    state: &mut State<'_>,
    at: u32,
    links: &[Link],
    value: Value,
) -> Result<Value, Stop>
    ensures { Evals (spec.chain cx.now at links.now value state.old) result state.new }
{
    let mut value = value;
    for link in links {
        let part = field(alloc, cx.names(), link.dot, &link.field, &value)?;
        value = state.made(at, part)?;
    }
    Ok(value)
}

/// The value of an expression.
#[cycle(expr)]
pub fn value_of(
    alloc: Global,
    cx: &Context<'_>,
    state: &mut State<'_>,
    e: &Expr,
) -> Result<Value, Stop>
    ensures { Evals (spec.value_of cx.now e.now state.old) result state.new }
{
    match e {
        Expr::Null { at } | Expr::Me { at } | Expr::StaticOf { at, .. } => {
            state.made(*at, Value::Null)
        }
        Expr::Bool { at, value } => state.made(*at, Value::Bool(*value)),
        Expr::Long { at, value } => state.made(*at, Value::Long(*value)),
        Expr::Str { at, value } => {
            let v = text(alloc, value)?;
            state.made(*at, v)
        }
        Expr::Name { at, name } => {
            let v = state.look(name)?;
            state.made(*at, v)
        }
        Expr::Get { at, item } => {
            let v = first_taken(cx, *item)?;
            state.made(*at, v)
        }
        Expr::All { at, item } => {
            let vs = copy_values(alloc, cx.taken(*item))?;
            state.made_list(alloc, *at, cx.step(), vs)
        }
        Expr::New { at, bean, fields } => {
            value_of_new(alloc, cx, state, *at, *bean, fields.as_slice())
        }
        Expr::ListOf { at, parts } => {
            let vs = values_of(alloc, cx, state, parts.as_slice())?;
            state.made_list(alloc, *at, cx.step(), vs)
        }
        Expr::Fields { inner, links } => {
            let v = value_of(alloc, cx, state, inner.get())?;
            follow(
                alloc,
                cx,
                state,
                first_token(cx, inner.get()),
                links.as_slice(),
                v,
            )
        }
        Expr::Len { at, inner } => {
            let v = value_of(alloc, cx, state, inner.get())?;
            let n = count(*at, &v)?;
            state.made(*at, n)
        }
        Expr::Not { at, inner } => {
            let v = value_of(alloc, cx, state, inner.get())?;
            let b = truth(*at, &v)?;
            state.made(*at, Value::Bool(!b))
        }
        Expr::Sum { parts, signs } => {
            let v = sum_of(alloc, cx, state, parts.as_slice(), signs.as_slice())?;
            state.made(first_token(cx, e), v)
        }
        Expr::Both { parts, signs } => {
            let b = both_of(alloc, cx, state, parts.as_slice(), signs.as_slice())?;
            state.made(first_token(cx, e), Value::Bool(b))
        }
        Expr::Equal { left, sign, right } => {
            let a = value_of(alloc, cx, state, left.get())?;
            let b = value_of(alloc, cx, state, right.get())?;
            let v = equal(*sign, &a, &b)?;
            state.made(first_token(cx, left.get()), v)
        }
        Expr::Less { left, sign, right } => {
            let a = value_of(alloc, cx, state, left.get())?;
            let b = value_of(alloc, cx, state, right.get())?;
            let v = less(*sign, &a, &b)?;
            state.made(first_token(cx, left.get()), v)
        }
        Expr::Paren { inner, .. } => value_of(alloc, cx, state, inner.get()),
    }
}

/// The values of all parts, from left to right.
#[cycle(expr)]
pub fn values_of(
    alloc: Global,
    cx: &Context<'_>,
    state: &mut State<'_>,
    parts: &[Expr],
) -> Result<Seq<Value>, Stop>
    ensures { Evals (spec.all (map (meaning cx.now) parts.now) state.old) result state.new }
{
    let mut out = Seq::with_capacity(alloc, parts.len())?;
    for part in parts {
        let v = value_of(alloc, cx, state, part)?;
        out.push(v)?;
    }
    Ok(out)
}

#[cycle(expr)]
#[tactic(auto, unfolding(crate::specs::Expressions::new_of))]
fn value_of_new(
    alloc: Global,
    cx: &Context<'_>,
    state: &mut State<'_>,
    at: u32,
    bean: u32,
    fields: &[(Text, Expr)],
) -> Result<Value, Stop>
    ensures { Evals (spec.new_of cx.now at bean (map (λ f. (f.0, meaning cx.now f.1)) fields.now) state.old) result state.new }
{
    let written = values_of_fields(alloc, cx, state, fields)?;
    let parts = arranged(alloc, cx.names().fields_of(bean), written)?;
    state.made_bean(alloc, at, cx.step(), bean, parts)
}

#[cycle(expr)]
fn values_of_fields<'a>(
    alloc: Global,
    cx: &Context<'_>,
    state: &mut State<'_>,
    fields: &'a [(Text, Expr)],
) -> Result<Scope<'a, Value>, Stop>
    ensures { Evals (spec.named (map (λ f. (f.0, meaning cx.now f.1)) fields.now) state.old) result state.new }
{
    let mut written = Scope::new(alloc);
    for field in fields {
        let v = value_of(alloc, cx, state, &field.1)?;
        written.push(field.0.as_str(), v)?;
    }
    Ok(written)
}

#[cycle(expr)]
fn sum_of(
    alloc: Global,
    cx: &Context<'_>,
    state: &mut State<'_>,
    parts: &[Expr],
    signs: &[u32],
) -> Result<Value, Stop>
    ensures { Evals (spec.sum (map (meaning cx.now) parts.now) signs.now state.old) result state.new }
{
    let [first, others @ ..] = parts else {
        return Ok(Value::Null);
    };
    let mut sum = value_of(alloc, cx, state, first)?;
    for (i, part) in others.iter().enumerate() {
        sum = add_part(alloc, cx, state, part, sum, sign_at(signs, i))?;
    }
    Ok(sum)
}

#[cycle(expr)]
#[tactic(auto, unfolding(crate::specs::Expressions::added))]
fn add_part(
    alloc: Global,
    cx: &Context<'_>,
    state: &mut State<'_>,
    part: &Expr,
    sum: Value,
    sign: u32,
) -> Result<Value, Stop>
    ensures { Evals (spec.added sum sign (meaning cx.now part.now) state.old) result state.new }
{
    let v = value_of(alloc, cx, state, part)?;
    plus(alloc, sign, &sum, &v)
}

#[cycle(expr)]
fn both_of(
    alloc: Global,
    cx: &Context<'_>,
    state: &mut State<'_>,
    parts: &[Expr],
    signs: &[u32],
) -> Result<bool, Stop>
    ensures { Evals (spec.both_from (slice_index signs.now 0) (map (meaning cx.now) parts.now) signs.now state.old) result state.new }
{
    let mut at = sign_at(signs, 0);
    for (i, part) in parts.iter().enumerate() {
        let v = value_of(alloc, cx, state, part)?;
        if !truth(at, &v)? {
            return Ok(false);
        }
        at = sign_at(signs, i);
    }
    Ok(true)
}

/// The sign at this place, or 0.
fn sign_at(signs: &[u32], place: usize) -> u32
    ensures { result ≡ slice_index signs.now place }
{
    signs.get(place).copied().unwrap_or(0)
}
