// The operations on values. `at` is the number of the operation's token.

ghost use Rattle.std.specs.Prelude.{◌≡◌, if◌then◌else◌, map, IfOk};
ghost use Rattle.std.specs.Bool.{OnTrue};
ghost use Rattle.item_types.specs.declared.value.Value.{out-Value};
ghost use Rattle.operators.specs.Operands.{shown};
ghost use Rattle.step_state.specs.Evaluation.{Gives};
ghost use Rattle.step_state.specs.Bound.{bound};
ghost use Rattle.step_state.specs.Operations as spec;

use crate::outcome::Reason;
use crate::scope::{Scope, newest};
use crate::stop::Stop;
use item_types::{Memory, Names, Same, Seq, Shared, SharedText, Text, Value, part_of};
use operators::{Added, Operand, is_too_long, len, same_plain};
use std::alloc::Global;

fn refused(at: u32, proxy: bool) -> Stop
    ensures { result ≡ Stop.Fails (if proxy then Reason.ProxyUsed at else Reason.Kind at) }
{
    if proxy {
        return Stop::Fails(Reason::ProxyUsed { at });
    }
    Stop::Fails(Reason::Kind { at })
}

fn is_proxy(value: &Value) -> bool
    ensures { result ≡ spec.is_proxy value.now }
{
    matches!(value, Value::Returned(_))
}

/// What the operations see of a value.
#[tactic(auto, unfolding(crate::specs::Operations::seen))]
fn operand(value: &Value) -> Operand<&str>
    ensures { shown result ≡ spec.seen value.now }
{
    match value {
        Value::Null => Operand::Null,
        Value::Bool(b) => Operand::Bool(*b),
        Value::Long(n) => Operand::Long(*n),
        Value::Str(text) => Operand::Str(text.as_str()),
        Value::List(_, parts) => Operand::List(parts.as_slice().len() as i64),
        Value::Bean(_, _, _) | Value::Returned(_) => Operand::Other,
    }
}

/// A text of the body as a value, unless it is too long.
#[tactic(auto, unfolding(crate::specs::Operations::text))]
pub fn text(alloc: Global, text: &Text) -> Result<Value, Stop>
    ensures { Gives (spec.text text.now) result }
{
    if is_too_long(text) {
        return Err(Stop::Fails(Reason::TextTooLong));
    }
    let copy = text.try_copy(alloc)?;
    Ok(Value::Str(SharedText::of(alloc, copy)?))
}

/// The sum of two numbers, or the join of two texts.
pub fn plus(alloc: Global, at: u32, a: &Value, b: &Value) -> Result<Value, Stop>
    ensures { Gives (spec.plus at a.now b.now) result }
{
    match operators::plus(alloc, &operand(a), &operand(b))? {
        Added::Long(sum) => Ok(Value::Long(sum)),
        Added::Str(text) => Ok(Value::Str(SharedText::of(alloc, text)?)),
        Added::WrongKind => Err(refused(at, is_proxy(a) || is_proxy(b))),
        Added::TooLong => Err(Stop::Fails(Reason::TextTooLong)),
    }
}

/// Whether the first number is less than the second.
pub fn less(at: u32, a: &Value, b: &Value) -> Result<Value, Stop>
    ensures { Gives (spec.less at a.now b.now) result }
{
    match operators::less(&operand(a), &operand(b)) {
        Some(is_less) => Ok(Value::Bool(is_less)),
        None => Err(refused(at, is_proxy(a) || is_proxy(b))),
    }
}

#[tactic(auto, unfolding(crate::specs::Operations::seen))]
fn same(a: &Value, b: &Value) -> bool
    ensures { result ≡ spec.same_at (out-Value a.now) (out-Value b.now) }
{
    match (a, b) {
        (Value::List(a, _), Value::List(b, _)) => a.step == b.step && a.k == b.k,
        (Value::Bean(a, _, _), Value::Bean(b, _, _)) => a.step == b.step && a.k == b.k,
        _ => same_plain(&operand(a), &operand(b)),
    }
}

/// Whether both values are the same.
pub fn equal(at: u32, a: &Value, b: &Value) -> Result<Value, Stop>
    ensures { Gives (spec.equal at a.now b.now) result }
{
    if is_proxy(a) || is_proxy(b) {
        return Err(Stop::Fails(Reason::ProxyUsed { at }));
    }
    Ok(Value::Bool(same(a, b)))
}

/// The truth value.
pub fn truth(at: u32, value: &Value) -> Result<bool, Stop>
    ensures { Gives (spec.truth at value.now) result }
{
    match operators::truth(&operand(value)) {
        Some(truth) => Ok(truth),
        None => Err(refused(at, is_proxy(value))),
    }
}

/// How many characters a text has, or how many elements a list.
pub fn count(at: u32, value: &Value) -> Result<Value, Stop>
    ensures { Gives (spec.count at value.now) result }
{
    match len(&operand(value)) {
        Some(count) => Ok(Value::Long(count)),
        None => Err(refused(at, is_proxy(value))),
    }
}

/// The elements of a list.
pub fn elements(at: u32, value: Value) -> Result<Shared<Value>, Stop>
    ensures { Gives (spec.elements at value) result }
{
    match value {
        Value::List(_id, parts) => Ok(parts),
        other => Err(refused(at, is_proxy(&other))),
    }
}

/// The failure that says this text.
pub fn said(alloc: Global, at: u32, value: Value) -> Result<(), Stop>
    ensures { Gives (spec.said at value) result }
{
    match value {
        Value::Str(text) => Err(Stop::Fails(Reason::Said(text.into_text(alloc)?))),
        other => Err(refused(at, is_proxy(&other))),
    }
}

/// The field of a bean.
#[tactic(auto, unfolding(crate::specs::Operations::field))]
pub fn field(
    alloc: Global,
    names: &Names,
    at: u32,
    name: &Text,
    value: &Value,
) -> Result<Value, Stop>
    ensures { Gives (spec.field names.now at name.now value.now) result }
{
    let Value::Bean(_, bean, parts) = value else {
        return Err(refused(at, is_proxy(value)));
    };
    match part_of(name.as_str(), names.fields_of(*bean), parts.as_slice()) {
        Some(part) => Ok(part.try_copy()?),
        None => Err(Stop::Fails(Reason::Kind { at })),
    }
}

/// The values in the declared order of their fields. Parts that were written in that order are
/// moved there, and others copied.
pub fn arranged(
    alloc: Global,
    fields: &[Text],
    written: Scope<'_, Value>,
) -> Result<Seq<Value>, Memory>
    ensures { IfOk result (λ vs. vs ≡ spec.arranged fields.now written.entry) }
{
    if is_in_order(fields, written.as_slice()) {
        return written_values(alloc, written);
    }
    arranged_copies(alloc, fields, &written)
}

/// Whether each field was written at its own place, and not again after it. Then the values as
/// they were written are in the declared order.
#[tactic(auto, unfolding(crate::specs::Operations::arranged))]
fn is_in_order(fields: &[Text], written: &[(&str, Value)]) -> bool
    ensures { OnTrue result (spec.arranged fields.now (bound written.now) ≡ map (λ p. p.1) (bound written.now)) }
{
    if fields.len() != written.len() {
        return false;
    }
    for i in 0..written.len() {
        let field = fields[i].as_str();
        if written[i].0 != field || newest(&written[i + 1..], field).is_some() {
            return false;
        }
    }
    true
}

/// The values as they were written.
fn written_values(alloc: Global, written: Scope<'_, Value>) -> Result<Seq<Value>, Memory>
    ensures { IfOk result (λ vs. vs ≡ map (λ p. p.1) written.entry) }
{
    let mut values = Seq::with_capacity(alloc, written.len())?;
    for (_, value) in written.into_entries() {
        values.push(value)?;
    }
    Ok(values)
}

/// Copies of the values in the declared order of their fields.
#[tactic(auto, unfolding(crate::specs::Operations::arranged))]
fn arranged_copies(
    alloc: Global,
    fields: &[Text],
    written: &Scope<'_, Value>,
) -> Result<Seq<Value>, Memory>
    ensures { IfOk result (λ vs. vs ≡ spec.arranged fields.now written.now) }
{
    let mut values = Seq::with_capacity(alloc, fields.len())?;
    for field in fields {
        let value = match written.newest(field.as_str()) {
            Some(value) => value.try_copy()?,
            None => Value::Null,
        };
        values.push(value)?;
    }
    Ok(values)
}
