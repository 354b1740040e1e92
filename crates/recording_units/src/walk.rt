ghost use Rattle.std.specs.Prelude.{◌≡◌, [], ◌∷◌, ◌++◌, OnOk, IfOk, map, length};
ghost use Rattle.recording_units.specs.Units.{same_key, place, kept_under, elements, fields, units, units_all, recorder_units, call_units, calls_units};
ghost use Rattle.recording_units.specs.Listing.{left, left_parts, left_all};

use crate::types::{Arg, Kept, Key, Kind, Piece, Used};
use item_types::{Memory, Seq, Value};
use recorder_proxy::{Call, Recording};
use std::alloc::Global;

fn same(a: Key, b: Key) -> bool
    ensures { result ≡ same_key a b }
{
    match (a, b) {
        (Key::Recorder(a), Key::Recorder(b)) => a == b,
        (Key::Node(a), Key::Node(b)) => a.step == b.step && a.k == b.k,
        (Key::Recorder(_), Key::Node(_)) => false,
        (Key::Node(_), Key::Recorder(_)) => false,
    }
}

/// The number of a key, its place in the order of first use, and what is made for it.
fn number(used: &[Used], key: Key) -> Option<(usize, Kind)>
    ensures { result ≡ place 0 key used.now }
{
    for i in 0..used.len() {
        if same(key, used[i].key) {
            return Some((i, used[i].kind));
        }
    }
    None
}

/// Enters a new key, with the unit that makes its object.
fn enter(key: Key, kind: Kind, used: &mut Seq<Used>, out: &mut Seq<Piece>) -> Result<u32, Memory>
    ensures number { IfOk result (λ n. n ≡ length used.old) }
    ensures used { OnOk result (used.new ≡ used.old ++ record { key = key; kind = kind } ∷ []) }
    ensures out { OnOk result (out.new ≡ out.old ++ Piece.Make (length used.old) kind ∷ []) }
{
    let n = used.as_slice().len();
    if n >= 4_294_967_295 {
        return Err(Memory);
    }
    let n = n as u32;
    used.push(Used { key, kind })?;
    out.push(Piece::Make(n, kind))?;
    Ok(n)
}

fn made(number: usize, kind: Kind) -> Result<Arg, Memory>
    ensures { IfOk result (λ a. a ≡ Arg.Made number kind) }
{
    if number >= 4_294_967_295 {
        return Err(Memory);
    }
    Ok(Arg::Made(number as u32, kind))
}

/// Lists the units of what the value uses first, and says how it is pushed.
#[cycle(walk)]
fn list_value(
    alloc: Global,
    value: &Value,
    used: &mut Seq<Used>,
    out: &mut Seq<Piece>,
) -> Result<Arg, Memory>
    ensures { IfOk result (λ a. (used.new, out.new, a) ≡ left (units value.now used.old) out.old) }
{
    match value {
        Value::Null => Ok(Arg::Null),
        Value::Bool(b) => Ok(Arg::Bool(*b)),
        Value::Long(n) => Ok(Arg::Long(*n)),
        Value::Str(text) => Ok(Arg::Str(text.share()?)),
        Value::List(id, parts) => match number(used.as_slice(), Key::Node(*id)) {
            Some((n, kind)) => made(n, kind),
            None => {
                let n = enter(Key::Node(*id), Kind::List, used, out)?;
                list_elements(alloc, parts.as_slice(), n, used, out)?;
                Ok(Arg::Made(n, Kind::List))
            }
        },
        Value::Bean(id, bean, parts) => match number(used.as_slice(), Key::Node(*id)) {
            Some((n, kind)) => made(n, kind),
            None => {
                let n = enter(Key::Node(*id), Kind::Bean(*bean), used, out)?;
                list_fields(alloc, parts.as_slice(), n, *bean, used, out)?;
                Ok(Arg::Made(n, Kind::Bean(*bean)))
            }
        },
        Value::Returned(proxy) => Ok(Arg::Kept(Kept {
            step: proxy.step,
            call: proxy.call,
        })),
    }
}

#[cycle(walk)]
fn list_elements(
    alloc: Global,
    parts: &[Value],
    n: u32,
    used: &mut Seq<Used>,
    out: &mut Seq<Piece>,
) -> Result<(), Memory>
    ensures { OnOk result ((used.new, out.new) ≡ left_parts (elements (map units parts.now) n used.old) out.old) }
{
    for part in parts {
        let value = list_value(alloc, part, used, out)?;
        out.push(Piece::SetElement(n, value))?;
    }
    Ok(())
}

#[cycle(walk)]
fn list_fields(
    alloc: Global,
    parts: &[Value],
    n: u32,
    bean: u32,
    used: &mut Seq<Used>,
    out: &mut Seq<Piece>,
) -> Result<(), Memory>
    ensures { OnOk result ((used.new, out.new) ≡ left_parts (fields (map units parts.now) n bean 0 used.old) out.old) }
{
    let mut field = 0;
    for part in parts {
        let value = list_value(alloc, part, used, out)?;
        out.push(Piece::SetField(n, bean, field, value))?;
        if field == 4_294_967_295 {
            return Err(Memory);
        }
        field += 1;
    }
    Ok(())
}

fn list_args(
    alloc: Global,
    args: &[Value],
    used: &mut Seq<Used>,
    out: &mut Seq<Piece>,
) -> Result<Seq<Arg>, Memory>
    ensures { IfOk result (λ values. (used.new, out.new, values) ≡ left_all (units_all (map units args.now) used.old) out.old) }
{
    let mut values = Seq::new(alloc);
    for arg in args {
        let value = list_value(alloc, arg, used, out)?;
        values.push(value)?;
    }
    Ok(values)
}

/// The number of a recorder, which is made where it is used first.
fn list_recorder(recorder: u32, used: &mut Seq<Used>, out: &mut Seq<Piece>) -> Result<Arg, Memory>
    ensures { IfOk result (λ a. (used.new, out.new, a) ≡ left (recorder_units recorder used.old) out.old) }
{
    match number(used.as_slice(), Key::Recorder(recorder)) {
        Some((n, kind)) => made(n, kind),
        None => {
            let kind = Kind::Recorder(recorder);
            let n = enter(Key::Recorder(recorder), kind, used, out)?;
            Ok(Arg::Made(n, kind))
        }
    }
}

fn number_of(arg: &Arg) -> u32
    ensures { result ≡ Rattle.recording_units.specs.Units.number_of arg.now }
{
    match arg {
        Arg::Made(n, _) => *n,
        _ => 0,
    }
}

fn kept(step: u32, call: u32, keeps: bool) -> Option<Kept>
    ensures { result ≡ kept_under step call keeps }
{
    if keeps {
        Some(Kept { step, call })
    } else {
        None
    }
}

fn list_call(
    alloc: Global,
    step: u32,
    j: u32,
    call: &Call,
    used: &mut Seq<Used>,
    out: &mut Seq<Piece>,
) -> Result<(), Memory>
    ensures { OnOk result ((used.new, out.new) ≡ left_parts (call_units step j call.now used.old) out.old) }
{
    let me = list_recorder(call.recorder, used, out)?;
    let n = number_of(&me);
    let args = list_args(alloc, call.args.as_slice(), used, out)?;
    let kept = kept(step, j, call.keeps);
    out.push(Piece::CallOf(n, call.recorder, call.method, args, kept))
}

/// The table of what the recording uses, and its units.
pub fn units_of(alloc: Global, recording: &Recording) -> Result<(Seq<Used>, Seq<Piece>), Memory>
    ensures { IfOk result (λ r. r ≡ calls_units recording.now.step 0 recording.now.calls []) }
{
    let mut used = Seq::new(alloc);
    let mut out = Seq::new(alloc);
    let mut j = 0;
    for call in recording.calls.as_slice() {
        list_call(alloc, recording.step, j, call, &mut used, &mut out)?;
        if j == 4_294_967_295 {
            return Err(Memory);
        }
        j += 1;
    }
    Ok((used, out))
}
