ghost use Rattle.std.specs.Prelude.{◌≡◌, ◌↔◌, IsTrue, IfOk};

use crate::outcome::{Inputs, Outcome, Reason};
use item_types::{Memory, Same, Seq, Value, copy_values, same_values};
use std::alloc::Global;

impl Same for Inputs {
    fn same(&self, other: &Inputs) -> bool {
        same_lists(self.lists.as_slice(), other.lists.as_slice())
    }

    fn try_copy(&self, alloc: Global) -> Result<Inputs, Memory> {
        Ok(Inputs {
            lists: copy_lists(alloc, self.lists.as_slice())?,
        })
    }
}

impl Same for Outcome {
    fn same(&self, other: &Outcome) -> bool {
        match (self, other) {
            (
                Outcome::Done { puts, calls },
                Outcome::Done {
                    puts: other_puts,
                    calls: other_calls,
                },
            ) => same_puts(puts.as_slice(), other_puts.as_slice()) && calls.same(other_calls),
            (Outcome::Fails(reason), Outcome::Fails(other_reason)) => reason.same(other_reason),
            _ => false,
        }
    }

    fn try_copy(&self, alloc: Global) -> Result<Outcome, Memory> {
        match self {
            Outcome::Done { puts, calls } => Ok(Outcome::Done {
                puts: copy_puts(alloc, puts.as_slice())?,
                calls: calls.try_copy(alloc)?,
            }),
            Outcome::Fails(reason) => Ok(Outcome::Fails(reason.try_copy(alloc)?)),
        }
    }
}

impl Same for Reason {
    fn same(&self, other: &Reason) -> bool {
        match (self, other) {
            (Reason::Said(a), Reason::Said(b)) => a.same(b),
            (Reason::Kind { at: a }, Reason::Kind { at: b }) => *a == *b,
            (Reason::ProxyUsed { at: a }, Reason::ProxyUsed { at: b }) => *a == *b,
            (Reason::Twice(a), Reason::Twice(b)) => *a == *b,
            (Reason::NoKey(a), Reason::NoKey(b)) => *a == *b,
            (Reason::RuntimeInStatic(a), Reason::RuntimeInStatic(b)) => a.same(*b),
            (Reason::TooDeep { at: a }, Reason::TooDeep { at: b }) => *a == *b,
            (Reason::TooManyTaken(a), Reason::TooManyTaken(b)) => *a == *b,
            (Reason::TooManyTurns, Reason::TooManyTurns) => true,
            (Reason::TooManyCells, Reason::TooManyCells) => true,
            (Reason::TooMuchText, Reason::TooMuchText) => true,
            (Reason::TextTooLong, Reason::TextTooLong) => true,
            (Reason::TooManyPut, Reason::TooManyPut) => true,
            (Reason::TooManyRecorded, Reason::TooManyRecorded) => true,
            _ => false,
        }
    }

    fn try_copy(&self, alloc: Global) -> Result<Reason, Memory> {
        match self {
            Reason::Said(text) => Ok(Reason::Said(text.try_copy(alloc)?)),
            Reason::Kind { at } => Ok(Reason::Kind { at: *at }),
            Reason::ProxyUsed { at } => Ok(Reason::ProxyUsed { at: *at }),
            Reason::Twice(item) => Ok(Reason::Twice(*item)),
            Reason::NoKey(item) => Ok(Reason::NoKey(*item)),
            Reason::RuntimeInStatic(proxy) => Ok(Reason::RuntimeInStatic(*proxy)),
            Reason::TooDeep { at } => Ok(Reason::TooDeep { at: *at }),
            Reason::TooManyTaken(item) => Ok(Reason::TooManyTaken(*item)),
            Reason::TooManyTurns => Ok(Reason::TooManyTurns),
            Reason::TooManyCells => Ok(Reason::TooManyCells),
            Reason::TooMuchText => Ok(Reason::TooMuchText),
            Reason::TextTooLong => Ok(Reason::TextTooLong),
            Reason::TooManyPut => Ok(Reason::TooManyPut),
            Reason::TooManyRecorded => Ok(Reason::TooManyRecorded),
        }
    }
}

fn same_lists(xs: &[Seq<Value>], ys: &[Seq<Value>]) -> bool
    ensures { IsTrue result ↔ (xs.now ≡ ys.now) }
{
    if xs.len() != ys.len() {
        return false;
    }
    for i in 0..xs.len() {
        if !same_values(xs[i].as_slice(), ys[i].as_slice()) {
            return false;
        }
    }
    true
}

fn copy_lists(alloc: Global, lists: &[Seq<Value>]) -> Result<Seq<Seq<Value>>, Memory>
    ensures { IfOk result (λ s. s ≡ lists.now) }
{
    let mut copies = Seq::with_capacity(alloc, lists.len())?;
    for list in lists {
        copies.push(copy_values(alloc, list.as_slice())?)?;
    }
    Ok(copies)
}

fn same_puts(xs: &[(u32, Value)], ys: &[(u32, Value)]) -> bool
    ensures { IsTrue result ↔ (xs.now ≡ ys.now) }
{
    if xs.len() != ys.len() {
        return false;
    }
    for i in 0..xs.len() {
        if !same_put(&xs[i], &ys[i]) {
            return false;
        }
    }
    true
}

fn same_put(x: &(u32, Value), y: &(u32, Value)) -> bool
    ensures { IsTrue result ↔ (x.now ≡ y.now) }
{
    x.0 == y.0 && x.1.equals(&y.1)
}

fn copy_puts(alloc: Global, puts: &[(u32, Value)]) -> Result<Seq<(u32, Value)>, Memory>
    ensures { IfOk result (λ s. s ≡ puts.now) }
{
    let mut copies = Seq::with_capacity(alloc, puts.len())?;
    for put in puts {
        let value = put.1.try_copy()?;
        copies.push((put.0, value))?;
    }
    Ok(copies)
}
