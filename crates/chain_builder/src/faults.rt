ghost use Rattle.std.specs.Prelude.{◌≡◌, ℕ, ◌<◌, ◌^◌, true, false, length, Contains, ◌↔◌, IfOk, IfSome, IfNone, IsTrue, slice_index_or};
ghost use Rattle.item_types.specs.declared.step.Consume.{Consume};
ghost use Rattle.chain_builder.specs.Rows.{row, AreAscending};
ghost use Rattle.chain_builder.specs.EffectiveProducer.{IsEffectiveProducer};
ghost use Rattle.chain_builder.specs.Needed.{IsNeeded};
ghost use Rattle.chain_builder.specs.ChainFaults.{IsSimple, MustBeProduced, IsDuplicate, HasNoDuplicate, Lacks, IsMissingFinal, NoFinalBefore, IsMissingConsumed, Wants};
ghost use Rattle.chain_builder.specs.ProducerRows.{AreConsumedBelow};
ghost use Rattle.chain_builder.specs.Missing.{IsLackingAt, NoLackBefore, NoWantBefore};

use crate::marks::Marks;
use item_types::{Consume, ItemDecl, ItemKind, Memory, Seq, StepDecl};
use std::alloc::Global;

/// An item with two producers.
#[derive(Clone, Copy, Debug)]
pub struct Duplicate {
    pub item: u32,
    pub first: u32,
    pub second: u32,
}

/// An item that a step wants in vain.
#[derive(Clone, Copy, Debug)]
pub struct Wanted {
    pub item: u32,
    pub consumer: u32,
}

fn is_simple(items: &[ItemDecl], t: usize) -> bool
    requires { t < length items.now }
    ensures { IsTrue result ↔ IsSimple items.now t }
{
    match items[t].kind {
        ItemKind::Simple => true,
        _ => false,
    }
}

fn must_be_produced(items: &[ItemDecl], t: usize) -> bool
    requires { t < length items.now }
    ensures { IsTrue result ↔ MustBeProduced items.now t }
{
    match items[t].kind {
        ItemKind::Simple | ItemKind::Empty => true,
        _ => false,
    }
}

pub fn find_duplicate(
    steps: &[StepDecl],
    items: &[ItemDecl],
    producers: &[Seq<u32>],
) -> Option<Duplicate>
    requires producers { (t s : ℕ) → Contains (row producers.now t) s ↔ IsEffectiveProducer steps.now s t }
    requires ascending { AreAscending producers.now }
    requires width { length producers.now ≡ length items.now }
    requires few { length items.now < 2 ^ 32 }
    ensures found { IfSome result (λ d. IsDuplicate steps.now items.now d.item d.first d.second) }
    ensures none { IfNone result (HasNoDuplicate steps.now items.now) }
{
    for t in 0..items.len() {
        if is_simple(items, t) {
            let row = producers[t].as_slice();
            if row.len() > 1 {
                return Some(Duplicate {
                    item: t as u32,
                    first: row[0],
                    second: row[1],
                });
            }
        }
    }
    None
}

/// Whether one of the steps is needed.
fn any_needed(row: &[u32], needed: &Marks) -> bool
    ensures { IsTrue result ↔ ((s : ℕ) × Contains row.now s × Contains needed.now.items s) }
{
    for s in row {
        if needed.contains(*s) {
            return true;
        }
    }
    false
}

/// Whether an item has to be produced and no needed step produces it.
fn is_lacking(
    steps: &[StepDecl],
    items: &[ItemDecl],
    finals: &[u32],
    needed: &Marks,
    producers: &[u32],
    t: usize,
) -> bool
    requires item { t < length items.now }
    requires needed { (s : ℕ) → Contains needed.now.items s ↔ IsNeeded steps.now finals.now s }
    requires producers { (s : ℕ) → Contains producers.now s ↔ IsEffectiveProducer steps.now s t }
    ensures { IsTrue result ↔ Lacks steps.now items.now finals.now t }
{
    if must_be_produced(items, t) {
        !any_needed(producers, needed)
    } else {
        false
    }
}

/// Which items have to be produced and aren't.
pub fn lacking_items(
    alloc: Global,
    steps: &[StepDecl],
    items: &[ItemDecl],
    finals: &[u32],
    needed: &Marks,
    producers: &[Seq<u32>],
) -> Result<Seq<bool>, Memory>
    requires needed { (s : ℕ) → Contains needed.now.items s ↔ IsNeeded steps.now finals.now s }
    requires producers { (t s : ℕ) → Contains (row producers.now t) s ↔ IsEffectiveProducer steps.now s t }
    requires width { length producers.now ≡ length items.now }
    ensures width { IfOk result (λ lacking. length lacking ≡ length items.now) }
    ensures lacking { IfOk result (λ lacking. (t : ℕ) → (slice_index_or lacking t false ≡ true) ↔ Lacks steps.now items.now finals.now t) }
{
    let mut lacking = Seq::new(alloc);
    for t in 0..items.len() {
        lacking.push(is_lacking(steps, items, finals, needed, producers[t].as_slice(), t))?;
    }
    Ok(lacking)
}

pub fn missing_final(
    steps: &[StepDecl],
    items: &[ItemDecl],
    finals: &[u32],
    lacking: &[bool],
) -> Option<u32>
    requires finals { (t : ℕ) → Contains finals.now t → t < length lacking.now }
    requires lacking { (t : ℕ) → (slice_index_or lacking.now t false ≡ true) ↔ Lacks steps.now items.now finals.now t }
    ensures found { IfSome result (IsMissingFinal steps.now items.now finals.now) }
    ensures none { IfNone result (NoFinalBefore steps.now items.now finals.now (length finals.now)) }
{
    for t in finals {
        if lacking[*t as usize] {
            return Some(*t);
        }
    }
    None
}

/// The first place of a consumption that isn't optional and whose item is lacking.
fn first_lacking(consumes: &[Consume], lacking: &[bool]) -> Option<u32>
    requires { (c : Consume) → Contains consumes.now c → c.item < length lacking.now }
    ensures found { IfSome result (λ t. (k : ℕ) × IsLackingAt consumes.now lacking.now k t × NoLackBefore consumes.now lacking.now k) }
    ensures none { IfNone result (NoLackBefore consumes.now lacking.now (length consumes.now)) }
{
    for c in consumes {
        if !c.optional {
            if lacking[c.item as usize] {
                return Some(c.item);
            }
        }
    }
    None
}

pub fn missing_consumed(
    steps: &[StepDecl],
    items: &[ItemDecl],
    finals: &[u32],
    needed: &Marks,
    lacking: &[bool],
) -> Option<Wanted>
    requires few { length steps.now < 2 ^ 32 }
    requires below { AreConsumedBelow steps.now (length lacking.now) }
    requires needed { (s : ℕ) → Contains needed.now.items s ↔ IsNeeded steps.now finals.now s }
    requires limit { needed.now.limit ≡ length steps.now }
    requires lacking { (t : ℕ) → (slice_index_or lacking.now t false ≡ true) ↔ Lacks steps.now items.now finals.now t }
    requires finals_found { NoFinalBefore steps.now items.now finals.now (length finals.now) }
    ensures found { IfSome result (λ w. IsMissingConsumed steps.now items.now finals.now w.item w.consumer) }
    ensures none { IfNone result (NoWantBefore steps.now items.now finals.now (length steps.now)) }
{
    for s in 0..steps.len() {
        if needed.contains(s as u32) {
            match first_lacking(steps[s].consumes.as_slice(), lacking) {
                Some(item) => {
                    return Some(Wanted {
                        item,
                        consumer: s as u32,
                    });
                }
                None => {}
            }
        }
    }
    None
}
