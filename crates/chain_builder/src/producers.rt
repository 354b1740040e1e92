ghost use Rattle.std.specs.Prelude.{◌≡◌, ℕ, ◌<◌, ◌⊎◌, true, false, length, vec_len, Contains, ◌↔◌, IfOk, slice_index_or};
ghost use Rattle.item_types.specs.declared.step.Produce.{Produce};
ghost use Rattle.chain_builder.specs.Rows.{row};
ghost use Rattle.chain_builder.specs.Consumption.{Consumes};
ghost use Rattle.chain_builder.specs.EffectiveProducer.{produced};
ghost use Rattle.chain_builder.specs.ProducerRows.{HasPlainIn, HasPlain, AreProducedBelow, counts_as, AreItemsOf, ProducesAs};

use item_types::{Consume, Memory, Produce, Seq, StepDecl};
use std::alloc::Global;

/// Which items some active step produces without `overridable`.
pub fn plain_items(alloc: Global, steps: &[StepDecl], width: usize) -> Result<Vec<bool>, Memory>
    requires { AreProducedBelow steps.now width }
    ensures width { IfOk result (λ plain. vec_len plain ≡ width) }
    ensures plain { IfOk result (λ plain. (t : ℕ) → (slice_index_or plain.items t false ≡ true) ↔ HasPlain steps.now t) }
{
    let mut plain = vec![in alloc; false; width]?;
    for step in steps {
        mark_plain(&mut plain, produced_by(step));
    }
    Ok(plain)
}

/// What each step effectively produces, or only what it doesn't produce weakly.
pub fn effective_rows(
    alloc: Global,
    steps: &[StepDecl],
    plain: &[bool],
    strong: bool,
) -> Result<Seq<Seq<u32>>, Memory>
    requires below { AreProducedBelow steps.now (length plain.now) }
    requires plain { (t : ℕ) → (slice_index_or plain.now t false ≡ true) ↔ HasPlain steps.now t }
    ensures count { IfOk result (λ rows. length rows ≡ length steps.now) }
    ensures rows { IfOk result (λ rows. (s t : ℕ) → Contains (row rows s) t ↔ ProducesAs strong steps.now s t) }
{
    let mut rows = Seq::new(alloc);
    for step in steps {
        rows.push(effective_items(alloc, produced_by(step), plain, strong)?)?;
    }
    Ok(rows)
}

/// What each step consumes.
pub fn consumed_rows(alloc: Global, steps: &[StepDecl]) -> Result<Seq<Seq<u32>>, Memory>
    ensures count { IfOk result (λ rows. length rows ≡ length steps.now) }
    ensures rows { IfOk result (λ rows. (s t : ℕ) → Contains (row rows s) t ↔ Consumes steps.now s t) }
{
    let mut rows = Seq::new(alloc);
    for step in steps {
        rows.push(consumed_items(alloc, step.consumes.as_slice())?)?;
    }
    Ok(rows)
}

/// What a step produces; nothing where it isn't active.
fn produced_by(step: &StepDecl) -> &[Produce]
    ensures { result.now ≡ produced step.now }
{
    if step.active {
        step.produces.as_slice()
    } else {
        &[]
    }
}

/// Marks the items that are produced without `overridable`.
fn mark_plain(plain: &mut Vec<bool>, produces: &[Produce])
    requires { (p : Produce) → Contains produces.now p → p.item < vec_len plain.old }
    ensures width { vec_len plain.new ≡ vec_len plain.old }
    ensures marks { (t : ℕ) → (slice_index_or plain.new.items t false ≡ true) ↔ ((slice_index_or plain.old.items t false ≡ true) ⊎ HasPlainIn produces.now t) }
{
    for p in produces {
        if !p.overridable {
            plain[p.item as usize] = true;
        }
    }
}

/// The items of the productions that count.
fn effective_items(
    alloc: Global,
    produces: &[Produce],
    plain: &[bool],
    strong: bool,
) -> Result<Seq<u32>, Memory>
    requires { (p : Produce) → Contains produces.now p → p.item < length plain.now }
    ensures { IfOk result (λ items. AreItemsOf (λ p. p.item) (counts_as plain.now strong) produces.now items) }
{
    let mut items = Seq::new(alloc);
    for p in produces {
        if counts(p, plain, strong) {
            items.push(p.item)?;
        }
    }
    Ok(items)
}

fn counts(p: &Produce, plain: &[bool], strong: bool) -> bool
    requires { p.now.item < length plain.now }
    ensures { result ≡ counts_as plain.now strong p.now }
{
    if p.overridable && plain[p.item as usize] {
        return false;
    }
    if strong { !p.weak } else { true }
}

fn consumed_items(alloc: Global, consumes: &[Consume]) -> Result<Seq<u32>, Memory>
    ensures { IfOk result (λ items. AreItemsOf (λ c. c.item) (λ _. true) consumes.now items) }
{
    let mut items = Seq::new(alloc);
    for c in consumes {
        items.push(c.item)?;
    }
    Ok(items)
}
