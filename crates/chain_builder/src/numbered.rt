ghost use Rattle.std.specs.Prelude.{◌≡◌, ℕ, ◌<◌, ◌^◌, ◌↔◌, length, Contains, IsTrue};
ghost use Rattle.item_types.specs.declared.step.Consume.{Consume};
ghost use Rattle.item_types.specs.declared.step.Produce.{Produce};
ghost use Rattle.item_types.specs.declared.step.StepDecl.{StepDecl};
ghost use Rattle.item_types.specs.Numbered.{IsNumbered};
ghost use Rattle.chain_builder.specs.DeclaredItems.{AreDeclared};

use item_types::{Consume, ItemDecl, Produce, Seq, StepDecl};

/// Whether numbers of 32 bits count the steps and the items, and each item that is consumed,
/// produced or final is declared, as [`crate::build_chain`] requires. It takes no memory.
pub fn is_numbered(steps: &Seq<StepDecl>, items: &Seq<ItemDecl>, finals: &Seq<u32>) -> bool
    ensures { IsTrue result ↔ IsNumbered steps.now items.now finals.now }
{
    if !is_few(steps.len()) || !is_few(items.len()) {
        return false;
    }
    if !are_below(finals.as_slice(), items.len()) {
        return false;
    }
    are_declared(steps.as_slice(), items.len())
}

fn is_few(count: usize) -> bool
    ensures { IsTrue result ↔ (count < 2 ^ 32) }
{
    count <= u32::MAX as usize
}

fn are_below(list: &[u32], count: usize) -> bool
    ensures { IsTrue result ↔ ((t : ℕ) → Contains list.now t → t < count) }
{
    for t in list {
        if *t as usize >= count {
            return false;
        }
    }
    true
}

fn are_declared(steps: &[StepDecl], count: usize) -> bool
    ensures { IsTrue result ↔ ((d : StepDecl) → Contains steps.now d → AreDeclared d count) }
{
    for step in steps {
        if !is_declared(step, count) {
            return false;
        }
    }
    true
}

fn is_declared(step: &StepDecl, count: usize) -> bool
    ensures { IsTrue result ↔ AreDeclared step.now count }
{
    are_consumed_below(step.consumes.as_slice(), count)
        && are_produced_below(step.produces.as_slice(), count)
}

fn are_consumed_below(consumes: &[Consume], count: usize) -> bool
    ensures { IsTrue result ↔ ((c : Consume) → Contains consumes.now c → c.item < count) }
{
    for c in consumes {
        if c.item as usize >= count {
            return false;
        }
    }
    true
}

fn are_produced_below(produces: &[Produce], count: usize) -> bool
    ensures { IsTrue result ↔ ((p : Produce) → Contains produces.now p → p.item < count) }
{
    for p in produces {
        if p.item as usize >= count {
            return false;
        }
    }
    true
}
