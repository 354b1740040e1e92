ghost use Rattle.std.specs.Prelude.{◌≡◌, ℕ, ◌<◌, length, Contains, ◌↔◌, IfOk, OnOk};
ghost use Rattle.chain_builder.specs.Rows.{row, AreBelow};
ghost use Rattle.chain_builder.specs.Marks.{AddsAll};
ghost use Rattle.chain_builder.specs.Search.{Visits};
ghost use Rattle.chain_builder.specs.Consumption.{Consumes};
ghost use Rattle.chain_builder.specs.EffectiveProducer.{IsStrongProducer};
ghost use Rattle.chain_builder.specs.Needed.{IsNeeded};

use crate::marks::Marks;
use item_types::{Memory, Seq, StepDecl};
use std::alloc::Global;

/// The steps that are needed for the final items.
pub fn needed_steps(
    alloc: Global,
    steps: &[StepDecl],
    finals: &[u32],
    consumed: &[Seq<u32>],
    producers: &[Seq<u32>],
) -> Result<Marks, Memory>
    requires consumed { (s t : ℕ) → Contains (row consumed.now s) t ↔ Consumes steps.now s t }
    requires producers { (t s : ℕ) → Contains (row producers.now t) s ↔ IsStrongProducer steps.now s t }
    requires rows { length consumed.now ≡ length steps.now }
    requires items { AreBelow consumed.now (length producers.now) }
    requires finals { (t : ℕ) → Contains finals.now t → t < length producers.now }
    requires steps { AreBelow producers.now (length steps.now) }
    ensures limit { IfOk result (λ found. found.limit ≡ length steps.now) }
    ensures needed { IfOk result (λ found. (s : ℕ) → Contains found.items s ↔ IsNeeded steps.now finals.now s) }
{
    let mut found = Marks::new(alloc, steps.len())?;
    let mut wanted = Marks::new(alloc, producers.len())?;
    add_all(&mut wanted, finals)?;
    let mut at = 0;
    while at < wanted.len() {
        let t = wanted.get(at);
        visit_all(
            &mut found,
            &mut wanted,
            producers[t as usize].as_slice(),
            consumed,
        )?;
        at += 1;
    }
    Ok(found)
}

/// Finds the producers of an item, and wants what they consume.
fn visit_all(
    found: &mut Marks,
    wanted: &mut Marks,
    producers: &[u32],
    consumed: &[Seq<u32>],
) -> Result<(), Memory>
    requires steps { (s : ℕ) → Contains producers.now s → s < found.old.limit }
    requires rows { found.old.limit ≡ length consumed.now }
    requires items { AreBelow consumed.now wanted.old.limit }
    ensures { OnOk result (Visits found.old wanted.old producers.now consumed.now found.new wanted.new) }
{
    for s in producers {
        if !found.contains(*s) {
            found.add(*s)?;
            add_all(wanted, consumed[*s as usize].as_slice())?;
        }
    }
    Ok(())
}

fn add_all(marks: &mut Marks, list: &[u32]) -> Result<(), Memory>
    requires { (x : ℕ) → Contains list.now x → x < marks.old.limit }
    ensures { OnOk result (AddsAll marks.old list.now marks.new) }
{
    for x in list {
        marks.add(*x)?;
    }
    Ok(())
}
