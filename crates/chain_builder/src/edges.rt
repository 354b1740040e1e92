ghost use Rattle.std.specs.Prelude.{◌≡◌, ℕ, ◌<◌, ◌^◌, length, Contains, ◌↔◌, IfOk, IsTrue};
ghost use Rattle.chain_builder.specs.Rows.{row, AreBelow, AreAscending};
ghost use Rattle.chain_builder.specs.Consumption.{Consumes};
ghost use Rattle.chain_builder.specs.EffectiveProducer.{IsEffectiveProducer};
ghost use Rattle.chain_builder.specs.Needed.{IsNeeded};
ghost use Rattle.chain_builder.specs.Edge.{HasEdge};

use crate::marks::Marks;
use crate::rows::{joined, transposed};
use item_types::{Memory, Same, Seq, StepDecl};
use std::alloc::Global;

/// For each step the steps that it has an edge to, in order.
pub fn dependents(
    alloc: Global,
    steps: &[StepDecl],
    finals: &[u32],
    needed: &Marks,
    consumed: &[Seq<u32>],
    effective: &[Seq<u32>],
    width: usize,
) -> Result<Seq<Seq<u32>>, Memory>
    requires few { length steps.now < 2 ^ 32 }
    requires needed { (s : ℕ) → Contains needed.now.items s ↔ IsNeeded steps.now finals.now s }
    requires consumed { (s t : ℕ) → Contains (row consumed.now s) t ↔ Consumes steps.now s t }
    requires effective { (s t : ℕ) → Contains (row effective.now s) t ↔ IsEffectiveProducer steps.now s t }
    requires consumed_count { length consumed.now ≡ length steps.now }
    requires effective_count { length effective.now ≡ length steps.now }
    requires consumed_below { AreBelow consumed.now width }
    requires effective_below { AreBelow effective.now width }
    ensures count { IfOk result (λ rows. length rows ≡ length steps.now) }
    ensures edges { IfOk result (λ rows. (p s : ℕ) → Contains (row rows p) s ↔ HasEdge steps.now finals.now p s) }
    ensures ascending { IfOk result (λ rows. AreAscending rows) }
{
    let wanted = marked_rows(alloc, consumed, needed)?;
    let made = marked_rows(alloc, effective, needed)?;
    let producers = transposed(alloc, made.as_slice(), width)?;
    let rows = joined(alloc, wanted.as_slice(), producers.as_slice(), steps.len())?;
    Ok(rows)
}

/// The rows of the marked numbers; the others are empty.
fn marked_rows(alloc: Global, rows: &[Seq<u32>], marks: &Marks) -> Result<Seq<Seq<u32>>, Memory>
    requires { length rows.now < 2 ^ 32 }
    ensures count { IfOk result (λ kept. length kept ≡ length rows.now) }
    ensures rows { IfOk result (λ kept. (a b : ℕ) → Contains (row kept a) b ↔ (Contains marks.now.items a × Contains (row rows.now a) b)) }
{
    let mut kept = Seq::new(alloc);
    for a in 0..rows.len() {
        kept.push(row_if(alloc, &rows[a], marks.contains(a as u32))?)?;
    }
    Ok(kept)
}

fn row_if(alloc: Global, row: &Seq<u32>, marked: bool) -> Result<Seq<u32>, Memory>
    ensures { IfOk result (λ kept. (b : ℕ) → Contains kept b ↔ (IsTrue marked × Contains row.now b)) }
{
    if marked {
        row.try_copy(alloc)
    } else {
        Ok(Seq::new(alloc))
    }
}
