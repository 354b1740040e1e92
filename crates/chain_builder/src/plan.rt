ghost use Rattle.std.specs.Prelude.{◌≡◌, ℕ, ◌<◌, length, Contains, ◌↔◌, IsTrue};
ghost use Rattle.std.specs.List.Sorted.{IsStrictlyIncreasing};
ghost use Rattle.item_types.specs.Numbered.{IsNumbered};
ghost use Rattle.chain_builder.specs.Rows.{row};
ghost use Rattle.chain_builder.specs.EffectiveProducer.{IsEffectiveProducer};
ghost use Rattle.chain_builder.specs.Needed.{IsNeeded};
ghost use Rattle.chain_builder.specs.Edge.{HasEdge};
ghost use Rattle.chain_builder.specs.Accepted.{IsAccepted};
ghost use Rattle.chain_builder.specs.Rank.{HasRank};

use crate::tables::Tables;
use item_types::{ItemDecl, Seq, StepDecl};
use std::marker::Model;

/// An accepted chain: its declarations, its needed steps and its edges. Contracts see the
/// declarations, which determine the rest.
#[derive(Drop)]
pub struct Plan {
    pub(crate) steps: Seq<StepDecl>,
    pub(crate) items: Seq<ItemDecl>,
    pub(crate) finals: Seq<u32>,
    pub(crate) tables: Tables,
}

impl Model for Plan {
    ghost use Rattle.item_types.specs.Numbered.{IsNumbered};
    ghost use Rattle.chain_builder.specs.PlanView.{PlanView};
    ghost use Rattle.chain_builder.specs.Tables.{AreTables};
    ghost use Rattle.chain_builder.specs.Accepted.{IsAccepted};
    ghost use Rattle.chain_builder.specs.Rank.{HasRank};

    ghost Value = { PlanView };

    ghost view = { λ p. record { steps = p.steps; items = p.items; finals = p.finals } };

    ghost invariant = { λ p. AreTables p.steps p.items p.finals p.tables × IsAccepted p.steps p.items p.finals × HasRank p.steps p.finals × IsNumbered p.steps p.items p.finals };
}

impl Plan {
    /// The steps, as they were handed in. It takes no memory.
    pub fn steps(&self) -> &Seq<StepDecl>
        ensures { result.now ≡ self.now.steps }
    {
        &self.steps
    }

    /// The items, as they were handed in. It takes no memory.
    pub fn items(&self) -> &Seq<ItemDecl>
        ensures { result.now ≡ self.now.items }
    {
        &self.items
    }

    /// The final items, as they were handed in. It takes no memory.
    pub fn finals(&self) -> &Seq<u32>
        ensures { result.now ≡ self.now.finals }
    {
        &self.finals
    }

    /// Whether the step is needed. It takes no memory.
    pub fn needed(&self, step: u32) -> bool
        ensures { IsTrue result ↔ IsNeeded self.now.steps self.now.finals step }
    {
        self.tables.needed.contains(step)
    }

    /// Whether the step effectively produces the item. It takes no memory.
    pub fn effective(&self, step: u32, item: u32) -> bool
        ensures { IsTrue result ↔ IsEffectiveProducer self.now.steps step item }
    {
        row_has(self.tables.effective.as_slice(), step, item)
    }

    /// The steps with an edge to this one, each once and in ascending order. It takes no memory.
    pub fn edges_into(&self, step: u32) -> &Seq<u32>
        requires { step < length self.now.steps }
        ensures edges { (p : ℕ) → Contains result.now p ↔ HasEdge self.now.steps self.now.finals p step }
        ensures ascending { IsStrictlyIncreasing result.now }
    {
        &self.tables.into.as_slice()[step as usize]
    }

    /// The steps that this one has an edge to, each once and in ascending order. It takes no memory.
    pub fn dependents(&self, step: u32) -> &Seq<u32>
        requires { step < length self.now.steps }
        ensures edges { (s : ℕ) → Contains result.now s ↔ HasEdge self.now.steps self.now.finals step s }
        ensures ascending { IsStrictlyIncreasing result.now }
    {
        &self.tables.dependents.as_slice()[step as usize]
    }

    /// A law: every plan is of an accepted chain, whose numbers are in range and whose steps can be
    /// ranked so that each edge goes up. It does nothing.
    pub fn accepted(&self)
        ensures accepted { IsAccepted self.now.steps self.now.items self.now.finals }
        ensures ranked { HasRank self.now.steps self.now.finals }
        ensures numbered { IsNumbered self.now.steps self.now.items self.now.finals }
    {
        let _ = &self.steps;
    }
}

/// Whether a row has a number.
fn row_has(rows: &[Seq<u32>], a: u32, x: u32) -> bool
    ensures { IsTrue result ↔ Contains (row rows.now a) x }
{
    let at = a as usize;
    if at < rows.len() {
        rows[at].as_slice().contains(&x)
    } else {
        false
    }
}
