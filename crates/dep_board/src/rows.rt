ghost use Rattle.std.specs.Prelude.{◌≡◌, ℕ, length, Contains, ◌↔◌, IfOk};
ghost use Rattle.chain_builder.specs.Edge.{HasEdge};
ghost use Rattle.dep_board.specs.Edges.{AreRows, dependents, edges_of};

use crate::rule::Rows;
use chain_builder::Plan;
use item_types::{Memory, Same, Seq};
use std::alloc::Global;

/// The rows of a plan: a copy of the dependents of each step.
pub(crate) fn rows_of(alloc: Global, plan: &Plan) -> Result<Rows, Memory>
    ensures count { IfOk result (λ rows. length rows ≡ length plan.now.steps) }
    ensures ordered { IfOk result AreRows }
    ensures edges { IfOk result (λ rows. (p s : ℕ) → Contains (dependents p (edges_of rows)) s ↔ HasEdge plan.now.steps plan.now.finals p s) }
{
    plan.accepted();
    let mut rows = Seq::new(alloc);
    for step in 0..plan.steps().len() {
        let row = plan.dependents(step as u32).try_copy(alloc)?;
        rows.push(row)?;
    }
    Ok(rows)
}
