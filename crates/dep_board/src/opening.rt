ghost use Rattle.std.specs.Prelude.{◌≡◌, ℕ, ◌+◌, ◌<◌, ◌^◌, length, slice_index, IfOk};
ghost use Rattle.std.specs.List.{All};
ghost use Rattle.dep_board.specs.Counts.{times};
ghost use Rattle.dep_board.specs.Edges.{AreRows, edges_of};
ghost use Rattle.dep_board.specs.Passes.{AreOpening};

use item_types::{Memory, Seq};
use std::alloc::Global;

/// The words of a board before its first step, by the rows of its plan.
pub(crate) fn opening_words(alloc: Global, rows: &[Seq<u32>]) -> Result<Vec<u64>, Memory>
    requires { AreRows rows.now }
    ensures { IfOk result (λ w. AreOpening (length rows.now) (edges_of rows.now) w.items) }
{
    let mut words = vec![in alloc; 0; 1 + 2 * rows.len()]?;
    for row in rows {
        count_edges(&mut words, row.as_slice());
    }
    Ok(words)
}

/// Counts an edge to each step of a row.
fn count_edges(words: &mut Vec<u64>, row: &[u32])
    requires inside { All (λ s. 1 + s < length words.old.items) row.now }
    requires few { (s : ℕ) → 1 + s < length words.old.items → slice_index words.old.items (1 + s) + times s row.now < 2 ^ 64 }
    ensures wide { length words.new.items ≡ length words.old.items }
    ensures counts { (s : ℕ) → 1 + s < length words.old.items → slice_index words.new.items (1 + s) ≡ slice_index words.old.items (1 + s) + times s row.now }
{
    for step in row {
        words[1 + *step as usize] += 1;
    }
}
