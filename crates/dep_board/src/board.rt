use crate::inner::{InnerBoard, InnerPass};
use crate::rows::rows_of;
use chain_builder::Plan;
use item_types::{Memory, Seq};
use std::alloc::Global;
use std::marker::Model;

/// The counts of a plan and the claims of its steps, in words that threads change at once.
///
/// Contracts see which board it is, the number of steps of its plan and the list of its edges.
#[derive(Drop)]
pub struct Board {
    inner: InnerBoard,
}

/// What one worker did at the board.
///
/// Contracts see the board that it is of and three lists of steps: those that it ended, those of
/// which it was told that they wait for nothing more, and those that it found ended already. They
/// see its parts too: the pass of [`Board::new`] has all parts of the board, a split hands some on,
/// and a join adds them. So a pass that has all parts knows that no other one is left, and what it
/// finds is exact.
#[derive(Drop)]
pub struct Pass {
    inner: InnerPass,
}

impl Model for Board {
    ghost use Rattle.dep_board.specs.Views.{BoardView};

    ghost Value = { BoardView };

    ghost use Rattle.dep_board.specs.Shown.{board_view};

    ghost view = { board_view };
}

impl Model for Pass {
    ghost use Rattle.dep_board.specs.Views.{PassView};

    ghost Value = { PassView };

    ghost use Rattle.dep_board.specs.Shown.{pass_view};

    ghost view = { pass_view };
}

impl Pass {
    ghost use Rattle.std.specs.Prelude.{◌≡◌, ℕ, ◌<◌, ◌≤◌, length};
    ghost use Rattle.dep_board.specs.Counts.{times};
    ghost use Rattle.dep_board.specs.Edges.{producers};
    ghost use Rattle.dep_board.specs.Passes.{HasAllProducers};
    ghost use Rattle.dep_board.specs.Rule.{all_parts};

    /// A law: what holds of every pass between two calls, after a join too. It does nothing.
    pub fn promise(&self)
        ensures parts { self.now.parts ≤ all_parts }
        ensures ended_once { (p : ℕ) → times p self.now.ended ≤ 1 }
        ensures told_once { (s : ℕ) → times s self.now.told ≤ 1 }
        ensures told { (s : ℕ) → 0 < length (producers s self.now.of.edges) → HasAllProducers s self.now.of.edges self.now.ended → 0 < times s self.now.told }
        ensures told_only { (s : ℕ) → self.now.parts ≡ all_parts → 0 < times s self.now.told → HasAllProducers s self.now.of.edges self.now.ended }
    {
        self.inner.promise()
    }
}

impl Board {
    ghost use Rattle.std.specs.Prelude.{◌≡◌, ℕ, ◌+◌, ◌-◌, ◌<◌, ◌≤◌, ◌↔◌, [], ◌∷◌, ◌++◌, length, Contains, IfOk, OnErr, IfSome, IfNone};
    ghost use Rattle.chain_builder.specs.Edge.{HasEdge};
    ghost use Rattle.std.specs.List.Sorted.{IsStrictlyIncreasing};
    ghost use Rattle.dep_board.specs.Counts.{times, IsPart};
    ghost use Rattle.dep_board.specs.Edges.{dependents};
    ghost use Rattle.dep_board.specs.Passes.{IsReleased, open_edges};
    ghost use Rattle.dep_board.specs.Rule.{all_parts, handed_on};
    ghost use Rattle.dep_board.specs.Views.{with_lists, with_parts};

    /// The board of a plan, and its opening pass, which has all parts and empty lists. The board's
    /// plan is the number of steps, and the list of the edges, each once.
    ///
    /// # Errors
    /// `Memory` for want of memory.
    pub fn new(alloc: Global, plan: &Plan) -> Result<(Board, Pass), Memory>
        ensures steps { IfOk result (λ r. r.0.steps ≡ length plan.now.steps) }
        ensures edges { IfOk result (λ r. (p s : ℕ) → Contains r.0.edges (p, s) ↔ HasEdge plan.now.steps plan.now.finals p s) }
        ensures ascending { IfOk result (λ r. (p : ℕ) → IsStrictlyIncreasing (dependents p r.0.edges)) }
        ensures pass { IfOk result (λ r. r.1 ≡ record { of = r.0; parts = all_parts; ended = []; told = []; late = [] }) }
    {
        let rows = rows_of(alloc, plan)?;
        let (board, pass) = InnerBoard::new(alloc, rows)?;
        Ok((Board { inner: board }, Pass { inner: pass }))
    }

    /// A new pass with empty lists, which carries the same plan. The old one keeps its lists. The new
    /// one gets a sixty-fourth of its parts, so a board can be split thousands of times. It takes no
    /// memory.
    ///
    /// # Errors
    /// `Memory` exactly where the pass has one part only; it is left as it was.
    pub fn split(&self, pass: &mut Pass) -> Result<Pass, Memory>
        requires fits { pass.old.of ≡ self.now }
        ensures full { OnErr result ((pass.new ≡ pass.old) × (pass.old.parts ≡ 1)) }
        ensures more { IfOk result (λ _. 1 < pass.old.parts) }
        ensures old { IfOk result (λ _. pass.new ≡ with_parts pass.old (pass.old.parts - handed_on pass.old.parts)) }
        ensures new { IfOk result (λ r. r ≡ with_parts (with_lists pass.old [] [] []) (handed_on pass.old.parts)) }
    {
        let inner = self.inner.split(&mut pass.inner)?;
        Ok(Pass { inner })
    }

    /// `into` has its lists, followed by those of `from`, and the parts of both. No step was ended by
    /// both, and none was told to both. It takes no memory.
    pub fn join(&self, into: &mut Pass, from: Pass)
        requires into { into.old.of ≡ self.now }
        requires from { from.of ≡ self.now }
        ensures lists { into.new ≡ with_parts (with_lists into.old (into.old.ended ++ from.ended) (into.old.told ++ from.told) (into.old.late ++ from.late)) (into.old.parts + from.parts) }
        ensures ended_apart { (p : ℕ) → times p into.old.ended + times p from.ended ≤ 1 }
        ensures told_apart { (s : ℕ) → times s into.old.told + times s from.told ≤ 1 }
    {
        let Pass { inner } = from;
        self.inner.join(&mut into.inner, inner);
    }

    /// How many edges into a step aren't counted down. On a pass that has all parts this is the
    /// number of edges into it from steps that it hasn't ended. It takes no memory.
    pub fn remaining(&self, pass: &mut Pass, step: u32) -> u32
        requires range { step < self.now.steps }
        requires fits { pass.old.of ≡ self.now }
        ensures same { pass.new ≡ pass.old }
        ensures told { 0 < times step pass.old.told → result ≡ 0 }
        ensures most { result ≤ open_edges step self.now.edges pass.old.ended }
        ensures whole { pass.old.parts ≡ all_parts → result ≡ open_edges step self.now.edges pass.old.ended }
    {
        self.inner.remaining(&mut pass.inner, step)
    }

    /// Claims a step, and where no pass had claimed it, counts down the edges out of it. The answer
    /// is the steps whose count this call found to reach 0, in ascending order, and `None` where the
    /// claim was taken. It takes time in the step's dependents.
    ///
    /// # Errors
    /// `Memory` for want of memory: all is as it was.
    pub fn ended(
        &self,
        alloc: Global,
        pass: &mut Pass,
        step: u32,
    ) -> Result<Option<Seq<u32>>, Memory>
        requires range { step < self.now.steps }
        requires fits { pass.old.of ≡ self.now }
        ensures memory { OnErr result (pass.new ≡ pass.old) }
        ensures some { IfOk result (λ o. IfSome o (λ l. pass.new ≡ with_lists pass.old (pass.old.ended ++ step ∷ []) (pass.old.told ++ l) pass.old.late)) }
        ensures part { IfOk result (λ o. IfSome o (λ l. IsPart l (dependents step self.now.edges))) }
        ensures ascending { IfOk result (λ o. IfSome o IsStrictlyIncreasing) }
        ensures fresh { IfOk result (λ o. IfSome o (λ l. times step pass.old.ended ≡ 0)) }
        ensures exact { IfOk result (λ o. IfSome o (λ l. pass.old.parts ≡ all_parts → (s : ℕ) → (0 < times s l) ↔ IsReleased step s self.now.edges (pass.old.ended ++ step ∷ []))) }
        ensures none { IfOk result (λ o. IfNone o (pass.new ≡ with_lists pass.old pass.old.ended pass.old.told (pass.old.late ++ step ∷ []))) }
        ensures taken { IfOk result (λ o. IfNone o (pass.old.parts ≡ all_parts → 0 < times step pass.old.ended)) }
    {
        self.inner.ended(alloc, &mut pass.inner, step)
    }
}
