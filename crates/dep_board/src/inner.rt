//! The board and its passes with all that is in them. Callers see what [`crate::Board`] and
//! [`crate::Pass`] show.
ghost use Rattle.std.specs.Prelude.{◌≡◌, ◌≢◌, ℕ, ◌+◌, ◌-◌, ◌<◌, ◌≤◌, ◌↔◌, [], ◌∷◌, ◌++◌, length, slice_index_or, IfOk, IfSome, IfNone, OnErr};
ghost use Rattle.std.specs.Vec.{vec_capacity};
ghost use Rattle.std.specs.List.Sorted.{IsStrictlyIncreasing};
ghost use Rattle.dep_board.specs.Counts.{times, last_of, IsPart};
ghost use Rattle.dep_board.specs.Edges.{AreRows, edges_of, producers, dependents};
ghost use Rattle.dep_board.specs.Rule.{down_in, all_parts, handed_on};
ghost use Rattle.dep_board.specs.Steps.{IsSound};
ghost use Rattle.dep_board.specs.Passes.{IsSettled, IsReleased, HasAllProducers, open_edges};

use crate::opening::opening_words;
use crate::rule::{Claim, CountDown, HandOn, Look, Rows, Rule, TakeIn};
use crate::view::SeatView;
use atomic_table::{Seat, Table};
use item_types::{Memory, Seq};
use std::alloc::Global;

/// The words of a plan, and its rows.
#[derive(Drop)]
pub(crate) struct InnerBoard {
    pub(crate) table: Table<(), SeatView, Rows, Rule, Global>,
    pub(crate) rows: Rows,
    ghost sized: { table.shared.table_id.words ≡ 1 + length rows + length rows },
    ghost planned: { table.shared.key ≡ rows },
    ghost ordered: { AreRows rows },
}

/// A seat at the board, and how many parts it has.
#[derive(Drop)]
pub(crate) struct InnerPass {
    pub(crate) seat: Seat<(), SeatView>,
    pub(crate) parts: u64,
    ghost plain: { seat.me.1 ≡ [] },
    ghost counted: { parts ≡ seat.me.0.parts },
    ghost some_part: { 0 < parts },
    ghost settled: { IsSettled seat.me.0 },
    ghost sound: { IsSound seat.me.0 },
}

impl InnerPass {
    #[tactic(auto, using(crate::proofs::Passing::told_all, crate::proofs::Passing::told_only))]
    pub(crate) fn promise(&self)
        ensures parts { self.now.parts ≤ all_parts }
        ensures ended { (p : ℕ) → times p self.now.seat.me.0.ended ≤ 1 }
        ensures once { (t : ℕ) → times t self.now.seat.me.0.told ≤ 1 }
        ensures told { (t : ℕ) → 0 < length (producers t self.now.seat.me.0.edges) → HasAllProducers t self.now.seat.me.0.edges self.now.seat.me.0.ended → 0 < times t self.now.seat.me.0.told }
        ensures only { (t : ℕ) → self.now.parts ≡ all_parts → 0 < times t self.now.seat.me.0.told → HasAllProducers t self.now.seat.me.0.edges self.now.seat.me.0.ended }
    {}
}

impl InnerBoard {
    /// The board of the rows, and its first pass.
    pub fn new(alloc: Global, rows: Rows) -> Result<(InnerBoard, InnerPass), Memory>
        requires { AreRows rows }
        ensures rows { IfOk result (λ r. r.0.rows ≡ rows) }
        ensures fits { IfOk result (λ r. (r.1.seat.table_id ≡ r.0.table.shared.table_id) × (r.1.seat.me.0.steps ≡ length rows) × (r.1.seat.me.0.edges ≡ edges_of rows)) }
        ensures parts { IfOk result (λ r. r.1.parts ≡ all_parts) }
        ensures lists { IfOk result (λ r. (r.1.seat.me.0.ended ≡ []) × (r.1.seat.me.0.told ≡ []) × (r.1.seat.me.0.late ≡ [])) }
    {
        let words = opening_words(alloc, rows.as_slice())?;
        let opening = words.as_slice();
        let (table, seat) = Table::of_words(alloc, opening, &rows)?;
        let parts = 1 << 63;
        Ok((InnerBoard { table, rows }, InnerPass { seat, parts }))
    }

    /// A new pass with some of the parts. The old one keeps its lists.
    pub fn split(&self, pass: &mut InnerPass) -> Result<InnerPass, Memory>
        requires fits { (pass.old.seat.table_id ≡ self.now.table.shared.table_id) × (pass.old.seat.me.0.steps ≡ length self.now.rows) × (pass.old.seat.me.0.edges ≡ edges_of self.now.rows) }
        ensures full { OnErr result ((pass.new ≡ pass.old) × (pass.old.parts ≡ 1)) }
        ensures more { IfOk result (λ _. 1 < pass.old.parts) }
        ensures left { IfOk result (λ _. pass.new.parts ≡ pass.old.parts - handed_on pass.old.parts) }
        ensures old { (pass.new.seat.table_id ≡ pass.old.seat.table_id) × (pass.new.seat.me.0.steps ≡ pass.old.seat.me.0.steps) × (pass.new.seat.me.0.edges ≡ pass.old.seat.me.0.edges) }
        ensures old_lists { (pass.new.seat.me.0.ended ≡ pass.old.seat.me.0.ended) × (pass.new.seat.me.0.told ≡ pass.old.seat.me.0.told) × (pass.new.seat.me.0.late ≡ pass.old.seat.me.0.late) }
        ensures parts { IfOk result (λ r. r.parts ≡ handed_on pass.old.parts) }
        ensures fits { IfOk result (λ r. (r.seat.table_id ≡ pass.old.seat.table_id) × (r.seat.me.0.steps ≡ pass.old.seat.me.0.steps) × (r.seat.me.0.edges ≡ pass.old.seat.me.0.edges)) }
        ensures lists { IfOk result (λ r. (r.seat.me.0.ended ≡ []) × (r.seat.me.0.told ≡ []) × (r.seat.me.0.late ≡ [])) }
    {
        if pass.parts < 2 {
            return Err(Memory);
        }
        let parts = (pass.parts + 62) / 64;
        let seat = self.table.shared.split_seat::<HandOn>(&mut pass.seat);
        pass.parts -= parts;
        Ok(InnerPass { seat, parts })
    }

    /// `into` has its lists, followed by those of `from`, and the parts of both.
    pub fn join(&self, into: &mut InnerPass, from: InnerPass)
        requires into { (into.old.seat.table_id ≡ self.now.table.shared.table_id) × (into.old.seat.me.0.steps ≡ length self.now.rows) × (into.old.seat.me.0.edges ≡ edges_of self.now.rows) }
        requires from { (from.seat.table_id ≡ self.now.table.shared.table_id) × (from.seat.me.0.steps ≡ length self.now.rows) × (from.seat.me.0.edges ≡ edges_of self.now.rows) }
        ensures same { (into.new.seat.table_id ≡ into.old.seat.table_id) × (into.new.seat.me.0.steps ≡ into.old.seat.me.0.steps) × (into.new.seat.me.0.edges ≡ into.old.seat.me.0.edges) }
        ensures parts { into.new.parts ≡ into.old.parts + from.parts }
        ensures ended { into.new.seat.me.0.ended ≡ into.old.seat.me.0.ended ++ from.seat.me.0.ended }
        ensures told { into.new.seat.me.0.told ≡ into.old.seat.me.0.told ++ from.seat.me.0.told }
        ensures late { into.new.seat.me.0.late ≡ into.old.seat.me.0.late ++ from.seat.me.0.late }
        ensures ended_apart { (p : ℕ) → times p into.old.seat.me.0.ended + times p from.seat.me.0.ended ≤ 1 }
        ensures told_apart { (s : ℕ) → times s into.old.seat.me.0.told + times s from.seat.me.0.told ≤ 1 }
    {
        let InnerPass { seat, parts } = from;
        self.table.shared.join_seat::<TakeIn>(&mut into.seat, seat);
        self.table.shared.load::<Look>(&mut into.seat, 0);
        into.parts += parts;
    }

    /// How many edges into a step aren't counted down.
    pub fn remaining(&self, pass: &mut InnerPass, step: u32) -> u32
        requires range { step < length self.now.rows }
        requires fits { (pass.old.seat.table_id ≡ self.now.table.shared.table_id) × (pass.old.seat.me.0.steps ≡ length self.now.rows) × (pass.old.seat.me.0.edges ≡ edges_of self.now.rows) }
        ensures same { (pass.new.seat.table_id ≡ pass.old.seat.table_id) × (pass.new.seat.me ≡ pass.old.seat.me) × (pass.new.parts ≡ pass.old.parts) }
        ensures told { 0 < times step pass.old.seat.me.0.told → result ≡ 0 }
        ensures whole { pass.old.parts ≡ all_parts → result ≡ open_edges step (edges_of self.now.rows) pass.old.seat.me.0.ended }
        ensures most { result ≤ open_edges step (edges_of self.now.rows) pass.old.seat.me.0.ended }
    {
        let word = 1 + step as usize;
        self.table.shared.load::<Look>(&mut pass.seat, word) as u32
    }

    /// Claims a step, and where no pass had claimed it, counts down the edges out of it.
    pub fn ended(
        &self,
        alloc: Global,
        pass: &mut InnerPass,
        step: u32,
    ) -> Result<Option<Seq<u32>>, Memory>
        requires range { step < length self.now.rows }
        requires fits { (pass.old.seat.table_id ≡ self.now.table.shared.table_id) × (pass.old.seat.me.0.steps ≡ length self.now.rows) × (pass.old.seat.me.0.edges ≡ edges_of self.now.rows) }
        ensures same { (pass.new.seat.table_id ≡ pass.old.seat.table_id) × (pass.new.seat.me.0.steps ≡ pass.old.seat.me.0.steps) × (pass.new.seat.me.0.edges ≡ pass.old.seat.me.0.edges) }
        ensures parts { pass.new.parts ≡ pass.old.parts }
        ensures memory { OnErr result (pass.new ≡ pass.old) }
        ensures ended { IfOk result (λ o. IfSome o (λ l. pass.new.seat.me.0.ended ≡ pass.old.seat.me.0.ended ++ step ∷ [])) }
        ensures told { IfOk result (λ o. IfSome o (λ l. pass.new.seat.me.0.told ≡ pass.old.seat.me.0.told ++ l)) }
        ensures part { IfOk result (λ o. IfSome o (λ l. IsPart l (dependents step (edges_of self.now.rows)))) }
        ensures ascending { IfOk result (λ o. IfSome o IsStrictlyIncreasing) }
        ensures fresh { IfOk result (λ o. IfSome o (λ l. (times step pass.old.seat.me.0.ended ≡ 0) × (pass.new.seat.me.0.late ≡ pass.old.seat.me.0.late))) }
        ensures exact { IfOk result (λ o. IfSome o (λ l. pass.old.parts ≡ all_parts → (s : ℕ) → (0 < times s l) ↔ IsReleased step s (edges_of self.now.rows) (pass.old.seat.me.0.ended ++ step ∷ []))) }
        ensures late { IfOk result (λ o. IfNone o ((pass.new.seat.me.0.late ≡ pass.old.seat.me.0.late ++ step ∷ []) × (pass.new.seat.me.0.ended ≡ pass.old.seat.me.0.ended) × (pass.new.seat.me.0.told ≡ pass.old.seat.me.0.told))) }
        ensures taken { IfOk result (λ o. IfNone o (pass.old.parts ≡ all_parts → 0 < times step pass.old.seat.me.0.ended)) }
    {
        let row = self.row_of(step);
        let mut told = Vec::with_capacity(alloc, row.len())?;
        let claim = 1 + self.rows.len() + step as usize;
        if self.table.shared.swap::<Claim>(&mut pass.seat, claim, 1) != 0 {
            return Ok(None);
        }
        self.count_down(&mut pass.seat, step, row, &mut told);
        self.table.shared.load::<Look>(&mut pass.seat, 0);
        Ok(Some(Seq::from_vec(told)))
    }

    /// The steps that wait for a step.
    fn row_of(&self, step: u32) -> &[u32]
        requires { step < length self.now.rows }
        ensures { result.now ≡ slice_index_or self.now.rows step result.now }
    {
        self.rows.as_slice()[step as usize].as_slice()
    }

    /// Counts down the edges out of the step that the seat ended last, to each step of its row.
    fn count_down(&self, seat: &mut Seat<(), SeatView>, step: u32, row: &[u32], told: &mut Vec<u32>)
        requires fits { seat.old.table_id ≡ self.now.table.shared.table_id }
        requires row { (step < length self.now.rows) × (row.now ≡ slice_index_or self.now.rows step row.now) }
        requires part { 0 < seat.old.me.0.parts }
        requires last { (last_of seat.old.me.0.ended ≡ step) × (0 < times step seat.old.me.0.ended) }
        requires fresh { (t : ℕ) → down_in step t seat.old.me.0 ≡ 0 }
        requires room { (told.old.items ≡ []) × (length row.now ≤ vec_capacity told.old) }
        ensures seat { (seat.new.table_id ≡ seat.old.table_id) × (seat.new.me.1 ≡ seat.old.me.1) }
        ensures parts { seat.new.me.0.parts ≡ seat.old.me.0.parts }
        ensures same { (seat.new.me.0.steps ≡ seat.old.me.0.steps) × (seat.new.me.0.edges ≡ seat.old.me.0.edges) × (seat.new.me.0.ended ≡ seat.old.me.0.ended) × (seat.new.me.0.late ≡ seat.old.me.0.late) }
        ensures told { seat.new.me.0.told ≡ seat.old.me.0.told ++ told.new.items }
        ensures part { IsPart told.new.items row.now }
        ensures downs { ((t : ℕ) → down_in step t seat.new.me.0 ≡ times t row.now) × ((p t : ℕ) → p ≢ step → down_in p t seat.new.me.0 ≡ down_in p t seat.old.me.0) }
    {
        for dependent in row {
            let count = 1 + *dependent as usize;
            let found = self.table.shared.fetch_sub::<CountDown>(seat, count, 1);
            if found == 1 {
                told.push_reserved(*dependent);
            }
        }
    }
}
