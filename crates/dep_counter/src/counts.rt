ghost use Rattle.std.specs.Prelude.{◌≡◌, ◌==◌, ◌+◌, ◌-◌, ◌<◌, ◌≤◌, ℕ, List, [], ◌∷◌, ◌++◌, length, slice_index_or, Contains, IfOk, OnOk, OnErr, ◌↔◌, cond, vec_len, vec_capacity};
ghost use Rattle.std.specs.List.{filter};
ghost use Rattle.std.specs.List.Sorted.{IsStrictlyIncreasing};
ghost use Rattle.chain_builder.specs.Edge.{HasEdge};
ghost use Rattle.chain_builder.specs.PlanView.{PlanView};
ghost use Rattle.dep_counter.specs.Counting.{HowMany, Leads, IsOpen, AreCounts, IsReleasedBy, AreLowered};

use crate::steps::Steps;
use chain_builder::Plan;
use item_types::{Memory, Seq};
use std::alloc::Global;
use std::marker::{Brand, Model};
use std::sync::ledger::{Blank, Ledger};

/// For each step of a plan how many of its edge producers haven't ended. Contracts see the counts,
/// by the steps' numbers.
#[derive(Drop)]
pub struct Counts {
    counts: Vec<u32>,
}

impl Model for Counts {
    ghost use Rattle.std.specs.Prelude.{List, ℕ};

    ghost Value = { List ℕ };

    ghost view = { λ c. c.counts.items };
}

impl Counts {
    /// The counts of a plan of which no step has ended.
    ///
    /// # Errors
    /// `Memory` for want of memory.
    pub fn new(alloc: Global, plan: &Plan) -> Result<Counts, Memory>
        ensures { IfOk result (AreCounts plan.now []) }
    {
        let mut counts = Seq::new(alloc);
        plan.accepted();
        for step in 0..plan.steps().len() {
            counts.push(count_into(plan, step as u32)?)?;
        }
        Ok(Counts {
            counts: counts.into_vec(),
        })
    }

    /// How many edge producers of the step haven't ended. It takes no memory.
    pub fn remaining(&self, step: u32) -> u32
        requires { step < length self.now }
        ensures value { result ≡ slice_index_or self.now step 0 }
        ensures exact { (plan : PlanView) (list : List ℕ) → AreCounts plan list self.now → HowMany (IsOpen plan list step) result }
    {
        self.counts[step as usize]
    }

    /// Notes the end of a step: its dependents wait for one step less. It gives those that wait for
    /// none any more, in ascending order. It counts one step for itself and one for each dependent.
    ///
    /// # Errors
    /// `Memory` for want of memory: the counts are as before.
    pub fn ended<L: Ledger>(
        &mut self,
        alloc: Global,
        plan: &Plan,
        step: u32,
        steps: &mut Steps<L>,
    ) -> Result<Seq<u32>, Memory>
        requires { step < length plan.now.steps }
        ensures counts { OnOk result ((list : List ℕ) → AreCounts plan.now list self.old → (Contains list step → ⊥) → AreCounts plan.now (list ++ step ∷ []) self.new) }
        ensures told { IfOk result (λ told. (list : List ℕ) → AreCounts plan.now list self.old → (Contains list step → ⊥) → (s : ℕ) → Contains told s ↔ IsReleasedBy plan.now list step s) }
        ensures ascending { IfOk result IsStrictlyIncreasing }
        ensures cost { OnOk result ((n : ℕ) → HowMany (Leads plan.now step) n → steps.new ≡ steps.old + (1 + n)) }
        ensures err { OnErr result ((self.new ≡ self.old) × (steps.new ≡ steps.old)) }
    {
        let dependents = plan.dependents(step).as_slice();
        let mut told = Vec::with_capacity(alloc, dependents.len())?;
        steps.take();
        lower(&mut self.counts, dependents, &mut told, steps);
        Ok(Seq::from_vec(told))
    }

    /// The same for a caller that counts no steps.
    ///
    /// # Errors
    /// `Memory` for want of memory: the counts are as before.
    pub fn ended_uncounted(
        &mut self,
        alloc: Global,
        plan: &Plan,
        step: u32,
    ) -> Result<Seq<u32>, Memory>
        requires { step < length plan.now.steps }
        ensures counts { OnOk result ((list : List ℕ) → AreCounts plan.now list self.old → (Contains list step → ⊥) → AreCounts plan.now (list ++ step ∷ []) self.new) }
        ensures told { IfOk result (λ told. (list : List ℕ) → AreCounts plan.now list self.old → (Contains list step → ⊥) → (s : ℕ) → Contains told s ↔ IsReleasedBy plan.now list step s) }
        ensures ascending { IfOk result IsStrictlyIncreasing }
        ensures err { OnErr result (self.new ≡ self.old) }
    {
        self.ended_on::<Brand>(alloc, plan, step, Blank::new(1))
    }

    fn ended_on<L: Ledger>(
        &mut self,
        alloc: Global,
        plan: &Plan,
        step: u32,
        ledger: Blank,
    ) -> Result<Seq<u32>, Memory>
        requires range { step < length plan.now.steps }
        requires name { ledger.name ≡ L.name }
        requires parts { ledger.parts ≡ L.parts }
        requires some { 0 < L.parts }
        ensures counts { OnOk result ((list : List ℕ) → AreCounts plan.now list self.old → (Contains list step → ⊥) → AreCounts plan.now (list ++ step ∷ []) self.new) }
        ensures told { IfOk result (λ told. (list : List ℕ) → AreCounts plan.now list self.old → (Contains list step → ⊥) → (s : ℕ) → Contains told s ↔ IsReleasedBy plan.now list step s) }
        ensures ascending { IfOk result IsStrictlyIncreasing }
        ensures err { OnErr result (self.new ≡ self.old) }
    {
        let mut steps: Steps<L> = Steps::on(ledger);
        self.ended(alloc, plan, step, &mut steps)
    }
}

/// How many edge producers the step has.
fn count_into(plan: &Plan, step: u32) -> Result<u32, Memory>
    requires { step < length plan.now.steps }
    ensures { IfOk result (HowMany (λ p. Leads plan.now p step)) }
{
    match u32::try_from(plan.edges_into(step).len()) {
        Ok(count) => Ok(count),
        Err(_) => Err(Memory),
    }
}

/// Lowers the counts of these steps by one, and puts those that were at one behind the told ones.
fn lower<L: Ledger>(
    counts: &mut Vec<u32>,
    dependents: &[u32],
    told: &mut Vec<u32>,
    steps: &mut Steps<L>,
)
    requires rising { IsStrictlyIncreasing dependents.now }
    requires none { told.old.items ≡ [] }
    requires room { length dependents.now ≤ vec_capacity told.old }
    ensures lowered { AreLowered dependents.now counts.old.items counts.new.items }
    ensures told { told.new.items ≡ filter (λ s. slice_index_or counts.old.items s 0 == 1) dependents.now }
    ensures cost { steps.new ≡ steps.old + length dependents.now }
{
    for step in dependents {
        lower_one(counts, *step, told);
        steps.take();
    }
}

/// Lowers the count of the step by one, and puts the step behind the told ones where it was at one.
fn lower_one(counts: &mut Vec<u32>, step: u32, told: &mut Vec<u32>)
    requires { vec_len told.old < vec_capacity told.old }
    ensures lowered { AreLowered (step ∷ []) counts.old.items counts.new.items }
    ensures told { told.new.items ≡ told.old.items ++ cond (slice_index_or counts.old.items step 0 == 1) (step ∷ []) [] }
    ensures few { vec_len told.new ≤ vec_len told.old + 1 }
    ensures room { vec_capacity told.new ≡ vec_capacity told.old }
{
    let at = step as usize;
    if at >= counts.len() {
        return;
    }
    if counts[at] == 1 {
        told.push_reserved(step);
    }
    counts[at] = counts[at].saturating_sub(1);
}
