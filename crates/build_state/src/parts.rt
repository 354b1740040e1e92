ghost use Rattle.std.specs.Prelude.{◌≡◌, ◌==◌, ◌<◌, ◌^◌, ◌↔◌, ℕ, cond, length, Contains, IfOk, OnOk, [], ◌∷◌, Some, None};
ghost use Rattle.build_state.specs.Marks.{slot_at};
ghost use Rattle.build_state.specs.Parts.{IsFirst, IsOpen, AreOpen, AreReleased, IsNoted};
ghost use Rattle.build_state.specs.Sound.{IsReleasedSet};

use crate::mark::Mark;
use crate::puts::Puts;
use crate::slot::Slot;
use build_history::Job;
use item_types::{Memory, Seq, StepDecl};
use std::alloc::Global;
use step_eval::Inputs;
use step_set::StepSet;

/// Where a step stands that has done so many takes.
pub fn mark_after(decl: &StepDecl, taken: usize) -> Mark
    ensures { result ≡ cond (taken == length decl.now.consumes) Mark.Ready Mark.Taking }
{
    if taken == decl.consumes.as_slice().len() {
        Mark::Ready
    } else {
        Mark::Taking
    }
}

/// Where a step stands before anything has happened.
fn first_mark(job: &Job, step: u32) -> Mark
    requires { step < length job.now.plan.steps }
    ensures { IsFirst job.now step result }
{
    if !job.plan().needed(step) {
        return Mark::Unneeded;
    }
    if job.plan().edges_into(step).len() == 0 {
        return Mark::Released;
    }
    Mark::Waiting
}

fn open_slot(alloc: Global, mark: Mark) -> Slot
    ensures { result ≡ record { mark = mark; inputs = record { lists = [] }; made = 0; left = []; calls = []; reason = None } }
{
    Slot {
        mark,
        inputs: Inputs {
            lists: Seq::new(alloc),
        },
        made: 0,
        left: Puts::none(alloc),
        calls: Seq::new(alloc),
        reason: None,
    }
}

/// A slot for each step of the job, before anything has happened.
pub fn open_slots(alloc: Global, job: &Job) -> Result<Vec<Slot>, Memory>
    ensures { IfOk result (λ slots. AreOpen job.now (length job.now.plan.steps) slots.items) }
{
    job.plan().accepted();
    let mut slots = Seq::new(alloc);
    for step in 0..job.plan().steps().len() {
        slots.push(open_slot(alloc, first_mark(job, step as u32)))?;
    }
    Ok(slots.into_vec())
}

/// The steps whose slots stand at Released, with room for all of them.
///
/// # Errors
/// `Memory` for want of memory.
pub fn released_of(alloc: Global, slots: &[Slot]) -> Result<StepSet, Memory>
    requires { length slots.now < 2 ^ 32 }
    ensures room { IfOk result (λ set. length set ≡ length slots.now) }
    ensures exact { IfOk result (λ set. IsReleasedSet set slots.now) }
{
    let mut set = StepSet::new(alloc, slots.len())?;
    for step in 0..slots.len() {
        note(&mut set, slots[step].mark, step as u32);
    }
    Ok(set)
}

/// Puts the step into the set, where it stands at Released.
fn note(set: &mut StepSet, mark: Mark, step: u32)
    requires { step < length set.old }
    ensures room { length set.new ≡ length set.old }
    ensures noted { IsNoted mark step set.old set.new }
{
    if mark == Mark::Released {
        set.insert(step);
    }
}

/// Has these steps stand at Released.
pub fn release(slots: &mut Vec<Slot>, steps: &[u32])
    ensures { AreReleased steps.now slots.old.items slots.new.items }
{
    for step in steps {
        release_one(slots, *step);
    }
}

fn release_one(slots: &mut Vec<Slot>, step: u32)
    ensures { AreReleased (step ∷ []) slots.old.items slots.new.items }
{
    let at = step as usize;
    if at < slots.len() {
        slots[at].mark = Mark::Released;
    }
}
