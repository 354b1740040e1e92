use crate::kept::{prepare, settle};
use crate::mark::{Halt, Mark, Stage};
use crate::parts::{mark_after, open_slots, release, released_of};
use crate::puts::Twin;
use crate::slot::Slot;
use build_history::{Event, History, Job, Work, meanings_are_bounded};
use dep_counter::Counts;
use item_store::Store;
use item_types::{Memory, Same, Seq, copy_values};
use std::alloc::Global;
use std::marker::Model;
use std::mem;
use step_eval::{Inputs, Outcome};
use step_set::StepSet;

/// A work that wasn't taken.
#[derive(Drop)]
pub enum HandIn<'w> {
    /// It is on other names, another declaration, another body or other inputs.
    Foreign(Work<'w>),
    /// Memory was wanting.
    Memory(Work<'w>),
}

/// What lies under the build lock: a one-thread run of a job, as far as it has come, and where
/// each step stands in it.
#[derive(Drop)]
pub struct BuildState<'j> {
    pub(crate) job: &'j Job,
    pub(crate) history: History,
    pub(crate) store: Store,
    pub(crate) counts: Counts,
    pub(crate) released: StepSet,
    pub(crate) slots: Vec<Slot>,
    pub(crate) failed: bool,
    pub(crate) no_memory: bool,
}

impl<'j> Model for BuildState<'j> {
    ghost use Rattle.item_types.specs.contracts.value.Value as value;
    ghost use Rattle.syntax_tree.specs.contracts.tree.Stmt as stmt;
    ghost use Rattle.std.specs.Coded.{codes};
    ghost use Rattle.build_state.specs.Built.{Built};
    ghost use Rattle.build_state.specs.Inside.{built_view, IsBuilt};

    ghost Value = { Built };

    ghost coded = { Prim.hlevel (codes, value.the_row.coded, stmt.the_row.coded) };

    ghost view = { built_view };

    ghost invariant = { IsBuilt };
}

impl<'j> BuildState<'j> {
    ghost use Rattle.std.specs.Prelude.{◌≡◌, ◌≢◌, ◌<◌, ◌+◌, ◌⊎◌, ◌∷◌, ◌++◌, [], ℕ, List, false, true, length, OnOk, OnErr, IfOk, IfErr, IfSome, IfNone, IsTrue, ◌↔◌, Contains};
    ghost use Rattle.build_history.specs.Runs.{IsOneThreadRun};
    ghost use Rattle.build_history.specs.Jobs.{meaning_at};
    ghost use Rattle.build_history.specs.Works.{IsMeant};
    ghost use Rattle.build_state.specs.Built.{Built, mark_at, is_halted, moved, started, took, put_one, failed_with, evaluated, HasEnded, Fits};
    ghost use Rattle.build_state.specs.Backs.{IsBack};
    ghost use Rattle.build_state.specs.Marks.{slot_at};
    ghost use Rattle.build_state.specs.Parts.{AreOpen};
    ghost use Rattle.step_state.specs.declared.outcome.Reason.{Reason};
    ghost use Rattle.item_types.specs.declared.value.Value.{Value};
    ghost use Rattle.build_state.specs.Stages.{Shows, halt_of};
    ghost use Rattle.std.specs.List.Sorted.{IsStrictlyIncreasing};

    /// The job. It takes no memory.
    pub fn job(&self) -> &'j Job
        ensures { result.now ≡ self.now.job }
    {
        self.job
    }

    /// The events so far. It takes no memory.
    pub fn history(&self) -> &History
        ensures events { result.now.events ≡ self.now.history }
        ensures run { IsOneThreadRun self.now.job self.now.history }
    {
        &self.history
    }

    /// The history. It takes no memory.
    pub fn into_history(self) -> History
        ensures events { result.events ≡ self.entry.history }
        ensures run { IsOneThreadRun self.entry.job self.entry.history }
    {
        let BuildState {
            job: _,
            history,
            store,
            counts,
            released,
            slots,
            failed: _,
            no_memory: _,
        } = self;
        drop(store);
        drop(counts);
        drop(released);
        drop(slots);
        history
    }

    /// Where the step stands. It takes no memory.
    pub fn stage(&self, step: u32) -> Stage
        requires { step < length self.now.job.plan.steps }
        ensures { Shows self.now step (mark_at self.now step) result }
    {
        let slot = &self.slots[step as usize];
        match slot.mark {
            Mark::Unneeded => Stage::Unneeded,
            Mark::Waiting => Stage::Waiting(self.counts.remaining(step)),
            Mark::Released => Stage::Released,
            Mark::Taking => Stage::Taking(slot.inputs.lists.len()),
            Mark::Ready => Stage::Ready,
            Mark::Putting => Stage::Putting(slot.made),
            Mark::Failing => Stage::Failing,
            Mark::Ended => Stage::Ended,
            Mark::Failed => Stage::Failed,
        }
    }

    /// Where the step stands, without the numbers of a stage. It takes no memory.
    pub fn mark(&self, step: u32) -> Mark
        requires { step < length self.now.job.plan.steps }
        ensures { result ≡ mark_at self.now step }
    {
        self.slots[step as usize].mark
    }

    /// Why nothing goes on, if so. It takes no memory.
    pub fn halted(&self) -> Option<Halt>
        ensures { result ≡ halt_of self.now }
    {
        if self.failed {
            Some(Halt::Failed)
        } else if self.no_memory {
            Some(Halt::Memory)
        } else {
            None
        }
    }

    /// Whether nothing goes on. It takes no memory.
    pub fn is_halted(&self) -> bool
        ensures { result ≡ is_halted self.now }
    {
        self.failed || self.no_memory
    }

    /// Halts for want of memory, where nothing has halted yet. It takes no memory.
    pub fn note_memory(&mut self)
        ensures { self.new ≡ record self.old { no_memory = true } }
    {
        self.no_memory = true;
    }

    /// What the step took. It takes no memory.
    pub fn inputs(&self, step: u32) -> &Inputs
        requires { step < length self.now.job.plan.steps }
        ensures { result.now ≡ (slot_at self.now.slots step).inputs }
    {
        &self.slots[step as usize].inputs
    }

    /// How many kept puts of the step aren't in the history yet. It takes no memory.
    pub fn puts_left(&self, step: u32) -> usize
        requires { step < length self.now.job.plan.steps }
        ensures { result ≡ length (slot_at self.now.slots step).left }
    {
        self.slots[step as usize].left.len()
    }

    /// Starts the step.
    ///
    /// # Errors
    /// `Memory` for want of memory: nothing has changed.
    pub fn claim_step(&mut self, step: u32) -> Result<(), Memory>
        requires range { step < length self.old.job.plan.steps }
        requires released { mark_at self.old step ≡ Mark.Released }
        requires going { is_halted self.old ≡ false }
        ensures ok { OnOk result (self.new ≡ started self.old step) }
        ensures err { OnErr result (self.new ≡ self.old) }
    {
        let mark = mark_after(self.job.decl(step), 0);
        self.history.reserve(1)?;
        self.history.add(Event::Start { step });
        self.released.remove(step);
        self.slots[step as usize].mark = mark;
        Ok(())
    }

    /// Starts the least released step, and gives it.
    ///
    /// # Errors
    /// `Memory` for want of memory: nothing has changed.
    pub fn claim(&mut self) -> Result<Option<u32>, Memory>
        ensures some { IfOk result (λ o. IfSome o (λ s. (s < length self.old.job.plan.steps) × (mark_at self.old s ≡ Mark.Released) × (is_halted self.old ≡ false) × ((k : ℕ) → k < s → mark_at self.old k ≢ Mark.Released) × (self.new ≡ started self.old s))) }
        ensures none { IfOk result (λ o. IfNone o ((self.new ≡ self.old) × ((is_halted self.old ≡ true) ⊎ ((k : ℕ) → k < length self.old.job.plan.steps → mark_at self.old k ≢ Mark.Released)))) }
        ensures err { OnErr result (self.new ≡ self.old) }
    {
        if self.is_halted() {
            return Ok(None);
        }
        match self.least() {
            None => Ok(None),
            Some(step) => {
                self.claim_step(step)?;
                Ok(Some(step))
            }
        }
    }

    /// The least released step.
    pub(crate) fn least(&self) -> Option<u32>
        ensures some { IfSome result (λ s. (s < length self.now.job.plan.steps) × (mark_at self.now s ≡ Mark.Released) × ((k : ℕ) → k < s → mark_at self.now k ≢ Mark.Released)) }
        ensures none { IfNone result ((k : ℕ) → k < length self.now.job.plan.steps → mark_at self.now k ≢ Mark.Released) }
    {
        self.released.least()
    }

    /// Does the next take of the step.
    ///
    /// # Errors
    /// `Memory` for want of memory: nothing has changed.
    pub fn take(&mut self, alloc: Global, step: u32) -> Result<(), Memory>
        requires range { step < length self.old.job.plan.steps }
        requires taking { mark_at self.old step ≡ Mark.Taking }
        requires going { is_halted self.old ≡ false }
        ensures ok { OnOk result (self.new ≡ took self.old step) }
        ensures err { OnErr result (self.new ≡ self.old) }
    {
        // A law of every plan: the items that its steps consume are declared.
        self.job.plan().accepted();
        let decl = self.job.decl(step);
        let done = self.slots[step as usize].inputs.lists.len();
        let item = decl.consumes.as_slice()[done].item;
        let values = self.store.found(alloc, item)?;
        let copy = copy_values(alloc, values.as_slice())?;
        let mark = mark_after(decl, done + 1);
        self.history.reserve(1)?;
        let slot = &mut self.slots[step as usize];
        slot.inputs.lists.push(copy)?;
        slot.mark = mark;
        self.history.add(Event::Take { step, item, values });
        Ok(())
    }

    /// A copy of what the step took.
    ///
    /// # Errors
    /// `Memory` for want of memory.
    pub fn inputs_copy(&self, alloc: Global, step: u32) -> Result<Inputs, Memory>
        requires range { step < length self.now.job.plan.steps }
        requires ready { mark_at self.now step ≡ Mark.Ready }
        ensures { IfOk result (λ i. i ≡ (slot_at self.now.slots step).inputs) }
    {
        self.slots[step as usize].inputs.try_copy(alloc)
    }

    /// Does the next put of the step. It takes no memory.
    pub fn put(&mut self, step: u32)
        requires range { step < length self.old.job.plan.steps }
        requires putting { mark_at self.old step ≡ Mark.Putting }
        requires left { 0 < length (slot_at self.old.slots step).left }
        requires going { is_halted self.old ≡ false }
        ensures { (p : ℕ × Value) (rest : List (ℕ × Value)) → (slot_at self.old.slots step).left ≡ p ∷ rest → self.new ≡ put_one self.old step p rest }
    {
        // What has been put is counted among the events.
        let _events = self.history.events().len();
        let slot = &mut self.slots[step as usize];
        let Some(twin) = slot.left.next() else {
            unreachable!()
        };
        slot.made += 1;
        let Twin { item, value, again } = twin;
        self.store.put(item, again);
        self.history.add(Event::Put { step, item, value });
    }

    /// Ends the step, and gives the steps that it releases, in ascending order.
    ///
    /// # Errors
    /// `Memory` for want of memory: nothing has changed.
    pub fn end(&mut self, alloc: Global, step: u32) -> Result<Seq<u32>, Memory>
        requires range { step < length self.old.job.plan.steps }
        requires putting { mark_at self.old step ≡ Mark.Putting }
        requires done { (slot_at self.old.slots step).left ≡ [] }
        requires going { is_halted self.old ≡ false }
        ensures ok { IfOk result (λ told. HasEnded self.old self.new step told) }
        ensures released { IfOk result (λ told. (i : ℕ) → Contains told i ↔ ((mark_at self.old i ≡ Mark.Waiting) × (mark_at self.new i ≡ Mark.Released))) }
        ensures ascending { IfOk result IsStrictlyIncreasing }
        ensures err { OnErr result (self.new ≡ self.old) }
    {
        self.history.reserve(1)?;
        let told = self.counts.ended_uncounted(alloc, self.job.plan(), step)?;
        self.released.insert_all(told.as_slice());
        let slot = &mut self.slots[step as usize];
        slot.mark = Mark::Ended;
        let calls = mem::replace(&mut slot.calls, Seq::new(alloc));
        release(&mut self.slots, told.as_slice());
        self.history.add(Event::End { step, calls });
        Ok(told)
    }

    /// Puts the failure of the step into the history. It takes no memory.
    pub fn fail(&mut self, step: u32)
        requires range { step < length self.old.job.plan.steps }
        requires failing { mark_at self.old step ≡ Mark.Failing }
        requires going { is_halted self.old ≡ false }
        ensures { (r : Reason) → (slot_at self.old.slots step).reason ≡ Some r → self.new ≡ failed_with self.old step r }
    {
        let slot = &mut self.slots[step as usize];
        let Some(reason) = slot.reason.take() else {
            unreachable!()
        };
        slot.mark = Mark::Failed;
        self.history.add(Event::Fail { step, reason });
        self.failed = true;
    }

    /// The state before the first event.
    ///
    /// # Errors
    /// `Memory` for want of memory.
    pub fn new(alloc: Global, job: &'j Job) -> Result<BuildState<'j>, Memory>
        ensures job { IfOk result (λ b. b.job ≡ job.now) }
        ensures history { IfOk result (λ b. b.history ≡ []) }
        ensures slots { IfOk result (λ b. AreOpen job.now (length job.now.plan.steps) b.slots) }
        ensures going { IfOk result (λ b. b.no_memory ≡ false) }
    {
        // A law of every plan: 32 bits count its steps.
        job.plan().accepted();
        let slots = open_slots(alloc, job)?;
        let released = released_of(alloc, slots.as_slice())?;
        Ok(BuildState {
            job,
            history: History::new(alloc),
            store: Store::new(alloc, job.names())?,
            counts: Counts::new(alloc, job.plan())?,
            released,
            slots,
            failed: false,
            no_memory: false,
        })
    }

    /// Whether the work is on equal names, an equal declaration, an equal body and equal inputs.
    fn fits<'w>(&self, work: &Work<'w>) -> bool
        requires { work.now.step < length self.now.job.plan.steps }
        ensures { IsTrue result ↔ Fits self.now work.now }
    {
        let step = work.step();
        let job = work.job();
        job.names().same(self.job.names())
            && job.decl(step).same(self.job.decl(step))
            && job.body(step).same(self.job.body(step))
            && work.inputs().same(&self.slots[step as usize].inputs)
    }

    /// Whether a work on this job is on equal inputs.
    fn fits_own<'w>(&self, work: &Work<'w>) -> bool
        requires own { work.now.job ≡ self.now.job }
        ensures { IsTrue result ↔ Fits self.now work.now }
    {
        let step = work.step();
        work.inputs().same(&self.slots[step as usize].inputs)
    }

    /// Keeps the outcome of a work on this step, and makes room for its events.
    ///
    /// # Errors
    /// `HandIn::Foreign` exactly where the work is on other names, another declaration, another
    /// body or other inputs; `HandIn::Memory` for want of memory. Nothing has changed, and the work
    /// comes back.
    pub fn hand_in<'w>(&mut self, alloc: Global, work: Work<'w>) -> Result<(), HandIn<'w>>
        requires range { work.step < length self.old.job.plan.steps }
        requires ready { mark_at self.old work.step ≡ Mark.Ready }
        requires going { is_halted self.old ≡ false }
        ensures ok { OnOk result (Fits self.old work.entry × (self.new ≡ evaluated self.old work.entry.step work.entry.outcome)) }
        ensures same { OnErr result (self.new ≡ self.old) }
        ensures back { IfErr result (λ e. IsBack self.old work.entry e) }
    {
        if !self.fits(&work) {
            return Err(HandIn::Foreign(work));
        }
        self.take_work(alloc, work)
    }

    /// The same for a work on this job, of which the inputs alone have to be compared.
    ///
    /// # Errors
    /// `HandIn::Foreign` exactly where the work is on other inputs; `HandIn::Memory` for want of
    /// memory. Nothing has changed, and the work comes back.
    pub fn hand_in_own<'w>(&mut self, alloc: Global, work: Work<'w>) -> Result<(), HandIn<'w>>
        requires own { work.job ≡ self.old.job }
        requires ready { mark_at self.old work.step ≡ Mark.Ready }
        requires going { is_halted self.old ≡ false }
        ensures ok { OnOk result (Fits self.old work.entry × (self.new ≡ evaluated self.old work.entry.step work.entry.outcome)) }
        ensures same { OnErr result (self.new ≡ self.old) }
        ensures back { IfErr result (λ e. IsBack self.old work.entry e) }
    {
        if !self.fits_own(&work) {
            return Err(HandIn::Foreign(work));
        }
        self.take_work(alloc, work)
    }

    /// Keeps the outcome of a work that fits.
    ///
    /// # Errors
    /// `HandIn::Memory` for want of memory: nothing has changed, and the work comes back.
    fn take_work<'w>(&mut self, alloc: Global, work: Work<'w>) -> Result<(), HandIn<'w>>
        requires range { work.step < length self.old.job.plan.steps }
        requires ready { mark_at self.old work.step ≡ Mark.Ready }
        requires going { is_halted self.old ≡ false }
        requires fits { Fits self.old work }
        ensures ok { OnOk result (self.new ≡ evaluated self.old work.entry.step work.entry.outcome) }
        ensures same { OnErr result (self.new ≡ self.old) }
        ensures back { IfErr result (λ e. IsBack self.old work.entry e) }
    {
        let (job, step) = (work.job(), work.step());
        let (inputs, outcome) = work.into_parts();
        match self.keep_outcome(alloc, step, outcome) {
            Ok(()) => Ok(()),
            Err(outcome) => Err(HandIn::Memory(Work::of(job, step, inputs, outcome))),
        }
    }

    /// Keeps the outcome of the step, which is what its body means, and makes room for the events
    /// that follow.
    ///
    /// # Errors
    /// The outcome, for want of memory: nothing has changed.
    pub(crate) fn keep_outcome(
        &mut self,
        alloc: Global,
        step: u32,
        outcome: Outcome,
    ) -> Result<(), Outcome>
        requires range { step < length self.old.job.plan.steps }
        requires ready { mark_at self.old step ≡ Mark.Ready }
        requires going { is_halted self.old ≡ false }
        requires meant { outcome ≡ meaning_at self.old.job step (slot_at self.old.slots step).inputs.lists }
        ensures ok { OnOk result (self.new ≡ evaluated self.old step outcome) }
        ensures same { OnErr result (self.new ≡ self.old) }
        ensures back { IfErr result (λ o. o ≡ outcome) }
    {
        // Laws: each value in a history is within the bounds, and so is what bodies make of them.
        let _events = self.history.events().len();
        meanings_are_bounded();
        let job = self.job;
        let (history, store) = (&mut self.history, &mut self.store);
        match prepare(alloc, job, step, &outcome, history, store) {
            Ok(again) => {
                settle(&mut self.slots[step as usize], job, step, outcome, again);
                Ok(())
            }
            Err(Memory) => Err(outcome),
        }
    }
}
