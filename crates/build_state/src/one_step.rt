use crate::mark::Mark;
use crate::state::BuildState;
use build_history::evaluate;
use item_types::Memory;
use std::alloc::Global;

impl<'j> BuildState<'j> {
    ghost use Rattle.std.specs.Prelude.{◌≡◌, ◌≢◌, ◌<◌, ◌⊎◌, [], true, false, length, OnOk, OnErr};
    ghost use Rattle.build_history.specs.Jobs.{meaning_at};
    ghost use Rattle.build_state.specs.Built.{mark_at, is_halted, evaluated};
    ghost use Rattle.build_state.specs.Busy.{is_started, open_at};
    ghost use Rattle.build_state.specs.Marks.{slot_at};
    ghost use Rattle.build_state.specs.Going.{GoesOn};

    /// Runs what is left of the step, to its end or its failure.
    pub(crate) fn run_step(&mut self, alloc: Global, step: u32) -> Result<(), Memory>
        requires range { step < length self.old.job.plan.steps }
        requires started { is_started (mark_at self.old step) ≡ true }
        requires going { is_halted self.old ≡ false }
        ensures goes { GoesOn step self.old self.new }
        ensures ok { OnOk result (open_at (mark_at self.new step) ≡ 0) }
    {
        self.take_all(alloc, step)?;
        if self.mark(step) == Mark::Ready {
            self.evaluate(alloc, step)?;
        }
        self.close(alloc, step)
    }

    /// Does the takes that the step has left.
    fn take_all(&mut self, alloc: Global, step: u32) -> Result<(), Memory>
        requires range { step < length self.old.job.plan.steps }
        requires started { is_started (mark_at self.old step) ≡ true }
        requires going { is_halted self.old ≡ false }
        ensures goes { GoesOn step self.old self.new }
        ensures going { is_halted self.new ≡ false }
        ensures started { OnOk result (is_started (mark_at self.new step) ≡ true) }
        ensures done { OnOk result (mark_at self.new step ≢ Mark.Taking) }
    {
        self.stands();
        while self.mark(step) == Mark::Taking {
            self.take(alloc, step)?;
            self.stands();
        }
        Ok(())
    }

    /// Evaluates the body of the step on what it took, and keeps the outcome.
    pub(crate) fn evaluate(&mut self, alloc: Global, step: u32) -> Result<(), Memory>
        requires range { step < length self.old.job.plan.steps }
        requires ready { mark_at self.old step ≡ Mark.Ready }
        requires going { is_halted self.old ≡ false }
        ensures ok { OnOk result (self.new ≡ evaluated self.old step (meaning_at self.old.job step (slot_at self.old.slots step).inputs.lists)) }
        ensures err { OnErr result (self.new ≡ self.old) }
    {
        let outcome = evaluate(alloc, self.job, step, &self.slots[step as usize].inputs)?;
        match self.keep_outcome(alloc, step, outcome) {
            Ok(()) => Ok(()),
            Err(_) => Err(Memory),
        }
    }

    /// Does the puts and the end, or the failure, of a step whose outcome is kept.
    fn close(&mut self, alloc: Global, step: u32) -> Result<(), Memory>
        requires range { step < length self.old.job.plan.steps }
        requires kept { (mark_at self.old step ≡ Mark.Putting) ⊎ (mark_at self.old step ≡ Mark.Failing) }
        requires going { is_halted self.old ≡ false }
        ensures goes { GoesOn step self.old self.new }
        ensures ok { OnOk result (open_at (mark_at self.new step) ≡ 0) }
    {
        self.stands();
        if self.mark(step) == Mark::Failing {
            self.fail(step);
            return Ok(());
        }
        self.put_all(step);
        self.stands();
        self.end(alloc, step)?;
        self.stands();
        Ok(())
    }

    /// Does the puts that the step has left.
    fn put_all(&mut self, step: u32)
        requires range { step < length self.old.job.plan.steps }
        requires putting { mark_at self.old step ≡ Mark.Putting }
        requires going { is_halted self.old ≡ false }
        ensures goes { GoesOn step self.old self.new }
        ensures going { is_halted self.new ≡ false }
        ensures putting { mark_at self.new step ≡ Mark.Putting }
        ensures done { (slot_at self.new.slots step).left ≡ [] }
    {
        self.stands();
        while self.puts_left(step) > 0 {
            self.put(step);
        }
    }
}
