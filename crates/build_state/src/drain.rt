ghost use Rattle.std.specs.Prelude.{◌≡◌};
ghost use Rattle.build_state.specs.Busy.{is_started as started};

use crate::mark::Mark;
use crate::state::BuildState;
use item_types::Memory;
use std::alloc::Global;

impl<'j> BuildState<'j> {
    ghost use Rattle.std.specs.Prelude.{◌≡◌, ◌<◌, ◌^◌, ◌⊎◌, [], ℕ, true, false, length, OnOk};
    ghost use mathlib.Core.List.{IsPrefix};
    ghost use Rattle.chain_builder.specs.Rank.{HasRank};
    ghost use Rattle.build_history.specs.Events.{has_failed};
    ghost use Rattle.build_history.specs.Kinds.{IsFinished, IsLeastFirst};
    ghost use Rattle.build_state.specs.Built.{mark_at};
    ghost use Rattle.build_state.specs.Busy.{is_started};
    ghost use Rattle.build_state.specs.Marks.{IsState};
    ghost use Rattle.build_state.specs.Going.{Drains};
    ghost use Rattle.build_state.specs.Turns.{GoesInTurn};

    /// Ends what has started and runs what is left, the least step first, until all needed steps
    /// have ended or one has failed. A halt for want of memory is taken back first.
    ///
    /// # Errors
    /// `Memory` for want of memory: the history may be longer.
    pub fn drain(&mut self, alloc: Global) -> Result<(), Memory>
        ensures job { self.new.job ≡ self.old.job }
        ensures going { self.new.no_memory ≡ false }
        ensures history { IsPrefix self.old.history self.new.history }
        ensures turns { GoesInTurn self.old.job self.old.history self.new.history }
        ensures done { OnOk result (IsFinished self.new.job self.new.history) }
        ensures least { OnOk result (self.old.history ≡ [] → IsLeastFirst self.new.job self.new.history) }
    {
        self.no_memory = false;
        self.end_started(alloc)?;
        self.run_released(alloc)
    }

    /// Ends the steps that have started, the least first.
    fn end_started(&mut self, alloc: Global) -> Result<(), Memory>
        requires { self.old.no_memory ≡ false }
        ensures drains { Drains self.old self.new }
        ensures none { OnOk result ((has_failed self.new.history ≡ true) ⊎ ((k : ℕ) → is_started (mark_at self.new k) ≡ false)) }
        ensures empty { self.old.history ≡ [] → self.new.history ≡ [] }
    {
        self.stands();
        for step in 0..self.slots.len() as u32 {
            if self.is_halted() {
                return Ok(());
            }
            if is_started(self.mark(step)) {
                self.run_step(alloc, step)?;
                self.stands();
            }
        }
        Ok(())
    }

    /// Runs the least released step whole, again and again.
    fn run_released(&mut self, alloc: Global) -> Result<(), Memory>
        requires going { self.old.no_memory ≡ false }
        requires none { (has_failed self.old.history ≡ true) ⊎ ((k : ℕ) → is_started (mark_at self.old k) ≡ false) }
        ensures drains { Drains self.old self.new }
        ensures done { OnOk result (IsFinished self.new.job self.new.history) }
        ensures least { OnOk result (self.old.history ≡ [] → IsLeastFirst self.new.job self.new.history) }
    {
        self.stands();
        while let Some(step) = self.claim()? {
            self.run_step(alloc, step)?;
            self.stands();
        }
        Ok(())
    }

    /// A law: the history is a one-thread run of the job, each step's slot is exactly what the
    /// history says of it, and the job's steps have ranks. It does nothing.
    pub fn stands(&self)
        ensures state { IsState self.now.job self.now.history self.now.slots }
        ensures ranked { HasRank self.now.job.plan.steps self.now.job.plan.finals }
        ensures few { length self.now.job.plan.steps < 2 ^ 32 }
    {
        self.job.plan().accepted();
    }
}

/// Whether a step at this mark has started and neither ended nor failed.
fn is_started(mark: Mark) -> bool
    ensures { result ≡ started mark }
{
    match mark {
        Mark::Taking | Mark::Ready | Mark::Putting | Mark::Failing => true,
        Mark::Unneeded | Mark::Waiting | Mark::Released | Mark::Ended | Mark::Failed => false,
    }
}
