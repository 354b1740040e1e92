ghost use Rattle.std.specs.Prelude.{◌≡◌};
ghost use Rattle.build_state.specs.Plays.{act_step};

use crate::act::Act;
use crate::mark::Mark;
use crate::state::BuildState;
use build_history::Job;
use item_types::Memory;
use std::alloc::Global;

impl<'j> BuildState<'j> {
    ghost use Rattle.std.specs.Prelude.{◌≡◌, ◌↔◌, ◌<◌, length, IfOk, OnOk, OnErr, IsTrue};
    ghost use Rattle.build_history.specs.Kinds.{IsFinished};
    ghost use Rattle.build_state.specs.Built.{Built};
    ghost use Rattle.build_state.specs.Plays.{IsOpening, IsPlayed, Plays, Acts, Holds, Stands, act_step};

    /// Makes the moves in order, from the opening state, and then drains the state. A move whose
    /// step is out of range or whose condition doesn't hold is passed over.
    ///
    /// # Errors
    /// `Memory` for want of memory.
    pub fn play(alloc: Global, job: &'j Job, moves: &[Act]) -> Result<BuildState<'j>, Memory>
        ensures job { IfOk result (λ s. s.job ≡ job.now) }
        ensures done { IfOk result (λ s. IsFinished job.now s.history) }
        ensures played { IfOk result (λ s. IsPlayed job.now moves.now s.history) }
    {
        let mut state = BuildState::new(alloc, job)?;
        state.make_moves(alloc, moves)?;
        state.drain(alloc)?;
        Ok(state)
    }

    /// Makes the moves in order.
    fn make_moves(&mut self, alloc: Global, moves: &[Act]) -> Result<(), Memory>
        ensures job { self.new.job ≡ self.old.job }
        ensures plays { OnOk result (Plays self.old moves.now self.new) }
    {
        for act in moves {
            self.make_move(alloc, *act)?;
        }
        Ok(())
    }

    /// Makes the move, where its condition holds; else it is passed over.
    ///
    /// # Errors
    /// `Memory` for want of memory: the history is as before.
    pub fn make_move(&mut self, alloc: Global, act: Act) -> Result<(), Memory>
        ensures job { self.new.job ≡ self.old.job }
        ensures acts { OnOk result (Acts self.old act self.new) }
        ensures err { OnErr result (self.new ≡ self.old) }
    {
        if !self.holds(act) {
            return Ok(());
        }
        match act {
            Act::Claim(step) => self.claim_step(step),
            Act::Take(step) => self.take(alloc, step),
            Act::Eval(step) => self.evaluate(alloc, step),
            Act::Put(step) => {
                self.put(step);
                Ok(())
            }
            Act::End(step) => {
                self.end(alloc, step)?;
                self.stands();
                Ok(())
            }
            Act::Fail(step) => {
                self.stands();
                self.fail(step);
                Ok(())
            }
        }
    }

    /// Whether the condition of the move holds.
    fn holds(&self, act: Act) -> bool
        ensures { IsTrue result ↔ Holds self.now act }
    {
        (step_of(act) as usize) < self.slots.len() && !self.is_halted() && self.allows(act)
    }

    /// Whether the move's step stands where it has to.
    fn allows(&self, act: Act) -> bool
        requires { act_step act < length self.now.job.plan.steps }
        ensures { IsTrue result ↔ Stands self.now act }
    {
        match act {
            Act::Claim(step) => self.mark(step) == Mark::Released,
            Act::Take(step) => self.mark(step) == Mark::Taking,
            Act::Eval(step) => self.mark(step) == Mark::Ready,
            Act::Put(step) => self.mark(step) == Mark::Putting && self.puts_left(step) > 0,
            Act::End(step) => self.mark(step) == Mark::Putting && self.puts_left(step) == 0,
            Act::Fail(step) => self.mark(step) == Mark::Failing,
        }
    }
}

/// The step that the move is of.
fn step_of(act: Act) -> u32
    ensures { result ≡ act_step act }
{
    match act {
        Act::Claim(step)
        | Act::Take(step)
        | Act::Eval(step)
        | Act::Put(step)
        | Act::End(step)
        | Act::Fail(step) => step,
    }
}
