ghost use Rattle.std.specs.Prelude.{◌≡◌, ◌<◌, length, IfOk, IfSome};

use crate::standing::standing;
use build_history::Job;
use build_state::{BuildState, Mark};
use item_types::Memory;
use std::alloc::Global;
use step_eval::Inputs;

/// A step that has started and done its takes, what it took, and the job of its state.
#[derive(Drop)]
pub(crate) struct Claimed<'j> {
    pub(crate) job: &'j Job,
    pub(crate) step: u32,
    pub(crate) inputs: Inputs,
    ghost in_range: { step < length job.now.plan.steps },
}

/// Starts the step that was found, if that may start, or else the least that may, and does its
/// takes. `None` where no step may start.
pub(crate) fn begin<'j>(
    alloc: Global,
    state: &mut BuildState<'j>,
    found: Option<u32>,
) -> Result<Option<Claimed<'j>>, Memory> {
    let Some(step) = claim(state, found)? else {
        return Ok(None);
    };
    take_all(alloc, state, step)?;
    let Some(Mark::Ready) = standing(state, step) else {
        return Ok(None);
    };
    let inputs = state.inputs_copy(alloc, step)?;
    let job = state.job();
    Ok(Some(Claimed { job, step, inputs }))
}

/// Starts the step that was found, if that may start, or else the least that may.
fn claim(state: &mut BuildState<'_>, found: Option<u32>) -> Result<Option<u32>, Memory>
    ensures { IfOk result (λ o. IfSome o (λ step. step < length state.new.job.plan.steps)) }
{
    if let Some(step) = found {
        if let Some(Mark::Released) = standing(state, step) {
            state.claim_step(step)?;
            return Ok(Some(step));
        }
    }
    let Some(step) = state.claim()? else {
        return Ok(None);
    };
    Ok(Some(step))
}

/// Does the takes of a step that has started.
fn take_all(alloc: Global, state: &mut BuildState<'_>, step: u32) -> Result<(), Memory>
    requires { step < length state.old.job.plan.steps }
{
    for _ in 0..state.job().decl(step).consumes.len() {
        if let Some(Mark::Taking) = standing(state, step) {
            state.take(alloc, step)?;
        }
    }
    Ok(())
}
