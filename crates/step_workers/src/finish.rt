ghost use Rattle.std.specs.Prelude.{◌<◌, length};

use crate::standing::standing;
use build_history::Work;
use build_state::{BuildState, HandIn, Mark};
use item_types::{Memory, Seq};
use std::alloc::Global;

/// Hands the work in, and does the puts and the end of its step, or its failure. It gives the steps
/// that were released.
///
/// Where the step isn't one that waits for its outcome, or the work is foreign, the step is left to
/// the drain.
pub(crate) fn finish(
    alloc: Global,
    state: &mut BuildState<'_>,
    work: Work<'_>,
) -> Result<Seq<u32>, Memory> {
    let step = work.step();
    let Some(Mark::Ready) = standing(state, step) else {
        return Ok(Seq::new(alloc));
    };
    match state.hand_in(alloc, work) {
        Ok(()) => close(alloc, state, step),
        Err(HandIn::Foreign(_)) => Ok(Seq::new(alloc)),
        Err(HandIn::Memory(_)) => Err(Memory),
    }
}

/// Does the puts and the end of a step whose outcome is kept, or its failure.
fn close(alloc: Global, state: &mut BuildState<'_>, step: u32) -> Result<Seq<u32>, Memory>
    requires { step < length state.old.job.plan.steps }
{
    put_all(state, step);
    match standing(state, step) {
        Some(Mark::Putting) if state.puts_left(step) == 0 => state.end(alloc, step),
        Some(Mark::Failing) => {
            state.fail(step);
            Ok(Seq::new(alloc))
        }
        _ => Ok(Seq::new(alloc)),
    }
}

/// Does as many puts of the step as are left.
fn put_all(state: &mut BuildState<'_>, step: u32)
    requires { step < length state.old.job.plan.steps }
{
    for _ in 0..state.puts_left(step) {
        if let Some(Mark::Putting) = standing(state, step) {
            if state.puts_left(step) > 0 {
                state.put(step);
            }
        }
    }
}
