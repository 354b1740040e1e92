ghost use Rattle.std.specs.Prelude.{IfSome};
ghost use Rattle.step_workers.specs.Standing.{StandsAt};

use build_state::{BuildState, Mark};

/// Where the step stands, unless it is none of the job's or something has halted.
pub(crate) fn standing(state: &BuildState<'_>, step: u32) -> Option<Mark>
    ensures { IfSome result (StandsAt state.now step) }
{
    if state.is_halted() || state.job().plan().steps().len() <= step as usize {
        return None;
    }
    Some(state.mark(step))
}
