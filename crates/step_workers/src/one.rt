ghost use Rattle.std.specs.Prelude.{IfOk};
ghost use Rattle.build_history.specs.Kinds.{IsFinished, IsLeastFirst};

use build_history::{History, Job};
use build_state::BuildState;
use item_types::Memory;
use std::alloc::Global;

/// Runs the job on this thread: the least released step whole, again and again, until all needed
/// steps have ended or one has failed. It starts no thread and waits for nobody.
///
/// # Errors
/// `Memory` for want of memory.
pub fn run_one(alloc: Global, job: &Job) -> Result<History, Memory>
    ensures done { IfOk result (λ h. IsFinished job.now h.events) }
    ensures least { IfOk result (λ h. IsLeastFirst job.now h.events) }
{
    let mut state = BuildState::new(alloc, job)?;
    state.drain(alloc)?;
    Ok(state.into_history())
}
