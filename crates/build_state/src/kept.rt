ghost use Rattle.std.specs.Prelude.{◌≡◌, ◌≤◌, IfOk, OnOk};
ghost use Rattle.build_state.specs.Built.{settled};
ghost use Rattle.build_state.specs.Keeping.{seconds_of, IsRoomFor, HasKeys};
ghost use Rattle.build_state.specs.Rooms.{IsRoomier};

use crate::mark::Mark;
use crate::puts::{Puts, make_room, seconds};
use crate::slot::Slot;
use build_history::{History, Job};
use item_store::Store;
use item_types::{Memory, Seq, Value};
use std::alloc::Global;
use step_eval::Outcome;

/// Makes ready for what follows an outcome of the step: a second value of each put that the step
/// effectively produces, and room for the events in the history and in the store.
///
/// # Errors
/// `Memory` for want of memory: there is no less room than before.
pub fn prepare(
    alloc: Global,
    job: &Job,
    step: u32,
    outcome: &Outcome,
    history: &mut History,
    store: &mut Store,
) -> Result<Seq<Value>, Memory>
    requires { store.old.names ≡ job.now.names }
    ensures events { history.new.events ≡ history.old.events }
    ensures spare { history.old.spare ≤ history.new.spare }
    ensures store { IsRoomier store.old store.new }
    ensures seconds { IfOk result (λ again. again ≡ seconds_of job.now step outcome.now) }
    ensures room { OnOk result (IsRoomFor job.now step outcome.now history.old.spare history.new.spare store.old store.new) }
    ensures keyed { OnOk result (HasKeys job.now step outcome.now) }
{
    match outcome {
        Outcome::Done { puts, calls: _ } => {
            make_room(job, step, puts.as_slice(), history, store)?;
            seconds(alloc, job, step, puts.as_slice())
        }
        Outcome::Fails(_) => {
            history.reserve(1)?;
            Ok(Seq::new(alloc))
        }
    }
}

/// Puts what is kept of an outcome of the step into its slot: the puts that the step effectively
/// produces, of each of which there is a second value, and the calls, or the reason. It takes no
/// memory.
pub fn settle(slot: &mut Slot, job: &Job, step: u32, outcome: Outcome, again: Seq<Value>)
    requires { again ≡ seconds_of job.now step outcome }
    ensures { slot.new ≡ settled job.now step slot.old outcome }
{
    match outcome {
        Outcome::Done { puts, calls } => {
            slot.mark = Mark::Putting;
            slot.made = 0;
            slot.left = Puts::kept(job, step, puts, again);
            slot.calls = calls;
        }
        Outcome::Fails(reason) => {
            slot.mark = Mark::Failing;
            slot.reason = Some(reason);
        }
    }
}
