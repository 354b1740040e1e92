ghost use Rattle.std.specs.Prelude.{◌≡◌, ◌++◌, IfOk, OnOk};
ghost use Rattle.std.specs.List.{flat_map};
ghost use Rattle.build_history.specs.Recordings.{recordings, recorded, is_of};

use crate::event::Event;
use crate::history::History;
use crate::job::Job;
use item_types::{Memory, Phase, Same, Seq};
use recorder_proxy::Recording;
use std::alloc::Global;

impl History {
    /// The calls of the ended steps that have a phase: those of the static steps in the order of
    /// their ends, and then those of the runtime steps.
    ///
    /// # Errors
    /// `Memory` for want of memory.
    pub fn recordings(&self, alloc: Global, job: &Job) -> Result<Seq<Recording>, Memory>
        ensures { IfOk result (λ r. r ≡ recordings job.now self.now.events) }
    {
        let mut all = Seq::new(alloc);
        push_recorded(alloc, job, self.events(), Phase::Static, &mut all)?;
        push_recorded(alloc, job, self.events(), Phase::Runtime, &mut all)?;
        Ok(all)
    }
}

fn push_recorded(
    alloc: Global,
    job: &Job,
    events: &[Event],
    phase: Phase,
    all: &mut Seq<Recording>,
) -> Result<(), Memory>
    ensures { OnOk result (all.new ≡ all.old ++ flat_map (recorded job.now phase) events.now) }
{
    for event in events {
        if let Event::End { step, calls } = event {
            if is_of(phase, job.phase(*step)) {
                all.push(Recording {
                    step: *step,
                    phase,
                    calls: calls.try_copy(alloc)?,
                })?;
            }
        }
    }
    Ok(())
}

fn is_of(phase: Phase, declared: Option<Phase>) -> bool
    ensures { result ≡ is_of phase declared }
{
    match (phase, declared) {
        (Phase::Static, Some(Phase::Static)) => true,
        (Phase::Runtime, Some(Phase::Runtime)) => true,
        _ => false,
    }
}
