ghost use Rattle.std.specs.Prelude.{◌≡◌, ◌≤◌, ◌++◌, List, length};
ghost use Rattle.recorder_proxy.specs.Playable.{EachAfter, CallsNameKept, IsPlayable};
ghost use Rattle.build_history.specs.declared.event.Event.{Event};
ghost use Rattle.build_history.specs.Jobs.{JobView};
ghost use Rattle.build_history.specs.Kinds.{IsFinished, IsLeastFirst};
ghost use Rattle.build_history.specs.Recordings.{recordings};
ghost use Rattle.build_history.specs.Runs.{IsOneThreadRun};
ghost use Rattle.build_history.specs.EventText.{history_text};
ghost use Rattle.run_laws.specs.Named.{IsNamed};

use build_history::{kept_puts_are_effective, recordings_are_sound};

/// Two one-thread runs of a job that have the same text are one.
pub const fn a_text_is_of_one_run()
    ensures { (job : JobView) (h k : List Event) → IsNamed job → IsOneThreadRun job h → IsOneThreadRun job k → history_text job h ≡ history_text job k → h ≡ k }
{}

/// A job has at most one least-first run.
pub const fn one_least_first()
    ensures { (job : JobView) (h k : List Event) → IsFinished job h → IsFinished job k → IsLeastFirst job h → IsLeastFirst job k → h ≡ k }
{}

/// A beginning of a one-thread run is a one-thread run.
pub const fn a_beginning_is_a_run()
    ensures { (job : JobView) (h k : List Event) → IsOneThreadRun job (h ++ k) → IsOneThreadRun job h }
{}

/// Each proxy in the recordings of a run, finished or not, names a keeping call that stands
/// earlier.
pub fn proxies_name_kept_calls()
    ensures { (job : JobView) (h : List Event) → IsOneThreadRun job h → EachAfter CallsNameKept (recordings job h) }
{
    kept_puts_are_effective();
    recordings_are_sound();
}

/// The recordings of a run of a job with at most 2,048 steps can be played: they are of different
/// steps, the static ones first, each with at most 8,192 cells and 131,072 bytes of text, and each
/// proxy in them names a keeping call that stands earlier.
pub fn runs_are_playable()
    ensures { (job : JobView) (h : List Event) → IsOneThreadRun job h → length job.plan.steps ≤ 2048 → IsPlayable 2048 8192 131072 (recordings job h) }
{
    kept_puts_are_effective();
    recordings_are_sound();
}
