ghost use Rattle.std.specs.Prelude.{◌≡◌, ◌↔◌, ◌∷◌, ◌++◌, ℕ, true, List, [], Some};
ghost use Rattle.std.specs.List.{All};
ghost use Rattle.item_types.specs.Bounds.{IsBounded};
ghost use Rattle.item_types.specs.declared.step.StepDecl.{StepDecl};
ghost use Rattle.item_types.specs.declared.value.Value.{Value};
ghost use Rattle.recorder_proxy.specs.declared.call.Call.{Call};
ghost use Rattle.step_state.specs.declared.outcome.Outcome.TheVariants.{Done};
ghost use Rattle.step_eval.specs.BodyMeaning.{given};
ghost use Rattle.step_eval.specs.BoundedOutcome.{HasBoundedValues};
ghost use Rattle.step_eval.specs.KnownProxies.{IsRecorded};
ghost use Rattle.chain_builder.specs.EffectiveProducer.{IsEffectiveProducer};
ghost use Rattle.build_history.specs.declared.event.Event.{Event};
ghost use Rattle.build_history.specs.Events.{step_of, events_of};
ghost use Rattle.build_history.specs.Follow.{MayFollow};
ghost use Rattle.build_history.specs.Next.{IsNext, next_of};
ghost use Rattle.build_history.specs.Jobs.{JobView, decl_at, meaning_at, is_effective};
ghost use Rattle.build_history.specs.Runs.{IsOneThreadRun};

use step_eval::{outcomes_are_bounded, what_is_recorded_is_sound};

/// The puts that a script keeps are those of the items that the step effectively produces.
pub const fn kept_puts_are_effective()
    ensures { (steps : List StepDecl) (s t : ℕ) → is_effective steps s t ≡ true ↔ IsEffectiveProducer steps s t }
{}

/// No event at all is a one-thread run of every job.
pub const fn nothing_is_a_run()
    ensures { (job : JobView) → IsOneThreadRun job [] }
{}

/// A one-thread run goes on by exactly the events that may follow it.
pub const fn a_run_goes_on()
    ensures { (job : JobView) (h : List Event) (e : Event) → IsOneThreadRun job h → MayFollow job h e ↔ IsOneThreadRun job (h ++ e ∷ []) }
{}

/// Each event of a run is the one that its step adds next to what stands before it.
pub const fn the_next_event_is_told()
    ensures { (job : JobView) (g k : List Event) (e : Event) → IsOneThreadRun job (g ++ e ∷ k) → next_of job (step_of e) (events_of (step_of e) g) g ≡ Some e }
{}

/// An event may follow a run exactly where it is the next one.
pub const fn what_is_next_may_follow()
    ensures { (job : JobView) (h : List Event) (e : Event) → IsOneThreadRun job h → MayFollow job h e ↔ IsNext job h e }
{}

/// Where each value that a step took is within the bounds, so is each that its body produces or
/// hands to a recorded call.
pub fn meanings_are_bounded()
    ensures { (job : JobView) (step : ℕ) (lists : List (List Value)) → All (λ values. All IsBounded values) lists → HasBoundedValues (meaning_at job step lists) }
{
    outcomes_are_bounded();
}

/// What the body of a step records on what the step took is sound: each proxy in it was taken, or
/// stands for an earlier call of the step that keeps what it returns, and it is within the limits.
pub fn recordings_are_sound()
    ensures { (job : JobView) (step : ℕ) (lists : List (List Value)) (puts : List (ℕ × Value)) (calls : List Call) → meaning_at job step lists ≡ Done puts calls → IsRecorded (given job.names (decl_at job step) step (record { lists = lists })) puts calls }
{
    what_is_recorded_is_sound();
}
