ghost use Rattle.std.specs.Prelude.{◌≡◌, ℕ, ◌≤◌, Bool, List, map, Ok, Some};
ghost use Rattle.std.specs.List.{All};
ghost use Rattle.item_types.specs.Bounds.{IsBounded};
ghost use Rattle.item_types.specs.Fitting.{ValueFits};
ghost use Rattle.item_types.specs.declared.decl.Names.{Names};
ghost use Rattle.item_types.specs.declared.step.StepDecl.{StepDecl};
ghost use Rattle.item_types.specs.declared.step.Phase.{Phase};
ghost use Rattle.item_types.specs.declared.value.Value.{Value};
ghost use Rattle.item_types.specs.declared.value.Value.TheVariants as value;
ghost use Rattle.recorder_proxy.specs.declared.call.Call.{Call};
ghost use Rattle.step_eval.specs.BodyMeaning.{meaning_of_a_body, given};
ghost use Rattle.step_eval.specs.BoundedOutcome.{HasBoundedValues};
ghost use Rattle.step_eval.specs.FittingOutcome.{OutcomeFits};
ghost use Rattle.step_eval.specs.KeptCall.{IsNextCall};
ghost use Rattle.step_eval.specs.KnownProxies.{IsRecorded};
ghost use Rattle.step_eval.specs.NextNode.{IsNextNode};
ghost use Rattle.step_eval.specs.Setting.{Setting};
ghost use Rattle.step_state.specs.Spending.{made_list, made_bean};
ghost use Rattle.step_eval.specs.Statements.{block, called, doing, run};
ghost use Rattle.step_state.specs.declared.outcome.Inputs.{Inputs};
ghost use Rattle.step_state.specs.declared.outcome.Outcome.TheVariants.{Done};
ghost use Rattle.step_state.specs.declared.state.State.{State};
ghost use Rattle.syntax_tree.specs.Right.{IsRightBody};
ghost use Rattle.syntax_tree.specs.declared.tree.Body.{Body};
ghost use Rattle.syntax_tree.specs.declared.tree.Invoke.{Invoke};
ghost use Rattle.syntax_tree.specs.declared.tree.Stmt.{Stmt};

use item_types::{a_list_of_what_fits_fits, a_short_text_fits, a_whole_bean_fits};

/// Where each value that was taken is within the bounds, each value that a body produces or hands
/// to a recorded call has a depth of at most 64, at most 65,536 cells and at most 1,048,576 bytes
/// of text, and no text in it has more than 65,535.
pub const fn outcomes_are_bounded()
    ensures { (names : Names) (decl : StepDecl) (step : ℕ) (body : Body) (inputs : Inputs) → All (λ values. All IsBounded values) inputs.lists → HasBoundedValues (meaning_of_a_body names decl step body inputs) }
{}

/// What a right body comes to fits the declared names, where what was taken does: each put is of a
/// declared item, has a value that fits, and has a key where the item is ordered, and each
/// recorded call is of a declared method, with a value that fits for each parameter.
pub const fn a_right_body_comes_to_what_fits()
    ensures { (names : Names) (decl : StepDecl) (step : ℕ) (body : Body) (inputs : Inputs) → IsRightBody names decl body → All (λ values. All (ValueFits names) values) inputs.lists → OutcomeFits names (meaning_of_a_body names decl step body inputs) }
{
    a_short_text_fits();
    a_list_of_what_fits_fits();
    a_whole_bean_fits();
}

/// After a block the names in scope are those before it: the evaluation leaves no name of a block
/// behind.
pub const fn a_block_leaves_no_name()
    ensures { (cx : Setting) (block_of : List Stmt) (before after : State) → block (map (doing cx) block_of) before ≡ Ok (tt, after) → after.scope ≡ before.scope }
{}

/// Each proxy that a step produces or hands to a call was taken, or stands for what an earlier
/// call of the step returns and keeps. A static step hands on no runtime proxy, a step without a
/// phase records nothing, and what is recorded has at most 8,192 cells and 131,072 bytes of text.
pub const fn what_is_recorded_is_sound()
    ensures { (names : Names) (decl : StepDecl) (step : ℕ) (body : Body) (inputs : Inputs) (puts : List (ℕ × Value)) (calls : List Call) → meaning_of_a_body names decl step body inputs ≡ Done puts calls → IsRecorded (given names decl step inputs) puts calls }
{}

/// A recorded call comes after those before it, and the proxy that stands for what it will return
/// has as its number how many these are.
pub const fn a_proxy_has_its_calls_number()
    ensures { (cx : Setting) (phase : Phase) (call : Invoke) (keeps : Bool) (before after : State) (v : Value) → cx.decl.phase ≡ Some phase → called cx call keeps before ≡ Ok (v, after) → IsNextCall cx.step phase call keeps before v after }
{}

/// A new list has as its number how many nodes were made before it, and no later evaluation makes
/// that number again: the count of nodes made rises with each node, and never falls.
pub const fn a_new_list_has_the_next_number()
    ensures { (at step : ℕ) (parts : List Value) (before after : State) (v : Value) → made_list at step parts before ≡ Ok (v, after) → IsNextNode step (λ id. value.List id parts) before v after }
{}

/// The same of a new bean.
pub const fn a_new_bean_has_the_next_number()
    ensures { (at step bean : ℕ) (parts : List Value) (before after : State) (v : Value) → made_bean at step bean parts before ≡ Ok (v, after) → IsNextNode step (λ id. value.Bean id bean parts) before v after }
{}

/// The count of nodes made never falls, whatever statements are done.
pub const fn the_count_of_nodes_never_falls()
    ensures { (cx : Setting) (stmts : List Stmt) (before after : State) → run (map (doing cx) stmts) before ≡ Ok (tt, after) → before.nodes ≤ after.nodes }
{}
