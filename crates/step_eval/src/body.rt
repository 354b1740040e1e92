ghost use Rattle.std.specs.Prelude.{◌≡◌, map, IfOk};
ghost use Rattle.std.specs.List.{All};
ghost use Rattle.item_types.specs.Bounds.{IsBounded};
ghost use Rattle.step_eval.specs.BodyMeaning as spec;
ghost use Rattle.step_eval.specs.BoundedOutcome.{HasBoundedValues};
ghost use Rattle.step_state.specs.Evaluation.{Evals, Gives};
ghost use Rattle.step_eval.specs.Statements.{doing};

use crate::context::Context;
use crate::statement::execute_all;
use item_types::{Memory, Names, StepDecl};
use std::alloc::Global;
use step_state::{Inputs, Outcome, Reason, State, Stop, size_of_all};
use syntax_tree::{Body, Stmt};

const MAX_TAKEN_CELLS: u64 = 16_384;

const MAX_TAKEN_TEXT: u64 = 262_144;

/// How the evaluation of the step's body ends, the step having this number and having taken these
/// inputs: what it produces and records, or why it fails. A consumption without a list took
/// nothing.
///
/// # Errors
/// `Memory` for want of memory.
pub fn eval(
    alloc: Global,
    names: &Names,
    decl: &StepDecl,
    step: u32,
    body: &Body,
    inputs: &Inputs,
) -> Result<Outcome, Memory>
    ensures meaning { IfOk result (λ o. o ≡ spec.meaning_of_a_body names.now decl.now step body.now inputs.now) }
    ensures bounded { All (λ values. All IsBounded values) inputs.now.lists → IfOk result HasBoundedValues }
{
    let cx = Context {
        names,
        decl,
        step,
        inputs,
    };
    let mut state = State::new(alloc);
    match execute_body(alloc, &cx, &mut state, body.stmts.as_slice()) {
        Ok(()) => Ok(Outcome::Done {
            puts: state.puts,
            calls: state.calls,
        }),
        Err(Stop::Fails(reason)) => Ok(Outcome::Fails(reason)),
        Err(Stop::Memory) => Err(Memory),
    }
}

fn execute_body<'a>(
    alloc: Global,
    cx: &Context<'_>,
    state: &mut State<'a>,
    stmts: &'a [Stmt],
) -> Result<(), Stop>
    ensures { Evals (spec.body_of cx.now (map (doing cx.now) stmts.now) state.old) result state.new }
{
    fits_taken(cx)?;
    execute_all(alloc, cx, state, stmts)
}

/// Whether the step took no more than it may.
fn fits_taken(cx: &Context<'_>) -> Result<(), Stop>
    ensures { Gives (spec.taking cx.now.decl.consumes cx.now.lists 0 0 0) result }
{
    let mut cells: u64 = 0;
    let mut text: u64 = 0;
    for (place, consume) in cx.decl().consumes.as_slice().iter().enumerate() {
        let size = size_of_all(cx.list_at(place));
        cells = cells.saturating_add(size.cells);
        text = text.saturating_add(size.text);
        if cells > MAX_TAKEN_CELLS || text > MAX_TAKEN_TEXT {
            return Err(Stop::Fails(Reason::TooManyTaken(consume.item)));
        }
    }
    Ok(())
}
