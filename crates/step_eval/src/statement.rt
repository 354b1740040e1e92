// What a statement does.

ghost use Rattle.std.specs.Prelude.{map};
ghost use Rattle.step_state.specs.Evaluation.{Evals, Gives};
ghost use Rattle.step_state.specs.Scoped.{scoped};
ghost use Rattle.step_eval.specs.Statements as spec;
ghost use Rattle.step_eval.specs.Statements.{doing};

use crate::context::Context;
use crate::expression::{value_of, values_of};
use item_types::{Phase, Proxy, Seq, Text, Value};
use recorder_proxy::first_runtime;
use std::alloc::Global;
use step_state::{Reason, State, Stop, elements, said, truth};
use syntax_tree::{Invoke, Stmt};

/// Does one statement.
#[cycle(exec)]
pub fn execute<'a>(
    alloc: Global,
    cx: &Context<'_>,
    state: &mut State<'a>,
    stmt: &'a Stmt,
) -> Result<(), Stop>
    ensures { Evals (doing cx.now stmt.now state.old) result state.new }
{
    state.turn()?;
    match stmt {
        Stmt::Let { name, value, .. } => {
            let v = value_of(alloc, cx, state, value)?;
            state.bind(name, v)
        }
        Stmt::LetCall { name, call, .. } => {
            let v = invoke(alloc, cx, state, call, true)?;
            state.bind(name, v)
        }
        Stmt::CallOf { call } => {
            invoke(alloc, cx, state, call, false)?;
            Ok(())
        }
        Stmt::Produce { item, value, .. } => {
            let v = value_of(alloc, cx, state, value)?;
            state.put(cx.names(), *item, v)
        }
        Stmt::For {
            at,
            name,
            list,
            block,
        } => {
            let v = value_of(alloc, cx, state, list)?;
            let values = elements(*at, v)?;
            execute_turns(alloc, cx, state, block.as_slice(), name, values.as_slice())
        }
        Stmt::If {
            at,
            cond,
            block,
            other,
        } => {
            let v = value_of(alloc, cx, state, cond)?;
            if truth(*at, &v)? {
                return execute_block(alloc, cx, state, block.as_slice());
            }
            match other {
                Some(other) => execute_block(alloc, cx, state, other.as_slice()),
                None => Ok(()),
            }
        }
        Stmt::FailWith { at, value } => {
            let v = value_of(alloc, cx, state, value)?;
            said(alloc, *at, v)
        }
        Stmt::Print { .. }
        | Stmt::Return { .. }
        | Stmt::Add { .. }
        | Stmt::SetStatic { .. }
        | Stmt::SetSelf { .. }
        | Stmt::SetField { .. } => Ok(()),
    }
}

/// Does the statements, one after the other.
#[cycle(exec)]
pub fn execute_all<'a>(
    alloc: Global,
    cx: &Context<'_>,
    state: &mut State<'a>,
    stmts: &'a [Stmt],
) -> Result<(), Stop>
    ensures { Evals (spec.run (map (doing cx.now) stmts.now) state.old) result state.new }
{
    for stmt in stmts {
        execute(alloc, cx, state, stmt)?;
    }
    Ok(())
}

#[cycle(exec)]
fn execute_block<'a>(
    alloc: Global,
    cx: &Context<'_>,
    state: &mut State<'a>,
    stmts: &'a [Stmt],
) -> Result<(), Stop>
    ensures { Evals (spec.block (map (doing cx.now) stmts.now) state.old) result state.new }
{
    let names = state.scope.len();
    execute_all(alloc, cx, state, stmts)?;
    state.scope.truncate(names);
    Ok(())
}

#[cycle(exec)]
fn execute_turns<'a>(
    alloc: Global,
    cx: &Context<'_>,
    state: &mut State<'a>,
    stmts: &'a [Stmt],
    name: &'a Text,
    values: &[Value],
) -> Result<(), Stop>
    ensures { Evals (spec.turns name.now values.now (map (doing cx.now) stmts.now) state.old) result state.new }
{
    for value in values {
        state.turn()?;
        execute_turn(alloc, cx, state, stmts, name, value)?;
    }
    Ok(())
}

#[cycle(exec)]
fn execute_turn<'a>(
    alloc: Global,
    cx: &Context<'_>,
    state: &mut State<'a>,
    stmts: &'a [Stmt],
    name: &'a Text,
    value: &Value,
) -> Result<(), Stop>
    ensures { Evals (scoped (spec.in_turn name.now value.now (map (doing cx.now) stmts.now)) state.old) result state.new }
{
    let names = state.scope.len();
    let value = value.try_copy()?;
    state.bind(name, value)?;
    execute_all(alloc, cx, state, stmts)?;
    state.scope.truncate(names);
    Ok(())
}

/// Records a call, and gives the proxy of its value.
#[tactic(auto, unfolding(crate::specs::Statements::called))]
fn invoke(
    alloc: Global,
    cx: &Context<'_>,
    state: &mut State<'_>,
    call: &Invoke,
    keeps: bool,
) -> Result<Value, Stop>
    ensures { Evals (spec.called cx.now call.now keeps state.old) result state.new }
{
    let args = values_of(alloc, cx, state, call.args.as_slice())?;
    record_call(cx, state, call, keeps, args)
}

#[tactic(auto, unfolding(crate::specs::Statements::recorded))]
fn record_call(
    cx: &Context<'_>,
    state: &mut State<'_>,
    call: &Invoke,
    keeps: bool,
    args: Seq<Value>,
) -> Result<Value, Stop>
    ensures { Evals (spec.recorded cx.now cx.now.decl.phase call.now keeps args state.old) result state.new }
{
    let Some(phase) = cx.phase() else {
        return Ok(Value::Null);
    };
    fits_phase(phase, args.as_slice())?;
    let number = state.record_call(call.recorder, call.method, args, keeps)?;
    Ok(Value::Returned(Proxy {
        step: cx.step(),
        call: number,
        phase,
    }))
}

fn fits_phase(phase: Phase, args: &[Value]) -> Result<(), Stop>
    ensures { Gives (spec.fits_phase phase args.now) result }
{
    match phase {
        Phase::Static => match first_runtime(args) {
            Some(proxy) => Err(Stop::Fails(Reason::RuntimeInStatic(proxy))),
            None => Ok(()),
        },
        Phase::Runtime => Ok(()),
    }
}
