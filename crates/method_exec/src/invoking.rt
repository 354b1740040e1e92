ghost use Rattle.std.specs.Prelude.{◌≡◌, IfOk};
ghost use Rattle.startup_rules.specs.Methods as spec;
ghost use Rattle.startup_rules.specs.Methods.{meaning_of_a_method};

use crate::named::Named;
use crate::setting::Setting;
use crate::statement::execute_all;
use crate::stop::Stop;
use item_types::{Memory, Names, Text};
use startup_rules::{Invoked, Slot};
use startup_world::World;
use std::alloc::Global;
use syntax_tree::{Methods, Stmt};

/// The parameters with the arguments.
fn env_of<'a>(alloc: Global, params: &'a [Text], args: &[Slot]) -> Result<Named<'a>, Memory>
    ensures { IfOk result (λ env. env ≡ spec.paired params.now args.now) }
{
    let mut env = Named::new(alloc);
    for i in 0..params.len().min(args.len()) {
        env.push(&params[i], args[i].share()?)?;
    }
    Ok(env)
}

fn run_method(
    cx: &Setting<'_>,
    world: &mut World,
    params: &[Text],
    stmts: &[Stmt],
    args: &[Slot],
) -> Result<Invoked, Memory>
    ensures { IfOk result (λ x. meaning_of_a_method cx.now stmts.now (spec.paired params.now args.now) world.old ≡ (x, world.new)) }
{
    let mut env = env_of(world.alloc(), params, args)?;
    match execute_all(cx, &mut env, world, stmts) {
        Ok(()) => Ok(Invoked::Value(Slot::Null)),
        Err(Stop::Ends(x)) => Ok(x),
        Err(Stop::Memory) => Err(Memory),
    }
}

fn stmts_of(methods: &Methods, recorder: u32, method: u32) -> &[Stmt]
    ensures { result.now ≡ spec.stmts_of methods.now recorder method }
{
    match methods.lists.as_slice().get(recorder as usize) {
        Some(list) => match list.as_slice().get(method as usize) {
            Some(method) => method.stmts.as_slice(),
            None => &[],
        },
        None => &[],
    }
}

/// Calls that method of the recorder on its object `me`, where the whole startup may spend that
/// many statements and turns.
///
/// # Errors
/// `Memory` for want of memory: the world is given up.
pub fn invoke_in(
    methods: &Methods,
    names: &Names,
    world: &mut World,
    me: u32,
    recorder: u32,
    method: u32,
    args: &[Slot],
    turns: u64,
) -> Result<Invoked, Memory>
    ensures { IfOk result (λ x. spec.invoked_in turns methods.now names.now me recorder method args.now world.old ≡ (x, world.new)) }
{
    let cx = Setting {
        names,
        recorder,
        me,
        turns,
    };
    let params = names.method_params(recorder, method);
    run_method(
        &cx,
        world,
        params,
        stmts_of(methods, recorder, method),
        args,
    )
}

/// Calls that method of the recorder on its object `me`: the value that it gives, or the fault
/// with which it fails, and the world as it is then. A failed method keeps the effects of what came
/// before its failure. The condition for what a user expects: there is an argument for each
/// parameter; arguments behind them are passed over.
///
/// # Errors
/// `Memory` for want of memory: the world is given up.
pub fn invoke(
    methods: &Methods,
    names: &Names,
    world: &mut World,
    me: u32,
    recorder: u32,
    method: u32,
    args: &[Slot],
) -> Result<Invoked, Memory>
    ensures { IfOk result (λ x. spec.invoked methods.now names.now me recorder method args.now world.old ≡ (x, world.new)) }
{
    invoke_in(methods, names, world, me, recorder, method, args, 1_000_000)
}
