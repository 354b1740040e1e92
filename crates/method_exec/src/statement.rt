// What a statement does.

ghost use Rattle.std.specs.Prelude.{◌≡◌, map, IfOk};
ghost use Rattle.startup_rules.specs.Operations.{elements};
ghost use Rattle.startup_rules.specs.Methods as spec;
ghost use Rattle.startup_rules.specs.Methods.{doing};
ghost use Rattle.method_exec.specs.Walking.{DoesIn};

use crate::expression::{named_value, test, value_of};
use crate::field::{add, put_static, set};
use crate::line::{fail_with, print};
use crate::named::Named;
use crate::setting::Setting;
use crate::stop::Stop;
use crate::values::{rows, turn};
use item_types::{Memory, Seq, Text};
use startup_rules::{Invoked, Slot};
use startup_world::{World, copy_slots};
use syntax_tree::Stmt;

/// The elements of a list, and none of another value.
fn elements_of(world: &World, v: &Slot) -> Result<Seq<Slot>, Memory>
    ensures { IfOk result (λ items. items ≡ elements world.now v.now) }
{
    match world.items_of(v) {
        Some(items) => copy_slots(world.alloc(), items),
        None => Ok(Seq::new(world.alloc())),
    }
}

/// Does one statement.
#[cycle(exec)]
pub fn execute<'a>(
    cx: &Setting<'_>,
    env: &mut Named<'a>,
    world: &mut World,
    stmt: &'a Stmt,
) -> Result<(), Stop>
    ensures { DoesIn (doing cx.now stmt.now env.old world.old) result env.new world.new }
{
    turn(cx, world)?;
    match stmt {
        Stmt::LetCall { .. } | Stmt::CallOf { .. } | Stmt::Produce { .. } => Ok(()),
        Stmt::Let { name, value, .. } => {
            let v = value_of(cx, env, world, value)?;
            env.push(name, v)?;
            Ok(())
        }
        Stmt::For {
            at,
            name,
            list,
            block,
        } => {
            let v = value_of(cx, env, world, list)?;
            let v = rows(cx, world, v, *at)?;
            let items = elements_of(world, &v)?;
            execute_turns(cx, env, world, block.as_slice(), name, items.as_slice())
        }
        Stmt::If {
            at,
            cond,
            block,
            other,
        } => {
            let v = value_of(cx, env, world, cond)?;
            if test(cx, world, &v, *at)? {
                return execute_block(cx, env, world, block.as_slice());
            }
            match other {
                Some(other) => execute_block(cx, env, world, other.as_slice()),
                None => Ok(()),
            }
        }
        Stmt::FailWith { at, value } => {
            let v = value_of(cx, env, world, value)?;
            fail_with(cx, world, v, *at)?;
            Ok(())
        }
        Stmt::Print { at, value } => {
            let v = value_of(cx, env, world, value)?;
            print(cx, world, v, *at)?;
            Ok(())
        }
        Stmt::Return { value, .. } => {
            let v = value_of(cx, env, world, value)?;
            Err(Stop::Ends(Invoked::Value(v)))
        }
        Stmt::Add { at, list, value } => {
            let l = value_of(cx, env, world, list)?;
            let v = value_of(cx, env, world, value)?;
            add(cx, world, &l, v, *at)?;
            Ok(())
        }
        Stmt::SetStatic { field, value, .. } => {
            let v = value_of(cx, env, world, value)?;
            put_static(cx, world, v, field)?;
            Ok(())
        }
        Stmt::SetSelf {
            dot,
            field,
            value,
            ..
        } => {
            let v = value_of(cx, env, world, value)?;
            set(cx, world, &Slot::Obj(cx.me()), v, field, *dot)?;
            Ok(())
        }
        Stmt::SetField {
            dot,
            name,
            field,
            value,
            ..
        } => {
            let v = value_of(cx, env, world, value)?;
            let target = named_value(env, name)?;
            set(cx, world, &target, v, field, *dot)?;
            Ok(())
        }
    }
}

/// Does the statements, one after the other.
#[cycle(exec)]
pub fn execute_all<'a>(
    cx: &Setting<'_>,
    env: &mut Named<'a>,
    world: &mut World,
    stmts: &'a [Stmt],
) -> Result<(), Stop>
    ensures { DoesIn (spec.run (map (doing cx.now) stmts.now) env.old world.old) result env.new world.new }
{
    for stmt in stmts {
        execute(cx, env, world, stmt)?;
    }
    Ok(())
}

#[cycle(exec)]
fn execute_block<'a>(
    cx: &Setting<'_>,
    env: &mut Named<'a>,
    world: &mut World,
    stmts: &'a [Stmt],
) -> Result<(), Stop>
    ensures { DoesIn (spec.block (map (doing cx.now) stmts.now) env.old world.old) result env.new world.new }
{
    let names = env.len();
    execute_all(cx, env, world, stmts)?;
    env.truncate(names);
    Ok(())
}

#[cycle(exec)]
fn execute_turns<'a>(
    cx: &Setting<'_>,
    env: &mut Named<'a>,
    world: &mut World,
    stmts: &'a [Stmt],
    name: &'a Text,
    items: &[Slot],
) -> Result<(), Stop>
    ensures { DoesIn (spec.turns cx.now name.now items.now (map (doing cx.now) stmts.now) env.old world.old) result env.new world.new }
{
    for item in items {
        let item = item.share()?;
        execute_turn(cx, env, world, stmts, name, item)?;
    }
    Ok(())
}

#[cycle(exec)]
fn execute_turn<'a>(
    cx: &Setting<'_>,
    env: &mut Named<'a>,
    world: &mut World,
    stmts: &'a [Stmt],
    name: &'a Text,
    item: Slot,
) -> Result<(), Stop>
    ensures { DoesIn (spec.one_turn cx.now name.now item (map (doing cx.now) stmts.now) env.old world.old) result env.new world.new }
{
    turn(cx, world)?;
    let names = env.len();
    env.push(name, item)?;
    execute_all(cx, env, world, stmts)?;
    env.truncate(names);
    Ok(())
}
