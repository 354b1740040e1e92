ghost use Rattle.std.specs.Prelude.{◌≡◌, ◌++◌, ◌∷◌, [], slice_get, Ok, OnOk, List, ℕ, map};
ghost use Rattle.lang_names.specs.Settings.{known_of};
ghost use Rattle.syntax_tree.specs.Known.{params_of, method_of};
ghost use Rattle.lang_names.specs.Checked.{and_also};
ghost use Rattle.lang_names.specs.Exprs.{expr_right};
ghost use Rattle.lang_names.specs.Stmts as spec;
ghost use Rattle.lang_names.specs.Stmts.{Passes, Rights, Extends, leaves};

use crate::declared::{carries_value, contains, in_scope, produced};
use crate::exprs::{check_expr, check_exprs};
use crate::setting::Setting;
use crate::wrong::{NameFault, Wrong, fitting, known, later};
use item_types::Text;
use name_index::Index;
use syntax_tree::{Expr, Invoke, NO_NUMBER, Stmt};

/// How many parameters that method has; none where there is no such method.
fn params_of(setting: &Setting<'_>, recorder: u32, method: u32) -> usize
    ensures { result ≡ params_of (method_of (slice_get setting.now.names.now.recorders recorder) method) }
{
    match setting.names.recorders.as_slice().get(recorder as usize) {
        Some(decl) => match decl.methods.as_slice().get(method as usize) {
            Some(sig) => sig.params.len(),
            None => 0,
        },
        None => 0,
    }
}

fn check_call(setting: &Setting<'_>, scope: &Index<'_>, call: &Invoke) -> Result<(), Wrong>
    ensures { result ≡ spec.call_right (known_of setting.now) scope.now call.now }
{
    fitting(setting.records, call.at)?;
    known(call.recorder != NO_NUMBER, later(call.at, 1))?;
    known(call.method != NO_NUMBER, later(call.at, 3))?;
    let params = params_of(setting, call.recorder, call.method);
    fitting(params == call.args.len(), later(call.at, 3))?;
    check_exprs(setting, scope, call.args.as_slice())
}

fn check_produce(
    setting: &Setting<'_>,
    scope: &Index<'_>,
    at: u32,
    item: u32,
    value: &Expr,
) -> Result<(), Wrong>
    ensures { result ≡ spec.produce_right (known_of setting.now) scope.now at item value.now }
{
    known(item != NO_NUMBER, later(at, 1))?;
    fitting(produced(setting.produces, item), later(at, 1))?;
    fitting(carries_value(setting.names, item), later(at, 1))?;
    check_expr(setting, scope, value)
}

fn check_both(
    setting: &Setting<'_>,
    scope: &Index<'_>,
    first: Result<(), Wrong>,
    value: &Expr,
) -> Result<(), Wrong>
    ensures { result ≡ and_also first (expr_right (known_of setting.now) scope.now value.now) }
{
    first?;
    check_expr(setting, scope, value)
}

/// The answer for a statement that brings no name in scope.
fn leaving(checked: Result<(), Wrong>) -> Result<(), NameFault>
    ensures told { (s : List (List ℕ)) → Passes (leaves checked s) result s }
{
    match checked {
        Ok(()) => Ok(()),
        Err(wrong) => Err(NameFault::Wrong(wrong)),
    }
}

/// Brings a name in scope.
fn bind<'a>(scope: &mut Index<'a>, name: &'a Text) -> Result<(), NameFault>
    ensures told { Passes (Ok (scope.old ++ name.now ∷ [])) result scope.new }
    ensures kept { OnOk result (Extends scope.old scope.new) }
{
    scope.push(name.as_str())?;
    Ok(())
}

/// Brings a name in scope where a test was right.
fn bind_checked<'a>(
    scope: &mut Index<'a>,
    checked: Result<(), Wrong>,
    name: &'a Text,
) -> Result<(), NameFault>
    ensures told { Passes (leaves checked (scope.old ++ name.now ∷ [])) result scope.new }
    ensures kept { OnOk result (Extends scope.old scope.new) }
{
    match checked {
        Ok(()) => bind(scope, name),
        Err(wrong) => Err(NameFault::Wrong(wrong)),
    }
}

/// The answer for a test.
fn answer(checked: Result<(), Wrong>) -> Result<(), NameFault>
    ensures told { Rights checked result }
{
    match checked {
        Ok(()) => Ok(()),
        Err(wrong) => Err(NameFault::Wrong(wrong)),
    }
}

/// Checks the names of a statement, and brings the name of a `let` in scope.
#[cycle(blocks)]
fn check_stmt<'a>(
    setting: &Setting<'_>,
    scope: &mut Index<'a>,
    stmt: &'a Stmt,
) -> Result<(), NameFault>
    ensures told { Passes (spec.passing (known_of setting.now) stmt.now scope.old) result scope.new }
    ensures kept { OnOk result (Extends scope.old scope.new) }
{
    match stmt {
        Stmt::Let { at: _, name, value } => {
            let checked = check_expr(setting, scope, value);
            bind_checked(scope, checked, name)
        }
        Stmt::LetCall { at: _, name, call } => {
            let checked = check_call(setting, scope, call);
            bind_checked(scope, checked, name)
        }
        Stmt::For {
            at: _,
            name,
            list,
            block,
        } => {
            let checked = check_expr(setting, scope, list);
            check_loop(setting, scope, checked, name, block.as_slice())
        }
        Stmt::If {
            at: _,
            cond,
            block,
            other: None,
        } => {
            let checked = check_expr(setting, scope, cond);
            check_guarded(setting, scope, checked, block.as_slice())
        }
        Stmt::If {
            at: _,
            cond,
            block,
            other: Some(other),
        } => {
            let checked = check_expr(setting, scope, cond);
            check_guarded(setting, scope, checked, block.as_slice())?;
            check_block(setting, scope, other.as_slice())
        }
        Stmt::CallOf { call } => leaving(check_call(setting, scope, call)),
        Stmt::Produce { at, item, value } => {
            leaving(check_produce(setting, scope, *at, *item, value))
        }
        Stmt::FailWith { at: _, value } => leaving(check_expr(setting, scope, value)),
        Stmt::Print { at: _, value } => leaving(check_expr(setting, scope, value)),
        Stmt::Return { at: _, value } => leaving(check_expr(setting, scope, value)),
        Stmt::Add { at: _, list, value } => {
            let first = check_expr(setting, scope, list);
            leaving(check_both(setting, scope, first, value))
        }
        Stmt::SetStatic { at, field, value } => {
            let first = known(contains(setting.statics, field), later(*at, 2));
            leaving(check_both(setting, scope, first, value))
        }
        Stmt::SetSelf {
            at: _,
            dot,
            field,
            value,
        } => {
            let first = known(contains(setting.fields, field), later(*dot, 1));
            leaving(check_both(setting, scope, first, value))
        }
        Stmt::SetField {
            at,
            dot: _,
            name,
            field: _,
            value,
        } => {
            let first = known(in_scope(scope, name), *at);
            leaving(check_both(setting, scope, first, value))
        }
    }
}

/// The statements of a `for`, behind the test of its list.
#[cycle(blocks)]
fn check_loop<'a>(
    setting: &Setting<'_>,
    scope: &mut Index<'a>,
    checked: Result<(), Wrong>,
    name: &'a Text,
    block: &'a [Stmt],
) -> Result<(), NameFault>
    ensures told { Passes (leaves (and_also checked (spec.block_right (map (spec.passing (known_of setting.now)) block.now) (scope.old ++ name.now ∷ []))) scope.old) result scope.new }
    ensures kept { OnOk result (scope.new ≡ scope.old) }
{
    answer(checked)?;
    let outer = scope.len();
    bind(scope, name)?;
    check_block(setting, scope, block)?;
    scope.truncate(outer);
    Ok(())
}

/// The block of an `if`, behind the test of its condition.
#[cycle(blocks)]
fn check_guarded<'a>(
    setting: &Setting<'_>,
    scope: &mut Index<'a>,
    checked: Result<(), Wrong>,
    block: &'a [Stmt],
) -> Result<(), NameFault>
    ensures told { Rights (and_also checked (spec.block_right (map (spec.passing (known_of setting.now)) block.now) scope.old)) result }
    ensures kept { OnOk result (scope.new ≡ scope.old) }
{
    answer(checked)?;
    check_block(setting, scope, block)
}

/// Checks the names of a block's statements, and leaves the scope as it was.
#[cycle(blocks)]
pub(crate) fn check_block<'a>(
    setting: &Setting<'_>,
    scope: &mut Index<'a>,
    stmts: &'a [Stmt],
) -> Result<(), NameFault>
    ensures told { Rights (spec.block_right (map (spec.passing (known_of setting.now)) stmts.now) scope.old) result }
    ensures kept { OnOk result (scope.new ≡ scope.old) }
{
    let outer = scope.len();
    for stmt in stmts {
        check_stmt(setting, scope, stmt)?;
    }
    scope.truncate(outer);
    Ok(())
}
