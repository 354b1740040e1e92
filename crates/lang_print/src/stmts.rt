#![tactic(auto, using(crate::proofs::Puts::put_all_append))]

ghost use Rattle.std.specs.Prelude.{◌≡◌, ◌++◌, map, OnOk};
ghost use Rattle.lang_print.specs.Lines.{put_all};
ghost use Rattle.lang_print.specs.Tokens as spec;
ghost use Rattle.lang_print.specs.Tokens.{stmt_tokens};

use crate::exprs::{print_expr, print_parts};
use crate::naming::{item_name, method_name, recorder_name};
use crate::printer::Printer;
use item_types::{Memory, Names, Text};
use lang_lexer::Mark;
use syntax_tree::{Expr, Invoke, Stmt};

/// `e;`
fn print_ended(out: &mut Printer, names: &Names, value: &Expr) -> Result<(), Memory>
    ensures { OnOk result (out.new ≡ put_all (spec.ended names.now value.now) out.old) }
{
    print_expr(out, names, value)?;
    out.sign(Mark::Semi)?;
    Ok(())
}

/// A keyword, and `e;`.
fn print_said(out: &mut Printer, names: &Names, mark: Mark, value: &Expr) -> Result<(), Memory>
    ensures { OnOk result (out.new ≡ put_all (spec.said names.now mark value.now) out.old) }
{
    out.sign(mark)?;
    print_ended(out, names, value)
}

/// `.f = e;`
fn print_set(out: &mut Printer, names: &Names, field: &Text, value: &Expr) -> Result<(), Memory>
    ensures { OnOk result (out.new ≡ put_all (spec.set_to names.now field.now value.now) out.old) }
{
    out.sign(Mark::Dot)?;
    out.name(field.as_str())?;
    out.sign(Mark::Assign)?;
    print_ended(out, names, value)
}

fn print_let_to(out: &mut Printer, name: &Text) -> Result<(), Memory>
    ensures { OnOk result (out.new ≡ put_all (spec.let_to name.now) out.old) }
{
    out.sign(Mark::Let)?;
    out.name(name.as_str())?;
    out.sign(Mark::Assign)?;
    Ok(())
}

fn print_let(out: &mut Printer, names: &Names, name: &Text, value: &Expr) -> Result<(), Memory>
    ensures { OnOk result (out.new ≡ put_all (spec.let_tokens names.now name.now value.now) out.old) }
{
    print_let_to(out, name)?;
    print_ended(out, names, value)?;
    Ok(())
}

fn print_let_call(
    out: &mut Printer,
    names: &Names,
    name: &Text,
    call: &Invoke,
) -> Result<(), Memory>
    ensures { OnOk result (out.new ≡ put_all (spec.let_called names.now name.now call.now) out.old) }
{
    print_let_to(out, name)?;
    print_called(out, names, call)?;
    Ok(())
}

fn print_called(out: &mut Printer, names: &Names, call: &Invoke) -> Result<(), Memory>
    ensures { OnOk result (out.new ≡ put_all (spec.called names.now call.now) out.old) }
{
    print_call(out, names, call)?;
    out.sign(Mark::Semi)?;
    Ok(())
}

fn print_call(out: &mut Printer, names: &Names, call: &Invoke) -> Result<(), Memory>
    ensures { OnOk result (out.new ≡ put_all (spec.call_tokens names.now call.now) out.old) }
{
    out.sign(Mark::Call)?;
    out.name(recorder_name(names, call.recorder))?;
    out.sign(Mark::Dot)?;
    out.name(method_name(names, call.recorder, call.method))?;
    out.sign(Mark::Open)?;
    print_parts(out, names, Mark::Comma, call.args.as_slice())?;
    out.sign(Mark::Close)?;
    Ok(())
}

fn print_produce(out: &mut Printer, names: &Names, item: u32, value: &Expr) -> Result<(), Memory>
    ensures { OnOk result (out.new ≡ put_all (spec.produce_tokens names.now item value.now) out.old) }
{
    out.sign(Mark::Produce)?;
    out.name(item_name(names, item))?;
    out.sign(Mark::Open)?;
    print_expr(out, names, value)?;
    out.sign(Mark::Close)?;
    out.sign(Mark::Semi)?;
    Ok(())
}

fn print_add(out: &mut Printer, names: &Names, list: &Expr, value: &Expr) -> Result<(), Memory>
    ensures { OnOk result (out.new ≡ put_all (spec.add_tokens names.now list.now value.now) out.old) }
{
    out.sign(Mark::Add)?;
    out.sign(Mark::Open)?;
    print_expr(out, names, list)?;
    out.sign(Mark::Comma)?;
    print_expr(out, names, value)?;
    out.sign(Mark::Close)?;
    out.sign(Mark::Semi)?;
    Ok(())
}

/// `for n in e`
fn print_over(out: &mut Printer, names: &Names, name: &Text, list: &Expr) -> Result<(), Memory>
    ensures { OnOk result (out.new ≡ put_all (spec.over names.now name.now list.now) out.old) }
{
    out.sign(Mark::For)?;
    out.name(name.as_str())?;
    out.sign(Mark::In)?;
    print_expr(out, names, list)?;
    Ok(())
}

/// Prints a statement.
#[cycle(blocks)]
fn print_stmt(out: &mut Printer, names: &Names, stmt: &Stmt) -> Result<(), Memory>
    ensures { OnOk result (out.new ≡ put_all (stmt_tokens names.now stmt.now) out.old) }
{
    match stmt {
        Stmt::Let { at: _, name, value } => print_let(out, names, name, value),
        Stmt::LetCall { at: _, name, call } => print_let_call(out, names, name, call),
        Stmt::CallOf { call } => print_called(out, names, call),
        Stmt::Produce { at: _, item, value } => print_produce(out, names, *item, value),
        Stmt::For {
            at: _,
            name,
            list,
            block,
        } => print_for(out, names, block.as_slice(), name, list),
        Stmt::If {
            at: _,
            cond,
            block,
            other,
        } => {
            print_if(out, names, block.as_slice(), cond)?;
            match other {
                None => Ok(()),
                Some(stmts) => {
                    print_else(out, names, stmts.as_slice())?;
                    Ok(())
                }
            }
        }
        Stmt::FailWith { at: _, value } => print_said(out, names, Mark::Fail, value),
        Stmt::Print { at: _, value } => print_said(out, names, Mark::Print, value),
        Stmt::Return { at: _, value } => print_said(out, names, Mark::Return, value),
        Stmt::Add { at: _, list, value } => print_add(out, names, list, value),
        Stmt::SetStatic {
            at: _,
            field,
            value,
        } => {
            out.sign(Mark::Static)?;
            print_set(out, names, field, value)?;
            Ok(())
        }
        Stmt::SetSelf {
            at: _,
            dot: _,
            field,
            value,
        } => {
            out.sign(Mark::Me)?;
            print_set(out, names, field, value)?;
            Ok(())
        }
        Stmt::SetField {
            at: _,
            dot: _,
            name,
            field,
            value,
        } => {
            out.name(name.as_str())?;
            print_set(out, names, field, value)?;
            Ok(())
        }
    }
}

#[cycle(blocks)]
fn print_for(
    out: &mut Printer,
    names: &Names,
    block: &[Stmt],
    name: &Text,
    list: &Expr,
) -> Result<(), Memory>
    ensures { OnOk result (out.new ≡ put_all (spec.for_tokens names.now name.now list.now (map (stmt_tokens names.now) block.now)) out.old) }
{
    print_over(out, names, name, list)?;
    print_block(out, names, block)?;
    Ok(())
}

#[cycle(blocks)]
fn print_if(out: &mut Printer, names: &Names, block: &[Stmt], cond: &Expr) -> Result<(), Memory>
    ensures { OnOk result (out.new ≡ put_all (spec.if_tokens names.now cond.now (map (stmt_tokens names.now) block.now)) out.old) }
{
    out.sign(Mark::If)?;
    print_expr(out, names, cond)?;
    print_block(out, names, block)?;
    Ok(())
}

#[cycle(blocks)]
fn print_else(out: &mut Printer, names: &Names, block: &[Stmt]) -> Result<(), Memory>
    ensures { OnOk result (out.new ≡ put_all (spec.else_tokens (map (stmt_tokens names.now) block.now)) out.old) }
{
    out.sign(Mark::Else)?;
    print_block(out, names, block)?;
    Ok(())
}

#[cycle(blocks)]
fn print_block(out: &mut Printer, names: &Names, block: &[Stmt]) -> Result<(), Memory>
    ensures { OnOk result (out.new ≡ put_all (spec.block_tokens (map (stmt_tokens names.now) block.now)) out.old) }
{
    out.sign(Mark::OpenBlock)?;
    print_stmts(out, names, block)?;
    out.sign(Mark::CloseBlock)?;
    Ok(())
}

/// Prints statements, one behind the other.
#[cycle(blocks)]
pub(crate) fn print_stmts(out: &mut Printer, names: &Names, stmts: &[Stmt]) -> Result<(), Memory>
    ensures { OnOk result (out.new ≡ put_all (spec.body_tokens names.now stmts.now) out.old) }
{
    for stmt in stmts {
        print_stmt(out, names, stmt)?;
    }
    Ok(())
}
