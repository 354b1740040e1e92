#![tactic(auto, using(crate::proofs::Puts::put_all_append))]

ghost use Rattle.std.specs.Prelude.{◌≡◌, ◌++◌, map, false, OnOk};
ghost use Rattle.lang_print.specs.Lines.{put_all};
ghost use Rattle.lang_print.specs.Tokens as spec;
ghost use Rattle.lang_print.specs.Tokens.{expr_tokens};

use crate::naming::item_name;
use crate::printer::Printer;
use item_types::{Memory, Names, Text};
use lang_lexer::Mark;
use syntax_tree::{Expr, Link};

fn print_named(out: &mut Printer, mark: Mark, name: &str) -> Result<(), Memory>
    ensures { OnOk result (out.new ≡ put_all (spec.marked mark name.now) out.old) }
{
    out.sign(mark)?;
    out.name(name)?;
    Ok(())
}

fn print_links(out: &mut Printer, links: &[Link]) -> Result<(), Memory>
    ensures { OnOk result (out.new ≡ put_all (spec.together (map spec.link_tokens links.now)) out.old) }
{
    for link in links {
        print_named(out, Mark::Dot, link.field.as_str())?;
    }
    Ok(())
}

/// Prints an expression.
#[cycle(exprs)]
pub(crate) fn print_expr(out: &mut Printer, names: &Names, x: &Expr) -> Result<(), Memory>
    ensures { OnOk result (out.new ≡ put_all (expr_tokens names.now x.now) out.old) }
{
    match x {
        Expr::Null { at: _ } => out.sign(Mark::Null),
        Expr::Bool { at: _, value } => out.sign(bool_mark(*value)),
        Expr::Long { at: _, value } => out.number(*value),
        Expr::Str { at: _, value } => out.quoted(value.as_str()),
        Expr::Name { at: _, name } => out.name(name.as_str()),
        Expr::Get { at: _, item } => print_named(out, Mark::Get, item_name(names, *item)),
        Expr::All { at: _, item } => print_named(out, Mark::All, item_name(names, *item)),
        Expr::New {
            at: _,
            bean,
            fields,
        } => print_new(out, names, *bean, fields.as_slice()),
        Expr::ListOf { at: _, parts } => print_listed(out, names, parts.as_slice()),
        Expr::Fields { inner, links } => print_linked(out, names, inner.get(), links.as_slice()),
        Expr::Len { at: _, inner } => {
            out.sign(Mark::Len)?;
            print_expr(out, names, inner.get())?;
            Ok(())
        }
        Expr::Not { at: _, inner } => {
            out.sign(Mark::Bang)?;
            print_expr(out, names, inner.get())?;
            Ok(())
        }
        Expr::Sum { parts, signs: _ } => print_parts(out, names, Mark::Plus, parts.as_slice()),
        Expr::Both { parts, signs: _ } => print_parts(out, names, Mark::And, parts.as_slice()),
        Expr::Equal {
            left,
            sign: _,
            right,
        } => {
            print_expr(out, names, left.get())?;
            out.sign(Mark::Equal)?;
            print_expr(out, names, right.get())?;
            Ok(())
        }
        Expr::Less {
            left,
            sign: _,
            right,
        } => {
            print_expr(out, names, left.get())?;
            out.sign(Mark::Less)?;
            print_expr(out, names, right.get())?;
            Ok(())
        }
        Expr::Paren { at: _, inner } => print_paren(out, names, inner.get()),
        Expr::Me { at: _ } => out.sign(Mark::Me),
        Expr::StaticOf { at: _, field } => {
            out.sign(Mark::Static)?;
            print_named(out, Mark::Dot, field.as_str())?;
            Ok(())
        }
    }
}

fn bool_mark(value: bool) -> Mark
    ensures { result ≡ spec.bool_mark value }
{
    if value { Mark::True } else { Mark::False }
}

/// `(e)`
#[cycle(exprs)]
fn print_paren(out: &mut Printer, names: &Names, inner: &Expr) -> Result<(), Memory>
    ensures { OnOk result (out.new ≡ put_all (spec.paren_tokens (expr_tokens names.now inner.now)) out.old) }
{
    out.sign(Mark::Open)?;
    print_expr(out, names, inner)?;
    out.sign(Mark::Close)?;
    Ok(())
}

/// An expression and the fields behind it.
#[cycle(exprs)]
fn print_linked(
    out: &mut Printer,
    names: &Names,
    inner: &Expr,
    links: &[Link],
) -> Result<(), Memory>
    ensures { OnOk result (out.new ≡ put_all (spec.linked (expr_tokens names.now inner.now) links.now) out.old) }
{
    print_expr(out, names, inner)?;
    print_links(out, links)?;
    Ok(())
}

/// `[e, ..]`
#[cycle(exprs)]
fn print_listed(out: &mut Printer, names: &Names, parts: &[Expr]) -> Result<(), Memory>
    ensures { OnOk result (out.new ≡ put_all (spec.listed (map (expr_tokens names.now) parts.now)) out.old) }
{
    out.sign(Mark::OpenList)?;
    print_parts(out, names, Mark::Comma, parts)?;
    out.sign(Mark::CloseList)?;
    Ok(())
}

/// Prints parts with a sign between two.
#[cycle(exprs)]
pub(crate) fn print_parts(
    out: &mut Printer,
    names: &Names,
    mark: Mark,
    parts: &[Expr],
) -> Result<(), Memory>
    ensures { OnOk result (out.new ≡ put_all (spec.parted mark false (map (expr_tokens names.now) parts.now)) out.old) }
{
    let mut later = false;
    for part in parts {
        out.sign_if(later, mark)?;
        print_expr(out, names, part)?;
        later = true;
    }
    Ok(())
}

#[cycle(exprs)]
fn print_new(
    out: &mut Printer,
    names: &Names,
    bean: u32,
    fields: &[(Text, Expr)],
) -> Result<(), Memory>
    ensures { OnOk result (out.new ≡ put_all (spec.new_tokens names.now bean (spec.with_tokens names.now fields.now)) out.old) }
{
    print_named(out, Mark::New, names.bean_name(bean))?;
    out.sign(Mark::OpenBlock)?;
    print_fields(out, names, fields)?;
    out.sign(Mark::CloseBlock)?;
    Ok(())
}

#[cycle(exprs)]
fn print_fields(out: &mut Printer, names: &Names, fields: &[(Text, Expr)]) -> Result<(), Memory>
    ensures { OnOk result (out.new ≡ put_all (spec.fields_tokens names.now false fields.now) out.old) }
{
    let mut later = false;
    for field in fields {
        out.sign_if(later, Mark::Comma)?;
        out.name(field.0.as_str())?;
        out.sign(Mark::Colon)?;
        print_expr(out, names, &field.1)?;
        later = true;
    }
    Ok(())
}
