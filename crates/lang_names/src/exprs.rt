ghost use Rattle.std.specs.Prelude.{◌≡◌, ◌≤◌, length, take, map, slice_get, []};
ghost use Rattle.item_types.specs.Named.{fields_of};
ghost use Rattle.lang_names.specs.Settings.{known_of};
ghost use Rattle.lang_names.specs.Checked.{and_also};
ghost use Rattle.lang_names.specs.Exprs as spec;
ghost use Rattle.lang_names.specs.Exprs.{told_of, expr_right, with_told, first_names, left_of};

use crate::declared::{all_in, consumed, contains, in_scope, is_several, is_simple, names_field};
use crate::setting::Setting;
use crate::wrong::{Wrong, fitting, known, later};
use item_types::Text;
use name_index::Index;
use syntax_tree::{Expr, Link, NO_NUMBER};

/// An item that is declared and that the step consumes.
fn check_taken(setting: &Setting<'_>, at: u32, item: u32) -> Result<(), Wrong>
    ensures { result ≡ spec.taken_right (known_of setting.now) at item }
{
    known(item != NO_NUMBER, later(at, 1))?;
    fitting(consumed(setting.consumes, item), later(at, 1))
}

fn check_get(setting: &Setting<'_>, at: u32, item: u32) -> Result<(), Wrong>
    ensures { result ≡ spec.get_right (known_of setting.now) at item }
{
    check_taken(setting, at, item)?;
    fitting(is_simple(setting.names, item), later(at, 1))
}

fn check_all(setting: &Setting<'_>, at: u32, item: u32) -> Result<(), Wrong>
    ensures { result ≡ spec.all_right (known_of setting.now) at item }
{
    check_taken(setting, at, item)?;
    fitting(is_several(setting.names, item), later(at, 1))
}

fn check_new(
    setting: &Setting<'_>,
    at: u32,
    bean: u32,
    fields: &[(Text, Expr)],
) -> Result<(), Wrong>
    ensures { result ≡ spec.new_right (known_of setting.now) at bean (first_names fields.now) }
{
    known(bean != NO_NUMBER, later(at, 1))?;
    fitting(all_in(setting.names.fields_of(bean), fields), later(at, 1))
}

fn check_link(setting: &Setting<'_>, me: bool, links: &[Link]) -> Result<(), Wrong>
    ensures { result ≡ spec.link_right (known_of setting.now) me links.now }
{
    if me {
        if let [link, ..] = links {
            return known(contains(setting.fields, &link.field), later(link.dot, 1));
        }
    }
    Ok(())
}

fn is_me(setting: &Setting<'_>, x: &Expr) -> bool
    ensures { result ≡ (told_of (known_of setting.now) x.now).me }
{
    let _ = setting;
    match x {
        Expr::Me { at: _ } => true,
        _ => false,
    }
}

/// The number of an expression's first token.
#[cycle(first)]
fn first_of(setting: &Setting<'_>, x: &Expr) -> u32
    ensures { result ≡ (told_of (known_of setting.now) x.now).first }
{
    match x {
        Expr::Null { at } => *at,
        Expr::Bool { at, value: _ } => *at,
        Expr::Long { at, value: _ } => *at,
        Expr::Str { at, value: _ } => *at,
        Expr::Name { at, name: _ } => *at,
        Expr::Get { at, item: _ } => *at,
        Expr::All { at, item: _ } => *at,
        Expr::New {
            at,
            bean: _,
            fields: _,
        } => *at,
        Expr::ListOf { at, parts: _ } => *at,
        Expr::Fields { inner, links: _ } => first_of(setting, inner.get()),
        Expr::Len { at, inner: _ } => *at,
        Expr::Not { at, inner: _ } => *at,
        Expr::Sum { parts, signs: _ } => first_part(setting, parts.as_slice()),
        Expr::Both { parts, signs: _ } => first_part(setting, parts.as_slice()),
        Expr::Equal {
            left,
            sign: _,
            right: _,
        } => first_of(setting, left.get()),
        Expr::Less {
            left,
            sign: _,
            right: _,
        } => first_of(setting, left.get()),
        Expr::Paren { at, inner: _ } => *at,
        Expr::Me { at } => *at,
        Expr::StaticOf { at, field: _ } => *at,
    }
}

#[cycle(first)]
fn first_part(setting: &Setting<'_>, parts: &[Expr]) -> u32
    ensures { result ≡ spec.first_part (map (told_of (known_of setting.now)) parts.now) }
{
    match parts {
        [] => 0,
        [part, ..] => first_of(setting, part),
    }
}

/// The first wrong name of an expression, where these names are in scope.
#[cycle(exprs)]
pub(crate) fn check_expr(setting: &Setting<'_>, scope: &Index<'_>, x: &Expr) -> Result<(), Wrong>
    ensures { result ≡ expr_right (known_of setting.now) scope.now x.now }
{
    match x {
        Expr::Null { at: _ } => Ok(()),
        Expr::Bool { at: _, value: _ } => Ok(()),
        Expr::Long { at: _, value: _ } => Ok(()),
        Expr::Str { at: _, value: _ } => Ok(()),
        Expr::Name { at, name } => known(in_scope(scope, name), *at),
        Expr::Get { at, item } => check_get(setting, *at, *item),
        Expr::All { at, item } => check_all(setting, *at, *item),
        Expr::New { at, bean, fields } => {
            check_bean(setting, scope, *at, *bean, fields.as_slice())
        }
        Expr::ListOf { at: _, parts } => check_exprs(setting, scope, parts.as_slice()),
        Expr::Fields { inner, links } => {
            check_expr(setting, scope, inner.get())?;
            check_link(setting, is_me(setting, inner.get()), links.as_slice())
        }
        Expr::Len { at: _, inner } => check_expr(setting, scope, inner.get()),
        Expr::Not { at: _, inner } => check_expr(setting, scope, inner.get()),
        Expr::Sum { parts, signs: _ } => check_exprs(setting, scope, parts.as_slice()),
        Expr::Both { parts, signs: _ } => check_exprs(setting, scope, parts.as_slice()),
        Expr::Equal {
            left,
            sign: _,
            right,
        } => {
            check_expr(setting, scope, left.get())?;
            check_expr(setting, scope, right.get())
        }
        Expr::Less {
            left,
            sign: _,
            right,
        } => {
            check_expr(setting, scope, left.get())?;
            check_expr(setting, scope, right.get())
        }
        Expr::Paren { at: _, inner } => check_expr(setting, scope, inner.get()),
        Expr::Me { at: _ } => Ok(()),
        Expr::StaticOf { at, field } => known(contains(setting.statics, field), later(*at, 2)),
    }
}

#[cycle(exprs)]
pub(crate) fn check_exprs(
    setting: &Setting<'_>,
    scope: &Index<'_>,
    parts: &[Expr],
) -> Result<(), Wrong>
    ensures { result ≡ spec.all_checked (map (told_of (known_of setting.now)) parts.now) scope.now }
{
    for part in parts {
        check_expr(setting, scope, part)?;
    }
    Ok(())
}

/// The name of a field, which stands behind so many of the fields, and two tokens before its
/// value: one of the bean's, which doesn't stand before.
fn check_name_at(
    declared: &[Text],
    fields: &[(Text, Expr)],
    before: usize,
    name: &Text,
    first: u32,
) -> Result<(), Wrong>
    requires { before ≤ length fields.now }
    ensures { result ≡ spec.name_right declared.now (first_names (take before fields.now)) name.now first }
{
    let at = first.saturating_sub(2);
    known(contains(declared, name), at)?;
    fitting(!names_field(&fields[..before], name), at)
}

/// The names of a bean, of its fields, and in their values.
#[cycle(exprs)]
fn check_bean(
    setting: &Setting<'_>,
    scope: &Index<'_>,
    at: u32,
    bean: u32,
    fields: &[(Text, Expr)],
) -> Result<(), Wrong>
    ensures { result ≡ spec.bean_right (known_of setting.now) at bean (with_told (known_of setting.now) fields.now) scope.now }
{
    check_new(setting, at, bean, fields)?;
    check_fields(
        setting,
        scope,
        setting.names.fields_of(bean),
        fields,
        fields,
    )
}

/// A field behind so many of those that are written: its name, and the names in its value.
#[cycle(exprs)]
fn check_field(
    setting: &Setting<'_>,
    scope: &Index<'_>,
    declared: &[Text],
    name: &Text,
    value: &Expr,
    written: &[(Text, Expr)],
    before: usize,
) -> Result<(), Wrong>
    requires { before ≤ length written.now }
    ensures { result ≡ and_also (spec.name_right declared.now (first_names (take before written.now)) name.now (told_of (known_of setting.now) value.now).first) ((told_of (known_of setting.now) value.now).check scope.now) }
{
    let first = first_of(setting, value);
    check_name_at(declared, written, before, name, first)?;
    check_expr(setting, scope, value)
}

/// The fields that are written, each with the names in its value.
#[cycle(exprs)]
fn check_fields(
    setting: &Setting<'_>,
    scope: &Index<'_>,
    declared: &[Text],
    fields: &[(Text, Expr)],
    written: &[(Text, Expr)],
) -> Result<(), Wrong>
    requires { written.now ≡ fields.now }
    ensures { result ≡ left_of (known_of setting.now) declared.now fields.now scope.now 0 }
{
    let mut before = 0;
    for field in fields {
        check_field(
            setting, scope, declared, &field.0, &field.1, written, before,
        )?;
        before += 1;
    }
    Ok(())
}
