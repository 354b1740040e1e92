ghost use Rattle.std.specs.Prelude.{◌≡◌, ◌↔◌, IsTrue};

use crate::tree::{Expr, Invoke, Stmt};
use item_types::{Same, Seq, Text};

/// Whether both are equal. It takes no memory.
#[cycle(same_expr)]
pub fn same_expr(x: &Expr, y: &Expr) -> bool
    ensures { IsTrue result ↔ (x.now ≡ y.now) }
{
    match (x, y) {
        (Expr::Null { at }, Expr::Null { at: b }) => *at == *b,
        (Expr::Bool { at, value }, Expr::Bool { at: b, value: w }) => *at == *b && *value == *w,
        (Expr::Long { at, value }, Expr::Long { at: b, value: w }) => *at == *b && *value == *w,
        (Expr::Str { at, value }, Expr::Str { at: b, value: w }) => *at == *b && value.same(w),
        (Expr::Name { at, name }, Expr::Name { at: b, name: w }) => *at == *b && name.same(w),
        (Expr::Get { at, item }, Expr::Get { at: b, item: w }) => *at == *b && *item == *w,
        (Expr::All { at, item }, Expr::All { at: b, item: w }) => *at == *b && *item == *w,
        (
            Expr::New { at, bean, fields },
            Expr::New {
                at: b,
                bean: d,
                fields: w,
            },
        ) => { *at == *b && *bean == *d && same_fields(fields.as_slice(), w.as_slice()) }
        (Expr::ListOf { at, parts }, Expr::ListOf { at: b, parts: w }) => {
            *at == *b && same_exprs(parts.as_slice(), w.as_slice())
        }
        (Expr::Fields { inner, links }, Expr::Fields { inner: b, links: w }) => {
            links.same(w) && same_expr(inner.get(), b.get())
        }
        (Expr::Len { at, inner }, Expr::Len { at: b, inner: w }) => {
            *at == *b && same_expr(inner.get(), w.get())
        }
        (Expr::Paren { at, inner }, Expr::Paren { at: b, inner: w }) => {
            *at == *b && same_expr(inner.get(), w.get())
        }
        (Expr::Me { at }, Expr::Me { at: b }) => *at == *b,
        (Expr::StaticOf { at, field }, Expr::StaticOf { at: b, field: w }) => *at == *b
            && field.same(w),
        (Expr::Not { at, inner }, Expr::Not { at: b, inner: w }) => {
            *at == *b && same_expr(inner.get(), w.get())
        }
        (Expr::Sum { parts, signs }, Expr::Sum { parts: b, signs: d }) => {
            signs.same(d) && same_exprs(parts.as_slice(), b.as_slice())
        }
        (Expr::Both { parts, signs }, Expr::Both { parts: b, signs: d }) => {
            signs.same(d) && same_exprs(parts.as_slice(), b.as_slice())
        }
        (
            Expr::Less { left, sign, right },
            Expr::Less {
                left: b,
                sign: d,
                right: w,
            },
        ) => { *sign == *d && same_expr(left.get(), b.get()) && same_expr(right.get(), w.get()) }
        (
            Expr::Equal { left, sign, right },
            Expr::Equal {
                left: b,
                sign: d,
                right: w,
            },
        ) => { *sign == *d && same_expr(left.get(), b.get()) && same_expr(right.get(), w.get()) }
        _ => false,
    }
}

#[cycle(same_expr)]
fn same_exprs(xs: &[Expr], ys: &[Expr]) -> bool
    ensures { IsTrue result ↔ (xs.now ≡ ys.now) }
{
    if xs.len() != ys.len() {
        return false;
    }
    for i in 0..xs.len() {
        if !same_expr(&xs[i], &ys[i]) {
            return false;
        }
    }
    true
}

#[cycle(same_expr)]
fn same_fields(xs: &[(Text, Expr)], ys: &[(Text, Expr)]) -> bool
    ensures { IsTrue result ↔ (xs.now ≡ ys.now) }
{
    if xs.len() != ys.len() {
        return false;
    }
    for i in 0..xs.len() {
        if !xs[i].0.same(&ys[i].0) || !same_expr(&xs[i].1, &ys[i].1) {
            return false;
        }
    }
    true
}

pub(crate) fn same_invoke(x: &Invoke, y: &Invoke) -> bool
    ensures { IsTrue result ↔ (x.now ≡ y.now) }
{
    x.at == y.at
        && x.recorder == y.recorder
        && x.method == y.method
        && same_exprs(x.args.as_slice(), y.args.as_slice())
}

/// Whether both are equal. It takes no memory.
#[cycle(same_stmt)]
pub fn same_stmt(x: &Stmt, y: &Stmt) -> bool
    ensures { IsTrue result ↔ (x.now ≡ y.now) }
{
    match (x, y) {
        (
            Stmt::Let { at, name, value },
            Stmt::Let {
                at: b,
                name: n,
                value: w,
            },
        ) => { *at == *b && name.same(n) && same_expr(value, w) }
        (
            Stmt::LetCall { at, name, call },
            Stmt::LetCall {
                at: b,
                name: n,
                call: w,
            },
        ) => { *at == *b && name.same(n) && same_invoke(call, w) }
        (Stmt::CallOf { call }, Stmt::CallOf { call: w }) => same_invoke(call, w),
        (
            Stmt::Produce { at, item, value },
            Stmt::Produce {
                at: b,
                item: i,
                value: w,
            },
        ) => { *at == *b && *item == *i && same_expr(value, w) }
        (
            Stmt::For {
                at,
                name,
                list,
                block,
            },
            Stmt::For {
                at: b,
                name: n,
                list: l,
                block: k,
            },
        ) => { *at == *b && name.same(n) && same_expr(list, l) && same_block(block, k) }
        (
            Stmt::If {
                at,
                cond,
                block,
                other: None,
            },
            Stmt::If {
                at: b,
                cond: c,
                block: k,
                other: None,
            },
        ) => *at == *b && same_expr(cond, c) && same_block(block, k),
        (
            Stmt::If {
                at,
                cond,
                block,
                other: Some(other),
            },
            Stmt::If {
                at: b,
                cond: c,
                block: k,
                other: Some(o),
            },
        ) => *at == *b && same_expr(cond, c) && same_block(block, k) && same_block(other, o),
        (Stmt::FailWith { at, value }, Stmt::FailWith { at: b, value: w }) => {
            *at == *b && same_expr(value, w)
        }
        (Stmt::Print { at, value }, Stmt::Print { at: b, value: w }) => {
            *at == *b && same_expr(value, w)
        }
        (Stmt::Return { at, value }, Stmt::Return { at: b, value: w }) => {
            *at == *b && same_expr(value, w)
        }
        (
            Stmt::Add { at, list, value },
            Stmt::Add {
                at: b,
                list: l,
                value: w,
            },
        ) => { *at == *b && same_expr(list, l) && same_expr(value, w) }
        (
            Stmt::SetStatic { at, field, value },
            Stmt::SetStatic {
                at: b,
                field: f,
                value: w,
            },
        ) => { *at == *b && field.same(f) && same_expr(value, w) }
        (
            Stmt::SetSelf {
                at,
                dot,
                field,
                value,
            },
            Stmt::SetSelf {
                at: b,
                dot: d,
                field: f,
                value: w,
            },
        ) => { *at == *b && *dot == *d && field.same(f) && same_expr(value, w) }
        (
            Stmt::SetField {
                at,
                dot,
                name,
                field,
                value,
            },
            Stmt::SetField {
                at: b,
                dot: d,
                name: n,
                field: f,
                value: w,
            },
        ) => { *at == *b && *dot == *d && name.same(n) && field.same(f) && same_expr(value, w) }
        _ => false,
    }
}

/// Whether both are equal. It takes no memory.
#[cycle(same_stmt)]
pub fn same_block(x: &Seq<Stmt>, y: &Seq<Stmt>) -> bool
    ensures { IsTrue result ↔ (x.now ≡ y.now) }
{
    let xs = x.as_slice();
    let ys = y.as_slice();
    if xs.len() != ys.len() {
        return false;
    }
    for i in 0..xs.len() {
        if !same_stmt(&xs[i], &ys[i]) {
            return false;
        }
    }
    true
}
