ghost use Rattle.std.specs.Prelude.{◌≡◌, IfOk};

use crate::same::{same_block, same_invoke};
use crate::tree::{Body, Expr, Invoke, Link, Method, Methods, Stmt};
use item_types::{Boxed, Memory, Same, Seq, Text};
use std::alloc::Global;

/// An expression that equals it.
///
/// # Errors
/// `Memory` for want of memory.
#[cycle(copy_expr)]
pub fn copy_expr(alloc: Global, x: &Expr) -> Result<Expr, Memory>
    ensures { IfOk result (λ e. e ≡ x.now) }
{
    match x {
        Expr::Null { at } => Ok(Expr::Null { at: *at }),
        Expr::Bool { at, value } => Ok(Expr::Bool {
            at: *at,
            value: *value,
        }),
        Expr::Long { at, value } => Ok(Expr::Long {
            at: *at,
            value: *value,
        }),
        Expr::Str { at, value } => Ok(Expr::Str {
            at: *at,
            value: value.try_copy(alloc)?,
        }),
        Expr::Name { at, name } => Ok(Expr::Name {
            at: *at,
            name: name.try_copy(alloc)?,
        }),
        Expr::Get { at, item } => Ok(Expr::Get {
            at: *at,
            item: *item,
        }),
        Expr::All { at, item } => Ok(Expr::All {
            at: *at,
            item: *item,
        }),
        Expr::New { at, bean, fields } => Ok(Expr::New {
            at: *at,
            bean: *bean,
            fields: copy_fields(alloc, fields.as_slice())?,
        }),
        Expr::ListOf { at, parts } => Ok(Expr::ListOf {
            at: *at,
            parts: copy_exprs(alloc, parts.as_slice())?,
        }),
        Expr::Fields { inner, links } => Ok(Expr::Fields {
            inner: copy_boxed(alloc, inner)?,
            links: links.try_copy(alloc)?,
        }),
        Expr::Len { at, inner } => Ok(Expr::Len {
            at: *at,
            inner: copy_boxed(alloc, inner)?,
        }),
        Expr::Not { at, inner } => Ok(Expr::Not {
            at: *at,
            inner: copy_boxed(alloc, inner)?,
        }),
        Expr::Sum { parts, signs } => Ok(Expr::Sum {
            parts: copy_exprs(alloc, parts.as_slice())?,
            signs: signs.try_copy(alloc)?,
        }),
        Expr::Both { parts, signs } => Ok(Expr::Both {
            parts: copy_exprs(alloc, parts.as_slice())?,
            signs: signs.try_copy(alloc)?,
        }),
        Expr::Equal { left, sign, right } => Ok(Expr::Equal {
            left: copy_boxed(alloc, left)?,
            sign: *sign,
            right: copy_boxed(alloc, right)?,
        }),
        Expr::Less { left, sign, right } => Ok(Expr::Less {
            left: copy_boxed(alloc, left)?,
            sign: *sign,
            right: copy_boxed(alloc, right)?,
        }),
        Expr::Paren { at, inner } => Ok(Expr::Paren {
            at: *at,
            inner: copy_boxed(alloc, inner)?,
        }),
        Expr::Me { at } => Ok(Expr::Me { at: *at }),
        Expr::StaticOf { at, field } => Ok(Expr::StaticOf {
            at: *at,
            field: field.try_copy(alloc)?,
        }),
    }
}

#[cycle(copy_expr)]
fn copy_boxed(alloc: Global, x: &Boxed<Expr>) -> Result<Boxed<Expr>, Memory>
    ensures { IfOk result (λ e. e ≡ x.now) }
{
    let copy = copy_expr(alloc, x.get())?;
    Ok(Boxed::new(alloc, copy)?)
}

#[cycle(copy_expr)]
fn copy_exprs(alloc: Global, xs: &[Expr]) -> Result<Seq<Expr>, Memory>
    ensures { IfOk result (λ s. s ≡ xs.now) }
{
    let mut copies = Seq::new(alloc);
    for x in xs {
        copies.push(copy_expr(alloc, x)?)?;
    }
    Ok(copies)
}

#[cycle(copy_expr)]
fn copy_fields(alloc: Global, xs: &[(Text, Expr)]) -> Result<Seq<(Text, Expr)>, Memory>
    ensures { IfOk result (λ s. s ≡ xs.now) }
{
    let mut copies = Seq::new(alloc);
    for x in xs {
        let name = x.0.try_copy(alloc)?;
        let value = copy_expr(alloc, &x.1)?;
        copies.push((name, value))?;
    }
    Ok(copies)
}

fn copy_invoke(alloc: Global, x: &Invoke) -> Result<Invoke, Memory>
    ensures { IfOk result (λ c. c ≡ x.now) }
{
    Ok(Invoke {
        at: x.at,
        recorder: x.recorder,
        method: x.method,
        args: copy_exprs(alloc, x.args.as_slice())?,
    })
}

fn copy_let(alloc: Global, at: u32, name: &Text, value: &Expr) -> Result<Stmt, Memory>
    ensures { IfOk result (λ s. s ≡ Stmt.Let at name.now value.now) }
{
    Ok(Stmt::Let {
        at,
        name: name.try_copy(alloc)?,
        value: copy_expr(alloc, value)?,
    })
}

fn copy_let_call(alloc: Global, at: u32, name: &Text, call: &Invoke) -> Result<Stmt, Memory>
    ensures { IfOk result (λ s. s ≡ Stmt.LetCall at name.now call.now) }
{
    Ok(Stmt::LetCall {
        at,
        name: name.try_copy(alloc)?,
        call: copy_invoke(alloc, call)?,
    })
}

fn copy_call(alloc: Global, call: &Invoke) -> Result<Stmt, Memory>
    ensures { IfOk result (λ s. s ≡ Stmt.CallOf call.now) }
{
    Ok(Stmt::CallOf {
        call: copy_invoke(alloc, call)?,
    })
}

fn copy_produce(alloc: Global, at: u32, item: u32, value: &Expr) -> Result<Stmt, Memory>
    ensures { IfOk result (λ s. s ≡ Stmt.Produce at item value.now) }
{
    Ok(Stmt::Produce {
        at,
        item,
        value: copy_expr(alloc, value)?,
    })
}

fn copy_for(
    alloc: Global,
    at: u32,
    name: &Text,
    list: &Expr,
    block: Seq<Stmt>,
) -> Result<Stmt, Memory>
    ensures { IfOk result (λ s. s ≡ Stmt.For at name.now list.now block) }
{
    Ok(Stmt::For {
        at,
        name: name.try_copy(alloc)?,
        list: copy_expr(alloc, list)?,
        block,
    })
}

fn copy_if(
    alloc: Global,
    at: u32,
    cond: &Expr,
    block: Seq<Stmt>,
    other: Option<Seq<Stmt>>,
) -> Result<Stmt, Memory>
    ensures { IfOk result (λ s. s ≡ Stmt.If at cond.now block other) }
{
    Ok(Stmt::If {
        at,
        cond: copy_expr(alloc, cond)?,
        block,
        other,
    })
}

fn copy_fail(alloc: Global, at: u32, value: &Expr) -> Result<Stmt, Memory>
    ensures { IfOk result (λ s. s ≡ Stmt.FailWith at value.now) }
{
    Ok(Stmt::FailWith {
        at,
        value: copy_expr(alloc, value)?,
    })
}

fn copy_print(alloc: Global, at: u32, value: &Expr) -> Result<Stmt, Memory>
    ensures { IfOk result (λ s. s ≡ Stmt.Print at value.now) }
{
    Ok(Stmt::Print {
        at,
        value: copy_expr(alloc, value)?,
    })
}

fn copy_return(alloc: Global, at: u32, value: &Expr) -> Result<Stmt, Memory>
    ensures { IfOk result (λ s. s ≡ Stmt.Return at value.now) }
{
    Ok(Stmt::Return {
        at,
        value: copy_expr(alloc, value)?,
    })
}

fn copy_add(alloc: Global, at: u32, list: &Expr, value: &Expr) -> Result<Stmt, Memory>
    ensures { IfOk result (λ s. s ≡ Stmt.Add at list.now value.now) }
{
    Ok(Stmt::Add {
        at,
        list: copy_expr(alloc, list)?,
        value: copy_expr(alloc, value)?,
    })
}

fn copy_set_static(alloc: Global, at: u32, field: &Text, value: &Expr) -> Result<Stmt, Memory>
    ensures { IfOk result (λ s. s ≡ Stmt.SetStatic at field.now value.now) }
{
    Ok(Stmt::SetStatic {
        at,
        field: field.try_copy(alloc)?,
        value: copy_expr(alloc, value)?,
    })
}

fn copy_set_self(
    alloc: Global,
    at: u32,
    dot: u32,
    field: &Text,
    value: &Expr,
) -> Result<Stmt, Memory>
    ensures { IfOk result (λ s. s ≡ Stmt.SetSelf at dot field.now value.now) }
{
    Ok(Stmt::SetSelf {
        at,
        dot,
        field: field.try_copy(alloc)?,
        value: copy_expr(alloc, value)?,
    })
}

fn copy_set_field(
    alloc: Global,
    at: u32,
    dot: u32,
    name: &Text,
    field: &Text,
    value: &Expr,
) -> Result<Stmt, Memory>
    ensures { IfOk result (λ s. s ≡ Stmt.SetField at dot name.now field.now value.now) }
{
    Ok(Stmt::SetField {
        at,
        dot,
        name: name.try_copy(alloc)?,
        field: field.try_copy(alloc)?,
        value: copy_expr(alloc, value)?,
    })
}

#[cycle(copy_stmt)]
fn copy_stmt(alloc: Global, x: &Stmt) -> Result<Stmt, Memory>
    ensures { IfOk result (λ s. s ≡ x.now) }
{
    match x {
        Stmt::Let { at, name, value } => copy_let(alloc, *at, name, value),
        Stmt::LetCall { at, name, call } => copy_let_call(alloc, *at, name, call),
        Stmt::CallOf { call } => copy_call(alloc, call),
        Stmt::Produce { at, item, value } => copy_produce(alloc, *at, *item, value),
        Stmt::For {
            at,
            name,
            list,
            block,
        } => { copy_for(alloc, *at, name, list, copy_block(alloc, block)?) }
        Stmt::If {
            at,
            cond,
            block,
            other: None,
        } => { copy_if(alloc, *at, cond, copy_block(alloc, block)?, None) }
        Stmt::If {
            at,
            cond,
            block,
            other: Some(other),
        } => {
            let block = copy_block(alloc, block)?;
            let other = copy_block(alloc, other)?;
            copy_if(alloc, *at, cond, block, Some(other))
        }
        Stmt::FailWith { at, value } => copy_fail(alloc, *at, value),
        Stmt::Print { at, value } => copy_print(alloc, *at, value),
        Stmt::Return { at, value } => copy_return(alloc, *at, value),
        Stmt::Add { at, list, value } => copy_add(alloc, *at, list, value),
        Stmt::SetStatic { at, field, value } => copy_set_static(alloc, *at, field, value),
        Stmt::SetSelf {
            at,
            dot,
            field,
            value,
        } => copy_set_self(alloc, *at, *dot, field, value),
        Stmt::SetField {
            at,
            dot,
            name,
            field,
            value,
        } => copy_set_field(alloc, *at, *dot, name, field, value),
    }
}

/// A block that equals it.
///
/// # Errors
/// `Memory` for want of memory.
#[cycle(copy_stmt)]
pub fn copy_block(alloc: Global, x: &Seq<Stmt>) -> Result<Seq<Stmt>, Memory>
    ensures { IfOk result (λ s. s ≡ x.now) }
{
    let mut copies = Seq::new(alloc);
    for stmt in x.as_slice() {
        copies.push(copy_stmt(alloc, stmt)?)?;
    }
    Ok(copies)
}

impl Same for Link {
    fn same(&self, other: &Link) -> bool {
        self.dot == other.dot && self.field.same(&other.field)
    }

    fn try_copy(&self, alloc: Global) -> Result<Link, Memory> {
        Ok(Link {
            dot: self.dot,
            field: self.field.try_copy(alloc)?,
        })
    }
}

impl Same for Invoke {
    fn same(&self, other: &Invoke) -> bool {
        same_invoke(self, other)
    }

    fn try_copy(&self, alloc: Global) -> Result<Invoke, Memory> {
        copy_invoke(alloc, self)
    }
}

impl Same for Body {
    fn same(&self, other: &Body) -> bool {
        same_block(&self.stmts, &other.stmts)
    }

    fn try_copy(&self, alloc: Global) -> Result<Body, Memory> {
        Ok(Body {
            stmts: copy_block(alloc, &self.stmts)?,
        })
    }
}

impl Same for Method {
    fn same(&self, other: &Method) -> bool {
        same_block(&self.stmts, &other.stmts)
    }

    fn try_copy(&self, alloc: Global) -> Result<Method, Memory> {
        Ok(Method {
            stmts: copy_block(alloc, &self.stmts)?,
        })
    }
}

impl Same for Methods {
    fn same(&self, other: &Methods) -> bool {
        self.lists.same(&other.lists)
    }

    fn try_copy(&self, alloc: Global) -> Result<Methods, Memory> {
        Ok(Methods {
            lists: self.lists.try_copy(alloc)?,
        })
    }
}
