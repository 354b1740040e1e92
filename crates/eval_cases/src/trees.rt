// Trees of small bodies.

use item_types::{Boxed, Memory, Seq, Text};
use std::alloc::Global;
use syntax_tree::{Expr, Invoke, Link, Stmt};

pub fn one<T: Drop>(alloc: Global, item: T) -> Result<Seq<T>, Memory> {
    let mut items = Seq::new(alloc);
    items.push(item)?;
    Ok(items)
}

pub fn two<T: Drop>(alloc: Global, first: T, second: T) -> Result<Seq<T>, Memory> {
    let mut items = one(alloc, first)?;
    items.push(second)?;
    Ok(items)
}

pub fn variable(alloc: Global, at: u32, name: &str) -> Result<Expr, Memory> {
    Ok(Expr::Name {
        at,
        name: Text::of(alloc, name)?,
    })
}

pub fn text(alloc: Global, at: u32, value: &str) -> Result<Expr, Memory> {
    Ok(Expr::Str {
        at,
        value: Text::of(alloc, value)?,
    })
}

/// `a + b`
pub fn sum(alloc: Global, a: Expr, sign: u32, b: Expr) -> Result<Expr, Memory> {
    Ok(Expr::Sum {
        parts: two(alloc, a, b)?,
        signs: one(alloc, sign)?,
    })
}

/// `a == b`
pub fn equal(alloc: Global, a: Expr, sign: u32, b: Expr) -> Result<Expr, Memory> {
    Ok(Expr::Equal {
        left: Boxed::new(alloc, a)?,
        sign,
        right: Boxed::new(alloc, b)?,
    })
}

/// `a < b`
pub fn less(alloc: Global, a: Expr, sign: u32, b: Expr) -> Result<Expr, Memory> {
    Ok(Expr::Less {
        left: Boxed::new(alloc, a)?,
        sign,
        right: Boxed::new(alloc, b)?,
    })
}

/// `len e`
pub fn len(alloc: Global, inner: Expr) -> Result<Expr, Memory> {
    Ok(Expr::Len {
        at: 1,
        inner: Boxed::new(alloc, inner)?,
    })
}

/// `!e`
pub fn not(alloc: Global, inner: Expr) -> Result<Expr, Memory> {
    Ok(Expr::Not {
        at: 1,
        inner: Boxed::new(alloc, inner)?,
    })
}

/// `(e)`
pub fn paren(alloc: Global, inner: Expr) -> Result<Expr, Memory> {
    Ok(Expr::Paren {
        at: 1,
        inner: Boxed::new(alloc, inner)?,
    })
}

/// `[a, b]`
pub fn pair(alloc: Global, a: Expr, b: Expr) -> Result<Expr, Memory> {
    let parts = two(alloc, a, b)?;
    Ok(Expr::ListOf { at: 1, parts })
}

/// `new B{n: a, k: b}`
pub fn new_bean(alloc: Global, a: Expr, b: Expr) -> Result<Expr, Memory> {
    let n = Text::of(alloc, "n")?;
    let k = Text::of(alloc, "k")?;
    let fields = two(alloc, (n, a), (k, b))?;
    Ok(Expr::New {
        at: 1,
        bean: 0,
        fields,
    })
}

/// `a && b`
pub fn both(alloc: Global, a: Expr, sign: u32, b: Expr) -> Result<Expr, Memory> {
    Ok(Expr::Both {
        parts: two(alloc, a, b)?,
        signs: one(alloc, sign)?,
    })
}

/// `[null, .., null]`, of that many
pub fn nulls(alloc: Global, at: u32, count: u32) -> Result<Expr, Memory> {
    let mut parts = Seq::new(alloc);
    for _i in 0..count {
        parts.push(Expr::Null { at })?;
    }
    Ok(Expr::ListOf { at, parts })
}

/// `null` in so many lists, each in the next
pub fn nested(alloc: Global, count: u32) -> Result<Expr, Memory> {
    let mut e = Expr::Null { at: count };
    for at in 0..count {
        e = Expr::ListOf {
            at: count - at,
            parts: one(alloc, e)?,
        };
    }
    Ok(e)
}

/// `e.f.f..`, with so many fields of that name
pub fn fields(alloc: Global, e: Expr, field: &str, dot: u32, count: u32) -> Result<Expr, Memory> {
    let mut links = Seq::new(alloc);
    for _i in 0..count {
        links.push(Link {
            dot,
            field: Text::of(alloc, field)?,
        })?;
    }
    Ok(Expr::Fields {
        inner: Boxed::new(alloc, e)?,
        links,
    })
}

pub fn bind(alloc: Global, name: &str, value: Expr) -> Result<Stmt, Memory> {
    Ok(Stmt::Let {
        at: 0,
        name: Text::of(alloc, name)?,
        value,
    })
}

/// `for n in e { .. }`
pub fn for_each(name: Text, list: Expr, block: Seq<Stmt>) -> Stmt {
    Stmt::For {
        at: 0,
        name,
        list,
        block,
    }
}

/// `if e { .. } else { .. }`
pub fn choose(cond: Expr, block: Seq<Stmt>, other: Option<Seq<Stmt>>) -> Stmt {
    Stmt::If {
        at: 0,
        cond,
        block,
        other,
    }
}

pub fn produce(item: u32, value: Expr) -> Stmt {
    Stmt::Produce { at: 0, item, value }
}

pub fn failing(value: Expr) -> Stmt {
    Stmt::FailWith { at: 0, value }
}

/// `call R.m(..)`
pub fn call(args: Seq<Expr>) -> Invoke {
    Invoke {
        at: 0,
        recorder: 0,
        method: 0,
        args,
    }
}
