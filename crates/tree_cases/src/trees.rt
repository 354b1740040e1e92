use item_types::{Boxed, Memory, Same, Seq, Text};
use std::alloc::Global;
use syntax_tree::{Body, Expr, Link, Stmt};

/// `x.f.f..`, with so many fields behind the variable.
fn chain(alloc: Global, links: u32) -> Result<Expr, Memory> {
    let mut list = Seq::new(alloc);
    for dot in 0..links {
        list.push(Link {
            dot,
            field: Text::of(alloc, "f")?,
        })?;
    }
    let start = Expr::Name {
        at: 0,
        name: Text::of(alloc, "x")?,
    };
    Ok(Expr::Fields {
        inner: Boxed::new(alloc, start)?,
        links: list,
    })
}

/// The body `fail e;`.
fn failing(alloc: Global, value: Expr) -> Result<Body, Memory> {
    let mut stmts = Seq::new(alloc);
    stmts.push(Stmt::FailWith { at: 0, value })?;
    Ok(Body { stmts })
}

#[test]
fn a_long_chain_of_fields_is_copied_and_compared(rt: HostRuntime) -> Result<(), Memory> {
    let body = failing(rt.alloc(), chain(rt.alloc(), 20_000)?)?;
    let copy = body.try_copy(rt.alloc())?;
    let shorter = failing(rt.alloc(), chain(rt.alloc(), 19_999)?)?;
    assert!(rt; body.same(&copy));
    assert!(rt; !body.same(&shorter));
    Ok(())
}
