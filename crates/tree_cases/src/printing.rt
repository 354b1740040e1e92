use item_types::{ItemDecl, ItemKind, Memory, Names, Seq, Text};
use lang_print::canonical_text;
use std::alloc::Global;
use syntax_tree::{Expr, Stmt};

/// One item, `T`.
fn names_of_one(alloc: Global) -> Result<Names, Memory> {
    let mut items = Seq::new(alloc);
    items.push(ItemDecl {
        name: Text::of(alloc, "T")?,
        kind: ItemKind::Multi,
    })?;
    Ok(Names {
        items,
        beans: Seq::new(alloc),
        recorders: Seq::new(alloc),
    })
}

/// `produce T([x, "a\n"]);`
fn sample(alloc: Global) -> Result<Seq<Stmt>, Memory> {
    let mut parts = Seq::new(alloc);
    parts.push(Expr::Name {
        at: 4,
        name: Text::of(alloc, "x")?,
    })?;
    parts.push(Expr::Str {
        at: 6,
        value: Text::of(alloc, "a\n")?,
    })?;
    let mut stmts = Seq::new(alloc);
    stmts.push(Stmt::Produce {
        at: 0,
        item: 0,
        value: Expr::ListOf { at: 3, parts },
    })?;
    Ok(stmts)
}

#[test]
fn a_statement_has_its_canonical_text(rt: HostRuntime) -> Result<(), Memory> {
    let names = names_of_one(rt.alloc())?;
    let stmts = sample(rt.alloc())?;
    let text = canonical_text(rt.alloc(), &names, stmts.as_slice())?;
    assert_eq!(rt; text.as_str(), "produce T([x, \"a\\n\"]);");
    Ok(())
}
