use item_types::{Memory, MethodSig, Names, RecorderDecl, Seq, StepDecl, Text};
use lang_names::{NameFault, Wrong, check_body, check_method};
use std::alloc::Global;
use syntax_tree::{Expr, Stmt};

/// A recorder `R` with a method `m(p)`.
fn names_of_one(alloc: Global) -> Result<Names, Memory> {
    let mut params = Seq::new(alloc);
    params.push(Text::of(alloc, "p")?)?;
    let mut methods = Seq::new(alloc);
    methods.push(MethodSig {
        name: Text::of(alloc, "m")?,
        params,
    })?;
    let mut recorders = Seq::new(alloc);
    recorders.push(RecorderDecl {
        name: Text::of(alloc, "R")?,
        fields: Seq::new(alloc),
        statics: Seq::new(alloc),
        methods,
    })?;
    Ok(Names {
        items: Seq::new(alloc),
        beans: Seq::new(alloc),
        recorders,
    })
}

fn step_of(alloc: Global) -> Result<StepDecl, Memory> {
    Ok(StepDecl {
        ext: Text::of(alloc, "e")?,
        name: Text::of(alloc, "s")?,
        consumes: Seq::new(alloc),
        produces: Seq::new(alloc),
        phase: None,
        active: true,
    })
}

/// `fail p;`
fn fails_with_p(alloc: Global) -> Result<Seq<Stmt>, Memory> {
    let mut stmts = Seq::new(alloc);
    stmts.push(Stmt::FailWith {
        at: 0,
        value: Expr::Name {
            at: 1,
            name: Text::of(alloc, "p")?,
        },
    })?;
    Ok(stmts)
}

#[test]
fn a_parameter_is_in_scope_and_in_a_body_it_is_unknown(rt: HostRuntime) -> Result<(), Memory> {
    let names = names_of_one(rt.alloc())?;
    let decl = step_of(rt.alloc())?;
    let stmts = fails_with_p(rt.alloc())?;
    let in_method = check_method(rt.alloc(), &names, 0, 0, stmts.as_slice());
    assert!(rt; matches!(in_method, Ok(())));
    let in_body = check_body(rt.alloc(), &names, &decl, stmts.as_slice());
    assert!(rt; matches!(in_body, Err(NameFault::Wrong(Wrong::Unknown { at: 1 }))));
    Ok(())
}
