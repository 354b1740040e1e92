// Each reason for which a body fails, but for the limits.

use crate::given::{fails, outcome, outcome_of};
use crate::trees::{both, call, failing, fields, one, produce, sum, text, two};
use item_types::{Memory, Phase, Proxy, Seq, Text, Value};
use std::alloc::Global;
use std::test::Fail;
use step_eval::{Outcome, Reason};
use syntax_tree::{Expr, Stmt};

/// The outcome of `fail e;`.
fn failure(alloc: Global, value: Expr) -> Result<Outcome, Memory> {
    let stmts = one(alloc, failing(value))?;
    outcome(alloc, stmts)
}

/// `null`, as the token 1
fn null() -> Expr {
    Expr::Null { at: 1 }
}

// `fail null + null;`, `fail null && null;`, `fail null.f;`, `fail null;`
#[test]
fn an_operation_fails_at_its_token(rt: HostRuntime) -> Result<(), Fail> {
    let found = failure(rt.alloc(), sum(rt.alloc(), null(), 2, null())?)?;
    assert!(rt; fails(&found, Reason::Kind { at: 2 }));
    let found = failure(rt.alloc(), both(rt.alloc(), null(), 2, null())?)?;
    assert!(rt; fails(&found, Reason::Kind { at: 2 }));
    let found = failure(rt.alloc(), fields(rt.alloc(), null(), "f", 2, 1)?)?;
    assert!(rt; fails(&found, Reason::Kind { at: 2 }));
    let found = failure(rt.alloc(), null())?;
    assert!(rt; fails(&found, Reason::Kind { at: 0 }));
    Ok(())
}

/// The outcome of `produce T(null);`, that many times.
fn producing(alloc: Global, item: u32, times: u32) -> Result<Outcome, Memory> {
    let mut stmts = Seq::new(alloc);
    for _i in 0..times {
        stmts.push(produce(item, null()))?;
    }
    outcome(alloc, stmts)
}

// `fail "no";`, `produce S(null); produce S(null);`, `produce O(null);`
#[test]
fn a_step_says_why_it_fails(rt: HostRuntime) -> Result<(), Fail> {
    let said = failure(rt.alloc(), text(rt.alloc(), 1, "no")?)?;
    assert!(rt; fails(&said, Reason::Said(Text::of(rt.alloc(), "no")?)));
    let twice = producing(rt.alloc(), 0, 2)?;
    assert!(rt; fails(&twice, Reason::Twice(0)));
    let no_key = producing(rt.alloc(), 1, 1)?;
    assert!(rt; fails(&no_key, Reason::NoKey(1)));
    Ok(())
}

/// `@0.0.runtime`
fn proxy() -> Proxy {
    Proxy {
        step: 0,
        call: 0,
        phase: Phase::Runtime,
    }
}

/// `get S`
fn taken() -> Expr {
    Expr::Get { at: 1, item: 0 }
}

/// The outcome of the statement where the proxy was taken.
fn with_proxy(alloc: Global, stmt: Stmt) -> Result<Outcome, Memory> {
    let stmts = one(alloc, stmt)?;
    let inputs = one(alloc, Value::Returned(proxy()))?;
    outcome_of(alloc, inputs, stmts)
}

// `call R.m([get S]);`, `fail get S + null;`
#[test]
fn a_proxy_is_handed_on_by_its_phase_and_never_an_operand(rt: HostRuntime) -> Result<(), Fail> {
    let parts = one(rt.alloc(), taken())?;
    let args = one(rt.alloc(), Expr::ListOf { at: 1, parts })?;
    let found = with_proxy(rt.alloc(), Stmt::CallOf { call: call(args) })?;
    assert!(rt; fails(&found, Reason::RuntimeInStatic(proxy())));
    let value = sum(rt.alloc(), taken(), 3, null())?;
    let found = with_proxy(rt.alloc(), failing(value))?;
    assert!(rt; fails(&found, Reason::ProxyUsed { at: 3 }));
    Ok(())
}
