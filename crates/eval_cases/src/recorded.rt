// What a step produces and records.

use crate::given::{ends, fails, outcome};
use crate::trees::{bind, call, for_each, nulls, one, produce, two, variable};
use item_types::{Memory, Phase, Proxy, Same, Seq, Text, Value};
use recorder_proxy::Call;
use std::alloc::Global;
use std::test::Fail;
use step_eval::{Outcome, Reason};
use syntax_tree::{Expr, Stmt};

/// The outcome of `let x = call R.m(1); produce S(x);`.
fn producing_a_proxy(alloc: Global) -> Result<Outcome, Memory> {
    let args = one(alloc, Expr::Long { at: 8, value: 1 })?;
    let name = Text::of(alloc, "x")?;
    let put = produce(0, variable(alloc, 14, "x")?);
    let record = Stmt::LetCall {
        at: 0,
        name,
        call: call(args),
    };
    let stmts = two(alloc, record, put)?;
    outcome(alloc, stmts)
}

/// The put `@3.0.static` and the call `R.m(1)`, which is kept.
fn proxy_and_call(alloc: Global) -> Result<Outcome, Memory> {
    let proxy = Proxy {
        step: 3,
        call: 0,
        phase: Phase::Static,
    };
    let args = one(alloc, Value::Long(1))?;
    let recorded = Call {
        recorder: 0,
        method: 0,
        args,
        keeps: true,
    };
    let calls = one(alloc, recorded)?;
    let puts = one(alloc, (0, Value::Returned(proxy)))?;
    Ok(Outcome::Done { puts, calls })
}

#[test]
fn a_step_produces_what_it_recorded(rt: HostRuntime) -> Result<(), Fail> {
    let found = producing_a_proxy(rt.alloc())?;
    let wanted = proxy_and_call(rt.alloc())?;
    assert!(rt; found.same(&wanted));
    Ok(())
}

/// `call R.m();`
fn plain_call(alloc: Global) -> Stmt {
    let args: Seq<Expr> = Seq::new(alloc);
    Stmt::CallOf { call: call(args) }
}

/// `for b in n { .. }`
fn over(alloc: Global, name: &str, block: Seq<Stmt>) -> Result<Stmt, Memory> {
    let list = variable(alloc, 3, name)?;
    let element = Text::of(alloc, "b")?;
    Ok(for_each(element, list, block))
}

/// `for b in y { for b in z { call R.m(); } }`
fn calls(alloc: Global) -> Result<Stmt, Memory> {
    let innermost = one(alloc, plain_call(alloc))?;
    let inner = over(alloc, "z", innermost)?;
    let block = one(alloc, inner)?;
    over(alloc, "y", block)
}

/// `let n = [null, ..];`, with so many
fn list(alloc: Global, name: &str, count: u32) -> Result<Stmt, Memory> {
    let value = nulls(alloc, 3, count)?;
    bind(alloc, name, value)
}

/// `let y = Y; let z = Z; for b in y { for b in z { call R.m(); } }`, Y and Z the lists of 64 and
/// 128 times `null`
fn many_calls(alloc: Global) -> Result<Seq<Stmt>, Memory> {
    let mut stmts = Seq::new(alloc);
    stmts.push(list(alloc, "y", 64)?)?;
    stmts.push(list(alloc, "z", 128)?)?;
    stmts.push(calls(alloc)?)?;
    Ok(stmts)
}

#[test]
fn a_step_records_8_192_cells(rt: HostRuntime) -> Result<(), Fail> {
    let stmts = many_calls(rt.alloc())?;
    assert!(rt; ends(&outcome(rt.alloc(), stmts)?));
    let mut stmts = many_calls(rt.alloc())?;
    stmts.push(plain_call(rt.alloc()))?;
    assert!(rt; fails(&outcome(rt.alloc(), stmts)?, Reason::TooManyRecorded));
    Ok(())
}

/// The outcome of `produce S(Z);`, Z a list of so many nulls.
fn putting(alloc: Global, count: u32) -> Result<Outcome, Memory> {
    let put = produce(0, nulls(alloc, 3, count)?);
    let stmts = one(alloc, put)?;
    outcome(alloc, stmts)
}

#[test]
fn a_step_puts_4_096_cells(rt: HostRuntime) -> Result<(), Fail> {
    assert!(rt; ends(&putting(rt.alloc(), 4_095)?));
    assert!(rt; fails(&putting(rt.alloc(), 4_096)?, Reason::TooManyPut));
    Ok(())
}
