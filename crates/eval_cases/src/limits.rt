// The limits of an evaluation, from both sides.

use crate::given::{ends, fails, outcome, outcome_of};
use crate::trees::{bind, nested, nulls, one, sum, text};
use item_types::{Memory, Seq, Value};
use std::alloc::Global;
use std::test::Fail;
use step_eval::{Outcome, Reason};
use syntax_tree::Expr;

/// The outcome of `let a = e;`.
fn binding(alloc: Global, value: Expr) -> Result<Outcome, Memory> {
    let stmt = bind(alloc, "a", value)?;
    let stmts = one(alloc, stmt)?;
    outcome(alloc, stmts)
}

#[test]
fn a_value_has_a_depth_of_64(rt: HostRuntime) -> Result<(), Fail> {
    assert!(rt; ends(&binding(rt.alloc(), nested(rt.alloc(), 63)?)?));
    let found = binding(rt.alloc(), nested(rt.alloc(), 64)?)?;
    assert!(rt; fails(&found, Reason::TooDeep { at: 1 }));
    Ok(())
}

// A list of n nulls counts n cells for its parts, and then n + 1.
#[test]
fn a_step_makes_65_536_cells(rt: HostRuntime) -> Result<(), Fail> {
    assert!(rt; ends(&binding(rt.alloc(), nulls(rt.alloc(), 1, 32_767)?)?));
    let found = binding(rt.alloc(), nulls(rt.alloc(), 1, 32_768)?)?;
    assert!(rt; fails(&found, Reason::TooManyCells));
    Ok(())
}

/// The outcome of `let a = t;`, t a text of so many letters.
fn literal(alloc: Global, count: usize) -> Result<Outcome, Memory> {
    let letters = "x".repeat(alloc, count)?;
    binding(alloc, text(alloc, 1, letters.as_str())?)
}

/// The outcome of `let a = s + t;`, s and t texts of so many letters.
fn join(alloc: Global, first: usize, second: usize) -> Result<Outcome, Memory> {
    let letters = "x".repeat(alloc, first)?;
    let others = "x".repeat(alloc, second)?;
    let a = text(alloc, 1, letters.as_str())?;
    let b = text(alloc, 3, others.as_str())?;
    binding(alloc, sum(alloc, a, 2, b)?)
}

#[test]
fn a_literal_has_65_535_bytes(rt: HostRuntime) -> Result<(), Fail> {
    assert!(rt; ends(&literal(rt.alloc(), 65_535)?));
    assert!(rt; fails(&literal(rt.alloc(), 65_536)?, Reason::TextTooLong));
    Ok(())
}

#[test]
fn a_join_has_65_535_bytes(rt: HostRuntime) -> Result<(), Fail> {
    assert!(rt; ends(&join(rt.alloc(), 32_768, 32_767)?));
    assert!(rt; fails(&join(rt.alloc(), 32_768, 32_768)?, Reason::TextTooLong));
    Ok(())
}

/// The outcome of an empty body where so many nulls were taken.
fn taking(alloc: Global, count: u32) -> Result<Outcome, Memory> {
    let mut taken = Seq::new(alloc);
    for _i in 0..count {
        taken.push(Value::Null)?;
    }
    outcome_of(alloc, taken, Seq::new(alloc))
}

#[test]
fn a_step_takes_16_384_cells(rt: HostRuntime) -> Result<(), Fail> {
    assert!(rt; ends(&taking(rt.alloc(), 16_384)?));
    assert!(rt; fails(&taking(rt.alloc(), 16_385)?, Reason::TooManyTaken(0)));
    Ok(())
}

/// The outcome of 32 bindings of a text of 32,768 letters, and one of `last`.
fn texts(alloc: Global, last: &str) -> Result<Outcome, Memory> {
    let letters = "x".repeat(alloc, 32_768)?;
    let mut stmts = Seq::new(alloc);
    for _i in 0..32 {
        let value = text(alloc, 1, letters.as_str())?;
        stmts.push(bind(alloc, "a", value)?)?;
    }
    let value = text(alloc, 1, last)?;
    stmts.push(bind(alloc, "a", value)?)?;
    outcome(alloc, stmts)
}

#[test]
fn a_step_makes_1_048_576_bytes_of_text(rt: HostRuntime) -> Result<(), Fail> {
    assert!(rt; ends(&texts(rt.alloc(), "")?));
    assert!(rt; fails(&texts(rt.alloc(), "x")?, Reason::TooMuchText));
    Ok(())
}
