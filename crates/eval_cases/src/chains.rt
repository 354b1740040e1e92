// A long chain of fields on a thread of its own.

use crate::given::{fails, outcome};
use crate::trees::{failing, fields, one};
use item_types::Memory;
use std::alloc::Global;
use std::test::Fail;
use std::thread;
use step_eval::Reason;
use syntax_tree::Expr;

/// Whether `fail null.f.f..;`, with 20,000 fields, fails at its first field.
fn fails_at_its_first_field(alloc: Global) -> Result<bool, Memory> {
    let chain = fields(alloc, Expr::Null { at: 1 }, "f", 2, 20_000)?;
    let found = outcome(alloc, one(alloc, failing(chain))?)?;
    Ok(fails(&found, Reason::Kind { at: 2 }))
}

#[test]
fn a_long_chain_fits_a_threads_stack(rt: HostRuntime) -> Result<(), Fail> {
    let alloc = rt.alloc();
    let child = thread::spawn(&rt, move || fails_at_its_first_field(alloc))?;
    let found = child.join(&rt)?;
    assert!(rt; found);
    Ok(())
}
