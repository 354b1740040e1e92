// Long chains and deep brackets, on the main thread and on one of its own.

use crate::texts::{reads_and_prints, repeated};
use item_types::Memory;
use std::alloc::Global;
use std::test::Fail;
use std::thread;

/// Whether `fail null.f.f..;`, with 20,000 fields, is printed as it is read.
fn long_chain(alloc: Global) -> Result<bool, Memory> {
    let text = repeated(alloc, "fail null", ".f", 20_000, ";")?;
    reads_and_prints(alloc, text.as_str())
}

/// What stands before, around and behind 63 forms of a kind in one another; the 64th stands in the
/// text before and the text behind.
const KINDS: [(&str, &str, &str, &str, &str); 6] = [
    ("fail(", "(", "null", ")", ");"),
    ("fail [", "[", "", "]", "];"),
    ("fail new B { f: ", "new B { f: ", "null", " }", " };"),
    ("if null {", " if null {", "", " }", " }"),
    ("fail !", "!", "null", "", ";"),
    ("fail len ", "len ", "null", "", ";"),
];

/// Whether 64 forms of each kind in one another are printed as they are read.
fn deep_forms(alloc: Global) -> Result<bool, Memory> {
    for (before, opening, inner, closing, after) in KINDS {
        let front = repeated(alloc, before, opening, 63, inner)?;
        let text = repeated(alloc, front.as_str(), closing, 63, after)?;
        if !reads_and_prints(alloc, text.as_str())? {
            return Ok(false);
        }
    }
    Ok(true)
}

#[test]
fn a_long_chain_and_deep_forms_fit_the_stack(rt: HostRuntime) -> Result<(), Fail> {
    assert!(rt; long_chain(rt.alloc())?);
    assert!(rt; deep_forms(rt.alloc())?);
    Ok(())
}

#[test]
fn they_fit_a_threads_stack(rt: HostRuntime) -> Result<(), Fail> {
    let alloc = rt.alloc();
    let chain = thread::spawn(&rt, move || long_chain(alloc))?;
    let found = chain.join(&rt)?;
    assert!(rt; found);
    let forms = thread::spawn(&rt, move || deep_forms(alloc))?;
    let found = forms.join(&rt)?;
    assert!(rt; found);
    Ok(())
}
