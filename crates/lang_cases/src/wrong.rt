// Bodies with a fault, and the fault of each.

use crate::declared::{names, step};
use item_types::Memory;
use std::alloc::Global;
use std::test::Fail;
use step_lang::{LangFault, parse_body};

const ROWS: [(&str, LangFault); 16] = [
    ("produce T(1", LangFault::Syntax { at: 4 }),
    ("produce T(&);", LangFault::Token { at: 3 }),
    ("produce T(get U);", LangFault::Undeclared { at: 4 }),
    ("fail y;", LangFault::Unknown { at: 1 }),
    ("let x = x;", LangFault::Unknown { at: 3 }),
    (
        "if true { let a = 1; } produce T(a);",
        LangFault::Unknown { at: 12 },
    ),
    (
        "if true { let x = 1; } fail x;",
        LangFault::Unknown { at: 10 },
    ),
    ("produce X(1);", LangFault::Unknown { at: 1 }),
    ("produce U(1);", LangFault::Undeclared { at: 1 }),
    ("fail new C{};", LangFault::Unknown { at: 2 }),
    ("fail new B{};", LangFault::Undeclared { at: 2 }),
    ("fail new B{f: 1, g: 2};", LangFault::Unknown { at: 8 }),
    ("fail new B{f: 1, f: 2};", LangFault::Undeclared { at: 8 }),
    ("call S.n();", LangFault::Unknown { at: 1 }),
    ("call R.n(1);", LangFault::Unknown { at: 3 }),
    ("call R.m(y, y);", LangFault::Undeclared { at: 3 }),
];

/// Whether a text has this fault.
fn is_refused(alloc: Global, text: &str, fault: LangFault) -> Result<bool, Memory> {
    let names = names(alloc)?;
    let decl = step(alloc, &[])?;
    if text.len() > 65535 {
        return Ok(false);
    }
    match parse_body(alloc, text, &names, &decl) {
        Ok(_) => Ok(false),
        Err(LangFault::Memory) => Err(Memory),
        Err(found) => Ok(found == fault),
    }
}

#[test]
fn each_fault_is_at_its_token(rt: HostRuntime) -> Result<(), Fail> {
    for (text, fault) in ROWS {
        assert!(rt; is_refused(rt.alloc(), text, fault)?, "{text}");
    }
    Ok(())
}
