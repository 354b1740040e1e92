//! Reads each project file of the table on standard input, and prints those that aren't answered as
//! the table says. A file's lines stand above a line with an arrow and the answer: `ok`, the text of
//! the first fault, or the project in one line. Lines above an arrow that stands alone are what each
//! file begins with, up to the next such arrow.
#![tactic(auto)]

mod answer;
mod described;
mod table;

use anyhow::Context;
use std::io::{self, BufRead};
use table::Table;

fn main(rt: HostRuntime) -> anyhow::Result<()> {
    let mut table = Table::new(rt.alloc());
    for line in io::BufReader::new(rt.alloc(), rt.reader())?.lines(rt.alloc()) {
        let line = line?;
        let taken = table.take(rt.alloc(), line.as_str()).ok();
        if let Some(difference) = taken.context("want of memory")? {
            println!(rt; "{difference}")?;
        }
    }
    let files = table.files();
    println!(rt; "{files} files")?;
    Ok(())
}
