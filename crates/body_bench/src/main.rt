//! Reads, prints or evaluates a body again and again, so that the time of once can be told: the
//! words are what is done, how many times, and the file that has the body. It prints what the
//! last time came to.
#![tactic(auto)]

mod declared;
mod work;

use anyhow::Context;
use std::{env, fs};
use work::Work;

fn main(rt: HostRuntime) -> anyhow::Result<()> {
    let mut words = env::args(&rt)?.skip(1);
    let word = words.next().context("what is to be done?")?;
    let work = Work::named(word.as_str()).context("read, print or evaluate")?;
    let count = words.next().context("how many times?")?;
    let times = count.as_str().parse::<u32>()?;
    let file = words.next().context("which file?")?;
    let text = fs::read_to_string(&rt, file.as_str())?;
    let line = work::line(rt.alloc(), work, times, text.as_str())?;
    println!(rt; "{line}")?;
    Ok(())
}
