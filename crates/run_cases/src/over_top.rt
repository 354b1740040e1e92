use crate::meet::Meet;
use crate::overlap::{FORK, FOUR, TWO};
use crate::shapes::WEB;
use aug_base::{MemShelf, MemSink};
use item_types::{Memory, Seq, Text};
use quarkus_cli::top;
use std::alloc::Global;
use std::sync::Wait;
use std::thread::Threads;

/// The words of a build by so many workers.
fn build_words(alloc: Global, workers: &str) -> Result<Vec<String>, Memory> {
    let mut words = Vec::new(alloc);
    for word in ["build", "app.toml", "o", "--workers", workers] {
        if words.push(Text::of(alloc, word)?.into_string()).is_err() {
            return Err(Memory);
        }
    }
    Ok(words)
}

/// A shelf that holds the text as `app.toml`.
fn shelf_of(alloc: Global, text: &str) -> Result<MemShelf, Memory> {
    let bytes = Seq::from_vec(Vec::from_slice(alloc, text.as_bytes())?);
    let mut files = Seq::new(alloc);
    files.push((Text::of(alloc, "app.toml")?, bytes))?;
    Ok(MemShelf::new(alloc, files, Seq::new(alloc)))
}

/// Whether a build of the file by so many workers is done, runs each step once, and has the pauses
/// see all that they look at.
fn build_meets<R: Threads + Wait + Sync>(
    rt: &R,
    alloc: Global,
    text: &str,
    workers: (&str, u32),
    others: &'static [&'static [u32]],
) -> Result<bool, Memory> {
    let words = build_words(alloc, workers.0)?;
    let gate = Meet::new(alloc, workers.1, others.len(), others)?;
    let mut shelf = shelf_of(alloc, text)?;
    let mut sink = MemSink::new(alloc, 4096, Seq::new(alloc));
    let status = top(rt, alloc, words.as_slice(), &mut shelf, &mut sink, &gate);
    Ok(status == 0 && gate.saw_all(others.len()))
}

#[test]
fn two_workers_build_side_by_side(rt: HostRuntime) -> Result<(), Memory> {
    assert!(&rt; build_meets(&rt, rt.alloc(), TWO, ("2", 2), &[&[1], &[0]])?);
    Ok(())
}

#[test]
fn four_workers_build_side_by_side(rt: HostRuntime) -> Result<(), Memory> {
    let others: &[&[u32]] = &[&[1, 2, 3], &[0, 2, 3], &[0, 1, 3], &[0, 1, 2]];
    assert!(&rt; build_meets(&rt, rt.alloc(), FOUR, ("4", 4), others)?);
    Ok(())
}

#[test]
fn two_workers_build_side_by_side_once_they_may(rt: HostRuntime) -> Result<(), Memory> {
    assert!(&rt; build_meets(&rt, rt.alloc(), FORK, ("2", 2), &[&[], &[2], &[1]])?);
    Ok(())
}

#[test]
fn four_workers_pause_once_for_each_needed_step(rt: HostRuntime) -> Result<(), Memory> {
    let others: &[&[u32]] = &[&[], &[], &[], &[], &[], &[], &[]];
    assert!(&rt; build_meets(&rt, rt.alloc(), WEB, ("4", 4), others)?);
    Ok(())
}
