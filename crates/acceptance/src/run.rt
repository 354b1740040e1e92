use aug_base::{MemShelf, MemSink, NoGate};
use item_types::{Bytes, Memory, Seq, Text};
use quarkus_cli::top;
use std::alloc::Global;
use std::sync::Wait;
use std::thread::Threads;

/// What a command line came to.
#[derive(Drop)]
pub struct Ended {
    pub status: u8,
    pub shelf: MemShelf,
    pub sink: MemSink,
}

/// The words of a command line.
fn words_of(alloc: Global, words: &[&str]) -> Result<Vec<String>, Memory> {
    let mut list = Vec::new(alloc);
    for word in words {
        let word = Text::of(alloc, word)?.into_string();
        match list.push(word) {
            Ok(()) => {}
            Err(_) => return Err(Memory),
        }
    }
    Ok(list)
}

/// The numbers of the calls that fail.
pub fn numbers(alloc: Global, numbers: &[u64]) -> Result<Seq<u64>, Memory> {
    Ok(Seq::from_vec(Vec::from_slice(alloc, numbers)?))
}

/// Runs the program over a shelf that holds these bytes as `app.toml`.
pub fn run<R: Threads + Wait + Sync + AllocGlobal>(
    rt: &R,
    file: &[u8],
    words: &[&str],
    shelf_fails: &[u64],
    mut sink: MemSink,
) -> Result<Ended, Memory> {
    let alloc = rt.alloc();
    let bytes: Bytes = Seq::from_vec(Vec::from_slice(alloc, file)?);
    let mut files = Seq::new(alloc);
    files.push((Text::of(alloc, "app.toml")?, bytes))?;
    let mut shelf = MemShelf::new(alloc, files, numbers(alloc, shelf_fails)?);
    let words = words_of(alloc, words)?;
    let status = top(rt, alloc, words.as_slice(), &mut shelf, &mut sink, &NoGate);
    Ok(Ended {
        status,
        shelf,
        sink,
    })
}

/// Runs the words over a shelf and a sink that never fail.
pub fn run_well<R: Threads + Wait + Sync + AllocGlobal>(
    rt: &R,
    file: &[u8],
    words: &[&str],
) -> Result<Ended, Memory> {
    let sink = MemSink::new(rt.alloc(), 4096, Seq::new(rt.alloc()));
    run(rt, file, words, &[], sink)
}
