//! Augments an application's extensions: the program.
//!
//! It does what [`quarkus_cli::top`] does with the words after its name, over real files and
//! standard output, and ends with the status.
#![tactic(auto)]

use aug_base::{FileShelf, NoGate, StdSink};
use std::alloc::{AllocError, Global};
use std::env;
use std::io::ErrorKind;
use std::process::ExitCode;
use std::rt::Env;

/// The status of want of memory.
const NO_MEMORY: u8 = 8;

/// The words after the program's name. Where one of them isn't text there are none, so that the
/// command line has no form.
///
/// # Errors
/// `AllocError` for want of memory.
fn words_after_name<R: Env + AllocGlobal>(rt: &R) -> Result<Vec<String>, AllocError> {
    let mut words = Vec::new(rt.alloc());
    let args = match env::args(rt) {
        Ok(args) => args,
        Err(error) => {
            return if error.kind() == ErrorKind::OutOfMemory {
                Err(AllocError)
            } else {
                Ok(words)
            };
        }
    };
    for word in args.skip(1) {
        words.push(word)?;
    }
    Ok(words)
}

fn main(rt: HostRuntime) -> ExitCode {
    let alloc: Global = rt.alloc();
    let words = match words_after_name(&rt) {
        Ok(words) => words,
        Err(_) => return ExitCode::from(NO_MEMORY),
    };
    let mut shelf = FileShelf::new(rt);
    let mut sink = StdSink::new(rt);
    let status = quarkus_cli::top(&rt, alloc, words.as_slice(), &mut shelf, &mut sink, &NoGate);
    ExitCode::from(status)
}
