ghost use Rattle.std.specs.Prelude.{map, string_bytes};
ghost use Rattle.command_words.specs.Words.{HasWorkers};
ghost use Rattle.quarkus_cli.specs.Answers.{AnswersCommand, AnswersWords, outside};

use crate::build::build_together;
use crate::delivery::deliver_parts;
use crate::dump::dump_call;
use crate::plan::plan_call;
use crate::status::{NO_MEMORY, REFUSED};
use crate::{Command, WordsErr, read_words};
use aug_base::{Gate, Shelf, Sink};
use std::alloc::Global;
use std::sync::Wait;
use std::thread::Threads;

/// How the program is used.
const USAGE: &str =
    "usage: plan FILE | build FILE OUT [--workers N] | start FILE OUT | run FILE OUT [--workers N] | dump FILE | gen N [--workers W] | check FILE OUT | verify FILE OUT | compile FILE OUT\n";

/// Does all that the program does: reads the words after the program's name, does the command that
/// they spell over this shelf and sink, and answers the status.
///
/// 0: done. 1: the words have no form; the usage line. 2: the file's bytes are no project. 3: the
/// chain has a fault. 4: a step failed. 6: a file isn't there, or a read failed. 7: a write or a put failed. 8: want
/// of memory. 9: a class file's bytes are no class. `gate` is where workers may be held up.
pub fn top<R: Threads + Wait + Sync, S: Shelf, K: Sink, G: Gate + Sync>(
    rt: &R,
    alloc: Global,
    words: &[String],
    shelf: &mut S,
    sink: &mut K,
    gate: &G,
) -> u8
    ensures answers { AnswersWords (map string_bytes words.now) (outside (S.state shelf.old) (K.state sink.old)) (outside (S.state shelf.new) (K.state sink.new)) result }
{
    match read_words(alloc, words) {
        Ok(command) => dispatch(rt, alloc, &command, shelf, sink, gate),
        Err(WordsErr::Refused) => deliver_parts(REFUSED, USAGE, &[], shelf, sink),
        Err(WordsErr::Memory) => NO_MEMORY,
    }
}

/// Does a command.
fn dispatch<R: Threads + Wait + Sync, S: Shelf, K: Sink, G: Gate + Sync>(
    rt: &R,
    alloc: Global,
    command: &Command,
    shelf: &mut S,
    sink: &mut K,
    gate: &G,
) -> u8
    requires { HasWorkers command.now }
    ensures { AnswersCommand command.now (outside (S.state shelf.old) (K.state sink.old)) (outside (S.state shelf.new) (K.state sink.new)) result }
{
    match command {
        Command::Plan { file } => plan_call(alloc, file.as_str(), shelf, sink),
        Command::Build { file, out, workers } => {
            build_together(
                rt,
                alloc,
                file.as_str(),
                out.as_str(),
                *workers,
                shelf,
                sink,
                gate,
            )
        }
        Command::Dump { file } => dump_call(alloc, file.as_str(), shelf, sink),
    }
}
