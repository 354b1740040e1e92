ghost use Rattle.std.specs.Prelude.{◌≡◌, ◌≤◌, length, codes, IfOk};
ghost use Rattle.class_grammar.specs.FaultText.{fault_text};
ghost use Rattle.quarkus_cli.specs.Answers.{AnswersCommand, outside};
ghost use Rattle.quarkus_cli.specs.Outcomes.{OfClass, OfClassFile, no_class};

use crate::delivery::deliver;
use crate::reading::{CLASS_READ_LIMIT, read_input};
use crate::refusals::{class_refused, said};
use crate::status::{DONE, NO_MEMORY};
use crate::{Command, Outcome};
use aug_base::{Shelf, Sink};
use class_dump::dump;
use class_reader::{CLASS_LIMIT, ClassFault, push_fault, read_class};
use item_types::Memory;
use std::alloc::Global;

/// Does `dump FILE`: reads the class file and prints its dump, or why it is none. It waits for
/// nobody.
pub fn dump_call<S: Shelf, K: Sink>(alloc: Global, file: &str, shelf: &mut S, sink: &mut K) -> u8
    ensures answers { AnswersCommand (Command.Dump file.now) (outside (S.state shelf.old) (K.state sink.old)) (outside (S.state shelf.new) (K.state sink.new)) result }
{
    let bytes = match read_input(alloc, shelf, file, CLASS_READ_LIMIT) {
        Ok(bytes) => bytes,
        Err(status) => return status,
    };
    match dump_outcome(alloc, file, bytes.as_slice()) {
        Ok(outcome) => deliver(&outcome, shelf, sink),
        Err(Memory) => NO_MEMORY,
    }
}

/// What `dump` comes to over the bytes of a file of that name.
fn dump_outcome(alloc: Global, name: &str, bytes: &[u8]) -> Result<Outcome, Memory>
    ensures { IfOk result (λ o. OfClassFile name.now bytes.now o) }
{
    if (CLASS_LIMIT as usize) < bytes.len() {
        return class_refused(alloc, name, "too large");
    }
    dump_class(alloc, name, bytes)
}

/// What it comes to where the file isn't too large.
fn dump_class(alloc: Global, name: &str, bytes: &[u8]) -> Result<Outcome, Memory>
    requires { length bytes.now ≤ CLASS_LIMIT }
    ensures { IfOk result (λ o. OfClass name.now bytes.now o) }
{
    match read_class(alloc, bytes) {
        Ok(class) => {
            let text = dump(alloc, &class)?;
            Ok(said(alloc, DONE, text))
        }
        Err(ClassFault::Memory) => Err(Memory),
        Err(fault) => fault_refused(alloc, name, fault),
    }
}

/// What it comes to where the bytes have this fault.
fn fault_refused(alloc: Global, name: &str, fault: ClassFault) -> Result<Outcome, Memory>
    ensures { IfOk result (λ o. o ≡ no_class name.now (fault_text fault)) }
{
    let mut text = String::new(alloc);
    push_fault(fault, &mut text)?;
    class_refused(alloc, name, text.as_str())
}
