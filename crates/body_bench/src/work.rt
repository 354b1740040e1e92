use crate::declared::{declaration, names};
use item_types::{Memory, Names, Seq, StepDecl};
use std::alloc::{AllocError, Global};
use step_eval::{Inputs, Outcome, eval};
use step_lang::{Body, LangFault, parse_body, print_body};

/// The most bytes that a body has.
const LIMIT: usize = 65_535;

/// What is done with a body.
#[derive(Clone, Copy, Debug, PartialEq, Eq)]
pub enum Work {
    /// It is read.
    Read,
    /// It is read once, and then printed.
    Print,
    /// It is read once, and then evaluated.
    Evaluate,
}

impl Work {
    /// The work of that name.
    pub fn named(word: &str) -> Option<Work> {
        match word {
            "read" => Some(Work::Read),
            "print" => Some(Work::Print),
            "evaluate" => Some(Work::Evaluate),
            _ => None,
        }
    }
}

/// What a body may name, and the step that it is of.
#[derive(Drop)]
struct Step {
    names: Names,
    decl: StepDecl,
}

impl Step {
    fn new(alloc: Global) -> Result<Step, Memory> {
        let names = names(alloc)?;
        let decl = declaration(alloc)?;
        Ok(Step { names, decl })
    }

    fn read(&self, alloc: Global, text: &str) -> Result<Body, LangFault> {
        if text.len() > LIMIT {
            return Err(LangFault::Syntax { at: 0 });
        }
        parse_body(alloc, text, &self.names, &self.decl)
    }

    fn read_often(&self, alloc: Global, times: u32, text: &str) -> Result<Body, LangFault> {
        let mut body = self.read(alloc, text)?;
        for _turn in 1..times {
            body = self.read(alloc, text)?;
        }
        Ok(body)
    }

    fn print_often(&self, alloc: Global, times: u32, body: &Body) -> Result<String, Memory> {
        let mut text = print_body(alloc, body, &self.names)?;
        for _turn in 1..times {
            text = print_body(alloc, body, &self.names)?;
        }
        Ok(text)
    }

    fn evaluate(&self, alloc: Global, body: &Body) -> Result<Outcome, Memory> {
        let inputs = Inputs {
            lists: Seq::new(alloc),
        };
        eval(alloc, &self.names, &self.decl, 0, body, &inputs)
    }

    fn evaluate_often(&self, alloc: Global, times: u32, body: &Body) -> Result<Outcome, Memory> {
        let mut outcome = self.evaluate(alloc, body)?;
        for _turn in 1..times {
            outcome = self.evaluate(alloc, body)?;
        }
        Ok(outcome)
    }
}

fn printed(alloc: Global, text: &str) -> Result<String, AllocError> {
    format!(in alloc; "printed: {} bytes", text.len())
}

fn evaluated(alloc: Global, outcome: &Outcome) -> Result<String, AllocError> {
    match outcome {
        Outcome::Done { puts, calls } => {
            format!(in alloc; "evaluated: {} puts, {} calls", puts.len(), calls.len())
        }
        Outcome::Fails(_) => format!(in alloc; "evaluated: it fails"),
    }
}

fn of_body(
    alloc: Global,
    step: &Step,
    work: Work,
    times: u32,
    body: &Body,
) -> Result<String, AllocError> {
    match work {
        Work::Read => format!(in alloc; "read: {} statements", body.stmts.len()),
        Work::Print => match step.print_often(alloc, times, body) {
            Ok(text) => printed(alloc, text.as_str()),
            Err(Memory) => Err(AllocError),
        },
        Work::Evaluate => match step.evaluate_often(alloc, times, body) {
            Ok(outcome) => evaluated(alloc, &outcome),
            Err(Memory) => Err(AllocError),
        },
    }
}

/// What the work comes to, done so many times and at least once.
///
/// # Errors
/// `AllocError` for want of memory.
pub fn line(alloc: Global, work: Work, times: u32, text: &str) -> Result<String, AllocError> {
    let step = match Step::new(alloc) {
        Ok(step) => step,
        Err(Memory) => return Err(AllocError),
    };
    let readings = match work {
        Work::Read => times,
        Work::Print | Work::Evaluate => 1,
    };
    match step.read_often(alloc, readings, text) {
        Ok(body) => of_body(alloc, &step, work, times, &body),
        Err(LangFault::Memory) => Err(AllocError),
        Err(_) => format!(in alloc; "the body is refused"),
    }
}
