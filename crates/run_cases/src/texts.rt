use crate::jobs::{TWO_PRODUCERS, job_of};
use build_history::{Job, reason_text};
use item_types::{Memory, Phase, Proxy, Text};
use std::alloc::Global;
use step_eval::Reason;

/// The words of each reason, in the order of `reason_at`, where item 0 is `M`.
const WORDS: [&str; 14] = [
    "\"no\\n\"",
    "kind at 4",
    "proxy used at 14",
    "item M twice",
    "item M without key",
    "runtime proxy @3.1.runtime in a static step",
    "value too deep at 87",
    "too much taken of M",
    "too many turns",
    "too many cells",
    "too much text",
    "text too long",
    "too much put",
    "too many recorded",
];

/// Each reason once.
fn reason_at(alloc: Global, place: usize) -> Result<Reason, Memory> {
    Ok(match place {
        0 => Reason::Said(Text::of(alloc, "no\n")?),
        1 => Reason::Kind { at: 4 },
        2 => Reason::ProxyUsed { at: 14 },
        3 => Reason::Twice(0),
        4 => Reason::NoKey(0),
        5 => Reason::RuntimeInStatic(Proxy {
            step: 3,
            call: 1,
            phase: Phase::Runtime,
        }),
        6 => Reason::TooDeep { at: 87 },
        7 => Reason::TooManyTaken(0),
        8 => Reason::TooManyTurns,
        9 => Reason::TooManyCells,
        10 => Reason::TooMuchText,
        11 => Reason::TextTooLong,
        12 => Reason::TooManyPut,
        _ => Reason::TooManyRecorded,
    })
}

/// Whether the reason at the place has these words.
fn is_said(alloc: Global, job: &Job, place: usize, words: &str) -> Result<bool, Memory> {
    let reason = reason_at(alloc, place)?;
    let text = reason_text(alloc, &reason, job.names())?;
    Ok(text.as_str() == words)
}

/// Whether each reason has its words.
fn are_said(alloc: Global) -> Result<bool, Memory> {
    let job = job_of(alloc, TWO_PRODUCERS)?;
    let mut all = true;
    for (place, words) in WORDS.iter().enumerate() {
        all = all && is_said(alloc, &job, place, words)?;
    }
    Ok(all)
}

#[test]
fn each_reason_has_its_words(rt: HostRuntime) -> Result<(), Memory> {
    assert!(&rt; are_said(rt.alloc())?);
    Ok(())
}
