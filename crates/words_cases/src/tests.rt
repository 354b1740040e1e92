use clap::error::ErrorKind;
use clap::{Arg, ArgMatches, Command, value_parser};
use command_words::{WordsErr, read_words};
use std::alloc::Global;
use std::test::Fail;

/// The form of a command as `clap` describes one.
fn form<'a>(alloc: Global, name: &'a str) -> Result<Command<'a>, clap::Error> {
    let file = Arg::new(alloc, "file").required(true);
    let command = Command::new(alloc, name).arg(file)?;
    if name != "build" {
        return Ok(command);
    }
    let out = Arg::new(alloc, "out").required(true);
    let workers = Arg::new(alloc, "workers")
        .long("workers")
        .value_parser(value_parser!(u32).range(1..=64))
        .default_value("1");
    Ok(command.arg(out)?.arg(workers)?)
}

fn has_same(command: &command_words::Command, matches: &ArgMatches<'_>) -> bool {
    match command {
        command_words::Command::Plan { file } | command_words::Command::Dump { file } => {
            matches.get_str("file") == Some(file.as_str())
        }
        command_words::Command::Build { file, out, workers } => {
            matches.get_str("file") == Some(file.as_str())
                && matches.get_str("out") == Some(out.as_str())
                && matches.get_one::<u32>("workers") == Some(*workers)
        }
    }
}

/// Whether both readers accept the words, with the same values; `None` where they differ.
fn both_accept(alloc: Global, words: &'static [&'static str]) -> Result<Option<bool>, Fail> {
    let mut list = Vec::new(alloc);
    for word in words {
        list.push(String::from_str(alloc, word)?)?;
    }
    let Some(name) = words.first() else {
        return Ok(None);
    };
    let ours = read_words(alloc, list.as_slice());
    let theirs = form(alloc, name)?.try_get_matches_from(words);
    Ok(match (&ours, &theirs) {
        (Ok(command), Ok(matches)) => has_same(command, matches).then_some(true),
        (Err(WordsErr::Refused), Err(error)) => {
            (error.kind() != ErrorKind::OutOfMemory).then_some(false)
        }
        _ => None,
    })
}

/// Words, and whether they have a form.
static LISTS: [(&[&str], bool); 30] = [
    (&["plan", "app.toml"], true),
    (&["dump", "Main.class"], true),
    (&["plan", "-"], true),
    (&["plan", "--", "-x"], true),
    (&["plan"], false),
    (&["plan", "a", "b"], false),
    (&["plan", "-x"], false),
    (&["plan", "--workers", "2", "a"], false),
    (&["dump", "--workers=2", "a"], false),
    (&["build", "f", "o"], true),
    (&["build", "--workers", "2", "f", "o"], true),
    (&["build", "f", "--workers", "2", "o"], true),
    (&["build", "f", "o", "--workers", "64"], true),
    (&["build", "f", "--workers=2", "o"], true),
    (&["build", "--workers=2", "f", "--", "-o"], true),
    (&["build", "--", "--workers", "o"], true),
    (&["build", "f", "--", "--"], true),
    (&["build", "--workers", "1", "--", "f", "o"], true),
    (&["build", "f"], false),
    (&["build", "f", "o", "p"], false),
    (&["build", "f", "o", "--workers", "0"], false),
    (&["build", "f", "o", "--workers", "65"], false),
    (&["build", "f", "o", "--workers", "two"], false),
    (&["build", "f", "o", "--workers", "4294967297"], false),
    (&["build", "f", "o", "--workers"], false),
    (&["build", "f", "o", "--workers="], false),
    (&["build", "f", "--workers", "--", "o"], false),
    (
        &["build", "f", "o", "--workers", "2", "--workers", "2"],
        false,
    ),
    (&["build", "f", "o", "--worker", "2"], false),
    (&["build", "--help"], false),
];

#[test]
fn both_readers_agree(rt: HostRuntime) -> Result<(), Fail> {
    for (words, accepted) in LISTS {
        assert_eq!(rt; both_accept(rt.alloc(), words)?, Some(accepted));
    }
    Ok(())
}
