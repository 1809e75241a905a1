//! Which command lines of `awreg` are taken, and how a refused one is told.
use crate::lines::words_of;
use crate::values::over_text;
use reg_cli::{Asked, Command, WordsFault, choose, refuse};
use std::alloc::Global;
use std::process::Abort;

/// Whether the words of a line ask for this.
fn asks(rt: &impl Abort, alloc: Global, line: &str, asked: Result<Asked, WordsFault>) -> bool {
    let words = words_of(rt, alloc, "awreg", line);
    choose(alloc, words.as_slice()) == asked
}

const OVER_TEXTS: [(&str, Command); 4] = [
    ("replay", Command::Replay),
    ("check", Command::Check),
    ("play", Command::Play { fair: false }),
    ("play --fair", Command::Play { fair: true }),
];

const REFUSED: [&str; 34] = [
    "",
    "help",
    "help replay",
    "-h",
    "--help",
    "-V",
    "--version",
    "--",
    "replay --",
    "-- replay",
    "replay check",
    "replay replay",
    "rep",
    "Replay",
    "replay -V",
    "replay --help",
    "replay help",
    "replay -",
    "-",
    "check x",
    "--fair",
    "--fair play",
    "replay --fair",
    "play fair",
    "play --fai",
    "play --fair --fair",
    "play --fair=true",
    "play --fair true",
    "play -f",
    "play --",
    "play --help",
    "live x",
    "live --fair",
    "live --",
];

#[test]
fn exactly_the_command_lines_are_taken(rt: HostRuntime) {
    for (line, command) in &OVER_TEXTS {
        assert!(rt;
            asks(&rt, rt.alloc(), line, Ok(over_text(*command))),
            "{line}"
        );
    }
    assert!(rt; asks(&rt, rt.alloc(), "live", Ok(Asked::Live)));
    for line in &REFUSED {
        assert!(rt;
            asks(&rt, rt.alloc(), line, Err(WordsFault::CommandLine)),
            "{line}"
        );
    }
}

/// Whether a refusal has this line and status.
fn is_told(alloc: Global, fault: WordsFault, line: &str, status: u8) -> bool {
    let mut errors = Vec::new(alloc);
    refuse(fault, &mut errors) == status && errors.as_slice() == line.as_bytes()
}

#[test]
fn refusals_are_told(rt: HostRuntime) {
    let table = [
        (WordsFault::CommandLine, "command line\n", 2),
        (WordsFault::OutOfMemory, "out of memory\n", 1),
    ];
    for (fault, line, status) in table {
        assert!(rt; is_told(rt.alloc(), fault, line, status));
    }
}
