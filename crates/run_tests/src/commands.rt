//! What a command gives over an input, and what it is to give.
use crate::sources::whole;
use reg_commands::{Command, OverText, run_command};
use std::alloc::Global;
use std::io::Read;

/// What a command gives: its status, its output, and the lines of its faults.
#[derive(Clone, Copy)]
pub(crate) enum Given<'a> {
    /// This output, the status 0, and no fault.
    Accepted(&'a str),
    /// These verdicts, of which one is a no, the status 1, and no fault.
    Denied(&'a str),
    /// The line of this fault, the status 1, and no output.
    Refused(&'a str),
}

/// Whether what a command did is this: its status, what it wrote and the faults that it told.
pub(crate) fn is_given(done: (u8, &[u8], &[u8]), given: Given<'_>) -> bool {
    let (status, output, faults) = match given {
        Given::Accepted(output) => (0, output, ""),
        Given::Denied(verdicts) => (1, verdicts, ""),
        Given::Refused(line) => (1, "", line),
    };
    done == (status, output.as_bytes(), faults.as_bytes())
}

/// Whether a command gives this where it reads from this reader.
pub(crate) fn gives_from<R: Read>(
    alloc: Global,
    command: Command,
    reader: &mut R,
    given: Given<'_>,
) -> bool {
    let mut output = Vec::new(alloc);
    let mut errors = Vec::new(alloc);
    let global = alloc;
    let command = OverText { command, global };
    let status = run_command(command, alloc, reader, &mut output, &mut errors);
    is_given((status, output.as_slice(), errors.as_slice()), given)
}

/// Whether a command gives this over the two parts of an input.
pub(crate) fn gives(
    alloc: Global,
    command: Command,
    parts: (&str, &str),
    given: Given<'_>,
) -> bool {
    let (head, tail) = parts;
    let mut reader = whole(head.as_bytes(), tail.as_bytes());
    gives_from(alloc, command, &mut reader, given)
}
