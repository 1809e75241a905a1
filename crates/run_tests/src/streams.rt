//! Inputs read byte by byte, as long as they may be and without end, and memory refused in the midst of a command.
use crate::commands::{Given, gives_from, is_given};
use crate::demands::demand;
use crate::replays::ONE_PROCESS_SCHEDULE;
use crate::report_texts::ONE_PROCESS_NOW;
use crate::sources::{Source, Spaces, whole};
use reg_commands::{Command, OverText, run_command};
use reg_heap::Refusing;
use std::alloc::Global;
use std::process::Abort;

/// How a command ends where an allocation is to be refused.
#[derive(Clone, Copy)]
enum Ending {
    /// It answers as with ample memory, and the refusal is still to come.
    Unrefused,
    /// It answers as with ample memory in spite of the refusal.
    Whole,
    /// It tells that it is out of memory after the refusal, and writes nothing.
    Wants,
    /// It answers otherwise.
    Other,
}

/// How a command ended that did this, where its output in ample memory is this one.
fn ending_of(waits: bool, done: (u8, &[u8], &[u8]), output: &str) -> Ending {
    if is_given(done, Given::Accepted(output)) {
        if waits {
            Ending::Unrefused
        } else {
            Ending::Whole
        }
    } else if !waits && is_given(done, Given::Refused("out of memory\n")) {
        Ending::Wants
    } else {
        Ending::Other
    }
}

/// How a command ends where the allocation after `before` ones is refused.
fn refused_after(
    alloc: Global,
    command: Command,
    input: &str,
    output: &str,
    before: u64,
) -> Ending {
    let heap = Refusing::new(alloc, before);
    let mut reader = input.as_bytes();
    let mut written = Vec::new(alloc);
    let mut errors = Vec::new(alloc);
    let global = alloc;
    let command = OverText { command, global };
    let got = run_command(command, &heap, &mut reader, &mut written, &mut errors);
    let done = (got, written.as_slice(), errors.as_slice());
    ending_of(heap.is_waiting(), done, output)
}

/// How many refusals a command tells where every growth is refused in turn. None where it ends otherwise once, or has
/// no last growth.
fn refusals(alloc: Global, command: Command, input: &str, output: &str) -> Option<u32> {
    let mut count = 0u32;
    for before in 0..1000u64 {
        match refused_after(alloc, command, input, output, before) {
            Ending::Unrefused => return Some(count),
            Ending::Whole => {}
            Ending::Wants => count = count.saturating_add(1),
            Ending::Other => return None,
        }
    }
    None
}

/// Every growth is refused in turn.
pub(crate) fn demand_each_growth(
    rt: &impl Abort,
    alloc: Global,
    command: Command,
    input: &str,
    output: &str,
) {
    let count = refusals(alloc, command, input, output).unwrap_or(0);
    assert!(rt; count > 2 && count < 900, "{count} refusals");
}

/// A command, what it reads, and what it gives.
type Row = (Command, &'static str, &'static str);

const COMMANDS: &[Row] = &[
    (Command::Replay, ONE_PROCESS_SCHEDULE, ONE_PROCESS_NOW),
    (Command::Check, ONE_PROCESS_NOW, "serial yes\npoints yes\n"),
];

#[test]
fn a_replay_and_a_check_with_each_growth_refused(rt: HostRuntime) {
    for (command, input, output) in COMMANDS {
        demand_each_growth(&rt, rt.alloc(), *command, input, output);
    }
}

#[test]
fn an_input_without_end(rt: HostRuntime) {
    let given = Given::Refused("input: too long\n");
    let mut reader = Spaces { left: u64::MAX };
    assert!(rt; gives_from(rt.alloc(), Command::Check, &mut reader, given));
}

#[test]
fn an_input_up_to_the_limit(rt: HostRuntime) {
    let given = Given::Refused("line 1: form\n");
    let mut reader = Spaces { left: 268_435_456 };
    assert!(rt; gives_from(rt.alloc(), Command::Check, &mut reader, given));
}

/// Whether the command gives that where it reads a byte at a time.
fn gives_byte_by_byte(alloc: Global, row: &Row) -> bool {
    let (command, input, output) = *row;
    let mut reader = Source {
        most: 1,
        ..whole(input.as_bytes(), &[])
    };
    gives_from(alloc, command, &mut reader, Given::Accepted(output))
}

#[test]
fn one_byte_at_a_time(rt: HostRuntime) {
    for row in COMMANDS {
        demand(&rt, row, gives_byte_by_byte(rt.alloc(), row));
    }
}
