//! Schedules that are refused, and the limits of a replay.
use crate::commands::{Given, gives};
use crate::demands::demand;
use reg_commands::Command;
use std::alloc::{AllocError, Global};

/// The schedule of one process that writes 5 and reads it.
pub(crate) const ONE_PROCESS_SCHEDULE: &str = "processes 1
registers x
front linear
call 0 write x 5
call 0 read x
";

/// One process that calls nothing.
const IDLE: &str = "processes 1\nregisters x\nfront linear\n";

/// Two processes, of which the first waits for the answer of its write.
const BUSY: &str = "processes 2\nregisters x\nfront linear\ncall 0 write x 5\n";

/// The two parts of a schedule, and the line that it is refused with.
const REFUSED: &[(&str, &str, &str)] = &[
    (IDLE, "call 1 read x\n", "event 0: no process\n"),
    (IDLE, "take 0 0 0\n", "event 0: no frame\n"),
    (IDLE, "take 0 1 0\n", "event 0: no process\n"),
    (BUSY, "call 0 read x\n", "event 1: busy\n"),
    (BUSY, "take 0 0 0\n", "event 1: no frame\n"),
    (BUSY, "take 0 1 1\n", "event 1: no frame\n"),
    (BUSY, "tick 2\n", "event 1: no process\n"),
    ("", "", "line 1: end\n"),
    ("processes 65\n", "", "line 1: range\n"),
];

#[test]
fn events_are_refused(rt: HostRuntime) {
    for (head, event, line) in REFUSED {
        let given = Given::Refused(line);
        demand(
            &rt,
            event,
            gives(rt.alloc(), Command::Replay, (head, event), given),
        );
    }
}

/// Adds a text a number of times.
pub(crate) fn add_times(text: &mut String, part: &str, times: u32) -> Result<(), AllocError> {
    for _time in 0..times {
        text.push_str(part)?;
    }
    Ok(())
}

/// Whether a schedule of one process with an event `count` times is refused with this line.
fn are_too_many(alloc: Global, event: &str, count: u32, line: &str) -> bool {
    let given = Given::Refused(line);
    let mut events = String::new(alloc);
    add_times(&mut events, event, count).is_ok()
        && gives(alloc, Command::Replay, (IDLE, events.as_str()), given)
}

#[test]
fn a_process_calls_as_many_operations_as_it_may(rt: HostRuntime) {
    let line = "event 65535: too many operations\n";
    assert!(rt; are_too_many(rt.alloc(), "call 0 read x\n", 65_536, line));
}

#[test]
fn a_schedule_has_as_many_events_as_it_may(rt: HostRuntime) {
    let line = "line 1048580: range\n";
    assert!(rt; are_too_many(rt.alloc(), "tick 0\n", 1_048_577, line));
}
