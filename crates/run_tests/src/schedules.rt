//! Schedules as they are read, and the lines that they are refused at.
use crate::demands::demand;
use crate::macros::{call, cas_of, take, tick};
use crate::values::READ;
use reg_base::Op;
use reg_front::Front;
use reg_workload::{Schedule, ScheduleFault, Why, parse_schedule};
use reg_world::Event;
use std::alloc::Global;

/// Whether a text is refused at this line and for this cause.
fn is_judged(alloc: Global, text: &str, line: u64, why: Why) -> bool {
    parse_schedule(alloc, text).err() == Some(ScheduleFault::Line { line, why })
}

const SCHEDULE: &str =
    "# a schedule é\n\nprocesses 2\nregisters x y\n#\nfront local-write\ncall 0 write y 5\n\ncall 1 read x\ncall 1 cas x 0 5\ntake 0 1 4294967295\ntick 255";

/// The events of `SCHEDULE`.
const EVENTS: &[Event] = &[
    call!(
        0,
        Op::Write {
            register: 1,
            value: 5,
        }
    ),
    call!(1, READ),
    call!(1, cas_of!(0, 5)),
    take!(0, 1, 4_294_967_295),
    tick!(255),
];

/// Whether a schedule is the one above.
fn is_the_schedule(schedule: &Schedule) -> bool {
    schedule.shape.processes() == 2
        && schedule.shape.registers() == 2
        && schedule.names.number("y") == Some(1)
        && schedule.front == Front::LocalWrite
        && schedule.events.as_slice() == EVENTS
}

#[test]
fn a_schedule_is_read(rt: HostRuntime) {
    let schedule = parse_schedule(rt.alloc(), SCHEDULE).expect(&rt, "a schedule");
    assert!(rt; is_the_schedule(&schedule));
}

/// A text whose header is wrong, the line of the fault and its cause.
const HEADERS: &[(&str, u64, Why)] = &[
    ("", 1, Why::End),
    ("\n", 2, Why::End),
    ("#\n# é", 3, Why::End),
    (" # x\n", 1, Why::Form),
    ("\r\n", 1, Why::Form),
    ("processes 65\n", 1, Why::Range),
    ("processes 0\n", 1, Why::Range),
    ("processes 2\r\n", 1, Why::Form),
    ("processes 18446744073709551616\n", 1, Why::Range),
    ("processes 2\nregisters x\n#\n", 4, Why::End),
    ("processes 2\nregisters\n", 2, Why::Form),
    ("processes 2\nregisters x  y\n", 2, Why::Form),
    ("processes 2\nregisters x y \n", 2, Why::Form),
    ("processes 2\nregisters x\ty\n", 2, Why::Name),
    ("processes 2\nregisters x y x\n", 2, Why::Name),
    ("processes 2\nregisters abcdefghijklmnopq\n", 2, Why::Name),
    ("processes 2\nregisters é\n", 2, Why::Form),
    ("processes 2\nregisters x\nfront other\n", 3, Why::Name),
    ("processes 2\nregisters x\nfront Linear\n", 3, Why::Form),
    ("processes 2\nregisters x\nfront linear \n", 3, Why::Form),
];

#[test]
fn a_header_is_refused_at_its_line(rt: HostRuntime) {
    for (text, line, why) in HEADERS {
        demand(&rt, text, is_judged(rt.alloc(), text, *line, *why));
    }
}

/// A line that is no event, and why it is none.
const NO_EVENTS: &[(&str, Why)] = &[
    ("call 256 read zz", Why::Range),
    ("call 0 write zz 18446744073709551616", Why::Name),
    ("call 0 write x 18446744073709551616", Why::Range),
    ("call 0 read x\r", Why::Name),
    ("call 0 write x 5\t", Why::Form),
    ("call 0 write x 05", Why::Form),
    ("call 0 write x", Why::Form),
    ("call 0 cas x 5", Why::Form),
    ("call 0 cas zz 0 5", Why::Name),
    ("call 0 cas x 0 18446744073709551616", Why::Range),
    ("call 0  read x", Why::Form),
    ("tick 0 ", Why::Form),
    ("tick 256", Why::Range),
    ("take 0 256 0", Why::Range),
    ("take 0 1 4294967296", Why::Range),
    ("take 0 1", Why::Form),
    ("swop 0", Why::Form),
];

/// Whether a schedule with this line between two events is refused at it for this cause.
fn is_no_event(alloc: Global, line: &str, why: Why) -> bool {
    match format!(in alloc; "processes 2\nregisters x\nfront linear\ntick 0\n{line}\ntick 1\n") {
        Ok(text) => is_judged(alloc, text.as_str(), 5, why),
        Err(_) => false,
    }
}

#[test]
fn an_event_is_refused_at_its_line(rt: HostRuntime) {
    for (line, why) in NO_EVENTS {
        demand(&rt, line, is_no_event(rt.alloc(), line, *why));
    }
}
