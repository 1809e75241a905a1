//! The line of each fault on the error stream: its text, and a line feed.
use crate::demands::demand;
use reg_commands::{Fault, Refusal};
use reg_history::ReadWhy;
use reg_workload::{Key, WorkloadFault};
use reg_world::WorldFault;
use std::alloc::Global;

macro_rules! line {
    ($line:expr, $why:ident) => {
        Fault::Line {
            line: $line,
            why: ReadWhy::$why,
        }
    };
}

macro_rules! event {
    ($at:expr, $fault:ident) => {
        Fault::Event {
            at: $at,
            fault: WorldFault::$fault,
        }
    };
}

macro_rules! document {
    ($fault:ident) => {
        Fault::Workload {
            fault: WorkloadFault::$fault,
        }
    };
    ($fault:ident, $key:ident) => {
        Fault::Workload {
            fault: WorkloadFault::$fault { key: Key::$key },
        }
    };
}

macro_rules! script {
    ($process:expr, $place:expr) => {
        Fault::Workload {
            fault: WorkloadFault::Script {
                process: $process,
                place: $place,
            },
        }
    };
}

/// Each fault, of streams, lines, events and documents, and its line.
const LINES: &[(Fault, &str)] = &[
    (Fault::Unread, "input: read\n"),
    (Fault::TooLong, "input: too long\n"),
    (Fault::NotText, "input: not text\n"),
    (Fault::Output, "output: write\n"),
    (Fault::OutOfMemory, "out of memory\n"),
    (line!(1, Form), "line 1: form\n"),
    (line!(20, Range), "line 20: range\n"),
    (line!(305, Name), "line 305: name\n"),
    (line!(4294967296, Place), "line 4294967296: place\n"),
    (
        line!(18446744073709551615, End),
        "line 18446744073709551615: end\n",
    ),
    (event!(0, Failed), "event 0: failed\n"),
    (
        event!(1048576, TooManyEvents),
        "event 1048576: too many events\n",
    ),
    (event!(2, NoProcess), "event 2: no process\n"),
    (event!(10, Busy), "event 10: busy\n"),
    (event!(99, NoRegister), "event 99: no register\n"),
    (
        event!(100, TooManyOperations),
        "event 100: too many operations\n",
    ),
    (event!(7, NoFrame), "event 7: no frame\n"),
    (event!(8, OutOfMemory), "event 8: out of memory\n"),
    (document!(Toml), "toml\n"),
    (document!(UnknownKey), "unknown key\n"),
    (script!(0, 12), "script 0 12\n"),
    (script!(255, 4294967295), "script 255 4294967295\n"),
    (document!(OutOfMemory), "out of memory\n"),
    (document!(Missing, Front), "missing front\n"),
    (document!(Kind, Front), "kind front\n"),
    (document!(Range, Front), "range front\n"),
    (document!(Missing, Registers), "missing registers\n"),
    (document!(Kind, Registers), "kind registers\n"),
    (document!(Range, Registers), "range registers\n"),
    (document!(Missing, Scripts), "missing scripts\n"),
    (document!(Kind, Scripts), "kind scripts\n"),
    (document!(Range, Scripts), "range scripts\n"),
    (document!(Missing, Seed), "missing seed\n"),
    (document!(Kind, Seed), "kind seed\n"),
    (document!(Range, Seed), "range seed\n"),
    (document!(Missing, Loss), "missing loss\n"),
    (document!(Kind, Loss), "kind loss\n"),
    (document!(Range, Loss), "range loss\n"),
    (document!(Missing, Repeat), "missing repeat\n"),
    (document!(Kind, Repeat), "kind repeat\n"),
    (document!(Range, Repeat), "range repeat\n"),
    (document!(Missing, Budget), "missing budget\n"),
    (document!(Kind, Budget), "kind budget\n"),
    (document!(Range, Budget), "range budget\n"),
];

/// Whether a fault is told by this line.
fn is_told(alloc: Global, fault: Fault, line: &str) -> bool {
    let mut errors = Vec::new(alloc);
    fault.write_line(&mut errors).is_ok() && errors.as_slice() == line.as_bytes()
}

/// Whether a fault is shown as this line.
fn is_shown(alloc: Global, fault: Fault, line: &str) -> bool {
    match format!(in alloc; "{fault}\n") {
        Ok(text) => text.as_str() == line,
        Err(_) => false,
    }
}

/// Whether a fault is told and shown so.
fn has_line(alloc: Global, fault: Fault, line: &str) -> bool {
    is_told(alloc, fault, line) && is_shown(alloc, fault, line)
}

#[test]
fn faults_have_their_lines(rt: HostRuntime) {
    for (fault, line) in LINES {
        demand(&rt, line, has_line(rt.alloc(), *fault, line));
    }
}
