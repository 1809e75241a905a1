//! The largest shapes, and the reports of both versions, as a user meets them.
use crate::commands::{Given, gives};
use crate::demands::demand;
use crate::replays::ONE_PROCESS_SCHEDULE;
use crate::report_texts::{ONE_PROCESS, ONE_PROCESS_NOW};
use reg_commands::Command;
use std::alloc::Global;

/// The last of 64 processes reads.
const LAST_PROCESS: &str = "processes 64
registers x
front local-read
call 63 read x
";

/// The report of the run of `LAST_PROCESS`.
const LAST_PROCESS_REPORT: &str = "awreg report 2
front local-read
processes 64
registers 1
x
history 2
       0  p63   #0       call    read x
       0  p63   #0       answer  value 0
order 1
p63 #0
end
";

const BOTH: &str = "serial yes\npoints yes\n";

/// A command, the two parts of its input, and what it gives.
type Row = (Command, &'static str, &'static str, Given<'static>);

const LARGEST: &[Row] = &[
    (
        Command::Replay,
        ONE_PROCESS_SCHEDULE,
        "",
        Given::Accepted(ONE_PROCESS_NOW),
    ),
    (Command::Check, ONE_PROCESS, "", Given::Accepted(BOTH)),
    (Command::Check, ONE_PROCESS_NOW, "", Given::Accepted(BOTH)),
    (
        Command::Replay,
        LAST_PROCESS,
        "",
        Given::Accepted(LAST_PROCESS_REPORT),
    ),
    (
        Command::Check,
        LAST_PROCESS_REPORT,
        "",
        Given::Accepted("serial yes\n"),
    ),
    (
        Command::Replay,
        LAST_PROCESS,
        "take 0 63 0\n",
        Given::Refused("event 1: no frame\n"),
    ),
    (
        Command::Replay,
        LAST_PROCESS,
        "call 64 read x\n",
        Given::Refused("event 1: no process\n"),
    ),
    (
        Command::Replay,
        "processes 65\n",
        "",
        Given::Refused("line 1: range\n"),
    ),
];

/// Whether the command gives that.
fn is_given(alloc: Global, row: &Row) -> bool {
    let (command, head, tail, given) = *row;
    gives(alloc, command, (head, tail), given)
}

#[test]
fn the_largest_shapes_and_both_versions(rt: HostRuntime) {
    for row in LARGEST {
        demand(&rt, &(row.1, row.2), is_given(rt.alloc(), row));
    }
}
