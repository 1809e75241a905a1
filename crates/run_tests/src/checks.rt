//! The commands as a user meets them, on reports and schedules worked by hand.
use crate::commands::{Given, gives, gives_from};
use crate::demands::{demand, demand_none};
use crate::report_texts::ONE_PROCESS_NOW;
use crate::sources::whole;
use reg_commands::Command;
use std::alloc::Global;

/// A write is done before a read of another process is called, which still answers 0.
const STALE_READ: &str = "awreg report 1
front local-read
processes 3
registers x
history 4
       0  p0    #0       call    write x 5
       4  p0    #0       answer  done
       5  p1    #0       call    read x
       5  p1    #0       answer  value 0
";

/// A write that is answered at once, and a read that waits for it.
const WAITING_READ: &str = "awreg report 1
front local-write
processes 2
registers x
history 4
       0  p0    #0       call    write x 5
       0  p0    #0       answer  done
       1  p0    #1       call    read x
       3  p0    #1       answer  value 5
";

/// A write that is answered at once, and a read that waits for it and isn't answered yet.
const UNFINISHED_READ: &str = "awreg report 1
front local-write
processes 2
registers x
history 3
       0  p0    #0       call    write x 5
       0  p0    #0       answer  done
       1  p0    #1       call    read x
";

/// A read that saw a swap, which has no answer yet.
const SEEN_SWAP: &str = "awreg report 1
front local-read
processes 2
registers x
history 3
       0  p0    #0       call    swap x 5
       2  p1    #0       call    read x
       2  p1    #0       answer  value 5
";

/// Two compare-and-swaps that expect the first value are both answered done.
const BOTH_DONE: &str = "awreg report 3
front linear
processes 2
registers 1
x
history 4
       0  p0    #0       call    cas x 0 1
       1  p1    #0       call    cas x 0 2
       3  p0    #0       answer  done
       4  p1    #0       answer  done
";

/// The second one is answered unequal.
const ONE_DONE: &str = "awreg report 3
front linear
processes 2
registers 1
x
history 4
       0  p0    #0       call    cas x 0 1
       1  p1    #0       call    cas x 0 2
       3  p0    #0       answer  done
       4  p1    #0       answer  unequal
";

/// The rest of a report, and what is said of it.
type Judged = (&'static str, &'static str);

/// The head of a report, and each rest that it is judged with.
const JUDGED: &[(&str, &[Judged])] = &[
    (
        STALE_READ,
        &[
            ("order 2\np1 #0\np0 #0\nend\n", "serial yes\n"),
            ("order 2\np0 #0\np1 #0\nend\n", "serial no: answer at 1\n"),
            ("order 1\np1 #0\nend\n", "serial no: missing\n"),
            ("order 3\np1 #0\np0 #0\np0 #0\nend\n", "serial no: twice\n"),
            (
                "order 2\np1 #0\np0 #0\npoints 2\np1 #0 at 5\np0 #0 at 4\nend\n",
                "serial yes\npoints no: falling at 1\n",
            ),
            (
                "order 2\np1 #0\np0 #0\npoints 2\np1 #0 at 4\np0 #0 at 4\nend\n",
                "serial yes\npoints no: outside at 0\n",
            ),
        ],
    ),
    (
        WAITING_READ,
        &[
            ("order 2\np0 #0\np0 #1\nend\n", "serial yes\n"),
            ("order 2\np0 #1\np0 #0\nend\n", "serial no: own order\n"),
        ],
    ),
    (
        SEEN_SWAP,
        &[
            ("order 2\np0 #0\np1 #0\nend\n", "serial yes\n"),
            ("order 1\np1 #0\nend\n", "serial no: answer at 0\n"),
        ],
    ),
    (
        UNFINISHED_READ,
        &[("order 2\np0 #0\np0 #1\nend\n", "serial no: unknown\n")],
    ),
    (
        BOTH_DONE,
        &[
            ("order 2\np0 #0\np1 #0\nend\n", "serial no: answer at 1\n"),
            ("order 2\np1 #0\np0 #0\nend\n", "serial no: answer at 1\n"),
            (
                "order 2\np0 #0\np1 #0\npoints 2\np0 #0 at 2\np1 #0 at 3\nend\n",
                "serial no: answer at 1\npoints no: answer at 1\n",
            ),
        ],
    ),
    (
        ONE_DONE,
        &[
            ("order 2\np0 #0\np1 #0\nend\n", "serial yes\n"),
            ("order 2\np1 #0\np0 #0\nend\n", "serial no: answer at 0\n"),
        ],
    ),
];

/// The first rest with which something else is said of a head.
fn misjudged(alloc: Global, head: &str, rests: &[Judged]) -> Option<&'static str> {
    for (rest, lines) in rests {
        let given = if *lines == "serial yes\n" {
            Given::Accepted(lines)
        } else {
            Given::Denied(lines)
        };
        if !gives(alloc, Command::Check, (head, rest), given) {
            return Some(*rest);
        }
    }
    None
}

#[test]
fn orders_are_judged(rt: HostRuntime) {
    for (head, rests) in JUDGED {
        demand_none(&rt, head, &misjudged(rt.alloc(), head, rests));
    }
}

const FROM_THE_FIRST_CALL: &str = "       0  p0    #0       call    write x 5
       0  p0    #0       answer  done
       1  p0    #1       call    read x
       1  p0    #1       answer  value 5
order 2
p0 #0
p0 #1
points 2
p0 #0 at 0
p0 #1 at 1
end
";

const FROM_THE_FIRST_ANSWER: &str = "       0  p0    #0       answer  done
       1  p0    #1       call    read x
       1  p0    #1       answer  value 5
order 2
p0 #0
p0 #1
points 2
p0 #0 at 0
p0 #1 at 1
end
";

/// What is cut off the report of one process, what is put after it, and what its check gives then.
type Changed = (&'static str, &'static str, Given<'static>);

const CHANGED: &[Changed] = &[
    ("", "", Given::Accepted("serial yes\npoints yes\n")),
    (
        FROM_THE_FIRST_ANSWER,
        "       0  p0    #0       answer done\n       1  p0    #1       call    read x\nend\n",
        Given::Refused("line 8: form\n"),
    ),
    (
        FROM_THE_FIRST_CALL,
        "       0  p0    #0       answer  done\n       0  p0    #0       call    write x 5\nend\n",
        Given::Refused("line 7: place\n"),
    ),
    ("\n", "", Given::Accepted("serial yes\npoints yes\n")),
    ("end\n", "", Given::Refused("line 17: end\n")),
    ("", "end\n", Given::Refused("line 18: end\n")),
];

/// Whether the check of a changed report gives this.
fn is_read_so(alloc: Global, row: &Changed) -> bool {
    let (cut, behind, given) = *row;
    let front = ONE_PROCESS_NOW.strip_suffix(cut).unwrap_or("");
    gives(alloc, Command::Check, (front, behind), given)
}

#[test]
fn reports_are_read_as_they_were_written(rt: HostRuntime) {
    for row in CHANGED {
        demand(&rt, &(row.0, row.1), is_read_so(rt.alloc(), row));
    }
}

/// Whether a command refuses bytes that are no text.
fn refuses_bytes(alloc: Global, command: Command) -> bool {
    let mut reader = whole(b"\xff", &[]);
    let given = Given::Refused("input: not text\n");
    gives_from(alloc, command, &mut reader, given)
}

#[test]
fn an_input_is_text(rt: HostRuntime) {
    for command in [
        Command::Check,
        Command::Replay,
        Command::Play { fair: true },
    ] {
        demand(&rt, &command, refuses_bytes(rt.alloc(), command));
    }
}
