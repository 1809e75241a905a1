//! Runs in which an operation stands before one that was answered before its call: the schedules of `examples`, and
//! what the checker says of the order that the clock would give.
use crate::commands::{Given, gives};
use crate::demands::demand;
use crate::replay_reports::has_report;
use crate::replay_rows::{Row, run_of};
use reg_commands::Command;
use std::alloc::Global;

/// A run with its report, the lines of the order in which the operations were called, and what is said of that one.
struct Overtaking {
    run: Row,
    in_time: &'static str,
    refusal: &'static str,
}

/// The runs of `local-read`. (No function names the texts of all runs, since one that names many is slow to prove.)
fn local_read() -> &'static [Overtaking] {
    LOCAL_READ
}

const LOCAL_READ: &[Overtaking] = &[
    // A swap is answered, and a later read of another process misses it.
    Overtaking {
        run: run_of!("local-read", processes 3, report 2; "call 0 swap x 5
take 0 1 0
take 0 2 0
take 1 0 1
take 2 0 1
call 1 read x
" => "history 4
       0  p0    #0       call    swap x 5
       4  p0    #0       answer  value 0
       5  p1    #0       call    read x
       5  p1    #0       answer  value 0
order 2
p1 #0
p0 #0
end
"),
        in_time: "order 2
p0 #0
p1 #0
end
",
        refusal: "serial no: answer at 1\n",
    },
    // A compare-and-swap is answered, and a later read of another process misses it.
    Overtaking {
        run: run_of!("local-read", processes 3, report 3; "call 0 cas x 0 5
take 0 1 0
take 0 2 0
take 1 0 1
take 2 0 1
call 1 read x
" => "history 4
       0  p0    #0       call    cas x 0 5
       4  p0    #0       answer  done
       5  p1    #0       call    read x
       5  p1    #0       answer  value 0
order 2
p1 #0
p0 #0
end
"),
        in_time: "order 2
p0 #0
p1 #0
end
",
        refusal: "serial no: answer at 1\n",
    },
    // A read of the new value, and then one of the old value.
    Overtaking {
        run: run_of!("local-read", processes 3, report 2; "call 0 write x 5
take 0 2 0
take 2 1 0
take 0 1 0
call 1 read x
call 2 read x
" => "history 5
       0  p0    #0       call    write x 5
       4  p1    #0       call    read x
       4  p1    #0       answer  value 5
       5  p2    #0       call    read x
       5  p2    #0       answer  value 0
order 3
p2 #0
p0 #0
p1 #0
end
"),
        in_time: "order 3
p0 #0
p1 #0
p2 #0
end
",
        refusal: "serial no: answer at 2\n",
    },
];

/// The runs of `local-write`.
fn local_write() -> &'static [Overtaking] {
    LOCAL_WRITE
}

const LOCAL_WRITE: &[Overtaking] = &[
    // A read of the new value, and then one of the old value, of a write that was answered at once.
    Overtaking {
        run: run_of!("local-write", processes 3, report 2; "call 0 write x 5
take 0 2 0
take 2 1 0
take 0 1 0
call 1 read x
call 2 read x
" => "history 6
       0  p0    #0       call    write x 5
       0  p0    #0       answer  done
       4  p1    #0       call    read x
       4  p1    #0       answer  value 5
       5  p2    #0       call    read x
       5  p2    #0       answer  value 0
order 3
p2 #0
p0 #0
p1 #0
end
"),
        in_time: "order 3
p0 #0
p1 #0
p2 #0
end
",
        refusal: "serial no: answer at 2\n",
    },
    // A write is answered at once, and a later read of another process misses it.
    Overtaking {
        run: run_of!("local-write", processes 2, report 2; "call 0 write x 5
call 1 read x
" => "history 4
       0  p0    #0       call    write x 5
       0  p0    #0       answer  done
       1  p1    #0       call    read x
       1  p1    #0       answer  value 0
order 2
p1 #0
p0 #0
end
"),
        in_time: "order 2
p0 #0
p1 #0
end
",
        refusal: "serial no: answer at 1\n",
    },
    // A later swap comes before a write that was answered at once.
    Overtaking {
        run: run_of!("local-write", processes 2, report 2; "call 1 write x 5
call 0 swap x 7
take 1 0 0
" => "history 4
       0  p1    #0       call    write x 5
       0  p1    #0       answer  done
       1  p0    #0       call    swap x 7
       2  p0    #0       answer  value 0
order 2
p0 #0
p1 #0
end
"),
        in_time: "order 2
p1 #0
p0 #0
end
",
        refusal: "serial no: answer at 1\n",
    },
    // A later compare-and-swap comes before a write that was answered at once, and finds what was before it.
    Overtaking {
        run: run_of!("local-write", processes 2, report 3; "call 1 write x 5
call 0 cas x 0 7
take 1 0 0
" => "history 4
       0  p1    #0       call    write x 5
       0  p1    #0       answer  done
       1  p0    #0       call    cas x 0 7
       2  p0    #0       answer  done
order 2
p0 #0
p1 #0
end
"),
        in_time: "order 2
p1 #0
p0 #0
end
",
        refusal: "serial no: answer at 1\n",
    },
    // A later write comes before one that was answered at once, as a read tells.
    Overtaking {
        run: run_of!("local-write", processes 2, report 2; "call 1 write x 5
call 0 write x 7
take 1 0 0
call 0 read x
" => "history 6
       0  p1    #0       call    write x 5
       0  p1    #0       answer  done
       1  p0    #0       call    write x 7
       1  p0    #0       answer  done
       3  p0    #1       call    read x
       3  p0    #1       answer  value 5
order 3
p0 #0
p1 #0
p0 #1
end
"),
        in_time: "order 3
p1 #0
p0 #0
p0 #1
end
",
        refusal: "serial no: answer at 2\n",
    },
];

/// Whether a run has its report, whose order is serial, and this is said of the order of the calls.
fn is_overtaken(alloc: Global, row: &Overtaking) -> bool {
    let report = row.run.report;
    let Some((head, _)) = report.split_once("order ") else {
        return false;
    };
    let in_time = (head, row.in_time);
    has_report(alloc, Command::Replay, (row.run.schedule, ""), report)
        && gives(alloc, Command::Check, in_time, Given::Denied(row.refusal))
}

#[test]
fn no_order_keeps_the_time_of_what_is_overtaken(rt: HostRuntime) {
    for rows in [local_read(), local_write()] {
        for row in rows {
            demand(&rt, &row.run.schedule, is_overtaken(rt.alloc(), row));
        }
    }
}
