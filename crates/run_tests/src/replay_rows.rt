//! Schedules and their reports, worked by hand.
use crate::report_texts::NO_POINTS_NOW;

/// A schedule and its report.
pub(crate) struct Row {
    pub(crate) schedule: &'static str,
    pub(crate) report: &'static str,
}

/// The row of a front end with one register, x: what stands behind the head of its schedule, and of its report.
macro_rules! run_of {
    ($front:literal, processes $processes:literal, report $version:literal; $events:literal => $entries:literal) => {
        Row {
            schedule: concat!(
                "processes ", $processes, "\nregisters x\nfront ", $front, "\n", $events
            ),
            report: concat!(
                "awreg report ", $version, "\nfront ", $front, "\nprocesses ", $processes,
                "\nregisters 1\nx\n", $entries
            ),
        }
    };
}

pub(crate) use run_of;

/// The runs of `linear`. (No function names the texts of all runs, since one that names many is slow to prove.)
pub(crate) fn linear() -> &'static [Row] {
    LINEAR
}

const LINEAR: &[Row] = &[
    // A write that the other process acknowledges.
    run_of!("linear", processes 2, report 2; "call 0 write x 5
take 0 1 0
take 1 0 1
" => "history 2
       0  p0    #0       call    write x 5
       2  p0    #0       answer  done
order 1
p0 #0
points 1
p0 #0 at 1
end
"),
    // A write whose acknowledgement is lost.
    run_of!("linear", processes 2, report 2; "call 0 write x 5
take 0 1 0
take 1 0 0
" => "history 1
       0  p0    #0       call    write x 5
order 1
p0 #0
points 1
p0 #0 at 1
end
"),
    // Two writes at one time.
    run_of!("linear", processes 2, report 2; "call 0 write x 1
call 1 write x 2
take 0 1 0
take 1 0 0
take 0 1 2
" => "history 4
       0  p0    #0       call    write x 1
       1  p1    #0       call    write x 2
       3  p0    #0       answer  done
       4  p1    #0       answer  done
order 2
p0 #0
p1 #0
points 2
p0 #0 at 2
p1 #0 at 3
end
"),
    // A repeated frame.
    run_of!("linear", processes 2, report 2; "call 0 write x 5
take 0 1 0
take 0 1 0
take 1 0 1
" => "history 2
       0  p0    #0       call    write x 5
       3  p0    #0       answer  done
order 1
p0 #0
points 1
p0 #0 at 1
end
"),
    // Frames out of turn.
    run_of!("linear", processes 2, report 2; "call 0 write x 1
call 1 write x 2
take 0 1 0
take 1 0 2
take 1 0 0
" => "history 3
       0  p0    #0       call    write x 1
       1  p1    #0       call    write x 2
       4  p0    #0       answer  done
order 2
p0 #0
p1 #0
points 2
p0 #0 at 2
p1 #0 at 4
end
"),
    // A frame put again by a tick.
    run_of!("linear", processes 2, report 2; "call 0 write x 5
tick 0
take 0 1 1
take 1 0 1
" => "history 2
       0  p0    #0       call    write x 5
       3  p0    #0       answer  done
order 1
p0 #0
points 1
p0 #0 at 2
end
"),
    // Three processes.
    run_of!("linear", processes 3, report 2; "call 0 write x 1
call 1 write x 2
take 0 2 0
take 2 1 0
take 0 1 0
take 1 0 0
take 0 1 2
take 2 0 1
" => "history 4
       0  p0    #0       call    write x 1
       1  p1    #0       call    write x 2
       6  p1    #0       answer  done
       7  p0    #0       answer  done
order 2
p0 #0
p1 #0
points 2
p0 #0 at 4
p1 #0 at 6
end
"),
    // Two swaps of one process.
    run_of!("linear", processes 1, report 2; "call 0 swap x 5
call 0 swap x 6
" => "history 4
       0  p0    #0       call    swap x 5
       0  p0    #0       answer  value 0
       1  p0    #1       call    swap x 6
       1  p0    #1       answer  value 5
order 2
p0 #0
p0 #1
points 2
p0 #0 at 0
p0 #1 at 1
end
"),
];

/// The runs of the other front ends.
pub(crate) fn local() -> &'static [Row] {
    LOCAL
}

const LOCAL: &[Row] = &[
    // A stale local read.
    Row {
        schedule: "processes 3
registers x
front local-read
call 0 write x 5
take 0 1 0
take 0 2 0
take 1 0 1
take 2 0 1
call 1 read x
",
        report: NO_POINTS_NOW,
    },
    // A read that waits for the own write.
    run_of!("local-write", processes 2, report 2; "call 0 write x 5
call 0 read x
take 0 1 0
take 1 0 1
" => "history 4
       0  p0    #0       call    write x 5
       0  p0    #0       answer  done
       1  p0    #1       call    read x
       3  p0    #1       answer  value 5
order 2
p0 #0
p0 #1
end
"),
    // A write answered at once and delivered nowhere.
    run_of!("local-write", processes 2, report 2; "call 0 write x 5
" => "history 2
       0  p0    #0       call    write x 5
       0  p0    #0       answer  done
order 1
p0 #0
end
"),
    // A read answered between two deliveries of one event.
    run_of!("local-write", processes 2, report 2; "call 0 write x 1
call 1 write x 2
call 0 read x
take 1 0 0
" => "history 6
       0  p0    #0       call    write x 1
       0  p0    #0       answer  done
       1  p1    #0       call    write x 2
       1  p1    #0       answer  done
       2  p0    #1       call    read x
       3  p0    #1       answer  value 1
order 3
p0 #0
p0 #1
p1 #0
end
"),
    // A write that is answered at once, and a swap that is not.
    run_of!("local-write", processes 2, report 2; "call 0 write x 5
call 0 swap x 6
take 0 1 0
take 1 0 1
" => "history 4
       0  p0    #0       call    write x 5
       0  p0    #0       answer  done
       1  p0    #1       call    swap x 6
       3  p0    #1       answer  value 5
order 2
p0 #0
p0 #1
end
"),
    // A read that saw an unfinished swap.
    run_of!("local-read", processes 2, report 2; "call 0 swap x 5
take 0 1 0
call 1 read x
" => "history 3
       0  p0    #0       call    swap x 5
       2  p1    #0       call    read x
       2  p1    #0       answer  value 5
order 2
p0 #0
p1 #0
end
"),
];
