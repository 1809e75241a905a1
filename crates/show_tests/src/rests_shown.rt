//! What `awshow rest` prints, on schedules worked by hand.
use crate::given::{Row, Task, demand};
use reg_show::Showing;

/// Two processes of which the first one wrote, and no frame was taken.
const LOST: &str = "processes 2
registers x
front linear
call 0 write x 5
";

/// The cast is put again, accepted and counted, and then its acknowledgement.
const LOST_RESTED: &str = "processes 2
registers x
front linear
call 0 write x 5
tick 0
take 0 1 1
take 1 0 0
tick 1
take 1 0 2
take 0 1 2
";

/// Nothing is pending where the only process reads its copy.
const STILL: &str = "processes 1
registers x
front local-read
call 0 read x
";

const EARLY: &str = "processes 2
registers x
front linear
take 0 1 0
";

const ROWS: [Row; 5] = [
    (LOST, (0, LOST_RESTED, "")),
    (LOST_RESTED, (0, LOST_RESTED, "")),
    (STILL, (0, STILL, "")),
    (EARLY, (1, "", "event 0: no frame\n")),
    ("processes 0\n", (1, "", "line 1: range\n")),
];

#[test]
fn a_schedule_is_printed_with_what_brings_it_to_rest(rt: HostRuntime) {
    let task = Task::Show {
        showing: Showing::Rest,
    };
    demand(&rt, task, ROWS.as_slice());
}
