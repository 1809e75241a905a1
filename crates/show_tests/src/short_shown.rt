//! Short schedules of plays, with what was worked out by hand from the rules.
use crate::given::{Given, Row, Task, demand, tells};
use crate::shown::{WRITE, replays_to};
use reg_show::MOST_SHORTENED;
use std::alloc::{AllocError, Global};

/// A workload whose fair play is `call 0 write x 5`, `take 0 1 0`, `take 1 0 0`, `take 1 0 1`, which answers the write,
/// and `take 0 1 1`. The two takes of counts are of no use, and each of the others is.
pub(crate) const LONE_WRITE: &str = "front = \"linear\"
registers = [\"x\"]
scripts = [[\"write x 5\"], []]
";

/// A workload whose fair play is `call 0 write x 5`, `call 1 swap x 6`, `take 0 1 0`, `take 1 0 0`, which answers the
/// write, and three more events that answer nothing. The write is answered since process 0 hears of the swap, so that
/// this has to be called, although it isn't answered itself; that process 1 hears of the write is of no use.
const WRITE_AND_SWAP: &str = "front = \"linear\"
registers = [\"x\"]
scripts = [[\"write x 5\", \"read x\"], [\"swap x 6\"]]
budget = 7
";

const SHORT_WRITE_AND_SWAP: &str = "processes 2
registers x
front linear
call 0 write x 5
call 1 swap x 6
take 1 0 0
";

/// A workload whose fair play is `call 0 write x 5` and `call 1 read x`, which is answered from the copy of process 1
/// at once. The write isn't answered, and goes.
const READ_BESIDE_A_WRITE: &str = "front = \"local-read\"
registers = [\"x\"]
scripts = [[\"write x 5\"], [\"read x\"]]
budget = 2
";

const SHORT_READ: &str = "processes 2
registers x
front local-read
call 1 read x
";

/// A workload whose fair play is `call 0 write x 5`, `take 0 1 0`, `take 1 0 0` and `call 0 write x 6`. Both writes are
/// answered at once, and are different operations of one process.
const TWO_WRITES: &str = "front = \"local-write\"
registers = [\"x\"]
scripts = [[\"write x 5\", \"write x 6\"], []]
budget = 4
";

const SHORT_TWO_WRITES: &str = "processes 2
registers x
front local-write
call 0 write x 5
call 0 write x 6
";

/// Nothing is answered in one event.
const UNANSWERED: &str = "front = \"linear\"
registers = [\"x\"]
scripts = [[\"write x 5\"], []]
budget = 1
";

const NOTHING: &str = "processes 2
registers x
front linear
";

const SHORTENED: [Row; 5] = [
    (LONE_WRITE, (0, WRITE, "")),
    (WRITE_AND_SWAP, (0, SHORT_WRITE_AND_SWAP, "")),
    (READ_BESIDE_A_WRITE, (0, SHORT_READ, "")),
    (TWO_WRITES, (0, SHORT_TWO_WRITES, "")),
    (UNANSWERED, (0, NOTHING, "")),
];

#[test]
fn short_schedules_are_those_worked_by_hand(rt: HostRuntime) {
    demand(&rt, Task::ShortSchedule, SHORTENED.as_slice());
}

#[test]
fn no_short_schedule_of_a_text_that_is_no_workload(rt: HostRuntime) {
    assert!(rt; tells(rt.alloc(), Task::ShortSchedule, WRITE, (1, "", "toml\n")));
}

/// The report of the run of a short schedule, in which the write has its answer.
const WRITE_REPORT: &str = "awreg report 2
front linear
processes 2
registers 1
x
history 2
       0  p0    #0       call    write x 5
       2  p0    #0       answer  done
order 1
p0 #0
points 1
p0 #0 at 1
end
";

/// The report of the run of a short schedule in which process 0 has delivered both casts at once.
const WRITE_AND_SWAP_REPORT: &str = "awreg report 2
front linear
processes 2
registers 1
x
history 3
       0  p0    #0       call    write x 5
       1  p1    #0       call    swap x 6
       2  p0    #0       answer  done
order 2
p0 #0
p1 #0
points 2
p0 #0 at 2
p1 #0 at 2
end
";

#[test]
fn a_short_schedule_replays_to_the_same_answers(rt: HostRuntime) {
    let (short, report) = (SHORT_WRITE_AND_SWAP, WRITE_AND_SWAP_REPORT);
    assert!(rt; replays_to(rt.alloc(), WRITE.as_bytes(), WRITE_REPORT.as_bytes()));
    assert!(rt; replays_to(rt.alloc(), short.as_bytes(), report.as_bytes()));
}

/// Adds a workload of one process alone that reads `count` times, each time answered at once.
fn add_reads(text: &mut String, count: usize) -> Result<(), AllocError> {
    text.push_str("front = \"linear\"\nregisters = [\"x\"]\nscripts = [[\"read x\"")?;
    for _ in 1..count {
        text.push_str(", \"read x\"")?;
    }
    text.push_str("]]\n")
}

/// Whether this is given for the short schedule of so many reads.
fn tells_of_reads(alloc: Global, count: usize, given: Given<'_>) -> bool {
    let mut text = String::new(alloc);
    let is_made = add_reads(&mut text, count).is_ok();
    is_made && tells(alloc, Task::ShortSchedule, text.as_str(), given)
}

#[test]
fn a_play_of_more_events_up_to_the_last_answer_is_refused(rt: HostRuntime) {
    let told = (1, "", "too many events to shorten\n");
    assert!(rt; tells_of_reads(rt.alloc(), MOST_SHORTENED + 1, told));
}

/// Adds the schedule of so many reads.
fn add_calls(text: &mut String, count: usize) -> Result<(), AllocError> {
    text.push_str("processes 1\nregisters x\nfront linear\n")?;
    for _ in 0..count {
        text.push_str("call 0 read x\n")?;
    }
    Ok(())
}

/// Whether all of so many reads are in their short schedule.
fn are_kept(alloc: Global, count: usize) -> bool {
    let mut short = String::new(alloc);
    let is_made = add_calls(&mut short, count).is_ok();
    is_made && tells_of_reads(alloc, count, (0, short.as_str(), ""))
}

#[test]
fn no_answered_call_is_dropped(rt: HostRuntime) {
    assert!(rt; are_kept(rt.alloc(), 100));
}
