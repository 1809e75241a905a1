//! The schedule of a run with one outcome of a workload, by the command that prints it: a text worked out by hand, and
//! refusals.
use crate::given::{Task, tells};
use std::alloc::{AllocError, Global};

/// One of the two has the lock. With the second outcome, the other one.
pub(crate) const LOCK: &str = "registers = [\"lock\"]
scripts = [[\"swap lock 1\"], [\"swap lock 1\"]]
front = \"linear\"
";

/// Process 1 swaps first. Its cast is put again, accepted and counted, and then the acknowledgement of it; and then the
/// same happens for process 0.
const SECOND: &str = "processes 2
registers lock
front linear
call 1 swap lock 1
tick 1
take 1 0 1
take 0 1 0
tick 0
take 0 1 2
take 1 0 2
call 0 swap lock 1
tick 0
take 0 1 4
take 1 0 3
tick 1
take 1 0 5
take 0 1 5
";

/// Adds a workload whose only process with a script calls 87 operations. With 64 processes each may take 12,097 events.
fn add_many_reads(text: &mut String) -> Result<(), AllocError> {
    text.push_str("registers = [\"x\"]\nfront = \"linear\"\nscripts = [[\"read x\"")?;
    for _ in 0..86 {
        text.push_str(", \"read x\"")?;
    }
    text.push_str("]")?;
    for _ in 0..63 {
        text.push_str(", []")?;
    }
    text.push_str("]\n")
}

/// Whether this fault is told of the outcome of this number of that workload.
fn tells_of_many_reads(alloc: Global, number: u32, fault: &str) -> bool {
    let mut many = String::new(alloc);
    let is_made = add_many_reads(&mut many).is_ok();
    let told = (1, "", fault);
    is_made && tells(alloc, Task::Outcome { number }, many.as_str(), told)
}

#[test]
fn a_run_of_the_second_outcome(rt: HostRuntime) {
    let told = (0, SECOND, "");
    assert!(rt; tells(rt.alloc(), Task::Outcome { number: 2 }, LOCK, told));
}

#[test]
fn no_run_of_an_outcome(rt: HostRuntime) {
    let none = "no such outcome\n";
    assert!(rt; tells(rt.alloc(), Task::Outcome { number: 3 }, LOCK, (1, "", none)));
    assert!(rt; tells_of_many_reads(rt.alloc(), 2, none));
    assert!(rt; tells_of_many_reads(rt.alloc(), 1, "too many events\n"));
}
