//! Steps of two processes put into an order that is a run, and what is told where there is none.
use crate::given::{Row, Task, answer_of, demand};
use crate::records_judged::WRITE;
use reg_commands::run_command;
use reg_heap::{Trial, refusals};
use reg_verify::Merge;
use std::alloc::{Allocator, Global};
use std::test::Fail;

/// The steps of `WRITE`, process by process.
const BY_PROCESS: &str = "tellwydar record 1
front linear
processes 2
registers x
0 call write x 5
0 take 1 000a01020000000000000001
0 take 1 001301010000000000000000020000000000000002 = done 0
1 take 0 001e010100000000000000000100000000000000010200000000000000000005
";

/// The same, the second process first.
const SECOND_FIRST: &str = "tellwydar record 1
front linear
processes 2
registers x
1 take 0 001e010100000000000000000100000000000000010200000000000000000005
0 call write x 5
0 take 1 000a01020000000000000001
0 take 1 001301010000000000000000020000000000000002 = done 0
";

/// Without the step of the second process nothing puts what the first one takes.
const CUT: &str = "tellwydar record 1
front linear
processes 2
registers x
0 call write x 5
0 take 1 000a01020000000000000001
0 take 1 001301010000000000000000020000000000000002 = done 0
";

/// The first process takes the count before its call: each process waits for the other one.
const SWAPPED: &str = "tellwydar record 1
front linear
processes 2
registers x
0 take 1 000a01020000000000000001
0 call write x 5
0 take 1 001301010000000000000000020000000000000002 = done 0
1 take 0 001e010100000000000000000100000000000000010200000000000000000005
";

/// The write's answer has another place.
const OTHER: &str = "tellwydar record 1
front linear
processes 2
registers x
0 call write x 5
0 take 1 000a01020000000000000001
0 take 1 001301010000000000000000020000000000000002 = done 1
1 take 0 001e010100000000000000000100000000000000010200000000000000000005
";

/// There is no third process.
const BEYOND: &str = "tellwydar record 1
front linear
processes 2
registers x
0 call write x 5
2 tick
";

/// A process that calls a second time before it has an answer.
const BUSY: &str = "tellwydar record 1
front linear
processes 2
registers x
1 tick
0 call write x 5
0 call write x 6
";

/// Records, and what is given for each, worked out by hand: the call comes first, since it puts what the second process
/// takes, and what that puts the first process takes then.
const ROWS: &[Row] = &[
    (WRITE, (0, WRITE, "")),
    (BY_PROCESS, (0, WRITE, "")),
    (SECOND_FIRST, (0, WRITE, "")),
    (CUT, (1, "", "line 6: unfaithful\n")),
    (SWAPPED, (1, "", "line 5: unfaithful\n")),
    (OTHER, (1, "", "line 7: unfaithful\n")),
    (BEYOND, (1, "", "line 6: unfaithful\n")),
    (BUSY, (1, "", "line 7: unfaithful\n")),
    ("tellwydar record 1\n", (1, "", "line 2: end\n")),
];

#[test]
fn steps_are_put_into_an_order_that_is_a_run(rt: HostRuntime) {
    demand(&rt, Task::Merge, ROWS);
}

/// The record, put in order.
#[derive(Clone, Copy)]
struct PutInOrder;

impl Trial for PutInOrder {
    fn answer<A: Allocator + Copy>(&self, alloc: A, ample: Global) -> Result<Option<String>, Fail> {
        let mut reader = BY_PROCESS.as_bytes();
        let (mut output, mut errors) = (Vec::new(ample), Vec::new(ample));
        run_command(Merge, alloc, &mut reader, &mut output, &mut errors);
        Ok(answer_of(ample, output, errors.as_slice()))
    }
}

#[test]
fn want_of_memory_is_told_of_steps(rt: HostRuntime) -> Result<(), Fail> {
    assert!(rt; refusals(&PutInOrder, rt.alloc())? > 3);
    Ok(())
}
