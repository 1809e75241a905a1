//! Records judged: one that is worked out by hand, and what is told of others.
use crate::given::{Task, answer_of, tells};
use reg_commands::run_command;
use reg_heap::{Trial, refusals};
use reg_verify::Verify;
use std::alloc::{AllocError, Allocator, Global};
use std::test::Fail;

/// A write of the first of two processes: the second one takes it, and the first one takes the count and the
/// acknowledgement that come back.
pub(crate) const WRITE: &str = "tellwydar record 1
front linear
processes 2
registers x
0 call write x 5
1 take 0 001e010100000000000000000100000000000000010200000000000000000005
0 take 1 000a01020000000000000001
0 take 1 001301010000000000000000020000000000000002 = done 0
";

/// The report of the run of `WRITE`. The write is first delivered by the second process, in event 1.
pub(crate) const REPORT: &str = "awreg report 2
front linear
processes 2
registers 1
x
history 2
       0  p0    #0       call    write x 5
       3  p0    #0       answer  done
order 1
p0 #0
points 1
p0 #0 at 1
end
";

/// A compare-and-swap of the first of two processes, whose cast the second one takes.
const COMPARED: &str = "tellwydar record 1
front linear
processes 2
registers x
0 call cas x 0 5
1 take 0 00260401000000000000000001000000000000000104000000000000000000000000000000000005
0 take 1 000a01020000000000000001
0 take 1 001301010000000000000000020000000000000002 = done 0
";

/// The report of its run.
const COMPARED_REPORT: &str = "awreg report 3
front linear
processes 2
registers 1
x
history 2
       0  p0    #0       call    cas x 0 5
       3  p0    #0       answer  done
order 1
p0 #0
points 1
p0 #0 at 1
end
";

/// One process compares twice, and finds another value the second time.
const UNEQUAL: &str = "tellwydar record 1
front local-read
processes 1
registers x
0 call cas x 0 5 = done 0
0 call cas x 0 6 = unequal 1
";

/// The report of its run.
const UNEQUAL_REPORT: &str = "awreg report 3
front local-read
processes 1
registers 1
x
history 4
       0  p0    #0       call    cas x 0 5
       0  p0    #0       answer  done
       1  p0    #1       call    cas x 0 6
       1  p0    #1       answer  unequal
order 2
p0 #0
p0 #1
end
";

/// A change of the record `WRITE`, and what is told of it then.
struct Change {
    old: &'static str,
    new: &'static str,
    /// The line that `verify` tells.
    line: &'static str,
    /// What `why` tells after that line.
    reason: &'static str,
}

/// Changes, with what is told of them, worked out by hand.
const CHANGES: [Change; 13] = [
    Change {
        old: "= done 0",
        new: "= done 1",
        line: "line 8: unfaithful\n",
        reason: "8 | 0 take 1 001301010000000000000000020000000000000002 = done 1
  | ^
after the lines before it, this one is 0 take 1 001301010000000000000000020000000000000002 = done 0
",
    },
    Change {
        old: " = done 0",
        new: "",
        line: "line 8: unfaithful\n",
        reason: "8 | 0 take 1 001301010000000000000000020000000000000002
  | ^
after the lines before it, this one is 0 take 1 001301010000000000000000020000000000000002 = done 0
",
    },
    Change {
        old: "write x 5",
        new: "write x 6",
        line: "line 6: unfaithful\n",
        reason: "6 | 1 take 0 001e010100000000000000000100000000000000010200000000000000000005
  | ^
process 0 put no such frame for process 1 before this line
it put another body under that number, on line 5
",
    },
    Change {
        old: "0000000005\n",
        new: "0000000006\n",
        line: "line 6: unfaithful\n",
        reason: "6 | 1 take 0 001e010100000000000000000100000000000000010200000000000000000006
  | ^
process 0 put no such frame for process 1 before this line
it put another body under that number, on line 5
",
    },
    Change {
        old: "1 take 0",
        new: "2 take 0",
        line: "line 6: unfaithful\n",
        reason: "6 | 2 take 0 001e010100000000000000000100000000000000010200000000000000000005
  | ^
there is no process 2: the processes are 0 to 1
",
    },
    Change {
        old: "1 take 0",
        new: "1 take 1",
        line: "line 6: unfaithful\n",
        reason: "6 | 1 take 1 001e010100000000000000000100000000000000010200000000000000000005
  | ^
no wire goes from a process to itself
",
    },
    Change {
        old: "0 take 1 000a",
        new: "0 call read x\n0 take 1 000a",
        line: "line 7: unfaithful\n",
        reason: "7 | 0 call read x
  | ^
process 0 runs its operation 0, called on line 5
",
    },
    Change {
        old: "000a0102",
        new: "000A0102",
        line: "line 7: form\n",
        reason: "7 | 0 take 1 000A01020000000000000001
  | ^
expected a step, as in 0 call write x 5, 1 take 0 and a frame, or 0 tick, with = and a reply if it has one
",
    },
    Change {
        old: "000a0102",
        new: "000b0102",
        line: "line 7: form\n",
        reason: "7 | 0 take 1 000b01020000000000000001
  | ^
expected a step, as in 0 call write x 5, 1 take 0 and a frame, or 0 tick, with = and a reply if it has one
",
    },
    Change {
        old: "write x 5",
        new: "write y 5",
        line: "line 5: form\n",
        reason: "5 | 0 call write y 5
  | ^
expected a step, as in 0 call write x 5, 1 take 0 and a frame, or 0 tick, with = and a reply if it has one
",
    },
    Change {
        old: "0 call",
        new: "0 coll",
        line: "line 5: form\n",
        reason: "5 | 0 coll write x 5
  |   ^
\"coll\": did you mean call?
",
    },
    Change {
        old: "processes 2",
        new: "processes 65",
        line: "line 3: range\n",
        reason: "3 | processes 65
  |           ^
65 is out of range: the number of processes is from 1 to 64
",
    },
    Change {
        old: "linear",
        new: "local",
        line: "line 2: name\n",
        reason: "2 | front local
  |       ^
expected linear, local-read or local-write, found \"local\"
",
    },
];

#[test]
fn a_record_worked_by_hand_has_the_report_of_its_run(rt: HostRuntime) {
    assert!(rt; tells(rt.alloc(), Task::Verify, WRITE, (0, REPORT, "")));
}

#[test]
fn a_record_of_comparisons_has_the_report_of_its_run(rt: HostRuntime) {
    assert!(rt; tells(rt.alloc(), Task::Verify, COMPARED, (0, COMPARED_REPORT, "")));
    assert!(rt; tells(rt.alloc(), Task::Verify, UNEQUAL, (0, UNEQUAL_REPORT, "")));
}

#[test]
fn a_record_that_ends_in_its_head_is_told_there(rt: HostRuntime) {
    let told = (1, "", "line 2: end\n");
    assert!(rt; tells(rt.alloc(), Task::Verify, "tellwydar record 1\n", told));
}

/// What is told of the record with the one in the place of the other.
fn told_of(
    alloc: Global,
    task: Task,
    change: &Change,
    told: (u8, &str, &str),
) -> Result<bool, AllocError> {
    let Some((front, rest)) = WRITE.split_once(change.old) else {
        return Ok(false);
    };
    let new = change.new;
    let text = format!(in alloc; "{front}{new}{rest}")?;
    Ok(tells(alloc, task, text.as_str(), told))
}

#[test]
fn a_changed_record_is_refused_at_its_line(rt: HostRuntime) -> Result<(), AllocError> {
    for change in &CHANGES {
        let told = (1, "", change.line);
        assert!(rt;
            told_of(rt.alloc(), Task::Verify, change, told)?,
            "{}",
            change.new
        );
    }
    Ok(())
}

#[test]
fn what_is_wrong_with_a_changed_record_is_told(rt: HostRuntime) -> Result<(), AllocError> {
    let alloc = rt.alloc();
    for change in &CHANGES {
        let (line, reason) = (change.line, change.reason);
        let answer = format!(in alloc; "{line}{reason}")?;
        assert!(rt;
            told_of(alloc, Task::Why, change, (1, answer.as_str(), ""))?,
            "{}",
            change.new
        );
    }
    Ok(())
}

#[test]
fn a_record_that_is_a_run_is_told_as_one(rt: HostRuntime) {
    let answer = "a record: 2 processes, 1 register, linear, 4 steps, a run\n";
    assert!(rt; tells(rt.alloc(), Task::Why, WRITE, (0, answer, "")));
}

#[test]
fn the_reason_of_a_record_that_ends_in_its_head_is_what_is_missing(rt: HostRuntime) {
    let answer = "line 3: end
the text ends before a line that it needs: processes and a number, as in processes 2
";
    let text = "tellwydar record 1\nfront linear\n";
    assert!(rt; tells(rt.alloc(), Task::Why, text, (1, answer, "")));
}

/// The record, judged.
#[derive(Clone, Copy)]
struct Judged;

impl Trial for Judged {
    fn answer<A: Allocator + Copy>(&self, alloc: A, ample: Global) -> Result<Option<String>, Fail> {
        let mut reader = WRITE.as_bytes();
        let (mut output, mut errors) = (Vec::new(ample), Vec::new(ample));
        run_command(Verify, alloc, &mut reader, &mut output, &mut errors);
        Ok(answer_of(ample, output, errors.as_slice()))
    }
}

#[test]
fn want_of_memory_is_told_of_a_record(rt: HostRuntime) -> Result<(), Fail> {
    assert!(rt; refusals(&Judged, rt.alloc())? > 3);
    Ok(())
}
