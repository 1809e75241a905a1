//! Reports judged by their histories alone: what is told of some that are worked out by hand. Their own orders and
//! points are of no account.
use crate::given::answer_of;
use crate::histories_judged::{Row, gives};
use reg_commands::run_command;
use reg_heap::{Trial, refusals};
use reg_judge::JudgeReport;
use std::alloc::{Allocator, Global};
use std::test::Fail;

/// Process 1 reads 1 once the write of 2 is done: the third answer is the first that no order explains. The report's
/// own order has nothing, and its points are wrong.
const STALE: &str = "awreg report 2
front linear
processes 2
registers 1
x
history 8
       0  p0    #0       call    write x 1
       1  p0    #0       answer  done
       2  p0    #1       call    write x 2
       3  p0    #1       answer  done
       4  p1    #0       call    read x
       5  p1    #0       answer  value 1
       6  p1    #1       call    read x
       7  p1    #1       answer  value 1
order 0
points 1
p1 #0 at 9
end
";

const STALE_TOLD: &str = "no
register x: not linearizable
  by event 5: p1 #0 read x: value 1
  possible: value 2
point order: no
serial order: yes
";

/// Two processes take a lock by swaps that overlap, and both are told that it was free.
const LOCK: &str = "awreg report 2
front linear
processes 2
registers 1
lock
history 4
       0  p0    #0       call    swap lock 1
       1  p1    #0       call    swap lock 2
       2  p0    #0       answer  value 0
       3  p1    #0       answer  value 0
order 2
p0 #0
p1 #0
end
";

const LOCK_TOLD: &str = "no
register lock: not linearizable
  by event 3: p1 #0 swap lock 2: value 0
  possible: value 1
point order: no
serial order: no
";

/// A write has no answer, and its value is read.
const TOOK_EFFECT: &str = "awreg report 2
front linear
processes 2
registers 1
x
history 3
       0  p0    #0       call    write x 5
       1  p1    #0       call    read x
       2  p1    #0       answer  value 5
order 0
end
";

/// A write has no answer, and what is read is older, twice. The third read has no answer either, and is no part of an
/// order.
const NO_EFFECT: &str = "awreg report 2
front linear
processes 2
registers 1
x
history 6
       0  p0    #0       call    write x 5
       1  p1    #0       call    read x
       2  p1    #0       answer  value 0
       3  p1    #1       call    read x
       4  p1    #1       answer  value 0
       5  p1    #2       call    read x
order 0
end
";

const YES: &str = "yes
register x: linearizable
point order: yes
serial order: yes
";

/// The write takes effect at once, and the read after its call.
const TOOK_EFFECT_REPORT: &str = "awreg report 2
front linear
processes 2
registers 1
x
history 3
       0  p0    #0       call    write x 5
       1  p1    #0       call    read x
       2  p1    #0       answer  value 5
order 2
p0 #0
p1 #0
points 2
p0 #0 at 0
p1 #0 at 1
end
";

/// A write to x has no answer. Its value is read, and then an older one: no order explains that, at x alone.
const TWO_REGISTERS: &str = "awreg report 2
front local-read
processes 2
registers 2
x
y
history 7
       0  p0    #0       call    write x 5
       1  p1    #0       call    read x
       2  p1    #0       answer  value 5
       3  p1    #1       call    read y
       4  p1    #1       answer  value 0
       5  p1    #2       call    read x
       6  p1    #2       answer  value 0
order 0
end
";

const TWO_REGISTERS_TOLD: &str = "no
register x: not linearizable
  by event 6: p1 #2 read x: value 0
  possible: value 5
  under way event 0: p0 #0 write x 5
register y: linearizable
point order: no
serial order: no
";

/// One compare-and-swap found 0 and wrote 7; the other one, after it, was told that it wrote too.
const COMPARED: &str = "awreg report 3
front linear
processes 2
registers 1
x
history 4
       0  p0    #0       call    cas x 0 7
       0  p0    #0       answer  done
       1  p1    #0       call    cas x 0 8
       2  p1    #0       answer  done
order 0
end
";

const COMPARED_TOLD: &str = "no
register x: not linearizable
  by event 2: p1 #0 cas x 0 8: done
  possible: unequal
point order: no
serial order: no
";

/// The other one was told that it found another value.
const UNEQUAL: &str = "awreg report 3
front linear
processes 2
registers 1
x
history 4
       0  p0    #0       call    cas x 0 7
       0  p0    #0       answer  done
       1  p1    #0       call    cas x 0 8
       2  p1    #0       answer  unequal
order 0
end
";

const FIRST_REFUSED: &str =
    "refused: --first is for lines of JSON and EDN: the registers of a report begin with 0\n";

const ROWS: [Row; 12] = [
    ("judge", STALE, (1, STALE_TOLD, "")),
    ("judge --report", STALE, (1, STALE_TOLD, "")),
    ("judge", LOCK, (1, LOCK_TOLD, "")),
    ("judge", TOOK_EFFECT, (0, YES, "")),
    ("judge --report", TOOK_EFFECT, (0, TOOK_EFFECT_REPORT, "")),
    ("judge", NO_EFFECT, (0, YES, "")),
    ("judge", TWO_REGISTERS, (1, TWO_REGISTERS_TOLD, "")),
    ("judge", COMPARED, (1, COMPARED_TOLD, "")),
    ("judge", UNEQUAL, (0, YES, "")),
    ("judge --first 0", UNEQUAL, (1, "", FIRST_REFUSED)),
    (
        "judge",
        "awreg report 2\nfront linear\n",
        (1, "", "refused: line 3: end\n"),
    ),
    (
        "judge",
        "processes 1\nregisters x\nfront linear\n",
        (1, "", "refused: line 1: wanted a JSON object\n"),
    ),
];

#[test]
fn reports_worked_by_hand_are_judged(rt: HostRuntime) {
    for row in &ROWS {
        assert!(rt; gives(&rt, row), "{} < {}", row.0, row.1);
    }
}

/// A report with a point order, judged.
#[derive(Clone, Copy)]
struct Judged;

impl Trial for Judged {
    fn answer<A: Allocator + Copy>(&self, alloc: A, ample: Global) -> Result<Option<String>, Fail> {
        let mut reader = UNEQUAL.as_bytes();
        let (mut output, mut errors) = (Vec::new(ample), Vec::new(ample));
        let command = JudgeReport { as_report: true };
        run_command(command, alloc, &mut reader, &mut output, &mut errors);
        Ok(answer_of(ample, output, errors.as_slice()))
    }
}

#[test]
fn want_of_memory_is_told_of_a_report_that_is_judged(rt: HostRuntime) -> Result<(), Fail> {
    assert!(rt; refusals(&Judged, rt.alloc())? > 3);
    Ok(())
}
