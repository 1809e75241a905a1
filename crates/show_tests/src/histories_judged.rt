//! Histories of other systems judged: what is told of some that are worked out by hand.
use crate::lines::words_of;
use reg_cli::{Asked, choose, run_text};
use reg_show_cli::run_line;
use std::process::Abort;

/// A command line, its input, and what is to be given: the status, the output, and the line of a fault.
pub(crate) type Row = (&'static str, &'static str, (u8, &'static str, &'static str));

/// Process 2 reads the new value, the old one, and the new one again. The first answer that no order explains is in
/// line 7, and not the last.
pub(crate) const STALE: &str = "\
{\"process\": 0, \"type\": \"invoke\", \"f\": \"write\", \"key\": \"x\", \"value\": 1}
{\"process\": 0, \"type\": \"ok\", \"f\": \"write\", \"key\": \"x\", \"value\": 1}
{\"process\": 1, \"type\": \"invoke\", \"f\": \"write\", \"key\": \"x\", \"value\": 2}
{\"process\": 2, \"type\": \"invoke\", \"f\": \"read\", \"key\": \"x\", \"value\": null}
{\"process\": 2, \"type\": \"ok\", \"f\": \"read\", \"key\": \"x\", \"value\": 2}
{\"process\": 2, \"type\": \"invoke\", \"f\": \"read\", \"key\": \"x\", \"value\": null}
{\"process\": 2, \"type\": \"ok\", \"f\": \"read\", \"key\": \"x\", \"value\": 1}
{\"process\": 1, \"type\": \"ok\", \"f\": \"write\", \"key\": \"x\", \"value\": 2}
{\"process\": 2, \"type\": \"invoke\", \"f\": \"read\", \"key\": \"x\", \"value\": null}
{\"process\": 2, \"type\": \"ok\", \"f\": \"read\", \"key\": \"x\", \"value\": 2}
";

pub(crate) const STALE_TOLD: &str = "no
key \"x\": not linearizable
  by line 7: process 2 read 1
  possible: 2
  under way line 3: process 1 write 2
first value: 0
point order: no
serial order: no
";

/// At x all is well. At y nobody wrote 7, which is answered first.
const TWO_KEYS: &str = "\
{\"process\": 0, \"type\": \"invoke\", \"f\": \"write\", \"key\": \"x\", \"value\": 1}
{\"process\": 0, \"type\": \"ok\", \"f\": \"write\", \"key\": \"x\", \"value\": 1}
{\"process\": 1, \"type\": \"invoke\", \"f\": \"read\", \"key\": \"y\"}
{\"process\": 1, \"type\": \"ok\", \"f\": \"read\", \"key\": \"y\", \"value\": 7}
{\"process\": 0, \"type\": \"invoke\", \"f\": \"read\", \"key\": \"x\"}
{\"process\": 0, \"type\": \"ok\", \"f\": \"read\", \"key\": \"x\", \"value\": 1}
{\"process\": 1, \"type\": \"invoke\", \"f\": \"read\", \"key\": \"y\"}
{\"process\": 1, \"type\": \"ok\", \"f\": \"read\", \"key\": \"y\", \"value\": 8}
";

const TWO_KEYS_TOLD: &str = "no
key \"x\": linearizable
key \"y\": not linearizable
  by line 4: process 1 read 7
  possible: 0
first value: 0
point order: no
serial order: no
";

/// At each key all is well, and so it is at both.
pub(crate) const BOTH_WELL: &str = "\
{\"process\": 0, \"type\": \"invoke\", \"f\": \"write\", \"key\": 1, \"value\": 5}
{\"process\": 0, \"type\": \"ok\", \"f\": \"write\", \"key\": 1, \"value\": 5}
{\"process\": 1, \"type\": \"invoke\", \"f\": \"swap\", \"key\": \"1\", \"value\": 6}
{\"process\": 1, \"type\": \"ok\", \"f\": \"swap\", \"key\": \"1\", \"value\": 0}
";

const BOTH_WELL_TOLD: &str = "yes
key 1: linearizable
key \"1\": linearizable
first value: 0
point order: yes
serial order: yes
";

/// A register holds 5, and nobody wrote.
const FIVE: &str = "\
{\"process\": 0, \"type\": \"invoke\", \"f\": \"read\", \"key\": \"x\"}
{\"process\": 0, \"type\": \"ok\", \"f\": \"read\", \"key\": \"x\", \"value\": 5}
";

const FIVE_TOLD: &str = "no
key \"x\": not linearizable
  by line 2: process 0 read 5
  possible: 0
first value: 0
point order: no
serial order: no
";

const FIVE_FIRST_TOLD: &str = "yes
key \"x\": linearizable
first value: 5
point order: yes
serial order: yes
";

const STRING_FIRST_TOLD: &str = "no
key \"x\": not linearizable
  by line 2: process 0 read 5
  possible: \"5\"
first value: \"5\"
point order: no
serial order: no
";

const FIRST_REFUSED: &str =
    "refused: --first: wanted an integer, a string or null, as JSON has it\n";

/// A value is written and read. Of a key that is no register's name the register is a.
pub(crate) const READ_BACK: &str = "\
{\"process\": \"first client\", \"type\": \"invoke\", \"f\": \"write\", \"key\": \"X 1\", \"value\": \"new\"}
{\"process\": \"first client\", \"type\": \"ok\", \"f\": \"write\", \"key\": \"X 1\", \"value\": \"new\"}
{\"process\": \"other client\", \"type\": \"invoke\", \"f\": \"read\", \"key\": \"X 1\"}
{\"process\": \"other client\", \"type\": \"ok\", \"f\": \"read\", \"key\": \"X 1\", \"value\": \"new\"}
";

/// Its report. Null is told of first, so the value that is written is 1; and the two calls take one place.
const READ_BACK_REPORT: &str = "awreg report 2
front observed
processes 64
registers 1
a
history 4
       0  p0    #0       call    write a 1
       1  p0    #0       answer  done
       2  p0    #1       call    read a
       3  p0    #1       answer  value 1
order 2
p0 #0
p0 #1
points 2
p0 #0 at 0
p0 #1 at 2
end
";

/// A compare-and-swap finds another value, while the register has the expected one.
const UNEQUAL: &str = "\
{\"process\": 0, \"type\": \"invoke\", \"f\": \"cas\", \"key\": \"x\", \"value\": [0, 1]}
{\"process\": 0, \"type\": \"fail\", \"f\": \"cas\", \"key\": \"x\", \"value\": [0, 1], \"error\": \"unequal\"}
";

pub(crate) const UNEQUAL_TOLD: &str = "no
key \"x\": not linearizable
  by line 2: process 0 cas unequal
  possible: done
first value: 0
point order: no
serial order: no
";

/// It fails, and nobody knows why.
const FAILED: &str = "\
{\"process\": 0, \"type\": \"invoke\", \"f\": \"cas\", \"key\": \"x\", \"value\": [0, 1]}
{\"process\": 0, \"type\": \"fail\", \"f\": \"cas\", \"key\": \"x\", \"value\": [0, 1]}
";

pub(crate) const FAILED_TOLD: &str = "yes
key \"x\": linearizable
first value: 0
point order: yes
serial order: yes
";

const NO_PROCESS: &str = "refused: line 2: wanted process, an integer or a string\n";

const ROWS: [Row; 16] = [
    ("judge", STALE, (1, STALE_TOLD, "")),
    ("judge", TWO_KEYS, (1, TWO_KEYS_TOLD, "")),
    ("judge --report", TWO_KEYS, (1, TWO_KEYS_TOLD, "")),
    ("judge", BOTH_WELL, (0, BOTH_WELL_TOLD, "")),
    ("judge", FIVE, (1, FIVE_TOLD, "")),
    ("judge --first 5", FIVE, (0, FIVE_FIRST_TOLD, "")),
    ("judge --first \"5\"", FIVE, (1, STRING_FIRST_TOLD, "")),
    ("judge --first five", FIVE, (1, "", FIRST_REFUSED)),
    ("judge --first 05", FIVE, (1, "", FIRST_REFUSED)),
    ("judge --first 5.5", FIVE, (1, "", FIRST_REFUSED)),
    ("judge --first [5]", FIVE, (1, "", FIRST_REFUSED)),
    ("judge --first --report", FIVE, (1, "", FIRST_REFUSED)),
    ("judge --report", READ_BACK, (0, READ_BACK_REPORT, "")),
    ("judge", UNEQUAL, (1, UNEQUAL_TOLD, "")),
    ("judge", FAILED, (0, FAILED_TOLD, "")),
    ("judge", "\n{}\n", (1, "", NO_PROCESS)),
];

/// Whether a command line gives this for its input.
pub(crate) fn gives(rt: &(impl Abort + AllocGlobal), row: &Row) -> bool {
    let (line, text, (status, wanted, faults)) = *row;
    let words = words_of(rt, rt.alloc(), "awshow", line);
    let (mut reader, mut output, mut errors) = (
        text.as_bytes(),
        Vec::new(rt.alloc()),
        Vec::new(rt.alloc()),
    );
    let given = run_line(rt, words.as_slice(), &mut reader, &mut output, &mut errors);
    given == status
        && output.as_slice() == wanted.as_bytes()
        && errors.as_slice() == faults.as_bytes()
}

#[test]
fn histories_worked_by_hand_are_judged(rt: HostRuntime) {
    for row in &ROWS {
        assert!(rt; gives(&rt, row), "{} < {}", row.0, row.1);
    }
}

#[test]
fn the_report_of_a_history_is_accepted(rt: HostRuntime) {
    let words = words_of(&rt, rt.alloc(), "awreg", "check");
    let mut reader = READ_BACK_REPORT.as_bytes();
    let (mut output, mut errors) = (Vec::new(rt.alloc()), Vec::new(rt.alloc()));
    let status = match choose(rt.alloc(), words.as_slice()) {
        Ok(Asked::Text { command }) => {
            run_text(rt.alloc(), command, &mut reader, &mut output, &mut errors)
        }
        _ => 255,
    };
    assert_eq!(rt; status, 0);
    assert!(rt; output.as_slice() == "serial yes\npoints yes\n".as_bytes());
}
