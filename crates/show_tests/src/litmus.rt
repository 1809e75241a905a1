//! Litmus tests: what small workloads answer under each front end, against all interleavings of their operations,
//! worked out by hand.
use reg_commands::{OfDocument, run_command};
use reg_show::{MOST_PLAYS, ManyPlays};
use std::alloc::Global;

/// A workload without its front end, how often it is played, and what its reads and swaps may answer, by process and
/// number: one digit for each value.
struct Litmus {
    work: &'static str,
    plays: u32,
    allowed: &'static [&'static str],
}

const STORE_BUFFERING: &str = "registers = [\"x\", \"y\"]
scripts = [[\"write x 1\", \"read y\"], [\"write y 1\", \"read x\"]]
";

const FRONTS: [&str; 3] = ["linear", "local-read", "local-write"];

/// Store buffering, message passing, coherence of reads, two and two writes, a lock, and independent reads of
/// independent writes. Sequential consistency allows just these outcomes.
const TESTS: [Litmus; 6] = [
    Litmus {
        work: STORE_BUFFERING,
        plays: 40,
        allowed: &["01", "10", "11"],
    },
    Litmus {
        work: "registers = [\"message\", \"flag\"]
scripts = [[\"write message 1\", \"write flag 1\"], [\"read flag\", \"read message\"]]
",
        plays: 40,
        allowed: &["00", "01", "11"],
    },
    Litmus {
        work: "registers = [\"x\"]
scripts = [[\"write x 1\"], [\"read x\", \"read x\"]]
",
        plays: 40,
        allowed: &["00", "01", "11"],
    },
    Litmus {
        work: "registers = [\"x\", \"y\"]
scripts = [[\"write x 1\", \"write y 2\", \"read y\"], [\"write y 1\", \"write x 2\", \"read x\"]]
",
        plays: 10,
        allowed: &["12", "21", "22"],
    },
    Litmus {
        work: "registers = [\"lock\"]
scripts = [[\"swap lock 1\"], [\"swap lock 1\"]]
",
        plays: 40,
        allowed: &["01", "10"],
    },
    Litmus {
        work: "registers = [\"x\", \"y\"]
scripts = [[\"write x 1\"], [\"write y 1\"], [\"read x\", \"read y\"], [\"read y\", \"read x\"]]
",
        plays: 2,
        allowed: &[
            "0000", "0001", "0010", "0011", "0100", "0101", "0110", "0111", "1000", "1001", "1011",
            "1100", "1101", "1110", "1111",
        ],
    },
];

/// What the first hundred plays of store buffering answer under each front end, counted play by play from the schedule
/// and the report of each. Whether a play is linearizable was found by trying all orders of its operations.
const COUNTED: [(&str, &str); 3] = [
    (
        "linear",
        "plays 100
outcomes 2
      99  p0 #1 value 1  p1 #1 value 1  real time    124 events  seed 86  linearizable 0  not linearizable -
       1  p0 #1 value 1  p1 #1 value 0  real time     47 events  seed 89  linearizable 89  not linearizable -
unfinished 0
never drawn 1
",
    ),
    (
        "local-read",
        "plays 100
outcomes 3
      59  p0 #1 value 1  p1 #1 value 1  real time     26 events  seed 76  linearizable 0  not linearizable -
      27  p0 #1 value 1  p1 #1 value 0  real time     32 events  seed 51  linearizable 7  not linearizable -
      14  p0 #1 value 0  p1 #1 value 1  real time     36 events  seed 62  linearizable 11  not linearizable -
unfinished 0
never drawn 0
",
    ),
    (
        "local-write",
        "plays 100
outcomes 3
      46  p0 #1 value 0  p1 #1 value 1  real time     24 events  seed 42  linearizable 1  not linearizable 4
      32  p0 #1 value 1  p1 #1 value 0  real time     24 events  seed 84  linearizable 10  not linearizable 7
      22  p0 #1 value 1  p1 #1 value 1  real time     41 events  seed 30  linearizable 0  not linearizable -
unfinished 0
never drawn 0
",
    ),
];

/// The table of this number of plays of a workload, from this seed on or from the document's own. Empty where it is
/// refused.
pub(crate) fn table(alloc: Global, plays: u32, seed: Option<u32>, text: &str) -> String {
    let mut output = Vec::new(alloc);
    let mut errors = Vec::new(alloc);
    let mut input = text.as_bytes();
    let plays = plays.min(MOST_PLAYS);
    let seed = match seed {
        Some(seed) => Some(seed as u64),
        None => None,
    };
    let (command, global) = (ManyPlays { plays, seed }, alloc);
    let command = OfDocument { command, global };
    let status = run_command(command, alloc, &mut input, &mut output, &mut errors);
    match String::from_utf8(output) {
        Ok(table) if status == 0 => table,
        _ => String::new(alloc),
    }
}

/// The table of this number of plays of a workload under a front end.
pub(crate) fn table_under(alloc: Global, plays: u32, front: &str, work: &str) -> String {
    match format!(in alloc; "front = \"{front}\"\n{work}") {
        Ok(text) => table(alloc, plays, None, text.as_str()),
        Err(_) => String::new(alloc),
    }
}

/// Whether these are the values of a line, one after another.
fn has_values(line: &str, values: &str) -> bool {
    let mut rest = values.as_bytes();
    let mut is_value = false;
    for word in line.split(' ') {
        if is_value {
            match rest.strip_prefix(word.as_bytes()) {
                Some(behind) => rest = behind,
                None => return false,
            }
        }
        is_value = word == "value";
    }
    rest.is_empty()
}

/// Whether the line of an outcome has one that is allowed, or the line is that of a count.
fn is_allowed(line: &str, allowed: &[&str]) -> bool {
    for values in allowed {
        if has_values(line, values) {
            return true;
        }
    }
    !line.starts_with(' ')
}

/// Whether all plays of a table are finished, and each of its outcomes is allowed.
fn are_allowed(table: &str, allowed: &[&str]) -> bool {
    for line in table.lines() {
        if !is_allowed(line, allowed) {
            return false;
        }
    }
    table.starts_with("plays ") && table.contains("\nunfinished 0\nnever drawn ")
}

/// Whether all plays of a test under a front end are finished, and each outcome is allowed.
fn is_kept(alloc: Global, test: &Litmus, front: &str) -> bool {
    let table = table_under(alloc, test.plays, front, test.work);
    are_allowed(table.as_str(), test.allowed)
}

#[test]
fn no_outcome_is_seen_that_sequential_consistency_forbids(rt: HostRuntime) {
    for test in &TESTS {
        for front in &FRONTS {
            assert!(rt; is_kept(rt.alloc(), test, front), "{front} {}", test.work);
        }
    }
}

/// Whether this number of plays of a workload under a front end has this table.
pub(crate) fn has_table(alloc: Global, plays: u32, front: &str, work: &str, right: &str) -> bool {
    let table = table_under(alloc, plays, front, work);
    table.as_str() == right
}

#[test]
fn without_budget_no_play_is_finished(rt: HostRuntime) {
    let work = "registers = [\"x\"]\nscripts = [[\"write x 1\"], [\"read x\"]]\nbudget = 1\n";
    let right = "plays 100\noutcomes 0\nunfinished 100\nnever drawn 2\n";
    assert!(rt; has_table(rt.alloc(), 100, "linear", work, right));
}

#[test]
fn a_hundred_plays_are_counted(rt: HostRuntime) {
    for (front, counted) in &COUNTED {
        assert!(rt;
            has_table(rt.alloc(), 100, front, STORE_BUFFERING, counted),
            "{front}"
        );
    }
}
