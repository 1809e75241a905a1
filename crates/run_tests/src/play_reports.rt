//! Plays of workloads, with reports worked out apart from this code, and documents that are refused.
use crate::commands::{Given, gives};
use crate::demands::demand;
use crate::plays::SMALL;
use crate::replay_reports::has_report;
use crate::streams::demand_each_growth;
use reg_commands::Command;
use std::alloc::{AllocError, Global};

/// How the report of a play of the small workload begins.
const SMALL_HEAD: &str = "awreg report 2
front local-write
processes 2
registers 1
x
";

/// The rest of the report of the small workload's fair play.
const FAIR: &str = "history 6
       0  p0    #0       call    write x 5
       0  p0    #0       answer  done
       1  p1    #0       call    read x
       1  p1    #0       answer  value 0
       4  p0    #1       call    read x
       5  p0    #1       answer  value 5
order 3
p1 #0
p0 #0
p0 #1
end
";

/// The rest of the report of the small workload's fair play, up to the third event.
const FAIR_THREE: &str = "history 4
       0  p0    #0       call    write x 5
       0  p0    #0       answer  done
       1  p1    #0       call    read x
       1  p1    #0       answer  value 0
order 2
p1 #0
p0 #0
end
";

/// The rest of the reports of the small workload's seeded plays, by seed, where one frame of five is lost and one of
/// five can be taken again.
const SEEDED: &[&str] = &[
    "history 6
       0  p1    #0       call    read x
       0  p1    #0       answer  value 0
       1  p0    #0       call    write x 5
       1  p0    #0       answer  done
       3  p0    #1       call    read x
      17  p0    #1       answer  value 5
order 3
p1 #0
p0 #0
p0 #1
end
",
    "history 6
       0  p0    #0       call    write x 5
       0  p0    #0       answer  done
       3  p0    #1       call    read x
       4  p1    #0       call    read x
       4  p1    #0       answer  value 0
       8  p0    #1       answer  value 5
order 3
p1 #0
p0 #0
p0 #1
end
",
    "history 6
       0  p0    #0       call    write x 5
       0  p0    #0       answer  done
       1  p1    #0       call    read x
       1  p1    #0       answer  value 0
       7  p0    #1       call    read x
       9  p0    #1       answer  value 5
order 3
p1 #0
p0 #0
p0 #1
end
",
    "history 6
       0  p1    #0       call    read x
       0  p1    #0       answer  value 0
       1  p0    #0       call    write x 5
       1  p0    #0       answer  done
       7  p0    #1       call    read x
       7  p0    #1       answer  value 5
order 3
p1 #0
p0 #0
p0 #1
end
",
    "history 6
       0  p1    #0       call    read x
       0  p1    #0       answer  value 0
       1  p0    #0       call    write x 5
       1  p0    #0       answer  done
       5  p0    #1       call    read x
      12  p0    #1       answer  value 5
order 3
p1 #0
p0 #0
p0 #1
end
",
    "history 6
       0  p0    #0       call    write x 5
       0  p0    #0       answer  done
       1  p0    #1       call    read x
       5  p1    #0       call    read x
       5  p1    #0       answer  value 5
      11  p0    #1       answer  value 5
order 3
p0 #0
p0 #1
p1 #0
end
",
    "history 6
       0  p0    #0       call    write x 5
       0  p0    #0       answer  done
       1  p0    #1       call    read x
       3  p0    #1       answer  value 5
      17  p1    #0       call    read x
      17  p1    #0       answer  value 5
order 3
p0 #0
p0 #1
p1 #0
end
",
    "history 6
       0  p1    #0       call    read x
       0  p1    #0       answer  value 0
       1  p0    #0       call    write x 5
       1  p0    #0       answer  done
       2  p0    #1       call    read x
       7  p0    #1       answer  value 5
order 3
p1 #0
p0 #0
p0 #1
end
",
    "history 6
       0  p0    #0       call    write x 5
       0  p0    #0       answer  done
       2  p1    #0       call    read x
       2  p1    #0       answer  value 0
       3  p0    #1       call    read x
      10  p0    #1       answer  value 5
order 3
p1 #0
p0 #0
p0 #1
end
",
    "history 6
       0  p0    #0       call    write x 5
       0  p0    #0       answer  done
       6  p0    #1       call    read x
      10  p1    #0       call    read x
      10  p1    #0       answer  value 5
      19  p0    #1       answer  value 5
order 3
p0 #0
p0 #1
p1 #0
end
",
];

/// A workload of two operations of each of three processes, without its front end.
const THREE: &str = "registers = [\"x\", \"y\"]
scripts = [[\"write x 1\", \"read y\"], [\"write y 2\", \"read x\"], [\"read x\", \"write x 3\"]]
seed = 7
loss = 10
repeat = 10
budget = 400
";

/// The report of the seeded play of `THREE` by each front end.
const BY_FRONT: &[(&str, &str)] = &[
    (
        "front = \"linear\"\n",
        "awreg report 2
front linear
processes 3
registers 2
x
y
history 10
       0  p2    #0       call    read x
       1  p1    #0       call    write y 2
       7  p0    #0       call    write x 1
      11  p1    #0       answer  done
      21  p1    #1       call    read x
      42  p2    #0       answer  value 0
      43  p2    #1       call    write x 3
      58  p0    #0       answer  done
      64  p0    #1       call    read y
     184  p1    #1       answer  value 1
order 5
p1 #0
p2 #0
p0 #0
p1 #1
p2 #1
points 5
p1 #0 at 6
p2 #0 at 11
p0 #0 at 49
p1 #1 at 70
p2 #1 at 184
end
",
    ),
    (
        "front = \"local-read\"\n",
        "awreg report 2
front local-read
processes 3
registers 2
x
y
history 12
       0  p2    #0       call    read x
       0  p2    #0       answer  value 0
       1  p2    #1       call    write x 3
       2  p0    #0       call    write x 1
       5  p1    #0       call    write y 2
       6  p0    #0       answer  done
       8  p0    #1       call    read y
       8  p0    #1       answer  value 2
      36  p2    #1       answer  done
      43  p1    #0       answer  done
      62  p1    #1       call    read x
      62  p1    #1       answer  value 3
order 6
p2 #0
p0 #0
p1 #0
p0 #1
p2 #1
p1 #1
end
",
    ),
    (
        "front = \"local-write\"\n",
        "awreg report 2
front local-write
processes 3
registers 2
x
y
history 12
       0  p2    #0       call    read x
       0  p2    #0       answer  value 0
       1  p2    #1       call    write x 3
       1  p2    #1       answer  done
       2  p0    #0       call    write x 1
       2  p0    #0       answer  done
       5  p0    #1       call    read y
       8  p1    #0       call    write y 2
       8  p1    #0       answer  done
      16  p0    #1       answer  value 0
      19  p1    #1       call    read x
      48  p1    #1       answer  value 1
order 6
p2 #0
p0 #0
p0 #1
p1 #0
p1 #1
p2 #1
end
",
    ),
];

/// The two parts of a text as one.
fn joined(alloc: Global, head: &str, tail: &str) -> Result<String, AllocError> {
    format!(in alloc; "{head}{tail}")
}

/// Whether a play of the small workload, with these lines more, has this rest of its report, which is judged well.
fn has_small_report(alloc: Global, fair: bool, lines: &str, tail: &str) -> bool {
    let play = Command::Play { fair };
    match joined(alloc, SMALL_HEAD, tail) {
        Ok(report) => has_report(alloc, play, (SMALL, lines), report.as_str()),
        Err(_) => false,
    }
}

#[test]
fn each_fair_play_has_its_report(rt: HostRuntime) {
    for (line, tail) in [("", FAIR), ("budget = 3\n", FAIR_THREE)] {
        demand(&rt, &line, has_small_report(rt.alloc(), true, line, tail));
    }
}

/// Whether the seeded play of the small workload by this seed has this rest of its report.
fn has_seeded_report(alloc: Global, seed: usize, tail: &str) -> bool {
    match format!(in alloc; "loss = 20\nrepeat = 20\nseed = {seed}\n") {
        Ok(lines) => has_small_report(alloc, false, lines.as_str(), tail),
        Err(_) => false,
    }
}

#[test]
fn each_seeded_play_has_its_report(rt: HostRuntime) {
    for (seed, tail) in SEEDED.iter().enumerate() {
        demand(&rt, &seed, has_seeded_report(rt.alloc(), seed, tail));
    }
}

#[test]
fn each_front_end_has_its_report(rt: HostRuntime) {
    let seeded = Command::Play { fair: false };
    for (front, report) in BY_FRONT {
        demand(
            &rt,
            front,
            has_report(rt.alloc(), seeded, (front, THREE), report),
        );
    }
}

const FRONT_ALONE: &str = "front = \"linear\"\n";

const WITHOUT_SCRIPTS: &str = "front = \"linear\"\nregisters = [\"x\"]\n";

/// The two parts of a document, and the line that it is refused with.
const REFUSED: &[(&str, &str, &str)] = &[
    ("", "", "missing front\n"),
    (FRONT_ALONE, "", "missing registers\n"),
    (FRONT_ALONE, "registers = [\"x", "toml\n"),
    (SMALL, "speed = 1\n", "unknown key\n"),
    ("front = 3\n", THREE, "kind front\n"),
    ("front = \"other\"\n", THREE, "range front\n"),
    (WITHOUT_SCRIPTS, "scripts = []\n", "range scripts\n"),
    (SMALL, "seed = -1\n", "range seed\n"),
    (SMALL, "loss = 101\n", "range loss\n"),
    (SMALL, "budget = 0\n", "range budget\n"),
    (
        WITHOUT_SCRIPTS,
        "scripts = [[\"read x\", \"write y 5\"]]\n",
        "script 0 1\n",
    ),
];

/// Whether the fair play and the seeded one of the two parts of a document are refused with this line.
fn is_refused(alloc: Global, document: (&str, &str), line: &str) -> bool {
    let given = Given::Refused(line);
    gives(alloc, Command::Play { fair: true }, document, given)
        && gives(alloc, Command::Play { fair: false }, document, given)
}

#[test]
fn documents_are_refused(rt: HostRuntime) {
    for (head, tail, line) in REFUSED {
        demand(&rt, line, is_refused(rt.alloc(), (head, tail), line));
    }
}

#[test]
fn a_play_with_each_growth_refused(rt: HostRuntime) {
    let report = joined(rt.alloc(), SMALL_HEAD, FAIR).expect(&rt, "memory");
    let command = Command::Play { fair: true };
    demand_each_growth(&rt, rt.alloc(), command, SMALL, report.as_str());
}
