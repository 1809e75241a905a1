//! Workloads performed by threads: the reports that are written, and what the checker says of them.
use reg_cli::{Command, run_live, run_text};
use std::alloc::{AllocError, Global};
use std::sync::Wait;
use std::thread::Threads;
use std::time::Clock;

/// One process writes a register and reads it.
const ONE: &str = "front = \"linear\"
registers = [\"x\"]
scripts = [[\"write x 5\", \"read x\"]]
";

/// The report of `ONE`: with one process there are no frames and no ticks, so it is the same each time.
const ONE_REPORT: &str = "awreg report 2
front linear
processes 1
registers 1
x
history 4
       0  p0    #0       call    write x 5
       0  p0    #0       answer  done
       1  p0    #1       call    read x
       1  p0    #1       answer  value 5
order 2
p0 #0
p0 #1
points 2
p0 #0 at 0
p0 #1 at 1
end
";

const LINEAR: &str = "front = \"linear\"
registers = [\"x\", \"y\"]
scripts = [[\"write x 5\", \"read y\", \"swap y 2\"], [\"swap y 1\", \"read x\"]]
";

const LOCAL_READ: &str = "front = \"local-read\"
registers = [\"x\", \"y\"]
scripts = [[\"write x 5\", \"read y\", \"swap y 2\"], [], [\"swap y 1\", \"read x\"]]
";

const LOCAL_WRITE: &str = "front = \"local-write\"
registers = [\"x\", \"y\"]
scripts = [[\"write x 5\", \"read y\", \"swap y 2\"], [\"swap y 1\", \"read x\"], [\"read y\"]]
";

const EMPTY: &str = "front = \"linear\"
registers = [\"x\"]
scripts = [[], []]
";

/// What threads make of a workload. None where it is refused.
fn lived<R: Threads + Wait + Clock + Copy + Send + Sync + 'static>(
    rt: R,
    alloc: Global,
    text: &str,
) -> Option<Vec<u8>> {
    let mut reader = text.as_bytes();
    let (mut output, mut errors) = (Vec::new(alloc), Vec::new(alloc));
    let status = run_live(rt, alloc, &mut reader, &mut output, &mut errors);
    if status == 0 && errors.is_empty() {
        return Some(output);
    }
    None
}

/// Whether the checker says this of a report.
fn is_checked(alloc: Global, report: &[u8], verdicts: &str) -> bool {
    let mut reader = report;
    let (mut output, mut errors) = (Vec::new(alloc), Vec::new(alloc));
    let status = run_text(alloc, Command::Check, &mut reader, &mut output, &mut errors);
    status == 0 && output.as_slice() == verdicts.as_bytes()
}

#[test]
fn one_process_has_one_report(rt: HostRuntime) {
    let report = lived(rt, rt.alloc(), ONE).expect(&rt, "a report");
    assert!(rt; report.as_slice() == ONE_REPORT.as_bytes());
}

#[test]
fn reports_of_threads_are_accepted(rt: HostRuntime) {
    for (text, verdicts) in [
        (LINEAR, "serial yes\npoints yes\n"),
        (LOCAL_READ, "serial yes\n"),
        (LOCAL_WRITE, "serial yes\n"),
        (EMPTY, "serial yes\npoints yes\n"),
    ] {
        let report = lived(rt, rt.alloc(), text).expect(&rt, "a report");
        assert!(rt;
            is_checked(rt.alloc(), report.as_slice(), verdicts),
            "{text}"
        );
    }
}

/// Adds a workload of 64 processes, of which the first writes and all others read.
fn add_largest(text: &mut String) -> Result<(), AllocError> {
    text.push_str("front = \"local-read\"\nregisters = [\"x\"]\nscripts = [[\"write x 1\"]")?;
    for _reader in 1..64u8 {
        text.push_str(", [\"read x\"]")?;
    }
    text.push_str("]\n")
}

#[test]
fn so_many_processes_are_performed(rt: HostRuntime) {
    let alloc = rt.alloc();
    let mut text = String::new(alloc);
    let added = add_largest(&mut text).is_ok();
    assert_eq!(rt;
        (added, lived(rt, alloc, text.as_str()).is_some()),
        (true, true)
    );
}
