//! The line of each stop on the error stream: its text, and a line feed.
use reg_cli::{Stop, run_live};
use reg_commands::{Fault, Refusal};
use std::alloc::Global;
use std::sync::Wait;
use std::thread::Threads;
use std::time::Clock;

/// Each stop, and its line.
const LINES: [(Stop, &str); 7] = [
    (
        Stop::Command {
            fault: Fault::NotText,
        },
        "input: not text\n",
    ),
    (Stop::Failed { process: 0 }, "process 0: failed\n"),
    (
        Stop::NoRegister { process: 63 },
        "process 63: no register\n",
    ),
    (
        Stop::Behind {
            process: 7,
            length: 18446744073709551615,
        },
        "process 7: behind 18446744073709551615\n",
    ),
    (Stop::Full { process: 255 }, "process 255: full\n"),
    (
        Stop::Unfaithful { place: 4294967296 },
        "close: unfaithful 4294967296\n",
    ),
    (Stop::Mismatch { process: 10 }, "close: mismatch 10\n"),
];

/// Whether a stop is told by its line, and is shown so. Both texts are empty.
fn tells(errors: &mut Vec<u8>, text: &mut String, stop: Stop, line: &str) -> bool {
    write!(text, "{stop}\n").is_ok()
        && stop.write_line(errors).is_ok()
        && errors.as_slice() == line.as_bytes()
        && text.as_str() == line
}

/// Whether this is the line of a stop, and what the stop shows.
fn has_line(alloc: Global, stop: Stop, line: &str) -> bool {
    let mut errors = Vec::new(alloc);
    let mut text = String::new(alloc);
    tells(&mut errors, &mut text, stop, line)
}

#[test]
fn stops_have_their_lines(rt: HostRuntime) {
    for (stop, line) in &LINES {
        assert!(rt; has_line(rt.alloc(), *stop, line));
    }
}

/// Each input is refused before a thread starts, and this line tells why.
const REFUSED: [(&[u8], &str); 3] = [
    (b"\xff", "input: not text\n"),
    (b"front", "toml\n"),
    (b"", "missing front\n"),
];

/// Whether a workload is refused with this line.
fn is_refused<R: Threads + Wait + Clock + Copy + Send + Sync + 'static>(
    rt: R,
    alloc: Global,
    input: &[u8],
    line: &str,
) -> bool {
    let mut reader = input;
    let mut written = Vec::new(alloc);
    let mut errors = Vec::new(alloc);
    let status = run_live(rt, alloc, &mut reader, &mut written, &mut errors);
    status == 1 && written.is_empty() && errors.as_slice() == line.as_bytes()
}

#[test]
fn refused_workloads_are_told(rt: HostRuntime) {
    for (input, line) in &REFUSED {
        assert!(rt; is_refused(rt, rt.alloc(), *input, line));
    }
}
