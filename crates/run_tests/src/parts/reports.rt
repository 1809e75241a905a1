//! Reports of each version: how they are written, and the line at which a text is refused.
use crate::demands::{demand, demand_none, demand_same};
use crate::report_texts::{COMPARED, NO_POINTS, NO_POINTS_NOW, ONE_PROCESS, ONE_PROCESS_NOW};
use reg_history::{ReadFault, ReadWhy, Report, read_report, write_report};
use std::alloc::{Allocator, Global};
use std::process::Abort;

/// Whether the report is written as this text. None where memory is refused.
pub(crate) fn is_written_as<A: Allocator + Copy>(
    alloc: A,
    report: &Report<A>,
    text: &str,
) -> Option<bool> {
    let mut out = Vec::new(alloc);
    match write_report(&mut out, report) {
        Ok(()) => Some(out.as_slice() == text.as_bytes()),
        Err(_) => None,
    }
}

/// Whether the text is read, and written as the other.
fn is_written_again(alloc: Global, text: &str, now: &str) -> bool {
    match read_report(alloc, text) {
        Ok(report) => is_written_as(alloc, &report, now) == Some(true),
        Err(_) => false,
    }
}

/// Reports of each version, and each as it is written.
const WRITTEN: &[(&str, &str)] = &[
    (ONE_PROCESS, ONE_PROCESS_NOW),
    (ONE_PROCESS_NOW, ONE_PROCESS_NOW),
    (NO_POINTS, NO_POINTS_NOW),
    (NO_POINTS_NOW, NO_POINTS_NOW),
    (COMPARED, COMPARED),
];

#[test]
fn reports_are_written_in_the_version_that_they_need(rt: HostRuntime) {
    for (text, now) in WRITTEN {
        demand(&rt, text, is_written_again(rt.alloc(), text, now));
    }
}

/// A report of version 1 without entries.
const OLDER: &str =
    "awreg report 1\nfront linear\nprocesses 1\nregisters x\nhistory 0\norder 0\nend\n";

const OLDER_HEAD: &str = "processes 1\nregisters x";

/// A report of version 2 without entries.
const NEWER: &str =
    "awreg report 2\nfront linear\nprocesses 1\nregisters 1\nx\nhistory 0\norder 0\nend\n";

const NEWER_HEAD: &str = "processes 1\nregisters 1\nx";

const NEWER_REST: &str = "registers 1\nx\nhistory 0\norder 0\nend\n";

/// What the text is refused for where a part of it is replaced once.
fn refusal(alloc: Global, text: &str, old: &str, new: &str) -> Option<ReadFault> {
    match text.replacen(alloc, old, new, 1) {
        Ok(changed) => read_report(alloc, changed.as_str()).err(),
        Err(_) => Some(ReadFault::OutOfMemory),
    }
}

/// What is refused at this line.
macro_rules! at {
    ($line:expr, $why:ident) => {
        ReadFault::Line {
            line: $line,
            why: ReadWhy::$why,
        }
    };
}

/// A part of a report, what is put in its place, and the refusal.
type Changed = (&'static str, &'static str, ReadFault);

const CHANGED_ONE_PROCESS: &[Changed] = &[
    ("end\n", "", at!(16, End)),
    ("end\n", "end\n\n", at!(17, End)),
    ("end\n", "end\nend\n", at!(17, End)),
    ("answer  done", "answer done", at!(7, Form)),
    (
        "p0    #0       call    write x 5\n       0  p0    #0       answer  done",
        "p0    #0       answer  done\n       0  p0    #0       call    write x 5",
        at!(6, Place),
    ),
    ("write x 5", "write y 5", at!(6, Name)),
    ("write x 5", "write x 18446744073709551616", at!(6, Range)),
    ("write x 5", "write x 05", at!(6, Form)),
    ("write x 5", "write x 5 ", at!(6, Form)),
    ("write x 5", "write  x 5", at!(6, Form)),
    ("write x 5", "write x 5\r", at!(6, Form)),
    (
        "       0  p0    #0       call",
        " 1048576  p0    #0       call",
        at!(6, Range),
    ),
    (
        "       0  p0    #0       call",
        "       0  p16   #0       call",
        at!(6, Range),
    ),
    (
        "       0  p0    #0       call",
        "       0  p0    #65535   call",
        at!(6, Range),
    ),
    ("history 4", "history 2097153", at!(5, Range)),
    ("history 4", "history 2097152", at!(10, Form)),
    ("history 4", "history 04", at!(5, Form)),
    ("history 4", "history 5", at!(10, Form)),
    ("front linear", "front local read", at!(2, Form)),
    ("front linear", "front abcdefghijklmnopq", at!(2, Form)),
    ("registers x", "registers x x", at!(4, Name)),
    ("registers x", "registers x1", at!(4, Name)),
    ("registers x", "registers", at!(4, Form)),
    ("registers x", "registers x ", at!(4, Form)),
    ("processes 1", "processes 0", at!(3, Range)),
    ("processes 1", "processes 17", at!(3, Range)),
    ("report 1", "report 4", at!(1, Form)),
    ("write x 5", "cas x 0 5", at!(6, Form)),
    ("value 5", "unequal", at!(9, Form)),
    ("p0 #1\npoints", "p0 #65535\npoints", at!(12, Range)),
    ("order 2", "order 1048577", at!(10, Range)),
    ("order 2", "order 1048576", at!(13, Form)),
    ("points 2", "points 1048577", at!(13, Range)),
    ("points 2", "points 1048576", at!(16, Form)),
    ("p0 #1 at 1", "p0 #1 at 1048576", at!(15, Range)),
    ("p0 #1 at 1", "p0 #1 at1", at!(15, Form)),
    ("p0 #1 at 1", "p16 #1 at 1", at!(15, Range)),
];

const CHANGED_ONE_PROCESS_NOW: &[Changed] = &[
    ("report 2", "report 4", at!(1, Form)),
    ("write x 5", "cas x 0 5", at!(7, Form)),
    ("value 5", "unequal", at!(10, Form)),
];

const CHANGED_COMPARED: &[Changed] = &[
    ("report 3", "report 2", at!(7, Form)),
    ("report 3", "report 4", at!(1, Form)),
    ("cas x 0 5", "cas x 5", at!(7, Form)),
    ("cas x 0 5", "cas x 0 5 6", at!(7, Form)),
    ("cas x 0 5", "cas x 0 5 ", at!(7, Form)),
    ("cas x 0 5", "cas x  0 5", at!(7, Form)),
    ("cas x 0 5", "cas x 00 5", at!(7, Form)),
    ("cas x 0 5", "cas x 0 05", at!(7, Form)),
    ("cas x 0 5", "cas x 18446744073709551616 5", at!(7, Range)),
    ("cas x 0 5", "cas x 0 18446744073709551616", at!(7, Range)),
    ("cas x 0 5", "cas y 0 5", at!(7, Name)),
    ("unequal", "unequal ", at!(10, Form)),
    ("unequal", "value 5", at!(10, Place)),
    ("cas x 0 6", "write x 6", at!(10, Place)),
];

const CHANGED_NO_POINTS: &[Changed] = &[
    ("p1    #0       call", "p3    #0       call", at!(8, Place)),
    (NO_POINTS, "", at!(1, End)),
];

const CHANGED_OLDER: &[Changed] = &[
    (OLDER_HEAD, "processes 17\nregisters x", at!(3, Range)),
    (OLDER_HEAD, "processes 1\nregisters 1\nx", at!(4, Name)),
    ("order 0", "order 1\np16 #0", at!(7, Range)),
];

const CHANGED_NEWER: &[Changed] = &[
    (NEWER_HEAD, "processes 65\nregisters 1\nx", at!(3, Range)),
    (NEWER_HEAD, "processes 0\nregisters 1\nx", at!(3, Range)),
    (NEWER_HEAD, "processes 1\nregisters x", at!(4, Form)),
    (NEWER_HEAD, "processes 1\nregisters 01\nx", at!(4, Form)),
    (NEWER_HEAD, "processes 1\nregisters 0", at!(4, Range)),
    (NEWER_HEAD, "processes 1\nregisters 4097", at!(4, Range)),
    (NEWER_HEAD, "processes 1\nregisters 2\nx\nx", at!(6, Name)),
    (NEWER_HEAD, "processes 1\nregisters 2\nx\nx1", at!(6, Name)),
    (NEWER_HEAD, "processes 1\nregisters 2\nx\n", at!(6, Form)),
    (NEWER_HEAD, "processes 1\nregisters 2\nx\ny z", at!(6, Form)),
    (NEWER_HEAD, "processes 1\nregisters 2\nx\ny ", at!(6, Form)),
    (NEWER_HEAD, "processes 1\nregisters 2\nx\né", at!(6, Form)),
    (
        NEWER_HEAD,
        "processes 1\nregisters 3\nx\nx\ny z",
        at!(6, Name),
    ),
    (NEWER_HEAD, "processes 1\nregisters 9\nx\nx", at!(6, Name)),
    (NEWER_HEAD, "processes 1\nregisters 9\nx\ny", at!(7, Form)),
    (NEWER_HEAD, "processes 1\nregisters 1\nx\ny", at!(6, Form)),
    (NEWER_REST, "registers 3\nx\ny\n", at!(7, End)),
    (NEWER_REST, "registers 3\nx\nx\n", at!(6, Name)),
    ("order 0", "order 1\np64 #0", at!(8, Range)),
];

/// Demands that a text is refused so where it is changed.
fn demand_refusals(rt: &(impl Abort + AllocGlobal), text: &str, rows: &[Changed]) {
    for (old, new, fault) in rows {
        demand(rt, new, refusal(rt.alloc(), text, old, new) == Some(*fault));
    }
}

/// The same of each report of version 1. (A function names the texts of one version, since one that names many is slow
/// to prove.)
fn demand_refusals_of_1(rt: &(impl Abort + AllocGlobal)) {
    demand_refusals(rt, ONE_PROCESS, CHANGED_ONE_PROCESS);
    demand_refusals(rt, NO_POINTS, CHANGED_NO_POINTS);
    demand_refusals(rt, OLDER, CHANGED_OLDER);
}

/// The same of each report of version 2.
fn demand_refusals_of_2(rt: &(impl Abort + AllocGlobal)) {
    demand_refusals(rt, ONE_PROCESS_NOW, CHANGED_ONE_PROCESS_NOW);
    demand_refusals(rt, NEWER, CHANGED_NEWER);
}

#[test]
fn a_report_is_refused_at_its_line(rt: HostRuntime) {
    demand_refusals_of_1(&rt);
    demand_refusals_of_2(&rt);
    demand_refusals(&rt, COMPARED, CHANGED_COMPARED);
}

/// A report, a part of it, and what is put in its place, at the limits of each version, where the report is still
/// read.
const AT_LIMITS: &[(&str, &str, &str)] = &[
    (ONE_PROCESS, "front linear", "front abcdefghijklmnop"),
    (ONE_PROCESS, "processes 1", "processes 16"),
    (ONE_PROCESS, "registers x", "registers x abcdefghijklmnop"),
    (ONE_PROCESS, "write x 5", "write x 18446744073709551615"),
    (
        ONE_PROCESS,
        "       1  p0    #1       answer",
        " 1048575  p0    #1       answer",
    ),
    (ONE_PROCESS, "p0 #1\npoints", "p0 #65534\npoints"),
    (ONE_PROCESS, "p0 #1 at 1", "p0 #1 at 1048575"),
    (ONE_PROCESS, "p0 #1 at 1", "p15 #1 at 1"),
    (NO_POINTS, "p1 #0\n", "p15 #0\n"),
    (OLDER, OLDER_HEAD, "processes 16\nregisters x y"),
    (NEWER, NEWER_HEAD, "processes 17\nregisters 1\nx"),
    (NEWER, NEWER_HEAD, "processes 64\nregisters 2\ny\nx"),
    (OLDER, "order 0", "order 1\np15 #0"),
    (NEWER, "order 0", "order 1\np63 #0"),
    (NEWER, "report 2", "report 3"),
    (COMPARED, "cas x 0 5", "cas x 0 18446744073709551615"),
    (COMPARED, "cas x 0 6", "cas x 18446744073709551615 6"),
];

#[test]
fn a_report_is_read_at_its_limits(rt: HostRuntime) {
    for (text, old, new) in AT_LIMITS {
        demand(&rt, new, refusal(rt.alloc(), text, old, new).is_none());
    }
}

/// Whether the bytes are a text that is refused at a line.
fn is_refused_at_a_line(alloc: Global, bytes: &[u8]) -> bool {
    match std::str::from_utf8(bytes) {
        Ok(text) => matches!(read_report(alloc, text), Err(ReadFault::Line { .. })),
        Err(_) => false,
    }
}

/// The fewest first bytes of a report that aren't refused at a line.
fn least_read(alloc: Global, bytes: &[u8]) -> usize {
    for size in 0..bytes.len() {
        if !is_refused_at_a_line(alloc, &bytes[..size]) {
            return size;
        }
    }
    bytes.len()
}

#[test]
fn every_shorter_text_is_refused(rt: HostRuntime) {
    for text in [ONE_PROCESS, ONE_PROCESS_NOW, COMPARED] {
        let least = least_read(rt.alloc(), text.as_bytes());
        demand_same(&rt, &text, &least.wrapping_add(1), &text.len());
        let refused = refusal(rt.alloc(), text, "end\n", "end");
        demand_none(&rt, &text, &refused);
    }
}

/// Whether the text is read, and written as it is; or, where version 3 isn't needed, in version 2.
fn is_written_so(alloc: Global, text: &str) -> bool {
    let is_third = text.strip_prefix("awreg report 3\n").is_some();
    is_written_again(alloc, text, text)
        || (is_third && is_written_again(alloc, text, ONE_PROCESS_NOW))
}

/// Whether the bytes are no text, or one that is refused at a line or is that of the report read.
fn is_refused_or_written_again(alloc: Global, bytes: &[u8]) -> bool {
    match std::str::from_utf8(bytes) {
        Ok(text) => is_refused_at_a_line(alloc, bytes) || is_written_so(alloc, text),
        Err(_) => true,
    }
}

/// The first place and change of a byte with which a report isn't refused at a line, nor written so again.
fn misread_change(alloc: Global, bytes: &mut [u8]) -> Option<(usize, u8)> {
    for place in 0..bytes.len() {
        let before = bytes[place];
        for change in 1..=255u8 {
            bytes[place] = before ^ change;
            if !is_refused_or_written_again(alloc, bytes) {
                return Some((place, change));
            }
        }
        bytes[place] = before;
    }
    None
}

#[test]
fn every_changed_byte(rt: HostRuntime) {
    let bytes = ONE_PROCESS_NOW.as_bytes().to_vec(rt.alloc());
    let misread = misread_change(rt.alloc(), bytes.expect(&rt, "memory").as_mut_slice());
    demand_none(&rt, &"a changed byte", &misread);
}
