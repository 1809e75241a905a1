//! Reports made of their parts: what they tell, and which parts are no report.
use crate::demands::demand;
use crate::histories::history_of;
use crate::macros::{answered, called, id, point};
use crate::parts::reports::is_written_as;
use crate::parts::texts::names_of;
use crate::report_texts::ONE_PROCESS_NOW;
use crate::values::{READ, WRITE_FIVE};
use reg_base::{Answer, OpId};
use reg_history::{Entry, Point, Report, ReportFault};
use std::alloc::Global;

/// What the report of one process is made of.
const ENTRIES: &[Entry] = &[
    called!(0, 0, 0, WRITE_FIVE),
    answered!(0, 0, 0, Answer::Done),
    called!(1, 0, 1, READ),
    answered!(1, 0, 1, Answer::Value(5)),
];

const ORDER: &[OpId] = &[id!(0, 0), id!(0, 1)];

const POINTS: &[Point] = &[
    point!(0, 0),
    Point {
        id: id!(0, 1),
        at: 1,
    },
];

/// The word of a front end, the line of the names, the order and the points of a report.
type Parts = (
    &'static str,
    &'static str,
    &'static [OpId],
    &'static [Point],
);

/// The report of these parts, and of the history of one process. None where memory is refused.
fn report_of(alloc: Global, parts: Parts) -> Option<Result<Report, ReportFault>> {
    let (front, names, order, points) = parts;
    let front = String::from_str(alloc, front).ok()?;
    let names = names_of(alloc, names).ok()?;
    let order = order.to_vec(alloc).ok()?;
    let points = points.to_vec(alloc).ok()?;
    let history = history_of(alloc, 1, ENTRIES)?;
    Some(Report::new(front, names, history, order, Some(points)))
}

/// Whether the getters of a report give the parts of the one of one process.
fn tells_its_parts(report: &Report) -> bool {
    report.front() == "linear"
        && report.names().count() == 1
        && report.history().entries() == ENTRIES
        && report.order() == ORDER
        && report.points() == Some(POINTS)
}

/// Whether the report of these parts tells them, and is written as that of one process.
fn is_one_process(alloc: Global, parts: Parts) -> bool {
    match report_of(alloc, parts) {
        Some(Ok(report)) => {
            tells_its_parts(&report) && is_written_as(alloc, &report, ONE_PROCESS_NOW) == Some(true)
        }
        _ => false,
    }
}

#[test]
fn a_report_tells_its_parts(rt: HostRuntime) {
    assert!(rt; is_one_process(rt.alloc(), ("linear", "registers x", ORDER, POINTS)));
}

const FAR: &[OpId] = &[id!(64, 0)];

const NUMBER_TOO_FAR: &[OpId] = &[id!(0, 65_535)];

const LATE: &[Point] = &[point!(0, 1_048_576)];

/// Parts, and why they are no report of the history of one process.
const NO_REPORTS: &[(Parts, Option<ReportFault>)] = &[
    (("", "registers x y", FAR, LATE), Some(ReportFault::Front)),
    (
        ("abcdefghijklmnopq", "registers x", &[], &[]),
        Some(ReportFault::Front),
    ),
    (
        ("a word", "registers x", &[], &[]),
        Some(ReportFault::Front),
    ),
    (
        ("a-word-of-sixteen", "registers x", &[], &[]),
        Some(ReportFault::Front),
    ),
    (
        ("linear", "registers x y", FAR, &[]),
        Some(ReportFault::Names),
    ),
    (
        ("linear", "registers x", FAR, &[]),
        Some(ReportFault::Range),
    ),
    (
        ("linear", "registers x", NUMBER_TOO_FAR, &[]),
        Some(ReportFault::Range),
    ),
    (
        ("linear", "registers x", &[], LATE),
        Some(ReportFault::Range),
    ),
    (
        ("another-word-too", "registers x", &[id!(0, 65_534)], &[]),
        None,
    ),
];

/// Whether parts are refused so.
fn is_no_report(alloc: Global, parts: Parts, fault: Option<ReportFault>) -> bool {
    match report_of(alloc, parts) {
        Some(made) => made.err() == fault,
        None => false,
    }
}

#[test]
fn parts_that_are_no_report_are_refused(rt: HostRuntime) {
    for (parts, fault) in NO_REPORTS {
        demand(&rt, parts, is_no_report(rt.alloc(), *parts, *fault));
    }
}
