//! Histories and their orders, as worked by hand.
use crate::demands::{demand, shape_of};
use crate::histories::{STALE_READ, history_of};
use crate::macros::{answered, called, cas_of, id, point};
use crate::values::{READ, WRITE_FIVE};
use reg_base::{Answer, Op, OpId};
use reg_history::{CheckFault, Entry, History, HistoryFault, Point, check_points, check_serial};
use std::alloc::Global;

/// A write at a process, and then a read of it, which isn't answered yet.
const UNFINISHED: &[Entry] = &[
    called!(0, 0, 0, WRITE_FIVE),
    answered!(0, 0, 0, Answer::Done),
    called!(1, 0, 1, READ),
];

/// A write at a process, and then a read of it, which is answered.
const FINISHED: &[Entry] = &[
    called!(0, 0, 0, WRITE_FIVE),
    answered!(0, 0, 0, Answer::Done),
    called!(1, 0, 1, READ),
    answered!(3, 0, 1, Answer::Value(5)),
];

/// Two compare-and-swaps that expect the first value. The second one is told this.
macro_rules! both_expect_the_first_value {
    ($answer:expr) => {
        &[
            called!(0, 0, 0, cas_of!(0, 1)),
            called!(1, 1, 0, cas_of!(0, 2)),
            answered!(3, 0, 0, Answer::Done),
            answered!(4, 1, 0, $answer),
        ]
    };
}

/// As every run of them tells.
const ONE_DONE: &[Entry] = both_expect_the_first_value!(Answer::Unequal);

/// As no order can have it.
const BOTH_DONE: &[Entry] = both_expect_the_first_value!(Answer::Done);

/// Histories, points of each, and what is said of them.
const POINTS: &[(&[Entry], &[Point], Result<(), CheckFault>)] = &[
    (
        STALE_READ,
        &[point!(1, 5), point!(0, 4)],
        Err(CheckFault::Falling { place: 1 }),
    ),
    (
        STALE_READ,
        &[point!(1, 4), point!(0, 4)],
        Err(CheckFault::Outside { place: 0 }),
    ),
    (
        STALE_READ,
        &[point!(0, 4), point!(1, 5)],
        Err(CheckFault::Answer { place: 1 }),
    ),
    (FINISHED, &[point!(0, 0), point!(0, 1, 2)], Ok(())),
    (FINISHED, &[point!(0, 0)], Err(CheckFault::Missing)),
    (ONE_DONE, &[point!(0, 2), point!(1, 3)], Ok(())),
    (
        BOTH_DONE,
        &[point!(0, 2), point!(1, 3)],
        Err(CheckFault::Answer { place: 1 }),
    ),
];

/// Histories, an order of each, and what is said of it.
const JUDGED: &[(&[Entry], &[OpId], Result<(), CheckFault>)] = &[
    (STALE_READ, &[id!(1, 0), id!(0, 0)], Ok(())),
    (
        STALE_READ,
        &[id!(0, 0), id!(1, 0)],
        Err(CheckFault::Answer { place: 1 }),
    ),
    (STALE_READ, &[id!(1, 0)], Err(CheckFault::Missing)),
    (
        STALE_READ,
        &[id!(1, 0), id!(0, 0), id!(0, 0)],
        Err(CheckFault::Twice),
    ),
    (
        UNFINISHED,
        &[id!(0, 0), id!(0, 1)],
        Err(CheckFault::Unknown),
    ),
    (UNFINISHED, &[id!(0, 0)], Ok(())),
    (FINISHED, &[id!(0, 0), id!(0, 1)], Ok(())),
    (FINISHED, &[id!(0, 1), id!(0, 0)], Err(CheckFault::OwnOrder)),
    (ONE_DONE, &[id!(0, 0), id!(1, 0)], Ok(())),
    (
        ONE_DONE,
        &[id!(1, 0), id!(0, 0)],
        Err(CheckFault::Answer { place: 0 }),
    ),
    (
        BOTH_DONE,
        &[id!(0, 0), id!(1, 0)],
        Err(CheckFault::Answer { place: 1 }),
    ),
    (
        BOTH_DONE,
        &[id!(1, 0), id!(0, 0)],
        Err(CheckFault::Answer { place: 1 }),
    ),
];

/// Whether this is said of an order of a history.
fn is_judged(
    alloc: Global,
    entries: &[Entry],
    order: &[OpId],
    said: Result<(), CheckFault>,
) -> bool {
    match history_of(alloc, 3, entries) {
        Some(history) => check_serial(alloc, &history, order) == said,
        None => false,
    }
}

/// Whether this is said of points of a history.
fn are_judged(
    alloc: Global,
    entries: &[Entry],
    points: &[Point],
    said: Result<(), CheckFault>,
) -> bool {
    match history_of(alloc, 3, entries) {
        Some(history) => check_points(alloc, &history, points) == said,
        None => false,
    }
}

#[test]
fn a_stale_read_is_serial(rt: HostRuntime) {
    for (entries, order, said) in JUDGED {
        demand(
            &rt,
            &(order, said),
            is_judged(rt.alloc(), entries, order, *said),
        );
    }
}

#[test]
fn a_stale_read_has_no_points(rt: HostRuntime) {
    for (entries, points, said) in POINTS {
        demand(&rt, points, are_judged(rt.alloc(), entries, points, *said));
    }
}

/// Whether an answer is out of place before its call, and in place after it.
fn keeps_places(history: &mut History) -> bool {
    let done = answered!(0, 0, 0, Answer::Done);
    history.push(done) == Err(HistoryFault::OutOfPlace)
        && history.reserve(2).is_ok()
        && history.push(called!(0, 0, 0, WRITE_FIVE)) == Ok(())
        && history.push(done) == Ok(())
        && history.entries().len() == 2
}

#[test]
fn entries_in_place(rt: HostRuntime) {
    let shape = shape_of(&rt, 1);
    let mut history = History::new(rt.alloc(), shape).expect(&rt, "memory");
    let right = keeps_places(&mut history) && history.shape() == shape;
    drop(history);
    assert!(rt; right);
}

/// What is wrong with an order, and what is shown of it.
const SHOWN: &[(CheckFault, &str)] = &[
    (CheckFault::Unknown, "unknown"),
    (CheckFault::Twice, "twice"),
    (CheckFault::Missing, "missing"),
    (CheckFault::OwnOrder, "own order"),
    (CheckFault::Answer { place: 0 }, "answer 0"),
    (CheckFault::Outside { place: 305 }, "outside 305"),
    (CheckFault::Falling { place: 1048575 }, "falling 1048575"),
    (CheckFault::OutOfMemory, "out of memory"),
];

/// Whether a fault shows these words.
fn shows(alloc: Global, fault: CheckFault, words: &str) -> bool {
    match format!(in alloc; "{fault}") {
        Ok(text) => text.as_str() == words,
        Err(_) => false,
    }
}

#[test]
fn each_fault_is_shown_in_its_words(rt: HostRuntime) {
    for (fault, words) in SHOWN {
        demand(&rt, words, shows(rt.alloc(), *fault, words));
    }
}
