//! What a chapter writes first, and how a node goes through it, as worked by hand.
use crate::demands::{demand, demand_same, shape_of};
use crate::parts::logs::{ACKNOWLEDGE, GOT, HEAD, WRITE, opened};
use crate::parts::nodes::{ACKNOWLEDGED, CALL_READ, CALL_WRITE, WROTE};
use reg_base::Op;
use reg_base::limits::MOST_REGISTERS;
use reg_front::Linear;
use reg_heap::Refusing;
use reg_node::{Course, Node, Progress, Step, opening_of};
use std::alloc::{Allocator, Global};
use std::process::Abort;

/// The values with which a chapter ended, and what the next one writes first.
type Row = (&'static [u64], &'static [Op]);

macro_rules! write_of {
    ($register:expr, $value:expr) => {
        Op::Write {
            register: $register,
            value: $value,
        }
    };
}

const OPENINGS: &[Row] = &[
    (&[], &[]),
    (&[0], &[]),
    (&[0, 0, 0], &[]),
    (&[5], &[write_of!(0, 5)]),
    (&[1, 0, 2], &[write_of!(0, 1), write_of!(2, 2)]),
    (
        &[0, 7, 0, 18_446_744_073_709_551_615],
        &[write_of!(1, 7), write_of!(3, 18_446_744_073_709_551_615)],
    ),
];

/// Whether a chapter that comes behind these values writes this first.
fn writes(alloc: Global, values: &[u64], first: &[Op]) -> bool {
    if values.len() > MOST_REGISTERS as usize {
        return false;
    }
    match opening_of(alloc, values) {
        Ok(opening) => opening.as_slice() == first,
        Err(_) => false,
    }
}

#[test]
fn what_is_not_zero_is_written_first(rt: HostRuntime) {
    for row in OPENINGS {
        let (values, first) = *row;
        demand(&rt, row, writes(rt.alloc(), values, first));
    }
}

/// A course in a room of 10 operations, 20 entries, and 3 casts on their way.
fn course_in<A: Allocator + Copy>(alloc: A) -> Course<A> {
    Course::new(alloc, 10, 20, 3)
}

/// Two of these aren't 0: the chapter behind them begins with a write of 7 to the second register, and one of 9 to the
/// fourth.
const VALUES: &[u64] = &[0, 7, 0, 9];

/// Notes the values, if there is memory.
fn has_followed<A: Allocator + Copy>(course: &mut Course<A>) -> bool {
    VALUES.len() <= MOST_REGISTERS as usize && course.follow(VALUES).is_ok()
}

fn behind(rt: &(impl Abort + AllocGlobal)) -> Course {
    let mut course = course_in(rt.alloc());
    assert!(rt; has_followed(&mut course));
    course
}

/// A process that has called and delivered so much.
fn at(process: u8, calls: u64, delivered: u64, is_running: bool) -> Progress {
    Progress {
        process,
        calls,
        logged: calls,
        delivered,
        unsettled: 0,
        is_running,
    }
}

/// The process, how many calls it has made, what it writes next, and how many of the calls are its caller's.
const NEXT: &[(u8, u64, Option<Op>, u64)] = &[
    (0, 0, Some(write_of!(1, 7)), 0),
    (0, 1, Some(write_of!(3, 9)), 0),
    (0, 2, None, 0),
    (0, 3, None, 1),
    (1, 0, None, 0),
    (1, 1, None, 1),
    (63, 2, None, 2),
];

#[test]
fn the_first_process_writes_what_the_chapter_before_ended_with(rt: HostRuntime) {
    let course = behind(&rt);
    for row in NEXT {
        let (process, calls, next, own) = *row;
        let progress = at(process, calls, 0, false);
        demand_same(&rt, row, &course.next_opening(&progress), &next);
        demand_same(&rt, row, &course.own_calls(&progress), &own);
    }
}

/// The process, how many calls it has made and how many casts it has delivered, whether an operation runs, and whether
/// the values of the chapter before aren't all there.
const OPENING: &[(u8, u64, u64, bool, bool)] = &[
    (0, 0, 0, false, true),
    (0, 1, 0, true, true),
    (0, 1, 1, false, true),
    (0, 2, 1, true, true),
    (0, 2, 2, true, true),
    (0, 2, 2, false, false),
    (0, 3, 2, true, false),
    (1, 0, 1, false, true),
    (1, 1, 1, true, true),
    (1, 0, 2, false, false),
    (1, 1, 2, true, false),
];

#[test]
fn a_chapter_opens_until_all_values_are_there(rt: HostRuntime) {
    let course = behind(&rt);
    for row in OPENING {
        let (process, calls, delivered, is_running, is_opening) = *row;
        let progress = at(process, calls, delivered, is_running);
        demand_same(&rt, row, &course.is_opening(&progress), &is_opening);
    }
}

/// The calls, the entries and the delivered casts of the second process, whether an operation runs, whether the chapter
/// is to end, and whether the process is quiet.
type Ending = (u64, u64, u64, bool, bool, bool);

const ENDINGS: &[Ending] = &[
    (9, 19, 12, false, false, false),
    (10, 19, 12, true, true, false),
    (10, 19, 12, false, true, true),
    (9, 20, 12, false, true, true),
    (9, 20, 12, true, true, false),
    (0, 20, 1, false, true, false),
];

/// Where somebody has asked for the end.
const ASKED: &[Ending] = &[
    (0, 0, 1, false, true, false),
    (0, 0, 2, false, true, true),
    (1, 1, 2, true, true, false),
];

fn demand_endings(rt: &impl Abort, course: &Course, rows: &[Ending]) {
    for row in rows {
        let (calls, logged, delivered, is_running, is_ending, is_quiet) = *row;
        let mut progress = at(1, calls, delivered, is_running);
        progress.logged = logged;
        demand_same(rt, row, &course.is_ending(&progress), &is_ending);
        demand_same(rt, row, &course.is_quiet(&progress), &is_quiet);
    }
}

#[test]
fn a_chapter_ends_where_its_room_does_or_somebody_asks(rt: HostRuntime) {
    let mut course = behind(&rt);
    demand_endings(&rt, &course, ENDINGS);
    course.end();
    demand_endings(&rt, &course, ASKED);
}

#[test]
fn a_process_is_ahead_by_its_casts(rt: HostRuntime) {
    let course = behind(&rt);
    for row in &[(2, false), (3, true), (4, true)] {
        let (unsettled, is_far_ahead) = *row;
        let mut progress = at(1, 5, 2, false);
        progress.unsettled = unsettled;
        demand_same(&rt, row, &course.is_far_ahead(&progress), &is_far_ahead);
    }
}

#[test]
fn the_first_chapter_writes_nothing_first(rt: HostRuntime) {
    let course = course_in(rt.alloc());
    let (start, called) = (at(0, 0, 0, false), at(0, 1, 0, true));
    assert_eq!(rt;
        (
            course.next_opening(&start).is_none(),
            course.is_opening(&start)
        ),
        (true, false)
    );
    assert_eq!(rt;
        (course.own_calls(&called), course.is_opening(&called)),
        (1, false)
    );
}

/// Whether the values are refused for want of memory, and noted when they come again.
fn follows_later<A: Allocator + Copy>(course: &mut Course<A>) -> bool {
    let start = at(0, 0, 0, false);
    !has_followed(course)
        && course.next_opening(&start).is_none()
        && has_followed(course)
        && course.next_opening(&start) == Some(write_of!(1, 7))
}

#[test]
fn a_refused_growth_follows_nothing(rt: HostRuntime) {
    let heap = Refusing::new(rt.alloc(), 0);
    assert!(rt; follows_later(&mut course_in(&heap)));
}

/// How many entries a node has, and how many calls.
fn counts(node: &Node<Linear>) -> (u64, u64) {
    (node.logged(), node.calls())
}

#[test]
fn calls_are_counted_with_those_of_the_log(rt: HostRuntime) {
    let log = [WROTE, ACKNOWLEDGED];
    let opened = Node::open(rt.alloc(), shape_of(&rt, 2), 0, &log);
    let mut node = opened.expect(&rt, "a node");
    assert!(rt; counts(&node) == (2, 1));
    assert_eq!(rt;
        (node.step(&Step::Tick).is_ok(), counts(&node)),
        (true, (3, 1))
    );
    assert_eq!(rt;
        (node.step(&CALL_WRITE).is_ok(), counts(&node)),
        (true, (4, 2))
    );
    assert_eq!(rt;
        (node.step(&CALL_READ).is_err(), counts(&node)),
        (true, (4, 2))
    );
}

/// The log of process 0, its calls, its entries, and its casts that are and aren't delivered there.
type Come = (&'static [&'static str], u64, u64, u64, u64);

const COME: &[Come] = &[
    (&[HEAD], 0, 0, 0, 0),
    (&[HEAD, WRITE, GOT], 1, 2, 0, 1),
    (&[HEAD, WRITE, GOT, ACKNOWLEDGE], 1, 3, 1, 0),
];

/// Whether a node that goes on after the log has come so far.
fn has_come(alloc: Global, row: &Come) -> bool {
    let (pieces, calls, logged, delivered, unsettled) = *row;
    let mut wanted = at(0, calls, delivered, true);
    wanted.logged = logged;
    wanted.unsettled = unsettled;
    match opened(alloc, pieces) {
        Some(node) => Progress::of(&node, true) == wanted,
        None => false,
    }
}

#[test]
fn a_node_tells_how_far_it_has_come(rt: HostRuntime) {
    for row in COME {
        demand(&rt, row, has_come(rt.alloc(), row));
    }
}
