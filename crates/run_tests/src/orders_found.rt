//! Serial orders and point orders of small histories, found: those worked out by hand, the limit, and memory refused.
use crate::answers::{shown, unless_memory};
use crate::demands::demand_refusals;
use crate::histories::{STALE_READ, history_of};
use crate::macros::{answered, called, id, point, write_of};
use crate::values::{READ, WRITE_FIVE};
use reg_base::{Answer, Op, OpId};
use reg_heap::Trial;
use reg_history::{Entry, History, Point, check_points, check_serial};
use reg_outcomes::{InterleavingFault, find_points, find_serial};
use std::alloc::{AllocError, Allocator, Global};
use std::test::Fail;

/// Whether this is the serial order that is found, which the checker takes, or there is none.
fn has_order(alloc: Global, history: &History, order: Option<&[OpId]>) -> bool {
    match find_serial(alloc, history, 100) {
        Ok(Some(found)) => {
            order == Some(found.as_slice()) && check_serial(alloc, history, &found) == Ok(())
        }
        Ok(None) => order.is_none(),
        Err(_) => false,
    }
}

/// Whether these are the points that are found, which the checker takes, or there are none.
fn has_points(alloc: Global, history: &History, points: Option<&[Point]>) -> bool {
    match find_points(alloc, history, 100) {
        Ok(Some(found)) => {
            points == Some(found.as_slice()) && check_points(alloc, history, &found) == Ok(())
        }
        Ok(None) => points.is_none(),
        Err(_) => false,
    }
}

/// Whether this order and these points are found of a history.
fn finds(
    alloc: Global,
    entries: &[Entry],
    order: Option<&[OpId]>,
    points: Option<&[Point]>,
) -> bool {
    match history_of(alloc, 4, entries) {
        Some(history) => has_order(alloc, &history, order) && has_points(alloc, &history, points),
        None => false,
    }
}

const OVERLAPPING: &[Entry] = &[
    called!(0, 0, 0, WRITE_FIVE),
    called!(1, 1, 0, READ),
    answered!(2, 1, 0, Answer::Value(0)),
    answered!(3, 0, 0, Answer::Done),
];

const UNFINISHED: &[Entry] = &[
    called!(0, 0, 0, WRITE_FIVE),
    called!(1, 1, 0, READ),
    answered!(2, 1, 0, Answer::Value(5)),
    called!(3, 2, 0, READ),
];

const OPPOSITE: &[Entry] = &[
    called!(0, 0, 0, write_of!(1)),
    answered!(1, 0, 0, Answer::Done),
    called!(2, 1, 0, write_of!(2)),
    answered!(3, 1, 0, Answer::Done),
    called!(4, 2, 0, READ),
    answered!(5, 2, 0, Answer::Value(1)),
    called!(6, 2, 1, READ),
    answered!(7, 2, 1, Answer::Value(2)),
    called!(8, 3, 0, READ),
    answered!(9, 3, 0, Answer::Value(2)),
    called!(10, 3, 1, READ),
    answered!(11, 3, 1, Answer::Value(1)),
];

/// A history, its serial order and its points, where it has any.
type Row = (
    &'static [Entry],
    Option<&'static [OpId]>,
    Option<&'static [Point]>,
);

const FOUND: &[Row] = &[
    // The write stands before the read in each point order, and the read's answer says that it doesn't.
    (STALE_READ, Some(&[id!(1, 0), id!(0, 0)]), None),
    // The write is called before the read is answered, so the read may come first. Its point is its call, and the
    // write's is that event too, since no point falls.
    (
        OVERLAPPING,
        Some(&[id!(1, 0), id!(0, 0)]),
        Some(&[point!(1, 1), point!(0, 1)]),
    ),
    // No operation.
    (&[], Some(&[]), Some(&[])),
    // An unfinished write is placed where its value was read, and an unfinished read nowhere.
    (
        UNFINISHED,
        Some(&[id!(0, 0), id!(1, 0)]),
        Some(&[point!(0, 0), point!(1, 1)]),
    ),
    // Two processes read two writes in opposite orders.
    (OPPOSITE, None, None),
];

#[test]
fn orders_worked_by_hand(rt: HostRuntime) {
    for (entries, order, points) in FOUND {
        assert!(rt; finds(rt.alloc(), entries, *order, *points));
    }
}

const TWO_WRITES: &[Entry] = &[
    called!(0, 0, 0, write_of!(1)),
    called!(1, 1, 0, write_of!(2)),
    answered!(2, 0, 0, Answer::Done),
    answered!(3, 1, 0, Answer::Done),
];

/// Two writes run at once, and then a value is read that neither wrote.
const NEITHER: &[Entry] = &[
    called!(0, 0, 0, write_of!(1)),
    called!(1, 1, 0, write_of!(2)),
    answered!(2, 0, 0, Answer::Done),
    answered!(3, 1, 0, Answer::Done),
    called!(4, 2, 0, READ),
    answered!(5, 2, 0, Answer::Value(3)),
];

/// Whether both orders of a history are found within this many stages.
fn are_found(alloc: Global, entries: &[Entry], limit: u32) -> bool {
    match history_of(alloc, 4, entries) {
        Some(history) => {
            matches!(find_serial(alloc, &history, limit), Ok(Some(_)))
                && matches!(find_points(alloc, &history, limit), Ok(Some(_)))
        }
        None => false,
    }
}

/// Two writes of one value run at once, and then it is read, and after it the first value.
const ALIKE: &[Entry] = &[
    called!(0, 0, 0, WRITE_FIVE),
    called!(1, 1, 0, WRITE_FIVE),
    answered!(2, 0, 0, Answer::Done),
    answered!(3, 1, 0, Answer::Done),
    called!(4, 2, 0, READ),
    answered!(5, 2, 0, Answer::Value(5)),
    called!(6, 2, 1, READ),
    answered!(7, 2, 1, Answer::Value(0)),
];

/// Whether it is found within this many stages that there is no serial order.
fn has_no_order(alloc: Global, history: &History, limit: u32) -> bool {
    matches!(find_serial(alloc, history, limit), Ok(None))
}

/// Whether it is found within this many stages that there are no points.
fn has_no_points(alloc: Global, history: &History, limit: u32) -> bool {
    matches!(find_points(alloc, history, limit), Ok(None))
}

/// Whether it is found that there are no points within two stages, and not within one: each write may be the first.
fn has_limited_points(alloc: Global, entries: &[Entry]) -> bool {
    match history_of(alloc, 4, entries) {
        Some(history) => {
            find_points(alloc, &history, 1).err() == Some(InterleavingFault::TooManyStages)
                && has_no_points(alloc, &history, 2)
        }
        None => false,
    }
}

/// Whether the same is found of a serial order.
fn has_limited_order(alloc: Global, entries: &[Entry]) -> bool {
    match history_of(alloc, 4, entries) {
        Some(history) => {
            find_serial(alloc, &history, 1).err() == Some(InterleavingFault::TooManyStages)
                && has_no_order(alloc, &history, 2)
        }
        None => false,
    }
}

#[test]
fn limit(rt: HostRuntime) {
    // Only stages that lead to no order are kept, and none is met on the way to one.
    assert!(rt; are_found(rt.alloc(), TWO_WRITES, 2));
    assert!(rt; are_found(rt.alloc(), TWO_WRITES, 0));
    // Either write may have left the five, so that nothing is known without a search.
    assert!(rt; has_limited_points(rt.alloc(), ALIKE));
    assert!(rt; has_limited_order(rt.alloc(), ALIKE));
}

/// Whether it is found with no stage that a history has no serial order.
fn needs_no_stage(alloc: Global, entries: &[Entry]) -> bool {
    match history_of(alloc, 4, entries) {
        Some(history) => has_no_order(alloc, &history, 0),
        None => false,
    }
}

#[test]
fn an_order_that_nothing_allows_needs_no_stage(rt: HostRuntime) {
    assert!(rt; has_limited_points(rt.alloc(), NEITHER));
    assert!(rt; needs_no_stage(rt.alloc(), NEITHER));
}

/// The processes of a long history, one of which writes in each round.
const READERS: u8 = 8;

/// What a process does in a round, where this many have done something before it: the first writes the number of the
/// round, and each of the others reads it or, every other time, the number of the round before.
fn done_in(round: u32, process: u8, before: u8) -> (Op, Answer) {
    if before == 0 {
        let write = write_of!(u64::from(round));
        return (write, Answer::Done);
    }
    let late = u32::from(process).wrapping_add(round) % 2;
    (READ, Answer::Value(u64::from(round.saturating_sub(late))))
}

/// Adds a round, in which each operation is answered at once.
fn add_round(entries: &mut Vec<Entry>, round: u32) -> Result<(), AllocError> {
    let writer = (round % u32::from(READERS)) as u8;
    for before in 0..READERS {
        let process = writer.wrapping_add(before) % READERS;
        let id = OpId {
            process,
            number: round.saturating_sub(1),
        };
        let (op, answer) = done_in(round, process, before);
        let at = u32::try_from(entries.len()).unwrap_or(0);
        entries.push(Entry::Called { at, id, op })?;
        entries.push(Entry::Answered {
            at: at.wrapping_add(1),
            id,
            answer,
        })?;
    }
    Ok(())
}

/// A hundred rounds.
fn rounds(alloc: Global) -> Result<Vec<Entry>, AllocError> {
    let mut entries = Vec::new(alloc);
    for round in 1..101 {
        add_round(&mut entries, round)?;
    }
    Ok(entries)
}

/// Whether a serial order is found with at most a hundred stages kept of each number of operations, which the checker
/// takes.
pub(crate) fn is_serial(alloc: Global, history: &History) -> bool {
    match find_serial(alloc, history, 100) {
        Ok(Some(found)) => check_serial(alloc, history, &found) == Ok(()),
        _ => false,
    }
}

/// Whether these have a serial order, which is found with few stages kept, and no point order.
fn are_serial_alone(alloc: Global, entries: &[Entry]) -> bool {
    match history_of(alloc, u32::from(READERS), entries) {
        Some(history) => is_serial(alloc, &history) && has_no_points(alloc, &history, 100),
        None => false,
    }
}

#[test]
fn a_long_history_of_stale_reads(rt: HostRuntime) {
    let entries = rounds(rt.alloc()).expect(&rt, "memory");
    assert!(rt; are_serial_alone(rt.alloc(), &entries));
}

/// The hundred rounds, where in the fiftieth a process reads what was written in the third.
fn rounds_with_old_read(alloc: Global) -> Result<Vec<Entry>, AllocError> {
    let mut entries = rounds(alloc)?;
    if let Some(entry) = entries.get_mut(791) {
        *entry = answered!(791, 5, 49, Answer::Value(3));
    }
    Ok(entries)
}

/// Whether it is found that these have neither order, with few stages kept.
fn have_none(alloc: Global, entries: &[Entry]) -> bool {
    match history_of(alloc, u32::from(READERS), entries) {
        Some(history) => {
            has_no_order(alloc, &history, 100) && has_no_points(alloc, &history, 100)
        }
        None => false,
    }
}

#[test]
fn a_long_history_with_one_old_read(rt: HostRuntime) {
    let entries = rounds_with_old_read(rt.alloc()).expect(&rt, "memory");
    assert!(rt; have_none(rt.alloc(), &entries));
}

/// The stale read, with its memory refused.
struct Starved;

/// The order that is found of the stale read. None where memory is refused.
fn found_told<A: Allocator + Copy>(
    alloc: A,
    ample: Global,
    history: &History<A>,
) -> Result<Option<String>, Fail> {
    match find_serial(alloc, history, 100) {
        Ok(Some(ids)) => shown(ample, &ids.as_slice()),
        Ok(None) => Err("no order")?,
        Err(fault) => unless_memory(fault, fault == InterleavingFault::OutOfMemory),
    }
}

impl Trial for Starved {
    fn answer<A: Allocator + Copy>(&self, alloc: A, ample: Global) -> Result<Option<String>, Fail> {
        match history_of(alloc, 4, STALE_READ) {
            Some(history) => found_told(alloc, ample, &history),
            None => Ok(None),
        }
    }
}

#[test]
fn want_of_memory(rt: HostRuntime) -> Result<(), Fail> {
    demand_refusals(&rt, &Starved, 10)
}
