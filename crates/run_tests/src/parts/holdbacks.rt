//! The hold-back queue, as worked by hand.
use crate::demands::shape_of;
use crate::values::{READ, WRITE_FIVE};
use reg_base::{Op, Stamp};
use reg_heap::Refusing;
use reg_holdback::{HoldFault, Holdback};
use std::alloc::Allocator;

macro_rules! stamp {
    ($time:expr, $process:expr) => {
        Stamp {
            time: $time,
            process: $process,
        }
    };
}

/// What is received, what is told of it, and what is popped then, with nothing after it.
type Row = (
    Stamp,
    Option<Op>,
    Result<(), HoldFault>,
    Option<(Stamp, Op)>,
);

/// The queue of process 1 of three: a cast waits until the third process is heard past it.
const OF_THREE: &[Row] = &[
    (stamp!(1, 0), Some(WRITE_FIVE), Ok(()), None),
    (stamp!(2, 2), None, Ok(()), Some((stamp!(1, 0), WRITE_FIVE))),
    (stamp!(2, 2), None, Err(HoldFault::Stale), None),
    (stamp!(3, 1), None, Err(HoldFault::NoProcess), None),
    (stamp!(3, 3), None, Err(HoldFault::NoProcess), None),
];

/// The queue of process 1 of two, with a cast of its own at time 1.
const BEHIND_ITS_OWN: &[Row] = &[
    (
        stamp!(1, 0),
        Some(WRITE_FIVE),
        Ok(()),
        Some((stamp!(1, 0), WRITE_FIVE)),
    ),
    (stamp!(2, 0), None, Ok(()), Some((stamp!(1, 1), WRITE_FIVE))),
];

/// Whether the queue answers so, row by row.
fn answers(held: &mut Holdback, rows: &[Row]) -> bool {
    for (stamp, op, told, popped) in rows {
        if held.receive(*stamp, *op) != *told || held.pop() != *popped || held.pop().is_some() {
            return false;
        }
    }
    held.len() == 0
}

/// Whether the queue answers as that of three, and tells what it has seen of each process.
fn answers_of_three(held: &mut Holdback) -> bool {
    answers(held, OF_THREE)
        && [held.seen(0), held.seen(1), held.seen(2), held.seen(3)]
            == [Some(1), None, Some(2), None]
}

#[test]
fn a_cast_waits_until_all_are_heard(rt: HostRuntime) {
    let mut held = Holdback::new(rt.alloc(), 1, shape_of(&rt, 3)).expect(&rt, "memory");
    assert!(rt; answers_of_three(&mut held));
}

#[test]
fn an_own_cast_waits_behind_an_earlier_one(rt: HostRuntime) {
    let mut held = Holdback::new(rt.alloc(), 1, shape_of(&rt, 2)).expect(&rt, "memory");
    let cast = held.cast(stamp!(1, 1), WRITE_FIVE).is_ok();
    assert_eq!(rt; (cast, answers(&mut held, BEHIND_ITS_OWN)), (true, true));
}

/// Whether a read of time 1 is popped, and nothing after it.
fn pops_the_read(held: &mut Holdback) -> bool {
    held.pop() == Some((stamp!(1, 0), READ)) && held.pop().is_none()
}

#[test]
fn one_process_waits_for_none(rt: HostRuntime) {
    let mut held = Holdback::new(rt.alloc(), 0, shape_of(&rt, 1)).expect(&rt, "memory");
    let cast = held.cast(stamp!(1, 0), READ).is_ok();
    assert_eq!(rt; (cast, pops_the_read(&mut held)), (true, true));
}

/// Whether a cast that comes is refused for want of memory, and not held, and it is held when it comes again.
fn holds_later<A: Allocator + Copy>(held: &mut Holdback<A>) -> bool {
    let cast = stamp!(1, 0);
    held.receive(cast, Some(WRITE_FIVE)) == Err(HoldFault::OutOfMemory)
        && (held.len(), held.seen(0)) == (0, Some(0))
        && held.receive(cast, Some(WRITE_FIVE)) == Ok(())
        && (held.len(), held.seen(0)) == (1, Some(1))
}

#[test]
fn a_refused_growth_holds_no_cast(rt: HostRuntime) {
    let heap = Refusing::new(rt.alloc(), 1);
    let held = Holdback::new(&heap, 1, shape_of(&rt, 2));
    assert!(rt; holds_later(&mut held.expect(&rt, "memory for the times")));
}

/// Whether one of many casts that come is refused for want of memory, and those before it are still held, with `others`
/// more.
fn keeps_the_earlier<A: Allocator + Copy>(held: &mut Holdback<A>, others: usize) -> bool {
    for before in 0..1000u32 {
        let came = held.receive(stamp!(u64::from(before) + 1, 0), Some(READ));
        if came == Err(HoldFault::OutOfMemory) {
            return held.len() == others.saturating_add(before as usize)
                && held.seen(0) == Some(u64::from(before));
        }
    }
    false
}

#[test]
fn a_refused_growth_keeps_an_own_cast(rt: HostRuntime) {
    let heap = Refusing::new(rt.alloc(), 2);
    let mut held = Holdback::new(&heap, 1, shape_of(&rt, 2)).expect(&rt, "memory for the times");
    let cast = held.cast(stamp!(1, 1), WRITE_FIVE).is_ok();
    assert_eq!(rt; (cast, keeps_the_earlier(&mut held, 1)), (true, true));
}

#[test]
fn a_refused_growth_holds_no_own_cast(rt: HostRuntime) {
    let heap = Refusing::new(rt.alloc(), 1);
    let mut held = Holdback::new(&heap, 1, shape_of(&rt, 2)).expect(&rt, "memory for the times");
    let is_refused = held.cast(stamp!(1, 1), READ).is_err();
    let count = held.len();
    let is_held_later = held.cast(stamp!(2, 1), WRITE_FIVE).is_ok();
    assert_eq!(rt;
        (is_refused, count, is_held_later, held.len()),
        (true, 0, true, 1)
    );
}
