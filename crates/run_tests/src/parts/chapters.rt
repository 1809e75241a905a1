//! What the processes of a cluster tell of themselves in a chapter, and when it is over, as worked by hand.
use crate::demands::{demand, demand_same, shape_of};
use crate::values::WRITE_FIVE;
use reg_frames::{Body, Frame};
use reg_front::Linear;
use reg_heap::Refusing;
use reg_node::{Chapter, Told, ToldFault};
use reg_process::Process;
use std::alloc::{Allocator, Global};
use std::process::Abort;

/// How many processes there are, the bytes, and the rank of the state that they spell, None where they spell none.
type Row = (u8, &'static [u8], Option<u128>);

/// It queued 2^48 bodies, and accepted 7 and 2^40; it is quiet.
const GREAT: &[u8] = &[
    1, 0, 1, 0, 0, 0, 0, 0, 0, 0, 0, 0, 0, 0, 0, 0, 0, 0, 0, 0, 0, 0, 0, 0, 7, 0, 0, 1, 0, 0, 0, 0,
    0,
];

/// It queued none, and accepted 1, 2 and 3; it is at rest.
const SMALL: &[u8] = &[
    2, 0, 0, 0, 0, 0, 0, 0, 0, 0, 0, 0, 0, 0, 0, 0, 1, 0, 0, 0, 0, 0, 0, 0, 2, 0, 0, 0, 0, 0, 0, 0,
    3,
];

/// A flag that there isn't, and a byte too few.
const FLAG_OF_FOUR: &[u8] = &[
    4, 0, 0, 0, 0, 0, 0, 0, 0, 0, 0, 0, 0, 0, 0, 0, 1, 0, 0, 0, 0, 0, 0, 0, 2, 0, 0, 0, 0, 0, 0, 0,
    3,
];

const ONE_TOO_FEW: &[u8] = &[
    2, 0, 0, 0, 0, 0, 0, 0, 0, 0, 0, 0, 0, 0, 0, 0, 1, 0, 0, 0, 0, 0, 0, 0, 2, 0, 0, 0, 0, 0, 0, 0,
];

/// States of one of two processes, by its flags, how many bodies it queued, and how many it accepted of each.
macro_rules! state {
    ($flags:expr, $put:expr, $of_first:expr, $of_second:expr) => {
        &[
            $flags, 0, 0, 0, 0, 0, 0, 0, $put, 0, 0, 0, 0, 0, 0, 0, $of_first, 0, 0, 0, 0, 0, 0, 0,
            $of_second,
        ]
    };
}

/// The last four are states of one process, one after the other.
const ROWS: &[Row] = &[
    (3, GREAT, Some(1_130_297_953_353_758)),
    (3, SMALL, Some(25)),
    (2, SMALL, None),
    (4, SMALL, None),
    (3, FLAG_OF_FOUR, None),
    (3, ONE_TOO_FEW, None),
    (3, &[], None),
    (0, &[], None),
    (2, state!(2, 0, 0, 0), Some(1)),
    (2, state!(0, 1, 0, 0), Some(4)),
    (2, state!(1, 1, 0, 1), Some(10)),
    (2, state!(3, 1, 0, 1), Some(11)),
];

/// Whether these are the bytes of the state.
fn spells(alloc: Global, told: &Told, bytes: &[u8]) -> bool {
    match told.bytes(alloc) {
        Ok(spelled) => spelled.as_slice() == bytes,
        Err(_) => false,
    }
}

/// Whether the row is read as it says, and its state spelled again.
fn is_read(alloc: Global, row: &Row) -> bool {
    let (processes, bytes, rank) = *row;
    match (Told::read(alloc, bytes, processes), rank) {
        (Ok(Some(told)), Some(rank)) => told.rank() == rank && spells(alloc, &told, bytes),
        (Ok(None), None) => true,
        _ => false,
    }
}

#[test]
fn states_are_read_as_they_were_told(rt: HostRuntime) {
    for row in ROWS {
        demand(&rt, row, is_read(rt.alloc(), row));
    }
}

/// Whether the process tells of itself what these bytes spell.
fn tells(alloc: Global, process: &Process<Linear>, is_quiet: bool, bytes: &[u8]) -> bool {
    match Told::of(alloc, process, is_quiet) {
        Ok(told) => spells(alloc, &told, bytes),
        Err(_) => false,
    }
}

const GOT: Frame = Frame::Got { count: 1 };

const ACK: Frame = Frame::Numbered {
    number: 0,
    body: Body::Ack { time: 2 },
};

#[test]
fn a_process_tells_how_far_it_has_come(rt: HostRuntime) {
    let alloc = rt.alloc();
    let mut process = Process::new(alloc, shape_of(&rt, 2), 0).expect(&rt, "a process");
    assert!(rt; tells(alloc, &process, true, state!(3, 0, 0, 0)));
    let called = process.call(WRITE_FIVE).is_ok();
    assert_eq!(rt;
        (called, tells(alloc, &process, false, state!(0, 1, 0, 0))),
        (true, true)
    );
    let taken = process.take(1, &GOT).is_ok();
    assert_eq!(rt;
        (taken, tells(alloc, &process, false, state!(2, 1, 0, 0))),
        (true, true)
    );
    let done = process.take(1, &ACK).is_ok();
    assert_eq!(rt;
        (done, tells(alloc, &process, false, state!(2, 1, 0, 1))),
        (true, true)
    );
    assert!(rt; tells(alloc, &process, true, state!(3, 1, 0, 1)));
}

/// Who tells, its bytes, what comes of them, and whether the chapter is over then.
type Telling = (u8, &'static [u8], Result<(), ToldFault>, bool);

/// The latest state of each counts, in whatever order they come.
const TELLINGS: &[Telling] = &[
    (0, state!(3, 2, 0, 1), Ok(()), false),
    (1, state!(2, 1, 1, 0), Ok(()), false),
    (1, state!(3, 1, 2, 0), Ok(()), true),
    (1, state!(2, 1, 1, 0), Ok(()), true),
    (1, state!(1, 1, 2, 0), Ok(()), true),
    (2, state!(3, 1, 2, 0), Err(ToldFault::NoProcess), true),
    (1, state!(4, 1, 2, 0), Err(ToldFault::NoState), true),
    (2, state!(4, 1, 2, 0), Err(ToldFault::NoProcess), true),
    (1, SMALL, Err(ToldFault::NoState), true),
    (0, state!(3, 3, 0, 1), Ok(()), false),
    (1, state!(3, 1, 3, 0), Ok(()), true),
];

/// With what the other one told first, these don't end the chapter.
const NOT_OVER: &[&[u8]] = &[
    state!(2, 1, 2, 0),
    state!(1, 1, 2, 0),
    state!(3, 1, 1, 0),
    state!(3, 2, 2, 0),
];

#[test]
fn a_chapter_is_over_where_all_is_accepted(rt: HostRuntime) {
    let mut chapter = Chapter::new(rt.alloc(), 2, 0).expect(&rt, "memory");
    assert!(rt; !chapter.is_over());
    for row in TELLINGS {
        let (sender, bytes, told, is_over) = *row;
        demand_same(&rt, row, &chapter.hear(sender, bytes), &told);
        demand_same(&rt, row, &chapter.is_over(), &is_over);
    }
}

/// Whether a chapter in which the two told these states goes on.
fn goes_on(rt: &(impl Abort + AllocGlobal), second: &[u8]) -> bool {
    let mut chapter = Chapter::new(rt.alloc(), 2, 0).expect(rt, "memory");
    let first = chapter.hear(0, state!(3, 2, 0, 1)).is_ok();
    first && chapter.hear(1, second).is_ok() && !chapter.is_over()
}

#[test]
fn a_chapter_goes_on_where_something_is_not_accepted(rt: HostRuntime) {
    for second in NOT_OVER {
        demand(&rt, second, goes_on(&rt, second));
    }
}

/// What one process alone tells, and whether its chapter is over then.
const ALONE: &[(bool, &[u8], bool)] = &[
    (
        false,
        &[2, 0, 0, 0, 0, 0, 0, 0, 0, 0, 0, 0, 0, 0, 0, 0, 0],
        false,
    ),
    (
        true,
        &[3, 0, 0, 0, 0, 0, 0, 0, 0, 0, 0, 0, 0, 0, 0, 0, 0],
        true,
    ),
    (
        false,
        &[2, 0, 0, 0, 0, 0, 0, 0, 0, 0, 0, 0, 0, 0, 0, 0, 0],
        false,
    ),
];

/// Whether the chapter's own process tells this, and it is kept.
fn is_told(chapter: &mut Chapter, process: &Process<Linear>, row: &(bool, &[u8], bool)) -> bool {
    let (is_quiet, bytes, is_over) = *row;
    match chapter.tell(process, is_quiet) {
        Ok(told) => told.as_slice() == bytes && chapter.is_over() == is_over,
        Err(_) => false,
    }
}

#[test]
fn what_a_process_tells_is_kept(rt: HostRuntime) {
    let process = Process::new(rt.alloc(), shape_of(&rt, 1), 0).expect(&rt, "a process");
    let mut chapter = Chapter::new(rt.alloc(), 1, 0).expect(&rt, "memory");
    for row in ALONE {
        demand(&rt, row, is_told(&mut chapter, &process, row));
    }
}

/// Whether a state is refused for want of memory, and it is heard when it comes again.
fn hears_later<A: Allocator + Copy>(chapter: &mut Chapter<A>) -> bool {
    let bytes: &[u8] = &[3, 0, 0, 0, 0, 0, 0, 0, 0, 0, 0, 0, 0, 0, 0, 0, 0];
    chapter.hear(0, bytes) == Err(ToldFault::OutOfMemory)
        && !chapter.is_over()
        && chapter.hear(0, bytes) == Ok(())
        && chapter.is_over()
}

#[test]
fn a_refused_growth_hears_no_state(rt: HostRuntime) {
    let heap = Refusing::new(rt.alloc(), 1);
    let chapter = Chapter::new(&heap, 1, 0);
    assert!(rt; hears_later(&mut chapter.expect(&rt, "memory for the states")));
}
