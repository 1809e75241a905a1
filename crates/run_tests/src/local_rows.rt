//! Runs of the front ends that answer from copies, as worked by hand.
use crate::macros::{
    ack, answered, call, called, cas_of, cast, copy_read, first, got, id, swap_of, take, tick,
    write_of,
};
use crate::values::{READ, WRITE_FIVE};
use crate::world_rows::Row;
use reg_base::{Answer, Op, OpId, Stamp};
use reg_frames::{Body, Frame};
use reg_history::Entry;
use reg_world::{CopyRead, Event, First};

/// The runs of `local-read`.
pub(crate) fn local_read() -> &'static [Row] {
    LOCAL_READ
}

const LOCAL_READ: &[Row] = &[
    Row {
        name: "a local read may answer an older value",
        processes: 3,
        events: &[
            call!(0, WRITE_FIVE),
            take!(0, 1, 0),
            take!(0, 2, 0),
            take!(1, 0, 1),
            take!(2, 0, 1),
            call!(1, READ),
        ],
        history: &[
            called!(0, 0, 0, WRITE_FIVE),
            answered!(4, 0, 0, Answer::Done),
            called!(5, 1, 0, READ),
            answered!(5, 1, 0, Answer::Value(0)),
        ],
        casts: &[first!(1, 0, 0, WRITE_FIVE, 4)],
        reads: &[copy_read!(1, 0, 0)],
        order: &[id!(1, 0), id!(0, 0)],
        points: &[],
        copies: &[(4, 2, false, 5), (2, 2, false, 0), (2, 2, false, 0)],
        wires: &[
            (0, 1, &[cast!(0, 1, WRITE_FIVE), got!(1)]),
            (0, 2, &[cast!(0, 1, WRITE_FIVE), got!(1)]),
            (1, 0, &[got!(1), ack!(0, 2)]),
            (1, 2, &[ack!(0, 2)]),
            (2, 0, &[got!(1), ack!(0, 2)]),
            (2, 1, &[ack!(0, 2)]),
        ],
        refused: &[],
    },
    Row {
        name: "a read sees an unfinished swap",
        processes: 2,
        events: &[call!(0, swap_of!(5)), take!(0, 1, 0), call!(1, READ)],
        history: &[
            called!(0, 0, 0, swap_of!(5)),
            called!(2, 1, 0, READ),
            answered!(2, 1, 0, Answer::Value(5)),
        ],
        casts: &[first!(1, 0, 0, swap_of!(5), 1)],
        reads: &[copy_read!(1, 0, 1)],
        order: &[id!(0, 0), id!(1, 0)],
        points: &[],
        copies: &[(1, 1, true, 0), (2, 1, false, 5)],
        wires: &[
            (0, 1, &[cast!(0, 1, swap_of!(5))]),
            (1, 0, &[got!(1), ack!(0, 2)]),
        ],
        refused: &[],
    },
    // Process 0 takes nothing any more: its compare-and-swap has no answer, and process 1 reads its value.
    Row {
        name: "a read sees an unfinished compare-and-swap",
        processes: 2,
        events: &[call!(0, cas_of!(0, 5)), take!(0, 1, 0), call!(1, READ)],
        history: &[
            called!(0, 0, 0, cas_of!(0, 5)),
            called!(2, 1, 0, READ),
            answered!(2, 1, 0, Answer::Value(5)),
        ],
        casts: &[first!(1, 0, 0, cas_of!(0, 5), 1)],
        reads: &[copy_read!(1, 0, 1)],
        order: &[id!(0, 0), id!(1, 0)],
        points: &[],
        copies: &[(1, 1, true, 0), (2, 1, false, 5)],
        wires: &[
            (0, 1, &[cast!(0, 1, cas_of!(0, 5))]),
            (1, 0, &[got!(1), ack!(0, 2)]),
        ],
        refused: &[],
    },
    Row {
        name: "a read before the take of a compare-and-swap doesn't see it",
        processes: 2,
        events: &[call!(0, cas_of!(0, 5)), call!(1, READ)],
        history: &[
            called!(0, 0, 0, cas_of!(0, 5)),
            called!(1, 1, 0, READ),
            answered!(1, 1, 0, Answer::Value(0)),
        ],
        casts: &[],
        reads: &[copy_read!(1, 0, 0)],
        order: &[id!(1, 0)],
        points: &[],
        copies: &[(1, 1, true, 0), (0, 0, false, 0)],
        wires: &[(0, 1, &[cast!(0, 1, cas_of!(0, 5))]), (1, 0, &[])],
        refused: &[],
    },
];

/// The calls and the answers of so many writes of process 0, each at the event of its number.
macro_rules! written {
    ($($number:expr),*) => {
        &[$(
            called!($number, 0, $number, write_of!(1)),
            answered!($number, 0, $number, Answer::Done),
        )*]
    };
}

/// The casts of these numbers, of so many writes of one process.
macro_rules! casts {
    ($($number:expr),*) => {
        &[$(cast!($number, $number + 1, write_of!(1))),*]
    };
}

/// The operations of process 0 of these numbers.
macro_rules! ids {
    ($($number:expr),*) => {
        &[$(id!(0, $number)),*]
    };
}

const WRITE: Event = call!(0, write_of!(1));

/// The runs of `local-write` in which an operation waits.
pub(crate) fn local_write_waits() -> &'static [Row] {
    WAITS
}

const WAITS: &[Row] = &[
    Row {
        name: "a local read waits for an own write",
        processes: 2,
        events: &[
            call!(0, WRITE_FIVE),
            call!(0, READ),
            take!(0, 1, 0),
            take!(1, 0, 1),
        ],
        history: &[
            called!(0, 0, 0, WRITE_FIVE),
            answered!(0, 0, 0, Answer::Done),
            called!(1, 0, 1, READ),
            answered!(3, 0, 1, Answer::Value(5)),
        ],
        casts: &[first!(1, 0, 0, WRITE_FIVE, 2)],
        reads: &[copy_read!(0, 1, 1)],
        order: &[id!(0, 0), id!(0, 1)],
        points: &[],
        copies: &[(3, 1, false, 5), (2, 1, false, 5)],
        wires: &[
            (0, 1, &[cast!(0, 1, WRITE_FIVE), got!(1)]),
            (1, 0, &[got!(1), ack!(0, 2)]),
        ],
        refused: &[],
    },
    Row {
        name: "a waiting read answers before a later cast",
        processes: 2,
        events: &[
            call!(0, write_of!(1)),
            call!(1, write_of!(2)),
            call!(0, READ),
            take!(1, 0, 0),
        ],
        history: &[
            called!(0, 0, 0, write_of!(1)),
            answered!(0, 0, 0, Answer::Done),
            called!(1, 1, 0, write_of!(2)),
            answered!(1, 1, 0, Answer::Done),
            called!(2, 0, 1, READ),
            answered!(3, 0, 1, Answer::Value(1)),
        ],
        casts: &[
            first!(1, 0, 0, write_of!(1), 3),
            first!(1, 1, 0, write_of!(2), 3),
        ],
        reads: &[copy_read!(0, 1, 1)],
        order: &[id!(0, 0), id!(0, 1), id!(1, 0)],
        points: &[],
        copies: &[(2, 2, false, 2), (1, 1, false, 0)],
        wires: &[
            (0, 1, &[cast!(0, 1, write_of!(1)), got!(1), ack!(1, 2)]),
            (1, 0, &[cast!(0, 1, write_of!(2))]),
        ],
        refused: &[],
    },
    Row {
        name: "a swap waits for its delivery",
        processes: 2,
        events: &[
            call!(0, WRITE_FIVE),
            call!(0, swap_of!(6)),
            take!(0, 1, 0),
            take!(1, 0, 1),
        ],
        history: &[
            called!(0, 0, 0, WRITE_FIVE),
            answered!(0, 0, 0, Answer::Done),
            called!(1, 0, 1, swap_of!(6)),
            answered!(3, 0, 1, Answer::Value(5)),
        ],
        casts: &[
            first!(1, 0, 0, WRITE_FIVE, 2),
            first!(2, 0, 1, swap_of!(6), 3),
        ],
        reads: &[],
        order: &[id!(0, 0), id!(0, 1)],
        points: &[],
        copies: &[(3, 2, false, 6), (2, 1, false, 5)],
        wires: &[
            (
                0,
                1,
                &[cast!(0, 1, WRITE_FIVE), cast!(1, 2, swap_of!(6)), got!(1)],
            ),
            (1, 0, &[got!(1), ack!(0, 2)]),
        ],
        refused: &[],
    },
];

/// Those with compare-and-swaps.
pub(crate) fn local_write_compares() -> &'static [Row] {
    COMPARES
}

const COMPARES: &[Row] = &[
    // It expects the value of the own write, which its copy doesn't hold at the call, and does at the delivery.
    Row {
        name: "a compare-and-swap compares at its delivery",
        processes: 2,
        events: &[
            call!(0, WRITE_FIVE),
            call!(0, cas_of!(5, 6)),
            take!(0, 1, 0),
            take!(1, 0, 1),
        ],
        history: &[
            called!(0, 0, 0, WRITE_FIVE),
            answered!(0, 0, 0, Answer::Done),
            called!(1, 0, 1, cas_of!(5, 6)),
            answered!(3, 0, 1, Answer::Done),
        ],
        casts: &[
            first!(1, 0, 0, WRITE_FIVE, 2),
            first!(2, 0, 1, cas_of!(5, 6), 3),
        ],
        reads: &[],
        order: &[id!(0, 0), id!(0, 1)],
        points: &[],
        copies: &[(3, 2, false, 6), (2, 1, false, 5)],
        wires: &[
            (
                0,
                1,
                &[cast!(0, 1, WRITE_FIVE), cast!(1, 2, cas_of!(5, 6)), got!(1)],
            ),
            (1, 0, &[got!(1), ack!(0, 2)]),
        ],
        refused: &[],
    },
    // It expects what its copy holds at the call, and the own write replaces that before its delivery.
    Row {
        name: "a compare-and-swap finds the own write that it didn't expect",
        processes: 2,
        events: &[
            call!(0, WRITE_FIVE),
            call!(0, cas_of!(0, 6)),
            take!(0, 1, 0),
            take!(1, 0, 1),
        ],
        history: &[
            called!(0, 0, 0, WRITE_FIVE),
            answered!(0, 0, 0, Answer::Done),
            called!(1, 0, 1, cas_of!(0, 6)),
            answered!(3, 0, 1, Answer::Unequal),
        ],
        casts: &[
            first!(1, 0, 0, WRITE_FIVE, 2),
            first!(2, 0, 1, cas_of!(0, 6), 3),
        ],
        reads: &[],
        order: &[id!(0, 0), id!(0, 1)],
        points: &[],
        copies: &[(3, 2, false, 5), (2, 1, false, 5)],
        wires: &[
            (
                0,
                1,
                &[cast!(0, 1, WRITE_FIVE), cast!(1, 2, cas_of!(0, 6)), got!(1)],
            ),
            (1, 0, &[got!(1), ack!(0, 2)]),
        ],
        refused: &[],
    },
];

/// Those in which frames are lost.
pub(crate) fn local_write_lost() -> &'static [Row] {
    LOST
}

const LOST: &[Row] = &[
    Row {
        name: "a finished write that nobody delivered stands last",
        processes: 2,
        events: &[call!(0, WRITE_FIVE)],
        history: &[
            called!(0, 0, 0, WRITE_FIVE),
            answered!(0, 0, 0, Answer::Done),
        ],
        casts: &[],
        reads: &[],
        order: &[id!(0, 0)],
        points: &[],
        copies: &[(1, 1, false, 0), (0, 0, false, 0)],
        wires: &[(0, 1, &[cast!(0, 1, WRITE_FIVE)]), (1, 0, &[])],
        refused: &[],
    },
    Row {
        name: "a tick puts the first sixteen frames again",
        processes: 2,
        events: &[
            WRITE,
            WRITE,
            WRITE,
            WRITE,
            WRITE,
            WRITE,
            WRITE,
            WRITE,
            WRITE,
            WRITE,
            WRITE,
            WRITE,
            WRITE,
            WRITE,
            WRITE,
            WRITE,
            WRITE,
            tick!(0),
        ],
        history: written!(0, 1, 2, 3, 4, 5, 6, 7, 8, 9, 10, 11, 12, 13, 14, 15, 16),
        casts: &[],
        reads: &[],
        order: ids!(0, 1, 2, 3, 4, 5, 6, 7, 8, 9, 10, 11, 12, 13, 14, 15, 16),
        points: &[],
        copies: &[(17, 17, false, 0), (0, 0, false, 0)],
        wires: &[
            (
                0,
                1,
                casts!(
                    0, 1, 2, 3, 4, 5, 6, 7, 8, 9, 10, 11, 12, 13, 14, 15, 16, 0, 1, 2, 3, 4, 5, 6,
                    7, 8, 9, 10, 11, 12, 13, 14, 15
                ),
            ),
            (1, 0, &[]),
        ],
        refused: &[],
    },
];
