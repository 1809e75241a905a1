//! Runs as worked by hand, and what a world tells after each.
use crate::macros::{
    ack, answered, call, called, cast, first, got, id, point, swap_of, take, tick, write_of,
};
use crate::values::{READ, WRITE_FIVE};
use reg_base::{Answer, Op, OpId, Stamp};
use reg_frames::{Body, Frame};
use reg_history::{Entry, Point};
use reg_world::{CopyRead, Event, First, WorldFault};

/// A run over one register, and what its world then tells.
pub(crate) struct Row {
    pub(crate) name: &'static str,
    pub(crate) processes: u32,
    pub(crate) events: &'static [Event],
    pub(crate) history: &'static [Entry],
    pub(crate) casts: &'static [First],
    pub(crate) reads: &'static [CopyRead],
    pub(crate) order: &'static [OpId],
    /// The points, where the run is linear.
    pub(crate) points: &'static [Point],
    /// The clock of each process, how many of its frames are pending, whether it is busy, and what the register holds
    /// in its copy.
    pub(crate) copies: &'static [(u64, u64, bool, u64)],
    /// The frames put from one process to another, where there are any.
    pub(crate) wires: &'static [(u8, u8, &'static [Frame])],
    /// Events that are refused then, and why. None changes what the world tells.
    pub(crate) refused: &'static [(Event, WorldFault)],
}

const BEYOND: Op = Op::Read { register: 1 };

/// The runs of `linear` that tell when an operation is answered. (No function names all runs, since one that names many
/// constants is slow to prove.)
pub(crate) fn linear_answers() -> &'static [Row] {
    ANSWERS
}

const ANSWERS: &[Row] = &[
    Row {
        name: "one process answers at once",
        processes: 1,
        events: &[call!(0, WRITE_FIVE), call!(0, READ)],
        history: &[
            called!(0, 0, 0, WRITE_FIVE),
            answered!(0, 0, 0, Answer::Done),
            called!(1, 0, 1, READ),
            answered!(1, 0, 1, Answer::Value(5)),
        ],
        casts: &[first!(1, 0, 0, WRITE_FIVE, 0), first!(2, 0, 1, READ, 1)],
        reads: &[],
        order: &[id!(0, 0), id!(0, 1)],
        points: &[point!(0, 0), point!(0, 1, 1)],
        copies: &[(2, 0, false, 5)],
        wires: &[],
        refused: &[(take!(0, 0, 0), WorldFault::NoFrame)],
    },
    Row {
        name: "a swap answers the old value",
        processes: 1,
        events: &[call!(0, swap_of!(5)), call!(0, swap_of!(6))],
        history: &[
            called!(0, 0, 0, swap_of!(5)),
            answered!(0, 0, 0, Answer::Value(0)),
            called!(1, 0, 1, swap_of!(6)),
            answered!(1, 0, 1, Answer::Value(5)),
        ],
        casts: &[
            first!(1, 0, 0, swap_of!(5), 0),
            first!(2, 0, 1, swap_of!(6), 1),
        ],
        reads: &[],
        order: &[id!(0, 0), id!(0, 1)],
        points: &[point!(0, 0), point!(0, 1, 1)],
        copies: &[(2, 0, false, 6)],
        wires: &[],
        refused: &[],
    },
    Row {
        name: "a write is done when its cast is acknowledged",
        processes: 2,
        events: &[call!(0, WRITE_FIVE), take!(0, 1, 0), take!(1, 0, 1)],
        history: &[
            called!(0, 0, 0, WRITE_FIVE),
            answered!(2, 0, 0, Answer::Done),
        ],
        casts: &[first!(1, 0, 0, WRITE_FIVE, 1)],
        reads: &[],
        order: &[id!(0, 0)],
        points: &[point!(0, 1)],
        copies: &[(3, 1, false, 5), (2, 1, false, 5)],
        wires: &[
            (0, 1, &[cast!(0, 1, WRITE_FIVE), got!(1)]),
            (1, 0, &[got!(1), ack!(0, 2)]),
        ],
        refused: &[],
    },
    Row {
        name: "nothing is left where all counts are taken",
        processes: 2,
        events: &[
            call!(0, WRITE_FIVE),
            take!(0, 1, 0),
            take!(1, 0, 1),
            take!(0, 1, 1),
            take!(1, 0, 0),
        ],
        history: &[
            called!(0, 0, 0, WRITE_FIVE),
            answered!(2, 0, 0, Answer::Done),
        ],
        casts: &[first!(1, 0, 0, WRITE_FIVE, 1)],
        reads: &[],
        order: &[id!(0, 0)],
        points: &[point!(0, 1)],
        copies: &[(3, 0, false, 5), (2, 0, false, 5)],
        wires: &[
            (0, 1, &[cast!(0, 1, WRITE_FIVE), got!(1)]),
            (1, 0, &[got!(1), ack!(0, 2)]),
        ],
        refused: &[],
    },
];

/// Those that tell in which order operations stand.
pub(crate) fn linear_orders() -> &'static [Row] {
    ORDERS
}

const ORDERS: &[Row] = &[
    Row {
        name: "an unfinished write that another process delivered",
        processes: 2,
        events: &[call!(0, WRITE_FIVE), take!(0, 1, 0), take!(1, 0, 0)],
        history: &[called!(0, 0, 0, WRITE_FIVE)],
        casts: &[first!(1, 0, 0, WRITE_FIVE, 1)],
        reads: &[],
        order: &[id!(0, 0)],
        points: &[point!(0, 1)],
        copies: &[(1, 0, true, 0), (2, 1, false, 5)],
        wires: &[
            (0, 1, &[cast!(0, 1, WRITE_FIVE)]),
            (1, 0, &[got!(1), ack!(0, 2)]),
        ],
        refused: &[],
    },
    Row {
        name: "equal times go by process",
        processes: 2,
        events: &[
            call!(0, write_of!(1)),
            call!(1, write_of!(2)),
            take!(0, 1, 0),
            take!(1, 0, 0),
            take!(0, 1, 2),
        ],
        history: &[
            called!(0, 0, 0, write_of!(1)),
            called!(1, 1, 0, write_of!(2)),
            answered!(3, 0, 0, Answer::Done),
            answered!(4, 1, 0, Answer::Done),
        ],
        casts: &[
            first!(1, 0, 0, write_of!(1), 2),
            first!(1, 1, 0, write_of!(2), 3),
        ],
        reads: &[],
        order: &[id!(0, 0), id!(1, 0)],
        points: &[point!(0, 2), point!(1, 3)],
        copies: &[(2, 2, false, 2), (3, 2, false, 2)],
        wires: &[
            (0, 1, &[cast!(0, 1, write_of!(1)), got!(1), ack!(1, 2)]),
            (
                1,
                0,
                &[cast!(0, 1, write_of!(2)), got!(1), ack!(1, 2), got!(2)],
            ),
        ],
        refused: &[],
    },
    Row {
        name: "the order is that of whoever delivers first",
        processes: 3,
        events: &[
            call!(0, write_of!(1)),
            call!(1, write_of!(2)),
            take!(0, 2, 0),
            take!(2, 1, 0),
            take!(0, 1, 0),
            take!(1, 0, 0),
            take!(0, 1, 2),
            take!(2, 0, 1),
        ],
        history: &[
            called!(0, 0, 0, write_of!(1)),
            called!(1, 1, 0, write_of!(2)),
            answered!(6, 1, 0, Answer::Done),
            answered!(7, 0, 0, Answer::Done),
        ],
        casts: &[
            first!(1, 0, 0, write_of!(1), 4),
            first!(1, 1, 0, write_of!(2), 6),
        ],
        reads: &[],
        order: &[id!(0, 0), id!(1, 0)],
        points: &[point!(0, 4), point!(1, 6)],
        copies: &[(3, 4, false, 2), (5, 4, false, 2), (2, 2, false, 0)],
        wires: &[
            (0, 1, &[cast!(0, 1, write_of!(1)), got!(1), ack!(1, 2)]),
            (0, 2, &[cast!(0, 1, write_of!(1)), ack!(1, 2), got!(1)]),
            (
                1,
                0,
                &[cast!(0, 1, write_of!(2)), got!(1), ack!(1, 4), got!(2)],
            ),
            (1, 2, &[cast!(0, 1, write_of!(2)), got!(1), ack!(1, 4)]),
            (2, 0, &[got!(1), ack!(0, 2)]),
            (2, 1, &[ack!(0, 2)]),
        ],
        refused: &[],
    },
];

/// Those that tell what becomes of frames and of events that are refused.
pub(crate) fn linear_frames() -> &'static [Row] {
    FRAMES
}

const FRAMES: &[Row] = &[
    Row {
        name: "a repeated frame is dropped",
        processes: 2,
        events: &[
            call!(0, WRITE_FIVE),
            take!(0, 1, 0),
            take!(0, 1, 0),
            take!(1, 0, 1),
        ],
        history: &[
            called!(0, 0, 0, WRITE_FIVE),
            answered!(3, 0, 0, Answer::Done),
        ],
        casts: &[first!(1, 0, 0, WRITE_FIVE, 1)],
        reads: &[],
        order: &[id!(0, 0)],
        points: &[point!(0, 1)],
        copies: &[(3, 1, false, 5), (2, 1, false, 5)],
        wires: &[
            (0, 1, &[cast!(0, 1, WRITE_FIVE), got!(1)]),
            (1, 0, &[got!(1), ack!(0, 2), got!(1)]),
        ],
        refused: &[],
    },
    Row {
        name: "a frame before its turn is dropped",
        processes: 2,
        events: &[
            call!(0, write_of!(1)),
            call!(1, write_of!(2)),
            take!(0, 1, 0),
            take!(1, 0, 2),
            take!(1, 0, 0),
        ],
        history: &[
            called!(0, 0, 0, write_of!(1)),
            called!(1, 1, 0, write_of!(2)),
            answered!(4, 0, 0, Answer::Done),
        ],
        casts: &[
            first!(1, 0, 0, write_of!(1), 2),
            first!(1, 1, 0, write_of!(2), 4),
        ],
        reads: &[],
        order: &[id!(0, 0), id!(1, 0)],
        points: &[point!(0, 2), point!(1, 4)],
        copies: &[(2, 2, false, 2), (2, 2, true, 1)],
        wires: &[
            (
                0,
                1,
                &[cast!(0, 1, write_of!(1)), got!(0), got!(1), ack!(1, 2)],
            ),
            (1, 0, &[cast!(0, 1, write_of!(2)), got!(1), ack!(1, 2)]),
        ],
        refused: &[],
    },
    Row {
        name: "a tick puts the frames again",
        processes: 2,
        events: &[
            call!(0, WRITE_FIVE),
            tick!(0),
            take!(0, 1, 1),
            take!(1, 0, 1),
        ],
        history: &[
            called!(0, 0, 0, WRITE_FIVE),
            answered!(3, 0, 0, Answer::Done),
        ],
        casts: &[first!(1, 0, 0, WRITE_FIVE, 2)],
        reads: &[],
        order: &[id!(0, 0)],
        points: &[point!(0, 2)],
        copies: &[(3, 1, false, 5), (2, 1, false, 5)],
        wires: &[
            (
                0,
                1,
                &[cast!(0, 1, WRITE_FIVE), cast!(0, 1, WRITE_FIVE), got!(1)],
            ),
            (1, 0, &[got!(1), ack!(0, 2)]),
        ],
        refused: &[],
    },
    Row {
        name: "a refused event changes nothing",
        processes: 2,
        events: &[call!(0, WRITE_FIVE)],
        history: &[called!(0, 0, 0, WRITE_FIVE)],
        casts: &[],
        reads: &[],
        order: &[],
        points: &[],
        copies: &[(1, 1, true, 0), (0, 0, false, 0)],
        wires: &[(0, 1, &[cast!(0, 1, WRITE_FIVE)]), (1, 0, &[])],
        refused: &[
            (call!(0, READ), WorldFault::Busy),
            (take!(0, 0, 0), WorldFault::NoFrame),
            (take!(0, 1, 1), WorldFault::NoFrame),
            (tick!(2), WorldFault::NoProcess),
            (call!(1, BEYOND), WorldFault::NoRegister),
            (call!(0, BEYOND), WorldFault::Busy),
            (call!(2, BEYOND), WorldFault::NoProcess),
        ],
    },
];
