//! Runs of compare-and-swaps alone, as worked by hand. Each front end casts them and has them wait for their delivery,
//! so all make the same runs.
use crate::macros::{ack, answered, call, called, cas_of, cast, first, got, id, point, take, tick};
use crate::world_rows::Row;
use reg_base::{Answer, Op, OpId, Stamp};
use reg_frames::{Body, Frame};
use reg_history::{Entry, Point};
use reg_world::{Event, First};

/// The runs of every front end with compare-and-swaps that all are delivered.
pub(crate) fn compared_in_order() -> &'static [Row] {
    ORDERED
}

const ORDERED: &[Row] = &[
    Row {
        name: "a compare-and-swap is done on a register that was never written, and the next one is unequal",
        processes: 1,
        events: &[call!(0, cas_of!(0, 5)), call!(0, cas_of!(0, 6))],
        history: &[
            called!(0, 0, 0, cas_of!(0, 5)),
            answered!(0, 0, 0, Answer::Done),
            called!(1, 0, 1, cas_of!(0, 6)),
            answered!(1, 0, 1, Answer::Unequal),
        ],
        casts: &[
            first!(1, 0, 0, cas_of!(0, 5), 0),
            first!(2, 0, 1, cas_of!(0, 6), 1),
        ],
        reads: &[],
        order: &[id!(0, 0), id!(0, 1)],
        points: &[point!(0, 0), point!(0, 1, 1)],
        copies: &[(2, 0, false, 5)],
        wires: &[],
        refused: &[],
    },
    // At equal times the one of the lesser process is done, here also at the process that takes first. Process 1 has
    // delivered its own only once it knows that process 0 is past its time.
    Row {
        name: "of two at equal times that of the lesser process is done, process 1 takes first",
        processes: 2,
        events: &[
            call!(0, cas_of!(0, 1)),
            call!(1, cas_of!(0, 2)),
            take!(0, 1, 0),
            take!(1, 0, 0),
            take!(0, 1, 2),
        ],
        history: &[
            called!(0, 0, 0, cas_of!(0, 1)),
            called!(1, 1, 0, cas_of!(0, 2)),
            answered!(3, 0, 0, Answer::Done),
            answered!(4, 1, 0, Answer::Unequal),
        ],
        casts: &[
            first!(1, 0, 0, cas_of!(0, 1), 2),
            first!(1, 1, 0, cas_of!(0, 2), 3),
        ],
        reads: &[],
        order: &[id!(0, 0), id!(1, 0)],
        points: &[point!(0, 2), point!(1, 3)],
        copies: &[(2, 2, false, 1), (3, 2, false, 1)],
        wires: &[
            (0, 1, &[cast!(0, 1, cas_of!(0, 1)), got!(1), ack!(1, 2)]),
            (
                1,
                0,
                &[cast!(0, 1, cas_of!(0, 2)), got!(1), ack!(1, 2), got!(2)],
            ),
        ],
        refused: &[],
    },
    Row {
        name: "of two at equal times that of the lesser process is done, process 0 takes first",
        processes: 2,
        events: &[
            call!(0, cas_of!(0, 1)),
            call!(1, cas_of!(0, 2)),
            take!(1, 0, 0),
            take!(0, 1, 0),
            take!(0, 1, 2),
        ],
        history: &[
            called!(0, 0, 0, cas_of!(0, 1)),
            called!(1, 1, 0, cas_of!(0, 2)),
            answered!(2, 0, 0, Answer::Done),
            answered!(4, 1, 0, Answer::Unequal),
        ],
        casts: &[
            first!(1, 0, 0, cas_of!(0, 1), 2),
            first!(1, 1, 0, cas_of!(0, 2), 2),
        ],
        reads: &[],
        order: &[id!(0, 0), id!(1, 0)],
        points: &[point!(0, 2), point!(1, 2)],
        copies: &[(2, 2, false, 1), (3, 2, false, 1)],
        wires: &[
            (0, 1, &[cast!(0, 1, cas_of!(0, 1)), got!(1), ack!(1, 2)]),
            (
                1,
                0,
                &[cast!(0, 1, cas_of!(0, 2)), got!(1), ack!(1, 2), got!(2)],
            ),
        ],
        refused: &[],
    },
    // Process 0 has taken the other one's cast of time 1 before its own call, so its clock is at 2 and its cast has
    // time 3: the lesser time decides, and not the lesser process.
    Row {
        name: "of two at different times the earlier one is done",
        processes: 2,
        events: &[
            call!(1, cas_of!(0, 2)),
            take!(1, 0, 0),
            call!(0, cas_of!(0, 1)),
            take!(0, 1, 1),
            take!(0, 1, 2),
            take!(1, 0, 3),
        ],
        history: &[
            called!(0, 1, 0, cas_of!(0, 2)),
            called!(2, 0, 0, cas_of!(0, 1)),
            answered!(3, 1, 0, Answer::Done),
            answered!(5, 0, 0, Answer::Unequal),
        ],
        casts: &[
            first!(1, 1, 0, cas_of!(0, 2), 1),
            first!(3, 0, 0, cas_of!(0, 1), 4),
        ],
        reads: &[],
        order: &[id!(1, 0), id!(0, 0)],
        points: &[point!(1, 1), point!(0, 4)],
        copies: &[(5, 2, false, 2), (4, 2, false, 2)],
        wires: &[
            (
                0,
                1,
                &[got!(1), ack!(0, 2), cast!(1, 3, cas_of!(0, 1)), got!(2)],
            ),
            (
                1,
                0,
                &[cast!(0, 1, cas_of!(0, 2)), got!(1), got!(2), ack!(1, 4)],
            ),
        ],
        refused: &[],
    },
    // Applied twice, the second time would find 5. The first frame is lost, the second one is taken twice.
];

/// Those in which frames are lost.
pub(crate) fn compared_lost() -> &'static [Row] {
    LOST
}

const LOST: &[Row] = &[
    Row {
        name: "a compare-and-swap whose frame was lost and repeated is applied once",
        processes: 2,
        events: &[
            call!(0, cas_of!(0, 5)),
            tick!(0),
            take!(0, 1, 1),
            take!(0, 1, 1),
            take!(1, 0, 1),
        ],
        history: &[
            called!(0, 0, 0, cas_of!(0, 5)),
            answered!(4, 0, 0, Answer::Done),
        ],
        casts: &[first!(1, 0, 0, cas_of!(0, 5), 2)],
        reads: &[],
        order: &[id!(0, 0)],
        points: &[point!(0, 2)],
        copies: &[(3, 1, false, 5), (2, 1, false, 5)],
        wires: &[
            (
                0,
                1,
                &[
                    cast!(0, 1, cas_of!(0, 5)),
                    cast!(0, 1, cas_of!(0, 5)),
                    got!(1),
                ],
            ),
            (1, 0, &[got!(1), ack!(0, 2), got!(1)]),
        ],
        refused: &[],
    },
    // Process 0 takes nothing any more, and gets no answer. Process 1 delivered its cast.
    Row {
        name: "a compare-and-swap that has no answer may have taken effect",
        processes: 2,
        events: &[
            call!(0, cas_of!(0, 5)),
            take!(0, 1, 0),
            call!(1, cas_of!(5, 6)),
        ],
        history: &[
            called!(0, 0, 0, cas_of!(0, 5)),
            called!(2, 1, 0, cas_of!(5, 6)),
        ],
        casts: &[first!(1, 0, 0, cas_of!(0, 5), 1)],
        reads: &[],
        order: &[id!(0, 0)],
        points: &[point!(0, 1)],
        copies: &[(1, 1, true, 0), (3, 2, true, 5)],
        wires: &[
            (0, 1, &[cast!(0, 1, cas_of!(0, 5))]),
            (1, 0, &[got!(1), ack!(0, 2), cast!(1, 3, cas_of!(5, 6))]),
        ],
        refused: &[],
    },
    Row {
        name: "a compare-and-swap whose frames nobody took has not taken effect",
        processes: 2,
        events: &[call!(0, cas_of!(0, 5)), tick!(0)],
        history: &[called!(0, 0, 0, cas_of!(0, 5))],
        casts: &[],
        reads: &[],
        order: &[],
        points: &[],
        copies: &[(1, 1, true, 0), (0, 0, false, 0)],
        wires: &[
            (
                0,
                1,
                &[cast!(0, 1, cas_of!(0, 5)), cast!(0, 1, cas_of!(0, 5))],
            ),
            (1, 0, &[]),
        ],
        refused: &[],
    },
];
