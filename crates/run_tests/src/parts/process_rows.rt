//! The steps of one process and of several side by side, and what each gives, worked by hand.
use crate::parts::traces::Row;
use crate::values::{READ, WRITE_FIVE};
use reg_base::Op;
use reg_frames::{Body, Frame};
use reg_process::Step;

const BEYOND: Op = Op::Read { register: 1 };

const SWAP_SIX: Op = Op::Swap {
    register: 0,
    value: 6,
};

const FIVE_TO_SEVEN: Op = Op::CompareAndSwap {
    register: 0,
    expected: 5,
    value: 7,
};

/// A call of a write.
macro_rules! call_write {
    ($value:expr) => {
        Step::Call {
            op: Op::Write {
                register: 0,
                value: $value,
            },
        }
    };
}

/// A call of another operation.
macro_rules! call {
    ($op:expr) => {
        Step::Call { op: $op }
    };
}

/// The take of a frame with this number and body.
macro_rules! take {
    ($from:expr, $number:expr, $body:expr) => {
        Step::Take {
            from: $from,
            frame: Frame::Numbered {
                number: $number,
                body: $body,
            },
        }
    };
}

/// The take of a count.
macro_rules! got {
    ($from:expr, $count:expr) => {
        Step::Take {
            from: $from,
            frame: Frame::Got { count: $count },
        }
    };
}

macro_rules! ack {
    ($time:expr) => {
        Body::Ack { time: $time }
    };
}

macro_rules! cast {
    ($time:expr, $op:expr) => {
        Body::Cast {
            time: $time,
            op: $op,
        }
    };
}

pub(crate) const AT_ONCE: &[Row] = &[
    (
        0,
        call_write!(5),
        "casts at 1 of p0, puts #0 cast 1 write x 5 to p1, Done at place 0, clock 1, pending 1, unsettled 1, delivered 0, busy false, x 0",
    ),
    (
        0,
        Step::Tick,
        "puts #0 cast 1 write x 5 to p1, clock 1, pending 1, unsettled 1, delivered 0, busy false, x 0",
    ),
    (
        0,
        call!(READ),
        "clock 1, pending 1, unsettled 1, delivered 0, busy true, x 0",
    ),
    (
        0,
        call_write!(5),
        "Busy, clock 1, pending 1, unsettled 1, delivered 0, busy true, x 0",
    ),
    (
        0,
        call!(BEYOND),
        "Busy, clock 1, pending 1, unsettled 1, delivered 0, busy true, x 0",
    ),
    (
        0,
        take!(1, 0, ack!(2)),
        "puts got 1 to p1, delivers write x 5 at 1 of p0, Value(5) at place 1, clock 3, pending 1, unsettled 0, delivered 1, busy false, x 5",
    ),
    (
        0,
        got!(1, 1),
        "clock 3, pending 0, unsettled 0, delivered 1, busy false, x 5",
    ),
];

pub(crate) const WAITING: &[Row] = &[
    (
        0,
        call_write!(5),
        "casts at 1 of p0, puts #0 cast 1 write x 5 to p1, clock 1, pending 1, unsettled 1, delivered 0, busy true, x 0",
    ),
    (
        1,
        take!(0, 0, cast!(1, WRITE_FIVE)),
        "puts got 1 to p0, puts #0 ack 2 to p0, delivers write x 5 at 1 of p0, clock 2, pending 1, unsettled 0, delivered 1, busy false, x 5",
    ),
    (
        0,
        take!(1, 0, ack!(2)),
        "puts got 1 to p1, delivers write x 5 at 1 of p0, Done at place 0, clock 3, pending 1, unsettled 0, delivered 1, busy false, x 5",
    ),
    // The same frame again is dropped, and changes nothing.
    (
        1,
        take!(0, 0, cast!(1, WRITE_FIVE)),
        "puts got 1 to p0, clock 2, pending 1, unsettled 0, delivered 1, busy false, x 5",
    ),
];

pub(crate) const TO_ALL: &[Row] = &[(
    1,
    take!(2, 0, cast!(1, WRITE_FIVE)),
    "puts #0 ack 2 to p0, puts got 1 to p2, puts #0 ack 2 to p2, clock 2, pending 2, unsettled 0, delivered 0, busy false, x 0",
)];

pub(crate) const HELD_READ: &[Row] = &[
    (
        0,
        call_write!(1),
        "casts at 1 of p0, puts #0 cast 1 write x 1 to p1, Done at place 0, clock 1, pending 1, unsettled 1, delivered 0, busy false, x 0",
    ),
    (
        0,
        call!(READ),
        "clock 1, pending 1, unsettled 1, delivered 0, busy true, x 0",
    ),
    (
        0,
        take!(
            1,
            0,
            cast!(
                1,
                Op::Write {
                    register: 0,
                    value: 2
                }
            )
        ),
        "puts got 1 to p1, puts #1 ack 2 to p1, delivers write x 1 at 1 of p0, delivers write x 2 at 1 of p1, Value(1) at place 1, clock 2, pending 2, unsettled 0, delivered 2, busy false, x 2",
    ),
];

pub(crate) const SWAP: &[Row] = &[
    (
        0,
        call_write!(5),
        "casts at 1 of p0, puts #0 cast 1 write x 5 to p1, Done at place 0, clock 1, pending 1, unsettled 1, delivered 0, busy false, x 0",
    ),
    (
        0,
        call!(SWAP_SIX),
        "casts at 2 of p0, puts #1 cast 2 swap x 6 to p1, clock 2, pending 2, unsettled 2, delivered 0, busy true, x 0",
    ),
    // It acknowledged the swap too, so both are delivered.
    (
        0,
        take!(1, 0, ack!(3)),
        "puts got 1 to p1, delivers write x 5 at 1 of p0, delivers swap x 6 at 2 of p0, Value(5) at place 1, clock 4, pending 2, unsettled 0, delivered 2, busy false, x 6",
    ),
];

/// A compare-and-swap expects the value of the own write before it. A swap of process 1 has a time between both, and
/// replaces that value.
pub(crate) const COMPARED: &[Row] = &[
    (
        0,
        call_write!(5),
        "casts at 1 of p0, puts #0 cast 1 write x 5 to p1, Done at place 0, clock 1, pending 1, unsettled 1, delivered 0, busy false, x 0",
    ),
    (
        0,
        call!(FIVE_TO_SEVEN),
        "casts at 2 of p0, puts #1 cast 2 cas x 5 7 to p1, clock 2, pending 2, unsettled 2, delivered 0, busy true, x 0",
    ),
    (
        0,
        take!(1, 0, cast!(1, SWAP_SIX)),
        "puts got 1 to p1, puts #2 ack 3 to p1, delivers write x 5 at 1 of p0, delivers swap x 6 at 1 of p1, clock 3, pending 3, unsettled 1, delivered 2, busy true, x 6",
    ),
    (
        0,
        take!(1, 1, ack!(4)),
        "puts got 2 to p1, delivers cas x 5 7 at 2 of p0, Unequal at place 2, clock 5, pending 3, unsettled 0, delivered 3, busy false, x 6",
    ),
];

pub(crate) const REFUSED: &[Row] = &[
    (
        1,
        got!(0, 1),
        "Ahead, clock 0, pending 0, unsettled 0, delivered 0, busy false, x 0",
    ),
    (
        1,
        take!(0, 0, cast!(5, BEYOND)),
        "NoRegister, clock 0, pending 0, unsettled 0, delivered 0, busy false, x 0",
    ),
    (
        1,
        take!(1, 0, ack!(5)),
        "NoProcess, clock 0, pending 0, unsettled 0, delivered 0, busy false, x 0",
    ),
    (
        1,
        take!(2, 0, ack!(5)),
        "NoProcess, clock 0, pending 0, unsettled 0, delivered 0, busy false, x 0",
    ),
    (
        1,
        call!(BEYOND),
        "NoRegister, clock 0, pending 0, unsettled 0, delivered 0, busy false, x 0",
    ),
    (
        1,
        take!(0, 0, ack!(5)),
        "puts got 1 to p0, clock 6, pending 0, unsettled 0, delivered 0, busy false, x 0",
    ),
    (
        1,
        take!(0, 1, ack!(5)),
        "Stale, clock 6, pending 0, unsettled 0, delivered 0, busy false, x 0",
    ),
    (
        1,
        take!(0, 1, ack!(6)),
        "puts got 2 to p0, clock 7, pending 0, unsettled 0, delivered 0, busy false, x 0",
    ),
];

pub(crate) const OUT_OF_TURN: &[Row] = &[(
    1,
    take!(0, 1, cast!(1, BEYOND)),
    "puts got 0 to p0, clock 0, pending 0, unsettled 0, delivered 0, busy false, x 0",
)];

pub(crate) const LAST_TIME: &[Row] = &[
    (
        1,
        take!(0, 0, cast!(281_474_976_710_655, WRITE_FIVE)),
        "puts got 1 to p0, puts #0 ack 281474976710656 to p0, delivers write x 5 at 281474976710655 of p0, clock 281474976710656, pending 1, unsettled 0, delivered 1, busy false, x 5",
    ),
    (
        1,
        call!(READ),
        "Value(5) at place 1, clock 281474976710656, pending 1, unsettled 0, delivered 1, busy false, x 5",
    ),
    (1, call_write!(5), "ClockFull"),
    (1, call!(READ), "Failed"),
];

pub(crate) const PAST_LAST_TIME: &[Row] = &[
    (
        1,
        take!(0, 0, cast!(281_474_976_710_656, WRITE_FIVE)),
        "ClockFull",
    ),
    (1, Step::Tick, "Failed"),
];

/// A process that has stopped, beside one that runs.
pub(crate) const STOPPED: &[Row] = &[
    (1, take!(0, 0, ack!(281_474_976_710_656)), "ClockFull"),
    (1, call!(READ), "Failed"),
    (1, take!(0, 0, ack!(1)), "Failed"),
    (1, take!(2, 0, ack!(1)), "Failed"),
    (1, Step::Tick, "Failed"),
    (
        0,
        call!(READ),
        "Value(0) at place 0, clock 0, pending 0, unsettled 0, delivered 0, busy false, x 0",
    ),
    (
        0,
        call_write!(5),
        "casts at 1 of p0, puts #0 cast 1 write x 5 to p1, clock 1, pending 1, unsettled 1, delivered 0, busy true, x 0",
    ),
    (
        0,
        Step::Tick,
        "puts #0 cast 1 write x 5 to p1, clock 1, pending 1, unsettled 1, delivered 0, busy true, x 0",
    ),
    (1, take!(0, 0, cast!(1, WRITE_FIVE)), "Failed"),
];

pub(crate) const EACH_LACKS: &[Row] = &[
    (
        1,
        call_write!(5),
        "casts at 1 of p1, puts #0 cast 1 write x 5 to p0, puts #0 cast 1 write x 5 to p2, Done at place 0, clock 1, pending 2, unsettled 1, delivered 0, busy false, x 0",
    ),
    (
        1,
        call_write!(6),
        "casts at 2 of p1, puts #1 cast 2 write x 6 to p0, puts #1 cast 2 write x 6 to p2, Done at place 0, clock 2, pending 4, unsettled 2, delivered 0, busy false, x 0",
    ),
    (
        1,
        got!(0, 2),
        "clock 2, pending 2, unsettled 2, delivered 0, busy false, x 0",
    ),
    (
        1,
        got!(2, 1),
        "clock 2, pending 1, unsettled 2, delivered 0, busy false, x 0",
    ),
    (
        1,
        Step::Tick,
        "puts #1 cast 2 write x 6 to p2, clock 2, pending 1, unsettled 2, delivered 0, busy false, x 0",
    ),
    (
        1,
        call!(READ),
        "clock 2, pending 1, unsettled 2, delivered 0, busy true, x 0",
    ),
    (
        1,
        got!(0, 3),
        "Ahead, clock 2, pending 1, unsettled 2, delivered 0, busy true, x 0",
    ),
];

pub(crate) const ALONE: &[Row] = &[
    (
        0,
        call_write!(5),
        "casts at 1 of p0, delivers write x 5 at 1 of p0, Done at place 0, clock 1, pending 0, unsettled 0, delivered 1, busy false, x 5",
    ),
    (
        0,
        Step::Tick,
        "clock 1, pending 0, unsettled 0, delivered 1, busy false, x 5",
    ),
];
