//! Short forms of values that stand in tables: operations, events, entries, frames and points. Each wants the types of
//! its value in scope, and those with an id the form of an id.

macro_rules! write_of {
    ($value:expr) => {
        Op::Write {
            register: 0,
            value: $value,
        }
    };
}

macro_rules! call {
    ($process:expr, $op:expr) => {
        Event::Call {
            process: $process,
            op: $op,
        }
    };
}

macro_rules! take {
    ($from:expr, $to:expr, $number:expr) => {
        Event::Take {
            from: $from,
            to: $to,
            number: $number,
        }
    };
}

macro_rules! tick {
    ($process:expr) => {
        Event::Tick { process: $process }
    };
}

macro_rules! id {
    ($process:expr, $number:expr) => {
        OpId {
            process: $process,
            number: $number,
        }
    };
}

macro_rules! called {
    ($at:expr, $process:expr, $number:expr, $op:expr) => {
        Entry::Called {
            at: $at,
            id: id!($process, $number),
            op: $op,
        }
    };
}

macro_rules! answered {
    ($at:expr, $process:expr, $number:expr, $answer:expr) => {
        Entry::Answered {
            at: $at,
            id: id!($process, $number),
            answer: $answer,
        }
    };
}

/// The point of an operation of a process: of its first one, where no number is told.
macro_rules! point {
    ($process:expr, $at:expr) => {
        point!($process, 0, $at)
    };
    ($process:expr, $number:expr, $at:expr) => {
        Point {
            id: id!($process, $number),
            at: $at,
        }
    };
}

macro_rules! cast {
    ($number:expr, $time:expr, $op:expr) => {
        Frame::Numbered {
            number: $number,
            body: Body::Cast {
                time: $time,
                op: $op,
            },
        }
    };
}

macro_rules! ack {
    ($number:expr, $time:expr) => {
        Frame::Numbered {
            number: $number,
            body: Body::Ack { time: $time },
        }
    };
}

macro_rules! got {
    ($count:expr) => {
        Frame::Got { count: $count }
    };
}

/// The first delivery of a cast of this time, at this event.
macro_rules! first {
    ($time:expr, $process:expr, $number:expr, $op:expr, $at:expr) => {
        First {
            stamp: Stamp {
                time: $time,
                process: $process,
            },
            id: id!($process, $number),
            op: $op,
            at: $at,
        }
    };
}

/// A read of a process's copy, behind this number of casts.
macro_rules! copy_read {
    ($process:expr, $number:expr, $place:expr) => {
        CopyRead {
            id: id!($process, $number),
            place: $place,
        }
    };
}

macro_rules! swap_of {
    ($value:expr) => {
        Op::Swap {
            register: 0,
            value: $value,
        }
    };
}

macro_rules! cas_of {
    ($expected:expr, $value:expr) => {
        Op::CompareAndSwap {
            register: 0,
            expected: $expected,
            value: $value,
        }
    };
}

pub(crate) use ack;
pub(crate) use answered;
pub(crate) use call;
pub(crate) use called;
pub(crate) use cas_of;
pub(crate) use cast;
pub(crate) use copy_read;
pub(crate) use first;
pub(crate) use got;
pub(crate) use id;
pub(crate) use point;
pub(crate) use swap_of;
pub(crate) use take;
pub(crate) use tick;
pub(crate) use write_of;
