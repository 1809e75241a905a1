//! Worked examples of both ends of a link, and of the links of one process together.
use crate::demands::demand_same;
use reg_frames::{Body, Frame};
use reg_heap::Refusing;
use reg_links::{Ahead, Inbox, LinkFault, Outbox, Outboxes};
use std::alloc::{Allocator, Global};

/// The last number of a frame.
const LAST_NUMBER: u64 = 281_474_976_710_655;

const TWO: Body = Body::Ack { time: 2 };

const THREE: Body = Body::Ack { time: 3 };

/// What is done with the links to other processes, and what they answer.
enum Use {
    /// A body is queued for all others, under a number.
    Queue {
        body: Body,
        told: u64,
    },
    /// A count comes from a process. Whether it is ahead.
    Got {
        from: u8,
        count: u64,
        told: Result<(), Ahead>,
    },
    /// The frame at this place of those that a process hasn't acknowledged is asked for.
    Resend {
        to: u8,
        place: u64,
        told: Option<Frame>,
    },
}

macro_rules! queue {
    ($body:expr, $told:expr) => {
        Use::Queue {
            body: $body,
            told: $told,
        }
    };
}

macro_rules! got {
    ($from:expr, $count:expr, $told:expr) => {
        Use::Got {
            from: $from,
            count: $count,
            told: $told,
        }
    };
}

macro_rules! resend {
    ($to:expr, $place:expr, $told:expr) => {
        Use::Resend {
            to: $to,
            place: $place,
            told: $told,
        }
    };
}

macro_rules! frame {
    ($number:expr, $body:expr) => {
        Some(Frame::Numbered {
            number: $number,
            body: $body,
        })
    };
}

/// A use of the links from process 1 of 3, and what is then pending to each process.
const OF_THREE: &[(Use, [u64; 3])] = &[
    (queue!(TWO, 0), [1, 0, 1]),
    (queue!(THREE, 1), [2, 0, 2]),
    (got!(0, 3, Err(Ahead)), [2, 0, 2]),
    (got!(0, 2, Ok(())), [0, 0, 2]),
    (resend!(0, 0, None), [0, 0, 2]),
    (resend!(2, 0, frame!(0, TWO)), [0, 0, 2]),
    (resend!(2, 1, frame!(1, THREE)), [0, 0, 2]),
    (resend!(2, 2, None), [0, 0, 2]),
    (resend!(2, 18_446_744_073_709_551_615, None), [0, 0, 2]),
    (got!(2, 1, Ok(())), [0, 0, 1]),
    (got!(2, 0, Ok(())), [0, 0, 1]),
    (resend!(2, 0, frame!(1, THREE)), [0, 0, 1]),
    (queue!(TWO, 2), [1, 0, 2]),
    (resend!(0, 0, frame!(2, TWO)), [1, 0, 2]),
    (resend!(1, 0, None), [1, 0, 2]),
    (got!(1, 3, Ok(())), [1, 0, 2]),
];

/// A use of one link alone, and what is then pending.
const OF_TWO: &[(Use, u64)] = &[
    (queue!(TWO, 0), 1),
    (queue!(THREE, 1), 2),
    (resend!(1, 1, frame!(1, THREE)), 2),
    (resend!(1, 2, None), 2),
    (got!(1, 3, Err(Ahead)), 2),
    (got!(1, 1, Ok(())), 1),
    (resend!(1, 0, frame!(1, THREE)), 1),
    (got!(1, 0, Ok(())), 1),
    (resend!(1, 0, frame!(1, THREE)), 1),
];

/// Whether the link alone answers so.
fn answers_alone(out: &mut Outbox, step: &Use) -> bool {
    match *step {
        Use::Queue { body, told } => {
            out.queue(body) == Ok(Frame::Numbered { number: told, body })
        }
        Use::Got {
            from: _,
            count,
            told,
        } => out.got(count) == told,
        Use::Resend { to: _, place, told } => out.resend(place) == told,
    }
}

/// The place of the first row at which the link alone answers otherwise.
fn other_alone(out: &mut Outbox) -> Option<usize> {
    for (row, (step, pending)) in OF_TWO.iter().enumerate() {
        if !answers_alone(out, step) || out.pending() != *pending {
            return Some(row);
        }
    }
    None
}

#[test]
fn outbox_keeps_what_is_not_acknowledged(rt: HostRuntime) {
    let row = other_alone(&mut Outbox::new(rt.alloc()));
    assert!(rt; row.is_none(), "{row:?}");
}

/// Whether the links of three processes answer so.
fn answers(out: &mut Outboxes, step: &Use) -> bool {
    out.processes() == 3
        && match *step {
            Use::Queue { body, told } => out.queue(1, body) == Ok(told),
            Use::Got { from, count, told } => from < 3 && out.got(from, count) == told,
            Use::Resend { to, place, told } => to < 3 && out.resend(to, place) == told,
        }
}

/// Whether this is pending to each of three processes.
fn has_pending(out: &Outboxes, pending: &[u64; 3]) -> bool {
    out.processes() == 3 && [out.pending(0), out.pending(1), out.pending(2)] == *pending
}

/// Whether the links answer so, row by row.
fn keeps(out: &mut Outboxes) -> bool {
    for (step, pending) in OF_THREE {
        if !answers(out, step) || !has_pending(out, pending) {
            return false;
        }
    }
    true
}

#[test]
fn links_keep_what_is_not_acknowledged_by_all(rt: HostRuntime) {
    let mut out = Outboxes::new(rt.alloc(), 3).expect(&rt, "memory");
    assert!(rt; keeps(&mut out));
}

/// What is answered to a body with the last number, and to one more.
const AT_THE_END: &[Result<Frame, LinkFault>] = &[
    Ok(Frame::Numbered {
        number: LAST_NUMBER,
        body: TWO,
    }),
    Err(LinkFault::NumberFull),
];

/// Whether a link that has used all numbers but the last one takes one body more, and no other.
fn ends(out: &mut Outbox) -> bool {
    for answer in AT_THE_END {
        if out.queue(TWO) != *answer || out.pending() != 1 {
            return false;
        }
    }
    true
}

#[test]
fn numbers_end(rt: HostRuntime) {
    let out = Outbox::starting(rt.alloc(), LAST_NUMBER);
    assert!(rt; ends(&mut out.expect(&rt, "the last number")));
}

/// Whether both ends of a link start with this number.
fn are_started(alloc: Global, next: u64) -> [bool; 2] {
    let is_sent = Outbox::starting(alloc, next).is_some();
    [is_sent, Inbox::starting(next).is_some()]
}

#[test]
fn no_number_is_past_the_end(rt: HostRuntime) {
    for (next, is_one) in [(LAST_NUMBER + 1, true), (LAST_NUMBER + 2, false)] {
        demand_same(&rt, &next, &are_started(rt.alloc(), next), &[is_one; 2]);
    }
}

/// Whether a body is refused for want of memory, and not queued, and it is queued when it comes again.
fn queues_later<A: Allocator + Copy>(out: &mut Outbox<A>) -> bool {
    out.queue(TWO) == Err(LinkFault::OutOfMemory) && out.pending() == 0 && out.queue(TWO).is_ok()
}

/// The same of the links to two others.
fn queues_for_all_later<A: Allocator + Copy>(out: &mut Outboxes<A>) -> bool {
    out.processes() == 3
        && out.queue(1, TWO) == Err(LinkFault::OutOfMemory)
        && out.next() == 0
        && out.queue(1, TWO) == Ok(0)
        && out.queue(1, TWO) == Ok(1)
        && [out.pending(0), out.pending(2)] == [2, 2]
}

#[test]
fn a_refused_body_is_not_queued(rt: HostRuntime) {
    let heap = Refusing::new(rt.alloc(), 0);
    let mut out = Outbox::new(&heap);
    assert!(rt; queues_later(&mut out));
}

/// Whether there are no links to two others where memory is refused at once.
fn are_refused(alloc: Global) -> bool {
    let none = Refusing::new(alloc, 0);
    Outboxes::new(&none, 3).is_err()
}

#[test]
fn a_refused_body_is_queued_for_none(rt: HostRuntime) {
    assert!(rt; are_refused(rt.alloc()));
    let heap = Refusing::new(rt.alloc(), 1);
    let out = Outboxes::new(&heap, 3);
    assert!(rt; queues_for_all_later(&mut out.expect(&rt, "the counts")));
}

/// Whether all that the only process queues counts as acknowledged.
fn has_all_alone(out: &mut Outboxes) -> bool {
    out.processes() == 1
        && out.queue(0, TWO) == Ok(0)
        && out.queue(0, TWO) == Ok(1)
        && out.pending(0) == 0
        && out.got(0, 3) == Err(Ahead)
}

#[test]
fn one_process_has_all_that_it_queues(rt: HostRuntime) {
    let mut out = Outboxes::new(rt.alloc(), 1).expect(&rt, "memory");
    assert!(rt; has_all_alone(&mut out));
}

/// The number of a body, what is accepted of it, and the number that is expected then.
const TAKEN: &[(u64, Option<Body>, u64)] = &[
    (1, None, 0),
    (0, Some(TWO), 1),
    (0, None, 1),
    (2, None, 1),
    (1, Some(TWO), 2),
];

#[test]
fn inbox_accepts_in_order(rt: HostRuntime) {
    let mut inbox = Inbox::new();
    for (number, accepted, expected) in TAKEN {
        let taken = (inbox.take(*number, TWO), inbox.expected());
        demand_same(&rt, number, &taken, &(*accepted, *expected));
    }
}

#[test]
fn inbox_accepts_up_to_the_last_number(rt: HostRuntime) {
    let mut last = Inbox::starting(LAST_NUMBER + 1).expect(&rt, "the last count");
    assert!(rt; last.take(LAST_NUMBER + 1, TWO).is_none());
}
