//! What a process tells of what it holds, of what its caller waits for, and of the other process.
use crate::demands::shape_of;
use crate::parts::traces::step_of;
use crate::values::{READ, WRITE_FIVE};
use reg_base::{Delivered, Shape, Stamp};
use reg_frames::{Body, Frame};
use reg_front::LocalWrite;
use reg_process::{Awaited, Known, Process, Step};
use std::alloc::Global;

const WRITTEN: Delivered = Delivered {
    stamp: Stamp {
        time: 1,
        process: 0,
    },
    op: WRITE_FIVE,
};

const BEFORE: Known = Known {
    seen: 0,
    expected: 0,
    first: 0,
    next: 1,
};

const BEHIND: Known = Known {
    seen: 2,
    expected: 1,
    first: 0,
    next: 1,
};

/// A step, what is then held and awaited, and what is known of the other process.
type Row = (Step, &'static [Delivered], Option<Awaited>, Known);

/// A write that is answered at once is held back, and a read waits for it, until the other process is heard past its
/// stamp.
const ROWS: &[Row] = &[
    (Step::Call { op: WRITE_FIVE }, &[WRITTEN], None, BEFORE),
    (
        Step::Call { op: READ },
        &[WRITTEN],
        Some(Awaited::Settling { op: READ }),
        BEFORE,
    ),
    (
        Step::Take {
            from: 1,
            frame: Frame::Numbered {
                number: 0,
                body: Body::Ack { time: 2 },
            },
        },
        &[],
        None,
        BEHIND,
    ),
    (
        Step::Take {
            from: 1,
            frame: Frame::Got { count: 1 },
        },
        &[],
        None,
        Known { first: 1, ..BEHIND },
    ),
];

/// Whether the process holds these casts.
fn holds(alloc: Global, process: &Process<LocalWrite>, casts: &[Delivered]) -> bool {
    match process.held(alloc) {
        Ok(held) => held.as_slice() == casts,
        Err(_) => false,
    }
}

/// Whether the process makes the step and then tells what the row says.
fn tells(alloc: Global, process: &mut Process<LocalWrite>, row: &Row) -> bool {
    let (step, casts, awaited, known) = row;
    step_of(process, step).is_ok()
        && holds(alloc, process, casts)
        && process.awaited() == *awaited
        && [process.known(0), process.known(1)] == [None, Some(*known)]
}

/// The first place of a row that the process doesn't tell.
fn untold(alloc: Global, process: &mut Process<LocalWrite>) -> Option<usize> {
    for (place, row) in ROWS.iter().enumerate() {
        if !tells(alloc, process, row) {
            return Some(place);
        }
    }
    None
}

/// The same of the first process of a shape.
fn untold_by_new(alloc: Global, shape: Shape) -> Option<usize> {
    match Process::new(alloc, shape, 0) {
        Ok(mut process) => untold(alloc, &mut process),
        Err(_) => Some(0),
    }
}

#[test]
fn what_is_held_and_awaited(rt: HostRuntime) {
    let place = untold_by_new(rt.alloc(), shape_of(&rt, 2));
    assert!(rt; place.is_none(), "{place:?}");
}
