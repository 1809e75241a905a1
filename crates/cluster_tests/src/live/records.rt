//! Records worked by hand, with each kind of damage.
use crate::live::crews::shape_of;
use crate::values::{receipt, write};
use reg_base::{Answer, Op, Shape};
use reg_frames::Frame;
use reg_front::Linear;
use reg_heap::{Trial, refusals};
use reg_live::{CloseFault, LogEntry, Receipt, Reply, Step, verify, verify_in};
use reg_world::{PackedWires, WireStore, World};
use std::alloc::{AllocError, Allocator, Global};
use std::test::Fail;

/// The call of a write of 5.
const CALL: Step = Step::Call {
    op: Op::Write {
        register: 0,
        value: 5,
    },
};

/// The write, called at the only process and answered at once.
const ENTRY: LogEntry = LogEntry {
    step: CALL,
    reply: Some(Reply {
        answer: Answer::Done,
        place: 0,
    }),
};

/// The write, answered with a place that no cast was delivered at.
const MISPLACED: LogEntry = LogEntry {
    step: CALL,
    reply: Some(Reply {
        answer: Answer::Done,
        place: 1,
    }),
};

/// A frame taken from a process that doesn't exist.
const TAKEN: LogEntry = LogEntry {
    step: Step::Take {
        from: 1,
        frame: Frame::Got { count: 0 },
    },
    reply: None,
};

/// An order, the entry of the log, whether the receipt is there, and what `verify` says.
#[derive(Clone, Copy)]
struct Case {
    order: &'static [u8],
    entry: LogEntry,
    told: bool,
    fault: Option<CloseFault>,
}

macro_rules! case {
    ($order:expr, $entry:expr, $told:expr, $fault:expr) => {
        Case {
            order: $order,
            entry: $entry,
            told: $told,
            fault: $fault,
        }
    };
}

macro_rules! unfaithful {
    ($place:expr) => {
        Some(CloseFault::Unfaithful { place: $place })
    };
}

const CASES: [Case; 7] = [
    case!(&[0], ENTRY, true, None),
    case!(
        &[0],
        ENTRY,
        false,
        Some(CloseFault::Mismatch { process: 0 })
    ),
    case!(&[0, 0], ENTRY, true, unfaithful!(1)),
    case!(&[], ENTRY, true, unfaithful!(0)),
    case!(&[1], ENTRY, true, unfaithful!(0)),
    case!(&[0], MISPLACED, true, unfaithful!(0)),
    case!(&[0], TAKEN, false, unfaithful!(0)),
];

/// Adds a list of this item, or of none.
fn add_list<T: Copy, A: Allocator + Copy>(
    alloc: A,
    lists: &mut Vec<Vec<T, A>, A>,
    item: Option<T>,
) -> Result<(), AllocError> {
    let mut list = Vec::new(alloc);
    if let Some(item) = item {
        list.push(item)?;
    }
    lists.push(list)?;
    Ok(())
}

/// Whether this is what is to be said of a row: its fault, or with none a world of one event.
fn is_said<A: Allocator + Copy, W: WireStore<A>>(
    said: Result<World<Linear, A, W>, CloseFault>,
    row: &Case,
) -> Result<bool, AllocError> {
    let (events, fault) = match said {
        Ok(world) => (world.events(), None),
        Err(fault) => (1, Some(fault)),
    };
    if fault == Some(CloseFault::OutOfMemory) {
        return Err(AllocError);
    }
    Ok(events == 1 && fault == row.fault)
}

/// Whether `verify`, and `verify_in` over packed wires, say of one process what they are to say.
fn judges<A: Allocator + Copy>(
    shape: Shape,
    alloc: A,
    row: &Case,
    logs: &[Vec<LogEntry, A>],
    lists: &[Vec<Receipt, A>],
) -> Result<bool, AllocError> {
    let count = shape.processes() as usize;
    if logs.len() != count || lists.len() != count {
        return Err(AllocError);
    }
    let plain = is_said(
        verify::<Linear, A>(alloc, shape, row.order, logs, lists),
        row,
    )?;
    let packed = verify_in::<Linear, A, PackedWires<A>>(alloc, shape, row.order, logs, lists);
    Ok(is_said(packed, row)? && plain)
}

/// Whether `verify` and `verify_in` say of one process what they are to say, with the log and the receipts of the row
/// put into these lists, which are empty.
fn judges_row<A: Allocator + Copy>(
    shape: Shape,
    alloc: A,
    row: &Case,
    logs: &mut Vec<Vec<LogEntry, A>, A>,
    lists: &mut Vec<Vec<Receipt, A>, A>,
) -> Result<bool, AllocError> {
    let written = receipt((0, 0), write(0, 5), Answer::Done, 0, 0);
    let told = if row.told { Some(written) } else { None };
    add_list(alloc, logs, Some(row.entry))?;
    add_list(alloc, lists, told)?;
    judges(shape, alloc, row, logs.as_slice(), lists.as_slice())
}

/// Whether a row is judged as it is to be.
fn is_right<A: Allocator + Copy>(shape: Shape, alloc: A, row: &Case) -> Result<bool, AllocError> {
    let mut logs = Vec::new(alloc);
    let mut lists = Vec::new(alloc);
    judges_row(shape, alloc, row, &mut logs, &mut lists)
}

#[test]
fn damage_is_told(rt: HostRuntime) {
    let shape = shape_of(&rt, 1, 1);
    for row in &CASES {
        assert!(rt; is_right(shape, rt.alloc(), row) == Ok(true));
    }
}

/// A row, judged.
#[derive(Clone, Copy)]
struct Judged {
    shape: Shape,
    row: Case,
}

impl Trial for Judged {
    fn answer<A: Allocator + Copy>(&self, alloc: A, ample: Global) -> Result<Option<String>, Fail> {
        match is_right(self.shape, alloc, &self.row) {
            Ok(true) => Ok(Some(String::new(ample))),
            Ok(false) => Err("judged otherwise")?,
            Err(AllocError) => Ok(None),
        }
    }
}

#[test]
fn each_growth_is_refused(rt: HostRuntime) -> Result<(), Fail> {
    let shape = shape_of(&rt, 1, 1);
    for row in &CASES {
        let judged = Judged { shape, row: *row };
        assert!(rt; refusals(&judged, rt.alloc())? > 4);
    }
    Ok(())
}
