//! Frames and their bytes, as worked by hand.
use crate::demands::{demand, demand_none, demand_same};
use crate::macros::{ack, cast};
use crate::values::{READ as READ_FIRST, WRITE_FIVE};
use reg_base::Op;
use reg_frames::{Body, Frame, FrameFault, decode, encode};
use std::alloc::Global;

const WRITE: [u8; 32] = [
    0, 0x1e, 1, 1, 0, 0, 0, 0, 0, 0, 0, 0, 1, 0, 0, 0, 0, 0, 0, 0, 1, 2, 0, 0, 0, 0, 0, 0, 0, 0, 0,
    5,
];

const SWAP: [u8; 32] = [
    0, 0x1e, 2, 1, 0, 0, 0, 0, 0, 0, 0, 1, 1, 0, 0, 0, 0, 0, 0, 0, 3, 3, 0, 0, 0, 0, 0, 0, 0, 0, 0,
    7,
];

const COMPARED: [u8; 40] = [
    0, 0x26, 4, 1, 0, 0, 0, 0, 0, 0, 0, 1, 1, 0, 0, 0, 0, 0, 0, 0, 3, 4, 0, 0, 0, 0, 0, 0, 0, 0, 0,
    7, 0, 0, 0, 0, 0, 0, 0, 9,
];

const GOT: [u8; 12] = [0, 0x0a, 1, 2, 0, 0, 0, 0, 0, 0, 0, 1];

const ACK: [u8; 21] = [
    0, 0x13, 1, 1, 0, 0, 0, 0, 0, 0, 0, 0, 2, 0, 0, 0, 0, 0, 0, 0, 2,
];

const READ: [u8; 24] = [
    0, 0x16, 1, 1, 0, 0, 0, 0, 0, 0, 0, 0, 1, 0, 0, 0, 0, 0, 0, 0, 1, 1, 0, 0,
];

const LAST_REGISTER: [u8; 32] = [
    0, 0x1e, 1, 1, 0, 0, 0, 0, 0, 0, 0, 1, 1, 0, 0, 0, 0, 0, 0, 0, 3, 2, 0x0f, 0xff, 0, 0, 0, 0, 0,
    0, 0, 5,
];

/// Frames, and the bytes of each.
const FRAMES: &[(Frame, &[u8])] = &[
    (cast!(0, 1, WRITE_FIVE), &WRITE),
    (
        cast!(
            1,
            3,
            Op::Swap {
                register: 0,
                value: 7
            }
        ),
        &SWAP,
    ),
    (
        cast!(
            1,
            3,
            Op::CompareAndSwap {
                register: 0,
                expected: 7,
                value: 9
            }
        ),
        &COMPARED,
    ),
    (Frame::Got { count: 1 }, &GOT),
    (ack!(0, 2), &ACK),
    (cast!(0, 1, READ_FIRST), &READ),
    (
        cast!(
            1,
            3,
            Op::Write {
                register: 4095,
                value: 5
            }
        ),
        &LAST_REGISTER,
    ),
];

/// A cast at no time, and one of a read of the first register that no frame names.
const OUT_OF_RANGE: &[Frame] = &[
    cast!(0, 0, READ_FIRST),
    cast!(1, 3, Op::Read { register: 4096 }),
];

/// Whether these are the bytes of the frame.
fn is_spelled(alloc: Global, frame: &Frame, bytes: &[u8]) -> bool {
    match encode(alloc, frame) {
        Ok(spelled) => spelled.as_slice() == bytes,
        Err(_) => false,
    }
}

/// Whether a frame isn't spelled since it is out of range.
fn is_out_of_range(alloc: Global, frame: &Frame) -> bool {
    encode(alloc, frame).err() == Some(FrameFault::Range)
}

#[test]
fn each_form_there_and_back(rt: HostRuntime) {
    for (frame, bytes) in FRAMES {
        demand_same(&rt, bytes, &decode(bytes), &Ok(*frame));
        demand(&rt, frame, is_spelled(rt.alloc(), frame, bytes));
    }
    for frame in OUT_OF_RANGE {
        demand(&rt, frame, is_out_of_range(rt.alloc(), frame));
    }
}

/// The bytes of a frame, of which the one at a place is changed, and the fault.
type Changed = (&'static [u8], usize, u8, FrameFault);

const CHANGED: &[Changed] = &[
    (&WRITE, 1, 0x1d, FrameFault::Length),
    (&WRITE, 2, 2, FrameFault::Op),
    (&WRITE, 2, 3, FrameFault::Version),
    (&WRITE, 3, 3, FrameFault::Kind),
    (&WRITE, 12, 3, FrameFault::Body),
    (&WRITE, 21, 3, FrameFault::Op),
    (&WRITE, 20, 0, FrameFault::Range),
    (&WRITE, 22, 0x10, FrameFault::Range),
    (&WRITE, 5, 1, FrameFault::Range),
    (&SWAP, 2, 1, FrameFault::Op),
    (&SWAP, 2, 3, FrameFault::Version),
    (&GOT, 2, 2, FrameFault::Kind),
    (&ACK, 2, 2, FrameFault::Body),
    (&COMPARED, 1, 0x1e, FrameFault::Length),
    (&COMPARED, 2, 1, FrameFault::Op),
    (&COMPARED, 2, 2, FrameFault::Op),
    (&COMPARED, 2, 3, FrameFault::Version),
    (&COMPARED, 2, 5, FrameFault::Version),
    (&COMPARED, 21, 3, FrameFault::Op),
    (&COMPARED, 22, 0x10, FrameFault::Range),
    (&SWAP, 2, 4, FrameFault::Op),
    (&GOT, 2, 4, FrameFault::Kind),
    (&ACK, 2, 4, FrameFault::Body),
];

/// The first byte too few, the swap and the compare-and-swap without their last byte, data without a body, the read
/// with a byte more.
const OF_OTHER_SIZES: &[(&[u8], FrameFault)] = &[
    (&[], FrameFault::Short),
    (&[0, 0x0a, 1, 2, 0, 0, 0, 0, 0, 0, 0], FrameFault::Short),
    (
        &[
            0, 0x1d, 2, 1, 0, 0, 0, 0, 0, 0, 0, 1, 1, 0, 0, 0, 0, 0, 0, 0, 3, 3, 0, 0, 0, 0, 0, 0,
            0, 0, 0,
        ],
        FrameFault::Size,
    ),
    (
        &[
            0, 0x25, 4, 1, 0, 0, 0, 0, 0, 0, 0, 1, 1, 0, 0, 0, 0, 0, 0, 0, 3, 4, 0, 0, 0, 0, 0, 0,
            0, 0, 0, 7, 0, 0, 0, 0, 0, 0, 0,
        ],
        FrameFault::Size,
    ),
    (&[0, 0x0a, 1, 1, 0, 0, 0, 0, 0, 0, 0, 0], FrameFault::Size),
    (
        &[
            0, 0x17, 1, 1, 0, 0, 0, 0, 0, 0, 0, 0, 1, 0, 0, 0, 0, 0, 0, 0, 1, 1, 0, 0, 0,
        ],
        FrameFault::Size,
    ),
];

/// Whether the bytes are refused with the fault where one of them is changed.
fn is_refused(row: &Changed) -> bool {
    let (bytes, place, byte, fault) = *row;
    let mut copy = [0u8; 40];
    let size = bytes.len();
    if size > 40 || place >= size {
        return false;
    }
    copy[..size].copy_from_slice(bytes);
    copy[place] = byte;
    decode(&copy[..size]) == Err(fault)
}

#[test]
fn each_fault(rt: HostRuntime) {
    for row in CHANGED {
        demand(&rt, row, is_refused(row));
    }
    for (bytes, fault) in OF_OTHER_SIZES {
        demand_same(&rt, bytes, &decode(bytes), &Err(*fault));
    }
}

/// The last number, time and count, and the first ones past them; and a register that has no place in one byte.
const LAST: &[(&[u8], Result<Frame, FrameFault>)] = &[
    (
        &[
            0, 0x16, 1, 1, 0, 0, 0, 0, 0, 0, 0, 0, 1, 0, 0, 0, 0, 0, 0, 0, 1, 1, 1, 0,
        ],
        Ok(cast!(0, 1, Op::Read { register: 256 })),
    ),
    (
        &[
            0, 0x13, 1, 1, 0, 0, 0xff, 0xff, 0xff, 0xff, 0xff, 0xff, 2, 0, 0, 0, 0, 0, 0, 0, 2,
        ],
        Ok(ack!(0xffff_ffff_ffff, 2)),
    ),
    (
        &[
            0, 0x13, 1, 1, 0, 1, 0, 0, 0, 0, 0, 0, 2, 0, 0, 0, 0, 0, 0, 0, 2,
        ],
        Err(FrameFault::Range),
    ),
    (
        &[
            0, 0x13, 1, 1, 0, 0, 0, 0, 0, 0, 0, 0, 2, 0, 1, 0, 0, 0, 0, 0, 0,
        ],
        Ok(ack!(0, 0x1_0000_0000_0000)),
    ),
    (
        &[
            0, 0x13, 1, 1, 0, 0, 0, 0, 0, 0, 0, 0, 2, 0, 1, 0, 0, 0, 0, 0, 1,
        ],
        Err(FrameFault::Range),
    ),
    (
        &[0, 0x0a, 1, 2, 0, 1, 0, 0, 0, 0, 0, 0],
        Ok(Frame::Got {
            count: 0x1_0000_0000_0000,
        }),
    ),
    (
        &[0, 0x0a, 1, 2, 0, 1, 0, 0, 0, 0, 0, 1],
        Err(FrameFault::Range),
    ),
];

#[test]
fn the_last_numbers_times_and_counts(rt: HostRuntime) {
    for (bytes, read) in LAST {
        demand_same(&rt, bytes, &decode(bytes), read);
    }
}

/// Whether the first bytes of a frame, of each number up to the last but one, are refused as too few.
fn is_no_prefix_read(bytes: &[u8]) -> bool {
    for size in 0..bytes.len() {
        let fault = if size < 12 {
            FrameFault::Short
        } else {
            FrameFault::Length
        };
        if decode(&bytes[..size]) != Err(fault) {
            return false;
        }
    }
    true
}

/// Whether no frame is read of the bytes, or one that is spelled so alone.
fn is_only_spelling(alloc: Global, bytes: &[u8]) -> bool {
    match decode(bytes) {
        Ok(frame) => is_spelled(alloc, &frame, bytes),
        Err(_) => true,
    }
}

/// The first place and change of a byte with which the bytes of a frame are read as a frame that is spelled otherwise.
fn misread_change(alloc: Global, bytes: &[u8]) -> Option<(usize, u8)> {
    let mut copy = [0u8; 40];
    let size = bytes.len().min(40);
    copy[..size].copy_from_slice(&bytes[..size]);
    for place in 0..size {
        let before = copy[place];
        for change in 1..=255u8 {
            copy[place] = before ^ change;
            if !is_only_spelling(alloc, &copy[..size]) {
                return Some((place, change));
            }
        }
        copy[place] = before;
    }
    None
}

#[test]
fn prefixes_and_changed_bytes(rt: HostRuntime) {
    for (frame, bytes) in FRAMES {
        demand(&rt, frame, is_no_prefix_read(bytes));
        demand_none(&rt, frame, &misread_change(rt.alloc(), bytes));
    }
}
