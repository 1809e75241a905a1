//! A plain list of the witness, by a scan of all reads for each place, beside the merged one on pseudo-random runs.
use crate::demands::{demand, shape_of};
use crate::values::READ;
use reg_base::{Op, OpId, Shape};
use reg_frames::{Body, Frame};
use reg_front::{FrontEnd, Linear, LocalRead, LocalWrite};
use reg_history::{Entry, check_points, check_serial};
use reg_world::{CopyRead, Event, First, World};
use std::alloc::{AllocError, Global};

const PROCESSES: u8 = 3;

/// A cast that was delivered nowhere: its time and its operation.
type Lost = (u64, OpId);

fn is_finished(history: &[Entry], id: OpId) -> bool {
    for entry in history {
        if let Entry::Answered { id: other, .. } = *entry
            && other == id
        {
            return true;
        }
    }
    false
}

fn is_delivered(order: &[First], id: OpId) -> bool {
    for first in order {
        if first.id == id {
            return true;
        }
    }
    false
}

fn is_read(reads: &[CopyRead], id: OpId) -> bool {
    for read in reads {
        if read.id == id {
            return true;
        }
    }
    false
}

/// How many updates the process of an operation called before it.
fn updates_before(history: &[Entry], before: OpId) -> u64 {
    let mut count = 0u64;
    for entry in history {
        if let Entry::Called { at: _, id, op } = *entry
            && id.process == before.process
            && id.number < before.number
            && op.updates()
        {
            count = count.wrapping_add(1);
        }
    }
    count
}

/// The time of the update that a process cast after `before` others, from what it put for another. 0 where it cast
/// none.
fn time_of(frames: &[Frame], before: u64) -> u64 {
    let (mut next, mut casts) = (0u64, 0u64);
    for frame in frames {
        if let Frame::Numbered { number, body } = *frame
            && number == next
        {
            next = next.wrapping_add(1);
            if let Body::Cast { time, op } = body
                && op.updates()
            {
                if casts == before {
                    return time;
                }
                casts = casts.wrapping_add(1);
            }
        }
    }
    0
}

/// The time of an update, from what its process put for another.
fn cast_time<F: FrontEnd>(world: &World<F>, id: OpId) -> u64 {
    let other = if id.process == 0 { 1 } else { 0 };
    match world.wire(id.process, other) {
        Some(frames) => time_of(frames, updates_before(world.history().entries(), id)),
        None => 0,
    }
}

/// The operation that an entry calls, if it is a finished update that was delivered nowhere. Updates are the only casts
/// that can be finished so.
fn lost_by(entry: &Entry, history: &[Entry], order: &[First]) -> Option<OpId> {
    match *entry {
        Entry::Called { at: _, id, op } => {
            let is_lost = op.updates() && is_finished(history, id) && !is_delivered(order, id);
            is_lost.then_some(id)
        }
        Entry::Answered { .. } => None,
    }
}

/// The finished updates that were delivered nowhere.
fn add_lost<F: FrontEnd>(lost: &mut Vec<Lost>, world: &World<F>) -> Result<(), AllocError> {
    let (history, order) = (world.history().entries(), world.order());
    for entry in history {
        if let Some(id) = lost_by(entry, history, order) {
            lost.push((cast_time(world, id), id))?;
        }
    }
    lost.sort()
}

/// The casts that were delivered nowhere, by time.
fn add_behind<F: FrontEnd>(
    ids: &mut Vec<OpId>,
    alloc: Global,
    world: &World<F>,
) -> Result<(), AllocError> {
    let mut lost = Vec::new(alloc);
    add_lost(&mut lost, world)?;
    for (_time, id) in lost.as_slice() {
        ids.push(*id)?;
    }
    Ok(())
}

/// The reads at a place, by process.
fn add_reads(ids: &mut Vec<OpId>, reads: &[CopyRead], place: u64) -> Result<(), AllocError> {
    for process in 0..PROCESSES {
        for read in reads {
            if read.place == place && read.id.process == process {
                ids.push(read.id)?;
            }
        }
    }
    Ok(())
}

/// The reads at each place, each place's before its cast, where that is of an update or a finished operation.
fn add_placed(
    ids: &mut Vec<OpId>,
    history: &[Entry],
    order: &[First],
    reads: &[CopyRead],
) -> Result<(), AllocError> {
    let mut place = 0u64;
    for first in order {
        add_reads(ids, reads, place)?;
        if first.op.updates() || is_finished(history, first.id) {
            ids.push(first.id)?;
        }
        place = place.wrapping_add(1);
    }
    add_reads(ids, reads, place)
}

/// Whether these are the plain list of the witness.
fn are_plain<F: FrontEnd>(alloc: Global, world: &World<F>, ids: &[OpId]) -> bool {
    let mut plain = Vec::new(alloc);
    let (history, order, reads) = (world.history().entries(), world.order(), world.reads());
    add_placed(&mut plain, history, order, reads).is_ok()
        && add_behind(&mut plain, alloc, world).is_ok()
        && plain.as_slice() == ids
}

/// Whether the points of a world are a point order of its history.
pub(crate) fn are_points(alloc: Global, world: &World<Linear>) -> bool {
    match world.points() {
        Ok(points) => check_points(alloc, world.history(), points.as_slice()) == Ok(()),
        Err(_) => false,
    }
}

/// Whether the witness is the plain list and a serial order.
pub(crate) fn is_right<F: FrontEnd>(alloc: Global, world: &World<F>) -> bool {
    match world.witness() {
        Ok(ids) => {
            are_plain(alloc, world, ids.as_slice())
                && check_serial(alloc, world.history(), ids.as_slice()) == Ok(())
        }
        Err(_) => false,
    }
}

/// A frame of this process to be taken, by what is left of the word.
fn take_of<F: FrontEnd>(world: &World<F>, process: u8, word: u64) -> Event {
    let to = (word / 7 % 3) as u8;
    let count = match world.wire(process, to) {
        Some(frames) => frames.len() as u64,
        None => 0,
    };
    let place = if count == 0 { 0 } else { word / 49152 % count };
    Event::Take {
        from: process,
        to,
        number: u32::try_from(place).unwrap_or(0),
    }
}

/// What the register holds in the copy of this process.
fn held_by<F: FrontEnd>(world: &World<F>, process: u8) -> u64 {
    match world.process(process) {
        Some(process) => process.registers().get(0).unwrap_or(0),
        None => 0,
    }
}

/// An event by a word. A compare-and-swap expects what its process's copy holds, so some are done and some are not.
fn event_of<F: FrontEnd>(world: &World<F>, word: u64) -> Event {
    let process = (word % 3) as u8;
    let op = match word / 3 % 16 {
        0 => return Event::Tick { process },
        1 => Op::Write {
            register: 0,
            value: word / 48 % 1024,
        },
        2 => Op::Swap {
            register: 0,
            value: word / 48 % 1024,
        },
        3 | 4 => READ,
        5 => Op::CompareAndSwap {
            register: 0,
            expected: held_by(world, process),
            value: word / 48 % 1024,
        },
        _ => return take_of(world, process, word),
    };
    Event::Call { process, op }
}

/// Has the world make pseudo-random events, of which the refused ones change nothing.
fn play_on<F: FrontEnd>(world: &mut World<F>, seed: u64) {
    let mut state = seed;
    for _event in 0..200 {
        state = state
            .wrapping_mul(6_364_136_223_846_793_005)
            .wrapping_add(1_442_695_040_888_963_407);
        let event = event_of(world, state >> 16);
        let _ = world.step(&event);
    }
}

/// Whether one of these ids is neither of a delivered cast nor of a read from a copy.
fn are_some_lost(order: &[First], reads: &[CopyRead], ids: &[OpId]) -> bool {
    for id in ids {
        if !is_delivered(order, *id) && !is_read(reads, *id) {
            return true;
        }
    }
    false
}

/// What some run was seen to have.
#[derive(Clone, Copy)]
struct Seen {
    /// A lost cast.
    lost: bool,
    /// More than three reads from a copy.
    reads: bool,
}

const NOTHING: Seen = Seen {
    lost: false,
    reads: false,
};

/// Looks at what a world has. Tells whether there is memory for its witness.
fn look<F: FrontEnd>(seen: &mut Seen, world: &World<F>) -> bool {
    match world.witness() {
        Ok(ids) => {
            let (order, reads) = (world.order(), world.reads());
            seen.lost = seen.lost || are_some_lost(order, reads, ids.as_slice());
            seen.reads = seen.reads || reads.len() > 3;
            true
        }
        Err(_) => false,
    }
}

/// Looks at the run of pseudo-random events of a seed. Tells whether its witness is right.
fn agrees<F: FrontEnd>(seen: &mut Seen, alloc: Global, shape: Shape, seed: u64) -> bool {
    match World::<F>::new(alloc, shape) {
        Ok(mut world) => {
            play_on(&mut world, seed);
            look(seen, &world) && is_right(alloc, &world)
        }
        Err(_) => false,
    }
}

/// Whether the points of a linear run of pseudo-random events are right too.
fn agrees_with_points(alloc: Global, shape: Shape, seed: u64) -> bool {
    match World::<Linear>::new(alloc, shape) {
        Ok(mut world) => {
            play_on(&mut world, seed);
            is_right(alloc, &world) && are_points(alloc, &world)
        }
        Err(_) => false,
    }
}

fn all_agree(alloc: Global, shape: Shape, seed: u64) -> bool {
    let mut seen = NOTHING;
    agrees_with_points(alloc, shape, seed)
        && agrees::<LocalRead>(&mut seen, alloc, shape, seed)
        && agrees::<LocalWrite>(&mut seen, alloc, shape, seed)
}

#[test]
fn the_witness_is_the_plain_list(rt: HostRuntime) {
    let shape = shape_of(&rt, 3);
    for seed in 0..40 {
        demand(&rt, &seed, all_agree(rt.alloc(), shape, seed));
    }
}

#[test]
fn some_casts_are_lost_and_some_reads_share_a_place(rt: HostRuntime) {
    let shape = shape_of(&rt, 3);
    let mut seen = NOTHING;
    for seed in 0..40 {
        let right = agrees::<LocalWrite>(&mut seen, rt.alloc(), shape, seed);
        demand(&rt, &seed, right);
    }
    assert_eq!(rt; (seen.lost, seen.reads), (true, true));
}
