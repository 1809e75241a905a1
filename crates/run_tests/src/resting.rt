//! Worlds brought to rest: a lost write, as worked by hand, runs behind each of their events, large shapes, the most
//! events, and each growth refused.
use crate::answers::{shown, unless_memory};
use crate::demands::{demand, demand_none, demand_refusals, shape_of};
use crate::macros::{call, take, tick};
use crate::values::WRITE_FIVE;
use crate::world_rows::Row;
use crate::worlds::runs_of;
use reg_base::Shape;
use reg_front::{Front, FrontEnd, Linear, LocalRead, LocalWrite};
use reg_heap::Trial;
use reg_process::Process;
use reg_records::{SettleFault, settle};
use reg_world::{Event, PackedWires, RunFault, WireStore, World, WorldFault};
use std::alloc::{Allocator, Global};
use std::process::Abort;
use std::test::Fail;

const WRITE: Event = call!(0, WRITE_FIVE);

/// The events that bring two processes to rest where the first one's cast was lost, as worked by hand: the cast is put
/// again, accepted and counted, and then its acknowledgement.
const TWO: &[Event] = &[
    tick!(0),
    take!(0, 1, 1),
    take!(1, 0, 0),
    tick!(1),
    take!(1, 0, 2),
    take!(0, 1, 2),
];

/// The events that bring three processes to rest where the first one's cast was lost.
const THREE: &[Event] = &[
    tick!(0),
    take!(0, 1, 1),
    take!(1, 0, 0),
    take!(0, 2, 1),
    take!(2, 0, 0),
    tick!(1),
    take!(1, 0, 2),
    take!(0, 1, 2),
    take!(1, 2, 1),
    take!(2, 1, 1),
    tick!(2),
    take!(2, 0, 2),
    take!(0, 2, 2),
    take!(2, 1, 2),
    take!(1, 2, 2),
];

/// Whether a world with one write is settled by just these events.
fn settles(world: &mut World<Linear>, events: &[Event]) -> bool {
    match settle(world) {
        Ok(count) => {
            count as usize == events.len()
                && world.accepted().get(1..) == Some(events)
                && settle(world) == Ok(0)
        }
        Err(_) => false,
    }
}

/// Whether the write of the first of the shape's processes is settled by just these events.
fn settles_by(alloc: Global, shape: Shape, events: &[Event]) -> bool {
    match World::<Linear>::run(alloc, shape, &[WRITE]) {
        Ok(mut world) => settles(&mut world, events),
        Err(_) => false,
    }
}

#[test]
fn a_lost_write_is_settled_as_worked_by_hand(rt: HostRuntime) {
    for (processes, events) in [(2, TWO), (3, THREE)] {
        let right = settles_by(rt.alloc(), shape_of(&rt, processes), events);
        demand(&rt, &processes, right);
    }
}

/// Whether a process has nothing pending, runs nothing, and has this value in its register.
fn is_still<F: FrontEnd>(process: &Process<F>, value: Option<u64>) -> bool {
    process.pending() == 0 && !process.busy() && process.registers().get(0) == value
}

/// Whether all processes are still, with one value in all copies of the register.
fn are_still<F: FrontEnd, W: WireStore<Global>>(world: &World<F, Global, W>) -> bool {
    let value = match world.process(0) {
        Some(first) => first.registers().get(0),
        None => return false,
    };
    for number in 0..u8::MAX {
        match world.process(number) {
            Some(process) if is_still(process, value) => {}
            Some(_) => return false,
            None => break,
        }
    }
    true
}

/// Whether a world comes to rest.
pub(crate) fn comes_to_rest<F: FrontEnd, W: WireStore<Global>>(
    world: &mut World<F, Global, W>,
) -> bool {
    settle(world).is_ok() && are_still(world) && settle(world) == Ok(0)
}

/// Whether the run of these events comes to rest.
fn run_rests<F: FrontEnd>(alloc: Global, shape: Shape, events: &[Event]) -> bool {
    match World::<F>::run(alloc, shape, events) {
        Ok(mut world) => comes_to_rest(&mut world),
        Err(_) => false,
    }
}

/// The fewest first events of a run behind which it doesn't come to rest.
fn restless<F: FrontEnd>(alloc: Global, shape: Shape, events: &[Event]) -> Option<usize> {
    for count in 0..=events.len() {
        if !run_rests::<F>(alloc, shape, &events[..count]) {
            return Some(count);
        }
    }
    None
}

/// The same of a row.
fn restless_row(alloc: Global, front: Front, row: &Row) -> Option<usize> {
    let Ok(shape) = Shape::new(row.processes, 1) else {
        return Some(0);
    };
    match front {
        Front::Linear => restless::<Linear>(alloc, shape, row.events),
        Front::LocalRead => restless::<LocalRead>(alloc, shape, row.events),
        Front::LocalWrite => restless::<LocalWrite>(alloc, shape, row.events),
    }
}

/// Demands that the runs of these rows come to rest behind each event.
fn demand_rests(rt: &(impl Abort + AllocGlobal), front: Front, rows: &[Row]) {
    for row in rows {
        demand_none(rt, &row.name, &restless_row(rt.alloc(), front, row));
    }
}

#[test]
fn runs_worked_by_hand_settle_behind_each_event(rt: HostRuntime) {
    for front in [Front::Linear, Front::LocalRead, Front::LocalWrite] {
        for rows in runs_of(front) {
            demand_rests(&rt, front, rows);
        }
    }
}

/// Has the first processes write. Tells whether all events are accepted.
fn write_all(world: &mut World<Linear, Global, PackedWires<Global>>, writers: u8) -> bool {
    for process in 0..writers {
        if world.step(&call!(process, WRITE_FIVE)).is_err() {
            return false;
        }
    }
    true
}

/// Whether a world of the shape in which the first processes write comes to rest.
fn rests_behind_writes(alloc: Global, shape: Shape, writers: u8) -> bool {
    match World::<Linear, Global, PackedWires<Global>>::new(alloc, shape) {
        Ok(mut world) => write_all(&mut world, writers) && comes_to_rest(&mut world),
        Err(_) => false,
    }
}

#[test]
fn large_shapes_settle(rt: HostRuntime) {
    for (processes, writers) in [(16, 16), (64, 1)] {
        let right = rests_behind_writes(rt.alloc(), shape_of(&rt, processes), writers);
        demand(&rt, &processes, right);
    }
}

/// Whether a world of two accepts so many ticks, then a write, and settles so. It is full then.
fn fills(world: &mut World<Linear>, ticks: u32, settled: Result<u32, SettleFault>) -> bool {
    for _tick in 0..ticks {
        if world.step(&tick!(1)).is_err() {
            return false;
        }
    }
    world.step(&WRITE).is_ok()
        && settle(world) == settled
        && are_still(world) == settled.is_ok()
        && world.events() == 1_048_576
        && world.step(&tick!(0)) == Err(WorldFault::TooManyEvents)
}

/// The same of a new world.
fn new_fills(alloc: Global, ticks: u32, settled: Result<u32, SettleFault>) -> bool {
    let Ok(shape) = Shape::new(2, 1) else {
        return false;
    };
    match World::new(alloc, shape) {
        Ok(mut world) => fills(&mut world, ticks, settled),
        Err(_) => false,
    }
}

#[test]
fn six_more_events_are_left(rt: HostRuntime) {
    assert!(rt; new_fills(rt.alloc(), 1_048_576 - 7, Ok(6)));
}

#[test]
fn one_event_is_missing(rt: HostRuntime) {
    assert!(rt; new_fills(rt.alloc(), 1_048_576 - 6, Err(SettleFault::TooManyEvents)));
}

/// A linear run of a write, brought to rest.
#[derive(Clone, Copy)]
struct Rests {
    shape: Shape,
}

/// The events of a world at rest. None where memory is refused, and the world has stopped.
fn rested<A: Allocator + Copy>(
    ample: Global,
    world: &mut World<Linear, A>,
) -> Result<Option<String>, Fail> {
    match settle(world) {
        Ok(count) => shown(ample, &(count, world.accepted())),
        Err(fault) => {
            let refused = fault == SettleFault::OutOfMemory;
            unless_memory(fault, refused && settle(world) == Err(SettleFault::Failed))
        }
    }
}

impl Trial for Rests {
    fn answer<A: Allocator + Copy>(&self, alloc: A, ample: Global) -> Result<Option<String>, Fail> {
        match World::<Linear, A>::run(alloc, self.shape, &[WRITE]) {
            Ok(mut world) => rested(ample, &mut world),
            Err(RunFault { at: _, fault }) => {
                unless_memory(fault, fault == WorldFault::OutOfMemory)
            }
        }
    }
}

#[test]
fn each_growth_of_a_rest_is_refused(rt: HostRuntime) -> Result<(), Fail> {
    for processes in 2..=3 {
        let shape = shape_of(&rt, processes);
        demand_refusals(&rt, &Rests { shape }, 4)?;
    }
    Ok(())
}
