//! The limits of a run and of a process.
use crate::demands::{demand, shape_of};
use crate::macros::{call, tick};
use crate::values::{READ, WRITE_FIVE};
use reg_base::Shape;
use reg_front::{Linear, LocalRead};
use reg_process::{Process, ProcessFault};
use reg_world::{Event, World, WorldFault};
use std::alloc::Global;

/// An event, how often a world of one process accepts it, why not once more, and how many points the world has then.
const LIMITS: [(Event, u32, WorldFault, usize); 2] = [
    (
        call!(0, WRITE_FIVE),
        65_535,
        WorldFault::TooManyOperations,
        65_535,
    ),
    (tick!(0), 1_048_576, WorldFault::TooManyEvents, 0),
];

/// Whether a world accepts the event `count` times, and then refuses it with this fault.
fn accepts(world: &mut World<Linear>, event: &Event, count: u32, fault: WorldFault) -> bool {
    for _ in 0..count {
        if world.step(event).is_err() {
            return false;
        }
    }
    world.step(event) == Err(fault) && world.events() == count
}

/// Whether a world has this number of points.
fn has_points(world: &World<Linear>, count: usize) -> bool {
    match world.points() {
        Ok(points) => points.len() == count,
        Err(_) => false,
    }
}

/// Whether a new world has the limit of this row.
fn is_limited(alloc: Global, shape: Shape, row: &(Event, u32, WorldFault, usize)) -> bool {
    let (event, count, fault, points) = row;
    match World::new(alloc, shape) {
        Ok(mut world) => {
            accepts(&mut world, event, *count, *fault) && has_points(&world, *points)
        }
        Err(_) => false,
    }
}

#[test]
fn a_run_has_so_many_operations_and_events(rt: HostRuntime) {
    let shape = shape_of(&rt, 1);
    for row in &LIMITS {
        demand(&rt, &row.2, is_limited(rt.alloc(), shape, row));
    }
}

/// Whether a process calls 65,535 reads, and no more, and goes on.
fn calls_enough(process: &mut Process<LocalRead>) -> bool {
    for _read in 0..65_535u32 {
        if process.call(READ).is_err() {
            return false;
        }
    }
    process.call(READ).err() == Some(ProcessFault::TooManyOperations) && process.tick().is_ok()
}

/// The same of the only process of a shape.
fn new_calls_enough(alloc: Global, shape: Shape) -> bool {
    match Process::new(alloc, shape, 0) {
        Ok(mut process) => calls_enough(&mut process),
        Err(_) => false,
    }
}

#[test]
fn operations_end(rt: HostRuntime) {
    assert!(rt; new_calls_enough(rt.alloc(), shape_of(&rt, 1)));
}
