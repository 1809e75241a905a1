//! Each growth of runs refused in turn: the answer is out of memory, or the one with ample memory.
use crate::answers::{shown, unless_memory};
use crate::world_rows::Row;
use crate::worlds::runs_of;
use reg_base::Shape;
use reg_front::{Front, FrontEnd, Linear, LocalRead, LocalWrite};
use reg_heap::{Trial, refusals};
use reg_history::{History, check_serial};
use reg_world::{Event, First, RunFault, World, WorldFault};
use std::alloc::{Allocator, Global};
use std::test::Fail;

/// A run step by step, or of all events at once, and then its witness.
#[derive(Clone, Copy)]
struct Run {
    front: Front,
    shape: Shape,
    events: &'static [Event],
    at_once: bool,
}

/// Whether its witness is a serial order of this history.
fn has_witness_of<F: FrontEnd, A: Allocator + Copy>(
    ample: Global,
    world: &World<F, A>,
    history: &History,
) -> bool {
    match world.witness() {
        Ok(order) => check_serial(ample, history, order.as_slice()) == Ok(()),
        Err(_) => false,
    }
}

/// Whether the world has stopped, and tells what another one does, which accepted this number of events.
fn stops_as<F: FrontEnd, A: Allocator + Copy>(
    ample: Global,
    world: &mut World<F, A>,
    events: u32,
    history: &History,
    order: &[First],
) -> bool {
    world.step(&Event::Tick { process: 0 }) == Err(WorldFault::Failed)
        && world.events() == events
        && world.history().entries() == history.entries()
        && world.order() == order
        && has_witness_of(ample, world, history)
}

/// Whether the world has stopped, and tells what it told after the first events.
fn stops_behind<F: FrontEnd, A: Allocator + Copy>(
    ample: Global,
    world: &mut World<F, A>,
    first: &[Event],
) -> bool {
    match World::<F>::run(ample, world.shape(), first) {
        Ok(other) => {
            let (history, order) = (other.history(), other.order());
            stops_as(ample, world, other.events(), history, order)
        }
        Err(_) => false,
    }
}

/// What a world tells, and its witness. None where memory is refused.
fn told_with_witness<F: FrontEnd, A: Allocator + Copy>(
    ample: Global,
    world: &World<F, A>,
) -> Result<Option<String>, Fail> {
    match world.witness() {
        Ok(ids) => {
            let entries = world.history().entries();
            let told = (entries, world.order(), world.reads(), ids.as_slice());
            shown(ample, &told)
        }
        Err(_) => Ok(None),
    }
}

/// What the world tells after the events. None where memory is refused, and it has stopped as it should.
fn follow<F: FrontEnd, A: Allocator + Copy>(
    ample: Global,
    world: &mut World<F, A>,
    events: &[Event],
) -> Result<Option<String>, Fail> {
    for (at, event) in events.iter().enumerate() {
        if let Err(fault) = world.step(event) {
            let first = events.get(..at).unwrap_or(&[]);
            let stops = fault == WorldFault::OutOfMemory && stops_behind(ample, world, first);
            return unless_memory(fault, stops);
        }
    }
    told_with_witness(ample, world)
}

fn step_by_step<F: FrontEnd, A: Allocator + Copy>(
    alloc: A,
    ample: Global,
    run: &Run,
) -> Result<Option<String>, Fail> {
    match World::<F, A>::new(alloc, run.shape) {
        Ok(mut world) => follow(ample, &mut world, run.events),
        Err(_) => Ok(None),
    }
}

fn all_at_once<F: FrontEnd, A: Allocator + Copy>(
    alloc: A,
    ample: Global,
    run: &Run,
) -> Result<Option<String>, Fail> {
    match World::<F, A>::run(alloc, run.shape, run.events) {
        Ok(world) => told_with_witness(ample, &world),
        Err(RunFault { at: _, fault }) => unless_memory(fault, fault == WorldFault::OutOfMemory),
    }
}

fn told<F: FrontEnd, A: Allocator + Copy>(
    alloc: A,
    ample: Global,
    run: &Run,
) -> Result<Option<String>, Fail> {
    if run.at_once {
        return all_at_once::<F, A>(alloc, ample, run);
    }
    step_by_step::<F, A>(alloc, ample, run)
}

impl Trial for Run {
    fn answer<A: Allocator + Copy>(&self, alloc: A, ample: Global) -> Result<Option<String>, Fail> {
        match self.front {
            Front::Linear => told::<Linear, A>(alloc, ample, self),
            Front::LocalRead => told::<LocalRead, A>(alloc, ample, self),
            Front::LocalWrite => told::<LocalWrite, A>(alloc, ample, self),
        }
    }
}

/// A linear run of all events at once, and then its points.
#[derive(Clone, Copy)]
struct Pointed {
    shape: Shape,
    events: &'static [Event],
}

/// The points of a world. None where memory is refused.
fn told_points<A: Allocator + Copy>(
    ample: Global,
    world: &World<Linear, A>,
) -> Result<Option<String>, Fail> {
    match world.points() {
        Ok(points) => shown(ample, &points.as_slice()),
        Err(_) => Ok(None),
    }
}

impl Trial for Pointed {
    fn answer<A: Allocator + Copy>(&self, alloc: A, ample: Global) -> Result<Option<String>, Fail> {
        match World::<Linear, A>::run(alloc, self.shape, self.events) {
            Ok(world) => told_points(ample, &world),
            Err(RunFault { at: _, fault }) => {
                unless_memory(fault, fault == WorldFault::OutOfMemory)
            }
        }
    }
}

/// Refuses each growth of a run, step by step and at once, and of its points where it is linear.
fn demand(alloc: Global, front: Front, row: &Row) -> Result<(), Fail> {
    let (shape, events) = (Shape::new(row.processes, 1)?, row.events);
    let mut run = Run {
        front,
        shape,
        events,
        at_once: false,
    };
    refusals(&run, alloc)?;
    run.at_once = true;
    refusals(&run, alloc)?;
    if front == Front::Linear {
        refusals(&Pointed { shape, events }, alloc)?;
    }
    Ok(())
}

fn demand_rows(alloc: Global, front: Front, rows: &[Row]) -> Result<(), Fail> {
    for row in rows {
        demand(alloc, front, row)?;
    }
    Ok(())
}

#[test]
fn each_growth_of_a_run_is_refused(rt: HostRuntime) -> Result<(), Fail> {
    for front in [Front::Linear, Front::LocalRead, Front::LocalWrite] {
        for rows in runs_of(front) {
            demand_rows(rt.alloc(), front, rows)?;
        }
    }
    Ok(())
}
