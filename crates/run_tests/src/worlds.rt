//! Runs as worked by hand: what a world tells after its events.
use crate::compared_rows::{compared_in_order, compared_lost};
use crate::demands::{demand, demand_none, shape_of};
use crate::local_rows::{local_read, local_write_compares, local_write_lost, local_write_waits};
use crate::macros::{call, take, tick};
use crate::values::WRITE_FIVE;
use crate::world_rows::{Row, linear_answers, linear_frames, linear_orders};
use reg_base::{Answer, OpId, Shape};
use reg_frames::Frame;
use reg_front::{Front, FrontEnd, Linear, LocalRead, LocalWrite};
use reg_history::{Entry, Point};
use reg_process::Process;
use reg_world::{Event, RunFault, UnlistedWires, World, WorldFault};
use std::alloc::{Allocator, Global};
use std::process::Abort;

fn is_copy<F: FrontEnd>(process: &Process<F>, copy: &(u64, u64, bool, u64)) -> bool {
    let (clock, pending, busy, value) = *copy;
    process.clock() == clock
        && process.pending() == pending
        && process.busy() == busy
        && process.registers().get(0) == Some(value)
}

/// Whether these are the copies of the processes.
fn has_copies<F: FrontEnd>(world: &World<F>, copies: &[(u64, u64, bool, u64)]) -> bool {
    let mut number = 0u8;
    for copy in copies {
        match world.process(number) {
            Some(process) if is_copy(process, copy) => {}
            _ => return false,
        }
        number = number.wrapping_add(1);
    }
    world.process(number).is_none()
}

/// Whether these are frames of the world.
fn has_wires<F: FrontEnd>(world: &World<F>, wires: &[(u8, u8, &[Frame])]) -> bool {
    for (from, to, frames) in wires {
        if world.wire(*from, *to) != Some(*frames) {
            return false;
        }
    }
    true
}

/// Whether the witness of the world is this one.
pub(crate) fn has_witness<F: FrontEnd, A: Allocator + Copy>(
    world: &World<F, A>,
    ids: &[OpId],
) -> bool {
    match world.witness() {
        Ok(order) => order.as_slice() == ids,
        Err(_) => false,
    }
}

/// Whether the world tells its history with these as its serial order.
fn has_order<F: FrontEnd>(world: &World<F>, ids: &[OpId]) -> bool {
    match world.serial_order() {
        Ok((history, order)) => {
            history.entries() == world.history().entries() && order.as_slice() == ids
        }
        Err(_) => false,
    }
}

/// The part of its row that the world doesn't tell, of its events and what they made.
fn differing_list<F: FrontEnd>(world: &World<F>, row: &Row) -> Option<&'static str> {
    if world.shape().processes() != row.processes || world.accepted() != row.events {
        Some("events")
    } else if world.history().entries() != row.history {
        Some("history")
    } else if world.order() != row.casts {
        Some("casts")
    } else if world.reads() != row.reads {
        Some("reads")
    } else {
        None
    }
}

/// The part of its row that the world doesn't tell, the points aside.
fn differing<F: FrontEnd>(world: &World<F>, row: &Row) -> Option<&'static str> {
    let list = differing_list(world, row);
    if list.is_some() {
        list
    } else if !has_witness(world, row.order) || !has_order(world, row.order) {
        Some("order")
    } else if !has_copies(world, row.copies) {
        Some("copies")
    } else if !has_wires(world, row.wires) {
        Some("wires")
    } else {
        None
    }
}

/// The part of its row that the world doesn't tell, also behind each event that it refuses.
fn differing_behind<F: FrontEnd>(world: &mut World<F>, row: &Row) -> Option<&'static str> {
    for (event, fault) in row.refused {
        if world.step(event) != Err(*fault) {
            return Some("refusals");
        }
        if let Some(part) = differing(world, row) {
            return Some(part);
        }
    }
    differing(world, row)
}

/// Whether the world tells its history with these as its linearization.
fn has_linearization(world: &World<Linear>, ids: &[Point]) -> bool {
    match world.linearization() {
        Ok((history, points)) => {
            history.entries() == world.history().entries() && points.as_slice() == ids
        }
        Err(_) => false,
    }
}

/// Whether these are the points of the world.
fn has_points(world: &World<Linear>, ids: &[Point]) -> bool {
    match world.points() {
        Ok(points) => points.as_slice() == ids && has_linearization(world, ids),
        Err(_) => false,
    }
}

fn differing_run<F: FrontEnd>(alloc: Global, shape: Shape, row: &Row) -> Option<&'static str> {
    match World::<F>::run(alloc, shape, row.events) {
        Ok(mut world) => differing_behind(&mut world, row),
        Err(_) => Some("run"),
    }
}

fn differing_points(alloc: Global, shape: Shape, row: &Row) -> Option<&'static str> {
    match World::<Linear>::run(alloc, shape, row.events) {
        Ok(world) if has_points(&world, row.points) => None,
        _ => Some("points"),
    }
}

/// The part of a row that a world doesn't tell after its events.
fn differing_front(alloc: Global, front: Front, row: &Row) -> Option<&'static str> {
    let Ok(shape) = Shape::new(row.processes, 1) else {
        return Some("shape");
    };
    match front {
        Front::Linear => differing_run::<Linear>(alloc, shape, row).or(differing_points(
            alloc, shape, row,
        )),
        Front::LocalRead => differing_run::<LocalRead>(alloc, shape, row),
        Front::LocalWrite => differing_run::<LocalWrite>(alloc, shape, row),
    }
}

/// The runs of a front end alone.
fn own_runs_of(front: Front) -> [&'static [Row]; 3] {
    match front {
        Front::Linear => [linear_answers(), linear_orders(), linear_frames()],
        Front::LocalRead => [local_read(), &[], &[]],
        Front::LocalWrite => [
            local_write_waits(),
            local_write_compares(),
            local_write_lost(),
        ],
    }
}

/// The runs of a front end: its own, and those that every front end has.
pub(crate) fn runs_of(front: Front) -> [&'static [Row]; 5] {
    let own = own_runs_of(front);
    [own[0], own[1], own[2], compared_in_order(), compared_lost()]
}

/// Demands that worlds tell what the rows of a front end say.
fn demand_rows(rt: &(impl Abort + AllocGlobal), front: Front, rows: &[Row]) {
    for row in rows {
        demand_none(rt, &row.name, &differing_front(rt.alloc(), front, row));
    }
}

#[test]
fn linear_runs(rt: HostRuntime) {
    for rows in runs_of(Front::Linear) {
        demand_rows(&rt, Front::Linear, rows);
    }
}

#[test]
fn local_runs(rt: HostRuntime) {
    for front in [Front::LocalRead, Front::LocalWrite] {
        for rows in runs_of(front) {
            demand_rows(&rt, front, rows);
        }
    }
}

const CALL: Event = call!(0, WRITE_FIVE);

const TAKE: Event = take!(0, 1, 0);

const TICK: Event = tick!(1);

/// Whether the world accepted the call and the take, and goes on with a tick.
fn goes_on(world: &mut World<Linear>) -> bool {
    world.accepted() == [CALL, TAKE].as_slice()
        && world.step(&TICK) == Ok(())
        && world.accepted() == [CALL, TAKE, TICK].as_slice()
        && world.history().entries().len() == 1
}

/// A list of events, and the refusal of the run that keeps it.
const OWNED: &[(&[Event], Option<RunFault>)] = &[
    (&[CALL, TAKE], None),
    (
        &[CALL, CALL, TAKE],
        Some(RunFault {
            at: 1,
            fault: WorldFault::Busy,
        }),
    ),
];

/// Whether the run that keeps this list is refused so, or goes on behind its list.
fn runs_so(alloc: Global, shape: Shape, events: &[Event], fault: Option<RunFault>) -> bool {
    let Ok(list) = events.to_vec(alloc) else {
        return false;
    };
    match World::<Linear>::run_owned(alloc, shape, list) {
        Ok(mut world) => fault.is_none() && goes_on(&mut world),
        Err(refused) => fault == Some(refused),
    }
}

#[test]
fn a_run_goes_on_behind_its_list(rt: HostRuntime) {
    let shape = shape_of(&rt, 2);
    for (events, fault) in OWNED {
        demand(&rt, fault, runs_so(rt.alloc(), shape, events, *fault));
    }
}

/// A write that the other process acknowledges.
const ACKNOWLEDGED: [Event; 3] = [call!(0, WRITE_FIVE), take!(0, 1, 0), take!(1, 0, 1)];

#[test]
fn a_world_that_lists_no_events_makes_the_run(rt: HostRuntime) {
    let shape = shape_of(&rt, 2);
    let world = World::<Linear, Global, UnlistedWires>::run(rt.alloc(), shape, &ACKNOWLEDGED);
    let world = world.expect(&rt, "a run");
    let id = OpId {
        process: 0,
        number: 0,
    };
    let told = [
        Entry::Called {
            at: 0,
            id,
            op: WRITE_FIVE,
        },
        Entry::Answered {
            at: 2,
            id,
            answer: Answer::Done,
        },
    ];
    assert_eq!(rt; world.events(), 3);
    assert!(rt; world.history().entries() == told.as_slice());
}
