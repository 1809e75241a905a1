//! A run of the front end of a user's own.
use crate::demands::shape_of;
use crate::macros::{answered, call, called, id, take};
use crate::mixed::Mixed;
use crate::values::{READ, WRITE_FIVE};
use crate::worlds::has_witness;
use reg_base::{Answer, OpId, Shape};
use reg_history::Entry;
use reg_process::Reply;
use reg_world::{Event, World};
use std::alloc::Global;

const EVENTS: &[Event] = &[call!(0, WRITE_FIVE), call!(0, READ), take!(0, 1, 0)];

const LAST: Event = take!(1, 0, 1);

/// The history after the last event.
const HISTORY: &[Entry] = &[
    called!(0, 0, 0, WRITE_FIVE),
    answered!(0, 0, 0, Answer::Done),
    called!(1, 0, 1, READ),
    answered!(3, 0, 1, Answer::Value(5)),
];

/// Whether process 0 has delivered this number of casts.
fn has_delivered(world: &World<Mixed>, count: u64) -> bool {
    match world.process(0) {
        Some(process) => process.delivered_count() == count,
        None => false,
    }
}

/// Whether the last event delivers the write and the read, and answers the read.
fn sees_its_write(world: &mut World<Mixed>) -> bool {
    let seen = Reply {
        answer: Answer::Value(5),
        place: 1,
    };
    has_delivered(world, 0)
        && world.step_reply(&LAST) == Ok(Some(seen))
        && has_delivered(world, 2)
        && world.history().entries() == HISTORY
        && has_witness(world, &[id!(0, 0), id!(0, 1)])
}

/// The same of a new world, behind the events.
fn new_sees_its_write(alloc: Global, shape: Shape) -> bool {
    match World::run(alloc, shape, EVENTS) {
        Ok(mut world) => sees_its_write(&mut world),
        Err(_) => false,
    }
}

#[test]
fn reads_of_the_mixed_front_end_see_own_writes(rt: HostRuntime) {
    assert!(rt; new_sees_its_write(rt.alloc(), shape_of(&rt, 2)));
}
