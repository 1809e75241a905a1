//! Each growth of what is read and played refused in turn: the answer is out of memory, or the one with ample memory.
use crate::answers::{shown, unless_memory};
use crate::demands::demand_refusals;
use crate::plays::{LOSSY, small_with};
use reg_front::LocalWrite;
use reg_heap::Trial;
use reg_inputs::read_table;
use reg_workload::{
    Play, Schedule, ScheduleFault, SeedWords, Workload, WorkloadFault, parse_schedule, play_fair,
    play_seeded,
};
use std::alloc::{AllocError, Allocator, Global};
use std::test::Fail;

/// A schedule that is read, or a workload of a document that a player plays.
#[derive(Clone, Copy)]
enum Read {
    Schedule,
    Fair,
    Seeded,
}

const SCHEDULE: &str =
    "# x\nprocesses 2\nregisters x y\nfront local-write\ncall 0 write y 5\ntake 0 1 0\ntick 1\n";

/// What a schedule says. None where memory is refused.
fn schedule<A: Allocator + Copy>(alloc: A, ample: Global) -> Result<Option<String>, Fail> {
    match parse_schedule(alloc, SCHEDULE) {
        Ok(plan) => shown(ample, &(plan.names.number("y"), plan.events.as_slice())),
        Err(fault) => unless_memory(fault, fault == ScheduleFault::OutOfMemory),
    }
}

fn play_told<A: Allocator + Copy>(
    ample: Global,
    play: &Play<LocalWrite, A>,
) -> Result<Option<String>, Fail> {
    let world = &play.world;
    let entries = world.history().entries();
    shown(
        ample,
        &(entries, world.order(), world.reads(), play.finished),
    )
}

/// The fair play of the small workload, or a seeded one with loss.
fn play<A: Allocator + Copy>(
    alloc: A,
    work: &Workload<A>,
    fair: bool,
) -> Result<Play<LocalWrite, A>, AllocError> {
    if fair {
        return play_fair::<LocalWrite, A>(alloc, work);
    }
    play_seeded::<LocalWrite, _, A>(alloc, work, SeedWords::new(0))
}

/// What a player makes of a workload. None where memory is refused for it.
fn work_told<A: Allocator + Copy>(
    alloc: A,
    ample: Global,
    work: &Workload<A>,
    fair: bool,
) -> Result<Option<String>, Fail> {
    match play(alloc, work, fair) {
        Ok(play) => play_told(ample, &play),
        Err(_) => Ok(None),
    }
}

fn played<A: Allocator + Copy>(
    alloc: A,
    ample: Global,
    fair: bool,
) -> Result<Option<String>, Fail> {
    let document = small_with(ample, LOSSY)?;
    let table = read_table(ample, document.as_str())?;
    match Workload::from_table(alloc, &table) {
        Ok(work) => work_told(alloc, ample, &work, fair),
        Err(fault) => unless_memory(fault, fault == WorkloadFault::OutOfMemory),
    }
}

impl Trial for Read {
    fn answer<A: Allocator + Copy>(&self, alloc: A, ample: Global) -> Result<Option<String>, Fail> {
        match self {
            Read::Schedule => schedule(alloc, ample),
            Read::Fair => played(alloc, ample, true),
            Read::Seeded => played(alloc, ample, false),
        }
    }
}

#[test]
fn each_growth_of_what_is_read_and_played_is_refused(rt: HostRuntime) -> Result<(), Fail> {
    for (read, least) in [(Read::Schedule, 2), (Read::Fair, 10), (Read::Seeded, 10)] {
        demand_refusals(&rt, &read, least)?;
    }
    Ok(())
}
