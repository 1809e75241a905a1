//! What is told of a run.
ghost use Rattle.std.specs.Prelude.{◌≡◌, ◌≢◌, None, IfErr, IfOk, take};
ghost use Rattle.reg_world.specs.Fronts.{HasPoints};
ghost use Rattle.reg_world.specs.Keys.{IsWitness};
ghost use Rattle.reg_world.specs.World.{run_of};
ghost use Rattle.reg_world.specs.Worlds.{RunRefuses, after_events, run_in};
ghost use Rattle.reg_inputs.specs.Schedules.{Plan};
ghost use Rattle.reg_trace.specs.Figures.{arrows_of, bars_of};
ghost use Rattle.reg_trace.specs.Moments.{moments_of};
ghost use Rattle.reg_trace.specs.Data.{IsDataOf};
ghost use Rattle.reg_trace.specs.Looks.{looks_of};

use crate::data::contents::Data;
use crate::data::notes::Notes;
use crate::data::watching::{WatchedStates, watch_states};
use crate::figures::{Arrow, Bar, arrows, bars};
use crate::moments::Moment;
use reg_base::{Names, OpId};
use reg_front::{Front, FrontEnd};
use reg_inputs::Schedule;
use reg_world::{CopyRead, First, NamedFront, RunFault, World, WorldFault};
use std::alloc::{AllocError, Allocator};

/// What is told of a whole run, beside what each event did.
#[derive(Drop)]
struct Whole<A: Allocator + Copy> {
    arrows: Vec<Arrow, A>,
    bars: Vec<Bar, A>,
    order: Vec<First, A>,
    reads: Vec<CopyRead, A>,
    witness: Vec<OpId, A>,
}

/// What is told of the run of a world, in which each event did this.
fn whole_of<F: FrontEnd, A: Allocator + Copy>(
    alloc: A,
    world: &World<F, A>,
    moments: &[Moment<A>],
) -> Result<Whole<A>, AllocError>
    ensures arrows { IfOk result (λ r. r.arrows.items ≡ arrows_of moments.now) }
    ensures bars { IfOk result (λ r. r.bars.items ≡ bars_of (run_in F.start world.now).history) }
    ensures order { IfOk result (λ r. r.order.items ≡ (run_in F.start world.now).order) }
    ensures reads { IfOk result (λ r. r.reads.items ≡ (run_in F.start world.now).reads) }
    ensures witness { IfOk result
        (λ r. IsWitness (run_of world.now.registers (run_in F.start world.now)) r.witness.items) }
{
    Ok(Whole {
        arrows: arrows(alloc, moments)?,
        bars: bars(alloc, world.history().entries())?,
        order: world.order().to_vec(alloc)?,
        reads: world.reads().to_vec(alloc)?,
        witness: world.witness()?,
    })
}

/// All that is told of a run that was watched, under these names, with these notes and no points; and its world.
fn data_of<F: FrontEnd, A: Allocator + Copy>(
    alloc: A,
    front: Front,
    names: Names<A>,
    notes: Notes<A>,
    watched: WatchedStates<F, A>,
) -> Result<(Data<A>, World<F, A>), AllocError>
    requires accepted { (run_in F.start watched.world).accepted ≡ watched.world.accepted }
    requires told { watched.moments.items
        ≡ moments_of F.start (record { processes = watched.world.processes; registers = watched.world.registers })
        watched.world.accepted }
    requires states { watched.looks.items
        ≡ looks_of F.start (record { processes = watched.world.processes; registers = watched.world.registers })
        watched.world.accepted }
    ensures data { let plan : Plan = record {
      shape = record {
        processes = watched.world.processes;
        registers = watched.world.registers;
      };
      names = names;
      front = front;
      events = watched.world.accepted;
    } in
        IfOk result (λ r. IsDataOf F.start plan notes None r.0) }
    ensures world { IfOk result (λ r. r.1 ≡ watched.world) }
{
    let WatchedStates {
        world,
        moments,
        looks,
    } = watched;
    let whole = whole_of(alloc, &world, moments.as_slice())?;
    let data = Data {
        notes,
        processes: world.shape().processes(),
        names,
        front,
        moments,
        looks,
        arrows: whole.arrows,
        bars: whole.bars,
        order: whole.order,
        reads: whole.reads,
        witness: whole.witness,
        points: None,
    };
    Ok((data, world))
}

/// Runs a schedule: all that is told of the run, with these notes and no points; and its world.
fn tell_run<F: FrontEnd, A: Allocator + Copy>(
    alloc: A,
    schedule: Schedule<A>,
    notes: Notes<A>,
) -> Result<(Data<A>, World<F, A>), RunFault>
    ensures data { IfOk result (λ r. IsDataOf F.start schedule notes None r.0) }
    ensures world { IfOk result (λ r. r.1 ≡ after_events F.start schedule.shape schedule.events) }
    ensures refused { IfErr result (λ f. f.fault ≢ WorldFault.OutOfMemory
        → RunRefuses F.start schedule.shape schedule.events f.at f.fault) }
    ensures before { IfErr result (λ f. f.fault ≢ WorldFault.OutOfMemory
        → (run_in F.start (after_events F.start schedule.shape (take f.at schedule.events))).accepted
        ≡ take f.at schedule.events) }
{
    let Schedule {
        shape,
        names,
        front,
        events,
    } = schedule;
    let watched = watch_states::<F, A>(alloc, shape, events.as_slice())?;
    match data_of(alloc, front, names, notes, watched) {
        Ok(told) => Ok(told),
        Err(_) => Err(RunFault {
            at: events.len(),
            fault: WorldFault::OutOfMemory,
        }),
    }
}

/// Runs a schedule under a front end that need not be the one that it names: all that is told of the run, with these
/// notes and no points. Each event is made once.
///
/// # Errors
///
/// The first event that is refused, and why. Of `OutOfMemory` no clause says where memory was refused.
pub fn tell_data_under<F: FrontEnd, A: Allocator + Copy>(
    alloc: A,
    schedule: Schedule<A>,
    notes: Notes<A>,
) -> Result<Data<A>, RunFault>
    ensures data { IfOk result (λ d. IsDataOf F.start schedule notes None d) }
    ensures refused { IfErr result (λ f. f.fault ≢ WorldFault.OutOfMemory
        → RunRefuses F.start schedule.shape schedule.events f.at f.fault) }
    ensures before { IfErr result (λ f. f.fault ≢ WorldFault.OutOfMemory
        → (run_in F.start (after_events F.start schedule.shape (take f.at schedule.events))).accepted
        ≡ take f.at schedule.events) }
{
    let (data, _world) = tell_run::<F, A>(alloc, schedule, notes)?;
    Ok(data)
}

/// Runs a schedule: all that is told of the run, with these notes. Each event is made once.
///
/// # Errors
///
/// The first event that is refused, and why. Of `OutOfMemory` no clause says where memory was refused.
pub fn tell_data<F: NamedFront, A: Allocator + Copy>(
    alloc: A,
    schedule: Schedule<A>,
    notes: Notes<A>,
) -> Result<Data<A>, RunFault>
    ensures data { IfOk result (λ d. IsDataOf F.start schedule notes d.points d) }
    ensures points { IfOk result
        (λ d. HasPoints F.front (after_events F.start schedule.shape schedule.events) d.points) }
    ensures refused { IfErr result (λ f. f.fault ≢ WorldFault.OutOfMemory
        → RunRefuses F.start schedule.shape schedule.events f.at f.fault) }
    ensures before { IfErr result (λ f. f.fault ≢ WorldFault.OutOfMemory
        → (run_in F.start (after_events F.start schedule.shape (take f.at schedule.events))).accepted
        ≡ take f.at schedule.events) }
{
    let (mut data, world) = tell_run::<F, A>(alloc, schedule, notes)?;
    let Ok(points) = F::points_of(&world) else {
        return Err(RunFault {
            at: data.moments.len(),
            fault: WorldFault::OutOfMemory,
        });
    };
    data.points = points;
    Ok(data)
}
