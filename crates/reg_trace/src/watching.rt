//! A run that is watched: each of its events is made once, and what it did is told.
ghost use Rattle.std.specs.Prelude.{◌≡◌, ◌≢◌, ◌≤◌, Some, false, take, IfErr, IfOk, MatchResult, OnOk};
ghost use Rattle.reg_world.specs.Histories.{process_of};
ghost use Rattle.reg_world.specs.Worlds.{Accepts, RunRefuses, after_events, refusal, run_in};
ghost use Rattle.reg_trace.specs.Moments.{moment_of, moments_of};

use crate::moments::{Moment, process_of_event, tell};
use reg_base::Shape;
use reg_front::FrontEnd;
use reg_world::{Event, RunFault, World, WorldFault};
use std::alloc::{Allocator, Global};

/// A run that was watched.
#[derive(Drop)]
pub struct Watched<F: FrontEnd, A: Allocator + Copy = Global> {
    /// The world after the last event.
    pub world: World<F, A>,
    /// What each event did.
    pub moments: Vec<Moment<A>, A>,
}

/// Why an event of a process that isn't there is refused.
fn refused_by<F: FrontEnd, A: Allocator + Copy>(
    world: &mut World<F, A>,
    event: &Event,
) -> WorldFault
    requires going { world.old.failed ≡ false }
    requires absent { world.old.processes ≤ process_of event.now }
    ensures { result ≢ WorldFault.OutOfMemory → refusal F.start world.old event.now ≡ Some result }
{
    match world.step(event) {
        Ok(()) => unreachable!(),
        Err(fault) => fault,
    }
}

/// Makes an event, and tells what it did.
///
/// # Errors
///
/// The first fault of `WorldFault` that applies; or `OutOfMemory`, and then nothing is said of the world.
pub fn watch<F: FrontEnd, A: Allocator + Copy>(
    alloc: A,
    world: &mut World<F, A>,
    event: &Event,
) -> Result<Moment<A>, WorldFault>
    requires { world.old.failed ≡ false }
    ensures made { OnOk result (Accepts F.start world.old event.now world.new) }
    ensures told { IfOk result (λ m. m ≡ moment_of F.start world.old event.now) }
    ensures refused { IfErr result (λ f. f ≢ WorldFault.OutOfMemory → refusal F.start world.old event.now ≡ Some f) }
{
    if u32::from(process_of_event(event)) < world.shape().processes() {
        tell(alloc, world, event)
    } else {
        Err(refused_by(world, event))
    }
}

/// Makes these events, one after another, in a new world, and tells what each did.
///
/// # Errors
///
/// The first event that is refused, and why. Of `OutOfMemory` no clause says where memory was refused.
pub fn watch_run<F: FrontEnd, A: Allocator + Copy>(
    alloc: A,
    shape: Shape,
    events: &[Event],
) -> Result<Watched<F, A>, RunFault>
    ensures world { IfOk result (λ w. w.world ≡ after_events F.start shape events.now) }
    ensures told { IfOk result (λ w. w.moments.items ≡ moments_of F.start shape events.now) }
    ensures refused { IfErr result (λ f. f.fault ≢ WorldFault.OutOfMemory
        → RunRefuses F.start shape events.now f.at f.fault) }
    ensures accepted { MatchResult result
        (λ _. (run_in F.start (after_events F.start shape events.now)).accepted ≡ events.now)
        (λ f. f.fault ≢ WorldFault.OutOfMemory
        → (run_in F.start (after_events F.start shape (take f.at events.now))).accepted ≡ take f.at events.now) }
{
    let fault = WorldFault::OutOfMemory;
    let Ok(mut world) = World::new(alloc, shape) else {
        return Err(RunFault { at: 0, fault });
    };
    let mut moments = Vec::new(alloc);
    for (at, event) in events.iter().enumerate() {
        let moment = match watch(alloc, &mut world, event) {
            Ok(moment) => moment,
            Err(fault) => return Err(RunFault { at, fault }),
        };
        if moments.push(moment).is_err() {
            return Err(RunFault { at, fault });
        }
    }
    Ok(Watched { world, moments })
}
