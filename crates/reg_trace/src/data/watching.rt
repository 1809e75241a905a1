//! A run that is watched with the states of its processes: each of its events is made once.
ghost use Rattle.std.specs.Prelude.{◌≡◌, ◌≢◌, ◌++◌, ◌∷◌, [], Some, false, take, IfErr, IfOk, MatchResult, OnOk};
ghost use Rattle.reg_world.specs.Worlds.{Accepts, RunRefuses, after_events, refusal, run_in};
ghost use Rattle.reg_trace.specs.Moments.{moment_of, moments_of};
ghost use Rattle.reg_trace.specs.Looks.{look_behind, looks_of};

use crate::data::looks::{Look, look_in};
use crate::moments::Moment;
use crate::watching::watch;
use reg_base::Shape;
use reg_front::FrontEnd;
use reg_world::{Event, RunFault, World, WorldFault};
use std::alloc::Allocator;

/// A run that was watched with the states of its processes.
#[derive(Drop)]
pub(crate) struct WatchedStates<F: FrontEnd, A: Allocator + Copy> {
    /// The world after the last event.
    pub world: World<F, A>,
    /// What each event did.
    pub moments: Vec<Moment<A>, A>,
    /// The state of each event's process after it.
    pub looks: Vec<Look<A>, A>,
}

impl<F: FrontEnd, A: Allocator + Copy> WatchedStates<F, A> {
    /// Makes an event, and keeps what it did and the state of its process after it.
    fn make(&mut self, alloc: A, event: &Event) -> Result<(), WorldFault>
        requires { self.old.world.failed ≡ false }
        ensures made { OnOk result (Accepts F.start self.old.world event.now self.new.world) }
        ensures told { OnOk result
            (self.new.moments.items ≡ self.old.moments.items ++ moment_of F.start self.old.world event.now ∷ []) }
        ensures state { OnOk result
            (self.new.looks.items ≡ self.old.looks.items ++ look_behind F.start self.old.world event.now ∷ []) }
        ensures refused { IfErr result (λ f. f ≢ WorldFault.OutOfMemory
            → refusal F.start self.old.world event.now ≡ Some f) }
    {
        let moment = watch(alloc, &mut self.world, event)?;
        let look = look_in(alloc, &self.world, moment.process).map_err(
            |_| WorldFault::OutOfMemory,
        )?;
        if self.moments.push(moment).is_err() || self.looks.push(look).is_err() {
            return Err(WorldFault::OutOfMemory);
        }
        Ok(())
    }
}

/// Makes these events, one after another, in a new world, and tells what each did and the state of its process after
/// it.
pub(crate) fn watch_states<F: FrontEnd, A: Allocator + Copy>(
    alloc: A,
    shape: Shape,
    events: &[Event],
) -> Result<WatchedStates<F, A>, RunFault>
    ensures world { IfOk result (λ w. w.world ≡ after_events F.start shape events.now) }
    ensures told { IfOk result (λ w. w.moments.items ≡ moments_of F.start shape events.now) }
    ensures states { IfOk result (λ w. w.looks.items ≡ looks_of F.start shape events.now) }
    ensures refused { IfErr result (λ f. f.fault ≢ WorldFault.OutOfMemory
        → RunRefuses F.start shape events.now f.at f.fault) }
    ensures accepted { MatchResult result
        (λ _. (run_in F.start (after_events F.start shape events.now)).accepted ≡ events.now)
        (λ f. f.fault ≢ WorldFault.OutOfMemory
        → (run_in F.start (after_events F.start shape (take f.at events.now))).accepted ≡ take f.at events.now) }
{
    let Ok(world) = World::new(alloc, shape) else {
        return Err(RunFault {
            at: 0,
            fault: WorldFault::OutOfMemory,
        });
    };
    let mut watched = WatchedStates {
        world,
        moments: Vec::new(alloc),
        looks: Vec::new(alloc),
    };
    for (at, event) in events.iter().enumerate() {
        if let Err(fault) = watched.make(alloc, event) {
            return Err(RunFault { at, fault });
        }
    }
    Ok(watched)
}
