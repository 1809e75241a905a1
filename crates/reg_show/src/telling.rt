//! What is told of a schedule's run.
ghost use Rattle.std.specs.Prelude.{IfOk, IfErr, option_map};
ghost use Rattle.reg_commands.specs.Replays.{start_of, BlamesRun, PointsOf};
ghost use Rattle.reg_show.specs.ToldRuns.{IsTold};

use reg_commands::Fault;
use reg_front::by_front;
use reg_trace::{TracedRun, Watched, watch_run};
use reg_workload::Schedule;
use reg_world::NamedFront;
use std::alloc::Allocator;

/// Runs a schedule, and tells what happened.
fn tell_run<F: NamedFront, A: Allocator + Copy>(
    alloc: A,
    schedule: Schedule<A>,
) -> Result<TracedRun<A>, Fault>
    ensures told { IfOk result (λ t. IsTold F.start schedule t.names t.moments.items t.history.entries) }
    ensures points { IfOk result (λ t. PointsOf F.front schedule (option_map (λ v. v.items) t.points)) }
    ensures why { IfErr result (λ f. BlamesRun F.start schedule f) }
{
    let Schedule {
        shape,
        names,
        front,
        events,
    } = schedule;
    let Watched { world, moments } = watch_run::<F, A>(alloc, shape, events.as_slice())?;
    let points = F::points_of(&world)?;
    Ok(TracedRun {
        front,
        names,
        moments,
        history: world.into_history(),
        points,
    })
}

/// Runs a schedule under its front end, and tells what happened.
pub fn tell_schedule<A: Allocator + Copy>(
    alloc: A,
    schedule: Schedule<A>,
) -> Result<TracedRun<A>, Fault>
    ensures told { IfOk result
        (λ t. IsTold (start_of schedule.front) schedule t.names t.moments.items t.history.entries) }
    ensures points { IfOk result (λ t. PointsOf schedule.front schedule (option_map (λ v. v.items) t.points)) }
    ensures why { IfErr result (λ f. BlamesRun (start_of schedule.front) schedule f) }
{
    by_front!(schedule.front, tell_run::<_, A>(alloc, schedule))
}
