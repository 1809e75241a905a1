//! The command that runs a schedule and prints the report of the run.
ghost use Rattle.std.specs.Prelude.{◌≡◌, ◌≢◌, IfOk, IfErr, IsErrOf, string_bytes};
ghost use Rattle.std.specs.Io.KnownBytes.{Appends};
ghost use Rattle.reg_world.specs.Worlds.{after_events};
ghost use Rattle.reg_inputs.specs.Schedules.{Plan, IsPlan, Spells};
ghost use Rattle.reg_commands.specs.Answers.{AnswersInPart, Blames};
ghost use Rattle.reg_commands.specs.Replays.{start_of, Shows, PointsOf, IsReportOf, Replays, BlamesRun};

use crate::command::Command;
use crate::faults::Fault;
use crate::reporting::{report_run, write_out};
use reg_base::Names;
use reg_front::{Front, FrontEnd, by_front};
use reg_history::{ReadWhy, Report};
use reg_workload::{Schedule, ScheduleFault, parse_schedule};
use reg_world::{NamedFront, PackedWires, WireStore, World};
use std::alloc::Allocator;
use std::io::Write;

/// The schedule that a text spells.
///
/// # Errors
///
/// `Line` with the first line that is wrong, and `OutOfMemory`.
pub fn read_schedule<A: Allocator + Copy>(alloc: A, text: &str) -> Result<Schedule<A>, Fault>
    ensures read { IfOk result (λ s. Spells text.now s × IsPlan s) }
    ensures why { IfErr result (λ f. Blames Command.Replay f text.now) }
    ensures kind { IfErr result (λ f. (f ≢ Fault.Output) × (f ≢ Fault.Unread)) }
{
    match parse_schedule(alloc, text) {
        Ok(schedule) => Ok(schedule),
        Err(ScheduleFault::Line { line, why }) => Err(Fault::Line {
            line,
            why: ReadWhy::from(why),
        }),
        Err(ScheduleFault::OutOfMemory) => Err(Fault::OutOfMemory),
    }
}

/// The run of a schedule, with the names and the front end of its report.
pub struct Ran<F: FrontEnd, A: Allocator + Copy, W: WireStore<A>> {
    pub world: World<F, A, W>,
    pub names: Names<A>,
    pub front: Front,
}

/// Runs the events of a schedule.
///
/// # Errors
///
/// `Event` with the first event that is refused, and `OutOfMemory`.
pub fn run_events<F: FrontEnd, A: Allocator + Copy, W: WireStore<A>>(
    alloc: A,
    schedule: Schedule<A>,
) -> Result<Ran<F, A, W>, Fault>
    ensures ran { IfOk result (λ r. r.world ≡ after_events F.start schedule.shape schedule.events) }
    ensures names { IfOk result (λ r. r.names ≡ schedule.names) }
    ensures front { IfOk result (λ r. r.front ≡ schedule.front) }
    ensures why { IfErr result (λ f. BlamesRun F.start schedule f) }
{
    let Schedule {
        shape,
        names,
        front,
        events,
    } = schedule;
    let world = World::run_owned(alloc, shape, events)?;
    Ok(Ran {
        world,
        names,
        front,
    })
}

/// The report of a schedule's run.
fn report_of<F: NamedFront, A: Allocator + Copy>(
    alloc: A,
    schedule: Schedule<A>,
) -> Result<Report<A>, Fault>
    requires { IsPlan schedule }
    ensures shows { IfOk result (λ r. Shows F.start schedule r) }
    ensures points { IfOk result (λ r. PointsOf F.front schedule r.points) }
    ensures why { IfErr result (λ f. BlamesRun F.start schedule f) }
{
    let Ran {
        world,
        names,
        front,
    } = run_events::<F, A, PackedWires<A>>(alloc, schedule)?;
    report_run(alloc, front, names, world)
}

/// The report of a schedule's run, by its front end.
fn run_schedule<A: Allocator + Copy>(alloc: A, schedule: Schedule<A>) -> Result<Report<A>, Fault>
    requires { IsPlan schedule }
    ensures ok { IfOk result (λ r. IsReportOf schedule r) }
    ensures why { IfErr result (λ f. BlamesRun (start_of schedule.front) schedule f) }
{
    by_front!(schedule.front, report_of::<_, A>(alloc, schedule))
}

/// The report of the run of the schedule that a text spells.
fn replayed<A: Allocator + Copy>(alloc: A, text: String<A>) -> Result<Report<A>, Fault>
    ensures ok { IfOk result (λ r. (p : Plan) × IsPlan p × Spells (string_bytes text) p × IsReportOf p r) }
    ensures why { IfErr result (λ f. Blames Command.Replay f (string_bytes text)) }
    ensures kind { IfErr result (λ f. (f ≢ Fault.Output) × (f ≢ Fault.Unread)) }
{
    let schedule = read_schedule(alloc, text.as_str())?;
    // The run doesn't need the text, which takes nearly as much memory as its events.
    drop(text);
    run_schedule(alloc, schedule)
}

/// Reads a schedule, runs it, and writes the report of the run, once all its events are accepted.
///
/// # Errors
///
/// Those of `read_schedule` and of `run_events`; and `Output` where the writer failed, and then a first part went out.
pub fn replay<A: Allocator + Copy, W: Write>(
    alloc: A,
    text: String<A>,
    writer: &mut W,
) -> Result<(), Fault>
    ensures ok { IfOk result
        (λ _. Replays (Appends (W.contents writer.old) (W.contents writer.new)) (string_bytes text)) }
    ensures why { IfErr result (λ f. Blames Command.Replay f (string_bytes text)) }
    ensures silent { IfErr result (λ f. f ≢ Fault.Output → writer.new ≡ writer.old) }
    ensures part { IsErrOf result Fault.Output
        → AnswersInPart Command.Replay (W.contents writer.old) (W.contents writer.new) (string_bytes text) }
    ensures kind { IfErr result (λ f. f ≢ Fault.Unread) }
{
    let report = replayed(alloc, text)?;
    write_out(writer, &report)
}
