//! The command that brings the run of a schedule to rest.
ghost use Rattle.std.specs.Prelude.{◌≡◌, ◌≢◌, ◌⊎◌, IfOk, IfErr, IsErrOf};
ghost use Rattle.std.specs.Io.KnownBytes.{Appends};
ghost use Rattle.reg_text.specs.Writing.{AppendsPart};
ghost use Rattle.reg_inputs.specs.Schedules.{IsPlan};
ghost use Rattle.reg_show.specs.Rests.{IsRested, WritesRest, BlamesRested};
ghost use Rattle.reg_commands.specs.Replays.{start_of};

use crate::faults::ShowFault;
use crate::scheduling::{events_have_bits, send};
use reg_commands::{Fault, Ran, run_events};
use reg_front::{FrontEnd, by_front};
use reg_records::{SettleFault, settle};
use reg_workload::Schedule;
use reg_world::PackedWires;
use std::alloc::Allocator;
use std::io::Write;

/// Runs a schedule, and brings its world to rest.
fn rest_run<F: FrontEnd, A: Allocator + Copy>(
    alloc: A,
    schedule: Schedule<A>,
) -> Result<Ran<F, A, PackedWires<A>>, ShowFault>
    ensures rested { IfOk result (λ r. IsRested F.start schedule r.world) }
    ensures names { IfOk result (λ r. r.names ≡ schedule.names) }
    ensures front { IfOk result (λ r. r.front ≡ schedule.front) }
    ensures why { IfErr result (λ f. BlamesRested F.start schedule f) }
{
    let Ran {
        mut world,
        names,
        front,
    } = run_events::<F, A, PackedWires<A>>(alloc, schedule)?;
    // (for the proof: by this getter's contract the world is the run of these events)
    world.accepted();
    match settle(&mut world) {
        Ok(_) => Ok(Ran {
            world,
            names,
            front,
        }),
        Err(SettleFault::TooManyEvents) => Err(ShowFault::TooManyToRest),
        Err(SettleFault::OutOfMemory) => Err(ShowFault::Command {
            fault: Fault::OutOfMemory,
        }),
        Err(SettleFault::Failed) => unreachable!(),
    }
}

/// Runs a schedule, brings its world to rest, and writes the schedule of all events.
fn write_rest<F: FrontEnd, A: Allocator + Copy, W: Write>(
    alloc: A,
    schedule: Schedule<A>,
    writer: &mut W,
) -> Result<(), ShowFault>
    requires { IsPlan schedule }
    ensures ok { IfOk result
        (λ _. WritesRest F.start (Appends (W.contents writer.old) (W.contents writer.new)) schedule) }
    ensures why { IfErr result (λ f. (f ≡ ShowFault.Command Fault.Output) ⊎ BlamesRested F.start schedule f) }
    ensures silent { IfErr result (λ f. f ≢ ShowFault.Command Fault.Output → writer.new ≡ writer.old) }
    ensures part { IsErrOf result (ShowFault.Command Fault.Output)
        → WritesRest F.start (AppendsPart (W.contents writer.old) (W.contents writer.new)) schedule }
{
    let Ran {
        world,
        names,
        front,
    } = rest_run::<F, A>(alloc, schedule)?;
    let events = world.accepted();
    events_have_bits(events);
    send(writer, world.shape(), &names, front, events)?;
    Ok(())
}

/// Brings the run of a schedule to rest, and writes the schedule of all events: the same, with ticks and takes after
/// it.
pub(crate) fn rest<A: Allocator + Copy, W: Write>(
    alloc: A,
    schedule: Schedule<A>,
    writer: &mut W,
) -> Result<(), ShowFault>
    requires { IsPlan schedule }
    ensures ok { IfOk result
        (λ _. WritesRest (start_of schedule.front) (Appends (W.contents writer.old) (W.contents writer.new)) schedule) }
    ensures why { IfErr result
        (λ f. (f ≡ ShowFault.Command Fault.Output) ⊎ BlamesRested (start_of schedule.front) schedule f) }
    ensures silent { IfErr result (λ f. f ≢ ShowFault.Command Fault.Output → writer.new ≡ writer.old) }
    ensures part { IsErrOf result (ShowFault.Command Fault.Output)
        → WritesRest (start_of schedule.front) (AppendsPart (W.contents writer.old) (W.contents writer.new)) schedule }
{
    by_front!(
        schedule.front,
        write_rest::<_, A, W>(alloc, schedule, writer)
    )
}
