//! The commands that show the run of a schedule as data, and as a page that one steps through.
ghost use Rattle.std.specs.Prelude.{◌≡◌, ◌≢◌, ◌++◌, IfOk, IfErr, IsErrOf};
ghost use Rattle.std.specs.Io.KnownBytes.{Appends};
ghost use Rattle.reg_text.specs.Writing.{AppendsPart, IsWrittenOr};
ghost use Rattle.reg_commands.specs.Replays.{start_of, BlamesRun, PointsOf};
ghost use Rattle.reg_trace.specs.Data.{data_text};
ghost use Rattle.reg_show.specs.Pages.{HasData, ShowsData};
ghost use Rattle.reg_show.specs.Showings.{StopsShowing};

use crate::faults::ShowFault;
use crate::showing::Showing;
use reg_commands::Fault;
use reg_front::by_front;
use reg_trace::{Data, Notes, tell_data, write_data};
use reg_workload::Schedule;
use reg_world::NamedFront;
use std::alloc::Allocator;
use std::io::Write;

/// The most events of a run that is told as data, also to a page.
pub const MOST_TOLD: usize = 2_000;

/// Runs a schedule: all that is told of the run, with these notes.
fn data_of_run<F: NamedFront, A: Allocator + Copy>(
    alloc: A,
    schedule: Schedule<A>,
    notes: Notes<A>,
) -> Result<Data<A>, Fault>
    ensures told { IfOk result (λ d. HasData F.start schedule notes (PointsOf F.front schedule) d) }
    ensures why { IfErr result (λ f. BlamesRun F.start schedule f) }
{
    Ok(tell_data::<F, A>(alloc, schedule, notes)?)
}

/// Runs a schedule under its front end: all that is told of the run, with these notes.
fn data_of_schedule<A: Allocator + Copy>(
    alloc: A,
    schedule: Schedule<A>,
    notes: Notes<A>,
) -> Result<Data<A>, Fault>
    ensures told { IfOk result
        (λ d. HasData (start_of schedule.front) schedule notes (PointsOf schedule.front schedule) d) }
    ensures why { IfErr result (λ f. BlamesRun (start_of schedule.front) schedule f) }
{
    by_front!(schedule.front, data_of_run::<_, A>(alloc, schedule, notes))
}

/// The texts between which the data of a run stands.
#[derive(Clone, Copy)]
pub(crate) struct Ends<'a> {
    pub head: &'a str,
    pub tail: &'a str,
}

/// Writes the data of a run between the texts of a head and of a tail, to the last byte.
///
/// # Errors
///
/// `Output` where the writer failed, and then a first part went out.
pub fn send_data<A: Allocator + Copy, W: Write>(
    writer: &mut W,
    head: &str,
    told: &Data<A>,
    tail: &str,
) -> Result<(), Fault>
    ensures { IsWrittenOr Fault.Output result (W.contents writer.old) (W.contents writer.new)
        (head.now ++ (data_text told.now ++ tail.now)) }
{
    if write_data(writer, head, told, tail).is_err() || writer.flush().is_err() {
        return Err(Fault::Output);
    }
    Ok(())
}

/// Writes the data of the run of a schedule, with these notes, between the texts of a head and of a tail.
pub(crate) fn write_run<A: Allocator + Copy, W: Write>(
    alloc: A,
    schedule: Schedule<A>,
    notes: Notes<A>,
    ends: Ends<'_>,
    writer: &mut W,
) -> Result<(), ShowFault>
    ensures ok { IfOk result
        (λ _. ShowsData ends.entry.head.now ends.entry.tail.now notes
        (Appends (W.contents writer.old) (W.contents writer.new)) schedule) }
    ensures why { IfErr result (StopsShowing Showing.Data schedule) }
    ensures silent { IfErr result (λ f. f ≢ ShowFault.Command Fault.Output → writer.new ≡ writer.old) }
    ensures part { IsErrOf result (ShowFault.Command Fault.Output)
        → ShowsData ends.entry.head.now ends.entry.tail.now notes
        (AppendsPart (W.contents writer.old) (W.contents writer.new)) schedule }
{
    if schedule.events.len() > MOST_TOLD {
        return Err(ShowFault::TooManyToDraw);
    }
    let told = data_of_schedule(alloc, schedule, notes)?;
    send_data(writer, ends.head, &told, ends.tail)?;
    Ok(())
}
