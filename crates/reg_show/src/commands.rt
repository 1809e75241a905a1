//! The commands that show the run of a schedule: as text, and as a drawing.
ghost use Rattle.std.specs.Prelude.{◌≡◌, ◌≢◌, ◌≤◌, ◌++◌, IfOk, IfErr, IsErrOf, length};
ghost use Rattle.std.specs.Io.KnownBytes.{Appends};
ghost use Rattle.reg_text.specs.Writing.{AppendsPart, IsWrittenOr};
ghost use Rattle.reg_commands.specs.Replays.{start_of};
ghost use Rattle.reg_show.specs.Runs.{DrawsRun, IsRunWhole, TellsRun};
ghost use Rattle.reg_show.specs.Showings.{StopsShowing};
ghost use Rattle.reg_trace.specs.Traces.{title_line, trace_text};

use crate::faults::ShowFault;
use crate::showing::Showing;
use crate::telling::tell_schedule;
use reg_base::Names;
use reg_commands::{Fault, write_answer};
use reg_trace::{Moment, Size, TracedRun, draw_told, write_trace};
use reg_workload::Schedule;
use std::alloc::Allocator;
use std::io::Write;

/// The most events of a run that is drawn.
pub const MOST_DRAWN: usize = 400;

/// Writes the line of a title, unless it is empty, and what each event did, to the last byte.
fn send<A: Allocator + Copy, W: Write>(
    writer: &mut W,
    title: &str,
    names: &Names<A>,
    moments: &[Moment<A>],
) -> Result<(), Fault>
    ensures { IsWrittenOr Fault.Output result (W.contents writer.old) (W.contents writer.new)
        (title_line title.now ++ trace_text names.now moments.now) }
{
    if write_trace(writer, title, names, moments).is_err() || writer.flush().is_err() {
        return Err(Fault::Output);
    }
    Ok(())
}

/// Writes what happens in the run of a schedule, event by event, below this title.
pub(crate) fn trace<A: Allocator + Copy, W: Write>(
    alloc: A,
    schedule: Schedule<A>,
    title: &str,
    writer: &mut W,
) -> Result<(), ShowFault>
    ensures ok { IfOk result
        (λ _. TellsRun title.now (Appends (W.contents writer.old) (W.contents writer.new)) schedule) }
    ensures why { IfErr result (StopsShowing Showing.Trace schedule) }
    ensures silent { IfErr result (λ f. f ≢ ShowFault.Command Fault.Output → writer.new ≡ writer.old) }
    ensures part { IsErrOf result (ShowFault.Command Fault.Output)
        → TellsRun title.now (AppendsPart (W.contents writer.old) (W.contents writer.new)) schedule }
{
    let told = tell_schedule(alloc, schedule)?;
    send(writer, title, &told.names, told.moments.as_slice())?;
    Ok(())
}

/// What is told of a schedule, where it is drawn.
fn told_to_draw<A: Allocator + Copy>(
    alloc: A,
    schedule: Schedule<A>,
) -> Result<TracedRun<A>, ShowFault>
    ensures accepted { IfOk result (λ _. IsRunWhole (start_of schedule.front) schedule) }
    ensures few { IfOk result (λ _. length schedule.events ≤ MOST_DRAWN) }
    ensures why { IfErr result (StopsShowing Showing.Draw schedule) }
    ensures kind { IfErr result (λ f. f ≢ ShowFault.Command Fault.Output) }
{
    if schedule.events.len() > MOST_DRAWN {
        return Err(ShowFault::TooManyToDraw);
    }
    Ok(tell_schedule(alloc, schedule)?)
}

/// Writes the space-time diagram of the run of a schedule, with this in its title.
pub(crate) fn draw<A: Allocator + Copy, W: Write>(
    alloc: A,
    schedule: Schedule<A>,
    title: &str,
    size: Size,
    writer: &mut W,
) -> Result<(), ShowFault>
    ensures ok { IfOk result (λ _. DrawsRun (Appends (W.contents writer.old) (W.contents writer.new)) schedule) }
    ensures why { IfErr result (StopsShowing Showing.Draw schedule) }
    ensures silent { IfErr result (λ f. f ≢ ShowFault.Command Fault.Output → writer.new ≡ writer.old) }
    ensures part { IsErrOf result (ShowFault.Command Fault.Output)
        → DrawsRun (AppendsPart (W.contents writer.old) (W.contents writer.new)) schedule }
{
    let told = told_to_draw(alloc, schedule)?;
    let drawing = draw_told(alloc, &told, title, size)?;
    write_answer(writer, drawing.as_str().as_bytes())?;
    Ok(())
}
