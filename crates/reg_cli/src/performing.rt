//! Scripts performed by threads, and the report of what they made.
ghost use Rattle.std.specs.Prelude.{◌≡◌, ◌≢◌, ◌≤◌, IfOk, IfErr, IsErrOf, IfSome};
ghost use Rattle.std.specs.Io.KnownBytes.{Appends};
ghost use Rattle.reg_text.specs.Writing.{AppendsPart};
ghost use Rattle.reg_inputs.specs.Loads.{Load};
ghost use Rattle.reg_commands.specs.Plays.{Holds};
ghost use Rattle.reg_commands.specs.Replays.{PointsOf};
ghost use Rattle.reg_cli.specs.declared.stops.Stop.{Stop};
ghost use Rattle.reg_cli.specs.declared.stops.Stop.TheVariants.{Command};
ghost use Rattle.reg_cli.specs.Lives.{ShowsLive, IsReportOfLive, Lives, BlamesStop};
ghost use Rattle.reg_cli.specs.ThreadStops.{IsOfThreads};
ghost use Rattle.reg_cli.specs.StopLines.{stop_line};
ghost use Rattle.reg_commands.specs.declared.faults.Fault.TheVariants.{Output};

use crate::stops::{Stop, stopped};
use reg_commands::{Refusal, read_input, read_workload, report_run, write_out};
use reg_front::by_front;
use reg_history::Report;
use reg_live::run_scripts_in;
use reg_workload::Workload;
use reg_world::{NamedFront, PackedWires};
use std::alloc::Global;
use std::io::{Read, Write};
use std::sync::Wait;
use std::thread::Threads;
use std::time::Clock;

/// The report of what threads made of a workload.
fn report_of<
    F: NamedFront + Send + Sync + 'static,
    R: Threads + Wait + Clock + Copy + Send + Sync + 'static,
>(rt: R, alloc: Global, work: Workload) -> Result<Report, Stop>
    ensures shows { IfOk result (λ r. ShowsLive F.start work (PointsOf F.front) r) }
    ensures why { IfErr result (λ stop. IsOfThreads stop) }
{
    match run_scripts_in::<F, R, PackedWires>(rt, alloc, work.shape, work.scripts) {
        Ok(closed) => Ok(report_run(alloc, work.front, work.names, closed.world)?),
        Err(stop) => Err(stopped(stop)),
    }
}

/// The report of what threads made of a workload, by its front end.
fn perform<R: Threads + Wait + Clock + Copy + Send + Sync + 'static>(
    rt: R,
    alloc: Global,
    work: Workload,
) -> Result<Report, Stop>
    ensures shows { IfOk result (λ r. IsReportOfLive work r) }
    ensures why { IfErr result (λ stop. IsOfThreads stop) }
{
    by_front!(work.front, report_of::<_, R>(rt, alloc, work))
}

/// The report of what threads made of the workload that a document says.
fn performed<R: Threads + Wait + Clock + Copy + Send + Sync + 'static>(
    rt: R,
    alloc: Global,
    text: &str,
) -> Result<Report, Stop>
    ensures shows { IfOk result (λ r. (work : Load) × Holds text.now work × IsReportOfLive work r) }
    ensures why { IfErr result (λ stop. BlamesStop stop text.now) }
    ensures kind { IfErr result (λ stop. stop ≢ Command Output) }
{
    let work = read_workload(alloc, alloc, text)?;
    perform(rt, alloc, work)
}

/// Has threads perform the workload that a document says, and writes the report.
fn perform_text<R: Threads + Wait + Clock + Copy + Send + Sync + 'static, W: Write>(
    rt: R,
    alloc: Global,
    text: &str,
    writer: &mut W,
) -> Result<(), Stop>
    ensures lives { IfOk result (λ _. Lives (Appends (W.contents writer.old) (W.contents writer.new)) text.now) }
    ensures why { IfErr result (λ stop. BlamesStop stop text.now) }
    ensures silent { IfErr result (λ stop. stop ≢ Command Output → writer.new ≡ writer.old) }
    ensures part { IsErrOf result (Command Output)
        → Lives (AppendsPart (W.contents writer.old) (W.contents writer.new)) text.now }
{
    let report = performed(rt, alloc, text)?;
    write_out(writer, &report)?;
    Ok(())
}

/// Reads a workload, has threads perform it, and writes the report.
fn obey<R: Threads + Wait + Clock + Copy + Send + Sync + 'static, I: Read, W: Write>(
    rt: R,
    alloc: Global,
    reader: &mut I,
    writer: &mut W,
) -> Result<(), Stop>
    ensures lives { IfOk result
        (λ _. IfSome (I.remaining reader.old) (Lives (Appends (W.contents writer.old) (W.contents writer.new)))) }
    ensures why { IfErr result (λ stop. IfSome (I.remaining reader.old) (BlamesStop stop)) }
    ensures silent { IfErr result (λ stop. stop ≢ Command Output → writer.new ≡ writer.old) }
    ensures part { IsErrOf result (Command Output)
        → IfSome (I.remaining reader.old) (Lives (AppendsPart (W.contents writer.old) (W.contents writer.new))) }
{
    let text = read_input(alloc, reader)?;
    perform_text(rt, alloc, text.as_str(), writer)
}

/// Reads a workload, has its scripts performed by threads, and writes the report of the run that they made. Its seed,
/// odds and budget have no part. The answer is the status: 0, or 1 where something was refused, with the line of the
/// stop on `errors`, or a first part of it. There is one thread for each script, one for the mail of each process, and
/// one for ticks, over an honest road, and all are joined before the answer. No clause speaks of threads.
pub fn run_live<
    R: Threads + Wait + Clock + Copy + Send + Sync + 'static,
    I: Read,
    W: Write,
    E: Write,
>(rt: R, alloc: Global, reader: &mut I, writer: &mut W, errors: &mut E) -> u8
    ensures range { result ≤ 1 }
    ensures lives { result ≡ 0
        → IfSome (I.remaining reader.old) (Lives (Appends (W.contents writer.old) (W.contents writer.new))) }
    ensures refused { result ≡ 1
        → (stop : Stop) × IfSome (I.remaining reader.old) (BlamesStop stop)
        × (stop ≢ Command Output → writer.new ≡ writer.old)
        × (stop ≡ Command Output
        → IfSome (I.remaining reader.old) (Lives (AppendsPart (W.contents writer.old) (W.contents writer.new))))
        × AppendsPart (E.contents errors.old) (E.contents errors.new) (stop_line stop) }
    ensures quiet { result ≡ 0 → errors.new ≡ errors.old }
{
    match obey(rt, alloc, reader, writer) {
        Ok(()) => 0,
        Err(stop) => {
            let _ = stop.write_line(errors);
            1
        }
    }
}
