//! The command that plays a workload and prints the report of what happened.
ghost use Rattle.std.specs.Prelude.{◌≡◌, ◌≢◌, ◌⊎◌, Bool, IfOk, IfErr, IsErrOf};
ghost use Rattle.std.specs.Io.KnownBytes.{Appends};
ghost use Rattle.reg_inputs.specs.declared.faults.WorkloadFault.TheVariants.{OutOfMemory};
ghost use Rattle.reg_inputs.specs.Loads.{Load};
ghost use Rattle.reg_commands.specs.Answers.{AnswersInPart, Blames};
ghost use Rattle.reg_commands.specs.Replays.{PointsOf};
ghost use Rattle.reg_commands.specs.Plays.{Holds, RefusesDocument, IsPlayBy, ShowsPlay, IsReportOfPlay, Plays};

use crate::command::Command;
use crate::faults::Fault;
use crate::reporting::{report_run, write_out};
use reg_front::{FrontEnd, by_front};
use reg_history::Report;
use reg_workload::{
    Play, SeedWords, Workload, WorkloadFault, play_fair_in, play_seeded_in, read_table,
};
use reg_world::{NamedFront, UnlistedWires, WireStore};
use std::alloc::{AllocError, Allocator, Global};
use std::io::Write;

/// The workload that a document says. Its table is kept in the global heap, where `toml` keeps it.
fn workload_in<A: Allocator + Copy>(
    alloc: A,
    global: Global,
    text: &str,
) -> Result<Workload<A>, WorkloadFault>
    ensures read { IfOk result (λ w. Holds text.now w) }
    ensures why { IfErr result (λ e. (e ≡ OutOfMemory) ⊎ RefusesDocument text.now e) }
{
    let table = read_table(global, text)?;
    Workload::from_table(alloc, &table)
}

/// The workload that a document says.
///
/// # Errors
///
/// `Workload` with the first fault of the document, and `OutOfMemory`.
pub fn read_workload<A: Allocator + Copy>(
    alloc: A,
    global: Global,
    text: &str,
) -> Result<Workload<A>, Fault>
    ensures read { IfOk result (λ w. Holds text.now w) }
    ensures why { IfErr result (λ f. (fair : Bool) → Blames (Command.Play fair) f text.now) }
    ensures kind { IfErr result (λ f. (f ≢ Fault.Output) × (f ≢ Fault.Unread)) }
{
    match workload_in(alloc, global, text) {
        Ok(work) => Ok(work),
        Err(WorkloadFault::OutOfMemory) => Err(Fault::OutOfMemory),
        Err(fault) => Err(Fault::Workload { fault }),
    }
}

/// Plays a workload, fairly or as the words of its seed say.
///
/// # Errors
///
/// Memory was refused.
pub fn play_by<F: FrontEnd, A: Allocator + Copy, W: WireStore<A>>(
    alloc: A,
    work: &Workload<A>,
    fair: bool,
) -> Result<Play<F, A, W>, AllocError>
    ensures { IfOk result (λ p. IsPlayBy fair F.start work.now p.world p.finished) }
{
    if fair {
        play_fair_in(alloc, work)
    } else {
        play_seeded_in(alloc, work, SeedWords::new(work.seed))
    }
}

/// The report of a play.
fn report_of<F: NamedFront, A: Allocator + Copy>(
    alloc: A,
    work: Workload<A>,
    fair: bool,
) -> Result<Report<A>, Fault>
    ensures shows { IfOk result (λ r. ShowsPlay fair F.start work (PointsOf F.front) r) }
    ensures why { IfErr result (λ f. f ≡ Fault.OutOfMemory) }
{
    let play = play_by::<F, A, UnlistedWires<A>>(alloc, &work, fair)?;
    report_run(alloc, work.front, work.names, play.world)
}

/// The report of a play, under the front end of its workload.
///
/// # Errors
///
/// `OutOfMemory`, and no other.
pub fn play_workload<A: Allocator + Copy>(
    alloc: A,
    work: Workload<A>,
    fair: bool,
) -> Result<Report<A>, Fault>
    ensures ok { IfOk result (λ r. IsReportOfPlay fair work r) }
    ensures why { IfErr result (λ f. f ≡ Fault.OutOfMemory) }
{
    by_front!(work.front, report_of::<_, A>(alloc, work, fair))
}

fn played<A: Allocator + Copy>(
    alloc: A,
    global: Global,
    text: &str,
    fair: bool,
) -> Result<Report<A>, Fault>
    ensures ok { IfOk result (λ r. (work : Load) × Holds text.now work × IsReportOfPlay fair work r) }
    ensures why { IfErr result (λ f. Blames (Command.Play fair) f text.now) }
    ensures kind { IfErr result (λ f. (f ≢ Fault.Output) × (f ≢ Fault.Unread)) }
{
    let work = read_workload(alloc, global, text)?;
    play_workload(alloc, work, fair)
}

/// Reads a workload, plays it, and writes the report of what happened.
pub fn play<A: Allocator + Copy, W: Write>(
    alloc: A,
    global: Global,
    text: &str,
    fair: bool,
    writer: &mut W,
) -> Result<(), Fault>
    ensures ok { IfOk result (λ _. Plays fair (Appends (W.contents writer.old) (W.contents writer.new)) text.now) }
    ensures why { IfErr result (λ f. Blames (Command.Play fair) f text.now) }
    ensures silent { IfErr result (λ f. f ≢ Fault.Output → writer.new ≡ writer.old) }
    ensures part { IsErrOf result Fault.Output
        → AnswersInPart (Command.Play fair) (W.contents writer.old) (W.contents writer.new) text.now }
    ensures kind { IfErr result (λ f. f ≢ Fault.Unread) }
{
    let report = played(alloc, global, text, fair)?;
    write_out(writer, &report)
}
