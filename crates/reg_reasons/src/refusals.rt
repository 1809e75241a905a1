//! What is told of a text.
ghost use Rattle.std.specs.Prelude.{◌≡◌, ◌≢◌, ◌≤◌, ◌++◌, ◌*◌, ℕ, List, IfOk, IfErr, true, false, length, sum_by};
ghost use Rattle.reg_base.specs.declared.limits.TheConstants.{MOST_OPERATIONS, MOST_PROCESSES};
ghost use Rattle.reg_history.specs.Reports.{IsReport, SpellsReport};
ghost use Rattle.reg_commands.specs.Answers.{Blames};
ghost use Rattle.reg_commands.specs.Plays.{Holds};
ghost use Rattle.reg_commands.specs.Replays.{BlamesRun, start_of, run_by};
ghost use Rattle.reg_inputs.specs.Schedules.{IsPlan, Spells};
ghost use Rattle.reg_commands.specs.FaultLines.{fault_line};
ghost use Rattle.reg_commands.specs.Verdicts.{Judges, all_yes as all_yes_of};
ghost use Rattle.reg_reasons.specs.FirstLines.{subject_text};
ghost use Rattle.reg_reasons.specs.TextFaults.{is_of_text as is_of_text_fault};
ghost use Rattle.reg_commands.specs.Kinds.{command_of as command_of_kind};
ghost use Rattle.reg_reasons.specs.Records.{begins_record};
ghost use Rattle.reg_reasons.specs.Tellings.{Agrees, Disagrees, Halts, Refuses, Tells, TellsAny};

use crate::explaining::{explain_fault, explain_verdicts};
use crate::first_lines::{Subject, line_of_fault, line_of_no, line_of_subject};
use crate::records::tell_record;
use crate::stops::{Documents, Steps, Tables};
use reg_base::Op;
use reg_commands::{
    Fault, Kind, Ran, Verdicts, all_yes, command_of, judge, kind_of, read_report_text,
    read_schedule, read_workload, run_events,
};
use reg_front::{FrontEnd, by_front};
use reg_history::Report;
use reg_inputs::Schedule;
use reg_workload::Workload;
use reg_world::PackedWires;
use std::alloc::{AllocError, Allocator, Global};

/// What is told of a text: the bytes of the answer, and whether the text is accepted.
#[derive(Drop)]
pub struct Explanation<A: Allocator + Copy> {
    pub answer: Vec<u8, A>,
    pub is_accepted: bool,
}

/// The first line of an answer with what explains it.
pub(crate) fn joined<A: Allocator + Copy>(
    line: Vec<u8, A>,
    notes: &[u8],
) -> Result<Explanation<A>, AllocError>
    ensures { IfOk result (λ t. (t.answer.items ≡ line.items ++ notes.now) × (t.is_accepted ≡ false)) }
{
    let mut answer = line;
    answer.extend_from_slice(notes)?;
    Ok(Explanation {
        answer,
        is_accepted: false,
    })
}

/// The answer for an accepted text.
pub(crate) fn accepted<A: Allocator + Copy>(
    alloc: A,
    subject: Subject<'_>,
    tail: &str,
) -> Result<Explanation<A>, AllocError>
    ensures { IfOk result
        (λ t. (t.answer.items
        ≡ subject_text subject.entry.name.now subject.entry.processes subject.entry.registers subject.entry.front.now
        subject.entry.count subject.entry.one.now subject.entry.many.now
        ++ tail.now)
        × (t.is_accepted ≡ true)) }
{
    let answer = line_of_subject(alloc, subject, tail)?;
    Ok(Explanation {
        answer,
        is_accepted: true,
    })
}

/// The answer for a text with this fault.
pub(crate) fn refused<D: Documents, A: Allocator + Copy>(
    alloc: A,
    documents: D,
    kind: Kind,
    text: &str,
    fault: Fault,
) -> Result<Explanation<A>, AllocError>
    ensures { IfOk result
        (λ t. (rest : List ℕ) × (t.answer.items ≡ fault_line fault ++ rest) × (t.is_accepted ≡ false)) }
{
    let line = line_of_fault(alloc, fault)?;
    let notes = explain_fault(alloc, documents, command_of(kind), text, fault)?;
    joined(line, notes.as_slice())
}

/// Whether a fault is one of a text: of a line, an event or a document.
pub(crate) fn is_of_text(fault: Fault) -> bool
    ensures { result ≡ is_of_text_fault fault }
{
    match fault {
        Fault::Unread | Fault::TooLong | Fault::NotText => false,
        Fault::Output | Fault::OutOfMemory => false,
        Fault::Line { .. } | Fault::Event { .. } | Fault::Workload { .. } => true,
    }
}

/// The answer for a refused text, where the fault is one of the text; else the fault.
fn refused_or_halted<D: Documents, A: Allocator + Copy>(
    alloc: A,
    documents: D,
    kind: Kind,
    text: &str,
    fault: Fault,
) -> Result<Explanation<A>, Fault>
    requires blamed { Blames (command_of_kind kind) fault text.now }
    requires kind { (fault ≢ Fault.Output) × (fault ≢ Fault.Unread) }
    ensures told { IfOk result (λ t. Refuses (command_of_kind kind) t.answer.items text.now × (t.is_accepted ≡ false)) }
    ensures why { IfErr result (λ f. Halts f text.now) }
    ensures kind { IfErr result (λ f. (f ≢ Fault.Output) × (f ≢ Fault.Unread)) }
{
    if !is_of_text(fault) {
        return Err(fault);
    }
    match refused(alloc, documents, kind, text, fault) {
        Ok(told) => Ok(told),
        Err(_) => Err(Fault::OutOfMemory),
    }
}

/// Runs the events of a schedule.
fn run<F: FrontEnd, A: Allocator + Copy>(alloc: A, schedule: Schedule<A>) -> Result<(), Fault>
    ensures ran { IfOk result (λ _. (run_by F.start schedule).accepted ≡ schedule.events) }
    ensures why { IfErr result (λ f. BlamesRun F.start schedule f) }
{
    let Ran {
        world,
        names: _names,
        front: _front,
    } = run_events::<F, A, PackedWires<A>>(alloc, schedule)?;
    // (for the proof: by this getter's contract the world is the run of these events)
    world.accepted();
    Ok(())
}

/// Runs the events of a schedule, by its front end.
fn run_by_front<A: Allocator + Copy>(alloc: A, schedule: Schedule<A>) -> Result<(), Fault>
    ensures ran { IfOk result (λ _. (run_by (start_of schedule.front) schedule).accepted ≡ schedule.events) }
    ensures why { IfErr result (λ f. BlamesRun (start_of schedule.front) schedule f) }
{
    by_front!(schedule.front, run::<_, A>(alloc, schedule))
}

/// The answer for a schedule that was read.
fn tell_run<A: Allocator + Copy>(
    alloc: A,
    text: &str,
    schedule: Schedule<A>,
) -> Result<Explanation<A>, Fault>
    requires good { IsPlan schedule }
    requires read { Spells text.now schedule }
    ensures told { IfOk result (λ t. Tells Kind.Schedule t.is_accepted t.answer.items text.now) }
    ensures why { IfErr result (λ f. Halts f text.now) }
    ensures kind { IfErr result (λ f. (f ≢ Fault.Output) × (f ≢ Fault.Unread)) }
{
    let subject = Subject {
        name: "a schedule: ",
        processes: schedule.shape.processes(),
        registers: schedule.shape.registers(),
        front: schedule.front.name(),
        count: schedule.events.as_slice().len(),
        one: " event",
        many: " events",
    };
    match run_by_front(alloc, schedule) {
        Ok(()) => match accepted(alloc, subject, ", all accepted\n") {
            Ok(told) => Ok(told),
            Err(_) => Err(Fault::OutOfMemory),
        },
        Err(fault) => refused_or_halted(alloc, Steps, Kind::Schedule, text, fault),
    }
}

pub(crate) fn tell_schedule<A: Allocator + Copy>(
    alloc: A,
    text: &str,
) -> Result<Explanation<A>, Fault>
    ensures told { IfOk result (λ t. Tells Kind.Schedule t.is_accepted t.answer.items text.now) }
    ensures why { IfErr result (λ f. Halts f text.now) }
    ensures kind { IfErr result (λ f. (f ≢ Fault.Output) × (f ≢ Fault.Unread)) }
{
    match read_schedule(alloc, text) {
        Ok(schedule) => tell_run(alloc, text, schedule),
        Err(fault) => refused_or_halted(alloc, Steps, Kind::Schedule, text, fault),
    }
}

/// How many operations the scripts have, which can be counted where they are those of a workload.
fn operations_of<A: Allocator + Copy>(scripts: &[Vec<Op, A>]) -> usize
    requires { sum_by (λ script. length script.items) scripts.now ≤ MOST_PROCESSES * MOST_OPERATIONS }
    ensures { result ≡ sum_by (λ script. length script.items) scripts.now }
{
    let mut count = 0;
    for script in scripts {
        count += script.len();
    }
    count
}

/// The answer for a workload that was read.
pub(crate) fn tell_load<A: Allocator + Copy>(
    alloc: A,
    text: &str,
    work: &Workload<A>,
) -> Result<Explanation<A>, AllocError>
    requires { Holds text.now work.now }
    ensures { IfOk result (λ t. Tells Kind.Workload t.is_accepted t.answer.items text.now) }
{
    let subject = Subject {
        name: "a workload: ",
        processes: work.shape.processes(),
        registers: work.shape.registers(),
        front: work.front.name(),
        count: operations_of(work.scripts.as_slice()),
        one: " operation",
        many: " operations",
    };
    accepted(alloc, subject, "\n")
}

fn tell_workload<A: Allocator + Copy>(
    alloc: A,
    global: Global,
    text: &str,
) -> Result<Explanation<A>, Fault>
    ensures told { IfOk result (λ t. Tells Kind.Workload t.is_accepted t.answer.items text.now) }
    ensures why { IfErr result (λ f. Halts f text.now) }
    ensures kind { IfErr result (λ f. (f ≢ Fault.Output) × (f ≢ Fault.Unread)) }
{
    match read_workload(alloc, global, text) {
        Ok(work) => match tell_load(alloc, text, &work) {
            Ok(told) => Ok(told),
            Err(_) => Err(Fault::OutOfMemory),
        },
        Err(fault) => refused_or_halted(alloc, Tables { global }, Kind::Workload, text, fault),
    }
}

/// What stands behind the numbers of a report without points of which the verdict is yes.
const WITHOUT_POINTS: &str =
    "; serial yes; no points, so real time is not judged: awshow find points looks for some\n";

/// The answer for a report of which every verdict is yes.
fn agree<A: Allocator + Copy>(
    alloc: A,
    text: &str,
    report: &Report<A>,
    verdicts: Verdicts,
) -> Result<Explanation<A>, AllocError>
    requires read { SpellsReport text.now report.now }
    requires judged { Judges report.now verdicts }
    requires yes { all_yes_of verdicts ≡ true }
    ensures { IfOk result (λ t. Agrees t.answer.items text.now × (t.is_accepted ≡ true)) }
{
    let history = report.history();
    let subject = Subject {
        name: "a report: ",
        processes: history.shape().processes(),
        registers: history.shape().registers(),
        front: report.front(),
        count: history.entries().len(),
        one: " entry",
        many: " entries",
    };
    match report.points() {
        Some(_) => accepted(alloc, subject, "; serial yes; points yes\n"),
        None => accepted(alloc, subject, WITHOUT_POINTS),
    }
}

/// The answer for a report of which some verdict is no.
fn disagree<A: Allocator + Copy>(
    alloc: A,
    text: &str,
    report: &Report<A>,
    verdicts: Verdicts,
) -> Result<Explanation<A>, AllocError>
    requires good { IsReport report.now }
    requires read { SpellsReport text.now report.now }
    requires judged { Judges report.now verdicts }
    requires no { all_yes_of verdicts ≡ false }
    ensures { IfOk result (λ t. Disagrees t.answer.items text.now × (t.is_accepted ≡ false)) }
{
    let line = line_of_no(alloc, verdicts)?;
    let notes = explain_verdicts(alloc, text.as_bytes(), report, verdicts)?;
    joined(line, notes.as_slice())
}

/// The answer for a report that was read.
fn tell_judged<A: Allocator + Copy>(
    alloc: A,
    text: &str,
    report: &Report<A>,
) -> Result<Explanation<A>, AllocError>
    requires good { IsReport report.now }
    requires read { SpellsReport text.now report.now }
    ensures { IfOk result (λ t. Tells Kind.Report t.is_accepted t.answer.items text.now) }
{
    let verdicts = judge(alloc, report)?;
    if all_yes(verdicts) {
        agree(alloc, text, report, verdicts)
    } else {
        disagree(alloc, text, report, verdicts)
    }
}

#[tactic(auto, using(crate::proofs::WhyTold::tells_refused))]
pub(crate) fn tell_report<A: Allocator + Copy>(
    alloc: A,
    text: &str,
) -> Result<Explanation<A>, Fault>
    ensures told { IfOk result (λ t. Tells Kind.Report t.is_accepted t.answer.items text.now) }
    ensures why { IfErr result (λ f. Halts f text.now) }
    ensures kind { IfErr result (λ f. (f ≢ Fault.Output) × (f ≢ Fault.Unread)) }
{
    match read_report_text(alloc, text) {
        Ok(report) => match tell_judged(alloc, text, &report) {
            Ok(told) => Ok(told),
            Err(_) => Err(Fault::OutOfMemory),
        },
        Err(fault) => refused_or_halted(alloc, Steps, Kind::Report, text, fault),
    }
}

/// What is told of a text, by its kind: a record by how it begins.
///
/// # Errors
///
/// What is none of the text stops before an answer: want of memory, or a text that is longer than an input may be, and
/// neither a reader nor a writer that failed.
pub fn tell<A: Allocator + Copy>(
    alloc: A,
    global: Global,
    text: &str,
) -> Result<Explanation<A>, Fault>
    ensures told { IfOk result (λ t. TellsAny (begins_record text.now) t.is_accepted t.answer.items text.now) }
    ensures why { IfErr result (λ f. Halts f text.now) }
    ensures kind { IfErr result (λ f. (f ≢ Fault.Output) × (f ≢ Fault.Unread)) }
{
    if text.as_bytes().starts_with(b"tellwydar record ") {
        return tell_record(alloc, text);
    }
    match kind_of(text.as_bytes()) {
        Kind::Report => tell_report(alloc, text),
        Kind::Schedule => tell_schedule(alloc, text),
        Kind::Workload => tell_workload(alloc, global, text),
    }
}
