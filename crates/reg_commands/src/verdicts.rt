//! Judging a report from its text alone.
ghost use Rattle.std.specs.Prelude.{◌≡◌, ◌++◌, ◌∷◌, [], Err, IfOk, IfErr, MatchOption, codes};
ghost use Rattle.std.specs.Fmt.{decimal};
ghost use Rattle.reg_text.specs.Writing.{Puts, IsWritten, IsWrittenOr};
ghost use Rattle.reg_commands.specs.Verdicts.{SerialSays, PointsSay, AllPointsSay, Judges, fault_of};
ghost use Rattle.reg_commands.specs.Verdicts.{is_yes as is_yes_of, all_yes as all_yes_of, verdict_line, points_line};
ghost use Rattle.reg_commands.specs.Verdicts.{verdicts_text};
ghost use Rattle.reg_commands.specs.CheckerAnswers.{Tells};

use crate::faults::Fault;
use reg_history::{CheckFault, Point, Report, check_points, check_serial};
use reg_text::{Sink, put_number};
use std::alloc::{AllocError, Allocator};
use std::io::Write;

/// What is wrong with an order. A place counts from 0.
#[derive(Clone, Copy)]
pub enum Reason {
    /// An id is neither that of a finished operation nor that of a called one that may change the memory.
    Unknown,
    /// An id stands twice.
    Twice,
    /// A finished operation is not there.
    Missing,
    /// An id stands after one of its process with a larger number.
    OwnOrder,
    /// The operation at this place has another answer than the memory gives.
    Answer { place: usize },
    /// The point at this place is before its call or after its answer.
    Outside { place: usize },
    /// The point at this place is below the one before it.
    Falling { place: usize },
}

/// What a checker says of an order.
#[derive(Clone, Copy)]
pub enum Verdict {
    /// It is a serial order, or a point order, as was asked.
    Yes,
    /// It isn't, for this reason.
    No(Reason),
}

/// What the checkers say of a report: of its order, and of its points where it has any.
#[derive(Clone, Copy)]
pub struct Verdicts {
    pub serial: Verdict,
    pub points: Option<Verdict>,
}

fn is_yes(verdict: Verdict) -> bool
    ensures { result ≡ is_yes_of verdict }
{
    match verdict {
        Verdict::Yes => true,
        Verdict::No(_) => false,
    }
}

/// Whether every line says yes.
pub fn all_yes(verdicts: Verdicts) -> bool
    ensures { result ≡ all_yes_of verdicts }
{
    let points = match verdicts.points {
        Some(verdict) => is_yes(verdict),
        None => true,
    };
    is_yes(verdicts.serial) && points
}

/// The reason of a checker's fault. None where there was no memory to check.
fn reason_of(fault: CheckFault) -> Option<Reason>
    ensures { MatchOption result (fault ≡ CheckFault.OutOfMemory) (λ reason. fault ≡ fault_of reason) }
{
    match fault {
        CheckFault::Unknown => Some(Reason::Unknown),
        CheckFault::Twice => Some(Reason::Twice),
        CheckFault::Missing => Some(Reason::Missing),
        CheckFault::OwnOrder => Some(Reason::OwnOrder),
        CheckFault::Answer { place } => Some(Reason::Answer { place }),
        CheckFault::Outside { place } => Some(Reason::Outside { place }),
        CheckFault::Falling { place } => Some(Reason::Falling { place }),
        CheckFault::OutOfMemory => None,
    }
}

/// The verdict of a check.
fn verdict_of(answer: Result<(), CheckFault>) -> Result<Verdict, AllocError>
    ensures tells { IfOk result (λ v. Tells answer v) }
    ensures memory { IfErr result (λ _. answer ≡ Err CheckFault.OutOfMemory) }
{
    match answer {
        Ok(()) => Ok(Verdict::Yes),
        Err(fault) => match reason_of(fault) {
            Some(reason) => Ok(Verdict::No(reason)),
            None => Err(AllocError),
        },
    }
}

fn judge_order<A: Allocator + Copy>(alloc: A, report: &Report<A>) -> Result<Verdict, AllocError>
    ensures { IfOk result (λ v. SerialSays report.now v) }
{
    verdict_of(check_serial(alloc, report.history(), report.order()))
}

fn judge_points<A: Allocator + Copy>(
    alloc: A,
    report: &Report<A>,
    points: &[Point],
) -> Result<Verdict, AllocError>
    ensures { IfOk result (λ v. PointsSay report.now points.now v) }
{
    verdict_of(check_points(alloc, report.history(), points))
}

fn judge_all_points<A: Allocator + Copy>(
    alloc: A,
    report: &Report<A>,
) -> Result<Option<Verdict>, AllocError>
    ensures { IfOk result (λ v. AllPointsSay report.now report.now.points v) }
{
    match report.points() {
        Some(points) => Ok(Some(judge_points(alloc, report, points)?)),
        None => Ok(None),
    }
}

/// What the checkers say of a report.
///
/// # Errors
///
/// Memory was refused.
pub fn judge<A: Allocator + Copy>(alloc: A, report: &Report<A>) -> Result<Verdicts, AllocError>
    ensures { IfOk result (λ v. Judges report.now v) }
{
    let serial = judge_order(alloc, report)?;
    let points = judge_all_points(alloc, report)?;
    Ok(Verdicts { serial, points })
}

fn put_words<W: Write>(sink: &mut Sink<'_, W>, name: &str, words: &str)
    ensures { Puts W.contents sink.old sink.new (name.now ++ words.now ++ 10 ∷ []) }
{
    sink.put(name.as_bytes());
    sink.put(words.as_bytes());
    sink.put(b"\n");
}

fn put_place<W: Write>(sink: &mut Sink<'_, W>, name: &str, words: &str, place: usize)
    ensures { Puts W.contents sink.old sink.new (name.now ++ (words.now ++ decimal place) ++ 10 ∷ []) }
{
    sink.put(name.as_bytes());
    put_number(sink, words, place as u64);
    sink.put(b"\n");
}

fn put_reason<W: Write>(sink: &mut Sink<'_, W>, name: &str, reason: Reason)
    ensures { Puts W.contents sink.old sink.new (verdict_line name.now (Verdict.No reason)) }
{
    match reason {
        Reason::Unknown => put_words(sink, name, " no: unknown"),
        Reason::Twice => put_words(sink, name, " no: twice"),
        Reason::Missing => put_words(sink, name, " no: missing"),
        Reason::OwnOrder => put_words(sink, name, " no: own order"),
        Reason::Answer { place } => put_place(sink, name, " no: answer at ", place),
        Reason::Outside { place } => put_place(sink, name, " no: outside at ", place),
        Reason::Falling { place } => put_place(sink, name, " no: falling at ", place),
    }
}

fn put_verdict<W: Write>(sink: &mut Sink<'_, W>, name: &str, verdict: Verdict)
    ensures { Puts W.contents sink.old sink.new (verdict_line name.now verdict) }
{
    match verdict {
        Verdict::Yes => put_words(sink, name, " yes"),
        Verdict::No(reason) => put_reason(sink, name, reason),
    }
}

/// Puts the line of the verdict on an order.
pub fn put_serial<W: Write>(sink: &mut Sink<'_, W>, serial: Verdict)
    ensures { Puts W.contents sink.old sink.new (verdict_line (codes "serial") serial) }
{
    put_verdict(sink, "serial", serial);
}

/// Puts the line of the verdict on points, where there are any.
pub fn put_points<W: Write>(sink: &mut Sink<'_, W>, points: Option<Verdict>)
    ensures { Puts W.contents sink.old sink.new (points_line points) }
{
    match points {
        Some(verdict) => put_verdict(sink, "points", verdict),
        None => {}
    }
}

fn put_verdicts<W: Write>(sink: &mut Sink<'_, W>, verdicts: Verdicts)
    ensures { Puts W.contents sink.old sink.new (verdicts_text verdicts) }
{
    put_serial(sink, verdicts.serial);
    put_points(sink, verdicts.points);
}

/// Writes the lines of a report's verdicts.
fn write_lines<W: Write>(writer: &mut W, verdicts: Verdicts) -> Result<(), Fault>
    ensures { IsWritten result (W.contents writer.old) (W.contents writer.new) (verdicts_text verdicts) }
{
    let mut sink = Sink::new(writer);
    put_verdicts(&mut sink, verdicts);
    if sink.failed {
        return Err(Fault::Output);
    }
    Ok(())
}

/// Writes a line for the order, and one for the points where there are any.
///
/// # Errors
///
/// `Output` where the writer failed, and then a first part of the lines went out.
pub fn write_verdicts<W: Write>(writer: &mut W, verdicts: Verdicts) -> Result<(), Fault>
    ensures { IsWrittenOr Fault.Output result (W.contents writer.old) (W.contents writer.new) (verdicts_text verdicts) }
{
    if write_lines(writer, verdicts).is_err() || writer.flush().is_err() {
        return Err(Fault::Output);
    }
    Ok(())
}
