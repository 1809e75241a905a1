//! The command that judges a report from its text alone.
ghost use Rattle.std.specs.Prelude.{◌≡◌, ◌≢◌, IfOk, IfErr, IsErrOf, string_bytes};
ghost use Rattle.std.specs.Io.KnownBytes.{Appends};
ghost use Rattle.reg_history.specs.Reports.{Contents, IsReport, SpellsReport};
ghost use Rattle.reg_commands.specs.Verdicts.{Judges};
ghost use Rattle.reg_commands.specs.Answers.{AnswersInPart, Checks, Blames};

use crate::command::Command;
use crate::faults::Fault;
use crate::verdicts::{Verdicts, all_yes, judge, write_verdicts};
use reg_history::{ReadFault, Report, read_report};
use std::alloc::Allocator;
use std::io::Write;

/// The report that a text spells.
///
/// # Errors
///
/// `Line`, the first line that may not follow those before it; or `OutOfMemory`.
pub fn read_report_text<A: Allocator + Copy>(alloc: A, text: &str) -> Result<Report<A>, Fault>
    ensures read { IfOk result (λ r. SpellsReport text.now r × IsReport r) }
    ensures why { IfErr result (λ f. Blames Command.Check f text.now) }
    ensures kind { IfErr result (λ f. (f ≢ Fault.Output) × (f ≢ Fault.Unread)) }
{
    match read_report(alloc, text) {
        Ok(report) => Ok(report),
        Err(ReadFault::Line { line, why }) => Err(Fault::Line { line, why }),
        Err(ReadFault::OutOfMemory) => Err(Fault::OutOfMemory),
    }
}

/// What the checkers say of the report that a text spells.
fn checked<A: Allocator + Copy>(alloc: A, text: String<A>) -> Result<Verdicts, Fault>
    ensures ok { IfOk result (λ v. (r : Contents) × IsReport r × SpellsReport (string_bytes text) r × Judges r v) }
    ensures why { IfErr result (λ f. Blames Command.Check f (string_bytes text)) }
    ensures kind { IfErr result (λ f. (f ≢ Fault.Output) × (f ≢ Fault.Unread)) }
{
    let report = read_report_text(alloc, text.as_str())?;
    // The checkers don't need the text, which can take more memory than the report.
    drop(text);
    Ok(judge(alloc, &report)?)
}

/// Reads a report, and writes what the checkers say of it. The answer is whether every line says yes.
///
/// # Errors
///
/// Those of `read_report_text`; and `Output` where the writer failed, and then a first part went out.
pub fn check<A: Allocator + Copy, W: Write>(
    alloc: A,
    text: String<A>,
    writer: &mut W,
) -> Result<bool, Fault>
    ensures ok { IfOk result
        (λ agrees. Checks agrees (Appends (W.contents writer.old) (W.contents writer.new)) (string_bytes text)) }
    ensures why { IfErr result (λ f. Blames Command.Check f (string_bytes text)) }
    ensures silent { IfErr result (λ f. f ≢ Fault.Output → writer.new ≡ writer.old) }
    ensures part { IsErrOf result Fault.Output
        → AnswersInPart Command.Check (W.contents writer.old) (W.contents writer.new) (string_bytes text) }
    ensures kind { IfErr result (λ f. f ≢ Fault.Unread) }
{
    let verdicts = checked(alloc, text)?;
    write_verdicts(writer, verdicts)?;
    Ok(all_yes(verdicts))
}
