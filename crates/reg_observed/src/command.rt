//! The command that judges a history.
ghost use Rattle.std.specs.Prelude.{◌≡◌, ◌≢◌, ◌≤◌, ◌⊎◌, IfErr, IfOk, IfSome, OnOk, length, string_bytes, true, false};
ghost use Rattle.std.specs.Io.KnownBytes.{Appends};
ghost use Rattle.reg_base.specs.declared.limits.TheConstants.{LONGEST_INPUT};
ghost use Rattle.reg_judge.specs.Answers.{answer_text};
ghost use Rattle.reg_observed.specs.Commands.{IsAnyJudged, IsJudgedAs, IsJudgedText};
ghost use Rattle.reg_observed.specs.declared.command.CommandFault.{CommandFault as AnyFault};

use crate::answers::{answer_of, has_points};
use crate::faults::JudgeFault;
use crate::flags::JudgeFlags;
use crate::judging::judge;
use crate::reading::read_history;
use reg_commands::{Fault, Kind, Refusal, TextCommand, kind_of, read_input};
use reg_judge::{JudgeReport, RuleFault, RulingFault, TextOrReport, write_text_or_report};
use reg_text::write_bytes;
use std::alloc::{AllocError, Allocator, Global};
use std::io::{Read, Write};

/// Why a history is not judged by the command.
#[derive(Clone, Copy, Debug, PartialEq, Eq)]
pub enum CommandFault {
    /// The input is refused, or the output failed.
    Command { fault: Fault },
    /// The history is refused.
    Refused { fault: JudgeFault },
    /// The report is read, and nothing is said of its history.
    Rule { fault: RuleFault },
}

impl From<Fault> for CommandFault {
    ghost use Rattle.reg_observed.specs.declared.command.CommandFault.TheVariants.{Command};

    ghost from_gives = { λ fault told. told ≡ Command fault };

    fn from(fault: Fault) -> CommandFault {
        CommandFault::Command { fault }
    }
}

impl From<JudgeFault> for CommandFault {
    ghost use Rattle.reg_observed.specs.declared.command.CommandFault.TheVariants.{Refused};

    ghost from_gives = { λ fault told. told ≡ Refused fault };

    fn from(fault: JudgeFault) -> CommandFault {
        CommandFault::Refused { fault }
    }
}

impl From<RulingFault> for CommandFault {
    ghost use Rattle.std.specs.Prelude.{◌≡◌};
    ghost use Rattle.reg_observed.specs.Faults.{of_ruling};

    ghost from_gives = { λ fault told. told ≡ of_ruling fault };

    fn from(fault: RulingFault) -> CommandFault {
        match fault {
            RulingFault::Command { fault } => CommandFault::Command { fault },
            RulingFault::Rule { fault } => CommandFault::Rule { fault },
        }
    }
}

/// What a text of JSON lines or of EDN comes to, and what is written of that.
fn judged(
    global: Global,
    flags: JudgeFlags<'_>,
    text: &str,
) -> Result<(bool, TextOrReport<Global>), JudgeFault>
    ensures { IfOk result (λ p. IsJudgedText flags.entry p.0 (λ answer. answer ≡ answer_text p.1) text.now) }
{
    let mut heard = read_history(global, text)?;
    let verdict = judge(global, global, &mut heard, flags.first)?;
    // (for the proof: that no word has two numbers)
    heard.words.processes.count_distinct();
    heard.words.keys.count_distinct();
    heard.words.values.count_distinct();
    let found = has_points(&verdict);
    let answer = answer_of(global, &heard, verdict, flags.report)?;
    Ok((found, answer))
}

/// Judges lines of JSON or EDN, and writes what was found out. The answer is whether there is a point order.
fn answer_lines<W: Write>(
    global: Global,
    flags: JudgeFlags<'_>,
    text: &str,
    writer: &mut W,
) -> Result<bool, CommandFault>
    ensures ok { IfOk result
        (λ found. IsJudgedText flags.entry found (Appends (W.contents writer.old) (W.contents writer.new)) text.now) }
    ensures silent { IfErr result (λ f. f ≢ CommandFault.Command Fault.Output → writer.new ≡ writer.old) }
{
    let judged = judged(global, flags, text)?;
    write_text_or_report(writer, &judged.1)?;
    Ok(judged.0)
}

/// Judges a report, and writes what was found out. The answer is whether there is a point order.
fn answer_report<W: Write>(
    global: Global,
    flags: JudgeFlags<'_>,
    text: String,
    writer: &mut W,
) -> Result<bool, CommandFault>
    ensures ok { IfOk result
        (λ found. IsJudgedAs Kind.Report flags.entry found (Appends (W.contents writer.old) (W.contents writer.new))
        (string_bytes text)) }
    ensures silent { IfErr result (λ f. f ≢ CommandFault.Command Fault.Output → writer.new ≡ writer.old) }
{
    if flags.first.is_some() {
        return Err(CommandFault::from(JudgeFault::FirstOfReport));
    }
    let command = JudgeReport {
        as_report: flags.report,
    };
    Ok(command.answer(global, text, writer)?)
}

/// Judges a text by its kind, and writes what was found out. The answer is whether there is a point order.
fn answer<W: Write>(
    global: Global,
    flags: JudgeFlags<'_>,
    text: String,
    writer: &mut W,
) -> Result<bool, CommandFault>
    ensures ok { IfOk result
        (λ found. IsAnyJudged flags.entry found (Appends (W.contents writer.old) (W.contents writer.new))
        (string_bytes text)) }
    ensures silent { IfErr result (λ f. f ≢ CommandFault.Command Fault.Output → writer.new ≡ writer.old) }
{
    match kind_of(text.as_bytes()) {
        Kind::Report => answer_report(global, flags, text, writer),
        Kind::Schedule | Kind::Workload => answer_lines(global, flags, text.as_str(), writer),
    }
}

fn obey<R: Read, W: Write>(
    global: Global,
    flags: JudgeFlags<'_>,
    reader: &mut R,
    writer: &mut W,
) -> Result<bool, CommandFault>
    ensures ok { IfOk result
        (λ found. IfSome (R.remaining reader.old)
        (IsAnyJudged flags.entry found (Appends (W.contents writer.old) (W.contents writer.new)))) }
    ensures within { OnOk result (IfSome (R.remaining reader.old) (λ xs. length xs ≤ LONGEST_INPUT)) }
    ensures silent { IfErr result (λ f. f ≢ CommandFault.Command Fault.Output → writer.new ≡ writer.old) }
{
    let text = read_input(global, reader)?;
    answer(global, flags, text, writer)
}

/// The line of a refused history.
fn refused_line(global: Global, fault: JudgeFault) -> Result<String, AllocError> {
    format!(in global; "refused: {fault}\n")
}

fn write_refused<E: Write>(global: Global, errors: &mut E, fault: CommandFault) {
    match fault {
        CommandFault::Command { fault } => {
            let _ = write_bytes(errors, b"refused: ");
            let _ = fault.write_line(errors);
        }
        CommandFault::Rule { fault } => {
            let _ = write_bytes(errors, b"refused: ");
            let _ = RulingFault::from(fault).write_line(errors);
        }
        CommandFault::Refused { fault } => match refused_line(global, fault) {
            Ok(line) => {
                let _ = write_bytes(errors, line.as_bytes());
            }
            Err(_) => {
                let _ = write_bytes(errors, b"refused: out of memory\n");
            }
        },
    }
}

/// Judges the history on the reader, a report, lines of JSON or EDN: it reads the whole input, and writes one text once
/// all is found out. Its first line is `yes` where the history has a point order, and `no` where it has none; then come
/// lines for a person, of which no clause speaks. Where the flags ask for a report and there is a point order, the text
/// is that report. The answer is the status: 0 for a yes, and 1 for a no; or for a refusal, of which `errors` is told
/// by a line that begins with `refused: `, or where the writer failed, and then a first part of the text went out.
pub fn judge_text<R: Read, W: Write, E: Write>(
    global: Global,
    flags: JudgeFlags<'_>,
    reader: &mut R,
    writer: &mut W,
    errors: &mut E,
) -> u8
    ensures range { result ≤ 1 }
    ensures within { result ≡ 0 → IfSome (R.remaining reader.old) (λ xs. length xs ≤ LONGEST_INPUT) }
    ensures found { result ≡ 0
        → IfSome (R.remaining reader.old)
        (IsAnyJudged flags.entry true (Appends (W.contents writer.old) (W.contents writer.new))) }
    ensures none { result ≡ 1
        → (IfSome (R.remaining reader.old)
        (IsAnyJudged flags.entry false (Appends (W.contents writer.old) (W.contents writer.new)))
        × (errors.new ≡ errors.old))
        ⊎ ((f : AnyFault) × (f ≢ CommandFault.Command Fault.Output → writer.new ≡ writer.old)) }
    ensures quiet { result ≡ 0 → errors.new ≡ errors.old }
{
    match obey(global, flags, reader, writer) {
        Ok(true) => 0,
        Ok(false) => 1,
        Err(fault) => {
            write_refused(global, errors, fault);
            1
        }
    }
}
