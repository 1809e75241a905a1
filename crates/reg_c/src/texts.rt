//! The commands over memory that the caller lends.
ghost use Rattle.std.specs.Prelude.{◌≡◌, ◌==◌, not, Some, option_copied, true, false};
ghost use Rattle.std.specs.Str.{IsUtf8};
ghost use Rattle.reg_commands.specs.declared.command.Command.{Command};
ghost use Rattle.reg_observed.specs.declared.flags.JudgeFlags.{JudgeFlags as AnyFlags};
ghost use Rattle.reg_c.specs.Texts.{IsJudgement, Tells, TellsJudgement, TellsMerged, TellsStory, TellsVerdict};
ghost use Rattle.reg_c.specs.Texts.{judge_flags};

use reg_commands::{Command, Lengths, OverText, Response, tell};
use reg_observed::{JudgeFlags, judge_text};
use reg_verify::{Merge, Story, Verify};
use std::alloc::Global;
use std::str;

/// The command over a text, with the table of a document in the global heap.
fn over(global: Global, command: Command) -> OverText
    ensures same { result.command ≡ command }
{
    OverText { command, global }
}

/// Runs a schedule. The answer is the report of its run, and the status 0; or 1 with the line of a fault, or a first
/// part of it.
#[unsafe(no_mangle)]
pub extern "C" fn tellwydar_replay(
    alloc: Global,
    text: &[u8],
    output: &mut [u8],
    errors: &mut [u8],
    lengths: &mut Lengths,
) -> u8
    ensures { Tells Command.Replay text.now result output.old output.new errors.old errors.new lengths.new }
{
    tell(over(alloc, Command::Replay), alloc, text).put(output, errors, lengths)
}

/// Judges a report. The answer is the checkers' verdicts, and the status 0 where each says yes; or 1 where one says no,
/// or with the line of a fault or a first part of it, also where memory was refused.
#[unsafe(no_mangle)]
pub extern "C" fn tellwydar_check(
    alloc: Global,
    text: &[u8],
    output: &mut [u8],
    errors: &mut [u8],
    lengths: &mut Lengths,
) -> u8
    ensures { Tells Command.Check text.now result output.old output.new errors.old errors.new lengths.new }
{
    tell(over(alloc, Command::Check), alloc, text).put(output, errors, lengths)
}

/// Plays a workload as the words of its seed say. The answer is the report of the play, and the status 0; or 1 with the
/// line of a fault, or a first part of it.
#[unsafe(no_mangle)]
pub extern "C" fn tellwydar_play(
    alloc: Global,
    text: &[u8],
    output: &mut [u8],
    errors: &mut [u8],
    lengths: &mut Lengths,
) -> u8
    ensures { Tells (Command.Play false) text.now result output.old output.new errors.old errors.new lengths.new }
{
    let play = Command::Play { fair: false };
    tell(over(alloc, play), alloc, text).put(output, errors, lengths)
}

/// Plays a workload fairly. The answer is the report of the play, and the status 0; or 1 with the line of a fault, or a
/// first part of it.
#[unsafe(no_mangle)]
pub extern "C" fn tellwydar_play_fair(
    alloc: Global,
    text: &[u8],
    output: &mut [u8],
    errors: &mut [u8],
    lengths: &mut Lengths,
) -> u8
    ensures { Tells (Command.Play true) text.now result output.old output.new errors.old errors.new lengths.new }
{
    let play = Command::Play { fair: true };
    tell(over(alloc, play), alloc, text).put(output, errors, lengths)
}

/// Judges a record of processes that ran apart. The answer is the report of the run that it is, and the status 0; or 1
/// with the line of a fault, or a first part of it.
#[unsafe(no_mangle)]
pub extern "C" fn tellwydar_verify(
    alloc: Global,
    text: &[u8],
    output: &mut [u8],
    errors: &mut [u8],
    lengths: &mut Lengths,
) -> u8
    ensures { TellsVerdict text.now result output.old output.new errors.old errors.new lengths.new }
{
    tell(Verify, alloc, text).put(output, errors, lengths)
}

/// Puts the steps of a record into an order that is a run, those of each process in their own order. The answer is the
/// record of it, and the status 0; or 1 with the line of a fault, or a first part of it.
#[unsafe(no_mangle)]
pub extern "C" fn tellwydar_merge(
    alloc: Global,
    text: &[u8],
    output: &mut [u8],
    errors: &mut [u8],
    lengths: &mut Lengths,
) -> u8
    ensures { TellsMerged text.now result output.old output.new errors.old errors.new lengths.new }
{
    tell(Merge, alloc, text).put(output, errors, lengths)
}

/// Judges whether reports, one behind another, are one story. The answer is that they are, and the status 0; or the
/// first with which they go wrong, and the status 1; or 1 with the line of a fault, or a first part of it.
#[unsafe(no_mangle)]
pub extern "C" fn tellwydar_story(
    alloc: Global,
    text: &[u8],
    output: &mut [u8],
    errors: &mut [u8],
    lengths: &mut Lengths,
) -> u8
    ensures { TellsStory text.now result output.old output.new errors.old errors.new lengths.new }
{
    tell(Story, alloc, text).put(output, errors, lengths)
}

/// What the judge of histories tells of a text.
fn judged(global: Global, flags: JudgeFlags<'_>, text: &[u8]) -> Response<Global>
    ensures { IsJudgement flags.entry text.now result.status result.answer.items result.line.items }
{
    let mut reader = text;
    let mut answer = Vec::new(global);
    let mut line = Vec::new(global);
    let status = judge_text(global, flags, &mut reader, &mut answer, &mut line);
    Response {
        status,
        answer,
        line,
    }
}

/// Judges a history: lines of JSON, EDN or a report. The answer begins with yes where it has a point order, and the
/// status is 0; or with no where it has none, and the status is 1; or 1 with the line of a refusal, or a first part of
/// it. Where `report` isn't 0 and there is a point order, the answer is a report with the points that were found.
#[unsafe(no_mangle)]
pub extern "C" fn tellwydar_judge(
    alloc: Global,
    text: &[u8],
    report: u8,
    output: &mut [u8],
    errors: &mut [u8],
    lengths: &mut Lengths,
) -> u8
    ensures { TellsJudgement (judge_flags (not (report == 0))) text.now result output.old output.new errors.old
        errors.new lengths.new }
{
    let flags = JudgeFlags {
        first: None,
        report: report != 0,
    };
    judged(alloc, flags, text).put(output, errors, lengths)
}

/// The flags for this first value. Bytes that are no text are no value, as the empty text is none.
fn flags_from(first: &[u8], report: u8) -> JudgeFlags<'_>
    ensures first { IsUtf8 first.now → option_copied result.first ≡ Some first.now }
    ensures report { result.report ≡ not (report == 0) }
{
    let first = match str::from_utf8(first) {
        Ok(first) => first,
        Err(_) => "",
    };
    JudgeFlags {
        first: Some(first),
        report: report != 0,
    }
}

/// Judges a history of registers that begin with this value, as JSON has it. The rest is as of `tellwydar_judge`; a
/// report, whose registers begin with 0, is refused.
#[unsafe(no_mangle)]
pub extern "C" fn tellwydar_judge_from(
    alloc: Global,
    text: &[u8],
    first: &[u8],
    report: u8,
    output: &mut [u8],
    errors: &mut [u8],
    lengths: &mut Lengths,
) -> u8
    ensures { IsUtf8 first.now
        → (flags : AnyFlags) × (option_copied flags.first ≡ Some first.now) × (flags.report ≡ not (report == 0))
        × TellsJudgement flags text.now result output.old output.new errors.old errors.new lengths.new }
{
    judged(alloc, flags_from(first, report), text).put(output, errors, lengths)
}
