//! What is written of a verdict.
ghost use Rattle.std.specs.Prelude.{◌≡◌, IfOk, is_some, string_bytes, true};
ghost use Rattle.reg_judge.specs.Answers.{answer_text};
ghost use Rattle.reg_judge.specs.Reported.{Says};
ghost use Rattle.reg_observed.specs.Commands.{IsAnswer};

use crate::details::details;
use crate::faults::JudgeFault;
use crate::heard::Heard;
use crate::judging::Verdict;
use crate::reports::report_of;
use reg_judge::{TextOrReport, yes_or_no};
use std::alloc::{AllocError, Allocator, Global};

/// Whether the verdict has a point order.
pub(crate) fn has_points<A: Allocator + Copy>(verdict: &Verdict<A>) -> bool
    ensures { result ≡ is_some verdict.now.points }
{
    verdict.points.is_some()
}

/// The text of a verdict: a first word, and then lines for a person.
fn text_of<A: Allocator + Copy>(
    global: Global,
    heard: &Heard,
    verdict: &Verdict<A>,
) -> Result<String, AllocError>
    ensures { IfOk result (λ s. Says (is_some verdict.now.points) (string_bytes s)) }
{
    let more = details(global, heard, verdict)?;
    let mut text = String::from_str(global, yes_or_no(has_points(verdict)))?;
    text.push_str(more.as_str())?;
    Ok(text)
}

/// The answer where a report is asked for.
fn answer_by_report(
    global: Global,
    heard: &Heard,
    verdict: Verdict<Global>,
) -> Result<TextOrReport<Global>, JudgeFault>
    ensures { IfOk result (λ a. IsAnswer true verdict (answer_text a)) }
{
    if !has_points(&verdict) {
        return Ok(TextOrReport::Text(text_of(global, heard, &verdict)?));
    }
    let Verdict {
        history,
        points,
        ..
    } = verdict;
    match points {
        Some(points) => Ok(TextOrReport::Report(report_of(global, history, points)?)),
        None => unreachable!(),
    }
}

/// What is written of a verdict: where `report` is true and there is a point order, the report of the history, and else
/// a text.
pub(crate) fn answer_of(
    global: Global,
    heard: &Heard,
    verdict: Verdict<Global>,
    report: bool,
) -> Result<TextOrReport<Global>, JudgeFault>
    ensures { IfOk result (λ a. IsAnswer report verdict (answer_text a)) }
{
    if report {
        answer_by_report(global, heard, verdict)
    } else {
        Ok(TextOrReport::Text(text_of(global, heard, &verdict)?))
    }
}
