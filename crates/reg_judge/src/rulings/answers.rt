//! What is answered of a report.
ghost use Rattle.std.specs.Prelude.{◌≡◌, IfOk, string_bytes, true};
ghost use Rattle.std.specs.Result.{is_ok};
ghost use Rattle.reg_text.specs.Writing.{IsWrittenOr};
ghost use Rattle.reg_judge.specs.Answers.{answer_text};
ghost use Rattle.reg_judge.specs.Reported.{IsPointed, IsReportAnswer, Says, word_of};
ghost use Rattle.reg_judge.specs.Rulings.{found_in};

use crate::rulings::details::details;
use crate::rulings::faults::RuleFault;
use crate::rulings::reported::Judgement;
use crate::rulings::search::Sought;
use reg_checkers::{Point, ids_of_points};
use reg_commands::{Fault, write_answer, write_out};
use reg_history::Report;
use std::alloc::{AllocError, Allocator};
use std::io::Write;

/// What is answered of a history.
#[derive(Drop)]
pub enum TextOrReport<A: Allocator + Copy> {
    /// A first word, and then lines for a person.
    Text(String<A>),
    /// The report with the points that were found.
    Report(Report<A>),
}

/// The first word of an answer, with its line feed.
pub fn yes_or_no(found: bool) -> &'static str
    ensures { result.now ≡ word_of found }
{
    if found { "yes\n" } else { "no\n" }
}

/// Whether a point order was found.
pub(crate) fn has_order<A: Allocator + Copy>(sought: &Sought<A>) -> bool
    ensures { result ≡ is_ok (found_in sought.now) }
{
    match sought {
        Sought::Points(_) => true,
        Sought::None { place: _ } => false,
    }
}

/// The text of what was found out: a first word, and then lines for a person.
fn text_of<A: Allocator + Copy>(
    alloc: A,
    report: &Report<A>,
    judgement: &Judgement<A>,
) -> Result<String<A>, AllocError>
    ensures { IfOk result (λ s. Says (is_ok (found_in judgement.now.sought)) (string_bytes s)) }
{
    let more = details(alloc, report, judgement)?;
    let mut text = String::from_str(alloc, yes_or_no(has_order(&judgement.sought)))?;
    text.push_str(more.as_str())?;
    Ok(text)
}

/// The report with these points, which are its order too.
fn pointed<A: Allocator + Copy>(
    alloc: A,
    report: Report<A>,
    points: Vec<Point, A>,
) -> Result<Report<A>, RuleFault>
    ensures { IfOk result (IsPointed report points.items) }
{
    let order = ids_of_points(alloc, &points)?;
    report
        .with_lists(order, Some(points))
        .map_err(|_| RuleFault::NoReport)
}

/// The answer where a report is asked for.
fn answer_by_report<A: Allocator + Copy>(
    alloc: A,
    report: Report<A>,
    judgement: Judgement<A>,
) -> Result<TextOrReport<A>, RuleFault>
    ensures { IfOk result (λ a. IsReportAnswer true report (found_in judgement.sought) (answer_text a)) }
{
    if !has_order(&judgement.sought) {
        return Ok(TextOrReport::Text(text_of(alloc, &report, &judgement)?));
    }
    let Judgement { sought, .. } = judgement;
    match sought {
        Sought::Points(points) => Ok(TextOrReport::Report(pointed(alloc, report, points)?)),
        Sought::None { place: _ } => unreachable!(),
    }
}

/// What is answered of a report: where `as_report` is true and there is a point order, the report with its points, and
/// else a text.
pub(crate) fn answer_of<A: Allocator + Copy>(
    alloc: A,
    report: Report<A>,
    judgement: Judgement<A>,
    as_report: bool,
) -> Result<TextOrReport<A>, RuleFault>
    ensures { IfOk result (λ a. IsReportAnswer as_report report (found_in judgement.sought) (answer_text a)) }
{
    if as_report {
        answer_by_report(alloc, report, judgement)
    } else {
        Ok(TextOrReport::Text(text_of(alloc, &report, &judgement)?))
    }
}

/// Writes an answer, to the last byte.
pub fn write_text_or_report<A: Allocator + Copy, W: Write>(
    writer: &mut W,
    answer: &TextOrReport<A>,
) -> Result<(), Fault>
    ensures { IsWrittenOr Fault.Output result (W.contents writer.old) (W.contents writer.new) (answer_text answer.now) }
{
    match answer {
        TextOrReport::Text(text) => write_answer(writer, text.as_bytes()),
        TextOrReport::Report(report) => write_out(writer, report),
    }
}
