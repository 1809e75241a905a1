//! Whether reports in a row are one story.
ghost use Rattle.std.specs.Prelude.{◌≡◌, ◌<◌, ℕ, true, Some, IfOk, MatchOption, length};
ghost use Rattle.reg_checkers.specs.History.{IsAt};
ghost use Rattle.reg_history.specs.Reports.{Contents};
ghost use Rattle.reg_commands.specs.Verdicts.{is_yes_or_none};
ghost use Rattle.reg_verify.specs.Stories.{AreAlike, DiffersFirst, Follows, GoesOn, IsBreach, IsBreachBehind};
ghost use Rattle.reg_verify.specs.Stories.{IsRefused, IsRuling, Passes};

use crate::gathering::have_same_names;
use crate::stories::breaches::{Breach, ChapterPart, Ruling};
use crate::stories::openings::{unopened, values_after};
use reg_commands::{Reason, Verdict, judge};
use reg_history::Report;
use reg_node::opening_of;
use std::alloc::{AllocError, Allocator};

/// Why a verdict is a no.
fn reason_of(verdict: Verdict) -> Option<Reason>
    ensures { MatchOption result (verdict ≡ Verdict.Yes) (λ reason. verdict ≡ Verdict.No reason) }
{
    match verdict {
        Verdict::Yes => None,
        Verdict::No(reason) => Some(reason),
    }
}

/// Why the verdict on points is a no, where there is one.
fn points_reason(verdict: Option<Verdict>) -> Option<Reason>
    ensures { MatchOption result (is_yes_or_none verdict ≡ true) (λ reason. verdict ≡ Some (Verdict.No reason)) }
{
    match verdict {
        Some(verdict) => match verdict {
            Verdict::Yes => None,
            Verdict::No(reason) => Some(reason),
        },
        None => None,
    }
}

/// What `check` finds wrong with a report.
fn refused<A: Allocator + Copy>(alloc: A, report: &Report<A>) -> Result<Option<Breach>, AllocError>
    ensures { IfOk result (λ o. MatchOption o (Passes report.now) (λ breach. IsRefused report.now breach)) }
{
    let _history = report.history();
    let verdicts = judge(alloc, report)?;
    if let Some(reason) = reason_of(verdicts.serial) {
        return Ok(Some(Breach::Order { reason }));
    }
    if let Some(reason) = points_reason(verdicts.points) {
        return Ok(Some(Breach::Points { reason }));
    }
    Ok(None)
}

/// The first part in which a report differs from the one before it.
fn other_part<A: Allocator + Copy>(before: &Report<A>, report: &Report<A>) -> Option<ChapterPart>
    ensures { MatchOption result (AreAlike before.now report.now) (λ part. DiffersFirst before.now report.now part) }
{
    if before.front() != report.front() {
        return Some(ChapterPart::Front);
    }
    if before.history().shape().processes() != report.history().shape().processes() {
        return Some(ChapterPart::Processes);
    }
    if !have_same_names(before.names(), report.names()) {
        return Some(ChapterPart::Registers);
    }
    None
}

/// What is wrong with a report behind another one: the last of a row, or not.
fn breach_behind<A: Allocator + Copy>(
    alloc: A,
    before: &Report<A>,
    report: &Report<A>,
    last: bool,
) -> Result<Option<Breach>, AllocError>
    requires { Passes before.now }
    ensures { IfOk result
        (λ o. MatchOption o (Follows last before.now report.now)
        (λ breach. IsBreachBehind last before.now report.now breach)) }
{
    if let Some(part) = other_part(before, report) {
        return Ok(Some(Breach::Other { part }));
    }
    let values = values_after(alloc, before)?;
    let writes = opening_of(alloc, &values)?;
    unopened(alloc, report, &writes, last)
}

/// What is wrong with the report at this place.
fn breach_at<A: Allocator + Copy>(
    alloc: A,
    reports: &[Report<A>],
    place: usize,
) -> Result<Option<Breach>, AllocError>
    requires within { place < length reports.now }
    requires before { (k : ℕ) (r : Contents) → k < place → IsAt reports.now k r → Passes r }
    ensures { IfOk result
        (λ o. MatchOption o (GoesOn reports.now place) (λ breach. IsBreach reports.now place breach)) }
{
    let report = &reports[place];
    if let Some(breach) = refused(alloc, report)? {
        return Ok(Some(breach));
    }
    if place == 0 {
        return Ok(None);
    }
    breach_behind(
        alloc,
        &reports[place - 1],
        report,
        place + 1 == reports.len(),
    )
}

/// Whether reports in a row are one story, or the first one with which they go wrong.
///
/// # Errors
///
/// Memory was refused.
pub fn judge_story<A: Allocator + Copy>(
    alloc: A,
    reports: &[Report<A>],
) -> Result<Ruling, AllocError>
    requires { 0 < length reports.now }
    ensures { IfOk result (λ ruling. IsRuling reports.now ruling) }
{
    for place in 0..reports.len() {
        if let Some(breach) = breach_at(alloc, reports, place)? {
            return Ok(Ruling::Broken {
                chapter: place as u64,
                breach,
            });
        }
    }
    Ok(Ruling::Story {
        chapters: reports.len() as u64,
    })
}
