//! Reports, and their texts.
ghost use Rattle.std.specs.Prelude.{◌≡◌, ◌↔◌, ◌⊎◌, ◌-◌, ◌^◌, ◌<◌, ◌≤◌, ℕ, length, Some, IfOk, IfErr, MatchOption};
ghost use Rattle.std.specs.Prelude.{MatchResult, IsTrue, option_map, slice_get, string_bytes};
ghost use Rattle.reg_text.specs.Writing.{Puts, IsWrittenOr};
ghost use Rattle.reg_checkers.specs.declared.entries.Entry.{Entry};
ghost use Rattle.reg_history.specs.Refusals.{IsFirstWrong, RefusesReportLine};
ghost use Rattle.reg_history.specs.Stops.{EntryHasValue, IsFailure};
ghost use Rattle.reg_history.specs.declared.report_faults.ReadWhy.{ReadWhy as Why};
ghost use Rattle.reg_history.specs.declared.versions.Version.{Version};
ghost use Rattle.reg_history.specs.declared.versions.Version.TheVariants.{Three};
ghost use Rattle.reg_history.specs.Reports.{lines_in, report_text, IsReport, IsReportIn, IsReportFault, InRange};
ghost use Rattle.reg_history.specs.Reports.{PointsFit, SpellsReport, Contents};

use crate::items::all_fit;
use crate::parts::{is_front, read_head, read_history, read_lists};
use crate::report_faults::{ReadFault, ReadWhy, ReportFault, WriteFault, at_line};
use crate::report_limits::{MOST_ENTRIES, MOST_IDS};
use crate::versions::{Version, version_for};
use crate::write::{put_count, put_entries, put_head, put_ids, put_line, put_tail};
use reg_base::limits::MOST_PROCESSES;
use reg_base::{Names, OpId, Shape};
use reg_checkers::{Entry, History, Point};
use reg_text::{Lines, Sink};
use std::alloc::{Allocator, Global};
use std::io::Write;
use std::marker::Model;

/// A history with the name of a front end, a name for each register, a list of operations as its order, and points or
/// none. That the list is a serial order, or the points a point order, is not promised: `check_serial` and
/// `check_points` judge it.
#[derive(Drop)]
pub struct Report<A: Allocator + Copy = Global> {
    front: String<A>,
    names: Names<A>,
    history: History<A>,
    order: Vec<OpId, A>,
    points: Option<Vec<Point, A>>,
}

impl<A: Allocator + Copy> Model for Report<A> {
    ghost use Rattle.std.specs.Prelude.{option_map, string_bytes};
    ghost use Rattle.reg_history.specs.Reports.{Contents, IsReport};

    ghost Value = { Contents };

    ghost view = { λ r.
        record {
          front = string_bytes r.front;
          shape = r.history.shape;
          names = r.names;
          entries = r.history.entries;
          order = r.order.items;
          points = option_map (λ v. v.items) r.points;
        } };

    ghost invariant = { λ r. IsReport
        (record {
          front = string_bytes r.front;
          shape = r.history.shape;
          names = r.names;
          entries = r.history.entries;
          order = r.order.items;
          points = option_map (λ v. v.items) r.points;
        }) };
}

fn points_fit<A: Allocator + Copy>(points: &Option<Vec<Point, A>>) -> bool
    ensures { IsTrue result ↔ PointsFit Three (option_map (λ v. v.items) points.now) }
{
    match points {
        Some(points) => points.len() <= MOST_IDS as usize
            && all_fit(points.as_slice(), Version::Three),
        None => true,
    }
}

fn is_in_range<A: Allocator + Copy>(
    entries: &[Entry],
    order: &[OpId],
    points: &Option<Vec<Point, A>>,
) -> bool
    ensures { IsTrue result ↔ InRange Three entries.now order.now (option_map (λ v. v.items) points.now) }
{
    entries.len() <= MOST_ENTRIES as usize
        && order.len() <= MOST_IDS as usize
        && all_fit(order, Version::Three)
        && points_fit(points)
}

// The value of every entry has 64 bits. It does nothing: its contract says so.
fn value_has_bits(entry: Entry)
    ensures { EntryHasValue entry }
{}

fn values_have_bits(entries: &[Entry])
    ensures { (k : ℕ) (e : Entry) → slice_get entries.now k ≡ Some e → EntryHasValue e }
{
    for entry in entries {
        value_has_bits(*entry);
    }
}

// Every shape has a process, and not too many. It does nothing: its contract says so.
fn processes_fit(shape: Shape)
    ensures some { 0 < shape.processes }
    ensures few { shape.processes ≤ MOST_PROCESSES }
{}

/// The fault of parts that are no report.
fn parts_fault<A: Allocator + Copy>(
    front: &str,
    names: &Names<A>,
    history: &History<A>,
    order: &[OpId],
    points: &Option<Vec<Point, A>>,
) -> Option<ReportFault>
    ensures { let parts : Contents = record {
      front = front.now;
      shape = history.now.shape;
      names = names.now;
      entries = history.now.entries;
      order = order.now;
      points = option_map (λ v. v.items) points.now;
    } in
        MatchOption result (IsReport parts) (λ fault. IsReportFault parts fault) }
{
    if !is_front(front.as_bytes()) {
        return Some(ReportFault::Front);
    }
    let shape = history.shape();
    if names.count() != shape.registers() as usize {
        return Some(ReportFault::Names);
    }
    if !is_in_range(history.entries(), order, points) {
        return Some(ReportFault::Range);
    }
    processes_fit(shape);
    values_have_bits(history.entries());
    None
}

impl<A: Allocator + Copy> Report<A> {
    /// A report of these parts.
    ///
    /// # Errors
    ///
    /// `Front` where `front` isn't one word of 1 to 16 letters a to z or hyphens; else `Names` where there are not as
    /// many names as the history has registers; else `Range` where the history has more than `MOST_ENTRIES` entries, a
    /// list more than `MOST_IDS` elements, or an id or a point is beyond the limits of a report.
    pub fn new(
        front: String<A>,
        names: Names<A>,
        history: History<A>,
        order: Vec<OpId, A>,
        points: Option<Vec<Point, A>>,
    ) -> Result<Report<A>, ReportFault>
        ensures { let parts : Contents = record {
          front = string_bytes front;
          shape = history.shape;
          names = names;
          entries = history.entries;
          order = order.items;
          points = option_map (λ v. v.items) points;
        } in
            MatchResult result (λ r. (r ≡ parts) × IsReport parts) (λ fault. IsReportFault parts fault) }
    {
        if let Some(fault) = parts_fault(
            front.as_str(),
            &names,
            &history,
            order.as_slice(),
            &points,
        ) {
            return Err(fault);
        }
        Ok(Report {
            front,
            names,
            history,
            order,
            points,
        })
    }

    /// The report with this order, and these points or none, in place of its own.
    ///
    /// # Errors
    ///
    /// `Range` where a list has more than `MOST_IDS` elements, or an id or a point is beyond the limits of a report.
    pub fn with_lists(
        self,
        order: Vec<OpId, A>,
        points: Option<Vec<Point, A>>,
    ) -> Result<Report<A>, ReportFault>
        ensures report { IsReport self }
        ensures lists { let parts : Contents = record {
          front = self.front;
          shape = self.shape;
          names = self.names;
          entries = self.entries;
          order = order.items;
          points = option_map (λ v. v.items) points;
        } in
            MatchResult result (λ r. (r ≡ parts) × IsReport parts) (λ fault. IsReportFault parts fault) }
    {
        let Report {
            front,
            names,
            history,
            order: _order,
            points: _points,
        } = self;
        Report::new(front, names, history, order, points)
    }

    /// The name of the front end.
    pub fn front(&self) -> &str
        ensures { result.now ≡ self.now.front }
    {
        self.front.as_str()
    }

    /// The names of the registers.
    pub fn names(&self) -> &Names<A>
        ensures { result.now ≡ self.now.names }
    {
        &self.names
    }

    /// The history. The report that it stands in is within the limits.
    pub fn history(&self) -> &History<A>
        ensures shape { result.now.shape ≡ self.now.shape }
        ensures entries { result.now.entries ≡ self.now.entries }
        ensures report { IsReport self.now }
    {
        &self.history
    }

    /// The order of the operations.
    pub fn order(&self) -> &[OpId]
        ensures { result.now ≡ self.now.order }
    {
        self.order.as_slice()
    }

    /// The points, None where the report has no list of them.
    pub fn points(&self) -> Option<&[Point]>
        ensures { option_map (λ p. p.now) result ≡ self.now.points }
    {
        match &self.points {
            Some(points) => Some(points.as_slice()),
            None => None,
        }
    }
}

/// The report of these lines.
fn read_lines<A: Allocator + Copy>(alloc: A, lines: &mut Lines<'_>) -> Result<Report<A>, ReadFault>
    ensures read { IfOk result
        (λ r. (version : Version) × IsReportIn version r × (lines.old.left ≡ lines_in version r)) }
    ensures whole { (version : Version) (r : Contents) → IsReportIn version r → lines.old.left ≡ lines_in version r
        → MatchResult result (λ w. w ≡ r) (λ f. f ≡ ReadFault.OutOfMemory) }
    ensures stopped { IfErr result (IsFailure IsFirstWrong lines.old) }
{
    let (version, front, processes, names) = read_head(alloc, lines)?;
    let Ok(shape) = Shape::new(processes, names.count() as u32) else {
        return Err(at_line(lines, ReadWhy::Range));
    };
    let history = read_history(alloc, lines, shape, &names, version)?;
    let (order, points) = read_lists(alloc, lines, version)?;
    Ok(Report {
        front,
        names,
        history,
        order,
        points,
    })
}

/// The report that the text spells in one of its versions, with or without its last line feed.
///
/// # Errors
///
/// `Line` names the first line that is wrong, and what is wrong with it; `OutOfMemory` says that what was read could
/// not be kept.
pub fn read_report<A: Allocator + Copy>(alloc: A, text: &str) -> Result<Report<A>, ReadFault>
    ensures read { IfOk result (λ r. SpellsReport text.now r) }
    ensures good { IfOk result (λ r. IsReport r) }
    ensures whole { (r : Contents) → SpellsReport text.now r
        → MatchResult result (λ w. w ≡ r) (λ f. f ≡ ReadFault.OutOfMemory) }
    ensures line { length text.now < 2 ^ 64 - 1
        → IfErr result
        (λ f. (f ≡ ReadFault.OutOfMemory)
        ⊎ ((number : ℕ) × (why : Why) × (f ≡ ReadFault.Line number why) × RefusesReportLine number why text.now)) }
{
    let mut lines = Lines::new(text.as_bytes());
    read_lines(alloc, &mut lines)
}

fn put_report<A: Allocator + Copy, W: Write>(sink: &mut Sink<'_, W>, report: &Report<A>)
    ensures { Puts W.contents sink.old sink.new (report_text report.now) }
{
    let processes = report.history.shape().processes();
    let entries = report.history.entries();
    let order = report.order.as_slice();
    let version = version_for(entries);
    put_line(sink, version.line(), "");
    put_head(sink, report.front.as_str(), processes, &report.names);
    put_count(sink, "history ", entries.len());
    put_entries(sink, &report.names, entries);
    put_count(sink, "order ", order.len());
    put_ids(sink, order);
    put_tail(sink, &report.points);
}

/// Writes the text of a report: in version 3 where it has a compare-and-swap, and else in version 2.
///
/// # Errors
///
/// `Write` where the writer failed: what went out before is a first part of the text.
pub fn write_report<A: Allocator + Copy, W: Write>(
    writer: &mut W,
    report: &Report<A>,
) -> Result<(), WriteFault>
    ensures { IsWrittenOr WriteFault.Write result (W.contents writer.old) (W.contents writer.new)
        (report_text report.now) }
{
    let mut sink = Sink::new(writer);
    put_report(&mut sink, report);
    if sink.failed {
        return Err(WriteFault::Write);
    }
    Ok(())
}
