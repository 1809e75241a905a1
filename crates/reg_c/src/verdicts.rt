//! The checkers, over histories and orders that the caller lends.
ghost use Rattle.std.specs.Prelude.{◌≡◌, IfOk, map};
ghost use Rattle.reg_c.specs.Rows.{id_of, point_of};
ghost use Rattle.reg_c.specs.Verdicts.{IsSerialVerdict, IsPointVerdict, fault_code, fault_place, unread_code};
ghost use Rattle.reg_c.specs.Verdicts.{unread_place, verdict_code, verdict_place};

use crate::reading::{Size, Unread, read};
use crate::rows::{EntryRow, IdRow, PointRow, id, point};
use reg_base::OpId;
use reg_checkers::{CheckFault, Point, check_points, check_serial};
use std::alloc::{AllocError, Global};

/// What is told of an order.
#[derive(Clone, Copy)]
pub enum Verdict {
    /// It is a serial order, or a point order, as was asked.
    Holds,
    /// It isn't, for this first fault.
    Refused { fault: CheckFault },
    /// The rows say no history.
    NoHistory { why: Unread },
}

/// The operations that the rows say.
fn ids_of(alloc: Global, rows: &[IdRow]) -> Result<Vec<OpId>, AllocError>
    ensures { IfOk result (λ v. v.items ≡ map id_of rows.now) }
{
    rows.iter().map(|row| id(row)).collect(alloc)
}

/// The points that the rows say.
fn points_of(alloc: Global, rows: &[PointRow]) -> Result<Vec<Point>, AllocError>
    ensures { IfOk result (λ v. v.items ≡ map point_of rows.now) }
{
    rows.iter().map(|row| point(row)).collect(alloc)
}

/// Judges an order of a history.
pub fn judge_serial(
    alloc: Global,
    size: Size,
    entries: &[EntryRow],
    expected: &[u64],
    ids: &[IdRow],
) -> Verdict
    ensures { IsSerialVerdict size.processes size.registers entries.now expected.now ids.now result }
{
    let history = match read(alloc, size, entries, expected) {
        Ok(history) => history,
        Err(why) => return Verdict::NoHistory { why },
    };
    // (for the proof: by this getter's contract the history is one, each entry in place)
    history.entries();
    let Ok(ids) = ids_of(alloc, ids) else {
        let why = Unread::OutOfMemory;
        return Verdict::NoHistory { why };
    };
    match check_serial(alloc, &history, &ids) {
        Ok(()) => Verdict::Holds,
        Err(fault) => Verdict::Refused { fault },
    }
}

/// Judges points of a history.
pub fn judge_points(
    alloc: Global,
    size: Size,
    entries: &[EntryRow],
    expected: &[u64],
    points: &[PointRow],
) -> Verdict
    ensures { IsPointVerdict size.processes size.registers entries.now expected.now points.now result }
{
    let history = match read(alloc, size, entries, expected) {
        Ok(history) => history,
        Err(why) => return Verdict::NoHistory { why },
    };
    // (for the proof: by this getter's contract the history is one, each entry in place)
    history.entries();
    let Ok(points) = points_of(alloc, points) else {
        let why = Unread::OutOfMemory;
        return Verdict::NoHistory { why };
    };
    match check_points(alloc, &history, &points) {
        Ok(()) => Verdict::Holds,
        Err(fault) => Verdict::Refused { fault },
    }
}

fn code_of_check(fault: CheckFault) -> (u32, usize)
    ensures { (result.0 ≡ fault_code fault) × (result.1 ≡ fault_place fault) }
{
    match fault {
        CheckFault::Unknown => (1, 0),
        CheckFault::Twice => (2, 0),
        CheckFault::Missing => (3, 0),
        CheckFault::OwnOrder => (4, 0),
        CheckFault::Answer { place } => (5, place),
        CheckFault::Outside { place } => (6, place),
        CheckFault::Falling { place } => (7, place),
        CheckFault::OutOfMemory => (8, 0),
    }
}

fn code_of_unread(why: Unread) -> (u32, usize)
    ensures { (result.0 ≡ unread_code why) × (result.1 ≡ unread_place why) }
{
    match why {
        Unread::OutOfMemory => (8, 0),
        Unread::NoShape => (9, 0),
        Unread::OutOfPlace { place } => (10, place),
    }
}

/// The number of a verdict, and the place that it names, else 0.
pub fn code_of_verdict(verdict: Verdict) -> (u32, usize)
    ensures { (result.0 ≡ verdict_code verdict) × (result.1 ≡ verdict_place verdict) }
{
    match verdict {
        Verdict::Holds => (0, 0),
        Verdict::Refused { fault } => code_of_check(fault),
        Verdict::NoHistory { why } => code_of_unread(why),
    }
}
