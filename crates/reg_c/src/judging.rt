//! The checkers, over histories and orders that the caller lends.
ghost use Rattle.std.specs.Prelude.{◌≡◌, []};
ghost use Rattle.reg_c.specs.declared.verdicts.Verdict.{Verdict};
ghost use Rattle.reg_c.specs.Verdicts.{IsSerialVerdict, IsPointVerdict, verdict_code, verdict_place};

use crate::reading::Size;
use crate::rows::{EntryRow, IdRow, PointRow};
use crate::verdicts::{code_of_verdict, judge_points, judge_serial};
use std::alloc::Global;

/// Says of an order of the history by a number: 0 that it is serial, 8 that memory was refused, 9 and 10 that the rows
/// say no history, and any other its first fault. The place is that of the fault or the row, else 0. A row of a
/// compare-and-swap says no entry here, since it has no expected value.
#[unsafe(no_mangle)]
pub extern "C" fn tellwydar_check_serial(
    alloc: Global,
    processes: u32,
    registers: u32,
    entries: &[EntryRow],
    ids: &[IdRow],
    place: &mut usize,
) -> u32
    ensures { (verdict : Verdict) × IsSerialVerdict processes registers entries.now [] ids.now verdict
        × (result ≡ verdict_code verdict) × (place.new ≡ verdict_place verdict) }
{
    let size = Size {
        processes,
        registers,
    };
    let (code, found) = code_of_verdict(judge_serial(alloc, size, entries, &[], ids));
    *place = found;
    code
}

/// Says of points of the history by a number: 0 that they are a point order, 8 that memory was refused, 9 and 10 that
/// the rows say no history, and any other their first fault. The place is that of the fault or the row, else 0. A row
/// of a compare-and-swap says no entry here, since it has no expected value.
#[unsafe(no_mangle)]
pub extern "C" fn tellwydar_check_points(
    alloc: Global,
    processes: u32,
    registers: u32,
    entries: &[EntryRow],
    points: &[PointRow],
    place: &mut usize,
) -> u32
    ensures { (verdict : Verdict) × IsPointVerdict processes registers entries.now [] points.now verdict
        × (result ≡ verdict_code verdict) × (place.new ≡ verdict_place verdict) }
{
    let size = Size {
        processes,
        registers,
    };
    let (code, found) = code_of_verdict(judge_points(alloc, size, entries, &[], points));
    *place = found;
    code
}

/// The same of a history with compare-and-swaps: what one expects stands at the place of its row, and at the other
/// places any value.
#[unsafe(no_mangle)]
pub extern "C" fn tellwydar_check_serial_expecting(
    alloc: Global,
    processes: u32,
    registers: u32,
    entries: &[EntryRow],
    expected: &[u64],
    ids: &[IdRow],
    place: &mut usize,
) -> u32
    ensures { (verdict : Verdict) × IsSerialVerdict processes registers entries.now expected.now ids.now verdict
        × (result ≡ verdict_code verdict) × (place.new ≡ verdict_place verdict) }
{
    let size = Size {
        processes,
        registers,
    };
    let (code, found) = code_of_verdict(judge_serial(alloc, size, entries, expected, ids));
    *place = found;
    code
}

/// The same of points of a history with compare-and-swaps.
#[unsafe(no_mangle)]
pub extern "C" fn tellwydar_check_points_expecting(
    alloc: Global,
    processes: u32,
    registers: u32,
    entries: &[EntryRow],
    expected: &[u64],
    points: &[PointRow],
    place: &mut usize,
) -> u32
    ensures { (verdict : Verdict) × IsPointVerdict processes registers entries.now expected.now points.now verdict
        × (result ≡ verdict_code verdict) × (place.new ≡ verdict_place verdict) }
{
    let size = Size {
        processes,
        registers,
    };
    let (code, found) = code_of_verdict(judge_points(alloc, size, entries, expected, points));
    *place = found;
    code
}
