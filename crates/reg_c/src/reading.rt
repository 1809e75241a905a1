//! Histories that a caller lends as rows.
ghost use Rattle.std.specs.Prelude.{◌≡◌, ◌⊎◌, ◌++◌, ◌∷◌, [], Some, MatchOption, MatchResult, slice_get};
ghost use Rattle.reg_checkers.specs.History.{IsHistory, IsInPlace};
ghost use Rattle.reg_checkers.specs.declared.entries.Entry.{Entry};
ghost use Rattle.reg_c.specs.Rows.{Say, entry_of};
ghost use Rattle.reg_c.specs.Verdicts.{IsUnread};

use crate::rows::{EntryRow, entry};
use reg_base::Shape;
use reg_checkers::{History, HistoryFault};
use std::alloc::Global;

/// Why rows say no history.
#[derive(Clone, Copy)]
pub enum Unread {
    /// There is no shape of these numbers of processes and registers.
    NoShape,
    /// The row at this place says no entry, or one that is out of place: the first such row.
    OutOfPlace { place: usize },
    /// Memory was refused.
    OutOfMemory,
}

/// How many processes and registers a history has, as its caller says.
#[derive(Clone, Copy)]
pub struct Size {
    pub processes: u32,
    pub registers: u32,
}

/// Adds the entry that a row says, with the value that it expects, if there is one.
fn add(
    history: &mut History,
    row: &EntryRow,
    expected: Option<u64>,
    place: usize,
) -> Result<(), Unread>
    ensures ok { MatchResult result
        (λ _. (e : Entry) × (entry_of row.now expected ≡ Some e)
        × (history.new.entries ≡ history.old.entries ++ e ∷ []))
        (λ why. (why ≡ Unread.OutOfMemory)
        ⊎ ((why ≡ Unread.OutOfPlace place)
        × IsHistory history.old.shape.processes history.old.shape.registers history.old.entries
        × MatchOption (entry_of row.now expected) (Unit {0})
        (λ e. ¬ IsInPlace history.old.shape.processes history.old.shape.registers history.old.entries e))) }
    ensures shape { history.new.shape ≡ history.old.shape }
{
    // (for the proof: by this getter's contract the history is one, each entry in place)
    history.entries();
    let Some(entry) = entry(row, expected) else {
        return Err(Unread::OutOfPlace { place });
    };
    match history.push(entry) {
        Ok(()) => Ok(()),
        Err(HistoryFault::OutOfPlace) => Err(Unread::OutOfPlace { place }),
        Err(HistoryFault::OutOfMemory) => Err(Unread::OutOfMemory),
    }
}

/// The expected value at a place, if there is one.
fn expected_at(expected: &[u64], place: usize) -> Option<u64>
    ensures { result ≡ slice_get expected.now place }
{
    expected.get(place).copied()
}

/// The history that the rows say, each with the expected value that stands at the same place, if there is one.
pub fn read(
    alloc: Global,
    size: Size,
    rows: &[EntryRow],
    expected: &[u64],
) -> Result<History, Unread>
    ensures { MatchResult result
        (λ h. (h.shape ≡ record { processes = size.processes; registers = size.registers })
        × Say rows.now expected.now h.entries)
        (λ why. IsUnread size.processes size.registers rows.now expected.now why) }
{
    let Ok(shape) = Shape::new(size.processes, size.registers) else {
        return Err(Unread::NoShape);
    };
    let Ok(mut history) = History::new(alloc, shape) else {
        return Err(Unread::OutOfMemory);
    };
    for (place, row) in rows.iter().enumerate() {
        match add(&mut history, row, expected_at(expected, place), place) {
            Ok(()) => {}
            Err(why) => return Err(why),
        }
    }
    Ok(history)
}
