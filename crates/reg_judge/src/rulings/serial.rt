//! Whether a history has a serial order.
ghost use Rattle.std.specs.Prelude.{IfOk};
ghost use Rattle.reg_judge.specs.Rulings.{RulesSerial};

use reg_checkers::History;
use reg_outcomes::{InterleavingFault, find_serial};
use std::alloc::{AllocError, Allocator};

/// The most stages to which as many operations lead that a search for a serial order keeps. It is small, since where
/// there is no point order such a search soon grows wide.
pub const MOST_SERIAL_STAGES: u32 = 50_000;

/// The most stages times the entries, in a search for a serial order.
const SERIAL_WORK: u64 = 4_000_000;

/// Whether a history has a serial order.
#[derive(Clone, Copy, Debug, PartialEq, Eq)]
pub enum Serial {
    /// It has one.
    Yes,
    /// It has none.
    No,
    /// A process goes on after a call whose end nobody knows, or there are more than `limits::MOST_PROCESSES`.
    Unjudged,
    /// The search grew too wide.
    TooWide,
}

/// The most stages, to which as many operations lead, in a search for a serial order of so many entries. So the search
/// keeps no more stages in all than its work is: as many as may be of up to 80 entries, and of more entries fewer.
fn most_serial_stages(entries: usize) -> u32 {
    let most = SERIAL_WORK / (entries as u64).max(1);
    most.min(u64::from(MOST_SERIAL_STAGES)) as u32
}

/// Whether a history has a serial order.
pub fn seek_serial<A: Allocator + Copy>(
    alloc: A,
    history: &History<A>,
) -> Result<Serial, AllocError>
    ensures { IfOk result (RulesSerial history.now.shape.registers history.now.entries) }
{
    match find_serial(alloc, history, most_serial_stages(history.entries().len())) {
        Ok(Some(_)) => Ok(Serial::Yes),
        Ok(None) => Ok(Serial::No),
        Err(InterleavingFault::TooManyStages) => Ok(Serial::TooWide),
        Err(InterleavingFault::OutOfMemory) => Err(AllocError),
    }
}
