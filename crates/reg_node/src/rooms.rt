//! The room in a chapter: what ends it, so that it comes to rest within the limits of a run.
ghost use Rattle.std.specs.Prelude.{◌≡◌, ◌<◌, ◌≤◌, IfErr, IfOk};
ghost use Rattle.reg_node.specs.Rooms.{HasRoom, IsNoRoom, cost as cost_of, entries_of, least_entries, most_entries};
ghost use Rattle.reg_node.specs.Rooms.{operations_of, round_cost as round_cost_of};

use reg_base::Shape;
use reg_base::limits::{MOST_EVENTS, MOST_OPERATIONS};
use thiserror::Error;

/// The operations of a process at which a chapter usually ends.
const USUAL_OPERATIONS: u64 = 65_000;
/// The entries of all logs together at which a chapter usually ends, if a cluster leaves room for them.
const USUAL_ENTRIES: u64 = 786_432;

/// What one process has of a chapter.
#[derive(Clone, Copy, Debug, PartialEq, Eq)]
pub struct Room {
    /// Once it has called so many operations, the chapter ends.
    pub operations: u64,
    /// Once the logs of all could have so many entries together, too.
    pub total: u64,
    /// That is once its log has so many.
    pub entries: u64,
    /// While so many of its casts aren't delivered at itself, it calls nothing that is cast.
    pub ahead: u64,
}

/// Why a chapter has no room: the first of these that applies, with the least and the greatest number that there can
/// be.
#[derive(Clone, Copy, Debug, PartialEq, Eq, Error)]
pub enum NoRoom {
    /// It needs more entries to begin than it has.
    #[error("no room to begin: {least} entries of {most}")]
    NoBeginning { least: u64, most: u64 },
    /// It can't end at so many operations.
    #[error("operations can be {least} to {most}")]
    BadOperations { least: u64, most: u64 },
    /// It can't end at so many entries.
    #[error("entries can be {least} to {most}")]
    BadEntries { least: u64, most: u64 },
}

/// The entries that an operation which is cast brings about.
fn cost(processes: u32) -> u64
    requires { processes ≤ 64 }
    ensures value { result ≡ cost_of processes }
    ensures within { result ≤ 8065 }
{
    if processes == 0 {
        return 1;
    }
    let processes = u64::from(processes);
    1 + 2 * (processes * (processes - 1))
}

/// The entries that one operation of each process brings about.
fn round_cost(shape: Shape) -> u64
    ensures value { result ≡ round_cost_of shape.processes }
    ensures some { 0 < result }
    ensures within { result ≤ 516160 }
{
    u64::from(shape.processes()) * cost(shape.processes())
}

/// The fewest entries that a chapter can have.
fn fewest(shape: Shape) -> u64
    ensures value { result ≡ least_entries shape }
{
    (u64::from(shape.registers()) + 1) * cost(shape.processes())
}

/// The most entries that a chapter can have.
fn most(shape: Shape) -> u64
    ensures value { result ≡ most_entries shape }
{
    MOST_EVENTS as u64 - round_cost(shape)
}

/// The room that a chapter has, if it ends at so many operations of a process, or at so many entries of all logs
/// together. Where none are given, they are the usual ones.
pub fn room_in(shape: Shape, operations: Option<u64>, entries: Option<u64>) -> Result<Room, NoRoom>
    ensures room { IfOk result (HasRoom shape (operations_of operations) (entries_of shape entries)) }
    ensures none { IfErr result (IsNoRoom shape (operations_of operations) (entries_of shape entries)) }
{
    let least = fewest(shape);
    let most = most(shape);
    if least > most {
        return Err(NoRoom::NoBeginning { least, most });
    }
    let operations = operations.unwrap_or(USUAL_OPERATIONS);
    let registers = u64::from(shape.registers());
    if operations <= registers || operations > MOST_OPERATIONS as u64 {
        return Err(NoRoom::BadOperations {
            least: registers + 1,
            most: MOST_OPERATIONS as u64,
        });
    }
    let entries = entries.unwrap_or(USUAL_ENTRIES.min(most).max(least));
    if entries < least || entries > most {
        return Err(NoRoom::BadEntries { least, most });
    }
    Ok(Room {
        operations,
        total: entries,
        entries: entries / u64::from(shape.processes()),
        ahead: (MOST_EVENTS as u64 - entries) / round_cost(shape),
    })
}
