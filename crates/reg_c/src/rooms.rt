//! The room of a chapter, by numbers.
ghost use Rattle.std.specs.Prelude.{◌≡◌};
ghost use Rattle.reg_node.specs.Rooms.{entries_of, operations_of};
ghost use Rattle.reg_c.specs.RoomRows.{TellsRoom, TellsRoomOf, given as given_by, no_room_code, with_limits};

use crate::codes::NO_SHAPE;
use reg_base::Shape;
use reg_node::{NoRoom, room_in};

/// What one process has of a chapter, or which numbers there can be.
#[repr(C)]
#[derive(Clone, Copy)]
pub struct RoomRow {
    /// Once it has called so many operations, the chapter ends.
    pub operations: u64,
    /// Once the logs of all could have so many entries together, too.
    pub total: u64,
    /// That is once its log has so many.
    pub entries: u64,
    /// While so many of its casts aren't delivered at itself, it calls nothing that is cast.
    pub ahead: u64,
    /// If there is no room: the least number that there can be of what the refusal says.
    pub least: u64,
    /// And the greatest.
    pub most: u64,
}

/// The number, if there is one.
fn given(number: u64) -> Option<u64>
    ensures { result ≡ given_by number }
{
    if number == u64::MAX {
        None
    } else {
        Some(number)
    }
}

/// Why there is no room, as a number, and the numbers that there can be.
fn refuse(fault: NoRoom, row: &mut RoomRow) -> u32
    ensures code { result ≡ no_room_code fault }
    ensures row { row.new ≡ with_limits row.old fault }
{
    let (code, least, most) = match fault {
        NoRoom::NoBeginning { least, most } => (81, least, most),
        NoRoom::BadOperations { least, most } => (82, least, most),
        NoRoom::BadEntries { least, most } => (83, least, most),
    };
    row.least = least;
    row.most = most;
    code
}

/// Tells the room in chapters of this shape.
fn tell_room(shape: Shape, operations: u64, entries: u64, row: &mut RoomRow) -> u32
    ensures { TellsRoomOf shape (operations_of (given_by operations)) (entries_of shape (given_by entries)) row.old
        row.new result }
{
    match room_in(shape, given(operations), given(entries)) {
        Ok(room) => {
            row.operations = room.operations;
            row.total = room.total;
            row.entries = room.entries;
            row.ahead = room.ahead;
            0
        }
        Err(fault) => refuse(fault, row),
    }
}

/// Tells the room in chapters of so many processes and registers that end at so many operations of a process, or at so
/// many entries of all logs together; `u64::MAX` stands for the usual number. If the result isn't 0 and there is such a
/// shape, it says what there is no room for, and the row tells which numbers there can be.
#[unsafe(no_mangle)]
pub extern "C" fn tellwydar_room(
    processes: u32,
    registers: u32,
    operations: u64,
    entries: u64,
    row: &mut RoomRow,
) -> u32
    ensures { TellsRoom processes registers operations entries row.old row.new result }
{
    match Shape::new(processes, registers) {
        Ok(shape) => tell_room(shape, operations, entries, row),
        Err(_) => NO_SHAPE,
    }
}
