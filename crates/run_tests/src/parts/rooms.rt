//! The room in chapters, as worked by hand.
use crate::demands::demand_same;
use reg_base::Shape;
use reg_node::{NoRoom, Room, room_in};

/// The processes and registers, at how many operations and entries the chapter is to end, and its room.
type Row = (u32, u32, Option<u64>, Option<u64>, Result<Room, NoRoom>);

macro_rules! room {
    ($operations:expr, $total:expr, $entries:expr, $ahead:expr) => {
        Ok(Room {
            operations: $operations,
            total: $total,
            entries: $entries,
            ahead: $ahead,
        })
    };
}

macro_rules! bad_operations {
    () => {
        Err(NoRoom::BadOperations {
            least: 3,
            most: 65_535,
        })
    };
}

macro_rules! bad_entries {
    () => {
        Err(NoRoom::BadEntries {
            least: 39,
            most: 1_048_537,
        })
    };
}

/// With three processes an operation brings 13 entries, and one of each process 39; with 64 it brings 8,065, and one of
/// each 516,160.
const ROOMS: &[Row] = &[
    (3, 2, None, None, room!(65_000, 786_432, 262_144, 6_721)),
    (1, 1, None, None, room!(65_000, 786_432, 786_432, 262_144)),
    (64, 2, None, None, room!(65_000, 532_416, 8_319, 1)),
    (3, 2, Some(3), None, room!(3, 786_432, 262_144, 6_721)),
    (
        3,
        2,
        Some(65_535),
        None,
        room!(65_535, 786_432, 262_144, 6_721),
    ),
    (3, 2, Some(2), None, bad_operations!()),
    (3, 2, Some(65_536), None, bad_operations!()),
    (3, 2, None, Some(39), room!(65_000, 39, 13, 26_885)),
    (
        3,
        2,
        None,
        Some(1_048_537),
        room!(65_000, 1_048_537, 349_512, 1),
    ),
    (3, 2, None, Some(38), bad_entries!()),
    (3, 2, None, Some(1_048_538), bad_entries!()),
    (3, 2, Some(2), Some(38), bad_operations!()),
    (
        64,
        66,
        None,
        None,
        Err(NoRoom::NoBeginning {
            least: 540_355,
            most: 532_416,
        }),
    ),
];

#[test]
fn rooms_are_as_worked_by_hand(rt: HostRuntime) {
    for row in ROOMS {
        let (processes, registers, operations, entries, told) = *row;
        let shape = Shape::new(processes, registers).expect(&rt, "a shape");
        demand_same(&rt, row, &room_in(shape, operations, entries), &told);
    }
}
