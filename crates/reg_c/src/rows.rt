//! Entries, ids and points as C lays them out.
ghost use Rattle.std.specs.Prelude.{◌≡◌, option_map};
ghost use Rattle.reg_checkers.specs.declared.entries.Entry.{Entry};
ghost use Rattle.reg_c.specs.Rows.{entry_of, id_of, operation_of, point_of};

use reg_base::{Answer, Op, OpId};
use reg_checkers::{Entry, Point};

/// An entry of a history.
#[repr(C)]
#[derive(Clone, Copy)]
pub struct EntryRow {
    /// The value of a write, of a swap, of a compare-and-swap or of an answer; of others it isn't looked at.
    pub value: u64,
    /// The number of its event.
    pub at: u32,
    /// The number of the operation among those of its process.
    pub number: u32,
    /// The register of a call; of an answer it isn't looked at.
    pub register: u16,
    /// The process of the operation.
    pub process: u8,
    /// 0, 1, 2 and 5 for the call of a read, a write, a swap and a compare-and-swap; 3 for the answer Done, 4 for the
    /// answer with a value, 6 for the answer Unequal.
    pub kind: u8,
}

/// An operation: its number among those of its process.
#[repr(C)]
#[derive(Clone, Copy)]
pub struct IdRow {
    pub number: u32,
    pub process: u8,
}

/// An operation's point: the number of an event.
#[repr(C)]
#[derive(Clone, Copy)]
pub struct PointRow {
    pub at: u32,
    pub number: u32,
    pub process: u8,
}

/// The entry that a row says, with the value that it expects, if there is one. None where it is of no kind, and where
/// it is a compare-and-swap without an expected value.
pub fn entry(row: &EntryRow, expected: Option<u64>) -> Option<Entry>
    ensures { result ≡ entry_of row.now expected }
{
    let EntryRow {
        value,
        at,
        number,
        register,
        process,
        kind,
    } = *row;
    let id = OpId { process, number };
    match kind {
        0 => Some(called(at, id, Op::Read { register })),
        1 => Some(called(at, id, Op::Write { register, value })),
        2 => Some(called(at, id, Op::Swap { register, value })),
        3 => Some(answered(at, id, Answer::Done)),
        4 => Some(answered(at, id, Answer::Value(value))),
        5 => compare_and_swap(row, expected),
        6 => Some(answered(at, id, Answer::Unequal)),
        _ => None,
    }
}

/// The call of a compare-and-swap, None where there is no expected value.
fn compare_and_swap(row: &EntryRow, expected: Option<u64>) -> Option<Entry>
    ensures { result
        ≡ option_map
        (λ e. Entry.Called row.now.at (operation_of row.now) (Op.CompareAndSwap row.now.register e row.now.value))
        expected }
{
    let EntryRow {
        value,
        at,
        number,
        register,
        process,
        kind: _,
    } = *row;
    let expected = expected?;
    let op = Op::CompareAndSwap {
        register,
        expected,
        value,
    };
    Some(called(at, OpId { process, number }, op))
}

fn called(at: u32, id: OpId, op: Op) -> Entry
    ensures { result ≡ Entry.Called at id op }
{
    Entry::Called { at, id, op }
}

fn answered(at: u32, id: OpId, answer: Answer) -> Entry
    ensures { result ≡ Entry.Answered at id answer }
{
    Entry::Answered { at, id, answer }
}

/// The operation that a row says.
pub fn id(row: &IdRow) -> OpId
    ensures { result ≡ id_of row.now }
{
    OpId {
        process: row.process,
        number: row.number,
    }
}

/// The point that a row says.
pub fn point(row: &PointRow) -> Point
    ensures { result ≡ point_of row.now }
{
    Point {
        id: OpId {
            process: row.process,
            number: row.number,
        },
        at: row.at,
    }
}
