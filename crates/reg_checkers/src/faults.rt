//! Why something is refused.
use std::fmt;
use thiserror::Error;

/// What is wrong with an order of operations: the first of these that holds. A place counts from 0. `OwnOrder` is a
/// fault of serial orders alone, `Outside` and `Falling` of point orders alone.
#[derive(Clone, Copy, Debug, PartialEq, Eq, Error)]
pub enum CheckFault {
    /// Some id is neither that of a finished operation nor that of a called write or swap.
    Unknown,
    /// Some id stands twice.
    Twice,
    /// Some finished operation isn't there.
    Missing,
    /// Some operation stands after one of its process with a larger number.
    OwnOrder,
    /// The operation at this place, the first such, has another answer than the memory gives after those before it.
    Answer { place: usize },
    /// The point at this place, the first such, is before the call or after the answer.
    Outside { place: usize },
    /// The point at this place, the first such, is below the one before it.
    Falling { place: usize },
    /// There was no memory to check it. This says nothing of the order.
    OutOfMemory,
}

impl fmt::Display for CheckFault {
    ghost use Rattle.std.specs.Prelude.{Some};
    ghost use Rattle.reg_checkers.specs.FaultTexts.{check_text};

    ghost output = { λ fault. Some (check_text fault) };

    fn fmt<W: fmt::Write>(&self, f: &mut fmt::Formatter<W>) -> fmt::Result {
        match *self {
            CheckFault::Unknown => f.write_str("unknown"),
            CheckFault::Twice => f.write_str("twice"),
            CheckFault::Missing => f.write_str("missing"),
            CheckFault::OwnOrder => f.write_str("own order"),
            CheckFault::Answer { place } => write!(f, "answer {place}"),
            CheckFault::Outside { place } => write!(f, "outside {place}"),
            CheckFault::Falling { place } => write!(f, "falling {place}"),
            CheckFault::OutOfMemory => f.write_str("out of memory"),
        }
    }
}

/// Why an entry is not taken into a history: the first of these that applies. The history is as it was then.
#[derive(Clone, Copy, Debug, PartialEq, Eq, Error)]
pub enum HistoryFault {
    /// The entry may not come next. A call may, where its process runs nothing, its number is its process's next and
    /// below `limits::MOST_OPERATIONS`, and the shape has its process and its register. An answer may, where its
    /// operation runs, and some memory gives it. Each comes at a later event than all entries before it, up to
    /// `limits::LAST_EVENT`; only an answer may be of the same event as its own call.
    #[error("out of place")]
    OutOfPlace,
    /// There was no memory for it.
    #[error("out of memory")]
    OutOfMemory,
}
