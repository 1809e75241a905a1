//! Why a process refuses an event.
use thiserror::Error;

/// Why an event is refused: of those that apply, the first in this order. The last two stop the process for good, and
/// any other leaves it as it was.
#[derive(Clone, Copy, Debug, PartialEq, Eq, Error)]
pub enum ProcessFault {
    /// The process has stopped for good.
    #[error("failed")]
    Failed,
    /// The sender is out of range or the process itself; in `new`, the shape doesn't have the process.
    #[error("no process")]
    NoProcess,
    /// An operation is called while another one runs.
    #[error("busy")]
    Busy,
    /// The operation that is called, or that of an expected cast, names a register past the last.
    #[error("no register")]
    NoRegister,
    /// The process has called `limits::MOST_OPERATIONS` operations.
    #[error("too many operations")]
    TooManyOperations,
    /// A count of accepted frames is above the number of the next body.
    #[error("ahead")]
    Ahead,
    /// The time of an expected body is not above that of the last body from its sender.
    #[error("stale")]
    Stale,
    /// The clock would pass its last time, `limits::LAST_TIME`.
    #[error("clock full")]
    ClockFull,
    /// Memory was refused.
    #[error("out of memory")]
    OutOfMemory,
}
