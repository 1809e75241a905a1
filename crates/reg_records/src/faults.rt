//! Why a record is refused, and why a world is not brought to rest.
use thiserror::Error;

/// Why a record is refused: the first of these that applies. `OutOfMemory` may stand in place of any other, and where
/// none applies.
#[derive(Clone, Copy, Debug, PartialEq, Eq, Error)]
pub enum CloseFault {
    /// The order and the logs are no run from this place of the order on, counted from 0. The place after the last says
    /// that some log has an entry left.
    #[error("unfaithful {place}")]
    Unfaithful { place: u64 },
    /// This process is the first whose receipts aren't just its finished operations, in order.
    #[error("mismatch {process}")]
    Mismatch { process: u8 },
    /// There was no memory.
    #[error("out of memory")]
    OutOfMemory,
}

/// Why a world is not brought to rest.
#[derive(Clone, Copy, Debug, PartialEq, Eq, Error)]
pub enum SettleFault {
    /// The world stopped earlier: it was out of memory.
    #[error("failed")]
    Failed,
    /// The world has all the events that it may have.
    #[error("too many events")]
    TooManyEvents,
    /// There was no memory for an event: the world has stopped.
    #[error("out of memory")]
    OutOfMemory,
}
