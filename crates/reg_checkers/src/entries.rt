//! The lines of a history, and points.
use reg_base::{Answer, Op, OpId};

/// A call or an answer, with the number of its event.
#[derive(Clone, Copy, Debug, PartialEq, Eq)]
pub enum Entry {
    /// The operation was called.
    Called { at: u32, id: OpId, op: Op },
    /// The operation was answered.
    Answered { at: u32, id: OpId, answer: Answer },
}

/// An operation with the event at which it is said to take effect: its linearization point.
#[derive(Clone, Copy, Debug, PartialEq, Eq)]
pub struct Point {
    pub id: OpId,
    /// The number of the event.
    pub at: u32,
}
