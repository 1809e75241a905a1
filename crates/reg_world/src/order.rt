//! The one order of casts, and the reads beside it.
use reg_base::{Op, OpId, Stamp};

/// The first delivery of a cast anywhere.
#[derive(Clone, Copy, Debug, PartialEq, Eq)]
pub struct First {
    pub stamp: Stamp,
    pub id: OpId,
    pub op: Op,
    /// The number of the event that first delivered it, from 0.
    pub at: u32,
}

/// A finished read that was answered from a copy.
#[derive(Clone, Copy, Debug, PartialEq, Eq)]
pub struct CopyRead {
    pub id: OpId,
    /// How many casts the copy had delivered when it was read.
    pub place: u64,
}
