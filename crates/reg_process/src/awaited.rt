//! What the operation that runs at a process waits for.
use reg_base::{Op, Stamp};

/// What a running operation waits for.
#[derive(Clone, Copy, Debug, PartialEq, Eq)]
pub enum Awaited {
    /// That its own cast is delivered here.
    Cast { stamp: Stamp, op: Op },
    /// That every own cast is delivered here.
    Settling { op: Op },
}
