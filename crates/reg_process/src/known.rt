//! What a process tells of another one.

/// What a process knows of another one, and keeps for it.
#[derive(Clone, Copy, Debug, PartialEq, Eq)]
pub struct Known {
    /// The time of the last body accepted from it, 0 where there was none.
    pub seen: u64,
    /// The number of the next body from it.
    pub expected: u64,
    /// The number of the first body to it that it hasn't acknowledged.
    pub first: u64,
    /// The number of the next body to it.
    pub next: u64,
}
