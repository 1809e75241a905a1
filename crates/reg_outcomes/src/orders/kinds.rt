//! Which order of a history is looked for.

/// Which order of a history is looked for.
#[derive(Clone, Copy, Debug, PartialEq, Eq)]
pub enum OrderKind {
    /// A serial order (sequential consistency, Lamport 1979).
    Serial,
    /// A point order (linearizability, Herlihy and Wing 1990).
    Points,
}
