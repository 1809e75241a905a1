//! When a cast was made, and by which process.
ghost use Rattle.std.specs.Prelude.{◌≡◌};
ghost use Rattle.reg_base.specs.Stamp.{stamp_cmp};

use crate::memory::Op;
use std::cmp::Ordering;

/// The time of a cast at the clock of the process that made it, and that process. Stamps are totally ordered: by time,
/// and equal times by process (Lamport 1978).
#[derive(Clone, Copy, Debug, PartialEq, Eq, PartialOrd, Ord)]
pub struct Stamp {
    /// The time of the caster's clock.
    pub time: u64,
    /// The caster.
    pub process: u8,
}

impl Stamp {
    /// How the stamp compares with another one: by time, and equal times by process.
    pub fn order(&self, other: &Stamp) -> Ordering
        ensures { result ≡ stamp_cmp self.now other.now }
    {
        self.cmp(other)
    }
}

/// A cast that a process delivers: its stamp and its operation.
#[derive(Clone, Copy, Debug, PartialEq, Eq)]
pub struct Delivered {
    /// The stamp of the cast.
    pub stamp: Stamp,
    /// The operation that was cast.
    pub op: Op,
}
