//! Logs put into one order.
ghost use Rattle.std.specs.Prelude.{◌≡◌, ◌≤◌, IfErr, IfOk, MatchOption, length};
ghost use Rattle.reg_base.specs.Lists.{lists};
ghost use Rattle.reg_records.specs.Records.{NothingLeft};
ghost use Rattle.reg_records.specs.Merges.{IsFirstLeft, IsGreatest, IsMergeFault};

use crate::entries::LogEntry;
use crate::placing::Placing;
use reg_base::Shape;
use reg_base::limits::MOST_EVENTS;
use reg_front::FrontEnd;
use reg_world::WireStore;
use std::alloc::{AllocError, Allocator};
use thiserror::Error;

/// Why logs have no order. `OutOfMemory` may stand in place of any other.
#[derive(Clone, Copy, Debug, PartialEq, Eq, Error)]
pub enum MergeFault {
    /// The entry of this process at this place of its log, from 0, is none that its process makes after those before
    /// it, or it has another reply: it is in no run of first entries of the logs.
    #[error("process {process}: entry {place}: unfaithful")]
    Other { process: u8, place: u64 },
    /// The logs have more entries than a run can have.
    #[error("too many entries")]
    TooMany,
    /// There was no memory.
    #[error("out of memory")]
    OutOfMemory,
}

impl From<AllocError> for MergeFault {
    ghost use Rattle.std.specs.Prelude.{◌≡◌};
    ghost use Rattle.reg_records.specs.declared.merging.MergeFault.TheVariants.{OutOfMemory};

    ghost from_gives = { λ _ fault. fault ≡ OutOfMemory };

    fn from(_error: AllocError) -> MergeFault {
        Self::OutOfMemory
    }
}

/// The first entry that is left of a log: its process, and its place in the log, from 0.
#[derive(Clone, Copy, Debug, PartialEq, Eq)]
pub struct Left {
    pub process: u8,
    pub place: u64,
}

/// An order of entries, and what it leaves out.
#[derive(Debug, Drop)]
pub struct Merged<A: Allocator + Copy> {
    /// The processes of the entries in their order: the k-th mention of a process stands for the k-th entry of its
    /// log.
    pub order: Vec<u8, A>,
    /// The first entry that is left of the first log with one. It takes a frame that was not put before it in any run
    /// of first entries of the logs.
    pub left: Option<Left>,
}

/// A greatest order of first entries of the logs that is a run: no run of first entries of them has more of any log. So
/// if any order of all of them is a run, it is one. The logs are those of the processes of the shape, each in its own
/// order.
///
/// # Errors
///
/// `Other` names an entry that no run of first entries of the logs has, though one has all entries before it in its
/// log; `TooMany`; and `OutOfMemory`.
pub fn merge<F: FrontEnd, A: Allocator + Copy, W: WireStore<A>>(
    alloc: A,
    shape: Shape,
    logs: &[Vec<LogEntry, A>],
) -> Result<Merged<A>, MergeFault>
    requires { length logs.now ≡ shape.processes }
    ensures greatest { IfOk result (λ m. IsGreatest F.start shape (lists logs.now) m.order.items) }
    ensures left { IfOk result
        (λ m. MatchOption m.left (NothingLeft m.order.items (lists logs.now))
        (λ l. IsFirstLeft (lists logs.now) m.order.items l.process l.place)) }
    ensures fault { IfErr result (λ f. IsMergeFault F.start shape (lists logs.now) f) }
{
    let mut placing: Placing<F, A, W> = Placing::new(alloc, shape)?;
    for _round in 0..MOST_EVENTS + 1 {
        if !placing.go_further(logs)? {
            let left = placing.first_left(logs);
            let order = placing.into_order();
            return Ok(Merged { order, left });
        }
    }
    // (each round places an entry, and a run has no more of them)
    Err(MergeFault::TooMany)
}
