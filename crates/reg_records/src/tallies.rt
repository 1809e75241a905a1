//! How often each process was mentioned.
ghost use Rattle.std.specs.Prelude.{◌≡◌, ◌<◌, ◌+◌, ◌^◌, ℕ, length, slice_index, vec_len, IfOk, false, ◌↔◌};
ghost use Rattle.reg_base.specs.Lists.{lists};
ghost use Rattle.reg_records.specs.Records.{NothingLeft, entry_of};
ghost use Rattle.reg_records.specs.Playing.{AreTallied};

use crate::entries::LogEntry;
use std::alloc::{AllocError, Allocator};

/// The counts of the given number of processes, none of which was mentioned yet.
pub fn no_counts<A: Allocator + Copy>(
    alloc: A,
    processes: usize,
) -> Result<Vec<usize, A>, AllocError>
    ensures zero { IfOk result (λ v. (p : ℕ) → slice_index v.items p ≡ 0) }
    ensures len { IfOk result (λ v. vec_len v ≡ processes) }
{
    let mut counts = Vec::new(alloc);
    for _p in 0..processes {
        counts.push(0)?;
    }
    Ok(counts)
}

/// Counts one more mention.
pub fn bump<A: Allocator + Copy>(counts: &mut Vec<usize, A>, order: &[u8], place: usize)
    requires within { place < length order.now }
    requires fits { place + 1 < 2 ^ 64 }
    requires tallied { AreTallied counts.old.items order.now place }
    ensures tallied { AreTallied counts.new.items order.now (place + 1) }
    ensures len { vec_len counts.new ≡ vec_len counts.old }
{
    let process = usize::from(order[place]);
    if process < counts.len() {
        counts[process] += 1;
    }
}

/// The entry of a process's log at this place.
pub fn entry_at<A: Allocator + Copy>(
    logs: &[Vec<LogEntry, A>],
    process: usize,
    at: usize,
) -> Option<LogEntry>
    ensures { result ≡ entry_of (lists logs.now) process at }
{
    let log = logs.get(process)?;
    log.get(at).copied()
}

/// Whether some log has an entry that the order doesn't mention.
pub(crate) fn is_left<A: Allocator + Copy>(
    counts: &[usize],
    order: &[u8],
    logs: &[Vec<LogEntry, A>],
) -> bool
    requires tallied { AreTallied counts.now order.now (length order.now) }
    requires len { length counts.now ≡ length logs.now }
    ensures { (result ≡ false) ↔ NothingLeft order.now (lists logs.now) }
{
    for process in 0..logs.len() {
        if entry_at(logs, process, counts[process]).is_some() {
            return true;
        }
    }
    false
}
