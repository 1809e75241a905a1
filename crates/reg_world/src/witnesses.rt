//! The order of a run, and its points, from what is kept of it.
ghost use Rattle.std.specs.Prelude.{◌≡◌, ◌≤◌, ◌++◌, ◌∷◌, [], if◌then◌else◌, IfOk, OnOk, map, drop, length};
ghost use Rattle.std.specs.List.{filter};
ghost use Rattle.reg_base.specs.declared.limits.TheConstants.{MOST_PROCESSES};
ghost use Rattle.reg_world.specs.Witnesses.{is_kept as is_kept_of, point_of, ranked_read, IsSortedFrom};
ghost use Rattle.reg_world.specs.Witnesses.{is_after as is_after_of, lost_of, lost_from, last_stamp as last_stamp_of};
ghost use Rattle.reg_world.specs.Witnesses.{upto, later, ids_of, merge, IsMerged};

use crate::callers::{Caller, is_done};
use crate::order::{CopyRead, First};
use reg_base::{OpId, Stamp};
use reg_checkers::Point;
use std::alloc::{AllocError, Allocator};

/// An operation with what it is sorted by first: a read with its place, or a cast with its time.
#[derive(Clone, Copy, Debug, PartialEq, Eq, PartialOrd, Ord)]
pub(crate) struct Ranked {
    pub rank: u64,
    pub id: OpId,
}

/// Whether a delivered cast stands in the order: it is an update, or finished.
fn is_kept<A: Allocator + Copy>(callers: &[Caller<A>], first: &First) -> bool
    ensures { result ≡ is_kept_of callers.now first.now }
{
    first.op.updates() || is_done(callers, first.id)
}

/// The kept casts, each at its first delivery.
pub(crate) fn points_of<A: Allocator + Copy>(
    alloc: A,
    order: &[First],
    callers: &[Caller<A>],
) -> Result<Vec<Point, A>, AllocError>
    ensures { IfOk result (λ v. v.items ≡ map point_of (filter (is_kept_of callers.now) order.now)) }
{
    let mut points = Vec::new(alloc);
    for first in order {
        if is_kept(callers, first) {
            points.push(Point {
                id: first.id,
                at: first.at,
            })?;
        }
    }
    Ok(points)
}

/// The reads by place, then by process, then by number.
fn ranked_reads<A: Allocator + Copy>(
    alloc: A,
    reads: &[CopyRead],
) -> Result<Vec<Ranked, A>, AllocError>
    ensures { IfOk result (λ v. IsSortedFrom (map ranked_read reads.now) v.items) }
{
    let mut ranked = Vec::new(alloc);
    for read in reads {
        ranked.push(Ranked {
            rank: read.place,
            id: read.id,
        })?;
    }
    ranked.sort()?;
    Ok(ranked)
}

/// The stamp of the last cast that was delivered.
pub(crate) fn last_stamp(order: &[First]) -> Option<Stamp>
    ensures { result ≡ last_stamp_of order.now }
{
    match order.last() {
        Some(first) => Some(first.stamp),
        None => None,
    }
}

/// Whether the stamp comes after the last one that was delivered.
pub(crate) fn is_after(last: Option<Stamp>, stamp: Stamp) -> bool
    ensures { result ≡ is_after_of last stamp }
{
    match last {
        Some(last) => last < stamp,
        None => true,
    }
}

/// Adds the finished casts of one process that come after the last one that was delivered.
fn add_lost<A: Allocator + Copy>(
    lost: &mut Vec<Ranked, A>,
    last: Option<Stamp>,
    process: u8,
    caller: &Caller<A>,
) -> Result<(), AllocError>
    ensures { OnOk result (lost.new.items ≡ lost.old.items ++ lost_of last process caller.now) }
{
    let finished = caller.finished();
    for note in &caller.casts {
        let stamp = Stamp {
            time: note.time,
            process,
        };
        if note.number < finished && is_after(last, stamp) {
            let id = OpId {
                process,
                number: note.number,
            };
            lost.push(Ranked {
                rank: note.time,
                id,
            })?;
        }
    }
    Ok(())
}

/// The finished casts that were delivered nowhere, by stamp.
fn lost_casts<A: Allocator + Copy>(
    alloc: A,
    order: &[First],
    callers: &[Caller<A>],
) -> Result<Vec<Ranked, A>, AllocError>
    requires { length callers.now ≤ MOST_PROCESSES }
    ensures { IfOk result (λ v. IsSortedFrom (lost_from (last_stamp_of order.now) 0 callers.now) v.items) }
{
    let last = last_stamp(order);
    let mut lost = Vec::new(alloc);
    for (process, caller) in callers.iter().enumerate() {
        add_lost(&mut lost, last, process as u8, caller)?;
    }
    lost.sort()?;
    Ok(lost)
}

/// Adds the first of the reads, which have at most this place, and answers how many.
fn push_reads<A: Allocator + Copy>(
    ids: &mut Vec<OpId, A>,
    reads: &[Ranked],
    place: u64,
) -> Result<usize, AllocError>
    ensures { IfOk result
        (λ n. (n ≤ length reads.now) × (drop n reads.now ≡ later place reads.now)
        × (ids.new.items ≡ ids.old.items ++ map (λ q. q.id) (upto place reads.now))) }
{
    for (index, read) in reads.iter().enumerate() {
        if read.rank > place {
            return Ok(index);
        }
        ids.push(read.id)?;
    }
    Ok(reads.len())
}

/// Adds all of these ids.
fn push_ids<A: Allocator + Copy>(
    ids: &mut Vec<OpId, A>,
    ranked: &[Ranked],
) -> Result<(), AllocError>
    ensures { OnOk result (ids.new.items ≡ ids.old.items ++ map (λ q. q.id) ranked.now) }
{
    for operation in ranked {
        ids.push(operation.id)?;
    }
    Ok(())
}

/// Adds the cast, if it is kept.
fn push_kept<A: Allocator + Copy>(
    ids: &mut Vec<OpId, A>,
    callers: &[Caller<A>],
    first: &First,
) -> Result<(), AllocError>
    ensures { OnOk result
        (ids.new.items ≡ ids.old.items ++ (if is_kept_of callers.now first.now then first.now.id ∷ [] else [])) }
{
    if is_kept(callers, first) {
        ids.push(first.id)?;
    }
    Ok(())
}

/// Adds the reads and the kept casts, by their keys.
fn push_merged<A: Allocator + Copy>(
    ids: &mut Vec<OpId, A>,
    reads: &[Ranked],
    order: &[First],
    callers: &[Caller<A>],
) -> Result<(), AllocError>
    ensures { OnOk result
        (ids.new.items ≡ ids.old.items ++ ids_of (merge (is_kept_of callers.now) 0 reads.now order.now)) }
{
    let mut next = 0;
    for (place, first) in order.iter().enumerate() {
        next += push_reads(ids, &reads[next..], place as u64)?;
        push_kept(ids, callers, first)?;
    }
    push_ids(ids, &reads[next..])
}

/// The operations that have a key, by rising key.
pub(crate) fn witness_of<A: Allocator + Copy>(
    alloc: A,
    order: &[First],
    reads: &[CopyRead],
    callers: &[Caller<A>],
) -> Result<Vec<OpId, A>, AllocError>
    requires { length callers.now ≤ MOST_PROCESSES }
    ensures { IfOk result (λ v. IsMerged order.now reads.now callers.now v.items) }
{
    let reads = ranked_reads(alloc, reads)?;
    let lost = lost_casts(alloc, order, callers)?;
    let mut ids = Vec::new(alloc);
    push_merged(&mut ids, &reads, order, callers)?;
    push_ids(&mut ids, &lost)?;
    Ok(ids)
}
