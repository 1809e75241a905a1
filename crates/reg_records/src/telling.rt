//! Receipts against a history.
ghost use Rattle.std.specs.Prelude.{◌≡◌, ◌≤◌, ◌+◌, length, IsTrue, ◌↔◌, MatchOption, slice_get};
ghost use Rattle.reg_base.specs.Lists.{lists};
ghost use Rattle.reg_base.specs.declared.limits.TheConstants.{MOST_PROCESSES};
ghost use Rattle.reg_checkers.specs.History.{IsAt, IsHistory};
ghost use Rattle.reg_records.specs.Receipts.{AreFinished, AreTold, IsFirstUntold};
ghost use Rattle.reg_records.specs.Telling.{IsAfter, IsOther};

use crate::entries::Receipt;
use reg_base::{Op, Shape};
use reg_checkers::Entry;
use std::alloc::Allocator;

/// A call that is not yet answered.
#[derive(Clone, Copy)]
pub(crate) struct Pending {
    at: u32,
    op: Op,
}

/// How far one process is, over the first entries of a history: how many of its operations are finished, each of them
/// as its receipt says, and the call that runs.
#[derive(Clone, Copy)]
pub(crate) struct Matched {
    done: usize,
    running: Option<Pending>,
}

/// Whether two receipts are the same.
fn is_same(receipt: Receipt, other: Receipt) -> bool
    ensures { IsTrue result ↔ receipt ≡ other }
{
    receipt == other
}

/// The receipt at this place.
fn receipt_at(receipts: &[Receipt], place: usize) -> Option<Receipt>
    ensures { result ≡ slice_get receipts.now place }
{
    receipts.get(place).copied()
}

/// Whether this receipt stands there.
fn stands_at(receipts: &[Receipt], place: usize, receipt: Receipt) -> bool
    ensures { IsTrue result ↔ IsAt receipts.now place receipt }
{
    match receipt_at(receipts, place) {
        Some(other) => is_same(other, receipt),
        None => false,
    }
}

/// How far the process is after one more entry. None where the entry is an answer of it, and the next receipt isn't
/// that answer's.
fn after(told: Matched, entry: &Entry, process: u8, receipts: &[Receipt]) -> Option<Matched>
    ensures { MatchOption result (IsOther told process receipts.now entry.now)
        (λ next. IsAfter told process receipts.now entry.now next) }
{
    match *entry {
        Entry::Called { at, id, op } => {
            if id.process != process {
                return Some(told);
            }
            Some(Matched {
                done: told.done,
                running: Some(Pending { at, op }),
            })
        }
        Entry::Answered { at, id, answer } => {
            if id.process != process {
                return Some(told);
            }
            let Some(call) = told.running else {
                return None;
            };
            let receipt = Receipt {
                id,
                op: call.op,
                answer,
                called: u64::from(call.at),
                answered: u64::from(at),
            };
            if !stands_at(receipts, told.done, receipt) {
                return None;
            }
            Some(Matched {
                done: told.done + 1,
                running: None,
            })
        }
    }
}

/// Whether the receipts are the finished operations of a process.
fn is_told(shape: Shape, entries: &[Entry], process: u8, receipts: &[Receipt]) -> bool
    requires { IsHistory shape.processes shape.registers entries.now }
    ensures { IsTrue result ↔ AreFinished entries.now process receipts.now }
{
    let mut told = Matched {
        done: 0,
        running: None,
    };
    for entry in entries {
        match after(told, entry, process, receipts) {
            Some(next) => told = next,
            None => return false,
        }
    }
    told.done == receipts.len()
}

/// The first process whose receipts aren't its finished operations.
pub(crate) fn first_untold<A: Allocator + Copy>(
    shape: Shape,
    entries: &[Entry],
    receipts: &[Vec<Receipt, A>],
) -> Option<u8>
    requires history { IsHistory shape.processes shape.registers entries.now }
    requires few { length receipts.now ≤ MOST_PROCESSES }
    ensures { MatchOption result (AreTold entries.now (lists receipts.now))
        (λ p. IsFirstUntold entries.now (lists receipts.now) p) }
{
    for process in 0..receipts.len() as u8 {
        if !is_told(shape, entries, process, &receipts[usize::from(process)]) {
            return Some(process);
        }
    }
    None
}
