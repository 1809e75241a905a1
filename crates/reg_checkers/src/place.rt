//! Whether an entry is in place, by what is kept of its process.
ghost use Rattle.std.specs.Prelude.{ℕ, ◌≡◌, ◌<◌, ◌↔◌, Some, IsTrue, length, slice_index_or, slice_set};
ghost use Rattle.reg_checkers.specs.History.{event_of, IsHistory, MayCall, MayAnswer, IsInPlace};
ghost use Rattle.reg_checkers.specs.Progress.{last_of, IsBehindLast, IsProgressOf, IsKept, IsNumbered};
ghost use Rattle.reg_checkers.specs.Progress.{id_of as id_of_entry, progress_after};
ghost use Rattle.reg_base.specs.declared.memory.Op.{Op};
ghost use Rattle.reg_base.specs.Memory.{register_of};
ghost use Rattle.reg_checkers.specs.declared.entries.Entry.TheVariants.{Called};

use crate::entries::Entry;
use reg_base::limits::{LAST_EVENT, MOST_OPERATIONS};
use reg_base::{Answer, Op, OpId, Shape};
use std::alloc::Allocator;

/// A call that is not yet answered.
#[derive(Clone, Copy)]
pub struct Running {
    pub at: u32,
    pub op: Op,
}

/// How far a process is: the number of its next operation, and the call that runs.
#[derive(Clone, Copy)]
pub struct Progress {
    pub next: u32,
    pub running: Option<Running>,
}

fn event(entry: Entry) -> u32
    ensures { result ≡ event_of entry }
{
    match entry {
        Entry::Called { at, id: _, op: _ } => at,
        Entry::Answered {
            at,
            id: _,
            answer: _,
        } => at,
    }
}

/// The operation that an entry speaks of.
pub fn id_of(entry: Entry) -> OpId
    ensures { result ≡ id_of_entry entry }
{
    match entry {
        Entry::Called { at: _, id, op: _ } => id,
        Entry::Answered {
            at: _,
            id,
            answer: _,
        } => id,
    }
}

/// How far a process is after one more of its entries.
pub fn after_entry(before: Progress, entry: Entry) -> Progress
    requires { IsNumbered entry }
    ensures { result ≡ progress_after before entry }
{
    match entry {
        Entry::Called { at, id, op } => Progress {
            next: id.number + 1,
            running: Some(Running { at, op }),
        },
        Entry::Answered {
            at: _,
            id: _,
            answer: _,
        } => Progress {
            next: before.next,
            running: None,
        },
    }
}

/// Notes how far the process of an entry is after it.
#[inline]
pub fn advance<A: Allocator + Copy>(progress: &mut Vec<Progress, A>, entry: Entry)
    requires within { (id_of_entry entry).process < length progress.old.items }
    requires numbered { IsNumbered entry }
    ensures { (before : Progress) × (before ≡ slice_index_or progress.old.items (id_of_entry entry).process before)
        × (progress.new.items
        ≡ slice_set progress.old.items (id_of_entry entry).process (progress_after before entry)) }
{
    let process = usize::from(id_of(entry).process);
    let before = progress[process];
    progress[process] = after_entry(before, entry);
}

/// Whether the event comes after that of the last entry.
fn is_later(entries: &[Entry], at: u32) -> bool
    ensures { IsTrue result ↔ IsBehindLast entries.now at }
{
    match entries.last() {
        Some(entry) => event(*entry) < at,
        None => true,
    }
}

/// Whether the last entry is the call of this operation at this event.
fn last_is_call(entries: &[Entry], at: u32, id: OpId) -> bool
    ensures { IsTrue result ↔ ((op : Op) × (last_of entries.now ≡ Some (Called at id op))) }
{
    match entries.last() {
        Some(entry) => match *entry {
            Entry::Called {
                at: other,
                id: name,
                op: _,
            } => other == at && name == id,
            Entry::Answered {
                at: _,
                id: _,
                answer: _,
            } => false,
        },
        None => false,
    }
}

/// Whether the operation is of one of the memory's registers.
fn is_of_a_register(shape: Shape, op: Op) -> bool
    ensures { IsTrue result ↔ (register_of op < shape.registers) }
{
    u32::from(op.register()) < shape.registers()
}

/// Whether a call under this id is in place, of any operation of one of the memory's registers.
fn may_call(entries: &[Entry], progress: Progress, at: u32, id: OpId) -> bool
    requires history { (n : ℕ) × (registers : ℕ) × IsHistory n registers entries.now }
    requires progress { IsProgressOf entries.now id.process progress }
    ensures { (n registers : ℕ) (op : Op) → id.process < n → register_of op < registers
        → IsTrue result ↔ MayCall n registers entries.now at id op }
{
    if at > LAST_EVENT || id.number >= MOST_OPERATIONS {
        return false;
    }
    if !is_later(entries, at) {
        return false;
    }
    if id.number != progress.next {
        return false;
    }
    progress.running.is_none()
}

/// Whether an answer is in place.
fn may_answer(entries: &[Entry], progress: Progress, at: u32, id: OpId, answer: Answer) -> bool
    requires history { (n : ℕ) × (registers : ℕ) × IsHistory n registers entries.now }
    requires progress { IsProgressOf entries.now id.process progress }
    ensures { IsTrue result ↔ MayAnswer entries.now at id answer }
{
    let Some(running) = progress.running else {
        return false;
    };
    if at > LAST_EVENT || progress.next == 0 {
        return false;
    }
    if id.number != progress.next - 1 {
        return false;
    }
    if !running.op.can_answer(&answer) {
        return false;
    }
    is_later(entries, at) || last_is_call(entries, at, id)
}

/// Whether the entry may come after these.
pub fn is_in_place(shape: Shape, entries: &[Entry], progress: &[Progress], entry: Entry) -> bool
    requires { IsKept shape.processes shape.registers entries.now progress.now }
    ensures { IsTrue result ↔ IsInPlace shape.processes shape.registers entries.now entry }
{
    match entry {
        Entry::Called { at, id, op } => {
            let process = usize::from(id.process);
            if process >= progress.len() || !is_of_a_register(shape, op) {
                return false;
            }
            may_call(entries, progress[process], at, id)
        }
        Entry::Answered { at, id, answer } => {
            let process = usize::from(id.process);
            if process >= progress.len() {
                return false;
            }
            may_answer(entries, progress[process], at, id, answer)
        }
    }
}
