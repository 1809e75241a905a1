//! What has to come before each operation of a history.
ghost use Rattle.std.specs.Prelude.{◌≡◌, ◌<◌, ◌+◌, ◌*◌, ◌⊎◌, ℕ, IfOk, IfSome, IsSome, IsTrue, slice_get};
ghost use Rattle.reg_base.specs.declared.memory.OpId.{OpId as AnyId};
ghost use Rattle.reg_checkers.specs.History.{IsFinished};
ghost use Rattle.reg_checkers.specs.Progress.{op_of};
ghost use Rattle.reg_outcomes.specs.Forced.{AreForced, AreNone, AreRaised, Comes, IsCount, IsNoneRow, count_at};
ghost use Rattle.reg_outcomes.specs.Forced.{count_in};
ghost use Rattle.reg_outcomes.specs.Sought.{Sought as AnySought};

use crate::orders::finder::Finder;
use reg_base::OpId;
use std::alloc::{AllocError, Allocator, Global};

/// By process: of each of its operations in turn, and of each process, how many first operations of that process come
/// before the operation. So the counts of one operation stand side by side.
pub(crate) type Counts<A> = Vec<Vec<u32, A>, A>;

/// What has to come before each operation: of each process so many first ones.
#[derive(Drop)]
pub(crate) struct Before<A: Allocator + Copy = Global> {
    /// How many processes there are: each operation has so many counts.
    pub(crate) processes: u8,
    pub(crate) counts: Counts<A>,
    /// Of each process, how many first operations hold all of which something is known. So the others need not be
    /// looked at, which takes long where there are many.
    noted: Vec<u32, A>,
    /// Room for the counts of one operation, which are copied so that those of another are raised to them at once.
    copied: Vec<u32, A>,
}

/// The place of an operation's count of a process, among the counts of the operations of its own process.
fn place_of(processes: u8, number: u32, process: u8) -> usize
    ensures { result ≡ number * processes + process }
{
    number as usize * usize::from(processes) + usize::from(process)
}

/// The counts of the operations of a process, each of none.
fn row_of<A: Allocator + Copy>(
    alloc: A,
    processes: u8,
    calls: usize,
) -> Result<Vec<u32, A>, AllocError>
    ensures { IfOk result IsNoneRow }
{
    vec![in alloc; 0; calls.saturating_mul(usize::from(processes))]
}

/// The count at a place, None where there is none.
fn word_at(row: &[u32], place: usize) -> Option<u32>
    ensures { result ≡ slice_get row.now place }
{
    row.get(place).copied()
}

/// The counts of an operation, by process, None where it has none.
fn counts_of<A: Allocator + Copy>(counts: &Counts<A>, processes: u8, id: OpId) -> Option<&[u32]>
    ensures { IfSome result
        (λ own. (p k : ℕ) → slice_get own.now p ≡ Some k
        → (p < processes) × (count_at (id.number * processes + p) id.process counts.now.items ≡ Some k)) }
{
    let Some(row) = counts.get(usize::from(id.process)) else {
        return None;
    };
    let start = place_of(processes, id.number, 0);
    row.get(start..start + usize::from(processes))
}

/// Raises counts to others, each where it is less. Whether one was.
fn raise_to(counts: &mut [u32], others: &[u32]) -> bool
    ensures { AreRaised others.now counts.old counts.new }
{
    let mut news = false;
    for place in 0..counts.len().min(others.len()) {
        let (count, other) = (counts[place], others[place]);
        news |= count < other;
        counts[place] = count.max(other);
    }
    news
}

impl<A: Allocator + Copy> Before<A> {
    /// Nothing comes before any operation.
    pub(crate) fn new(alloc: A, finder: &Finder<'_, A>) -> Result<Before<A>, AllocError>
        ensures { IfOk result (λ b. AreNone b.counts.items) }
    {
        let processes = finder.shape().processes() as u8;
        let mut counts = Vec::new(alloc);
        for process in 0..processes {
            counts.push(row_of(alloc, processes, finder.calls(process))?)?;
        }
        let noted = vec![in alloc; 0; usize::from(processes)]?;
        Ok(Before {
            processes,
            counts,
            noted,
            copied: vec![in alloc; 0; usize::from(processes)]?,
        })
    }

    /// The count at a place among those of a process, None where there is none.
    fn at(&self, process: u8, place: usize) -> Option<u32>
        ensures { result ≡ count_at place process self.now.counts.items }
    {
        match self.counts.get(usize::from(process)) {
            Some(row) => word_at(row, place),
            None => None,
        }
    }

    /// How many first operations of a process come before an operation.
    fn count(&self, id: OpId, process: u8) -> Option<u32>
        ensures { IfSome result (IsCount self.now id process) }
    {
        if process >= self.processes {
            return None;
        }
        self.at(id.process, place_of(self.processes, id.number, process))
    }

    /// How many first operations of a process are known to come before an operation.
    pub(crate) fn known(&self, id: OpId, process: u8) -> u32
        ensures { (s : AnySought) (m : ℕ) → AreForced s self.now → m < result → Comes s (op_of process m) id }
    {
        match self.count(id, process) {
            Some(count) => count,
            None => 0,
        }
    }

    /// Whether an operation is known to come before another.
    pub(crate) fn has(&self, earlier: OpId, later: OpId) -> bool
        ensures { (s : AnySought) → IsTrue result → AreForced s self.now → Comes s earlier later }
    {
        earlier.number < self.known(later, earlier.process)
    }

    /// Replaces a count.
    fn set(&mut self, id: OpId, process: u8, count: u32)
        requires process { process < self.old.processes }
        requires there { IsSome (count_in self.old id process) }
        ensures { (x : AnyId) (p k : ℕ) → IsCount self.new x p k
            → IsCount self.old x p k ⊎ ((x ≡ id) × (p ≡ process) × (k ≡ count)) }
    {
        let place = place_of(self.processes, id.number, process);
        self.counts[usize::from(id.process)][place] = count;
    }

    /// Whether something may be known of an operation. If not, none is known to come before it.
    pub(crate) fn is_noted(&self, id: OpId) -> bool {
        match self.noted.get(usize::from(id.process)) {
            Some(noted) => id.number < *noted,
            None => false,
        }
    }

    /// Notes that something is known of an operation.
    fn note(&mut self, id: OpId)
        ensures processes { self.new.processes ≡ self.old.processes }
        ensures counts { self.new.counts ≡ self.old.counts }
    {
        if let Some(noted) = self.noted.get_mut(usize::from(id.process)) {
            *noted = (*noted).max(id.number.saturating_add(1));
        }
    }

    /// Notes that so many first operations of a process come before an operation. Whether that are more than before.
    pub(crate) fn raise(&mut self, id: OpId, process: u8, count: u32) -> bool
        ensures { (s : AnySought) → AreForced s self.old → ((m : ℕ) → m < count → Comes s (op_of process m) id)
            → AreForced s self.new }
    {
        match self.count(id, process) {
            Some(known) if known < count => {
                self.set(id, process, count);
                self.note(id);
                true
            }
            _ => false,
        }
    }

    /// Copies the counts of an operation. Whether it has some.
    fn copy(&mut self, id: OpId) -> bool
        ensures processes { self.new.processes ≡ self.old.processes }
        ensures counts { self.new.counts ≡ self.old.counts }
        ensures copied { IsTrue result → (p k : ℕ) → slice_get self.new.copied.items p ≡ Some k
            → IsCount self.old id p k }
    {
        let Some(counts) = counts_of(&self.counts, self.processes, id) else {
            return false;
        };
        if counts.len() != self.copied.len() {
            return false;
        }
        self.copied.copy_from_slice(counts);
        true
    }

    /// Raises the counts of an operation to those that were copied. Whether one was less.
    fn raise_to_copied(&mut self, id: OpId) -> bool
        ensures { (x : AnyId) (p k : ℕ) → IsCount self.new x p k
            → IsCount self.old x p k ⊎ ((x ≡ id) × (slice_get self.old.copied.items p ≡ Some k)) }
    {
        let process = usize::from(id.process);
        if process >= self.counts.len() {
            return false;
        }
        let row = &mut self.counts[process];
        let start = place_of(self.processes, id.number, 0);
        let end = start + usize::from(self.processes);
        if end > row.len() {
            return false;
        }
        raise_to(&mut row[start..end], &self.copied)
    }

    /// Raises the counts of an operation to those of another, whose counts tell what comes before it. Whether one was
    /// less.
    fn raise_all(&mut self, id: OpId, other: OpId) -> bool
        ensures { (x : AnyId) (p k : ℕ) → IsCount self.new x p k
            → IsCount self.old x p k ⊎ ((x ≡ id) × IsCount self.old other p k) }
    {
        if !self.copy(other) {
            return false;
        }
        self.raise_to_copied(id)
    }
}

/// Notes that an operation comes before another, with all that comes before it. Whether that is news.
pub(crate) fn join<A: Allocator + Copy>(
    finder: &Finder<'_, A>,
    before: &mut Before<A>,
    earlier: OpId,
    later: OpId,
) -> bool
    requires forced { AreForced finder.now before.old }
    requires finished { IsFinished finder.now.entries earlier }
    requires comes { Comes finder.now earlier later }
    ensures { AreForced finder.now before.new }
{
    let news = before.raise(later, earlier.process, earlier.number.saturating_add(1));
    before.raise_all(later, earlier) || news
}
