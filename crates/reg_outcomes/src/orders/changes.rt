//! Where each process changes a register. No clause says which changes are found: what is concluded from one is proved
//! of it, whichever it is.
ghost use Rattle.std.specs.Prelude.{◌≤◌, length};

use crate::orders::before::Before;
use crate::orders::finder::Finder;
use crate::orders::uses::left_by;
use reg_base::OpId;
use reg_checkers::Entry;
use std::alloc::{AllocError, Allocator, Global};

/// The operations of a process that change a register.
#[derive(Drop)]
struct List<A: Allocator + Copy = Global> {
    /// Their numbers, in order.
    numbers: Vec<u32, A>,
    /// How many were below the number that was looked for last: mostly as many are below the next one.
    near: usize,
}

impl<A: Allocator + Copy> List<A> {
    /// The numbers that are not below this one, in order.
    fn from(&mut self, least: u32) -> &[u32] {
        if !are_below(&self.numbers, self.near, least) {
            self.near = count_below(&self.numbers, least);
        }
        match self.numbers.get(self.near..) {
            Some(numbers) => numbers,
            None => &[],
        }
    }
}

/// The operations that change a register. So that a search goes over those of one process and register alone, each of
/// these has a list of its own.
#[derive(Drop)]
pub(crate) struct Changes<A: Allocator + Copy = Global> {
    processes: u8,
    /// Of each register, process by process.
    lists: Vec<List<A>, A>,
}

/// The place of a process's list for a register: those of one register stand side by side.
fn place_of(processes: u8, register: u16, process: u8) -> usize {
    usize::from(register) * usize::from(processes) + usize::from(process)
}

impl<A: Allocator + Copy> Changes<A> {
    /// No changes.
    fn new(alloc: A, finder: &Finder<'_, A>) -> Result<Changes<A>, AllocError> {
        let shape = finder.shape();
        let processes = shape.processes() as u8;
        let registers = shape.registers() as u16;
        let count = place_of(processes, registers, 0);
        let mut lists = Vec::with_capacity(alloc, count)?;
        for _list in 0..count {
            lists.push(List {
                numbers: Vec::new(alloc),
                near: 0,
            })?;
        }
        Ok(Changes { processes, lists })
    }

    /// Notes that an operation changes a register, later than those of its process that are noted.
    fn note(&mut self, id: OpId, register: u16) -> Result<(), AllocError> {
        let place = place_of(self.processes, register, id.process);
        if let Some(list) = self.lists.get_mut(place) {
            list.numbers.push(id.number)?;
        }
        Ok(())
    }

    /// The numbers of the operations of a process that change a register, in order, but for the first ones, which are
    /// below a number.
    pub(crate) fn from(&mut self, process: u8, register: u16, least: u32) -> &[u32] {
        let place = place_of(self.processes, register, process);
        match self.lists.get_mut(place) {
            Some(list) => list.from(least),
            None => &[],
        }
    }
}

/// The register that an operation surely changes, if any.
fn changed_by<A: Allocator + Copy>(finder: &Finder<'_, A>, id: OpId) -> Option<u16> {
    let Some(fact) = finder.fact(id) else {
        return None;
    };
    match left_by(fact) {
        Some(_) => Some(fact.op.register()),
        None => None,
    }
}

/// Notes the change that the operation of an entry makes, if it is a call.
fn note_entry<A: Allocator + Copy>(
    changes: &mut Changes<A>,
    finder: &Finder<'_, A>,
    entry: Entry,
) -> Result<(), AllocError> {
    let Entry::Called { id, .. } = entry else {
        return Ok(());
    };
    let Some(register) = changed_by(finder, id) else {
        return Ok(());
    };
    changes.note(id, register)
}

/// The changes of a history.
pub(crate) fn changes_of<A: Allocator + Copy>(
    alloc: A,
    finder: &Finder<'_, A>,
) -> Result<Changes<A>, AllocError> {
    let mut changes = Changes::new(alloc, finder)?;
    for entry in finder.entries() {
        note_entry(&mut changes, finder, *entry)?;
    }
    Ok(changes)
}

/// Whether just so many of the numbers, in order, are less than this one.
fn are_below(numbers: &[u32], count: usize, bound: u32) -> bool {
    let before = match count.checked_sub(1) {
        Some(last) => numbers.get(last).copied(),
        None => None,
    };
    let next = numbers.get(count).copied();
    before.is_none_or(|number| number < bound) && next.is_none_or(|number| number >= bound)
}

/// How many of the numbers, in order, are less than this one. Mostly they are few, and the numbers many: so it is
/// looked for in steps that grow.
fn count_below(numbers: &[u32], bound: u32) -> usize
    ensures { result ≤ length numbers.now }
{
    let mut low = 0;
    let mut high = numbers.len();
    let mut reach: usize = 0;
    while low < high {
        let middle = low + reach.min((high - low) / 2);
        if numbers[middle] < bound {
            low = middle + 1;
            reach = reach.saturating_mul(2).saturating_add(1);
        } else {
            high = middle;
        }
    }
    low
}

/// The operation of a process at this place of these, None past the last.
fn change_at(numbers: &[u32], process: u8, place: usize) -> Option<OpId> {
    match numbers.get(place) {
        Some(number) => Some(OpId {
            process,
            number: *number,
        }),
        None => None,
    }
}

/// The last of these operations of a process among so many first ones.
pub(crate) fn last_change(numbers: &[u32], process: u8, count: u32) -> Option<OpId> {
    let Some(place) = count_below(numbers, count).checked_sub(1) else {
        return None;
    };
    change_at(numbers, process, place)
}

/// The first of these operations of a process.
pub(crate) fn first_change(numbers: &[u32], process: u8) -> Option<OpId> {
    change_at(numbers, process, 0)
}

/// The first of these operations of a process that comes after an operation, where those that come before it are left
/// out. It comes mostly soon: so it is looked for in steps that grow. Of those of which nothing is known yet none is
/// looked at.
pub(crate) fn change_after<A: Allocator + Copy>(
    numbers: &[u32],
    before: &Before<A>,
    process: u8,
    id: OpId,
) -> Option<OpId> {
    let mut low = 0;
    let mut high = numbers.len();
    let mut reach: usize = 0;
    while low < high {
        let middle = low + reach.min((high - low) / 2);
        let change = OpId {
            process,
            number: numbers[middle],
        };
        if !before.is_noted(change) || before.has(id, change) {
            high = middle;
        } else {
            low = middle + 1;
            reach = reach.saturating_mul(2).saturating_add(1);
        }
    }
    match change_at(numbers, process, low) {
        Some(change) if before.is_noted(change) => Some(change),
        _ => None,
    }
}
