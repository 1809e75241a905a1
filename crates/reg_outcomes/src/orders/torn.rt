//! What has to come before each operation in each serial order, and histories in which one would have to come before
//! itself.
ghost use Rattle.std.specs.Prelude.{List, IfOk, IsTrue};
ghost use Rattle.reg_base.specs.declared.memory.OpId.{OpId as AnyId};
ghost use Rattle.reg_checkers.specs.History.{IsHistory};
ghost use Rattle.reg_checkers.specs.Orders.{IsSerial};
ghost use Rattle.reg_outcomes.specs.Forced.{AreForced, AreMakers, IsReader};
ghost use Rattle.reg_outcomes.specs.Guiding.{IsOutlook};

use crate::orders::before::Before;
use crate::orders::changes::{Changes, change_after, changes_of, first_change, last_change};
use crate::orders::finder::Finder;
use crate::orders::forcing::{
    is_finished, put_before_source, put_behind_reader, put_known, put_source,
};
use crate::orders::sources::{Maker, Makers, Reader, makers_of, reader_of};
use reg_base::OpId;
use reg_checkers::Entry;
use std::alloc::{AllocError, Allocator, Global};

/// The most passes over a history. What is not found by then is left to the search. A sketch of these rules, which went
/// on until nothing was news, found all that it found of 600 made-up histories in three passes, most in the first.
const MOST_PASSES: usize = 4;

/// The most entries that are gone over in all passes, times the processes: more take too long. So a large history is
/// gone over in fewer passes, and a very large one in none.
const MOST_WORK: usize = 8_388_608;

/// Goes by the last of these changes of the reader's register by a process that come before the reader.
fn put_last_change<A: Allocator + Copy>(
    finder: &Finder<'_, A>,
    numbers: &[u32],
    before: &mut Before<A>,
    reader: Reader,
    process: u8,
) -> bool
    requires history { IsHistory finder.now.shape.processes finder.now.shape.registers finder.now.entries }
    requires reader { IsReader finder.now.entries reader }
    requires forced { AreForced finder.now before.old }
    ensures { AreForced finder.now before.new }
{
    let known = before.known(reader.id, process);
    match last_change(numbers, process, known) {
        Some(other) => put_before_source(finder, before, reader, other),
        None => false,
    }
}

/// The first of these changes of the reader's register by a process that comes after all that may leave what the reader
/// finds.
fn next_change<A: Allocator + Copy>(
    numbers: &[u32],
    before: &Before<A>,
    reader: Reader,
    process: u8,
) -> Option<OpId> {
    match reader.source {
        Some(Maker::Only(source)) => change_after(numbers, before, process, source),
        Some(Maker::Several) => None,
        None => first_change(numbers, process),
    }
}

/// Goes by the first of these changes of the reader's register by a process that come after the source.
fn put_next_change<A: Allocator + Copy>(
    finder: &Finder<'_, A>,
    numbers: &[u32],
    before: &mut Before<A>,
    reader: Reader,
    process: u8,
) -> bool
    requires history { IsHistory finder.now.shape.processes finder.now.shape.registers finder.now.entries }
    requires reader { IsReader finder.now.entries reader }
    requires forced { AreForced finder.now before.old }
    ensures { AreForced finder.now before.new }
{
    match next_change(numbers, before, reader, process) {
        Some(other) => put_behind_reader(finder, before, reader, other),
        None => false,
    }
}

/// How many first operations of a process are known to come before the one that may leave what the reader finds.
fn known_of_source<A: Allocator + Copy>(before: &Before<A>, reader: Reader, process: u8) -> u32 {
    match reader.source {
        Some(Maker::Only(source)) => before.known(source, process),
        Some(Maker::Several) | None => 0,
    }
}

/// Goes by what an operation finds, unless several may leave that. Whether that is news. Changes that come before the
/// source are passed over.
fn put_reader<A: Allocator + Copy>(
    finder: &Finder<'_, A>,
    makers: &Makers<A>,
    changes: &mut Changes<A>,
    before: &mut Before<A>,
    id: OpId,
) -> bool
    requires history { IsHistory finder.now.shape.processes finder.now.shape.registers finder.now.entries }
    requires makers { AreMakers finder.now.entries makers.now }
    requires forced { AreForced finder.now before.old }
    ensures { AreForced finder.now before.new }
{
    let Some(reader) = reader_of(finder, makers, id) else {
        return false;
    };
    if let Some(Maker::Several) = reader.source {
        return false;
    }
    let mut news = put_source(finder, before, reader);
    let processes = finder.shape().processes() as u8;
    for process in 0..processes {
        let known = known_of_source(before, reader, process);
        let numbers = changes.from(process, reader.value.0, known);
        news = put_last_change(finder, numbers, before, reader, process) || news;
        news = put_next_change(finder, numbers, before, reader, process) || news;
    }
    news
}

/// Whether more of a process is known to come before an operation than before the one before it of its own process.
fn knows_more<A: Allocator + Copy>(before: &Before<A>, id: OpId, process: u8) -> bool {
    let known = before.known(id, process);
    match id.number.checked_sub(1) {
        Some(number) => before.known(OpId { number, ..id }, process) < known,
        None => known > 0,
    }
}

/// Goes by its own process, and by what is known to come before an operation. Whether that is news. A process is passed
/// over where no more of it is known than at the one before: that came with that one.
fn put_all_known<A: Allocator + Copy>(
    finder: &Finder<'_, A>,
    before: &mut Before<A>,
    id: OpId,
) -> bool
    requires { AreForced finder.now before.old }
    ensures { AreForced finder.now before.new }
{
    let mut news = before.raise(id, id.process, id.number);
    let processes = finder.shape().processes() as u8;
    for process in 0..processes {
        if knows_more(before, id, process) {
            news = put_known(finder, before, id, process) || news;
        }
    }
    news
}

/// Goes by an entry, if it is an answer. Whether that is news.
fn put_entry<A: Allocator + Copy>(
    finder: &Finder<'_, A>,
    makers: &Makers<A>,
    changes: &mut Changes<A>,
    before: &mut Before<A>,
    entry: Entry,
) -> bool
    requires history { IsHistory finder.now.shape.processes finder.now.shape.registers finder.now.entries }
    requires makers { AreMakers finder.now.entries makers.now }
    requires forced { AreForced finder.now before.old }
    ensures { AreForced finder.now before.new }
{
    let Entry::Answered { id, .. } = entry else {
        return false;
    };
    let news = put_all_known(finder, before, id);
    put_reader(finder, makers, changes, before, id) || news
}

/// Goes once over the history, in the order of the answers. Whether that is news.
fn go_over<A: Allocator + Copy>(
    finder: &Finder<'_, A>,
    makers: &Makers<A>,
    changes: &mut Changes<A>,
    before: &mut Before<A>,
) -> bool
    requires history { IsHistory finder.now.shape.processes finder.now.shape.registers finder.now.entries }
    requires makers { AreMakers finder.now.entries makers.now }
    requires forced { AreForced finder.now before.old }
    ensures { AreForced finder.now before.new }
{
    let mut news = false;
    for entry in finder.entries() {
        news = put_entry(finder, makers, changes, before, *entry) || news;
    }
    news
}

/// Whether the operation of an entry is finished, and comes before itself.
fn is_circle<A: Allocator + Copy>(finder: &Finder<'_, A>, before: &Before<A>, entry: Entry) -> bool
    requires { AreForced finder.now before.now }
    ensures { IsTrue result → (ids : List AnyId) → ¬ IsSerial finder.now.shape.registers finder.now.entries ids }
{
    let Entry::Answered { id, .. } = entry else {
        return false;
    };
    if !before.has(id, id) {
        return false;
    }
    is_finished(finder, id)
}

/// Whether some finished operation comes before itself.
fn has_circle<A: Allocator + Copy>(finder: &Finder<'_, A>, before: &Before<A>) -> bool
    requires { AreForced finder.now before.now }
    ensures { IsTrue result → (ids : List AnyId) → ¬ IsSerial finder.now.shape.registers finder.now.entries ids }
{
    for entry in finder.entries() {
        if is_circle(finder, before, *entry) {
            return true;
        }
    }
    false
}

/// What is known of the serial orders of a history before any search.
#[derive(Drop)]
pub(crate) enum Outlook<A: Allocator + Copy = Global> {
    /// There is none: some operation would have to come before itself.
    Torn,
    /// What comes before each operation in each of them, as far as it was found. None where it was not looked for.
    Open(Option<Before<A>>),
}

/// How many passes over a history are not too many.
fn most_passes<A: Allocator + Copy>(finder: &Finder<'_, A>) -> usize {
    let processes = finder.shape().processes() as usize;
    let work = finder.entries().len().saturating_mul(processes);
    MOST_PASSES.min(MOST_WORK / work.max(1))
}

/// Goes over the history, at most so often, until nothing is news. Whether some operation comes before itself.
fn is_torn<A: Allocator + Copy>(
    finder: &Finder<'_, A>,
    makers: &Makers<A>,
    changes: &mut Changes<A>,
    before: &mut Before<A>,
    passes: usize,
) -> bool
    requires history { IsHistory finder.now.shape.processes finder.now.shape.registers finder.now.entries }
    requires makers { AreMakers finder.now.entries makers.now }
    requires forced { AreForced finder.now before.old }
    ensures torn { IsTrue result → (ids : List AnyId) → ¬ IsSerial finder.now.shape.registers finder.now.entries ids }
    ensures forced { AreForced finder.now before.new }
{
    for _pass in 0..passes {
        let news = go_over(finder, makers, changes, before);
        if has_circle(finder, before) {
            return true;
        }
        if !news {
            return false;
        }
    }
    false
}

/// What comes before each operation in each serial order of the history, as far as the own order of each process tells
/// it, and what reads, swaps and compare-and-swaps found. It is no search: the time grows with the operations, times
/// the processes. That a history is not torn says nothing; it is all that is said of a very large one.
pub(crate) fn outlook_of<A: Allocator + Copy>(
    alloc: A,
    finder: &Finder<'_, A>,
) -> Result<Outlook<A>, AllocError>
    requires { IsHistory finder.now.shape.processes finder.now.shape.registers finder.now.entries }
    ensures { IfOk result (IsOutlook finder.now) }
{
    let passes = most_passes(finder);
    if passes == 0 {
        return Ok(Outlook::Open(None));
    }
    let makers = makers_of(alloc, finder)?;
    let mut changes = changes_of(alloc, finder)?;
    let mut before = Before::new(alloc, finder)?;
    if is_torn(finder, &makers, &mut changes, &mut before, passes) {
        Ok(Outlook::Torn)
    } else {
        Ok(Outlook::Open(Some(before)))
    }
}
