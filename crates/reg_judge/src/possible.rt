//! The answers that an operation might have had in place of one that no point order explains.
ghost use Rattle.std.specs.Prelude.{◌≡◌, ◌↔◌, ◌<◌, ◌++◌, ◌∷◌, [], if◌then◌else◌, List, IfOk, IfSome, IsTrue, OnOk};
ghost use Rattle.std.specs.Prelude.{length};
ghost use Rattle.reg_checkers.specs.declared.entries.Entry.{Entry as AnyEntry};
ghost use Rattle.reg_checkers.specs.Table.{IsTable};
ghost use Rattle.reg_judge.specs.Candidates.{AreAnswersOf, AreCandidates, AreLeft, ArePossibleOf, HasMore, IsChange};
ghost use Rattle.reg_judge.specs.Candidates.{IsOver, IsSince, Leaves};
ghost use Rattle.reg_judge.specs.Possible.{ArePossible, IsPossible};

use crate::acts::{made, made_alone};
use crate::judge::{Decided, PointsFault, decide, first_part};
use reg_base::{Answer, OpId};
use reg_checkers::{Entry, Fact, History, HistoryFault, fact_of, table_of};
use std::alloc::{AllocError, Allocator};

/// The most entries that are gone through in search of the answers that an operation might have had.
const MOST_ENTRIES: usize = 4_194_304;

/// The most stages of a register between two entries in that search.
const MOST_STAGES: u32 = 4_096;

/// Whether the operation was answered before the event.
fn is_over<A: Allocator + Copy>(rows: &[Vec<Fact, A>], id: OpId, event: u32) -> bool
    ensures { IsTrue result → IsOver rows.now id event }
{
    let Some(fact) = fact_of(rows, id) else {
        return false;
    };
    match fact.answered {
        Some(given) => given.at < event,
        None => false,
    }
}

/// When the operation was called, if it left a value, and was answered before the event.
fn change_called<A: Allocator + Copy>(rows: &[Vec<Fact, A>], id: OpId, event: u32) -> Option<u32>
    ensures { IfSome result (IsChange rows.now id event) }
{
    let fact = fact_of(rows, id)?;
    let given = fact.answered?;
    let _value = made(fact.op, given.answer)?;
    if given.at < event {
        Some(fact.called)
    } else {
        None
    }
}

/// When the change of an entry was called, if that is a call of one that is over before the event; else as it was.
fn later_change<A: Allocator + Copy>(
    rows: &[Vec<Fact, A>],
    entry: Entry,
    event: u32,
    since: Option<u32>,
) -> Option<u32>
    ensures { (h : List AnyEntry) → IsTable h rows.now → IsSince h event since → IsSince h event result }
{
    let Entry::Called { at: _, id, op: _ } = entry else {
        return since;
    };
    match change_called(rows, id, event) {
        Some(called) => Some(called),
        None => since,
    }
}

/// When the last one of the changes was called that are over before the event.
fn last_change<A: Allocator + Copy>(
    rows: &[Vec<Fact, A>],
    entries: &[Entry],
    event: u32,
) -> Option<u32>
    requires { IsTable entries.now rows.now }
    ensures { IsSince entries.now event result }
{
    let mut since = None;
    for entry in entries {
        since = later_change(rows, *entry, event, since);
    }
    since
}

/// The value that the operation of an entry leaves, if that is a call, and the operation wasn't over before the event.
fn left_since<A: Allocator + Copy>(rows: &[Vec<Fact, A>], entry: Entry, event: u32) -> Option<u64>
    ensures { Leaves rows.now event entry result }
{
    let Entry::Called { at: _, id, op } = entry else {
        return None;
    };
    if is_over(rows, id, event) {
        None
    } else {
        made_alone(op)
    }
}

/// Adds a value, if there is one and it isn't there.
fn add_value<A: Allocator + Copy>(
    values: &mut Vec<u64, A>,
    value: Option<u64>,
) -> Result<(), AllocError>
    ensures { OnOk result (HasMore values.old.items value values.new.items) }
{
    let Some(value) = value else {
        return Ok(());
    };
    if !values.contains(&value) {
        values.push(value)?;
    }
    Ok(())
}

/// The answers of a write and of a compare-and-swap, and these values as answers.
fn answers_of<A: Allocator + Copy>(alloc: A, values: &[u64]) -> Result<Vec<Answer, A>, AllocError>
    ensures { IfOk result (λ v. AreAnswersOf values.now v.items) }
{
    let mut answers = Vec::new(alloc);
    answers.push(Answer::Done)?;
    answers.push(Answer::Unequal)?;
    for value in values {
        answers.push(Answer::Value(*value))?;
    }
    Ok(answers)
}

/// The values that operations left which were not over before a change, the last one that was over before the event;
/// and the first value, if there is no such change. None where there are more than so many.
fn values_left<A: Allocator + Copy>(
    alloc: A,
    rows: &[Vec<Fact, A>],
    entries: &[Entry],
    since: Option<u32>,
    most: usize,
) -> Result<Option<Vec<u64, A>>, AllocError>
    ensures { IfOk result (λ found. IfSome found (λ v. AreLeft rows.now entries.now since v.items)) }
{
    let mut values = Vec::new(alloc);
    if since.is_none() {
        values.push(0)?;
    }
    for entry in entries {
        add_value(&mut values, left_since(rows, *entry, since.unwrap_or(0)))?;
        if values.len() > most {
            return Ok(None);
        }
    }
    Ok(Some(values))
}

/// Answers, among them all that are possible at the place. None where there would be more than so many and two.
fn candidates<A: Allocator + Copy>(
    alloc: A,
    history: &History<A>,
    place: usize,
    most: usize,
) -> Result<Option<Vec<Answer, A>>, AllocError>
    requires one { history.now.shape.registers ≡ 1 }
    requires inside { place < length history.now.entries }
    ensures { IfOk result (λ found. IfSome found (λ v. AreCandidates 1 history.now.entries place v.items)) }
{
    let Entry::Answered { id, .. } = history.entries()[place] else {
        return Ok(None);
    };
    let part = first_part(alloc, history, place)?;
    let rows = table_of(alloc, part.shape(), part.entries())?;
    let Some(fact) = fact_of(&rows, id) else {
        return Ok(None);
    };
    let since = last_change(&rows, part.entries(), fact.called);
    match values_left(alloc, &rows, part.entries(), since, most)? {
        Some(values) => Ok(Some(answers_of(alloc, &values)?)),
        None => Ok(None),
    }
}

/// Whether this answer is possible at the place.
fn explains<A: Allocator + Copy>(
    alloc: A,
    history: &History<A>,
    place: usize,
    answer: Answer,
) -> Result<bool, PointsFault>
    requires one { history.now.shape.registers ≡ 1 }
    requires inside { place < length history.now.entries }
    ensures { IfOk result (λ b. IsTrue b ↔ IsPossible 1 history.now.entries place answer) }
{
    let Entry::Answered { at, id, .. } = history.entries()[place] else {
        return Ok(false);
    };
    let mut part = first_part(alloc, history, place)?;
    match part.push(Entry::Answered { at, id, answer }) {
        Ok(()) => {}
        Err(HistoryFault::OutOfPlace) => return Ok(false),
        Err(HistoryFault::OutOfMemory) => return Err(PointsFault::OutOfMemory),
    }
    match decide(alloc, &part, MOST_STAGES)? {
        Decided::Order(_) => Ok(true),
        Decided::NoOrder(_) => Ok(false),
    }
}

/// Adds an answer, if it is to be added.
fn add_if<A: Allocator + Copy>(
    answers: &mut Vec<Answer, A>,
    answer: Answer,
    adds: bool,
) -> Result<(), AllocError>
    ensures { OnOk result (answers.new.items ≡ (if adds then answers.old.items ++ answer ∷ [] else answers.old.items)) }
{
    if adds {
        answers.push(answer)?;
    }
    Ok(())
}

/// The possible ones of these answers.
fn possible_of<A: Allocator + Copy>(
    alloc: A,
    history: &History<A>,
    place: usize,
    candidates: &[Answer],
) -> Result<Vec<Answer, A>, PointsFault>
    requires one { history.now.shape.registers ≡ 1 }
    requires inside { place < length history.now.entries }
    ensures { IfOk result (λ v. ArePossibleOf 1 history.now.entries place candidates.now v.items) }
{
    let mut possible = Vec::new(alloc);
    for answer in candidates {
        let is_possible = explains(alloc, history, place, *answer)?;
        add_if(&mut possible, *answer, is_possible)?;
    }
    Ok(possible)
}

/// The answers that an operation might have had in place of the one at this place of a history of one register: with
/// each of them the entries up to it have a point order, and with no other answer. None where there may be more than
/// can be looked for. No clause says in which order they stand, nor how many can be.
///
/// # Errors
///
/// `TooManyStages`, `Unchecked` and `OutOfMemory` say nothing of the history.
pub fn possible_answers<A: Allocator + Copy>(
    alloc: A,
    history: &History<A>,
    place: usize,
) -> Result<Option<Vec<Answer, A>>, PointsFault>
    requires one { history.now.shape.registers ≡ 1 }
    requires inside { place < length history.now.entries }
    ensures { IfOk result (λ found. IfSome found (λ v. ArePossible 1 history.now.entries place v.items)) }
{
    match candidates(
        alloc,
        history,
        place,
        MOST_ENTRIES.checked_div(place).unwrap_or(0),
    )? {
        Some(answers) => Ok(Some(possible_of(alloc, history, place, &answers)?)),
        None => Ok(None),
    }
}
