//! The calls and answers that make a history: of each event what it means, by how its call ends.
ghost use Rattle.std.specs.Prelude.{◌≡◌, ◌<◌, ◌≤◌, ℕ, [], IfOk, OnOk, Some, length, reverse, slice_get};
ghost use Rattle.reg_observed.specs.Rows.{answer_in, counts, numbered, row_before, row_of as row_of_event, rows_from};
ghost use Rattle.reg_observed.specs.Rows.{step_of as step_of_event};
ghost use Rattle.reg_observed.specs.declared.events.Event.{Event as AnyEvent};

use crate::events::{Event, Moment};
use reg_base::Answer;
use reg_base::limits::MOST_EVENTS;
use reg_judge::{Act, Row, Step};
use std::alloc::{AllocError, Global};

/// The number by which registers have the value of this number, where `first` is the number of their first value: that
/// one is 0, and no two have the same.
pub(crate) fn value_of(first: u32, number: u32) -> u64
    ensures { result ≡ numbered first number }
{
    if number == first {
        0
    } else if number == 0 {
        u64::from(first)
    } else {
        u64::from(number)
    }
}

/// The number of the value that registers have by this number, where `first` is the number of their first value: 0
/// where there is none.
pub(crate) fn number_of(first: u32, value: u64) -> u32 {
    match u32::try_from(value) {
        Ok(0) => first,
        Ok(number) if number == first => 0,
        Ok(number) => number,
        Err(_) => 0,
    }
}

fn answer_of(first: u32, event: Event) -> Answer
    ensures { result ≡ answer_in first event }
{
    match event.act {
        Act::Read | Act::Swap => Answer::Value(value_of(first, event.value)),
        Act::Write | Act::CompareAndSwap => Answer::Done,
    }
}

/// Whether the call may have taken effect, where this is told next of its process: it was answered, or it updates and
/// is not said to have failed.
fn may_count(event: Event, next: Option<Moment>) -> bool
    ensures { result ≡ counts event next }
{
    match next {
        Some(Moment::Ok) | Some(Moment::Unequal) => true,
        Some(Moment::Fail) => false,
        Some(Moment::Invoke) | Some(Moment::Info) | None => event.act != Act::Read,
    }
}

/// What the event means, where this is told next of its process. None where it means nothing.
fn step_of(first: u32, event: Event, next: Option<Moment>) -> Option<Step>
    ensures { result ≡ step_of_event first event next }
{
    match event.moment {
        Moment::Invoke => {
            if may_count(event, next) {
                Some(Step::Call {
                    act: event.act,
                    expected: value_of(first, event.expected),
                    value: value_of(first, event.value),
                })
            } else {
                None
            }
        }
        Moment::Ok => Some(Step::Answer(answer_of(first, event))),
        Moment::Unequal => Some(Step::Answer(Answer::Unequal)),
        Moment::Fail | Moment::Info => None,
    }
}

fn row_of(first: u32, at: u32, event: Event, next: Option<Moment>) -> Option<Row>
    ensures { result ≡ row_of_event first at event next }
{
    Some(Row {
        at,
        process: event.process,
        key: event.key,
        step: step_of(first, event, next)?,
    })
}

/// Adds the row, if there is one.
fn push_some(rows: &mut Vec<Row>, row: Option<Row>) -> Result<(), AllocError>
    ensures { OnOk result (reverse rows.new.items ≡ row_before row (reverse rows.old.items)) }
{
    match row {
        Some(row) => {
            rows.push(row)?;
            Ok(())
        }
        None => Ok(()),
    }
}

/// Adds the rows of the events to `rows`, the last of them first.
fn add_backwards(
    global: Global,
    processes: usize,
    first: u32,
    events: &[Event],
    rows: &mut Vec<Row>,
) -> Result<(), AllocError>
    requires empty { rows.old.items ≡ [] }
    requires few { length events.now ≤ MOST_EVENTS }
    requires processes { (k : ℕ) (e : AnyEvent) → slice_get events.now k ≡ Some e → e.process < processes }
    ensures { OnOk result (reverse rows.new.items ≡ rows_from first 0 events.now) }
{
    let mut next = vec![in global; None; processes]?;
    let mut left = events.len();
    while left > 0 {
        left -= 1;
        let event = events[left];
        let process = event.process as usize;
        push_some(rows, row_of(first, left as u32, event, next[process]))?;
        next[process] = Some(event.moment);
    }
    Ok(())
}

/// The calls and answers of the events, in their order, where `first` is the number of the first value of registers.
pub(crate) fn rows_of(
    global: Global,
    processes: usize,
    first: u32,
    events: &[Event],
) -> Result<Vec<Row>, AllocError>
    requires few { length events.now ≤ MOST_EVENTS }
    requires processes { (k : ℕ) (e : AnyEvent) → slice_get events.now k ≡ Some e → e.process < processes }
    ensures { IfOk result (λ v. v.items ≡ rows_from first 0 events.now) }
{
    let mut rows = Vec::new(global);
    add_backwards(global, processes, first, events, &mut rows)?;
    rows.reverse();
    Ok(rows)
}
