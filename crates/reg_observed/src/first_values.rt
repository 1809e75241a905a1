//! The first value of registers.
ghost use Rattle.std.specs.Prelude.{◌≡◌, IfOk, OnOk, Some, if◌then◌else◌, option_copied, slice_get};
ghost use Rattle.std.specs.List.{list_any};
ghost use Rattle.reg_observed.specs.Heard.{Extends};
ghost use Rattle.reg_observed.specs.Rows.{answers_this, asks, expects_this, speaks_of};
ghost use Rattle.reg_observed.specs.JsonLines.{value_said};
ghost use Rattle.reg_observed.specs.Verdicts.{IsFirst, IsNumberOf, IsUsualFirst};

use crate::events::{Event, Moment};
use crate::faults::{JudgeFault, ReadFault, Untold};
use crate::json_lines::read_value;
use crate::words::Words;
use reg_judge::Act;
use std::alloc::Global;

/// Whether an answer of this kind, that the call is done, tells of a value.
fn asks_value(act: Act) -> bool
    ensures { result ≡ asks act }
{
    match act {
        Act::Read | Act::Swap => true,
        Act::Write | Act::CompareAndSwap => false,
    }
}

/// Whether the event is an answer that tells of the value of this number.
fn tells_of(event: &Event, value: u32) -> bool
    ensures { result ≡ answers_this value event.now }
{
    event.moment == Moment::Ok && asks_value(event.act) && event.value == value
}

/// Whether the event is the call of a compare-and-swap that expects the value of this number.
fn expects(event: &Event, value: u32) -> bool
    ensures { result ≡ expects_this value event.now }
{
    event.moment == Moment::Invoke && event.act == Act::CompareAndSwap && event.expected == value
}

/// The number of a word.
fn number_of(global: Global, values: &mut Words, word: &str) -> Result<u32, ReadFault>
    ensures here { IfOk result (λ n. slice_get values.new n ≡ Some word.now) }
    ensures wider { OnOk result (Extends values.old values.new) }
{
    let word = String::from_str(global, word)?;
    values.number(word)
}

/// Whether some answer tells of the value of this number, or a compare-and-swap expects it.
fn is_told(events: &[Event], value: u32) -> bool
    ensures { result ≡ list_any (speaks_of value) events.now }
{
    events
        .iter()
        .any(|event| tells_of(event, value) || expects(event, value))
}

/// The first of two numbers where some event speaks of its value, and else the second.
fn first_if_told(events: &[Event], null: u32, zero: u32) -> u32
    ensures { result ≡ (if list_any (speaks_of null) events.now then null else zero) }
{
    if is_told(events, null) { null } else { zero }
}

/// The number of the usual first value of registers: of null where some answer is null or a compare-and-swap expects
/// null, and else of 0.
fn usual_first(global: Global, values: &mut Words, events: &[Event]) -> Result<u32, ReadFault>
    ensures first { IfOk result (IsUsualFirst values.new events.now) }
    ensures wider { OnOk result (Extends values.old values.new) }
{
    let null = number_of(global, values, "null")?;
    let zero = number_of(global, values, "0")?;
    Ok(first_if_told(events, null, zero))
}

/// The number of the value that a text says.
fn number_said(global: Global, values: &mut Words, text: &str) -> Result<u32, JudgeFault>
    ensures here { IfOk result (IsNumberOf values.new (value_said text.now)) }
    ensures wider { OnOk result (Extends values.old values.new) }
{
    match read_value(global, text) {
        Ok(word) => Ok(values.number(word)?),
        Err(Untold::Line(why)) => Err(JudgeFault::First { why }),
        Err(Untold::OutOfMemory) => Err(JudgeFault::OutOfMemory),
    }
}

/// The number of the first value of registers: of the one that this text says, or else the usual one.
pub(crate) fn first_value(
    global: Global,
    values: &mut Words,
    events: &[Event],
    asked: Option<&str>,
) -> Result<u32, JudgeFault>
    ensures first { IfOk result (IsFirst (option_copied asked.entry) values.new events.now) }
    ensures wider { OnOk result (Extends values.old values.new) }
{
    match asked {
        Some(text) => number_said(global, values, text),
        None => Ok(usual_first(global, values, events)?),
    }
}
