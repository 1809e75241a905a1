//! A line of JSON, and the event that it tells of.
ghost use Rattle.std.specs.Prelude.{◌≡◌, codes, option_map, option_and_then, string_bytes, IfOk, IsUtf8, Ok, Some};
ghost use Rattle.std.specs.Prelude.{is_some};
ghost use Rattle.serde_json.specs.Find.{as_str};
ghost use Rattle.serde_json.specs.View.{items_view, view};
ghost use Rattle.reg_observed.specs.Told.{Gives, act_named, failed_as, has_no_value, moment_named};
ghost use Rattle.reg_observed.specs.Told.{moment_of as moment_of_line};
ghost use Rattle.reg_observed.specs.JsonLines.{act_in, both_texts, call_in, items_pair, line_says, is_named};
ghost use Rattle.reg_observed.specs.JsonLines.{is_nemesis, is_word, moment_in, one_value, pair_of, string_in};
ghost use Rattle.reg_observed.specs.JsonLines.{told_at as told_at_key, told_in, value_pair, value_said, values_of};
ghost use Rattle.reg_observed.specs.JsonLines.{word_in, word_or_null_of};

use crate::events::Moment;
use crate::faults::{Untold, Why};
use crate::told::Told;
use reg_judge::Act;
use serde_json::Value;
use std::alloc::{AllocError, Global};

fn moment_of(name: &str) -> Option<Moment>
    ensures { result ≡ moment_named name.now }
{
    if name == "invoke" {
        return Some(Moment::Invoke);
    }
    if name == "ok" {
        return Some(Moment::Ok);
    }
    if name == "fail" {
        return Some(Moment::Fail);
    }
    if name == "info" {
        return Some(Moment::Info);
    }
    None
}

fn act_of(name: &str) -> Result<Act, Why>
    ensures { result ≡ act_named name.now }
{
    if name == "read" {
        return Ok(Act::Read);
    }
    if name == "write" {
        return Ok(Act::Write);
    }
    if name == "swap" {
        return Ok(Act::Swap);
    }
    if name == "cas" {
        return Ok(Act::CompareAndSwap);
    }
    Err(Why::BadFunction)
}

/// Whether it is the call of an update of null.
pub(crate) fn lacks_value(moment: Moment, act: Act, value: &str) -> bool
    ensures { result ≡ has_no_value moment act value.now }
{
    moment == Moment::Invoke && act != Act::Read && value == "null"
}

/// Whether the value is a string, or an integer of 64 bits.
fn is_a_word(value: &Value) -> bool
    ensures { result ≡ is_word (view value.now) }
{
    value.is_string() || value.is_u64() || value.is_i64()
}

/// The text of the member of this name, a string or an integer.
fn word(global: Global, value: &Value, name: &str, why: Why) -> Result<String, Untold>
    ensures { Gives string_bytes result (word_in name.now why (view value.now)) }
{
    match value.get(name) {
        Some(member) => {
            if is_a_word(member) {
                Ok(member.to_string(global)?)
            } else {
                Err(Untold::Line(why))
            }
        }
        None => Err(Untold::Line(why)),
    }
}

/// The text of a value, a string, an integer or null.
fn value_text(global: Global, value: &Value, why: Why) -> Result<String, Untold>
    ensures { Gives string_bytes result (word_or_null_of why (Some (view value.now))) }
{
    if value.is_null() || is_a_word(value) {
        Ok(value.to_string(global)?)
    } else {
        Err(Untold::Line(why))
    }
}

/// The text of the value that a text is, a string, an integer or null.
pub(crate) fn read_value(global: Global, text: &str) -> Result<String, Untold>
    ensures { Gives string_bytes result (value_said text.now) }
{
    match Value::from_str(global, text) {
        Ok(value) => value_text(global, &value, Why::BadFirst),
        Err(error) => {
            if error.is_memory() {
                Err(Untold::OutOfMemory)
            } else {
                Err(Untold::Line(Why::BadFirst))
            }
        }
    }
}

/// The text of a value, a string, an integer or null, and null where there is none.
fn word_or_null(global: Global, value: Option<&Value>, why: Why) -> Result<String, Untold>
    ensures { Gives string_bytes result (word_or_null_of why (option_map (λ v. view v.now) value.entry)) }
{
    match value {
        Some(value) => value_text(global, value, why),
        None => Ok(String::from_str(global, "null")?),
    }
}

/// Whether the member of this name is a string.
pub(crate) fn is_text(value: &Value, name: &str) -> bool
    ensures { result ≡ is_some (string_in name.now (view value.now)) }
{
    value.get(name).and_then(Value::as_str).is_some()
}

/// Whether the member of this name is this string.
pub(crate) fn says(value: &Value, name: &str, text: &str) -> bool
    ensures { result ≡ is_named name.now text.now (view value.now) }
{
    match value.get(name).and_then(Value::as_str) {
        Some(said) => said == text,
        None => false,
    }
}

fn moment(value: &Value) -> Result<Moment, Untold>
    ensures { Gives (λ m. m) result (moment_in (view value.now)) }
{
    match value.get("type").and_then(Value::as_str) {
        Some(name) => match moment_of(name) {
            Some(moment) => Ok(moment),
            None => Err(Untold::Line(Why::BadType)),
        },
        None => Err(Untold::Line(Why::BadType)),
    }
}

/// The operation that the member `f` names.
pub(crate) fn act(value: &Value) -> Result<Act, Why>
    ensures { result ≡ act_in (view value.now) }
{
    match value.get("f").and_then(Value::as_str) {
        Some(name) => act_of(name),
        None => Err(Why::BadFunction),
    }
}

/// How a call is answered that is said to have failed.
fn failed(act: Act, unequal: bool) -> Moment
    ensures { result ≡ failed_as act unequal }
{
    if act == Act::CompareAndSwap && unequal {
        Moment::Unequal
    } else {
        Moment::Fail
    }
}

/// The moment of this name, of a call of this kind, where `unequal` says whether the line tells of another value than
/// the expected one.
fn told_moment(moment: Moment, act: Act, unequal: bool) -> Moment
    ensures { result ≡ moment_of_line moment act unequal }
{
    match moment {
        Moment::Fail => failed(act, unequal),
        Moment::Invoke => Moment::Invoke,
        Moment::Ok => Moment::Ok,
        Moment::Info => Moment::Info,
        Moment::Unequal => Moment::Unequal,
    }
}

/// The texts of two elements.
fn elements(global: Global, first: &Value, second: &Value) -> Result<(String, String), Untold>
    ensures { Gives both_texts result (pair_of (view first.now) (view second.now)) }
{
    let expected = value_text(global, first, Why::BadPair)?;
    let value = value_text(global, second, Why::BadPair)?;
    Ok((expected, value))
}

/// Null, twice.
fn nulls(global: Global) -> Result<(String, String), Untold>
    ensures { Gives both_texts result (Ok (codes "null", codes "null")) }
{
    let expected = String::from_str(global, "null")?;
    let value = String::from_str(global, "null")?;
    Ok((expected, value))
}

/// The texts of the elements of an array of two.
fn array_of_two(global: Global, items: &[Value]) -> Result<(String, String), Untold>
    ensures { Gives both_texts result (items_pair (items_view items.now)) }
{
    if items.len() != 2 {
        return Err(Untold::Line(Why::BadPair));
    }
    elements(global, &items[0], &items[1])
}

/// The expected and the new value of a compare-and-swap.
fn pair(global: Global, value: Option<&Value>) -> Result<(String, String), Untold>
    ensures { Gives both_texts result (value_pair (option_map (λ v. view v.now) value.entry)) }
{
    let Some(value) = value else {
        return nulls(global);
    };
    if value.is_null() {
        return nulls(global);
    }
    match value.as_array() {
        Some(items) => array_of_two(global, items),
        None => Err(Untold::Line(Why::BadPair)),
    }
}

/// The value of a call that expects none.
fn single(global: Global, value: Option<&Value>) -> Result<(String, String), Untold>
    ensures { Gives both_texts result (one_value (option_map (λ v. view v.now) value.entry)) }
{
    let value = word_or_null(global, value, Why::BadValue)?;
    let expected = String::from_str(global, "null")?;
    Ok((expected, value))
}

/// What a call expects, null where it is no compare-and-swap, and its value.
fn values(global: Global, value: Option<&Value>, act: Act) -> Result<(String, String), Untold>
    ensures { Gives both_texts result (values_of act (option_map (λ v. view v.now) value.entry)) }
{
    if act == Act::CompareAndSwap {
        pair(global, value)
    } else {
        single(global, value)
    }
}

/// The event that the value tells of, with this key and this value.
#[tactic(auto, unfolding(crate::specs::JsonLines::told_at))]
pub(crate) fn told_at(
    global: Global,
    value: &Value,
    key: Option<&Value>,
    said: Option<&Value>,
) -> Result<Told, Untold>
    ensures { Gives (λ t. t) result
        (told_at_key (option_map (λ v. view v.now) key.entry) (option_map (λ v. view v.now) said.entry)
        (view value.now)) }
{
    let process = word(global, value, "process", Why::BadProcess)?;
    let moment = moment(value)?;
    let act = act(value)?;
    let key = word_or_null(global, key, Why::BadKey)?;
    let moment = told_moment(moment, act, says(value, "error", "unequal"));
    let (expected, value) = values(global, said, act)?;
    if lacks_value(moment, act, value.as_str()) {
        return Err(Untold::Line(Why::NoValue));
    }
    Ok(Told {
        process,
        moment,
        act,
        key,
        expected,
        value,
    })
}

/// The event that the value tells of.
pub(crate) fn told(global: Global, value: &Value) -> Result<Told, Untold>
    ensures { Gives (λ t. t) result (told_in (view value.now)) }
{
    told_at(global, value, value.get("key"), value.get("value"))
}

/// What the value tells, None where it is of no call.
#[tactic(auto, unfolding(crate::specs::JsonLines::call_in))]
fn told_of(global: Global, value: &Value) -> Result<Option<Told>, Untold>
    ensures { Gives (λ o. o) result (call_in (view value.now)) }
{
    if says(value, "process", "nemesis") {
        return Ok(None);
    }
    Ok(Some(told(global, value)?))
}

/// The event that a line tells of, None where it tells of no call.
///
/// # Errors
///
/// `Line` says what is wrong with the line.
#[tactic(auto, using(crate::proofs::Utf8::tested, crate::proofs::Utf8::untested), unfolding(crate::specs::JsonLines::line_says))]
pub(crate) fn read_line(global: Global, line: &[u8]) -> Result<Option<Told>, Untold>
    ensures { Gives (λ o. o) result (line_says line.now) }
{
    if line.is_empty() {
        return Ok(None);
    }
    match Value::from_slice(global, line) {
        Ok(value) => told_of(global, &value),
        Err(error) => {
            if error.is_memory() {
                Err(Untold::OutOfMemory)
            } else {
                Err(Untold::Line(Why::Form))
            }
        }
    }
}
