//! The event that an entry of EDN tells of.
ghost use Rattle.std.specs.Prelude.{◌≡◌, codes, option_and_then, option_map};
ghost use Rattle.serde_json.specs.Find.{get};
ghost use Rattle.serde_json.specs.View.{items_view, view};
ghost use Rattle.reg_observed.specs.Told.{Gives};
ghost use Rattle.reg_observed.specs.EdnSays.{entry_in, entry_says, is_aside as is_aside_in, is_note as is_note_in};
ghost use Rattle.reg_observed.specs.EdnSays.{keyed_in, told_keyed, two_in, two_of};

use crate::faults::{Untold, Why};
use crate::json_lines::{act, is_text, says, told, told_at};
use crate::told::Told;
use serde_json::Value;
use std::alloc::Global;

/// A key, and the value at it.
#[derive(Clone, Copy)]
struct Keyed<'a> {
    key: &'a Value,
    value: &'a Value,
}

/// The two elements of an array of two.
fn two_elements(items: &[Value]) -> Option<Keyed<'_>>
    ensures { option_map (λ k. (view k.key.now, view k.value.now)) result ≡ two_of (items_view items.now) }
{
    if items.len() != 2 {
        return None;
    }
    Some(Keyed {
        key: &items[0],
        value: &items[1],
    })
}

/// The two elements of the member `value`, where it is an array of two.
fn pair_of(value: &Value) -> Option<Keyed<'_>>
    ensures { option_map (λ k. (view k.key.now, view k.value.now)) result
        ≡ option_and_then two_in (get (codes "value") (view value.now)) }
{
    two_elements(value.get("value")?.as_array()?)
}

/// The key and the value, where an entry with no key has both in its value.
fn key_and_value(value: &Value) -> Option<Keyed<'_>>
    ensures { option_map (λ k. (view k.key.now, view k.value.now)) result ≡ keyed_in (view value.now) }
{
    if value.get("key").is_some() {
        return None;
    }
    let pair = pair_of(value)?;
    if says(value, "f", "cas") && !pair.value.is_array() {
        return None;
    }
    Some(pair)
}

/// Whether a process whose name is no number notes a thing that is no operation.
fn is_note(value: &Value) -> bool
    ensures { result ≡ is_note_in (view value.now) }
{
    is_text(value, "process") && says(value, "type", "info") && act(value).is_err()
}

/// Whether the entry is of no call.
fn is_aside(value: &Value) -> bool
    ensures { result ≡ is_aside_in (view value.now) }
{
    says(value, "process", "nemesis") || is_note(value)
}

fn told_by(global: Global, value: &Value) -> Result<Told, Untold>
    ensures { Gives (λ t. t) result (told_keyed (keyed_in (view value.now)) (view value.now)) }
{
    match key_and_value(value) {
        Some(pair) => told_at(global, value, Some(pair.key), Some(pair.value)),
        None => told(global, value),
    }
}

/// What the value tells, None where it is of no call.
#[tactic(auto, unfolding(crate::specs::EdnSays::entry_in))]
fn entry(global: Global, value: &Value) -> Result<Option<Told>, Untold>
    ensures { Gives (λ o. o) result (entry_in (view value.now)) }
{
    if is_aside(value) {
        return Ok(None);
    }
    Ok(Some(told_by(global, value)?))
}

/// The event that an entry tells of which has this text in JSON, None where it tells of no call.
///
/// # Errors
///
/// `Line` says what is wrong with the entry.
#[tactic(auto, using(crate::proofs::Utf8::tested, crate::proofs::Utf8::untested), unfolding(crate::specs::EdnSays::entry_says))]
pub(crate) fn read_entry(global: Global, json: &[u8]) -> Result<Option<Told>, Untold>
    ensures { Gives (λ o. o) result (entry_says json.now) }
{
    match Value::from_slice(global, json) {
        Ok(value) => entry(global, &value),
        Err(error) => {
            if error.is_memory() {
                Err(Untold::OutOfMemory)
            } else {
                Err(Untold::Line(Why::BadEntry))
            }
        }
    }
}
