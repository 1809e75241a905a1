//! Reading a history of JSON lines, or of EDN.
ghost use Rattle.std.specs.Prelude.{◌≡◌, ◌⊎◌, false, ◌<◌, ◌+◌, [], ℕ, List, Ok, Err, IfOk, IfErr, OnOk, length};
ghost use Rattle.reg_text.specs.Lines.{lines_of};
ghost use Rattle.reg_observed.specs.Told.{Telling};
ghost use Rattle.reg_observed.specs.JsonLines.{line_says};
ghost use Rattle.reg_observed.specs.Reading.{AreEvents, Hears, lines_tell};
ghost use Rattle.reg_observed.specs.declared.faults.Why.{Why as AnyWhy};
ghost use Rattle.reg_observed.specs.Edn.{begins_edn as begins_edn_in};
ghost use Rattle.reg_observed.specs.Histories.{text_tells};

use crate::edn::{begins_edn, read_edn};
use crate::faults::{ReadFault, Untold};
use crate::heard::Heard;
use crate::json_lines::read_line;
use crate::told::Told;
use reg_base::limits::MOST_EVENTS;
use reg_text::Lines;
use std::alloc::Global;

/// Adds what was told on the line of this number, where it is of a call.
pub(crate) fn add(heard: &mut Heard, number: u32, told: Option<Told>) -> Result<(), ReadFault>
    ensures told { OnOk result (Hears heard.old heard.new number told) }
    ensures why { IfErr result (λ f. f ≡ ReadFault.OutOfMemory) }
{
    match told {
        Some(told) => {
            let event = heard.words.event(number, told)?;
            heard.events.push(event)?;
            Ok(())
        }
        None => Ok(()),
    }
}

/// What the line of this number tells, None where it tells of no call.
fn tell(global: Global, number: u32, line: &[u8]) -> Result<Option<Told>, ReadFault>
    ensures told { IfOk result (λ o. line_says line.now ≡ Ok o) }
    ensures why { IfErr result
        (λ f. (f ≡ ReadFault.OutOfMemory)
        ⊎ ((why : AnyWhy) × (f ≡ ReadFault.Line number why) × (line_says line.now ≡ Err why))) }
{
    match read_line(global, line) {
        Ok(told) => Ok(told),
        Err(Untold::Line(why)) => Err(ReadFault::Line { line: number, why }),
        Err(Untold::OutOfMemory) => Err(ReadFault::OutOfMemory),
    }
}

/// Adds all that the lines tell.
fn hear(global: Global, lines: &mut Lines<'_>, heard: &mut Heard) -> Result<(), ReadFault>
    requires { heard.old.events.items ≡ [] }
    ensures read { OnOk result
        ((told : List (ℕ × Telling)) × (lines_tell 1 lines.old.left ≡ Ok told)
        × AreEvents heard.new.words told heard.new.events.items) }
    ensures refused { IfErr result
        (λ f. (f ≡ ReadFault.OutOfMemory) ⊎ ((f ≡ ReadFault.TooLong) × (MOST_EVENTS < length lines.old.left))
        ⊎ ((line : ℕ) × (why : AnyWhy) × (f ≡ ReadFault.Line line why)
        × (lines_tell 1 lines.old.left ≡ Err (line, why)))) }
{
    for place in 0..MOST_EVENTS {
        let Some(line) = lines.next() else {
            return Ok(());
        };
        match tell(global, place + 1, line) {
            Ok(told) => add(heard, place + 1, told)?,
            Err(fault) => return Err(fault),
        }
    }
    match lines.next() {
        Some(_) => Err(ReadFault::TooLong),
        None => Ok(()),
    }
}

/// The history that the lines of a text tell, each of them JSON.
///
/// # Errors
///
/// `Line` names the first line that is refused, and why; `TooLong` is told of more than `limits::MOST_EVENTS` lines.
pub fn read_json_lines(global: Global, text: &str) -> Result<Heard, ReadFault>
    ensures read { IfOk result
        (λ h. (told : List (ℕ × Telling)) × (lines_tell 1 (lines_of text.now) ≡ Ok told)
        × AreEvents h.words told h.events.items) }
    ensures refused { IfErr result
        (λ f. (f ≡ ReadFault.OutOfMemory) ⊎ ((f ≡ ReadFault.TooLong) × (MOST_EVENTS < length (lines_of text.now)))
        ⊎ ((line : ℕ) × (why : AnyWhy) × (f ≡ ReadFault.Line line why)
        × (lines_tell 1 (lines_of text.now) ≡ Err (line, why)))) }
{
    let mut heard = Heard::new(global);
    let mut lines = Lines::new(text.as_bytes());
    hear(global, &mut lines, &mut heard)?;
    Ok(heard)
}

/// The history that a text tells, as EDN where it begins so, and else as lines of JSON.
///
/// # Errors
///
/// `Line` names the first line that is refused, and why; `TooLong` is told of more than `limits::MOST_EVENTS` lines of
/// JSON.
pub fn read_history(global: Global, text: &str) -> Result<Heard, ReadFault>
    ensures read { IfOk result
        (λ h. (told : List (ℕ × Telling)) × (text_tells text.now ≡ Ok told) × AreEvents h.words told h.events.items) }
    ensures refused { IfErr result
        (λ f. (f ≡ ReadFault.OutOfMemory)
        ⊎ ((f ≡ ReadFault.TooLong) × (begins_edn_in text.now ≡ false) × (MOST_EVENTS < length (lines_of text.now)))
        ⊎ ((line : ℕ) × (why : AnyWhy) × (f ≡ ReadFault.Line line why) × (text_tells text.now ≡ Err (line, why)))) }
{
    if begins_edn(text.as_bytes()) {
        read_edn(global, text)
    } else {
        read_json_lines(global, text)
    }
}
