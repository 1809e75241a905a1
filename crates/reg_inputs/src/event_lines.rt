//! Readers of the lines of events.
ghost use Rattle.std.specs.Prelude.{◌≡◌, ◌≤◌, ℕ, ◌∷◌, ◌++◌, None, Some, IfSome, Ok, IfOk, IfErr};
ghost use Rattle.std.specs.Fmt.{decimal};
ghost use Rattle.reg_base.specs.Names.{names_fault};
ghost use Rattle.reg_base.specs.declared.memory.Op.{Op};
ghost use Rattle.reg_process.specs.declared.events.Event.{Event};
ghost use Rattle.reg_text.specs.Ops.{op_text, OpFits};
ghost use Rattle.reg_inputs.specs.Schedules.{event_text, EventFits};
ghost use Rattle.reg_inputs.specs.LineForms.{IsLineWhy, IsFurtherWhy};
ghost use Rattle.reg_inputs.specs.Misfits.{IsEventBy, TellsMisfit, why_of};

use crate::event_misfits::{event_misfit, event_misfit_by};
use crate::misfits::{Misfit, Rule};
use reg_base::{Names, Op};
use reg_process::Event;
use reg_text::{Why, field_within, numeral_within, read_op, skip};
use std::alloc::Allocator;

const LAST_PROCESS: u64 = 255;

const LAST_FRAME: u64 = 4_294_967_295;

/// The process and the operation of a call.
fn read_call<A: Allocator + Copy>(text: &[u8], names: &Names<A>) -> Option<(u8, Op)>
    requires { names_fault names.now ≡ None }
    ensures read { IfSome result
        (λ p. (text.now ≡ decimal p.0 ++ 32 ∷ op_text names.now p.1) × (p.0 ≤ 255) × OpFits names.now p.1) }
    ensures whole { (process : ℕ) (op : Op) → process ≤ 255 → OpFits names.now op
        → text.now ≡ decimal process ++ 32 ∷ op_text names.now op → result ≡ Some (process, op) }
{
    let (process, rest) = field_within(text, LAST_PROCESS, b' ')?;
    let op = read_op(rest, names)?;
    Some((process as u8, op))
}

/// The wire and the number of a take.
fn read_take(text: &[u8]) -> Option<(u8, u8, u32)>
    ensures read { IfSome result
        (λ p. (text.now ≡ decimal p.0 ++ 32 ∷ (decimal p.1 ++ 32 ∷ decimal p.2)) × (p.0 ≤ 255) × (p.1 ≤ 255)
        × (p.2 ≤ 4294967295)) }
    ensures whole { (from to number : ℕ) → from ≤ 255 → to ≤ 255 → number ≤ 4294967295
        → text.now ≡ decimal from ++ 32 ∷ (decimal to ++ 32 ∷ decimal number) → result ≡ Some (from, to, number) }
{
    let (from, rest) = field_within(text, LAST_PROCESS, b' ')?;
    let (to, digits) = field_within(rest, LAST_PROCESS, b' ')?;
    let number = numeral_within(digits, LAST_FRAME)?;
    Some((from as u8, to as u8, number as u32))
}

/// The event of a line. None where the line is no event's.
fn event_of<A: Allocator + Copy>(line: &[u8], names: &Names<A>) -> Option<Event>
    requires { names_fault names.now ≡ None }
    ensures read { IfSome result (λ e. (line.now ≡ event_text names.now e) × EventFits names.now e) }
    ensures whole { (e : Event) → EventFits names.now e → line.now ≡ event_text names.now e → result ≡ Some e }
{
    if let Some(text) = skip(line, b"call ") {
        let (process, op) = read_call(text, names)?;
        return Some(Event::Call { process, op });
    }
    if let Some(text) = skip(line, b"take ") {
        let (from, to, number) = read_take(text)?;
        return Some(Event::Take { from, to, number });
    }
    let text = skip(line, b"tick ")?;
    let process = numeral_within(text, LAST_PROCESS)?;
    Some(Event::Tick {
        process: process as u8,
    })
}

/// The event of a line.
///
/// # Errors
///
/// The first word with which no event's line goes on.
pub fn read_event<A: Allocator + Copy>(line: &[u8], names: &Names<A>) -> Result<Event, Misfit>
    requires { names_fault names.now ≡ None }
    ensures read { IfOk result (λ e. (line.now ≡ event_text names.now e) × EventFits names.now e) }
    ensures whole { (e : Event) → EventFits names.now e → line.now ≡ event_text names.now e → result ≡ Ok e }
    ensures misfit { IfErr result (TellsMisfit (IsEventBy names.now) names.now line.now) }
    ensures why { IfErr result (λ m. IsLineWhy names.now line.now (why_of m.rule m.wanted)) }
{
    match event_of(line, names) {
        Some(event) => Ok(event),
        None => match event_misfit(line, names) {
            Some(misfit) => Err(misfit),
            None => unreachable!(),
        },
    }
}

/// Why a line after the last event that a schedule may have is refused: its form is judged before its place.
pub fn why_further<A: Allocator + Copy>(line: &[u8], names: &Names<A>) -> Why
    requires { names_fault names.now ≡ None }
    ensures { IsFurtherWhy line.now result }
{
    match event_misfit_by(line, names, Rule::Form) {
        Some(_) => Why::Form,
        None => Why::Range,
    }
}
