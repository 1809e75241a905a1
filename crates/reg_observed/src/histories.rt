//! The history of calls and answers that were heard, and where in it something is wrong.
ghost use Rattle.std.specs.Prelude.{◌≡◌, IfOk, length};
ghost use Rattle.reg_judge.specs.Standing.{IsStood};
ghost use Rattle.reg_observed.specs.Verdicts.{registers_for};

use crate::events::Event;
use crate::faults::JudgeFault;
use crate::heard::Heard;
use reg_base::Shape;
use reg_base::limits::{MOST_PROCESSES, MOST_REGISTERS};
use reg_checkers::History;
use reg_judge::{Naming, Row, RuleFault, history_of};
use std::alloc::Allocator;

/// The shape of a history of so many keys.
pub(crate) fn shape_of(keys: usize) -> Result<Shape, JudgeFault>
    ensures { IfOk result (λ s. s.registers ≡ registers_for keys) }
{
    if keys > MOST_REGISTERS as usize {
        return Err(JudgeFault::Keys { count: keys });
    }
    match Shape::new(MOST_PROCESSES, keys.max(1) as u32) {
        Ok(shape) => Ok(shape),
        Err(_) => Err(JudgeFault::Keys { count: keys }),
    }
}

/// The line that tells of the event of this number.
fn line_of(events: &[Event], at: u32) -> u32 {
    match events.get(at as usize) {
        Some(event) => event.line,
        None => 0,
    }
}

/// Why a history of the events is not judged: of an event its line is told.
pub(crate) fn unruled(events: &[Event], fault: RuleFault) -> JudgeFault {
    match fault {
        RuleFault::Full { at } => JudgeFault::Full {
            line: line_of(events, at),
        },
        RuleFault::OutOfPlace { at } => JudgeFault::OutOfPlace {
            line: line_of(events, at),
        },
        RuleFault::TooWide { at } => JudgeFault::TooWide {
            line: line_of(events, at),
        },
        RuleFault::Unchecked => JudgeFault::Unchecked,
        RuleFault::NoReport => JudgeFault::NoReport,
        RuleFault::OutOfMemory => JudgeFault::OutOfMemory,
    }
}

/// The history of rows, under any names.
pub(crate) fn history_in<A: Allocator + Copy>(
    alloc: A,
    heard: &Heard,
    rows: &[Row],
) -> Result<History<A>, JudgeFault>
    ensures stands { IfOk result
        (λ h. IsStood Naming.Any (length heard.now.words.processes) (registers_for (length heard.now.words.keys))
        rows.now h.entries) }
    ensures registers { IfOk result (λ h. h.shape.registers ≡ registers_for (length heard.now.words.keys)) }
{
    let shape = shape_of(heard.words.keys.count())?;
    let processes = heard.words.processes.count();
    match history_of(alloc, shape, Naming::Any, processes, rows) {
        Ok(history) => Ok(history),
        Err(fault) => Err(unruled(&heard.events, RuleFault::from(fault))),
    }
}
