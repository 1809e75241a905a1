//! Schedules, and their reader.
ghost use Rattle.std.specs.Prelude.{◌≡◌, ◌<◌, ◌≤◌, ◌⊎◌, ◌-◌, ◌^◌, OnOk, ℕ, List, length, map, None, Err, IfOk, IfErr};
ghost use Rattle.std.specs.Prelude.{MatchResult};
ghost use Rattle.reg_base.specs.Names.{names_fault};
ghost use Rattle.reg_process.specs.declared.events.Event.{Event};
ghost use Rattle.reg_front.specs.declared.named.Front.{Front};
ghost use Rattle.reg_text.specs.Lines.{AllFit};
ghost use Rattle.reg_text.specs.Reading.{GoesOn};
ghost use Rattle.reg_text.specs.declared.faults.Why.{Why as AnyWhy};
ghost use Rattle.reg_inputs.specs.Schedules.{event_text, EventFits, Plan, IsPlan, Spells, plan_head, plan_lines};
ghost use Rattle.reg_inputs.specs.Refusals.{RefusesLine};
ghost use Rattle.reg_inputs.specs.Stops.{StopsFirst, IsWrongEvent};

use crate::event_lines::{read_event, why_further};
use crate::head_lines::{read_front, read_processes};
use reg_base::limits::{MOST_EVENTS, MOST_PROCESSES, MOST_REGISTERS};
use reg_base::{Names, Shape};
use reg_front::Front;
use reg_process::Event;
use reg_text::{Lines, TextFault, Why, read_names};
use std::alloc::{Allocator, Global};
use std::marker::Model;

/// Why a schedule is refused: the first line that is wrong, or `OutOfMemory`.
pub type ScheduleFault = TextFault;

/// A shape, names for its registers, a front end and a list of events.
#[derive(Drop)]
pub struct Schedule<A: Allocator + Copy = Global> {
    pub shape: Shape,
    pub names: Names<A>,
    pub front: Front,
    pub events: Vec<Event, A>,
}

impl<A: Allocator + Copy> Model for Schedule<A> {
    ghost use Rattle.reg_inputs.specs.Schedules.{Plan};

    ghost Value = { Plan };

    ghost view = { λ s. record { shape = s.shape; names = s.names; front = s.front; events = s.events.items } };
}

/// The three header lines.
fn read_head<A: Allocator + Copy>(
    alloc: A,
    lines: &mut Lines<'_>,
) -> Result<(u32, Names<A>, Front), ScheduleFault>
    ensures read { IfOk result
        (λ h. (lines.old.left ≡ plan_head h.0 h.1 h.2 lines.new.left) × (0 < h.0) × (h.0 ≤ MOST_PROCESSES)
        × (names_fault h.1 ≡ None)) }
    ensures whole { (processes : ℕ) (names : List (List ℕ)) (front : Front) (rest : List (List ℕ))
        → 0 < processes → processes ≤ MOST_PROCESSES → names_fault names ≡ None
        → lines.old.left ≡ plan_head processes names front rest
        → MatchResult result (λ h. (h.0 ≡ processes) × (h.1 ≡ names) × (h.2 ≡ front) × (lines.new.left ≡ rest))
        (λ f. f ≡ TextFault.OutOfMemory) }
    ensures stopped { IfErr result
        (λ f. (f ≡ TextFault.OutOfMemory)
        ⊎ ((why : AnyWhy) × (f ≡ TextFault.Line lines.new.number why) × StopsFirst lines.old lines.new why)) }
    ensures on { OnOk result (GoesOn lines.old lines.new) }
{
    let processes = read_processes(lines)?;
    let names = read_names(alloc, lines, MOST_REGISTERS)?;
    let front = read_front(lines)?;
    Ok((processes, names, front))
}

/// All events that are left.
fn read_events<A: Allocator + Copy>(
    alloc: A,
    lines: &mut Lines<'_>,
    names: &Names<A>,
) -> Result<Vec<Event, A>, ScheduleFault>
    requires { names_fault names.now ≡ None }
    ensures read { IfOk result
        (λ v. (lines.old.left ≡ map (event_text names.now) v.items) × AllFit (λ _ x. EventFits names.now x) v.items
        × (length v.items ≤ MOST_EVENTS)) }
    ensures whole { (ys : List Event) → AllFit (λ _ x. EventFits names.now x) ys → length ys ≤ MOST_EVENTS
        → lines.old.left ≡ map (event_text names.now) ys
        → MatchResult result (λ v. v.items ≡ ys) (λ f. f ≡ TextFault.OutOfMemory) }
    ensures wrong { IfErr result
        (λ f. (f ≡ TextFault.OutOfMemory)
        ⊎ ((why : AnyWhy) × (f ≡ TextFault.Line lines.new.number why)
        × IsWrongEvent names.now lines.old lines.new why)) }
{
    let mut events = Vec::new(alloc);
    for _place in 0..MOST_EVENTS {
        let Some(line) = lines.next() else {
            return Ok(events);
        };
        let event = match read_event(line, names) {
            Ok(event) => event,
            Err(misfit) => return Err(lines.fault(misfit.why())),
        };
        if events.push(event).is_err() {
            return Err(TextFault::OutOfMemory);
        }
    }
    match lines.next() {
        Some(line) => Err(lines.fault(why_further(line, names))),
        None => Ok(events),
    }
}

/// The schedule of these lines.
fn read_plan<A: Allocator + Copy>(
    alloc: A,
    lines: &mut Lines<'_>,
) -> Result<Schedule<A>, ScheduleFault>
    ensures read { IfOk result (λ s. (lines.old.left ≡ plan_lines s) × IsPlan s) }
    ensures whole { (p : Plan) → IsPlan p → lines.old.left ≡ plan_lines p
        → MatchResult result (λ w. w ≡ p) (λ f. f ≡ TextFault.OutOfMemory) }
    ensures stopped { IfErr result
        (λ f. (f ≡ TextFault.OutOfMemory)
        ⊎ ((why : AnyWhy) × (f ≡ TextFault.Line lines.new.number why) × StopsFirst lines.old lines.new why)) }
{
    let (processes, names, front) = read_head(alloc, lines)?;
    let Ok(shape) = Shape::new(processes, names.count() as u32) else {
        return Err(lines.fault(Why::Range));
    };
    let events = read_events(alloc, lines, &names)?;
    Ok(Schedule {
        shape,
        names,
        front,
        events,
    })
}

/// The schedule that the text spells. Lines that are empty or begin with `#` are passed over, and counted. The register
/// of a call has to have a name; whether there is such a process or frame is left to the world to judge.
///
/// # Errors
///
/// `Line` names the first line that is wrong, and what is wrong with it; `OutOfMemory` says that what was read could
/// not be kept.
pub fn parse_schedule<A: Allocator + Copy>(
    alloc: A,
    text: &str,
) -> Result<Schedule<A>, ScheduleFault>
    ensures read { IfOk result (λ s. Spells text.now s × IsPlan s) }
    ensures whole { (p : Plan) → IsPlan p → Spells text.now p
        → MatchResult result (λ w. w ≡ p) (λ f. f ≡ TextFault.OutOfMemory) }
    ensures line { length text.now < 2 ^ 64 - 1
        → IfErr result
        (λ f. (f ≡ TextFault.OutOfMemory)
        ⊎ ((number : ℕ) × (why : AnyWhy) × (f ≡ TextFault.Line number why) × RefusesLine number why text.now)) }
{
    let mut lines = Lines::skipping(text.as_bytes());
    read_plan(alloc, &mut lines)
}
