//! Records, and their reader.
ghost use Rattle.std.specs.Prelude.{◌≡◌, ◌<◌, ◌≤◌, ◌⊎◌, ◌-◌, ◌^◌, OnOk, ℕ, List, length, map, None, Err, IfOk, IfErr};
ghost use Rattle.std.specs.Prelude.{MatchResult};
ghost use Rattle.reg_base.specs.Names.{names_fault};
ghost use Rattle.reg_front.specs.declared.named.Front.{Front as AnyFront};
ghost use Rattle.reg_text.specs.Lines.{AllFit};
ghost use Rattle.reg_text.specs.Reading.{GoesOn};
ghost use Rattle.reg_text.specs.declared.faults.Why.{Why as AnyWhy};
ghost use Rattle.reg_node.specs.declared.transcripts.recorded.Recorded.{Recorded as AnyRecorded};
ghost use Rattle.reg_node.specs.RecordLines.{Account, IsAccount, RecordedFits, SpellsAccount, account_lines};
ghost use Rattle.reg_node.specs.RecordLines.{head_lines, recorded_text};
ghost use Rattle.reg_node.specs.Refusals.{RefusesAccount};
ghost use Rattle.reg_node.specs.Stops.{IsWrongStep, StopsFirst};

use crate::transcripts::recorded::Recorded;
use crate::transcripts::step_lines::{read_recorded, why_further};
use reg_base::limits::{MOST_EVENTS, MOST_PROCESSES, MOST_REGISTERS};
use reg_base::{Names, Shape};
use reg_front::Front;
use reg_inputs::{read_front, read_processes};
use reg_text::{Lines, TextFault, Why, expect_line, read_names};
use std::alloc::{Allocator, Global};
use std::marker::Model;

/// Why a record is refused: the first line that is wrong, or `OutOfMemory`.
pub type RecordFault = TextFault;

/// A front end, a shape with a name for each register, and the steps of all processes in one order.
#[derive(Drop)]
pub struct Record<A: Allocator + Copy = Global> {
    pub front: Front,
    pub shape: Shape,
    pub names: Names<A>,
    pub steps: Vec<Recorded, A>,
}

impl<A: Allocator + Copy> Model for Record<A> {
    ghost use Rattle.reg_node.specs.RecordLines.{Account};

    ghost Value = { Account };

    ghost view = { λ r. record { front = r.front; shape = r.shape; names = r.names; steps = r.steps.items } };
}

/// The four header lines.
fn read_head<A: Allocator + Copy>(
    alloc: A,
    lines: &mut Lines<'_>,
) -> Result<(Front, u32, Names<A>), RecordFault>
    ensures read { IfOk result
        (λ h. (lines.old.left ≡ head_lines h.0 h.1 h.2 lines.new.left) × (0 < h.1) × (h.1 ≤ MOST_PROCESSES)
        × (names_fault h.2 ≡ None)) }
    ensures whole { (front : AnyFront) (processes : ℕ) (names rest : List (List ℕ))
        → 0 < processes → processes ≤ MOST_PROCESSES → names_fault names ≡ None
        → lines.old.left ≡ head_lines front processes names rest
        → MatchResult result (λ h. (h.0 ≡ front) × (h.1 ≡ processes) × (h.2 ≡ names) × (lines.new.left ≡ rest))
        (λ f. f ≡ TextFault.OutOfMemory) }
    ensures stopped { IfErr result
        (λ f. (f ≡ TextFault.OutOfMemory)
        ⊎ ((why : AnyWhy) × (f ≡ TextFault.Line lines.new.number why) × StopsFirst lines.old lines.new why)) }
    ensures on { OnOk result (GoesOn lines.old lines.new) }
{
    expect_line(lines, b"tellwydar record 1")?;
    let front = read_front(lines)?;
    let processes = read_processes(lines)?;
    let names = read_names(alloc, lines, MOST_REGISTERS)?;
    Ok((front, processes, names))
}

/// All steps that are left.
fn read_steps<A: Allocator + Copy>(
    alloc: A,
    lines: &mut Lines<'_>,
    names: &Names<A>,
) -> Result<Vec<Recorded, A>, RecordFault>
    requires { names_fault names.now ≡ None }
    ensures read { IfOk result
        (λ v. (lines.old.left ≡ map (recorded_text names.now) v.items)
        × AllFit (λ _ x. RecordedFits names.now x) v.items × (length v.items ≤ MOST_EVENTS)) }
    ensures whole { (ys : List AnyRecorded) → AllFit (λ _ x. RecordedFits names.now x) ys → length ys ≤ MOST_EVENTS
        → lines.old.left ≡ map (recorded_text names.now) ys
        → MatchResult result (λ v. v.items ≡ ys) (λ f. f ≡ TextFault.OutOfMemory) }
    ensures wrong { IfErr result
        (λ f. (f ≡ TextFault.OutOfMemory)
        ⊎ ((why : AnyWhy) × (f ≡ TextFault.Line lines.new.number why)
        × IsWrongStep names.now lines.old lines.new why)) }
{
    let mut steps = Vec::new(alloc);
    for _place in 0..MOST_EVENTS {
        let Some(line) = lines.next() else {
            return Ok(steps);
        };
        let Some(step) = read_recorded(line, names) else {
            return Err(lines.fault(Why::Form));
        };
        if steps.push(step).is_err() {
            return Err(TextFault::OutOfMemory);
        }
    }
    match lines.next() {
        Some(line) => Err(lines.fault(why_further(line, names))),
        None => Ok(steps),
    }
}

/// The record of these lines.
pub(crate) fn read_record<A: Allocator + Copy>(
    alloc: A,
    lines: &mut Lines<'_>,
) -> Result<Record<A>, RecordFault>
    ensures read { IfOk result (λ r. (lines.old.left ≡ account_lines r) × IsAccount r) }
    ensures whole { (a : Account) → IsAccount a → lines.old.left ≡ account_lines a
        → MatchResult result (λ r. r ≡ a) (λ f. f ≡ TextFault.OutOfMemory) }
    ensures stopped { IfErr result
        (λ f. (f ≡ TextFault.OutOfMemory)
        ⊎ ((why : AnyWhy) × (f ≡ TextFault.Line lines.new.number why) × StopsFirst lines.old lines.new why)) }
{
    let (front, processes, names) = read_head(alloc, lines)?;
    let Ok(shape) = Shape::new(processes, names.count() as u32) else {
        return Err(lines.fault(Why::Range));
    };
    let steps = read_steps(alloc, lines, &names)?;
    Ok(Record {
        front,
        shape,
        names,
        steps,
    })
}

/// The record that the text spells.
///
/// # Errors
///
/// `Line` names the first line with which no record goes on, and what is wrong with it; `OutOfMemory` says that what
/// was read could not be kept.
pub fn parse_record<A: Allocator + Copy>(alloc: A, text: &str) -> Result<Record<A>, RecordFault>
    ensures read { IfOk result (λ r. SpellsAccount text.now r × IsAccount r) }
    ensures whole { (a : Account) → IsAccount a → SpellsAccount text.now a
        → MatchResult result (λ r. r ≡ a) (λ f. f ≡ TextFault.OutOfMemory) }
    ensures line { length text.now < 2 ^ 64 - 1
        → IfErr result
        (λ f. (f ≡ TextFault.OutOfMemory)
        ⊎ ((number : ℕ) × (why : AnyWhy) × (f ≡ TextFault.Line number why) × RefusesAccount number why text.now)) }
{
    let mut lines = Lines::new(text.as_bytes());
    read_record(alloc, &mut lines)
}
