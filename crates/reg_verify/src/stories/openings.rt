//! Whether a chapter begins with the writes of what the chapter before it ended with.
ghost use Rattle.std.specs.Prelude.{◌≡◌, ◌<◌, ◌≤◌, ◌↔◌, ℕ, true, IfOk, MatchOption, length};
ghost use Rattle.reg_base.specs.declared.limits.TheConstants.{MOST_REGISTERS};
ghost use Rattle.reg_base.specs.Memory.{register_of};
ghost use Rattle.reg_base.specs.declared.memory.OpId.{OpId as AnyId};
ghost use Rattle.reg_checkers.specs.History.{IsAt, WasCalled};
ghost use Rattle.reg_checkers.specs.Table.{IsTable};
ghost use Rattle.reg_verify.specs.Stories.{BeginsToOpen, EndsWith, IsOpened, IsUnopened, IsWrittenBy, Opens, opener};
ghost use Rattle.reg_verify.specs.Opening.{AreInTurn, AreOfOpening, IsOfOpening};

use crate::stories::breaches::Breach;
use reg_base::{Op, OpId};
use reg_checkers::{Fact, fact_of, table_of};
use reg_history::{Entry, Report};
use std::alloc::{AllocError, Allocator};

/// The operation that was called under this id.
fn op_of<A: Allocator + Copy>(report: &Report<A>, facts: &[Vec<Fact, A>], id: OpId) -> Op
    requires table { IsTable report.now.entries facts.now }
    requires called { WasCalled report.now.entries id }
    ensures called { IsWrittenBy report.now id result }
    ensures within { register_of result < report.now.shape.registers }
{
    let _history = report.history();
    match fact_of(facts, id) {
        Some(fact) => fact.op,
        None => unreachable!(),
    }
}

/// The values of the registers after all operations of a report's order, over a memory of zeros.
pub(crate) fn values_after<A: Allocator + Copy>(
    alloc: A,
    report: &Report<A>,
) -> Result<Vec<u64, A>, AllocError>
    requires { (place : ℕ) (id : AnyId) → IsAt report.now.order place id → WasCalled report.now.entries id }
    ensures ends { IfOk result (λ v. EndsWith report.now v.items) }
    ensures few { IfOk result (λ v. length v.items ≤ MOST_REGISTERS) }
{
    let history = report.history();
    let facts = table_of(alloc, history.shape(), history.entries())?;
    let order = report.order();
    let mut values: Vec<u64, A> = vec![in alloc; 0; history.shape().registers() as usize]?;
    for place in 0..order.len() {
        let op = op_of(report, &facts, order[place]);
        let _ = op.apply_to(&mut values);
    }
    Ok(values)
}

/// Whether two operations are the same.
fn is_same(a: Op, b: Op) -> bool
    ensures { (result ≡ true) ↔ (a ≡ b) }
{
    a == b
}

/// Whether the operation with this id was called, and is this one.
fn was_called_as<A: Allocator + Copy>(
    report: &Report<A>,
    facts: &[Vec<Fact, A>],
    id: OpId,
    op: Op,
) -> bool
    requires { IsTable report.now.entries facts.now }
    ensures { (result ≡ true) ↔ IsWrittenBy report.now id op }
{
    let _history = report.history();
    match fact_of(facts, id) {
        Some(fact) => is_same(fact.op, op),
        None => false,
    }
}

/// Whether the operation at this place of an order is the one of process 0 with that number.
fn opens_at(order: &[OpId], place: usize) -> bool
    ensures { (result ≡ true) ↔ IsAt order.now place (opener place) }
{
    match order.get(place) {
        Some(id) => id.process == 0 && id.number as usize == place,
        None => false,
    }
}

/// The first of these writes that isn't the operation of process 0 with its number, or doesn't stand at its place of
/// the order.
fn first_unopened<A: Allocator + Copy>(
    report: &Report<A>,
    facts: &[Vec<Fact, A>],
    writes: &[Op],
) -> Option<Breach>
    requires table { IsTable report.now.entries facts.now }
    requires few { length writes.now ≤ MOST_REGISTERS }
    ensures { MatchOption result (Opens writes.now report.now) (λ breach. IsUnopened writes.now report.now breach) }
{
    for place in 0..writes.len() {
        let number = place as u32;
        let op = writes[place];
        if !was_called_as(report, facts, OpId { process: 0, number }, op) {
            return Some(Breach::Write { number, op });
        }
        if !opens_at(report.order(), place) {
            return Some(Breach::Place { number });
        }
    }
    None
}

/// Whether the operation with this id is the write of process 0 with its number.
fn is_of_opening(writes: &[Op], id: OpId, op: Op) -> bool
    ensures { (result ≡ true) ↔ IsOfOpening writes.now id op }
{
    match writes.get(id.number as usize) {
        Some(write) => id.process == 0 && *write == op,
        None => false,
    }
}

/// Whether each operation that was called is the write of process 0 with its number.
fn are_of_opening(entries: &[Entry], writes: &[Op]) -> bool
    ensures { (result ≡ true) ↔ AreOfOpening writes.now entries.now }
{
    for at in 0..entries.len() {
        if let Entry::Called { at: _, id, op } = entries[at] {
            if !is_of_opening(writes, id, op) {
                return false;
            }
        }
    }
    true
}

/// Whether the order is that of the first operations of process 0.
fn are_in_turn(order: &[OpId]) -> bool
    ensures { (result ≡ true) ↔ AreInTurn order.now }
{
    for place in 0..order.len() {
        if !opens_at(order, place) {
            return false;
        }
    }
    true
}

/// Whether a chapter has a part of the writes, and nothing else.
fn begins_to_open<A: Allocator + Copy>(report: &Report<A>, writes: &[Op]) -> bool
    ensures { (result ≡ true) ↔ BeginsToOpen writes.now report.now }
{
    are_of_opening(report.history().entries(), writes) && are_in_turn(report.order())
}

/// Whether a chapter is the last one, and ended while it was opened.
fn ended_opening<A: Allocator + Copy>(report: &Report<A>, writes: &[Op], last: bool) -> bool
    ensures { (result ≡ true) ↔ ((last ≡ true) × BeginsToOpen writes.now report.now) }
{
    last && begins_to_open(report, writes)
}

/// What is wrong with the opening of a chapter, which should begin with these writes. The last one of a story may have
/// a part of them, and nothing else.
pub(crate) fn unopened<A: Allocator + Copy>(
    alloc: A,
    report: &Report<A>,
    writes: &[Op],
    last: bool,
) -> Result<Option<Breach>, AllocError>
    requires { length writes.now ≤ MOST_REGISTERS }
    ensures { IfOk result
        (λ o. MatchOption o (IsOpened last writes.now report.now)
        (λ breach. IsUnopened writes.now report.now breach × ¬ IsOpened last writes.now report.now)) }
{
    if ended_opening(report, writes, last) {
        return Ok(None);
    }
    let history = report.history();
    let facts = table_of(alloc, history.shape(), history.entries())?;
    Ok(first_unopened(report, &facts, writes))
}
