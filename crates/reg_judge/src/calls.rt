//! The operations that run, by process.
ghost use Rattle.std.specs.Prelude.{◌≡◌, ◌<◌, ◌≤◌, ℕ, Option, None, Some, IfOk, OnOk};
ghost use Rattle.reg_checkers.specs.Table.{IsTable};
ghost use Rattle.reg_judge.specs.Acts.{act_in as act_in_rows};
ghost use Rattle.reg_judge.specs.Searching.{AreMoversOf, AreNeeds, HasNoted, IsAtLeast, IsCallOf, IsMoverAdded};
ghost use Rattle.reg_judge.specs.Searching.{IsNoted, until_by};

use crate::acts::{Act, act_in, unanswered_act_in};
use crate::stages::Mover;
use reg_base::OpId;
use reg_checkers::{Entry, Fact};
use std::alloc::{AllocError, Allocator};
use std::collections::BTreeMap;

/// An operation that runs.
#[derive(Clone, Copy)]
pub struct Call {
    pub id: OpId,
    pub act: Act,
    /// The number of entries up to and with the last answer to an operation that goes by what this one leaves, that of
    /// all entries where such a one has no answer, 0 where there is none.
    pub needed_until: usize,
}

/// For a register and a value, the number of entries up to and with the last answer to an operation that asks just for
/// it, and for a register and no value, of one that asks for all but some value. Of one without an answer, the number
/// of all entries.
pub type Needs<A> = BTreeMap<(u16, Option<u64>), usize, A>;

/// Up to where a value of a register is needed, or any, 0 where none is.
fn until<A: Allocator + Copy>(needs: &Needs<A>, key: (u16, Option<u64>)) -> usize
    ensures { result ≡ until_by needs.now key }
{
    needs.get(&key).copied().unwrap_or(0)
}

/// The greater of two.
fn greater(a: usize, b: usize) -> usize
    ensures first { a ≤ result }
    ensures second { b ≤ result }
{
    if a < b { b } else { a }
}

/// Notes that a value of a register is needed, or any, up to so many entries.
fn note_key<A: Allocator + Copy>(
    needs: &mut Needs<A>,
    key: (u16, Option<u64>),
    count: usize,
) -> Result<(), AllocError>
    ensures noted { OnOk result (IsAtLeast needs.new key count) }
    ensures kept { OnOk result ((q : ℕ × Option ℕ) (v : ℕ) → IsAtLeast needs.old q v → IsAtLeast needs.new q v) }
{
    let later = greater(until(needs, key), count);
    needs.insert(key, later)?;
    Ok(())
}

/// Notes what an operation goes by.
fn note_need<A: Allocator + Copy>(
    needs: &mut Needs<A>,
    act: Option<Act>,
    count: usize,
) -> Result<(), AllocError>
    ensures noted { OnOk result (HasNoted act needs.new count) }
    ensures kept { OnOk result ((q : ℕ × Option ℕ) (v : ℕ) → IsAtLeast needs.old q v → IsAtLeast needs.new q v) }
{
    let Some(act) = act else {
        return Ok(());
    };
    let Some(key) = act.asks.goes_by() else {
        return Ok(());
    };
    note_key(needs, (act.register, key), count)
}

/// Notes what the operation of an entry at a place goes by: of a call without an answer up to the end, of an answer up
/// to it.
fn note_entry<A: Allocator + Copy>(
    needs: &mut Needs<A>,
    rows: &[Vec<Fact, A>],
    entry: Entry,
    place: usize,
    size: usize,
) -> Result<(), AllocError>
    requires { place < usize.MAX }
    ensures noted { OnOk result (IsNoted rows.now size place entry needs.new) }
    ensures kept { OnOk result ((q : ℕ × Option ℕ) (v : ℕ) → IsAtLeast needs.old q v → IsAtLeast needs.new q v) }
{
    match entry {
        Entry::Called { at: _, id, op: _ } => note_need(needs, unanswered_act_in(rows, id), size),
        Entry::Answered {
            at: _,
            id,
            answer: _,
        } => note_need(needs, act_in(rows, id), place + 1),
    }
}

/// Up to where each value of each register is needed.
pub fn needs_of<A: Allocator + Copy>(
    alloc: A,
    rows: &[Vec<Fact, A>],
    entries: &[Entry],
) -> Result<Needs<A>, AllocError>
    requires { IsTable entries.now rows.now }
    ensures { IfOk result (λ needs. AreNeeds entries.now (act_in_rows rows.now) needs) }
{
    let mut needs = BTreeMap::new(alloc);
    for place in 0..entries.len() {
        note_entry(&mut needs, rows, entries[place], place, entries.len())?;
    }
    Ok(needs)
}

/// Up to where what an operation leaves is needed.
fn needed_until<A: Allocator + Copy>(needs: &Needs<A>, act: Act) -> usize
    ensures one { (u : ℕ) → act.makes ≡ Some u → until_by needs.now (act.register, Some u) ≤ result }
    ensures any { (u : ℕ) → act.makes ≡ Some u → until_by needs.now (act.register, None) ≤ result }
{
    match act.makes {
        Some(value) => {
            let one = until(needs, (act.register, Some(value)));
            let any = until(needs, (act.register, None));
            greater(one, any)
        }
        None => 0,
    }
}

/// The operation of this id as it is called, None where it need take no effect.
pub fn call_of<A: Allocator + Copy>(
    rows: &[Vec<Fact, A>],
    needs: &Needs<A>,
    id: OpId,
) -> Option<Call>
    ensures { IsCallOf rows.now needs.now id result }
{
    let act = act_in(rows, id)?;
    Some(Call {
        id,
        act,
        needed_until: needed_until(needs, act),
    })
}

/// Adds what a process runs, where that is on the register.
fn add_mover<A: Allocator + Copy>(
    movers: &mut Vec<Mover, A>,
    call: Option<Call>,
    register: u16,
    place: usize,
) -> Result<(), AllocError>
    ensures { OnOk result (IsMoverAdded call register place movers.old.items movers.new.items) }
{
    let Some(call) = call else {
        return Ok(());
    };
    if call.act.register != register {
        return Ok(());
    }
    movers.push(Mover {
        id: call.id,
        act: call.act,
        free: call.act.asks_nothing() && call.needed_until <= place,
    })?;
    Ok(())
}

/// The operations that run on a register at the entry of a place.
pub fn movers_on<A: Allocator + Copy>(
    alloc: A,
    running: &[Option<Call>],
    register: u16,
    place: usize,
) -> Result<Vec<Mover, A>, AllocError>
    ensures { IfOk result (λ v. AreMoversOf running.now register place v.items) }
{
    let mut movers = Vec::new(alloc);
    for process in 0..running.len() {
        add_mover(&mut movers, running[process], register, place)?;
    }
    Ok(movers)
}
