//! The values of registers that operations make, and those that they need: where a value is needed still that no
//! operation makes any more, there is no order.
ghost use Rattle.std.specs.Prelude.{◌≡◌, ◌≢◌, ◌<◌, ◌≤◌, ◌⊎◌, ℕ, IfOk, IfSome, IsTrue, MatchBool, OnOk, Some, length};
ghost use Rattle.std.specs.Prelude.{slice_index};
ghost use Rattle.std.specs.BTreeMap.{get};
ghost use Rattle.reg_base.specs.Memory.{Memory, after, answer_of, register_of};
ghost use Rattle.reg_outcomes.specs.Layers.{stage_of};
ghost use Rattle.reg_outcomes.specs.Losing.{AreUses, Asks, HasLater, HasNoLater, IsAsker, IsAtLeast, IsLost};
ghost use Rattle.reg_outcomes.specs.Losing.{IsMakerNoted, made_of, use_cmp};

use crate::interleavings::stages::Stage;
use crate::orders::finder::{Finder, next_number};
use reg_base::{Answer, Op, OpId};
use reg_checkers::{Entry, Fact};
use std::alloc::{AllocError, Allocator, Global};
use std::collections::BTreeMap;

/// By process, register and value the number of a last operation.
pub(crate) type Lasts<A> = BTreeMap<(u8, (u16, u64)), u32, A>;

/// The value that an operation may leave, None where it leaves all as it is.
pub(crate) fn made(op: Op) -> Option<u64>
    ensures { result ≡ made_of op }
{
    match op {
        Op::Read { .. } => None,
        Op::Write { value, .. } => Some(value),
        Op::Swap { value, .. } => Some(value),
        Op::CompareAndSwap { value, .. } => Some(value),
    }
}

/// The value that an operation surely leaves in its register, None where it leaves all as it is, or may. A
/// compare-and-swap leaves one where it found what it expects.
pub(crate) fn left_by(fact: Fact) -> Option<u64>
    ensures { IfSome result
        (λ v. (m : Memory) → register_of fact.op < length m
        → IfSome fact.answered (λ given. given.answer ≡ answer_of fact.op m)
        → slice_index (after fact.op m) (register_of fact.op) ≡ v) }
{
    match fact.op {
        Op::Read { .. } => None,
        Op::Write { value: left, .. } => Some(left),
        Op::Swap { value: left, .. } => Some(left),
        Op::CompareAndSwap { value: left, .. } => match fact.answered {
            Some(given) if given.answer == Answer::Done => Some(left),
            _ => None,
        },
    }
}

/// The value that the register has to have where an operation has this answer, None where that may be any.
fn asked(op: Op, answer: Answer) -> Option<u64>
    ensures { IfSome result (Asks op answer (register_of op)) }
{
    match answer {
        Answer::Value(value) => Some(value),
        Answer::Unequal => None,
        Answer::Done => match op {
            Op::CompareAndSwap { expected, .. } => Some(expected),
            Op::Read { .. } | Op::Write { .. } | Op::Swap { .. } => None,
        },
    }
}

/// The last number under a key.
fn last_of<A: Allocator + Copy>(lasts: &Lasts<A>, key: (u8, (u16, u64))) -> Option<u32>
    ensures { result ≡ get use_cmp lasts.now key }
{
    lasts.get(&key).copied()
}

/// The last of a number and another, if there is one.
fn later_of(last: Option<u32>, number: u32) -> u32
    ensures above { IfSome last (λ n. n ≤ result) }
    ensures number { number ≤ result }
    ensures one_of { (result ≡ number) ⊎ (last ≡ Some result) }
{
    match last {
        Some(last) => last.max(number),
        None => number,
    }
}

/// Notes a number under a key, where it is the last.
fn note_last<A: Allocator + Copy>(
    lasts: &mut Lasts<A>,
    key: (u8, (u16, u64)),
    number: u32,
) -> Result<(), AllocError>
    ensures noted { OnOk result (IsAtLeast lasts.new key number) }
    ensures kept { OnOk result ((q : ℕ × (ℕ × ℕ)) (v : ℕ) → IsAtLeast lasts.old q v → IsAtLeast lasts.new q v) }
    ensures only { OnOk result
        ((q : ℕ × (ℕ × ℕ)) (v : ℕ) → get use_cmp lasts.new q ≡ Some v
        → (get use_cmp lasts.old q ≡ Some v) ⊎ ((q ≡ key) × (v ≡ number))) }
{
    let later = later_of(last_of(lasts, key), number);
    lasts.insert(key, later)?;
    Ok(())
}

/// Notes the value that the operation of an entry may leave, if it is a call.
fn note_maker<A: Allocator + Copy>(makers: &mut Lasts<A>, entry: Entry) -> Result<(), AllocError>
    ensures noted { OnOk result (IsMakerNoted makers.new entry) }
    ensures kept { OnOk result ((q : ℕ × (ℕ × ℕ)) (v : ℕ) → IsAtLeast makers.old q v → IsAtLeast makers.new q v) }
{
    let Entry::Called { id, op, .. } = entry else {
        return Ok(());
    };
    let Some(value) = made(op) else {
        return Ok(());
    };
    note_last(makers, (id.process, (op.register(), value)), id.number)
}

/// The register and the value that a finished operation has to find there, None where it is not finished, or may find
/// any.
pub(crate) fn asked_by<A: Allocator + Copy>(finder: &Finder<'_, A>, id: OpId) -> Option<(u16, u64)>
    ensures { IfSome result (λ v. IsAsker finder.now.entries (id.process, v) id.number) }
{
    let Some(fact) = finder.fact(id) else {
        return None;
    };
    let Some(given) = fact.answered else {
        return None;
    };
    match asked(fact.op, given.answer) {
        Some(value) => Some((fact.op.register(), value)),
        None => None,
    }
}

/// Notes the value that the operation of an entry has to find, if it is an answer.
fn note_asker<A: Allocator + Copy>(
    askers: &mut Lasts<A>,
    finder: &Finder<'_, A>,
    entry: Entry,
) -> Result<(), AllocError>
    ensures { OnOk result
        ((q : ℕ × (ℕ × ℕ)) (v : ℕ) → get use_cmp askers.new q ≡ Some v
        → (get use_cmp askers.old q ≡ Some v) ⊎ IsAsker finder.now.entries q v) }
{
    let Entry::Answered { id, .. } = entry else {
        return Ok(());
    };
    let Some(value) = asked_by(finder, id) else {
        return Ok(());
    };
    note_last(askers, (id.process, value), id.number)
}

/// Whether some process has an operation that is told of, once these numbers of operations are placed, by process.
fn has_later<A: Allocator + Copy>(
    lasts: &Lasts<A>,
    next: &[u32],
    processes: u8,
    value: (u16, u64),
) -> bool
    ensures { MatchBool result (HasLater lasts.now next.now value) (HasNoLater lasts.now next.now processes value) }
{
    for process in 0..processes {
        match last_of(lasts, (process, value)) {
            Some(last) if next_number(next, process) <= last => return true,
            _ => {}
        }
    }
    false
}

/// Whether a register has another value than this.
fn has_another(memory: &[u64], value: (u16, u64)) -> bool
    ensures { IsTrue result → slice_index memory.now value.0 ≢ value.1 }
{
    match memory.get(usize::from(value.0)) {
        Some(held) => *held != value.1,
        None => false,
    }
}

/// The values that operations of a history make and need.
#[derive(Drop)]
pub(crate) struct Uses<A: Allocator + Copy = Global> {
    /// By process, register and value its last operation that may leave it there.
    pub(crate) makers: Lasts<A>,
    /// By process, register and value its last finished operation that has to find it there.
    pub(crate) askers: Lasts<A>,
}

impl<A: Allocator + Copy> Uses<A> {
    /// The values that operations of a history make and need.
    pub(crate) fn new(alloc: A, finder: &Finder<'_, A>) -> Result<Uses<A>, AllocError>
        ensures { IfOk result (AreUses finder.now.entries) }
    {
        let mut uses = Uses {
            makers: BTreeMap::new(alloc),
            askers: BTreeMap::new(alloc),
        };
        let entries = finder.entries();
        for place in 0..entries.len() {
            note_maker(&mut uses.makers, entries[place])?;
            note_asker(&mut uses.askers, finder, entries[place])?;
        }
        Ok(uses)
    }

    /// Whether a register has this value no more, which an operation has to find there still, and no operation makes
    /// any more.
    pub(crate) fn is_lost(&self, stage: &Stage<A>, processes: u8, value: (u16, u64)) -> bool
        ensures { IsTrue result → IsLost self.now (stage_of stage.now) processes value }
    {
        has_another(&stage.memory, value)
            && has_later(&self.askers, &stage.next, processes, value)
            && !has_later(&self.makers, &stage.next, processes, value)
    }
}
