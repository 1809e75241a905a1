//! The operations that may come next in an order, and which of them is placed first.
ghost use Rattle.std.specs.Prelude.{◌≡◌, ℕ, List, ◌<◌, ◌≤◌, ◌↔◌, ◌⊎◌, IsTrue, MatchOption, IfSome, None, slice_index};
ghost use Rattle.reg_base.specs.declared.memory.OpId.{OpId as AnyId};
ghost use Rattle.reg_checkers.specs.declared.entries.Entry.{Entry};
ghost use Rattle.reg_checkers.specs.Facts.{IsFactOf};
ghost use Rattle.reg_checkers.specs.History.{IsCalled, IsHistory};
ghost use Rattle.reg_checkers.specs.Progress.{op_of};
ghost use Rattle.reg_outcomes.specs.Interleavings.{Stage as AnyStage};
ghost use Rattle.reg_outcomes.specs.Finding.{MayCome, MayFollow, placed_after};
ghost use Rattle.reg_outcomes.specs.Layers.{stage_of};
ghost use Rattle.reg_outcomes.specs.Placing.{HasRoomFor, IsPlaced};
ghost use Rattle.reg_outcomes.specs.Walking.{IsChoice, IsChoiceOf, IsPast, IsPastBy, Leaves};

use crate::interleavings::stages::Stage;
use crate::orders::finder::{Finder, next_number};
use crate::orders::kinds::OrderKind;
use crate::orders::tried::{has, with};
use reg_base::{Answer, Op, OpId};
use reg_checkers::Fact;
use std::alloc::Allocator;

/// The operation that is placed next.
#[derive(Clone, Copy)]
pub(crate) struct Choice {
    pub(crate) process: u8,
    pub(crate) op: Op,
    /// The processes that are tried once this one is.
    pub(crate) tried: u64,
    /// The operation of the least rank is chosen.
    pub(crate) rank: u64,
}

/// Whether an operation may come where the memory gives it this answer.
fn may_come(fact: Fact, answer: Answer) -> bool
    ensures { (n registers : ℕ) (h : List Entry) (id : AnyId) → IsHistory n registers h → IsFactOf h id fact
        → (IsTrue result ↔ MayCome h id fact.op answer) }
{
    match fact.answered {
        Some(given) => given.answer == answer,
        None => fact.op.updates(),
    }
}

/// Whether the order may have this operation next, once these numbers of operations are placed, by process.
fn may_follow<A: Allocator + Copy>(
    finder: &Finder<'_, A>,
    next: &[u32],
    id: OpId,
    fact: Fact,
) -> bool
    requires history { IsHistory finder.now.shape.processes finder.now.shape.registers finder.now.entries }
    requires called { IsCalled finder.now.entries id fact.called fact.op }
    ensures { IsTrue result ↔ MayFollow finder.now.kind finder.now.entries next.now id }
{
    match finder.kind() {
        OrderKind::Serial => true,
        OrderKind::Points => finder.are_placed_before(next, fact.called),
    }
}

/// What the history says of the next operation of a process, None where it has none or that may not come next.
fn placeable<A: Allocator + Copy>(
    finder: &Finder<'_, A>,
    stage: &Stage<A>,
    process: u8,
) -> Option<Fact>
    requires process { process < finder.now.shape.processes }
    requires room { HasRoomFor finder.now.shape.processes finder.now.shape.registers (stage_of stage.now) }
    ensures placed { MatchOption result
        ((to : AnyStage) → ¬ IsPlaced finder.now.kind finder.now.entries process (stage_of stage.now) to)
        (λ fact. IsPlaced finder.now.kind finder.now.entries process (stage_of stage.now)
        (placed_after process fact.op (stage_of stage.now))) }
    ensures fact { IfSome result
        (IsFactOf finder.now.entries (op_of process (slice_index stage.now.next.items process))) }
{
    let number = next_number(&stage.next, process);
    let id = OpId { process, number };
    let Some(fact) = finder.fact(id) else {
        return None;
    };
    let answer = fact.op.answer_on(&stage.memory);
    if !may_follow(finder, &stage.next, id, fact) {
        return None;
    }
    if !may_come(fact, answer) {
        return None;
    }
    Some(fact)
}

/// Whether an operation that has this answer leaves the memory as it is.
fn leaves_all(op: Op, answer: Answer) -> bool
    ensures { IsTrue result → Leaves op answer }
{
    match answer {
        Answer::Unequal => true,
        Answer::Done | Answer::Value(_) => !op.updates(),
    }
}

/// The choice of an operation. Once one that leaves the memory as it is was tried, no other need be: it can stand here
/// in each order that has it later. So it comes first, and the others in the order of their answers.
fn choice_of(process: u8, fact: Fact, tried: u64) -> Choice
    requires { process < 64 }
    ensures { IsChoiceOf process fact tried result }
{
    let op = fact.op;
    let others = with(tried, process);
    match fact.answered {
        Some(given) if leaves_all(op, given.answer) => Choice {
            process,
            op,
            tried: u64::MAX,
            rank: 0,
        },
        Some(given) => Choice {
            process,
            op,
            tried: others,
            rank: u64::from(given.at) + 1,
        },
        None => Choice {
            process,
            op,
            tried: others,
            rank: u64::MAX,
        },
    }
}

/// The choice of a process's next operation, None where the process was tried or that may not come next.
fn offer<A: Allocator + Copy>(
    finder: &Finder<'_, A>,
    stage: &Stage<A>,
    tried: u64,
    process: u8,
) -> Option<Choice>
    requires process { process < finder.now.shape.processes }
    requires few { finder.now.shape.processes ≤ 64 }
    requires history { IsHistory finder.now.shape.processes finder.now.shape.registers finder.now.entries }
    requires room { HasRoomFor finder.now.shape.processes finder.now.shape.registers (stage_of stage.now) }
    ensures { MatchOption result (IsPastBy finder.now.kind finder.now.entries tried (stage_of stage.now) process)
        (IsChoice finder.now.kind finder.now.shape.processes finder.now.shape.registers finder.now.entries tried
        (stage_of stage.now)) }
{
    if has(tried, process) {
        return None;
    }
    match placeable(finder, stage, process) {
        Some(fact) => Some(choice_of(process, fact, tried)),
        None => None,
    }
}

/// The choice of the lesser rank, if any.
fn lesser(one: Option<Choice>, other: Option<Choice>) -> Option<Choice>
    ensures one_of { (result ≡ one) ⊎ (result ≡ other) }
    ensures none { result ≡ None → (one ≡ None) × (other ≡ None) }
{
    match (one, other) {
        (Some(a), Some(b)) if b.rank < a.rank => Some(b),
        (Some(a), _) => Some(a),
        (None, b) => b,
    }
}

/// The operation that is placed next at a stage where these processes were tried, None where no other may come.
pub(crate) fn choose<A: Allocator + Copy>(
    finder: &Finder<'_, A>,
    stage: &Stage<A>,
    tried: u64,
) -> Option<Choice>
    requires few { finder.now.shape.processes ≤ 64 }
    requires history { IsHistory finder.now.shape.processes finder.now.shape.registers finder.now.entries }
    requires room { HasRoomFor finder.now.shape.processes finder.now.shape.registers (stage_of stage.now) }
    ensures { MatchOption result
        (IsPast finder.now.kind finder.now.entries tried (stage_of stage.now) finder.now.shape.processes)
        (IsChoice finder.now.kind finder.now.shape.processes finder.now.shape.registers finder.now.entries tried
        (stage_of stage.now)) }
{
    let mut best = None;
    let processes = finder.shape().processes() as u8;
    for process in 0..processes {
        best = lesser(best, offer(finder, stage, tried, process));
    }
    best
}
