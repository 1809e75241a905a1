//! What the operations of a run told their callers.
ghost use Rattle.std.specs.Prelude.{◌≡◌, ◌++◌, IfOk, OnOk, MatchOption, [], ◌∷◌, refl};
ghost use Rattle.std.specs.Ordering.{as_partial_cmp};
ghost use Rattle.reg_outcomes.specs.Told.{answer_cmp, called_last, outcome_of, told_at, told_cmp, told_in, told_of};
ghost use Rattle.reg_outcomes.specs.ToldLaws.{told_partial, told_ties, told_total};

use reg_base::{Answer, Op, OpId};
use reg_checkers::{Entry, History};
use std::alloc::{AllocError, Allocator};
use std::cmp::Ordering;

/// The answer of an operation that tells of the memory: a read, a swap or a compare-and-swap.
#[derive(Clone, Copy, Debug, PartialEq, Eq)]
pub struct ToldAnswer {
    /// The process that called the operation.
    pub process: u8,
    /// The operation's number there, from 0.
    pub number: u32,
    pub answer: Answer,
}

/// The order of answers: done, then values, rising, and then unequal.
fn compare(a: Answer, b: Answer) -> Ordering
    ensures { result ≡ answer_cmp a b }
{
    match (a, b) {
        (Answer::Done, Answer::Done) => Ordering::Equal,
        (Answer::Done, _) => Ordering::Less,
        (Answer::Value(_), Answer::Done) => Ordering::Greater,
        (Answer::Value(first), Answer::Value(second)) => first.cmp(&second),
        (Answer::Value(_), Answer::Unequal) => Ordering::Less,
        (Answer::Unequal, Answer::Unequal) => Ordering::Equal,
        (Answer::Unequal, _) => Ordering::Greater,
    }
}

impl Ord for ToldAnswer {
    ghost cmp = { told_cmp };

    ghost total = { told_total };

    ghost matches_partial_cmp = { λ a b. refl };

    ghost matches_eq = { told_ties _
        (record {
          done = refl;
          values = λ x y. refl;
          unequal = refl;
          done_value = λ y. refl;
          done_unequal = refl;
          value_done = λ x. refl;
          value_unequal = λ x. refl;
          unequal_done = refl;
          unequal_value = λ y. refl;
        }) };

    fn cmp(&self, other: &ToldAnswer) -> Ordering {
        let processes = self.process.cmp(&other.process);
        let numbers = self.number.cmp(&other.number);
        processes
            .then(numbers)
            .then(compare(self.answer, other.answer))
    }
}

impl PartialOrd for ToldAnswer {
    ghost partial_cmp = { as_partial_cmp told_cmp };

    ghost laws = { told_partial _
        (record {
          done = refl;
          values = λ x y. refl;
          unequal = refl;
          done_value = λ y. refl;
          done_unequal = refl;
          value_done = λ x. refl;
          value_unequal = λ x. refl;
          unequal_done = refl;
          unequal_value = λ y. refl;
        }) };

    fn partial_cmp(&self, other: &ToldAnswer) -> Option<Ordering> {
        Some(self.cmp(other))
    }
}

/// What an operation with this answer tells.
pub(crate) fn told_in(op: Op, id: OpId, answer: Answer) -> Option<ToldAnswer>
    ensures { MatchOption result (told_in op id answer ≡ []) (λ told. told_in op id answer ≡ told ∷ []) }
{
    let OpId { process, number } = id;
    op.tells().then_some(ToldAnswer {
        process,
        number,
        answer,
    })
}

/// The operation that a process called last, after one entry more.
fn called_last(process: u8, last: Option<Op>, entry: Entry) -> Option<Op>
    ensures { result ≡ called_last process last entry }
{
    match entry {
        Entry::Called { id, op, .. } if id.process == process => Some(op),
        _ => last,
    }
}

/// What an entry told this process, which called this operation last.
fn told_at(process: u8, last: Option<Op>, entry: Entry) -> Option<ToldAnswer>
    ensures { MatchOption result (told_at process last entry ≡ []) (λ told. told_at process last entry ≡ told ∷ []) }
{
    match entry {
        Entry::Answered { id, answer, .. } if id.process == process => {
            told_in(last?, id, answer)
        }
        _ => None,
    }
}

/// Adds what a process was told.
fn tell_process<A: Allocator + Copy>(
    outcome: &mut Vec<ToldAnswer, A>,
    process: u8,
    entries: &[Entry],
) -> Result<(), AllocError>
    ensures { OnOk result (outcome.new.items ≡ outcome.old.items ++ told_of process entries.now) }
{
    let mut last = None;
    for entry in entries {
        if let Some(told) = told_at(process, last, *entry) {
            outcome.push(told)?;
        }
        last = called_last(process, last, *entry);
    }
    Ok(())
}

/// The answers that the operations of a history told, by process, and of one process in the order of its answers, which
/// is that of their numbers. A write tells nothing.
///
/// # Errors
///
/// Memory was refused.
pub fn tell<A: Allocator + Copy>(
    alloc: A,
    history: &History<A>,
) -> Result<Vec<ToldAnswer, A>, AllocError>
    ensures { IfOk result (λ v. v.items ≡ outcome_of history.now.shape.processes history.now.entries) }
{
    let processes = history.shape().processes() as u8;
    let entries = history.entries();
    let mut outcome = Vec::new(alloc);
    for process in 0..processes {
        tell_process(&mut outcome, process, entries)?;
    }
    Ok(outcome)
}
