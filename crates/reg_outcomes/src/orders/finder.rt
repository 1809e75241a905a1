//! What a search for an order goes by: the history, its operations by process, which order, and the limit.
ghost use Rattle.std.specs.Prelude.{◌≡◌, ◌↔◌, IfOk, IsTrue, MatchBool, MatchOption, slice_index};
ghost use Rattle.reg_checkers.specs.Facts.{IsFactOf};
ghost use Rattle.reg_checkers.specs.History.{IsAnswered, IsFinished, IsHistory, WasCalled};
ghost use Rattle.reg_checkers.specs.Progress.{op_of};
ghost use Rattle.reg_outcomes.specs.Finding.{ArePlacedBefore};
ghost use Rattle.reg_outcomes.specs.Placing.{IsComplete};

use crate::orders::kinds::OrderKind;
use reg_base::{OpId, Shape};
use reg_checkers::{Entry, Fact, Given, History, fact_of, table_of};
use std::alloc::{AllocError, Allocator};
use std::marker::Model;

/// The number of a process's next operation, once these numbers of operations are placed, by process.
pub(crate) fn next_number(next: &[u32], process: u8) -> u32
    ensures { result ≡ slice_index next.now process }
{
    match next.get(usize::from(process)) {
        Some(number) => *number,
        None => 0,
    }
}

/// What a search for an order goes by. Contracts see the history, which order is looked for, and the most stages that
/// the same number of operations may lead to.
#[derive(Drop)]
pub(crate) struct Finder<'a, A: Allocator + Copy> {
    history: &'a History<A>,
    /// What the history says of each operation, by process and number.
    facts: Vec<Vec<Fact, A>, A>,
    kind: OrderKind,
    limit: u32,
}

impl<'a, A: Allocator + Copy> Model for Finder<'a, A> {
    ghost use Rattle.reg_checkers.specs.Log.{IsLog};
    ghost use Rattle.reg_checkers.specs.Table.{IsTable};
    ghost use Rattle.reg_outcomes.specs.Sought.{Sought};

    ghost Value = { Sought };

    ghost view = { λ f.
        record { shape = f.history.now.shape; entries = f.history.now.entries; kind = f.kind; limit = f.limit } };

    ghost invariant = { λ f. IsLog f.history.now × IsTable f.history.now.entries f.facts.items };
}

impl<'a, A: Allocator + Copy> Finder<'a, A> {
    /// A search in this history.
    pub(crate) fn new(
        alloc: A,
        history: &'a History<A>,
        kind: OrderKind,
        limit: u32,
    ) -> Result<Finder<'a, A>, AllocError>
        ensures shape { IfOk result (λ f. f.shape ≡ history.entry.now.shape) }
        ensures entries { IfOk result (λ f. f.entries ≡ history.entry.now.entries) }
        ensures kind { IfOk result (λ f. f.kind ≡ kind) }
        ensures limit { IfOk result (λ f. f.limit ≡ limit) }
        ensures in_place { IfOk result (λ f. IsHistory f.shape.processes f.shape.registers f.entries) }
    {
        let facts = table_of(alloc, history.shape(), history.entries())?;
        Ok(Finder {
            history,
            facts,
            kind,
            limit,
        })
    }

    /// How many processes and registers the history speaks of.
    pub(crate) fn shape(&self) -> Shape
        ensures { result ≡ self.now.shape }
    {
        self.history.shape()
    }

    /// How many operations a process has called.
    pub(crate) fn calls(&self, process: u8) -> usize {
        match self.facts.get(usize::from(process)) {
            Some(row) => row.len(),
            None => 0,
        }
    }

    /// The entries of the history, each in place.
    pub(crate) fn entries(&self) -> &[Entry]
        ensures value { result.now ≡ self.now.entries }
        ensures in_place { IsHistory self.now.shape.processes self.now.shape.registers self.now.entries }
    {
        self.history.entries()
    }

    /// Which order is looked for.
    pub(crate) fn kind(&self) -> OrderKind
        ensures { result ≡ self.now.kind }
    {
        self.kind
    }

    /// The most stages that the same number of operations may lead to.
    pub(crate) fn limit(&self) -> u32
        ensures { result ≡ self.now.limit }
    {
        self.limit
    }

    /// What the history says of the operation of this id, None where it has no call of it.
    pub(crate) fn fact(&self, id: OpId) -> Option<Fact>
        ensures value { MatchOption result (¬ WasCalled self.now.entries id) (IsFactOf self.now.entries id) }
        ensures in_place { IsHistory self.now.shape.processes self.now.shape.registers self.now.entries }
    {
        fact_of(&self.facts, id)
    }

    /// The answer to a process's next operation, once these numbers of operations are placed, by process. None where it
    /// has no answer.
    fn next_answer(&self, next: &[u32], process: u8) -> Option<Given>
        ensures { MatchOption result (¬ IsFinished self.now.entries (op_of process (slice_index next.now process)))
            (λ r. IsAnswered self.now.entries (op_of process (slice_index next.now process)) r.at r.answer) }
    {
        let number = next_number(next, process);
        match self.fact(OpId { process, number }) {
            Some(fact) => fact.answered,
            None => None,
        }
    }

    /// Whether all finished operations are placed once these numbers of operations are, by process.
    pub(crate) fn is_complete(&self, next: &[u32]) -> bool
        requires { IsHistory self.now.shape.processes self.now.shape.registers self.now.entries }
        ensures { MatchBool result (IsComplete self.now.entries next.now) (¬ IsComplete self.now.entries next.now) }
    {
        let processes = self.shape().processes() as u8;
        for process in 0..processes {
            if self.next_answer(next, process).is_some() {
                return false;
            }
        }
        true
    }

    /// Whether all operations that were answered before this event are placed once these numbers of operations are, by
    /// process.
    pub(crate) fn are_placed_before(&self, next: &[u32], at: u32) -> bool
        requires { IsHistory self.now.shape.processes self.now.shape.registers self.now.entries }
        ensures { IsTrue result ↔ ArePlacedBefore self.now.entries next.now at }
    {
        let processes = self.shape().processes() as u8;
        for process in 0..processes {
            match self.next_answer(next, process) {
                Some(given) => {
                    if given.at < at {
                        return false;
                    }
                }
                None => {}
            }
        }
        true
    }
}
