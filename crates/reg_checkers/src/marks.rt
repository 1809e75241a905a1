//! The passes that mark the operations of an order in the table.
ghost use Rattle.std.specs.Prelude.{◌≡◌, ℕ, ◌<◌, ◌+◌, ◌↔◌, List, [], IsSome, IsTrue, IfOk, MatchBool, MatchOption};
ghost use Rattle.std.specs.Prelude.{vec_len, slice_index, slice_set, ◌≤◌};
ghost use Rattle.reg_base.specs.declared.memory.OpId.{OpId};
ghost use Rattle.reg_checkers.specs.History.{IsAt, IsFinished};
ghost use Rattle.reg_checkers.specs.Orders.{IsDistinct, KeepsOwnOrder};
ghost use Rattle.reg_checkers.specs.Checks.{HasTwice, BreaksOwnOrder};
ghost use Rattle.reg_checkers.specs.Table.{cell, Marked, AreMarked, IsMarkedToo, Stands, AreResolved};

use crate::entries::Entry;
use crate::facts::Fact;
use crate::table::{fact_of, set_fact};
use reg_base::OpId;
use std::alloc::{AllocError, Allocator};

/// The fact of an operation that may stand in an order.
fn standing<A: Allocator + Copy>(rows: &[Vec<Fact, A>], id: OpId) -> Option<Fact>
    ensures { MatchOption result (¬ Stands rows.now id) (λ f. (cell rows.now id ≡ Some f) × Stands rows.now id) }
{
    let fact = fact_of(rows, id)?;
    let stands = fact.answered.is_some() || fact.op.updates();
    stands.then_some(fact)
}

/// Marks an operation, if it is not yet marked.
fn mark<A: Allocator + Copy>(rows: &mut Vec<Vec<Fact, A>, A>, id: OpId) -> bool
    requires { IsSome (cell rows.old.items id) }
    ensures { MatchBool result (IsMarkedToo rows.old.items rows.new.items id) (Marked rows.old.items id) }
{
    match fact_of(rows, id) {
        Some(fact) => {
            if fact.stands {
                false
            } else {
                set_fact(
                    rows,
                    id,
                    Fact {
                        op: fact.op,
                        called: fact.called,
                        answered: fact.answered,
                        stands: true,
                    },
                );
                true
            }
        }
        None => false,
    }
}

/// Whether an operation is marked.
fn is_marked<A: Allocator + Copy>(rows: &[Vec<Fact, A>], id: OpId) -> bool
    ensures { IsTrue result ↔ Marked rows.now id }
{
    match fact_of(rows, id) {
        Some(fact) => fact.stands,
        None => false,
    }
}

/// Marks the ids, and says whether one stands twice.
pub fn has_twice<A: Allocator + Copy>(rows: &mut Vec<Vec<Fact, A>, A>, ids: &[OpId]) -> bool
    requires known { (k : ℕ) (id : OpId) → IsAt ids.now k id → IsSome (cell rows.old.items id) }
    requires unmarked { AreMarked rows.old.items [] }
    ensures { MatchBool result (HasTwice ids.now) (IsDistinct ids.now × AreMarked rows.new.items ids.now) }
{
    for k in 0..ids.len() {
        if !mark(rows, ids[k]) {
            return true;
        }
    }
    false
}

/// Whether a finished operation is not marked.
pub fn has_missing<A: Allocator + Copy>(rows: &[Vec<Fact, A>], entries: &[Entry]) -> bool
    ensures { MatchBool result ((id : OpId) × IsFinished entries.now id × (¬ Marked rows.now id))
        ((id : OpId) → IsFinished entries.now id → Marked rows.now id) }
{
    for i in 0..entries.len() {
        if let Entry::Answered {
            at: _,
            id,
            answer: _,
        } = entries[i]
        {
            if !is_marked(rows, id) {
                return true;
            }
        }
    }
    false
}

/// The facts of the ids, None where one may not stand in an order.
pub fn resolve<A: Allocator + Copy>(
    alloc: A,
    rows: &[Vec<Fact, A>],
    ids: &[OpId],
) -> Result<Option<Vec<Fact, A>>, AllocError>
    ensures { IfOk result
        (λ o. MatchOption o ((k : ℕ) × (id : OpId) × IsAt ids.now k id × (¬ Stands rows.now id))
        (λ v. AreResolved rows.now ids.now v.items)) }
{
    let mut facts = Vec::with_capacity(alloc, ids.len())?;
    for k in 0..ids.len() {
        let Some(fact) = standing(rows, ids[k]) else {
            return Ok(None);
        };
        facts.push_reserved(fact);
    }
    Ok(Some(facts))
}

/// Takes the next number of a process, unless the process is already past it.
fn passes<A: Allocator + Copy>(next: &mut Vec<u64, A>, id: OpId) -> bool
    requires { vec_len next.old ≡ 256 }
    ensures verdict { MatchBool result
        ((slice_index next.old.items id.process ≤ id.number)
        × (next.new.items ≡ slice_set next.old.items id.process (id.number + 1)))
        (id.number < slice_index next.old.items id.process) }
    ensures len { vec_len next.new ≡ 256 }
    ensures small { id.process < 256 }
{
    let p = usize::from(id.process);
    let number = u64::from(id.number);
    if number < next[p] {
        return false;
    }
    next[p] = number + 1;
    true
}

/// Whether an id stands after one of its process with a larger number.
pub fn breaks_own_order<A: Allocator + Copy>(alloc: A, ids: &[OpId]) -> Result<bool, AllocError>
    requires { IsDistinct ids.now }
    ensures { IfOk result (λ b. MatchBool b (BreaksOwnOrder ids.now) (KeepsOwnOrder ids.now)) }
{
    let mut next: Vec<u64, A> = vec![in alloc; 0; 256]?;
    for k in 0..ids.len() {
        if !passes(&mut next, ids[k]) {
            return Ok(true);
        }
    }
    Ok(false)
}
