//! The facts of a history, by process and number.
ghost use Rattle.std.specs.Prelude.{◌≡◌, ℕ, ◌<◌, ◌+◌, ◌↔◌, OnOk, IfOk, IsSome, length, take, vec_len};
ghost use Rattle.reg_base.specs.declared.memory.OpId.{OpId};
ghost use Rattle.reg_checkers.specs.Table.{cell, IsChangedAt, IsTable, IsUnmarked};
ghost use Rattle.reg_checkers.specs.History.{IsHistory};

use crate::entries::Entry;
use crate::facts::{Fact, Given};
use reg_base::{OpId, Shape};
use std::alloc::{AllocError, Allocator};

/// The fact of an operation, None where the table has none.
pub fn fact_of<A: Allocator + Copy>(rows: &[Vec<Fact, A>], id: OpId) -> Option<Fact>
    ensures { result ≡ cell rows.now id }
{
    let row = rows.get(usize::from(id.process))?;
    row.get(id.number as usize).copied()
}

/// Replaces the fact of an operation.
pub fn set_fact<A: Allocator + Copy>(rows: &mut Vec<Vec<Fact, A>, A>, id: OpId, fact: Fact)
    requires { IsSome (cell rows.old.items id) }
    ensures changed { IsChangedAt rows.old.items rows.new.items id fact }
    ensures len { vec_len rows.new ≡ vec_len rows.old }
{
    rows[usize::from(id.process)][id.number as usize] = fact;
}

/// Adds the fact of a process's next operation.
fn add_fact<A: Allocator + Copy>(
    rows: &mut Vec<Vec<Fact, A>, A>,
    id: OpId,
    fact: Fact,
) -> Result<(), AllocError>
    requires process { id.process < vec_len rows.old }
    requires next { (n : ℕ)
        → (n < id.number) ↔ IsSome (cell rows.old.items (record { process = id.process; number = n })) }
    ensures changed { OnOk result (IsChangedAt rows.old.items rows.new.items id fact) }
    ensures len { vec_len rows.new ≡ vec_len rows.old }
{
    rows[usize::from(id.process)].push(fact)?;
    Ok(())
}

/// Notes the entry at a place in the table of those before it.
fn note<A: Allocator + Copy>(
    rows: &mut Vec<Vec<Fact, A>, A>,
    shape: Shape,
    entries: &[Entry],
    i: usize,
) -> Result<(), AllocError>
    requires place { i < length entries.now }
    requires history { IsHistory shape.processes shape.registers entries.now }
    requires rows { vec_len rows.old ≡ shape.processes }
    requires table { IsTable (take i entries.now) rows.old.items }
    requires unmarked { IsUnmarked rows.old.items }
    ensures table { OnOk result (IsTable (take (i + 1) entries.now) rows.new.items) }
    ensures unmarked { OnOk result (IsUnmarked rows.new.items) }
    ensures len { vec_len rows.new ≡ vec_len rows.old }
{
    match entries[i] {
        Entry::Called { at, id, op } => add_fact(
            rows,
            id,
            Fact {
                op,
                called: at,
                answered: None,
                stands: false,
            },
        ),
        Entry::Answered { at, id, answer } => {
            if let Some(fact) = fact_of(rows, id) {
                let answered = Some(Given { at, answer });
                set_fact(
                    rows,
                    id,
                    Fact {
                        op: fact.op,
                        called: fact.called,
                        answered,
                        stands: false,
                    },
                );
            }
            Ok(())
        }
    }
}

/// An empty row for each process.
fn empty_rows<A: Allocator + Copy>(
    alloc: A,
    processes: u32,
) -> Result<Vec<Vec<Fact, A>, A>, AllocError>
    ensures len { IfOk result (λ v. vec_len v ≡ processes) }
    ensures none { IfOk result (λ v. (id : OpId) → cell v.items id ≡ None) }
{
    let mut rows: Vec<Vec<Fact, A>, A> = Vec::new(alloc);
    for _p in 0..processes {
        rows.push(Vec::new(alloc))?;
    }
    Ok(rows)
}

/// The facts of all operations of a history, by process and number. None is marked as standing in an order.
///
/// # Errors
///
/// Memory was refused.
pub fn table_of<A: Allocator + Copy>(
    alloc: A,
    shape: Shape,
    entries: &[Entry],
) -> Result<Vec<Vec<Fact, A>, A>, AllocError>
    requires { IsHistory shape.processes shape.registers entries.now }
    ensures table { IfOk result (λ v. IsTable entries.now v.items) }
    ensures unmarked { IfOk result (λ v. IsUnmarked v.items) }
{
    let mut rows = empty_rows(alloc, shape.processes())?;
    for i in 0..entries.len() {
        note(&mut rows, shape, entries, i)?;
    }
    Ok(rows)
}
