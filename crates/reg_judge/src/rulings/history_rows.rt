//! The rows of a history: its calls and answers, each at a register.
ghost use Rattle.std.specs.Prelude.{IfOk, IfSome, List};
ghost use Rattle.reg_checkers.specs.Table.{IsTable};
ghost use Rattle.reg_checkers.specs.declared.entries.Entry.{Entry as AnyEntry};
ghost use Rattle.reg_judge.specs.Reported.{AreRowsOf, IsCallOf, IsRegisterOf, IsRowOf};

use crate::rulings::faults::RuleFault;
use crate::rulings::rows::{Act, Row, Step};
use crate::rulings::search::event_of;
use reg_base::{Op, OpId};
use reg_checkers::{Entry, Fact, History, fact_of, table_of};
use std::alloc::Allocator;

/// The call of an operation.
fn call_of(op: Op) -> Step
    ensures { IsCallOf op result }
{
    match op {
        Op::Read { .. } => Step::Call {
            act: Act::Read,
            expected: 0,
            value: 0,
        },
        Op::Write { value, .. } => Step::Call {
            act: Act::Write,
            expected: 0,
            value,
        },
        Op::Swap { value, .. } => Step::Call {
            act: Act::Swap,
            expected: 0,
            value,
        },
        Op::CompareAndSwap {
            expected,
            value,
            ..
        } => Step::Call {
            act: Act::CompareAndSwap,
            expected,
            value,
        },
    }
}

/// The register of the operation that was called under this id, None where the table has none.
fn register_of<A: Allocator + Copy>(table: &[Vec<Fact, A>], id: OpId) -> Option<u16>
    ensures { (h : List AnyEntry) → IsTable h table.now → IfSome result (IsRegisterOf h id) }
{
    let fact = fact_of(table, id)?;
    Some(fact.op.register())
}

/// The row of an entry of a history, by the table of its facts. None where an answer is of no call of the table.
fn row_of<A: Allocator + Copy>(table: &[Vec<Fact, A>], entry: Entry) -> Option<Row>
    ensures { (h : List AnyEntry) → IsTable h table.now → IfSome result (IsRowOf h entry) }
{
    match entry {
        Entry::Called { at, id, op } => Some(Row {
            at,
            process: u32::from(id.process),
            key: u32::from(op.register()),
            step: call_of(op),
        }),
        Entry::Answered { at, id, answer } => {
            let register = register_of(table, id)?;
            Some(Row {
                at,
                process: u32::from(id.process),
                key: u32::from(register),
                step: Step::Answer(answer),
            })
        }
    }
}

/// The rows of a history: one for each entry.
pub(crate) fn rows_of<A: Allocator + Copy>(
    alloc: A,
    history: &History<A>,
) -> Result<Vec<Row, A>, RuleFault>
    ensures { IfOk result (λ v. AreRowsOf history.now.entries v.items) }
{
    let entries = history.entries();
    let table = table_of(alloc, history.shape(), entries)?;
    let mut rows = Vec::new(alloc);
    for entry in entries {
        let Some(row) = row_of(&table, *entry) else {
            return Err(RuleFault::OutOfPlace {
                at: event_of(*entry),
            });
        };
        rows.push(row)?;
    }
    Ok(rows)
}
