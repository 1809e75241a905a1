//! The history of the rows of each key, and whether it has a point order.
ghost use Rattle.std.specs.Prelude.{◌≡◌, [], IfOk, OnOk};
ghost use Rattle.reg_judge.specs.Parting.{AreParts, GetsRow};
ghost use Rattle.reg_judge.specs.Standing.{IsStood};
ghost use Rattle.reg_judge.specs.Rulings.{AreRuled, IsRuled, RulesEntries};

use crate::rulings::faults::RuleFault;
use crate::rulings::rows::Row;
use crate::rulings::search::{Sought, event_at, seek};
use crate::rulings::seats::{Naming, history_of};
use reg_base::Shape;
use reg_base::limits::MOST_PROCESSES;
use reg_checkers::History;
use std::alloc::{AllocError, Allocator};

/// What was found out of one key.
#[derive(Clone, Copy, Debug, PartialEq, Eq)]
pub enum Ruling {
    /// Its part of the history has a point order.
    Linearizable,
    /// It has none. The answer of the event of this number is the first up to which it has none.
    Not { at: u32 },
}

/// Adds a row to the part of its key, as if that key were the only one. A row of no such key is left out.
fn add_row<A: Allocator + Copy>(parts: &mut Vec<Vec<Row, A>, A>, row: Row) -> Result<(), AllocError>
    ensures { OnOk result (GetsRow row parts.old.items parts.new.items) }
{
    let key = row.key as usize;
    if key < parts.len() {
        parts[key].push(Row { key: 0, ..row })?;
    }
    Ok(())
}

/// A part with no rows for each key.
fn empty_parts<A: Allocator + Copy>(alloc: A, keys: u32) -> Result<Vec<Vec<Row, A>, A>, AllocError>
    ensures { IfOk result (λ v. AreParts keys [] v.items) }
{
    let mut parts = Vec::new(alloc);
    for _key in 0..keys {
        parts.push(Vec::new(alloc))?;
    }
    Ok(parts)
}

/// The rows of each key, as if it were the only one.
fn parts_of<A: Allocator + Copy>(
    alloc: A,
    keys: u32,
    rows: &[Row],
) -> Result<Vec<Vec<Row, A>, A>, AllocError>
    ensures { IfOk result (λ v. AreParts keys rows.now v.items) }
{
    let mut parts = empty_parts(alloc, keys)?;
    for row in rows {
        add_row(&mut parts, *row)?;
    }
    Ok(parts)
}

/// The history of rows of one key, under any names.
pub(crate) fn alone<A: Allocator + Copy>(
    alloc: A,
    processes: usize,
    rows: &[Row],
) -> Result<History<A>, RuleFault>
    ensures stands { IfOk result (λ h. IsStood Naming.Any processes 1 rows.now h.entries) }
    ensures registers { IfOk result (λ h. h.shape.registers ≡ 1) }
{
    let Ok(shape) = Shape::new(MOST_PROCESSES, 1) else {
        unreachable!()
    };
    history_of(alloc, shape, Naming::Any, processes, rows).map_err(RuleFault::from)
}

/// Whether a history of one register has a point order, and else by which answer it has none.
fn ruling_of<A: Allocator + Copy>(alloc: A, history: &History<A>) -> Result<Ruling, RuleFault>
    requires { history.now.shape.registers ≡ 1 }
    ensures { IfOk result (RulesEntries history.now.entries) }
{
    match seek(alloc, history) {
        Ok(Sought::Points(_)) => Ok(Ruling::Linearizable),
        Ok(Sought::None { place }) => Ok(Ruling::Not {
            at: event_at(history, place),
        }),
        Err(fault) => Err(fault),
    }
}

/// Whether the rows of one key have a point order, and else by which answer they have none.
fn rule<A: Allocator + Copy>(alloc: A, processes: usize, rows: &[Row]) -> Result<Ruling, RuleFault>
    ensures { IfOk result (IsRuled processes rows.now) }
{
    let history = alone(alloc, processes, rows)?;
    ruling_of(alloc, &history)
}

/// Whether the rows of each key have a point order, of as many processes and keys.
///
/// # Errors
///
/// `Full` names the first call that finds no place, `OutOfPlace` the first row that may not come next, and `TooWide`
/// where a search had too many stages. That `OutOfPlace` and `Unchecked` ever come, no clause says.
pub fn rule_all<A: Allocator + Copy>(
    alloc: A,
    processes: usize,
    keys: u32,
    rows: &[Row],
) -> Result<Vec<Ruling, A>, RuleFault>
    ensures { IfOk result (λ v. AreRuled processes keys rows.now v.items) }
{
    let parts = parts_of(alloc, keys, rows)?;
    let mut rulings = Vec::new(alloc);
    for part in &parts {
        let ruling = rule(alloc, processes, part)?;
        rulings.push(ruling)?;
    }
    Ok(rulings)
}
