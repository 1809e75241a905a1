//! What might have been answered instead, at the answers that no point order explains.
ghost use Rattle.std.specs.Prelude.{◌≡◌, IfOk, IfSome};
ghost use Rattle.reg_judge.specs.Instead.{ArePossibleAt, AreToldOf, IsToldOf};
ghost use Rattle.reg_judge.specs.Keys.{rows_of_key};

use crate::judge::PointsFault;
use crate::possible::possible_answers;
use crate::rulings::faults::RuleFault;
use crate::rulings::firsts::answer_place;
use crate::rulings::keys::{Ruling, alone};
use crate::rulings::rows::Row;
use reg_base::Answer;
use std::alloc::{AllocError, Allocator};

/// The rows of a key, as if it were the only one.
fn rows_at<A: Allocator + Copy>(
    alloc: A,
    key: usize,
    rows: &[Row],
) -> Result<Vec<Row, A>, AllocError>
    ensures { IfOk result (λ v. v.items ≡ rows_of_key key rows.now) }
{
    let mut part = Vec::new(alloc);
    for row in rows {
        if row.key as usize == key {
            part.push(Row { key: 0, ..*row })?;
        }
    }
    Ok(part)
}

/// What might have been answered at this event, in a history of the rows of one key. None where it wasn't looked for.
fn possible_at<A: Allocator + Copy>(
    alloc: A,
    processes: usize,
    rows: &[Row],
    at: u32,
) -> Result<Option<Vec<Answer, A>>, RuleFault>
    ensures { IfOk result (λ found. IfSome found (λ v. ArePossibleAt processes rows.now at v.items)) }
{
    let history = alone(alloc, processes, rows)?;
    let Some(place) = answer_place(history.entries(), at) else {
        return Ok(None);
    };
    match possible_answers(alloc, &history, place) {
        Ok(found) => Ok(found),
        Err(PointsFault::OutOfMemory) => Err(RuleFault::OutOfMemory),
        Err(_) => Ok(None),
    }
}

/// What might have been answered, by what was found out of a key. None where it is linearizable, or that wasn't looked
/// for.
fn possible_by<A: Allocator + Copy>(
    alloc: A,
    processes: usize,
    key: usize,
    rows: &[Row],
    ruling: Ruling,
) -> Result<Option<Vec<Answer, A>>, RuleFault>
    ensures { IfOk result (IsToldOf processes (rows_of_key key rows.now) ruling) }
{
    match ruling {
        Ruling::Linearizable => Ok(None),
        Ruling::Not { at } => {
            let part = rows_at(alloc, key, rows)?;
            possible_at(alloc, processes, &part, at)
        }
    }
}

/// What might have been answered instead, of each key: at its first answer that no point order explains, the answers
/// with which the entries up to there have one. None where there is no such answer, or there may be too many to look
/// for.
///
/// # Errors
///
/// As `rule_all`.
pub fn possible_all<A: Allocator + Copy>(
    alloc: A,
    processes: usize,
    rows: &[Row],
    rulings: &[Ruling],
) -> Result<Vec<Option<Vec<Answer, A>>, A>, RuleFault>
    ensures { IfOk result (λ v. AreToldOf processes rows.now rulings.now v.items) }
{
    let mut told = Vec::new(alloc);
    for key in 0..rulings.len() {
        told.push(possible_by(alloc, processes, key, rows, rulings[key])?)?;
    }
    Ok(told)
}
