//! The checkers of serial orders and point orders.
ghost use Rattle.std.specs.Prelude.{◌≡◌, ◌<◌, ◌⊎◌, ℕ, All, length, IfErr, MatchResult, OnOk};
ghost use Rattle.reg_base.specs.Memory.{register_of};
ghost use Rattle.reg_checkers.specs.History.{IsHistory};
ghost use Rattle.reg_checkers.specs.Checks.{IsFalling, IsFirst, SerialVerdict, PointVerdict, NoneOfThree};
ghost use Rattle.reg_checkers.specs.Facts.{IsOutsideFact, IsWrongFact};
ghost use Rattle.reg_checkers.specs.Selections.{IsSelected, IsSelectionFault};

use crate::answers::first_wrong;
use crate::entries::{Entry, Point};
use crate::facts::Fact;
use crate::faults::CheckFault;
use crate::log::History;
use crate::marks::{breaks_own_order, has_missing, has_twice, resolve};
use crate::points::{first_falling, first_outside, ids_of_points};
use crate::table::table_of;
use reg_base::{OpId, Shape};
use std::alloc::Allocator;

/// The facts of the ids, if these are a selection.
fn select<A: Allocator + Copy>(
    alloc: A,
    shape: Shape,
    entries: &[Entry],
    ids: &[OpId],
) -> Result<Vec<Fact, A>, CheckFault>
    requires { IsHistory shape.processes shape.registers entries.now }
    ensures { MatchResult result (λ v. IsSelected entries.now ids.now v.items × NoneOfThree entries.now ids.now)
        (λ f. IsSelectionFault entries.now ids.now f) }
{
    let Ok(mut rows) = table_of(alloc, shape, entries) else {
        return Err(CheckFault::OutOfMemory);
    };
    let facts = match resolve(alloc, &rows, ids) {
        Ok(Some(facts)) => facts,
        Ok(None) => return Err(CheckFault::Unknown),
        Err(_) => return Err(CheckFault::OutOfMemory),
    };
    if has_twice(&mut rows, ids) {
        return Err(CheckFault::Twice);
    }
    if has_missing(&rows, entries) {
        return Err(CheckFault::Missing);
    }
    Ok(facts)
}

/// Checks that each answer is that of one memory.
fn check_answers<A: Allocator + Copy>(
    alloc: A,
    shape: Shape,
    facts: &[Fact],
) -> Result<(), CheckFault>
    requires { All (λ f. register_of f.op < shape.registers) facts.now }
    ensures right { OnOk result ((k : ℕ) → ¬ IsWrongFact shape.registers facts.now k) }
    ensures wrong { IfErr result
        (λ f. (f ≡ CheckFault.OutOfMemory)
        ⊎ ((place : ℕ) × (f ≡ CheckFault.Answer place) × IsFirst (IsWrongFact shape.registers facts.now) place)) }
{
    match first_wrong(alloc, shape, facts) {
        Ok(None) => Ok(()),
        Ok(Some(place)) => Err(CheckFault::Answer { place }),
        Err(_) => Err(CheckFault::OutOfMemory),
    }
}

/// Checks that each point is between its call and its answer, and none is below the one before it.
fn check_places(points: &[Point], facts: &[Fact]) -> Result<(), CheckFault>
    requires { length facts.now ≡ length points.now }
    ensures right { OnOk result
        (((k : ℕ) → ¬ IsOutsideFact points.now facts.now k) × ((k : ℕ) → ¬ IsFalling points.now k)) }
    ensures wrong { IfErr result
        (λ f. ((place : ℕ) × (f ≡ CheckFault.Outside place) × IsFirst (IsOutsideFact points.now facts.now) place)
        ⊎ ((place : ℕ) × (f ≡ CheckFault.Falling place) × ((k : ℕ) → ¬ IsOutsideFact points.now facts.now k)
        × IsFirst (IsFalling points.now) place)) }
{
    if let Some(place) = first_outside(points, facts) {
        return Err(CheckFault::Outside { place });
    }
    match first_falling(points) {
        Some(place) => Err(CheckFault::Falling { place }),
        None => Ok(()),
    }
}

fn judge_serial<A: Allocator + Copy>(
    alloc: A,
    shape: Shape,
    entries: &[Entry],
    ids: &[OpId],
) -> Result<(), CheckFault>
    requires { IsHistory shape.processes shape.registers entries.now }
    ensures { SerialVerdict shape.registers entries.now ids.now result }
{
    let facts = select(alloc, shape, entries, ids)?;
    match breaks_own_order(alloc, ids) {
        Ok(false) => {}
        Ok(true) => return Err(CheckFault::OwnOrder),
        Err(_) => return Err(CheckFault::OutOfMemory),
    }
    check_answers(alloc, shape, &facts)
}

fn judge_points<A: Allocator + Copy>(
    alloc: A,
    shape: Shape,
    entries: &[Entry],
    points: &[Point],
) -> Result<(), CheckFault>
    requires { IsHistory shape.processes shape.registers entries.now }
    ensures { PointVerdict shape.registers entries.now points.now result }
{
    let Ok(ids) = ids_of_points(alloc, points) else {
        return Err(CheckFault::OutOfMemory);
    };
    let facts = select(alloc, shape, entries, &ids)?;
    check_answers(alloc, shape, &facts)?;
    check_places(points, &facts)
}

/// Checks that the ids are a serial order of the history, as sequential consistency asks for (Lamport 1979): every
/// finished operation once, and besides only called writes and swaps, each at most once; each process's own order; each
/// answer that of one memory, all 0 at first.
///
/// # Errors
///
/// The first fault in the order of `CheckFault` that holds, at its first place. `Outside` and `Falling` never come, and
/// `OutOfMemory` says nothing of the order.
pub fn check_serial<A: Allocator + Copy>(
    alloc: A,
    history: &History<A>,
    ids: &[OpId],
) -> Result<(), CheckFault>
    ensures { SerialVerdict history.now.shape.registers history.now.entries ids.now result }
{
    judge_serial(alloc, history.shape(), history.entries(), ids)
}

/// Checks that the points are a point order of the history, as linearizability asks for (Herlihy and Wing 1990): every
/// finished operation once, and besides only called writes and swaps, each at most once; each answer that of one
/// memory, all 0 at first; each point not before the call and not after the answer; and no point below the one before.
///
/// # Errors
///
/// The first fault in the order of `CheckFault` that holds, at its first place. `OwnOrder` never comes: where the own
/// order is broken, another fault holds. `OutOfMemory` says nothing of the order.
pub fn check_points<A: Allocator + Copy>(
    alloc: A,
    history: &History<A>,
    points: &[Point],
) -> Result<(), CheckFault>
    ensures { PointVerdict history.now.shape.registers history.now.entries points.now result }
{
    judge_points(alloc, history.shape(), history.entries(), points)
}
