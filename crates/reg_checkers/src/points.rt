//! The passes over points.
ghost use Rattle.std.specs.Prelude.{◌≡◌, ℕ, ◌↔◌, IsTrue, IfOk, MatchOption, length};
ghost use Rattle.reg_checkers.specs.Checks.{IsFalling, IsFirst, ids_of};
ghost use Rattle.reg_checkers.specs.Facts.{IsBeside, IsOutsideFact};

use crate::entries::Point;
use crate::facts::Fact;
use reg_base::OpId;
use std::alloc::{AllocError, Allocator};

/// The operations of points, in their order.
///
/// # Errors
///
/// There was no memory for the list.
pub fn ids_of_points<A: Allocator + Copy>(
    alloc: A,
    points: &[Point],
) -> Result<Vec<OpId, A>, AllocError>
    ensures { IfOk result (λ v. v.items ≡ ids_of points.now) }
{
    let mut ids = Vec::with_capacity(alloc, points.len())?;
    for point in points {
        ids.push_reserved(point.id);
    }
    Ok(ids)
}

/// Whether the point is before the call, or after the answer.
fn is_beside(point: Point, fact: Fact) -> bool
    ensures { IsTrue result ↔ IsBeside point fact }
{
    if point.at < fact.called {
        return true;
    }
    match fact.answered {
        Some(given) => given.at < point.at,
        None => false,
    }
}

/// The first place whose point is before the call or after the answer, None where there is none.
pub fn first_outside(points: &[Point], facts: &[Fact]) -> Option<usize>
    requires { length facts.now ≡ length points.now }
    ensures { MatchOption result ((k : ℕ) → ¬ IsOutsideFact points.now facts.now k)
        (λ k. IsFirst (IsOutsideFact points.now facts.now) k) }
{
    for k in 0..points.len() {
        if is_beside(points[k], facts[k]) {
            return Some(k);
        }
    }
    None
}

/// The first place whose point is below the one before it, None where there is none.
pub fn first_falling(points: &[Point]) -> Option<usize>
    ensures { MatchOption result ((k : ℕ) → ¬ IsFalling points.now k) (λ k. IsFirst (IsFalling points.now) k) }
{
    for k in 1..points.len() {
        if points[k].at < points[k - 1].at {
            return Some(k);
        }
    }
    None
}
