//! How many outcomes no play had.
ghost use Rattle.std.specs.Prelude.{◌++◌, ◌∷◌, [], ◌+◌, ◌-◌, ◌^◌, ◌<◌, ◌≤◌, ℕ, List, IfOk};
ghost use Rattle.reg_outcomes.specs.Interleavings.{Interleaving};
ghost use Rattle.reg_outcomes.specs.PlayTables.{Seen};
ghost use Rattle.reg_outcomes.specs.Counts.{IsCounted};
ghost use Rattle.reg_outcomes.specs.Outcomes.{CountsUndrawn, TellsUndrawn};

use crate::faults::InterleavingFault;
use crate::interleavings::few::few_outcomes;
use crate::interleavings::outcomes::Outcome;
use crate::tables::tallies::Tally;
use crate::told::ToldAnswer;
use reg_workload::Workload;
use std::alloc::{AllocError, Allocator};
use std::collections::BTreeMap;

/// The most stages of a workload's scripts where the outcomes that no play had are counted.
pub const MOST_COUNTED_STAGES: u32 = 10_000;

/// How many of some outcomes and this one no play had.
fn undrawn_with<A: Allocator + Copy>(
    told: &BTreeMap<Vec<ToldAnswer, A>, Tally, A>,
    outcome: &Outcome<A>,
    undrawn: usize,
) -> usize
    requires { undrawn < 2 ^ 64 - 1 }
    ensures counted { (plays : List Seen) (unfinished : ℕ) (others : List Interleaving)
        → IsCounted (λ v. v.items) plays told.now unfinished → CountsUndrawn plays others undrawn
        → CountsUndrawn plays (others ++ outcome.now ∷ []) result }
    ensures one { result ≤ undrawn + 1 }
{
    if told.contains_key(&outcome.told) {
        undrawn
    } else {
        undrawn + 1
    }
}

/// How many of these outcomes no play had.
fn undrawn_of<A: Allocator + Copy>(
    told: &BTreeMap<Vec<ToldAnswer, A>, Tally, A>,
    outcomes: &[Outcome<A>],
) -> usize
    ensures { (plays : List Seen) (unfinished : ℕ) → IsCounted (λ v. v.items) plays told.now unfinished
        → CountsUndrawn plays outcomes.now result }
{
    let mut undrawn = 0;
    for outcome in outcomes {
        undrawn = undrawn_with(told, outcome, undrawn);
    }
    undrawn
}

/// How many of all outcomes of a workload's scripts no play had, None where interleavings of them go through more
/// stages than `MOST_COUNTED_STAGES`.
///
/// # Errors
///
/// Memory was refused.
pub(crate) fn count_undrawn<A: Allocator + Copy>(
    alloc: A,
    work: &Workload<A>,
    told: &BTreeMap<Vec<ToldAnswer, A>, Tally, A>,
) -> Result<Option<usize>, AllocError>
    ensures { IfOk result
        (λ o. (plays : List Seen) (unfinished : ℕ) → IsCounted (λ v. v.items) plays told.now unfinished
        → TellsUndrawn work.now.scripts work.now.shape.registers plays o) }
{
    let scripts = work.scripts.as_slice();
    let registers = work.shape.registers() as u16;
    match few_outcomes(alloc, scripts, registers, MOST_COUNTED_STAGES) {
        Ok(all) => Ok(Some(undrawn_of(told, all.list.as_slice()))),
        Err(InterleavingFault::TooManyStages) => Ok(None),
        Err(InterleavingFault::OutOfMemory) => Err(AllocError),
    }
}
