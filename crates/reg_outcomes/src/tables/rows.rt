//! The lines of a table.
ghost use Rattle.std.specs.Prelude.{◌≡◌, List, ℕ, IfOk, OnOk, map};
ghost use Rattle.std.specs.BTreeMap.{IsOrdered};
ghost use Rattle.std.specs.List.Sorted.{IsPermutation, IsSorted};
ghost use Rattle.reg_outcomes.specs.PlayTables.{Seen, IsTable};
ghost use Rattle.reg_outcomes.specs.Counts.{IsCounted, key_cmp, line_of, line_cmp};

use crate::tables::tallies::Tally;
use crate::told::ToldAnswer;
use std::alloc::{AllocError, Allocator, Global};
use std::cmp::Ordering;
use std::collections::BTreeMap;
use std::marker::Model;

/// A line of a table: an outcome, and what is told of it.
#[derive(Drop)]
pub struct Row<A: Allocator + Copy = Global> {
    pub outcome: Vec<ToldAnswer, A>,
    pub tally: Tally,
}

impl<A: Allocator + Copy> Model for Row<A> {
    ghost use Rattle.reg_outcomes.specs.PlayTables.{Line};

    ghost Value = { Line };

    ghost view = { λ r. record { outcome = r.outcome.items; tally = r.tally } };
}

/// A line for each entry.
fn listed<A: Allocator + Copy>(
    alloc: A,
    told: BTreeMap<Vec<ToldAnswer, A>, Tally, A>,
) -> Result<Vec<Row<A>, A>, AllocError>
    ensures lines { IfOk result (λ v. v.items ≡ map (line_of (λ k. k.items)) told.entries) }
    ensures ordered { OnOk result (IsOrdered (key_cmp (λ k. k.items)) told) }
{
    let mut rows = Vec::new(alloc);
    for (outcome, tally) in told {
        rows.push(Row { outcome, tally })?;
    }
    Ok(rows)
}

/// By falling count, and then by outcome.
fn order<A: Allocator + Copy>(a: &Row<A>, b: &Row<A>) -> Ordering
    ensures { result ≡ line_cmp a.now b.now }
{
    let counts = b.tally.count.cmp(&a.tally.count);
    let outcomes = a.outcome.cmp(&b.outcome);
    counts.then(outcomes)
}

/// Puts the lines in order.
fn sort<A: Allocator + Copy>(rows: &mut Vec<Row<A>, A>)
    ensures same { IsPermutation rows.old.items rows.new.items }
    ensures sorted { IsSorted line_cmp rows.new.items }
{
    rows.sort_unstable_by(|a, b| order(a, b));
}

/// The lines of the table of these plays.
///
/// # Errors
///
/// Memory was refused.
pub fn table_of<A: Allocator + Copy>(
    alloc: A,
    told: BTreeMap<Vec<ToldAnswer, A>, Tally, A>,
) -> Result<Vec<Row<A>, A>, AllocError>
    ensures { IfOk result
        (λ v. (plays : List Seen) (unfinished : ℕ) → IsCounted (λ k. k.items) plays told unfinished
        → IsTable plays v.items) }
{
    let mut rows = listed(alloc, told)?;
    sort(&mut rows);
    Ok(rows)
}
