//! What no outcome tells, though each of its answers stands in some outcome.
ghost use Rattle.std.specs.Prelude.{◌≡◌, ◌+◌, ◌<◌, ◌≤◌, List, IfOk, OnOk, MatchOption, length};
ghost use Rattle.std.specs.Option.{option_map};
ghost use Rattle.std.specs.BTreeSet.{IsOrdered};
ghost use Rattle.std.specs.Cmp.Lexicographic.{slice_cmp};
ghost use Rattle.reg_base.specs.Lists.{lists};
ghost use Rattle.reg_checkers.specs.History.{IsAt};
ghost use Rattle.reg_outcomes.specs.declared.told.ToldAnswer.{ToldAnswer as AnyAnswer};
ghost use Rattle.reg_outcomes.specs.Told.{told_cmp};
ghost use Rattle.reg_outcomes.specs.Nevers.{AreOver, TellsNevers, tells};
ghost use Rattle.reg_outcomes.specs.Combining.{AreCombinations, AreValuesAt, Grows, IsLonger, cut_all, lists_of};

use crate::interleavings::outcomes::Outcome;
use crate::told::ToldAnswer;
use std::alloc::{AllocError, Allocator};
use std::collections::BTreeSet;

/// The most combinations that are listed.
pub const MOST_NEVERS: u32 = 256;

/// Combinations of answers.
type Combinations<A> = BTreeSet<Vec<ToldAnswer, A>, A>;

/// The answers that stand at this place in some outcome, each once.
fn values_at<A: Allocator + Copy>(
    alloc: A,
    outcomes: &[Outcome<A>],
    place: usize,
) -> Result<Vec<ToldAnswer, A>, AllocError>
    ensures { IfOk result (λ v. AreValuesAt (tells outcomes.now) place v.items) }
{
    let mut values = Vec::new(alloc);
    for outcome in outcomes {
        if let Some(value) = outcome.told.get(place) {
            if !values.contains(value) {
                values.push(*value)?;
            }
        }
    }
    Ok(values)
}

/// Adds a combination with each of the answers after it.
fn add_longer<A: Allocator + Copy>(
    alloc: A,
    combination: &[ToldAnswer],
    values: &[ToldAnswer],
    combinations: &mut Combinations<A>,
) -> Result<(), AllocError>
    ensures { OnOk result
        (Grows (IsLonger values.now combination.now) (lists_of combinations.old) (lists_of combinations.new)) }
{
    for value in values {
        let mut longer = Vec::with_capacity(alloc, combination.len() + 1)?;
        longer.extend_from_slice(combination)?;
        longer.push(*value)?;
        combinations.insert(longer)?;
    }
    Ok(())
}

/// The combinations with one place more. None where they outnumber the outcomes by more than are listed.
fn next_combinations<A: Allocator + Copy>(
    alloc: A,
    outcomes: &[Outcome<A>],
    place: usize,
    combinations: Combinations<A>,
) -> Result<Option<Combinations<A>>, AllocError>
    requires whole { (first : List AnyAnswer) × IsAt (tells outcomes.now) 0 first × (place < length first) }
    requires all { AreCombinations (tells outcomes.now) place (lists_of combinations) }
    ensures { IfOk result
        (λ found. MatchOption found (AreOver (tells outcomes.now) MOST_NEVERS)
        (λ next. AreCombinations (tells outcomes.now) (place + 1) (lists_of next))) }
{
    let values = values_at(alloc, outcomes, place)?;
    let most = outcomes.len() + MOST_NEVERS as usize;
    let mut next = BTreeSet::new(alloc);
    for combination in combinations {
        add_longer(alloc, &combination, &values, &mut next)?;
        if next.len() > most {
            return Ok(None);
        }
    }
    Ok(Some(next))
}

/// The combinations with as many places as the first outcome.
fn all_combinations<A: Allocator + Copy>(
    alloc: A,
    outcomes: &[Outcome<A>],
    places: usize,
) -> Result<Option<Combinations<A>>, AllocError>
    requires { (first : List AnyAnswer) × IsAt (tells outcomes.now) 0 first × (places ≡ length first) }
    ensures { IfOk result
        (λ found. MatchOption found (AreOver (tells outcomes.now) MOST_NEVERS)
        (λ all. AreCombinations (tells outcomes.now) places (lists_of all))) }
{
    let mut combinations = BTreeSet::new(alloc);
    combinations.insert(Vec::new(alloc))?;
    for place in 0..places {
        match next_combinations(alloc, outcomes, place, combinations)? {
            Some(next) => combinations = next,
            None => return Ok(None),
        }
    }
    Ok(Some(combinations))
}

/// Removes what the outcomes tell.
fn remove_told<A: Allocator + Copy>(outcomes: &[Outcome<A>], combinations: &mut Combinations<A>)
    ensures keys { combinations.new.keys ≡ cut_all (λ v. v.items) (tells outcomes.now) combinations.old.keys }
{
    for outcome in outcomes {
        combinations.remove(&outcome.told);
    }
}

/// The combinations in their order, and None where they are more than are listed.
fn listed_within<A: Allocator + Copy>(
    alloc: A,
    combinations: Combinations<A>,
) -> Result<Option<Vec<Vec<ToldAnswer, A>, A>>, AllocError>
    ensures list { IfOk result
        (λ found. MatchOption found (MOST_NEVERS < length combinations.keys)
        (λ list. (list.items ≡ combinations.keys) × (length combinations.keys ≤ MOST_NEVERS))) }
    ensures ordered { OnOk result (IsOrdered (λ a b. slice_cmp told_cmp a.items b.items) combinations) }
{
    if combinations.len() > MOST_NEVERS as usize {
        return Ok(None);
    }
    let mut list = Vec::new(alloc);
    for combination in combinations {
        list.push(combination)?;
    }
    Ok(Some(list))
}

/// The combinations of answers that no outcome has, though some outcome has each of the answers: each once, rising. It
/// is None where they are more than `MOST_NEVERS`.
///
/// # Errors
///
/// Memory was refused.
pub fn nevers_of<A: Allocator + Copy>(
    alloc: A,
    outcomes: &[Outcome<A>],
) -> Result<Option<Vec<Vec<ToldAnswer, A>, A>>, AllocError>
    ensures { IfOk result
        (λ found. TellsNevers (tells outcomes.now) MOST_NEVERS (option_map (λ list. lists list.items) found)) }
{
    let Some(first) = outcomes.first() else {
        return Ok(Some(Vec::new(alloc)));
    };
    let Some(mut combinations) = all_combinations(alloc, outcomes, first.told.len())? else {
        return Ok(None);
    };
    remove_told(outcomes, &mut combinations);
    listed_within(alloc, combinations)
}
