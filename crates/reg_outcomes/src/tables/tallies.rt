//! What is told of the plays of each outcome.
ghost use Rattle.std.specs.Prelude.{◌≡◌, ◌↔◌, ◌++◌, ◌<◌, [], ◌∷◌, List, Bool, true, false, OnOk};
ghost use Rattle.std.specs.BTreeMap.{get};
ghost use Rattle.reg_outcomes.specs.declared.told.ToldAnswer.{ToldAnswer};
ghost use Rattle.reg_outcomes.specs.PlayTables.{IsFirst, IsTally, IsTallyOf, Seen};
ghost use Rattle.reg_outcomes.specs.Counts.{HasRoom, IsCounted, IsShortest, TellsOf, finished_play, key_cmp};

use crate::told::ToldAnswer;
use std::alloc::{AllocError, Allocator, Global};
use std::collections::BTreeMap;

/// What is told of the plays of one outcome.
#[derive(Clone, Copy, Debug, PartialEq, Eq)]
pub struct Tally {
    /// How many plays have the outcome.
    pub count: u32,
    /// The number of events of the shortest of them.
    pub events: u32,
    /// Its seed, the least of those as short.
    pub seed: u64,
    /// The seed of the first of them whose history is linearizable.
    pub in_time: Option<u64>,
    /// The seed of the first of them whose history is not.
    pub late: Option<u64>,
}

/// What is told of one finished play.
#[derive(Clone, Copy)]
pub struct Glance {
    /// The seed of its words.
    pub seed: u64,
    /// The number of its events.
    pub events: u32,
    /// Whether its history is linearizable.
    pub linearizable: bool,
}

/// What is told of plays, by their outcomes.
#[derive(Drop)]
pub struct Tallies<A: Allocator + Copy = Global> {
    /// What is told of the plays of each outcome.
    pub told: BTreeMap<Vec<ToldAnswer, A>, Tally, A>,
    /// In how many plays some operation is not answered.
    pub unfinished: u32,
}

/// The seed of the first play of a kind, linearizable or not, among some plays and one more. `is_such` says whether
/// that one is of the kind.
fn first_of(seed: Option<u64>, glance: Glance, is_such: bool) -> Option<u64>
    ensures { (kind : Bool) (plays : List Seen) (outcome : List ToldAnswer)
        → (is_such ≡ true) ↔ (glance.linearizable ≡ kind) → IsFirst kind plays seed
        → IsFirst kind (plays ++ finished_play outcome glance ∷ []) result }
{
    seed.or(is_such.then_some(glance.seed))
}

/// What is told of one play.
fn first(glance: Glance) -> Tally
    ensures { (outcome : List ToldAnswer) → IsTally (finished_play outcome glance ∷ []) result }
{
    Tally {
        count: 1,
        events: glance.events,
        seed: glance.seed,
        in_time: first_of(None, glance, glance.linearizable),
        late: first_of(None, glance, !glance.linearizable),
    }
}

/// The number of events and the seed of the shortest play, of these plays and one more.
fn shortest(tally: Tally, glance: Glance) -> (u32, u64)
    ensures { (outcome : List ToldAnswer) → IsShortest (finished_play outcome glance) tally result.0 result.1 }
{
    if glance.events < tally.events {
        return (glance.events, glance.seed);
    }
    if glance.events == tally.events && glance.seed < tally.seed {
        return (glance.events, glance.seed);
    }
    (tally.events, tally.seed)
}

/// What is told of these plays and one more.
fn joined(tally: Tally, glance: Glance) -> Tally
    requires { tally.count < u32.MAX }
    ensures { (plays : List Seen) (outcome : List ToldAnswer) → IsTally plays tally
        → IsTally (plays ++ finished_play outcome glance ∷ []) result }
{
    let (events, seed) = shortest(tally, glance);
    Tally {
        count: tally.count + 1,
        events,
        seed,
        in_time: first_of(tally.in_time, glance, glance.linearizable),
        late: first_of(tally.late, glance, !glance.linearizable),
    }
}

/// What is told of the plays with this outcome and one more.
fn next<A: Allocator + Copy>(
    told: &BTreeMap<Vec<ToldAnswer, A>, Tally, A>,
    outcome: &Vec<ToldAnswer, A>,
    glance: Glance,
) -> Tally
    requires { HasRoom (λ v. v.items) told.now }
    ensures { (plays : List Seen) → TellsOf plays outcome.now.items (get (key_cmp (λ v. v.items)) told.now outcome.now)
        → IsTallyOf (plays ++ finished_play outcome.now.items glance ∷ []) outcome.now.items result }
{
    match told.get(outcome) {
        Some(tally) => joined(*tally, glance),
        None => first(glance),
    }
}

impl<A: Allocator + Copy> Tallies<A> {
    /// What is told of no play.
    pub fn new(alloc: A) -> Tallies<A>
        ensures { IsCounted (λ v. v.items) [] result.told result.unfinished }
    {
        Tallies {
            told: BTreeMap::new(alloc),
            unfinished: 0,
        }
    }

    /// Counts a finished play with this outcome.
    ///
    /// # Errors
    ///
    /// Memory was refused.
    pub fn add(&mut self, outcome: Vec<ToldAnswer, A>, glance: Glance) -> Result<(), AllocError>
        requires { HasRoom (λ v. v.items) self.old.told }
        ensures { OnOk result
            ((plays : List Seen) → IsCounted (λ v. v.items) plays self.old.told self.old.unfinished
            → IsCounted (λ v. v.items) (plays ++ finished_play outcome.items glance ∷ []) self.new.told
            self.new.unfinished) }
    {
        let tally = next(&self.told, &outcome, glance);
        self.told.insert(outcome, tally)?;
        Ok(())
    }

    /// Counts a play that is not finished.
    pub fn add_unfinished(&mut self)
        requires { self.old.unfinished < u32.MAX }
        ensures { (plays : List Seen) (s : Seen) → s.is_finished ≡ false
            → IsCounted (λ v. v.items) plays self.old.told self.old.unfinished
            → IsCounted (λ v. v.items) (plays ++ s ∷ []) self.new.told self.new.unfinished }
    {
        self.unfinished += 1;
    }
}
