//! Laws of what is found out of a history. Each is a function that does nothing: its contract is the law.
ghost use Rattle.std.specs.Prelude.{◌≡◌, ◌<◌, ◌↔◌, ℕ, true, List, Some, is_some, slice_get};
ghost use Rattle.reg_observed.specs.Verdicts.{AreJudged};
ghost use Rattle.reg_judge.specs.declared.rulings.keys.Ruling.{Ruling};
ghost use Rattle.reg_judge.specs.declared.rulings.keys.Ruling.TheVariants.{Linearizable};
ghost use Rattle.reg_judge.specs.declared.rulings.rows.Row.{Row};

use crate::judging::Verdict;
use std::alloc::Allocator;

/// A point order is found exactly where what is found out of each key is that it is linearizable, if there is a key.
pub fn keys_agree_with_the_whole<A: Allocator + Copy>(verdict: &Verdict<A>)
    ensures { (processes keys : ℕ) (rows : List Row) → 0 < keys → AreJudged processes keys rows verdict.now
        → (is_some verdict.now.points ≡ true)
        ↔ ((key : ℕ) (ruling : Ruling) → slice_get verdict.now.keys.items key ≡ Some ruling → ruling ≡ Linearizable) }
{}
