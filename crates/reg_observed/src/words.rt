//! Words under numbers: each has the place at which it was first told of.
ghost use Rattle.std.specs.Prelude.{◌≡◌, ℕ, length, slice_get, IfOk, IfErr, OnOk, Some, option_copied, string_bytes};
ghost use Rattle.reg_observed.specs.Heard.{AreDistinct, Extends};

use crate::faults::ReadFault;
use indexmap::IndexSet;
use std::alloc::Global;
use std::marker::Model;

/// Words, by number from 0. No two are the same.
#[derive(Drop)]
pub struct Words {
    set: IndexSet<String>,
}

impl Model for Words {
    ghost use Rattle.std.specs.Prelude.{List, ℕ, map, string_bytes};
    ghost use Rattle.std.specs.String.{string_eq};
    ghost use Rattle.indexmap.specs.IndexSet.{IsUnique};

    ghost Value = { List (List ℕ) };

    ghost view = { λ w. map string_bytes w.set.keys };

    ghost invariant = { λ w. IsUnique string_eq w.set };
}

impl Words {
    /// No words.
    pub(crate) fn new(global: Global) -> Words
        ensures { length result ≡ 0 }
    {
        Words {
            set: IndexSet::new(global),
        }
    }

    /// How many words there are, no two of which are the same.
    pub fn count_distinct(&self) -> usize
        ensures value { result ≡ length self.now }
        ensures distinct { AreDistinct self.now }
    {
        self.set.len()
    }

    /// How many words there are.
    pub fn count(&self) -> usize
        ensures { result ≡ length self.now }
    {
        self.set.len()
    }

    /// The word of this number, None past the last.
    pub fn word(&self, number: u32) -> Option<&str>
        ensures { option_copied result ≡ slice_get self.now number }
    {
        Some(self.set.get_index(number as usize)?.as_str())
    }

    /// The number of the word, which is added where it is a new one.
    pub(crate) fn number(&mut self, word: String) -> Result<u32, ReadFault>
        ensures here { IfOk result (λ n. slice_get self.new n ≡ Some (string_bytes word)) }
        ensures kept { OnOk result (Extends self.old self.new) }
        ensures why { IfErr result (λ f. f ≡ ReadFault.OutOfMemory) }
    {
        let (place, _) = self.set.insert_full(word)?;
        if place > u32::MAX as usize {
            return Err(ReadFault::OutOfMemory);
        }
        Ok(place as u32)
    }
}
