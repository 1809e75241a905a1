//! What is kept of a frame, in one word.
ghost use Rattle.std.specs.Prelude.{◌≡◌, ◌+◌, ◌≤◌};
ghost use Rattle.reg_base.specs.declared.limits.TheConstants.{MOST_RESENT};
ghost use Rattle.reg_world.specs.Words.{HasRoom, data_slots};

use crate::strips::Item;
use reg_base::limits::MOST_RESENT;
use std::marker::Model;

/// What is kept of a frame that a process put.
#[derive(Clone, Copy, Debug)]
pub(crate) enum Slot {
    /// The data frame of this number, with the body that the process keeps under it.
    Data { number: u32 },
    /// This count of accepted frames.
    Count { count: u32 },
    /// The frame at this place of the list of others.
    Other { place: u32 },
}

/// Words from here on are counts, and those below are numbers.
pub(crate) const FIRST_COUNT: u32 = 0x8000_0000;

/// Words from here on are places.
pub(crate) const FIRST_OTHER: u32 = 0xc000_0000;

/// How many counts a word can tell, and how many places.
pub(crate) const MOST_SLOTS: u32 = 0x4000_0000;

/// A slot in 32 bits.
#[derive(Clone, Copy)]
pub(crate) struct Word {
    bits: u32,
}

impl Model for Word {
    ghost use Rattle.std.proofs.Common.{ap};
    ghost use Rattle.reg_world.specs.declared.words.Slot.{Slot};
    ghost use Rattle.reg_world.specs.Words.{slot_of, bits_of, bits_again};

    ghost Value = { Slot };

    ghost view = { λ w. slot_of w.bits };

    ghost inverse = { λ slot. record { bits = bits_of slot } };

    ghost inverse_ok = { λ w h. ap (λ b. record { bits = b }) (bits_again w.bits) };
}

impl Item for Word {
    // (in line: it is a test, and runs for each frame put)
    #[inline(always)]
    fn is(&self, other: &Word) -> bool {
        self.bits == other.bits
    }
}

impl Word {
    /// The word for a slot.
    // (in line: it is a test or two, and runs for each frame put or taken)
    #[inline(always)]
    pub(crate) fn pack(slot: Slot) -> Word
        requires { HasRoom slot }
        ensures { result ≡ slot }
    {
        match slot {
            Slot::Data { number } => Word { bits: number },
            Slot::Count { count } => Word {
                bits: FIRST_COUNT + count,
            },
            Slot::Other { place } => Word {
                bits: FIRST_OTHER + place,
            },
        }
    }

    /// The slot that the word stands for.
    // (in line: it is a test or two, and runs for each frame put or taken)
    #[inline(always)]
    pub(crate) fn unpack(&self) -> Slot
        ensures { result ≡ self.now }
    {
        let bits = self.bits;
        if bits < FIRST_COUNT {
            return Slot::Data { number: bits };
        }
        if bits < FIRST_OTHER {
            return Slot::Count {
                count: bits - FIRST_COUNT,
            };
        }
        Slot::Other {
            place: bits - FIRST_OTHER,
        }
    }
}

/// How many words `numbers_from` gives: as many as a tick puts frames for a process.
const ROW: usize = MOST_RESENT as usize;

/// The words of the data frames of `MOST_RESENT` numbers, from `first` on.
#[inline(always)]
pub(crate) fn numbers_from(first: u32) -> [Word; ROW]
    requires { first + MOST_RESENT ≤ FIRST_COUNT }
    ensures { result ≡ data_slots first MOST_RESENT }
{
    let mut words = [Word { bits: 0 }; ROW];
    for place in 0..ROW {
        words[place] = Word {
            bits: first + place as u32,
        };
    }
    words
}
