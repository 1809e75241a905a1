//! The words that a seed gives.
ghost use Rattle.std.specs.Prelude.{◌≡◌};
ghost use Rattle.rand_core.specs.Pcg32Seed.{pcg32_seed};
ghost use Rattle.rand_pcg.specs.Lcg.{Lcg};
ghost use Rattle.rand_pcg.specs.Pcg.{pcg32, pcg32_of_seed};

use rand_core::SeedableRng;
use rand_core::utils::NextWord;
use rand_pcg::Lcg64Xsh32;
use reg_base::Words;
use std::marker::Model;

/// The words of the generator PCG32 (O'Neill 2014), from a seed.
#[derive(Drop)]
pub struct SeedWords {
    generator: Lcg64Xsh32,
}

impl Model for SeedWords {
    ghost Value = { Lcg };

    ghost view = { λ s. s.generator };
}

impl SeedWords {
    /// The generator that the seed gives.
    pub fn new(seed: u64) -> SeedWords
        ensures { result ≡ pcg32_of_seed (pcg32_seed 16 seed) }
    {
        SeedWords {
            generator: Lcg64Xsh32::seed_from_u64(seed),
        }
    }
}

impl Words for SeedWords {
    ghost next_word = { pcg32 };

    fn word(&mut self) -> u32 {
        self.generator.next_word()
    }
}
