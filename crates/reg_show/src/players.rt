//! Which play of a workload is made.
ghost use Rattle.std.specs.Prelude.{◌≡◌};
ghost use Rattle.reg_show.specs.Seeds.{is_fair as is_fair_player, seed_of};

/// Which play of a workload is made.
#[derive(Clone, Copy, Debug, PartialEq, Eq)]
pub enum Player {
    /// The fair one.
    Fair,
    /// The one whose choices the words of a seed make: of this one, or else of the workload's.
    Seeded { seed: Option<u64> },
}

impl Player {
    /// Whether it is the fair one.
    pub(crate) fn is_fair(self) -> bool
        ensures { result ≡ is_fair_player self }
    {
        match self {
            Player::Fair => true,
            Player::Seeded { .. } => false,
        }
    }

    /// The seed in place of the workload's.
    pub(crate) fn seed(self) -> Option<u64>
        ensures { result ≡ seed_of self }
    {
        match self {
            Player::Fair => None,
            Player::Seeded { seed } => seed,
        }
    }
}
