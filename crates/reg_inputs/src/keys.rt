//! The keys of a workload.
ghost use Rattle.std.specs.Prelude.{◌≡◌};
ghost use Rattle.reg_inputs.specs.Keys.{key_name, is_key as is_key_name};

/// A key of a workload. Keys are judged in this order.
#[derive(Clone, Copy, Debug, PartialEq, Eq)]
pub enum Key {
    /// The name of a front end.
    Front,
    /// The names of the registers.
    Registers,
    /// The operations of each process.
    Scripts,
    /// The seed of a seeded play.
    Seed,
    /// The odds, of a hundred, that a frame is lost.
    Loss,
    /// The odds, of a hundred, that a frame that is taken can be taken again.
    Repeat,
    /// The most events of a play.
    Budget,
}

impl Key {
    /// The key as it is written.
    pub fn name(self) -> &'static str
        ensures { result.now ≡ key_name self }
    {
        match self {
            Key::Front => "front",
            Key::Registers => "registers",
            Key::Scripts => "scripts",
            Key::Seed => "seed",
            Key::Loss => "loss",
            Key::Repeat => "repeat",
            Key::Budget => "budget",
        }
    }
}

/// Whether this is the name of a key.
pub(crate) fn is_key(name: &str) -> bool
    ensures { result ≡ is_key_name name.now }
{
    name == "front"
        || name == "registers"
        || name == "scripts"
        || name == "seed"
        || name == "loss"
        || name == "repeat"
        || name == "budget"
}
