//! Sets of processes that were tried, as the bits of a number.
ghost use Rattle.std.specs.Prelude.{◌≡◌, ◌<◌, ◌≤◌, ◌≢◌, ◌↔◌, ℕ, IsTrue};
ghost use Rattle.std.specs.Int.{bit_at};

/// Whether the process is in the set.
pub(crate) fn has(set: u64, process: u8) -> bool
    requires { process < 64 }
    ensures { IsTrue result ↔ (bit_at set process ≡ 1) }
{
    (set >> process) & 1 == 1
}

/// The set with this process.
pub(crate) fn with(set: u64, process: u8) -> u64
    requires { process < 64 }
    ensures more { set ≤ result }
    ensures here { bit_at result process ≡ 1 }
    ensures others { (q : ℕ) → q ≢ process → bit_at result q ≡ bit_at set q }
{
    set | (1 << process)
}
