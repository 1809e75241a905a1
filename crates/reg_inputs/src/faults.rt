//! Why a workload is refused.
use crate::keys::Key;
use std::fmt;
use thiserror::Error;

/// Why a workload is refused: the first fault of its document. Unknown keys are judged first, then each key in the
/// order of `Key`, and the operations last. `OutOfMemory` may stand in place of any other, and where none applies.
#[derive(Clone, Copy, Debug, PartialEq, Eq, Error)]
pub enum WorkloadFault {
    /// The text is no TOML document.
    Toml,
    /// There is a key that no workload has.
    UnknownKey,
    /// A key that each workload has is not there.
    Missing { key: Key },
    /// The value of a key, or an element of it, is of another kind.
    Kind { key: Key },
    /// The value of a key is of its kind, but not one that the key may have.
    Range { key: Key },
    /// This place, from 0, of the script of this process is the first that has no operation on a known register.
    Script { process: u8, place: u32 },
    /// There was no memory to keep what was read.
    OutOfMemory,
}

impl fmt::Display for WorkloadFault {
    ghost use Rattle.std.specs.Prelude.{Some};
    ghost use Rattle.reg_inputs.specs.FaultTexts.{workload_text};

    ghost output = { λ fault. Some (workload_text fault) };

    fn fmt<W: fmt::Write>(&self, f: &mut fmt::Formatter<W>) -> fmt::Result {
        match *self {
            WorkloadFault::Toml => f.write_str("toml"),
            WorkloadFault::UnknownKey => f.write_str("unknown key"),
            WorkloadFault::Missing { key } => write!(f, "missing {}", key.name()),
            WorkloadFault::Kind { key } => write!(f, "kind {}", key.name()),
            WorkloadFault::Range { key } => write!(f, "range {}", key.name()),
            WorkloadFault::Script { process, place } => write!(f, "script {process} {place}"),
            WorkloadFault::OutOfMemory => f.write_str("out of memory"),
        }
    }
}
