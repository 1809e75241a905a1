//! Why no outcomes are given.

use std::alloc::{AllocError, AllocFailed};
use thiserror::Error;

/// Why the outcomes of scripts are not given.
#[derive(Clone, Copy, Debug, PartialEq, Eq, Error)]
pub enum InterleavingFault {
    /// There are more stages than the limit: of some number of turns or of operations placed, or in all where that is
    /// limited.
    #[error("too many stages")]
    TooManyStages,
    /// Memory was refused.
    #[error("out of memory")]
    OutOfMemory,
}

impl From<AllocError> for InterleavingFault {
    ghost use Rattle.std.specs.Prelude.{◌≡◌};
    ghost use Rattle.reg_outcomes.specs.declared.faults.InterleavingFault.TheVariants.{OutOfMemory};

    ghost from_gives = { λ _ fault. fault ≡ OutOfMemory };

    fn from(_error: AllocError) -> InterleavingFault {
        Self::OutOfMemory
    }
}

impl<T: Drop> From<AllocFailed<T>> for InterleavingFault {
    ghost use Rattle.std.specs.Prelude.{◌≡◌};
    ghost use Rattle.reg_outcomes.specs.declared.faults.InterleavingFault.TheVariants.{OutOfMemory};

    ghost from_gives = { λ _ fault. fault ≡ OutOfMemory };

    fn from(_error: AllocFailed<T>) -> InterleavingFault {
        Self::OutOfMemory
    }
}
