//! Why words ask for nothing.
ghost use Rattle.std.specs.Prelude.{◌≡◌};
ghost use Rattle.clap.specs.Words.{kind_of};
ghost use Rattle.reg_cli.specs.declared.faults.WordsFault.TheVariants.{OutOfMemory};
ghost use Rattle.reg_cli.specs.Faults.{status_of, words_fault};

use clap::error::ErrorKind;
use std::alloc::AllocError;

/// Why the words ask for nothing.
#[derive(Clone, Copy, Debug, PartialEq, Eq)]
pub enum WordsFault {
    /// The words are no command line of the program.
    CommandLine,
    /// There was no memory to read them.
    OutOfMemory,
}

impl WordsFault {
    /// The exit status of a program that is told so.
    pub fn status(self) -> u8
        ensures { result ≡ status_of self }
    {
        match self {
            WordsFault::CommandLine => 2,
            WordsFault::OutOfMemory => 1,
        }
    }
}

impl From<AllocError> for WordsFault {
    ghost from_gives = { λ _ fault. fault ≡ OutOfMemory };

    fn from(_error: AllocError) -> WordsFault {
        WordsFault::OutOfMemory
    }
}

impl From<clap::Error> for WordsFault {
    ghost from_gives = { λ error fault. fault ≡ words_fault (kind_of error) };

    fn from(error: clap::Error) -> WordsFault {
        match error.kind() {
            ErrorKind::OutOfMemory => WordsFault::OutOfMemory,
            _ => WordsFault::CommandLine,
        }
    }
}
