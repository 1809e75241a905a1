//! Why nothing is shown.

use reg_commands::{Fault, Refusal};
use reg_outcomes::{InterleavingFault, TurnsFault};
use reg_text::{Unwritten, write_bytes};
use std::alloc::AllocError;
use std::io::Write;

/// Why nothing is shown.
#[derive(Clone, Copy, Debug)]
pub enum ShowFault {
    /// The input is refused, the output failed, or there was no memory.
    Command { fault: Fault },
    /// The run has more events than a drawing shows, or than data and a page tell.
    TooManyToDraw,
    /// A run has no room for as many more events as rest may take.
    TooManyToRest,
    /// The play has more events up to its last answer than are shortened.
    TooManyToShorten,
    /// Some number of operations, one after another, leads to more stages than the most.
    TooManyStages,
    /// There are fewer outcomes.
    NoSuchOutcome,
    /// A run has no room to call all operations one after another, and to come to rest after each.
    TooManyEvents,
}

impl From<AllocError> for ShowFault {
    ghost use Rattle.std.specs.Prelude.{◌≡◌};
    ghost use Rattle.reg_commands.specs.declared.faults.Fault.TheVariants.{OutOfMemory};
    ghost use Rattle.reg_show.specs.declared.faults.ShowFault.TheVariants.{Command};

    ghost from_gives = { λ _ told. told ≡ Command OutOfMemory };

    fn from(_error: AllocError) -> ShowFault {
        Self::Command {
            fault: Fault::OutOfMemory,
        }
    }
}

impl From<Fault> for ShowFault {
    ghost use Rattle.std.specs.Prelude.{◌≡◌};
    ghost use Rattle.reg_show.specs.declared.faults.ShowFault.TheVariants.{Command};

    ghost from_gives = { λ fault told. told ≡ Command fault };

    fn from(fault: Fault) -> ShowFault {
        Self::Command { fault }
    }
}

impl From<InterleavingFault> for ShowFault {
    ghost use Rattle.std.specs.Prelude.{◌≡◌};
    ghost use Rattle.reg_show.specs.Faults.{fault_of_search};

    ghost from_gives = { λ fault told. told ≡ fault_of_search fault };

    fn from(fault: InterleavingFault) -> ShowFault {
        match fault {
            InterleavingFault::TooManyStages => Self::TooManyStages,
            InterleavingFault::OutOfMemory => Self::Command {
                fault: Fault::OutOfMemory,
            },
        }
    }
}

impl From<TurnsFault> for ShowFault {
    ghost use Rattle.std.specs.Prelude.{◌≡◌};
    ghost use Rattle.reg_show.specs.Faults.{fault_of_turns};

    ghost from_gives = { λ fault told. told ≡ fault_of_turns fault };

    fn from(fault: TurnsFault) -> ShowFault {
        match fault {
            TurnsFault::TooManyEvents => Self::TooManyEvents,
            TurnsFault::OutOfMemory => Self::Command {
                fault: Fault::OutOfMemory,
            },
        }
    }
}

impl Refusal for ShowFault {
    ghost use Rattle.reg_show.specs.Faults.{show_line};
    ghost use Rattle.reg_show.specs.declared.faults.ShowFault.TheVariants.{Command};

    ghost line = { show_line };

    ghost of_fault = { λ fault. Command fault };

    fn write_line<W: Write>(self, errors: &mut W) -> Result<(), Unwritten> {
        match self {
            ShowFault::Command { fault } => fault.write_line(errors),
            ShowFault::TooManyToDraw => write_bytes(
                errors,
                b"too many events to draw: a page has room for 2000, and trace for all; schedule --short and --fair make fewer\n",
            ),
            ShowFault::TooManyToRest => write_bytes(errors, b"too many events to rest\n"),
            ShowFault::TooManyToShorten => write_bytes(errors, b"too many events to shorten\n"),
            ShowFault::TooManyStages => write_bytes(errors, b"too many stages\n"),
            ShowFault::NoSuchOutcome => write_bytes(errors, b"no such outcome\n"),
            ShowFault::TooManyEvents => write_bytes(errors, b"too many events\n"),
        }
    }

    ghost is_told = { λ _ _ same. same };

    ghost tells_output = { λ _ same. cc };
}
