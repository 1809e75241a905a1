//! Why a command gives no answer.
use reg_history::ReadWhy;
use reg_inputs::WorkloadFault;
use reg_world::{RunFault, WorldFault};
use std::alloc::AllocError;
use std::fmt;
use thiserror::Error;

/// Why a command gives no answer. Its text is its line on standard error.
#[derive(Clone, Copy, Debug, PartialEq, Eq, Error)]
pub enum Fault {
    /// A read of the input failed.
    Unread,
    /// The input has more bytes than `limits::LONGEST_INPUT`.
    TooLong,
    /// The input is not UTF-8.
    NotText,
    /// A write or a flush of the output failed.
    Output,
    /// The schedule or report is refused at this line, counted from 1.
    Line { line: u64, why: ReadWhy },
    /// The event at this place, from 0, is the first that is refused.
    Event { at: usize, fault: WorldFault },
    /// The document says no workload.
    Workload { fault: WorkloadFault },
    /// There was no memory for the answer.
    OutOfMemory,
}

impl fmt::Display for Fault {
    ghost use Rattle.std.specs.Prelude.{Some};
    ghost use Rattle.reg_commands.specs.FaultLines.{fault_text};

    ghost output = { λ fault. Some (fault_text fault) };

    fn fmt<W: fmt::Write>(&self, f: &mut fmt::Formatter<W>) -> fmt::Result {
        match *self {
            Fault::Unread => f.write_str("input: read"),
            Fault::TooLong => f.write_str("input: too long"),
            Fault::NotText => f.write_str("input: not text"),
            Fault::Output => f.write_str("output: write"),
            Fault::Line { line, why } => write!(f, "line {line}: {why}"),
            Fault::Event { at, fault } => write!(f, "event {at}: {fault}"),
            Fault::Workload { fault } => write!(f, "{fault}"),
            Fault::OutOfMemory => f.write_str("out of memory"),
        }
    }
}

impl From<AllocError> for Fault {
    ghost use Rattle.std.specs.Prelude.{◌≡◌};
    ghost use Rattle.reg_commands.specs.declared.faults.Fault.TheVariants.{OutOfMemory};

    ghost from_gives = { λ _ fault. fault ≡ OutOfMemory };

    fn from(_error: AllocError) -> Fault {
        Self::OutOfMemory
    }
}

impl From<RunFault> for Fault {
    ghost use Rattle.std.specs.Prelude.{◌≡◌};
    ghost use Rattle.reg_commands.specs.Replays.{fault_of_run};

    ghost from_gives = { λ run fault. fault ≡ fault_of_run run };

    fn from(run: RunFault) -> Fault {
        match run.fault {
            WorldFault::OutOfMemory => Fault::OutOfMemory,
            fault => Fault::Event { at: run.at, fault },
        }
    }
}
