//! Why the threads' scripts give no report.
ghost use Rattle.std.specs.Prelude.{◌≡◌};
ghost use Rattle.reg_cli.specs.ThreadStops.{IsOfThreads};
ghost use Rattle.reg_cli.specs.Told.{stop_of_pass, stop_of_close, stop_of_run};

use reg_commands::Fault;
use reg_live::{CloseFault, LiveFault, RunStop};
use std::fmt;
use thiserror::Error;

/// Why the threads' scripts give no report. Its text is its line on standard error.
#[derive(Clone, Copy, Debug, PartialEq, Eq, Error)]
pub enum Stop {
    /// The input is refused, the output failed, or there was no memory.
    Command { fault: Fault },
    /// The station of a process has stopped, or no answer can come any more.
    Failed { process: u8 },
    /// A process calls an operation on a register that the cluster doesn't have.
    NoRegister { process: u8 },
    /// The journal hasn't come as far as a process asked.
    Behind { process: u8, length: u64 },
    /// The journal or a process has all that it may have.
    Full { process: u8 },
    /// From this place on, what the stations wrote down is no run.
    Unfaithful { place: u64 },
    /// The answers that a process was given aren't those of the run.
    Mismatch { process: u8 },
}

impl fmt::Display for Stop {
    ghost use Rattle.std.specs.Prelude.{Some};
    ghost use Rattle.reg_cli.specs.StopLines.{stop_text};

    ghost output = { λ stop. Some (stop_text stop) };

    fn fmt<W: fmt::Write>(&self, f: &mut fmt::Formatter<W>) -> fmt::Result {
        match *self {
            Stop::Command { fault } => write!(f, "{fault}"),
            Stop::Failed { process } => write!(f, "process {process}: failed"),
            Stop::NoRegister { process } => write!(f, "process {process}: no register"),
            Stop::Behind { process, length } => write!(f, "process {process}: behind {length}"),
            Stop::Full { process } => write!(f, "process {process}: full"),
            Stop::Unfaithful { place } => write!(f, "close: unfaithful {place}"),
            Stop::Mismatch { process } => write!(f, "close: mismatch {process}"),
        }
    }
}

impl From<Fault> for Stop {
    ghost use Rattle.std.specs.Prelude.{◌≡◌};
    ghost use Rattle.reg_cli.specs.declared.stops.Stop.TheVariants.{Command};

    ghost from_gives = { λ fault stop. stop ≡ Command fault };

    fn from(fault: Fault) -> Stop {
        Stop::Command { fault }
    }
}

/// The refusal of a process's pass.
fn refused(process: u8, fault: LiveFault) -> Stop
    ensures told { result ≡ stop_of_pass process fault }
    ensures kind { IsOfThreads result }
{
    match fault {
        LiveFault::Failed => Stop::Failed { process },
        LiveFault::NoRegister => Stop::NoRegister { process },
        LiveFault::Behind { length } => Stop::Behind { process, length },
        LiveFault::Full => Stop::Full { process },
        LiveFault::OutOfMemory => Stop::Command {
            fault: Fault::OutOfMemory,
        },
    }
}

/// The refusal of what the stations wrote down.
fn unclosed(fault: CloseFault) -> Stop
    ensures told { result ≡ stop_of_close fault }
    ensures kind { IsOfThreads result }
{
    match fault {
        CloseFault::Unfaithful { place } => Stop::Unfaithful { place },
        CloseFault::Mismatch { process } => Stop::Mismatch { process },
        CloseFault::OutOfMemory => Stop::Command {
            fault: Fault::OutOfMemory,
        },
    }
}

/// Why the threads gave no run.
pub(crate) fn stopped(stop: RunStop) -> Stop
    ensures told { result ≡ stop_of_run stop }
    ensures kind { IsOfThreads result }
{
    match stop {
        RunStop::Pass { process, fault } => refused(process, fault),
        RunStop::Close { fault } => unclosed(fault),
        RunStop::OutOfMemory => Stop::Command {
            fault: Fault::OutOfMemory,
        },
    }
}
