//! Why an event is refused.
ghost use Rattle.std.specs.Prelude.{◌≡◌};
ghost use Rattle.reg_world.specs.FaultTexts.{refusal_text};

use std::fmt;
use thiserror::Error;

/// Why an event is refused: the first of these that applies.
#[derive(Clone, Copy, Debug, PartialEq, Eq, Error)]
pub enum WorldFault {
    /// The world stopped earlier: it was out of memory.
    Failed,
    /// The world has all the events that it may have.
    TooManyEvents,
    /// There is no such process.
    NoProcess,
    /// The process runs an operation.
    Busy,
    /// There is no such register.
    NoRegister,
    /// The process called all the operations that it may call.
    TooManyOperations,
    /// There is no such frame. From a process to itself there is none.
    NoFrame,
    /// There was no memory: the world has stopped.
    OutOfMemory,
}

impl WorldFault {
    /// The words for the fault.
    pub fn words(self) -> &'static str
        ensures { result.now ≡ refusal_text self }
    {
        match self {
            WorldFault::Failed => "failed",
            WorldFault::TooManyEvents => "too many events",
            WorldFault::NoProcess => "no process",
            WorldFault::Busy => "busy",
            WorldFault::NoRegister => "no register",
            WorldFault::TooManyOperations => "too many operations",
            WorldFault::NoFrame => "no frame",
            WorldFault::OutOfMemory => "out of memory",
        }
    }
}

impl fmt::Display for WorldFault {
    ghost use Rattle.std.specs.Prelude.{Some};
    ghost use Rattle.reg_world.specs.FaultTexts.{refusal_text};

    ghost output = { λ fault. Some (refusal_text fault) };

    fn fmt<W: fmt::Write>(&self, f: &mut fmt::Formatter<W>) -> fmt::Result {
        f.write_str(self.words())
    }
}

/// Why a run of events ends early.
#[derive(Clone, Copy, Debug, PartialEq, Eq, Error)]
#[error("event {at}: {fault}")]
pub struct RunFault {
    /// The index of the first event that was refused, from 0. It is 0 too where memory was refused before any event.
    pub at: usize,
    /// Why that event was refused.
    pub fault: WorldFault,
}
