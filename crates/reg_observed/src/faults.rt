//! Why a history is refused.
use std::alloc::{AllocError, AllocFailed};
use thiserror::Error;

/// Why a line is refused. Its text says what was wanted.
#[derive(Clone, Copy, Debug, PartialEq, Eq, Error)]
pub enum Why {
    /// The line is no JSON.
    #[error("wanted a JSON object")]
    Form,
    /// There is no `process`, or it is neither an integer of 64 bits nor a string.
    #[error("wanted process, an integer or a string")]
    BadProcess,
    /// There is no `type`, or it is none of the four.
    #[error("wanted type, one of invoke, ok, fail and info")]
    BadType,
    /// There is no `f`, or it is not the name of an operation.
    #[error("wanted f, one of read, write, swap and cas")]
    BadFunction,
    /// The key is neither an integer of 64 bits nor a string nor null.
    #[error("wanted key, an integer, a string or null")]
    BadKey,
    /// The value is neither an integer of 64 bits nor a string nor null.
    #[error("wanted value, an integer, a string or null")]
    BadValue,
    /// The value of a compare-and-swap is not two values.
    #[error("wanted value, the expected value and the new one")]
    BadPair,
    /// In EDN, there is something else than an entry, or an entry is no map of keywords and values.
    #[error("wanted an entry, a map of EDN whose keys are keywords")]
    BadEntry,
    /// In EDN, a bracket closes none, or one of another kind.
    #[error("wanted brackets in pairs")]
    BadBracket,
    /// In EDN, more than `MOST_OPEN` brackets of an entry are open at once.
    #[error("wanted at most 60 brackets within one another")]
    TooDeep,
    /// In EDN, `#` or a backslash stands where none is read.
    #[error("wanted a form of EDN, and no #_")]
    BadForm,
    /// In EDN, the text ends within a word, a string, a character, an entry or the vector of all entries.
    #[error("wanted the end of what is begun")]
    Unfinished,
    /// The first value of registers is neither an integer of 64 bits nor a string nor null.
    #[error("wanted an integer, a string or null, as JSON has it")]
    BadFirst,
    /// A write, a swap or a compare-and-swap is called with no value.
    #[error("wanted value, what is written")]
    NoValue,
    /// A process calls while it has a call under way.
    #[error("the process has a call under way")]
    Busy,
    /// A process is told of an end while it has no call under way.
    #[error("the process has no call under way")]
    Idle,
    /// The end is of another operation, or at another key, than the call that its process has under way.
    #[error("the process has another call under way")]
    Other,
}

/// Why nothing is told of a line.
#[derive(Clone, Copy, Debug, PartialEq, Eq, Drop)]
pub(crate) enum Untold {
    /// The line is refused.
    Line(Why),
    /// There was no memory.
    OutOfMemory,
}

impl From<Why> for Untold {
    ghost use Rattle.std.specs.Prelude.{◌≡◌};
    ghost use Rattle.reg_observed.specs.declared.faults.Untold.TheVariants.{Line};

    ghost from_gives = { λ why e. e ≡ Line why };

    fn from(why: Why) -> Untold {
        Untold::Line(why)
    }
}

impl From<AllocError> for Untold {
    ghost use Rattle.std.specs.Prelude.{◌≡◌};
    ghost use Rattle.reg_observed.specs.declared.faults.Untold.TheVariants.{OutOfMemory};

    ghost from_gives = { λ _ e. e ≡ OutOfMemory };

    fn from(_error: AllocError) -> Untold {
        Untold::OutOfMemory
    }
}

impl<T: Drop> From<AllocFailed<T>> for Untold {
    ghost use Rattle.std.specs.Prelude.{◌≡◌};
    ghost use Rattle.reg_observed.specs.declared.faults.Untold.TheVariants.{OutOfMemory};

    ghost from_gives = { λ _ e. e ≡ OutOfMemory };

    fn from(_error: AllocFailed<T>) -> Untold {
        Untold::OutOfMemory
    }
}

/// Why a text tells no history.
#[derive(Clone, Copy, Debug, PartialEq, Eq, Error)]
pub enum ReadFault {
    /// This line, counted from 1, is the first that is refused.
    #[error("line {line}: {why}")]
    Line { line: u32, why: Why },
    /// There are more lines, or entries of EDN, than `limits::MOST_EVENTS`.
    #[error("more than 1048576 lines or entries")]
    TooLong,
    /// There was no memory for it.
    #[error("out of memory")]
    OutOfMemory,
}

impl From<AllocError> for ReadFault {
    ghost use Rattle.std.specs.Prelude.{◌≡◌};
    ghost use Rattle.reg_observed.specs.declared.faults.ReadFault.TheVariants.{OutOfMemory};

    ghost from_gives = { λ _ e. e ≡ OutOfMemory };

    fn from(_error: AllocError) -> ReadFault {
        ReadFault::OutOfMemory
    }
}

impl<T: Drop> From<AllocFailed<T>> for ReadFault {
    ghost use Rattle.std.specs.Prelude.{◌≡◌};
    ghost use Rattle.reg_observed.specs.declared.faults.ReadFault.TheVariants.{OutOfMemory};

    ghost from_gives = { λ _ e. e ≡ OutOfMemory };

    fn from(_error: AllocFailed<T>) -> ReadFault {
        ReadFault::OutOfMemory
    }
}

/// Why a history is not judged.
#[derive(Clone, Copy, Debug, PartialEq, Eq, Error)]
pub enum JudgeFault {
    /// The text tells no history, or its processes are not in turn.
    #[error("{fault}")]
    Read { fault: ReadFault },
    /// There are more keys than `limits::MOST_REGISTERS`.
    #[error("{count} keys, at most 4096 are judged")]
    Keys { count: usize },
    /// The call on this line finds no place: 64 calls are under way, or places had all the calls that they can.
    #[error("line {line}: more than 64 calls under way")]
    Full { line: u32 },
    /// What this line tells may not come next.
    #[error("line {line}: out of place")]
    OutOfPlace { line: u32 },
    /// At the event of this line the search for a point order grew too wide.
    #[error("line {line}: too many stages in the search for a point order")]
    TooWide { line: u32 },
    /// The first value that was asked for is none.
    #[error("--first: {why}")]
    First { why: Why },
    /// A first value was asked for, and the history is a report, whose registers begin with 0.
    #[error("--first is for lines of JSON and EDN: the registers of a report begin with 0")]
    FirstOfReport,
    /// A history with its point order is beyond the limits of a report.
    #[error("beyond the limits of a report")]
    NoReport,
    /// The point order that was found did not pass its check.
    #[error("the point order that was found is none")]
    Unchecked,
    /// There was no memory for it.
    #[error("out of memory")]
    OutOfMemory,
}

impl From<ReadFault> for JudgeFault {
    ghost use Rattle.std.specs.Prelude.{◌≡◌};
    ghost use Rattle.reg_observed.specs.declared.faults.JudgeFault.TheVariants.{Read};

    ghost from_gives = { λ fault told. told ≡ Read fault };

    fn from(fault: ReadFault) -> JudgeFault {
        JudgeFault::Read { fault }
    }
}

impl From<AllocError> for JudgeFault {
    ghost use Rattle.std.specs.Prelude.{◌≡◌};
    ghost use Rattle.reg_observed.specs.declared.faults.JudgeFault.TheVariants.{OutOfMemory};

    ghost from_gives = { λ _ told. told ≡ OutOfMemory };

    fn from(_error: AllocError) -> JudgeFault {
        JudgeFault::OutOfMemory
    }
}

impl<T: Drop> From<AllocFailed<T>> for JudgeFault {
    ghost use Rattle.std.specs.Prelude.{◌≡◌};
    ghost use Rattle.reg_observed.specs.declared.faults.JudgeFault.TheVariants.{OutOfMemory};

    ghost from_gives = { λ _ told. told ≡ OutOfMemory };

    fn from(_error: AllocFailed<T>) -> JudgeFault {
        JudgeFault::OutOfMemory
    }
}
