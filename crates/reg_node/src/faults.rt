//! Why a node refuses what it is asked.
use reg_process::ProcessFault;
use thiserror::Error;

/// Why a node makes no step: of those that apply, the first in this order.
#[derive(Clone, Copy, Debug, PartialEq, Eq, Error)]
pub enum NodeFault {
    /// The log has as many entries as a record may have. Nothing has changed.
    #[error("log full")]
    Full,
    /// There was no memory for what the node holds back. Nothing has changed.
    #[error("no room")]
    NoRoom,
    /// The process refuses the step. It has stopped for good, or nothing has changed.
    #[error("{fault}")]
    Refused { fault: ProcessFault },
}

/// Entries that the node has not logged can't be durable.
#[derive(Clone, Copy, Debug, PartialEq, Eq, Error)]
#[error("not logged")]
pub struct NotLogged;

/// Why no node is opened with a log: the first of these that applies. `OutOfMemory` may stand in place of the last two,
/// and where none applies.
#[derive(Clone, Copy, Debug, PartialEq, Eq, Error)]
pub enum OpenFault {
    /// The shape doesn't have the process.
    #[error("no process")]
    NoProcess,
    /// There are more than `limits::MOST_EVENTS` entries.
    #[error("log too long")]
    TooLong,
    /// The entry at this place, from 0, is the first that is no step of the process, or none with its reply.
    #[error("no step {place}")]
    NoStep { place: u64 },
    /// There was no memory.
    #[error("out of memory")]
    OutOfMemory,
}

/// Why a node doesn't hear what another process says: the first of these that applies.
#[derive(Clone, Copy, Debug, PartialEq, Eq, Error)]
pub enum HelloFault {
    /// A process accepted more bodies than were ever queued for it, so the log was lost. The node has stopped for good.
    #[error("log lost")]
    LogLost,
    /// There is no other process of this number. Nothing has changed.
    #[error("no process")]
    NoPeer,
}

/// Why a node that meets others makes no step: the first of these that applies.
#[derive(Clone, Copy, Debug, PartialEq, Eq, Error)]
pub enum MeetingFault {
    /// The log was lost, and the node has stopped for good.
    #[error("log lost")]
    LogLost,
    /// The operation would be cast, and some other process was not heard yet. Nothing has changed.
    #[error("unheard")]
    Unheard,
    /// As the node says.
    #[error("{fault}")]
    OfNode { fault: NodeFault },
}

/// Why a node that spells its log writes nothing: the first of these that applies.
#[derive(Clone, Copy, Debug, PartialEq, Eq, Error)]
pub enum LoggedFault {
    /// It has stopped for good. Nothing has changed.
    #[error("stopped")]
    Stopped,
    /// There was no memory for the text of an entry, or a register without a name. The step was made and is in no log,
    /// so the node has stopped for good, and what went out of the step is never handed out.
    #[error("unspelled")]
    Unspelled,
    /// As the node says.
    #[error("{fault}")]
    OfMeeting { fault: MeetingFault },
}
