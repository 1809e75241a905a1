//! What a node refuses, and why no log is read or opened, as numbers.
ghost use Rattle.std.specs.Prelude.{◌≡◌, ◌<◌};
ghost use Rattle.reg_c.specs.NodeCodes.{hello_code, log_code, log_place, logged_code, meeting_code, node_code};
ghost use Rattle.reg_c.specs.NodeCodes.{open_code, open_place};

use crate::events::code_of_refusal;
use reg_node::{HelloFault, LogFault, LoggedFault, MeetingFault, NodeFault, OpenFault};
use reg_process::ProcessFault;

/// The log was lost: another process accepted more than was ever queued for it.
const LOG_LOST: u32 = 66;
/// The log has as many entries as a record may have.
const LOG_FULL: u32 = 68;
/// Entries that were not logged can't be durable.
pub(crate) const NOT_LOGGED: u32 = 70;
/// Nothing is due.
pub(crate) const NOTHING_DUE: u32 = 71;
/// These words are no names of registers.
pub(crate) const BAD_NAMES: u32 = 76;
/// The number of the chapter is too great for a message.
pub(crate) const NO_CHAPTER: u32 = 84;
/// These bytes are no greeting.
pub(crate) const NO_GREETING: u32 = 85;

/// Why a log is refused: a number, and the line or the entry that the fault names, else 0.
#[derive(Clone, Copy)]
pub struct LogRefusal {
    pub code: u32,
    pub place: u64,
}

fn code_of_node(fault: NodeFault) -> u32
    ensures { result ≡ node_code fault }
{
    match fault {
        NodeFault::Full => LOG_FULL,
        NodeFault::NoRoom => 69,
        NodeFault::Refused { fault } => code_of_refusal(fault),
    }
}

fn code_of_meeting(fault: MeetingFault) -> u32
    ensures { result ≡ meeting_code fault }
{
    match fault {
        MeetingFault::LogLost => LOG_LOST,
        MeetingFault::Unheard => 67,
        MeetingFault::OfNode { fault } => code_of_node(fault),
    }
}

/// Why a node writes nothing: as a process tells it, if the process refuses the step.
pub(crate) fn code_of_logged(fault: LoggedFault) -> u32
    ensures { result ≡ logged_code fault }
{
    match fault {
        LoggedFault::Stopped => 64,
        LoggedFault::Unspelled => 65,
        LoggedFault::OfMeeting { fault } => code_of_meeting(fault),
    }
}

/// Why a node doesn't hear another process.
pub(crate) fn code_of_hello(fault: HelloFault) -> u32
    ensures { result ≡ hello_code fault }
{
    match fault {
        HelloFault::LogLost => LOG_LOST,
        HelloFault::NoPeer => code_of_refusal(ProcessFault::NoProcess),
    }
}

/// Why bytes are read as no log.
pub(crate) fn refusal_of_log(fault: LogFault) -> LogRefusal
    ensures told { (result.code ≡ log_code fault) × (result.place ≡ log_place fault) }
    ensures refused { 0 < result.code }
{
    let (code, place) = match fault {
        LogFault::Line { line, why: _ } => (72, line),
        LogFault::NoProcess => (code_of_refusal(ProcessFault::NoProcess), 0),
        LogFault::Foreign { place } => (75, place),
        LogFault::Damaged { place } => (73, place),
        LogFault::OutOfMemory => (code_of_refusal(ProcessFault::OutOfMemory), 0),
    };
    LogRefusal { code, place }
}

/// Why no node is opened with a log.
pub(crate) fn refusal_of_opening(fault: OpenFault) -> LogRefusal
    ensures told { (result.code ≡ open_code fault) × (result.place ≡ open_place fault) }
    ensures refused { 0 < result.code }
{
    let (code, place) = match fault {
        OpenFault::NoProcess => (code_of_refusal(ProcessFault::NoProcess), 0),
        OpenFault::TooLong => (LOG_FULL, 0),
        OpenFault::NoStep { place } => (74, place),
        OpenFault::OutOfMemory => (code_of_refusal(ProcessFault::OutOfMemory), 0),
    };
    LogRefusal { code, place }
}
