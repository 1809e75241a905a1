//! The steps that a record has.
use reg_records::LogEntry;

/// A step that a process made, and the reply that it gave.
#[derive(Clone, Copy, Debug, PartialEq, Eq)]
pub struct Recorded {
    pub process: u8,
    pub entry: LogEntry,
}
