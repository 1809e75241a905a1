//! What a history tells: events of calls, in the order of its lines.
use reg_judge::Act;

/// What an event tells of a call.
#[derive(Clone, Copy, Debug, PartialEq, Eq)]
pub enum Moment {
    /// The call was made.
    Invoke,
    /// It was answered.
    Ok,
    /// It was answered, and did not happen.
    Fail,
    /// A compare-and-swap was answered that its register had another value than the expected one.
    Unequal,
    /// Nothing is known: it may have taken effect, may do so later, or never.
    Info,
}

/// An event of a call. Processes, keys and values are numbered, each in the order in which they are first told of.
#[derive(Clone, Copy, Debug, PartialEq, Eq)]
pub struct Event {
    /// The line, from 1, that tells of it.
    pub line: u32,
    pub process: u32,
    pub moment: Moment,
    pub act: Act,
    pub key: u32,
    /// What a compare-and-swap expects; of other calls it isn't looked at.
    pub expected: u32,
    /// What is written, or what was answered.
    pub value: u32,
}
