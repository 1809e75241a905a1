//! What an event puts for other processes, in short.
use reg_frames::Body;

/// A body under its number, which goes to all processes but this one, and the count that is owed to one of them.
#[derive(Clone, Copy, Debug, PartialEq, Eq)]
pub struct Sent {
    pub me: u8,
    pub number: u64,
    pub body: Body,
    /// The process that the count is owed to, and the count.
    pub got: Option<(u8, u64)>,
}

/// What an event that isn't a tick puts, in short. The frames follow from it: `Outcome` lists them, and this doesn't.
#[derive(Clone, Copy, Debug, PartialEq, Eq)]
pub enum Sends {
    /// Nothing.
    Nothing,
    /// The count of bodies that were accepted from a process, for that process.
    Count { to: u8, count: u64 },
    /// A body for all others of so many processes, after the count for the one that it is owed to.
    Broadcast { processes: u8, sent: Sent },
}
