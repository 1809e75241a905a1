//! How an operation starts.

/// What a process does when an operation is called.
#[derive(Clone, Copy, Debug, PartialEq, Eq)]
pub enum Start {
    /// Broadcasts it; it runs until its cast is delivered here.
    Cast,
    /// Broadcasts it and answers Done at once; it doesn't run on.
    CastAndAnswer,
    /// Answers from the copy at once.
    Look,
    /// Runs until every own cast is delivered here, and then answers from the copy.
    Hold,
}
