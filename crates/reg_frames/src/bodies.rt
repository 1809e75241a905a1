//! Bodies and frames.
use reg_base::Op;

/// What one process tells another. Its time is that of the sender's clock when it was made.
#[derive(Clone, Copy, Debug, PartialEq, Eq)]
pub enum Body {
    /// A broadcast operation. The stamp of the cast is this time with the sender.
    Cast { time: u64, op: Op },
    /// An acknowledgement of a cast.
    Ack { time: u64 },
}

/// What is put on the wire from one process to another.
#[derive(Clone, Copy, Debug, PartialEq, Eq)]
pub enum Frame {
    /// A data frame: a body under its number on this link, from 0.
    Numbered { number: u64, body: Body },
    /// How many data frames the sender has accepted from the receiver.
    Got { count: u64 },
}
