//! Why bytes are no frame, or a frame has no bytes.
use thiserror::Error;

/// Why bytes are no frame: the first of these that applies, except that Size comes before a Body or an Op whose byte is
/// missing. `decode` answers all but the last, and `encode` the last two alone.
#[derive(Clone, Copy, Debug, PartialEq, Eq, Error)]
pub enum FrameFault {
    /// There are fewer than 12 bytes.
    #[error("short")]
    Short,
    /// The length field isn't the number of bytes after it.
    #[error("length")]
    Length,
    /// The version is neither 1 nor 2.
    #[error("version")]
    Version,
    /// The frame is neither a data frame nor a count, or no data frame in version 2.
    #[error("kind")]
    Kind,
    /// The body is neither a cast nor an acknowledgement, or no cast in version 2.
    #[error("body")]
    Body,
    /// The operation is neither a read nor a write in version 1, or no swap in version 2.
    #[error("operation")]
    Op,
    /// There are more or fewer bytes than the form has.
    #[error("size")]
    Size,
    /// A number is not below `limits::FRAME_NUMBERS`, a count is above it, a time is not from 1 to `limits::LAST_TIME`,
    /// or a register is not below `limits::MOST_REGISTERS`.
    #[error("range")]
    Range,
    /// There was no memory for the bytes.
    #[error("out of memory")]
    OutOfMemory,
}
