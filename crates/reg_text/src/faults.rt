//! Why a text is refused.
use thiserror::Error;

/// What is wrong with a line of a text. The form of a whole line is judged first, and then its fields from left to
/// right.
#[derive(Clone, Copy, Debug, PartialEq, Eq, Error)]
pub enum Why {
    /// The line is spelled otherwise than lines of its kind are.
    #[error("form")]
    Form,
    /// A number, or how many names there are, is beyond its limit.
    #[error("range")]
    Range,
    /// A name is misspelt, repeated or not known.
    #[error("name")]
    Name,
    /// The text ends before this line, or goes on after its last one.
    #[error("end")]
    End,
}

/// Why a text is refused.
#[derive(Clone, Copy, Debug, PartialEq, Eq, Error)]
pub enum TextFault {
    /// This line is the first that is wrong. Lines are counted from 1, and a text that ends too early is wrong at the
    /// line after its last one.
    #[error("line {line}: {why}")]
    Line { line: u64, why: Why },
    /// There was no memory to keep what was read.
    #[error("out of memory")]
    OutOfMemory,
}
