//! Calls and answers, each of a process at a register.
use reg_base::Answer;

/// What a call is for.
#[derive(Clone, Copy, Debug, PartialEq, Eq)]
pub enum Act {
    /// It asks for the register's value.
    Read,
    /// It replaces the register's value.
    Write,
    /// It replaces the register's value, and asks for the old one.
    Swap,
    /// It replaces the register's value where that is the expected one, and asks whether it was.
    CompareAndSwap,
}

/// What a row has: a call, with the value that is expected and the one that is written, or an answer.
#[derive(Clone, Copy, Debug, PartialEq, Eq)]
pub enum Step {
    Call { act: Act, expected: u64, value: u64 },
    Answer(Answer),
}

/// A call or an answer of a process at a register, its key, with the number of its event.
#[derive(Clone, Copy, Debug, PartialEq, Eq)]
pub struct Row {
    pub at: u32,
    pub process: u32,
    pub key: u32,
    pub step: Step,
}
