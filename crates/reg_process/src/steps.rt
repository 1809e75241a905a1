//! What goes into one process in an event, and what it answers.
use reg_base::{Answer, Op};
use reg_frames::Frame;

/// The answer of an operation.
#[derive(Clone, Copy, Debug, PartialEq, Eq)]
pub struct Reply {
    pub answer: Answer,
    /// How many casts the process had delivered before the own cast at whose delivery the answer comes, or before the
    /// look at its copy, or before the call of a write that is answered at once.
    pub place: u64,
}

/// What one process does in one event.
#[derive(Clone, Copy, Debug, PartialEq, Eq)]
pub enum Step {
    /// It calls its next operation.
    Call { op: Op },
    /// It takes a frame that another process put for it.
    Take { from: u8, frame: Frame },
    /// It puts unacknowledged data frames again: on each link the first `limits::MOST_RESENT`.
    Tick,
}
