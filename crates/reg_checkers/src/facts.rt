//! What a history says of one operation.
use reg_base::{Answer, Op};

/// An answer, and the event that gave it.
#[derive(Clone, Copy)]
pub struct Given {
    /// The number of the event.
    pub at: u32,
    pub answer: Answer,
}

/// What a history says of one operation.
#[derive(Clone, Copy)]
pub struct Fact {
    pub op: Op,
    /// The number of the event that called it.
    pub called: u32,
    /// None while it runs.
    pub answered: Option<Given>,
    /// Whether the operation is marked as standing in an order.
    pub stands: bool,
}
