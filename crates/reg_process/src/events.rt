//! What can happen in a run.
use reg_base::Op;

/// One event of a run.
#[derive(Clone, Copy, Debug, PartialEq, Eq)]
pub enum Event {
    /// The process calls its next operation.
    Call { process: u8, op: Op },
    /// The process `to` takes the frame at the place `number`, from 0, of all the frames ever put for it by `from`.
    Take { from: u8, to: u8, number: u32 },
    /// The process puts unacknowledged data frames again: on each link the first `limits::MOST_RESENT`.
    Tick { process: u8 },
}
