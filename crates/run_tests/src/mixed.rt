//! A front end of a user's own.
use reg_base::Op;
use reg_front::{FrontEnd, Start};

/// A front end that answers its writes at once, and casts all its other operations.
pub struct Mixed;

impl FrontEnd for Mixed {
    ghost use Rattle.run_tests.specs.Mixed.{mixed, mixed_keeps};

    ghost start = { mixed };

    fn start(op: &Op, _unsettled: u32) -> Start {
        match *op {
            Op::Read { register: _ } => Start::Cast,
            Op::Write {
                register: _,
                value: _,
            } => Start::CastAndAnswer,
            Op::Swap { .. } => Start::Cast,
            Op::CompareAndSwap { .. } => Start::Cast,
        }
    }

    ghost lawful = { mixed_keeps };
}
