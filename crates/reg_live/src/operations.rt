//! How far the last operation of a process has come.
ghost use Rattle.std.specs.Prelude.{◌≡◌};
ghost use Rattle.reg_live.specs.Operations.{after_section, answer_to, is_running};

use reg_base::Answer;
use reg_process::{Reply, Step};

/// An answer with its place in the journal.
#[derive(Clone, Copy)]
pub struct PlacedAnswer {
    pub answer: Answer,
    pub place: u64,
}

/// How far the last operation called has come.
#[derive(Clone, Copy)]
pub(crate) enum Operation {
    /// No operation was called.
    Uncalled,
    /// It has no answer yet.
    Running,
    /// This is its answer.
    Answered { told: PlacedAnswer },
}

impl Operation {
    /// Whether it has no answer yet.
    pub(crate) fn is_running(self) -> bool
        ensures { result ≡ is_running self }
    {
        matches!(self, Operation::Running)
    }

    /// Its answer, where there is one.
    pub(crate) fn answer(self) -> Option<PlacedAnswer>
        ensures { result ≡ answer_to self }
    {
        match self {
            Operation::Answered { told } => Some(told),
            _ => None,
        }
    }

    /// The last operation after a section at this place.
    pub(crate) fn after(self, step: &Step, reply: Option<Reply>, place: u64) -> Operation
        ensures { result ≡ after_section self step.now reply place }
    {
        if let Some(reply) = reply {
            return Operation::Answered {
                told: PlacedAnswer {
                    answer: reply.answer,
                    place,
                },
            };
        }
        match *step {
            Step::Call { op: _ } => Operation::Running,
            _ => self,
        }
    }
}
