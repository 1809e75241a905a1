//! Asking why a text is refused.
ghost use Rattle.reg_reasons.specs.Lent.{AnswersLent};
ghost use Rattle.reg_reasons.specs.Tellings.{Answers, Halts};

use crate::lent::tell_lent;
use crate::refusals::tell;
use reg_commands::{Fault, TextCommand, write_answer};
use std::alloc::{Allocator, Global};
use std::io::Write;

/// Tells what is wrong with a text, or what an accepted one is, once the answer is there. The answer is a no where the
/// text is refused. Its first line is then the one that the command which reads such texts tells of it; what stands
/// after it explains it, and has no clause.
#[derive(Clone, Copy, Debug)]
pub struct Explain {
    /// The heap of the table of a workload, where `toml` keeps it.
    pub global: Global,
}

impl TextCommand for Explain {
    ghost use Rattle.std.specs.Prelude.{⊤};
    ghost use Rattle.reg_commands.proofs.Blamed.{told_by_all};

    type Fault = Fault;

    ghost MayDeny = { λ _. ⊤ };

    ghost IsAnswer = { λ _. Answers };

    ghost IsBlamed = { λ _. Halts };

    fn answer<A: Allocator + Copy, W: Write>(
        self,
        alloc: A,
        text: String<A>,
        writer: &mut W,
    ) -> Result<bool, Fault> {
        let told = tell(alloc, self.global, text.as_str())?;
        write_answer(writer, told.answer.as_slice())?;
        Ok(told.is_accepted)
    }

    ghost blames_input = { λ _ fault text. told_by_all Halts text tt (λ long. long) (λ no. no) tt fault };
}

/// Tells the same where there is no heap but the one of the answer, as in a page. A workload is read in its layout
/// alone: of a text that is meant as one and is in none, no clause says that the fault which is told is its own.
#[derive(Clone, Copy, Debug)]
pub struct ExplainLent;

impl TextCommand for ExplainLent {
    ghost use Rattle.std.specs.Prelude.{⊤};
    ghost use Rattle.reg_commands.proofs.Blamed.{told_by_all};

    type Fault = Fault;

    ghost MayDeny = { λ _. ⊤ };

    ghost IsAnswer = { λ _. AnswersLent };

    ghost IsBlamed = { λ _. Halts };

    fn answer<A: Allocator + Copy, W: Write>(
        self,
        alloc: A,
        text: String<A>,
        writer: &mut W,
    ) -> Result<bool, Fault> {
        let told = tell_lent(alloc, text.as_str())?;
        write_answer(writer, told.answer.as_slice())?;
        Ok(told.is_accepted)
    }

    ghost blames_input = { λ _ fault text. told_by_all Halts text tt (λ long. long) (λ no. no) tt fault };
}
