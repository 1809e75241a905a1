//! The command that judges the history of a report.
ghost use Rattle.std.specs.Prelude.{◌≡◌, ◌≢◌, ⊤, IfOk, IfErr, string_bytes};
ghost use Rattle.reg_judge.specs.Answers.{answer_text};
ghost use Rattle.reg_judge.specs.Reported.{BlamesRuling, JudgesReport};

use crate::rulings::answers::{TextOrReport, answer_of, has_order, write_text_or_report};
use crate::rulings::faults::RulingFault;
use crate::rulings::reported::judge_report;
use reg_commands::{Fault, TextCommand, read_report_text};
use std::alloc::Allocator;
use std::io::Write;

/// What the report that a text spells comes to: whether there is a point order, and what is answered. The text is let
/// go before the search.
fn judged<A: Allocator + Copy>(
    alloc: A,
    as_report: bool,
    text: String<A>,
) -> Result<(bool, TextOrReport<A>), RulingFault>
    ensures ok { IfOk result
        (λ p. JudgesReport as_report p.0 (λ answer. answer ≡ answer_text p.1) (string_bytes text)) }
    ensures why { IfErr result (λ f. BlamesRuling f (string_bytes text)) }
    ensures kind { IfErr result (λ f. f ≢ RulingFault.Command Fault.Output) }
{
    let report = read_report_text(alloc, text.as_str())?;
    drop(text);
    let judgement = judge_report(alloc, &report)?;
    let found = has_order(&judgement.sought);
    let answer = answer_of(alloc, report, judgement, as_report)?;
    Ok((found, answer))
}

/// Judges the history of the report that a text spells, whose own order and points are not looked at. The text that is
/// written begins with a line, `yes` where the history has a point order and `no` where it has none; then come lines
/// for a person, of which no clause speaks. Where a report is asked for and there is a point order, it is written in
/// place of the text, with the points that were found. The answer is a no where there is no point order.
#[derive(Clone, Copy, Debug)]
pub struct JudgeReport {
    /// Whether the answer is a report, where there is a point order.
    pub as_report: bool,
}

impl TextCommand for JudgeReport {
    ghost use Rattle.reg_commands.specs.declared.command.Command.TheVariants.{Check};

    type Fault = RulingFault;

    ghost MayDeny = { λ _. ⊤ };

    ghost IsAnswer = { λ it. JudgesReport it.as_report };

    ghost IsBlamed = { λ _. BlamesRuling };

    fn answer<A: Allocator + Copy, W: Write>(
        self,
        alloc: A,
        text: String<A>,
        writer: &mut W,
    ) -> Result<bool, RulingFault> {
        let judged = judged(alloc, self.as_report, text)?;
        write_text_or_report(writer, &judged.1)?;
        Ok(judged.0)
    }

    ghost blames_input = { λ _ _ _ _ blamed. blamed Check };
}
