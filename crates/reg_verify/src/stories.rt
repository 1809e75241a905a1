//! Stories: the reports of chapters in a row, and the command that judges whether they are one.
//!
//! A process has at most 65,535 operations, and a run at most 1,048,576 events. So a cluster that doesn't end is told
//! as one run after another: where a node has little room left it asks for the end of the chapter, all nodes call
//! nothing more until everybody has accepted all that anybody has put, and their copies are equal then. Each closes its
//! log and begins the next one, and process 0 writes the values that the chapter before ended with, before anybody else
//! calls. So each chapter is a run that begins with a memory of zeros, and can be judged by itself; whether those in a
//! row are one memory is judged here.
ghost use Rattle.std.specs.Prelude.{◌≡◌, ◌≢◌, ◌<◌, ◌⊎◌, Bool, List, IfOk, IfErr, IsErrOf, length, string_bytes};
ghost use Rattle.std.specs.Io.KnownBytes.{Appends};
ghost use Rattle.reg_text.specs.Writing.{AppendsPart};
ghost use Rattle.reg_history.specs.Reports.{Contents};
ghost use Rattle.reg_verify.specs.Stories.{IsRuling};
ghost use Rattle.reg_verify.specs.StoryTexts.{BlamesStory, SpellsReports, TellsReports};
ghost use Rattle.reg_verify.specs.StoryTexts.{is_story as is_story_of};

mod breaches;
mod judging;
mod lines;
mod openings;
mod reading;

pub use breaches::{Breach, ChapterPart, Ruling};
pub use judging::judge_story;
use lines::write_ruling;
pub use reading::read_reports;
use reg_commands::{Fault, TextCommand};
use reg_history::{ReadFault, Report};
use std::alloc::Allocator;
use std::io::Write;

/// Whether the reports are a story.
fn is_story(ruling: Ruling) -> bool
    ensures { result ≡ is_story_of ruling }
{
    match ruling {
        Ruling::Story { .. } => true,
        Ruling::Broken { .. } => false,
    }
}

/// The reports that a text is. The text is let go.
fn reports_in<A: Allocator + Copy>(alloc: A, text: String<A>) -> Result<Vec<Report<A>, A>, Fault>
    ensures read { IfOk result (λ v. SpellsReports (string_bytes text) v.items) }
    ensures whole { IfOk result
        (λ v. (others : List Contents) → SpellsReports (string_bytes text) others → others ≡ v.items) }
    ensures some { IfOk result (λ v. 0 < length v.items) }
    ensures why { IfErr result (λ f. BlamesStory f (string_bytes text)) }
    ensures kind { IfErr result (λ f. (f ≢ Fault.Output) × (f ≢ Fault.Unread)) }
{
    match read_reports(alloc, text.as_str()) {
        Ok(reports) => Ok(reports),
        Err(ReadFault::Line { line, why }) => Err(Fault::Line { line, why }),
        Err(ReadFault::OutOfMemory) => Err(Fault::OutOfMemory),
    }
}

/// What is said of reports.
fn ruled<A: Allocator + Copy>(alloc: A, reports: &[Report<A>]) -> Result<Ruling, Fault>
    requires { 0 < length reports.now }
    ensures ruling { IfOk result (λ ruling. IsRuling reports.now ruling) }
    ensures why { IfErr result (λ f. f ≡ Fault.OutOfMemory) }
{
    Ok(judge_story(alloc, reports)?)
}

/// Writes what is said of reports. The answer is whether they are one story.
fn tell_of<A: Allocator + Copy, W: Write>(
    alloc: A,
    reports: &[Report<A>],
    writer: &mut W,
) -> Result<bool, Fault>
    requires { 0 < length reports.now }
    ensures ok { IfOk result
        (λ agrees. TellsReports agrees (Appends (W.contents writer.old) (W.contents writer.new)) reports.now) }
    ensures why { IfErr result (λ f. (f ≡ Fault.Output) ⊎ (f ≡ Fault.OutOfMemory)) }
    ensures silent { IfErr result (λ f. f ≢ Fault.Output → writer.new ≡ writer.old) }
    ensures part { IsErrOf result Fault.Output
        → (agrees : Bool)
        × TellsReports agrees (AppendsPart (W.contents writer.old) (W.contents writer.new)) reports.now }
{
    let ruling = ruled(alloc, reports)?;
    match write_ruling(writer, reports[0].names(), ruling) {
        Ok(()) => Ok(is_story(ruling)),
        Err(fault) => Err(fault),
    }
}

/// Judges whether the reports that a text is, one behind another, are one story: each is accepted by `check`, and each
/// goes on where the one before it ended.
#[derive(Clone, Copy, Debug)]
pub struct Story;

impl TextCommand for Story {
    ghost use Rattle.std.specs.Prelude.{⊤};
    ghost use Rattle.reg_commands.proofs.Blamed.{told_by_all};
    ghost use Rattle.reg_verify.specs.StoryTexts.{BlamesStory, TellsStory};

    type Fault = Fault;

    ghost MayDeny = { λ _. ⊤ };

    ghost IsAnswer = { λ _. TellsStory };

    ghost IsBlamed = { λ _. BlamesStory };

    fn answer<A: Allocator + Copy, W: Write>(
        self,
        alloc: A,
        text: String<A>,
        writer: &mut W,
    ) -> Result<bool, Fault> {
        let reports = reports_in(alloc, text)?;
        tell_of(alloc, &reports, writer)
    }

    ghost blames_input = { λ _ fault text. told_by_all BlamesStory text tt (λ long. long) (λ no. no) tt fault };
}
