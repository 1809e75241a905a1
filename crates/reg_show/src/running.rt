//! Showing the run of a schedule, and of a workload's play.
ghost use Rattle.std.specs.Prelude.{◌≡◌, ◌≢◌, IfOk, IfErr, IfSome, IsErrOf};
ghost use Rattle.std.specs.Io.KnownBytes.{Appends};
ghost use Rattle.reg_text.specs.Writing.{AppendsPart};
ghost use Rattle.reg_inputs.specs.Schedules.{IsPlan};
ghost use Rattle.reg_commands.specs.Plays.{Holds};
ghost use Rattle.reg_show.specs.Showings.{Blames, BlamesText, Shows, ShowsPlan, ShowsPlay, ShowsText, StopsPlay};
ghost use Rattle.reg_show.specs.Showings.{StopsShowing, notes_for};

use crate::commands::{draw, trace};
use crate::faults::ShowFault;
use crate::forms::play_to_show;
use crate::page_head::PAGE_HEAD;
use crate::page_tail::PAGE_TAIL;
use crate::paging::{Ends, write_run};
use crate::resting::rest;
use crate::showing::{Showing, View};
use reg_commands::{Fault, Kind, TextCommand, kind_of, read_schedule, read_workload};
use reg_trace::{Notes, Size, read_notes};
use reg_workload::{Schedule, Workload};
use std::alloc::{AllocError, Allocator, Global};
use std::io::Write;

const PAGE: Ends<'static> = Ends {
    head: PAGE_HEAD,
    tail: PAGE_TAIL,
};

const LINE: Ends<'static> = Ends {
    head: "",
    tail: "\n",
};

/// Shows the run of a schedule, with these notes.
#[tactic(auto, using(crate::proofs::Drawn::stops_large))]
fn show_schedule<A: Allocator + Copy, W: Write>(
    alloc: A,
    showing: Showing,
    schedule: Schedule<A>,
    notes: Notes<A>,
    writer: &mut W,
) -> Result<(), ShowFault>
    requires { IsPlan schedule }
    ensures ok { IfOk result
        (λ _. ShowsPlan showing notes (Appends (W.contents writer.old) (W.contents writer.new)) schedule) }
    ensures why { IfErr result (StopsShowing showing schedule) }
    ensures silent { IfErr result (λ f. f ≢ ShowFault.Command Fault.Output → writer.new ≡ writer.old) }
    ensures part { IsErrOf result (ShowFault.Command Fault.Output)
        → ShowsPlan showing notes (AppendsPart (W.contents writer.old) (W.contents writer.new)) schedule }
{
    match showing {
        Showing::Trace => trace(alloc, schedule, notes.title(), writer),
        Showing::Draw => draw(alloc, schedule, notes.title(), Size::Usual, writer),
        Showing::DrawLarge => draw(alloc, schedule, notes.title(), Size::Large, writer),
        Showing::Data => write_run(alloc, schedule, notes, LINE, writer),
        Showing::Page => write_run(alloc, schedule, notes, PAGE, writer),
        Showing::Rest => rest(alloc, schedule, writer),
    }
}

/// The notes of a text, where what is shown has some.
fn notes_to_show<A: Allocator + Copy>(
    alloc: A,
    showing: Showing,
    text: &str,
) -> Result<Notes<A>, AllocError>
    ensures { IfOk result (λ n. n ≡ notes_for showing text.now) }
{
    match showing {
        Showing::Data | Showing::Page => read_notes(alloc, text),
        Showing::Trace | Showing::Draw | Showing::DrawLarge | Showing::Rest => {
            Ok(Notes::none(alloc))
        }
    }
}

/// Shows the run of the schedule that a text spells. It writes once all of the schedule is accepted.
///
/// # Errors
///
/// What the text is refused for; `Output` where the writer failed, and then a first part of the answer went out; and
/// `OutOfMemory`.
pub fn show_run<A: Allocator + Copy, W: Write>(
    alloc: A,
    showing: Showing,
    text: &str,
    writer: &mut W,
) -> Result<(), ShowFault>
    ensures ok { IfOk result
        (λ _. ShowsText showing (Appends (W.contents writer.old) (W.contents writer.new)) text.now) }
    ensures why { IfErr result (λ f. BlamesText showing f text.now) }
    ensures silent { IfErr result (λ f. f ≢ ShowFault.Command Fault.Output → writer.new ≡ writer.old) }
    ensures part { IsErrOf result (ShowFault.Command Fault.Output)
        → ShowsText showing (AppendsPart (W.contents writer.old) (W.contents writer.new)) text.now }
{
    let schedule = read_schedule(alloc, text)?;
    let notes = notes_to_show(alloc, showing, text)?;
    show_schedule(alloc, showing, schedule, notes, writer)
}

/// Shows the run of a workload's seeded play.
fn show_play<A: Allocator + Copy, W: Write>(
    alloc: A,
    view: View,
    work: Workload<A>,
    writer: &mut W,
) -> Result<(), ShowFault>
    ensures ok { IfOk result (λ _. ShowsPlay view (Appends (W.contents writer.old) (W.contents writer.new)) work) }
    ensures why { IfErr result (StopsPlay view work) }
    ensures silent { IfErr result (λ f. f ≢ ShowFault.Command Fault.Output → writer.new ≡ writer.old) }
    ensures part { IsErrOf result (ShowFault.Command Fault.Output)
        → ShowsPlay view (AppendsPart (W.contents writer.old) (W.contents writer.new)) work }
{
    let play = play_to_show(alloc, view.form, work)?;
    show_schedule(alloc, view.showing, play.schedule, play.notes, writer)
}

/// The workload that a document says, None of any other text.
fn workload_of<A: Allocator + Copy>(
    alloc: A,
    global: Global,
    text: &str,
) -> Result<Option<Workload<A>>, AllocError>
    ensures { IfOk result (λ o. IfSome o (Holds text.now)) }
{
    if kind_of(text.as_bytes()) != Kind::Workload {
        return Ok(None);
    }
    match read_workload(alloc, global, text) {
        Ok(work) => Ok(Some(work)),
        Err(Fault::OutOfMemory) => Err(AllocError),
        Err(_) => Ok(None),
    }
}

/// Shows the run of the schedule that a text spells, or of the seeded play of the workload that it says.
fn show_either<A: Allocator + Copy, W: Write>(
    alloc: A,
    global: Global,
    view: View,
    text: &str,
    writer: &mut W,
) -> Result<(), ShowFault>
    ensures ok { IfOk result (λ _. Shows view (Appends (W.contents writer.old) (W.contents writer.new)) text.now) }
    ensures why { IfErr result (λ f. Blames view f text.now) }
    ensures silent { IfErr result (λ f. f ≢ ShowFault.Command Fault.Output → writer.new ≡ writer.old) }
    ensures part { IsErrOf result (ShowFault.Command Fault.Output)
        → Shows view (AppendsPart (W.contents writer.old) (W.contents writer.new)) text.now }
{
    match workload_of(alloc, global, text)? {
        Some(work) => show_play(alloc, view, work, writer),
        None => show_run(alloc, view.showing, text, writer),
    }
}

/// Shows the run of the schedule that a text spells, or of the seeded play of the workload that it says. It writes once
/// all of the text is accepted. What stands in a drawing no clause says. The table of a workload is kept in the global
/// heap, where `toml` keeps it.
#[derive(Clone, Copy, Debug)]
pub struct ShowEither {
    pub view: View,
    pub global: Global,
}

impl TextCommand for ShowEither {
    ghost use Rattle.std.specs.Prelude.{refl};
    ghost use Rattle.std.proofs.Common.{inl};
    ghost use Rattle.reg_commands.specs.declared.command.Command.TheVariants.{Replay};
    ghost use Rattle.reg_show.specs.Showings.{Blames, Shows};

    type Fault = ShowFault;

    ghost IsAnswer = { λ it _. Shows it.view };

    ghost IsBlamed = { λ it. Blames it.view };

    fn answer<A: Allocator + Copy, W: Write>(
        self,
        alloc: A,
        text: String<A>,
        writer: &mut W,
    ) -> Result<bool, ShowFault> {
        match show_either(alloc, self.global, self.view, text.as_str(), writer) {
            Ok(()) => Ok(true),
            Err(fault) => Err(fault),
        }
    }

    ghost blames_input = { λ _ fault _ _ blamed. inl (inl (fault, refl, blamed Replay)) };
}
