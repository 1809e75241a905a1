//! The command that prints the schedule of a play.
ghost use Rattle.std.specs.Prelude.{◌≡◌, ◌≢◌, ℕ, IfOk, IfErr, IsErrOf, Some, slice_get};
ghost use Rattle.std.specs.Io.KnownBytes.{Appends};
ghost use Rattle.reg_text.specs.Writing.{AppendsPart, IsWrittenOr};
ghost use Rattle.reg_process.specs.declared.events.Event.{Event};
ghost use Rattle.reg_commands.specs.Replays.{start_of};
ghost use Rattle.reg_inputs.specs.Schedules.{Plan};
ghost use Rattle.reg_inputs.specs.ScheduleText.{schedule_text};
ghost use Rattle.reg_show.specs.Schedules.{ShowsSchedule, StopsSchedule};
ghost use Rattle.reg_show.specs.Seeds.{IsSeed, is_fair, reseeded, seed_of};
ghost use Rattle.reg_show.specs.ToldRuns.{EventHasBits};

use crate::faults::ShowFault;
use crate::players::Player;
use crate::seeding::reseed;
use reg_base::{Names, Shape};
use reg_commands::{Fault, WorkCommand, play_by};
use reg_front::{Front, FrontEnd, by_front};
use reg_inputs::write_schedule;
use reg_workload::Workload;
use reg_world::{Event as AnyEvent, PackedWires};
use std::alloc::Allocator;
use std::io::Write;

// The numbers of an event are within their types. It does nothing: its contract says so.
fn event_has_bits(event: AnyEvent)
    ensures { EventHasBits event }
{}

// So are those of all events. It does nothing: its contract says so.
pub(crate) fn events_have_bits(events: &[AnyEvent])
    ensures { (k : ℕ) (e : Event) → slice_get events.now k ≡ Some e → EventHasBits e }
{
    for event in events {
        event_has_bits(*event);
    }
}

/// Writes the text of a schedule, to the last byte.
pub(crate) fn send<A: Allocator + Copy, W: Write>(
    writer: &mut W,
    shape: Shape,
    names: &Names<A>,
    front: Front,
    events: &[AnyEvent],
) -> Result<(), Fault>
    ensures { let plan : Plan = record { shape = shape; names = names.now; front = front; events = events.now } in
        IsWrittenOr Fault.Output result (W.contents writer.old) (W.contents writer.new) (schedule_text plan) }
{
    if write_schedule(writer, shape, names, front, events).is_err() || writer.flush().is_err() {
        return Err(Fault::Output);
    }
    Ok(())
}

/// Plays a workload, and writes the schedule of the play.
fn write_play<F: FrontEnd, A: Allocator + Copy, W: Write>(
    alloc: A,
    work: &Workload<A>,
    fair: bool,
    writer: &mut W,
) -> Result<(), ShowFault>
    ensures ok { IfOk result
        (λ _. ShowsSchedule fair F.start (Appends (W.contents writer.old) (W.contents writer.new)) work.now) }
    ensures why { IfErr result StopsSchedule }
    ensures silent { IfErr result (λ f. f ≢ ShowFault.Command Fault.Output → writer.new ≡ writer.old) }
    ensures part { IsErrOf result (ShowFault.Command Fault.Output)
        → ShowsSchedule fair F.start (AppendsPart (W.contents writer.old) (W.contents writer.new)) work.now }
{
    let play = play_by::<F, A, PackedWires<A>>(alloc, work, fair)?;
    let events = play.world.accepted();
    events_have_bits(events);
    send(writer, work.shape, &work.names, work.front, events)?;
    Ok(())
}

/// Plays a workload under its front end, and writes the schedule of the play.
///
/// # Errors
///
/// `Output` where the writer failed, and then a first part of the schedule went out; and `OutOfMemory`.
pub fn write_play_schedule<A: Allocator + Copy, W: Write>(
    alloc: A,
    work: &Workload<A>,
    fair: bool,
    writer: &mut W,
) -> Result<(), ShowFault>
    ensures ok { IfOk result
        (λ _. ShowsSchedule fair (start_of work.now.front) (Appends (W.contents writer.old) (W.contents writer.new))
        work.now) }
    ensures why { IfErr result StopsSchedule }
    ensures silent { IfErr result (λ f. f ≢ ShowFault.Command Fault.Output → writer.new ≡ writer.old) }
    ensures part { IsErrOf result (ShowFault.Command Fault.Output)
        → ShowsSchedule fair (start_of work.now.front) (AppendsPart (W.contents writer.old) (W.contents writer.new))
        work.now }
{
    by_front!(work.front, write_play::<_, A, W>(alloc, work, fair, writer))
}

/// Writes the schedule of the player's play of the workload that a text says, once the play is made.
#[derive(Clone, Copy, Debug)]
pub struct FullSchedule {
    pub player: Player,
}

impl WorkCommand for FullSchedule {
    type Fault = ShowFault;

    ghost IsReady = { λ it. IsSeed (seed_of it.player) };

    ghost IsShown = { λ it Wrote work. ShowsSchedule (is_fair it.player) (start_of work.front) Wrote
        (reseeded (seed_of it.player) work) };

    ghost IsStopped = { λ _ fault _. StopsSchedule fault };

    fn show<A: Allocator + Copy, W: Write>(
        self,
        alloc: A,
        work: Workload<A>,
        writer: &mut W,
    ) -> Result<(), ShowFault> {
        let work = reseed(work, self.player.seed());
        write_play_schedule(alloc, &work, self.player.is_fair(), writer)
    }
}
