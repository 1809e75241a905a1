//! The command that prints the schedule of the short form of a play.
ghost use Rattle.std.specs.Prelude.{◌≡◌, ◌<◌, ◌⊎◌, IfOk, IfErr, length, take};
ghost use Rattle.reg_commands.specs.Replays.{start_of};
ghost use Rattle.reg_show.specs.Seeds.{IsSeed, is_fair, reseeded, seed_of};
ghost use Rattle.reg_show.specs.Shorts.{IsShortPlay, KeepsAnswers, LacksShort, Shortens, ShowsShort, StopsShort};
ghost use Rattle.reg_show.specs.Shorts.{up_to_last_answer};

use crate::faults::ShowFault;
use crate::players::Player;
use crate::scheduling::{events_have_bits, send};
use crate::seeding::reseed;
use crate::shortening::{shorten, up_to_last};
use reg_base::Shape;
use reg_checkers::Entry;
use reg_commands::{Fault, WorkCommand, play_by};
use reg_front::{FrontEnd, by_front};
use reg_workload::Workload;
use reg_world::{Event, PackedWires};
use std::alloc::Allocator;
use std::io::Write;

/// The most events up to the last answer of a play that is shortened.
pub const MOST_SHORTENED: usize = 2_000;

/// The events of a run up to its last answer, without those that no answer needs, where they are not too many.
fn short_form<F: FrontEnd, A: Allocator + Copy>(
    alloc: A,
    shape: Shape,
    entries: &[Entry],
    accepted: &[Event],
) -> Result<Vec<Event, A>, ShowFault>
    ensures short { IfOk result
        (λ v. Shortens (KeepsAnswers F.start shape entries.now)
        (length (take (up_to_last_answer entries.now) accepted.now)) (take (up_to_last_answer entries.now) accepted.now)
        v.items) }
    ensures why { IfErr result
        (λ f. (f ≡ ShowFault.Command Fault.OutOfMemory)
        ⊎ ((f ≡ ShowFault.TooManyToShorten)
        × (MOST_SHORTENED < length (take (up_to_last_answer entries.now) accepted.now)))) }
{
    let events = up_to_last(entries, accepted);
    if events.len() > MOST_SHORTENED {
        return Err(ShowFault::TooManyToShorten);
    }
    Ok(shorten::<F, A>(alloc, shape, entries, events)?)
}

/// The events of the short form of a workload's play.
pub(crate) fn short_play<F: FrontEnd, A: Allocator + Copy>(
    alloc: A,
    work: &Workload<A>,
    fair: bool,
) -> Result<Vec<Event, A>, ShowFault>
    ensures short { IfOk result (λ v. IsShortPlay fair F.start work.now v.items) }
    ensures why { IfErr result (LacksShort fair F.start work.now) }
{
    let play = play_by::<F, A, PackedWires<A>>(alloc, work, fair)?;
    let entries = play.world.history().entries();
    short_form::<F, A>(alloc, work.shape, entries, play.world.accepted())
}

/// The events of the short form of a workload's play under its front end.
fn short_of<A: Allocator + Copy>(
    alloc: A,
    work: &Workload<A>,
    fair: bool,
) -> Result<Vec<Event, A>, ShowFault>
    ensures short { IfOk result (λ v. IsShortPlay fair (start_of work.now.front) work.now v.items) }
    ensures why { IfErr result (LacksShort fair (start_of work.now.front) work.now) }
{
    by_front!(work.front, short_play::<_, A>(alloc, work, fair))
}

/// Writes the schedule of the short form of the player's play of the workload that a text says, once the form is made.
/// It has the play's events up to its last answer but for those that no answer needs: from the last to the first, each
/// event is dropped without which the others are all accepted, and each process finishes the same operations with the
/// same answers. Frames keep their places, so an event whose absence would have a later take miss its frame is kept.
#[derive(Clone, Copy, Debug)]
pub struct ShortSchedule {
    pub player: Player,
}

impl WorkCommand for ShortSchedule {
    type Fault = ShowFault;

    ghost IsReady = { λ it. IsSeed (seed_of it.player) };

    ghost IsShown = { λ it Wrote work. ShowsShort (is_fair it.player) (start_of work.front) Wrote
        (reseeded (seed_of it.player) work) };

    ghost IsStopped = { λ it fault work. StopsShort (is_fair it.player) (start_of work.front)
        (reseeded (seed_of it.player) work) fault };

    fn show<A: Allocator + Copy, W: Write>(
        self,
        alloc: A,
        work: Workload<A>,
        writer: &mut W,
    ) -> Result<(), ShowFault> {
        let work = reseed(work, self.player.seed());
        let short = short_of(alloc, &work, self.player.is_fair())?;
        let events = short.as_slice();
        events_have_bits(events);
        send(writer, work.shape, &work.names, work.front, events)?;
        Ok(())
    }
}
