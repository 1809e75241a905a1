//! What is shown of a workload's play: all of its events, or its short form.
ghost use Rattle.std.specs.Prelude.{◌≡◌, IfOk};
ghost use Rattle.reg_commands.specs.Replays.{start_of};
ghost use Rattle.reg_inputs.specs.Loads.{IsLoad};
ghost use Rattle.reg_show.specs.Showings.{IsPlayOf, IsShownPlay};
ghost use Rattle.reg_show.specs.Shorts.{plan_with};

use crate::faults::ShowFault;
use crate::scheduling::events_have_bits;
use crate::short_schedules::short_play;
use crate::showing::{Form, SHORT_FORM};
use reg_commands::play_by;
use reg_front::{FrontEnd, by_front};
use reg_trace::Notes;
use reg_workload::{Schedule, Workload};
use reg_world::{Event, PackedWires};
use std::alloc::{AllocError, Allocator};

/// The events that are shown of a play, and what is said of them.
#[derive(Drop)]
pub(crate) struct ShownPlay<A: Allocator + Copy> {
    pub(crate) schedule: Schedule<A>,
    pub(crate) notes: Notes<A>,
}

/// These events, under a workload's front end and names.
fn with_events<A: Allocator + Copy>(work: Workload<A>, events: Vec<Event, A>) -> Schedule<A>
    ensures plan { result ≡ plan_with work events.items }
    ensures load { IsLoad work }
{
    let Workload {
        shape,
        names,
        front,
        ..
    } = work;
    Schedule {
        shape,
        names,
        front,
        events,
    }
}

/// All events of a workload's seeded play.
fn whole_play<F: FrontEnd, A: Allocator + Copy>(
    alloc: A,
    work: Workload<A>,
) -> Result<Schedule<A>, AllocError>
    ensures { IfOk result (λ s. IsPlayOf F.start work s) }
{
    let play = play_by::<F, A, PackedWires<A>>(alloc, &work, false)?;
    events_have_bits(play.world.accepted());
    let events = play.world.accepted().to_vec(alloc)?;
    Ok(with_events(work, events))
}

/// All events of a workload's seeded play, with no title.
fn shown_whole<F: FrontEnd, A: Allocator + Copy>(
    alloc: A,
    work: Workload<A>,
) -> Result<ShownPlay<A>, AllocError>
    ensures { IfOk result (λ s. IsShownPlay Form.Whole F.start work s.schedule s.notes) }
{
    let schedule = whole_play::<F, A>(alloc, work)?;
    let notes = Notes::none(alloc);
    Ok(ShownPlay { schedule, notes })
}

/// The short form of a workload's seeded play, with its title; all events where there are too many to be shortened.
fn shown_short<F: FrontEnd, A: Allocator + Copy>(
    alloc: A,
    work: Workload<A>,
) -> Result<ShownPlay<A>, AllocError>
    ensures { IfOk result (λ s. IsShownPlay Form.Short F.start work s.schedule s.notes) }
{
    match short_play::<F, A>(alloc, &work, false) {
        Ok(events) => {
            events_have_bits(events.as_slice());
            let schedule = with_events(work, events);
            let notes = Notes::titled(alloc, SHORT_FORM)?;
            Ok(ShownPlay { schedule, notes })
        }
        Err(ShowFault::TooManyToShorten) => shown_whole::<F, A>(alloc, work),
        Err(_) => Err(AllocError),
    }
}

/// What is shown of a workload's seeded play in this form.
fn shown_play<F: FrontEnd, A: Allocator + Copy>(
    alloc: A,
    form: Form,
    work: Workload<A>,
) -> Result<ShownPlay<A>, AllocError>
    ensures { IfOk result (λ s. IsShownPlay form F.start work s.schedule s.notes) }
{
    match form {
        Form::Whole => shown_whole::<F, A>(alloc, work),
        Form::Short => shown_short::<F, A>(alloc, work),
    }
}

/// What is shown in this form of a workload's seeded play under its front end.
pub(crate) fn play_to_show<A: Allocator + Copy>(
    alloc: A,
    form: Form,
    work: Workload<A>,
) -> Result<ShownPlay<A>, AllocError>
    ensures { IfOk result (λ s. IsShownPlay form (start_of work.front) work s.schedule s.notes) }
{
    by_front!(work.front, shown_play::<_, A>(alloc, form, work))
}
