//! Whether an entry can go.
ghost use Rattle.std.specs.Prelude.{◌≡◌, false, IfOk};
ghost use Rattle.reg_records.specs.Placing.{HasGone};

use crate::entries::LogEntry;
use crate::finding::{event_of, hinted_event};
use crate::hints::Hints;
use crate::playing::make_event;
use reg_front::FrontEnd;
use reg_world::{WireStore, World};
use std::alloc::{AllocError, Allocator};

/// How far a frame is looked for.
#[derive(Clone, Copy, Debug, PartialEq, Eq)]
pub(crate) enum Search {
    /// At the place that the hints tell.
    Hinted,
    /// At each place of its wire.
    Whole,
}

/// What came of trying to make an entry.
#[derive(Clone, Copy, Debug, PartialEq, Eq)]
pub(crate) enum Going {
    /// It was made.
    Made,
    /// Its frame wasn't found.
    Waits,
    /// Its process doesn't make that step, or gives another reply.
    Other,
}

/// Makes an entry, if it can go. Where it is another one, nothing is claimed of the world.
pub(crate) fn go<F: FrontEnd, A: Allocator + Copy, W: WireStore<A>>(
    world: &mut World<F, A, W>,
    hints: &mut Hints<A>,
    process: u8,
    entry: &LogEntry,
    search: Search,
) -> Result<Going, AllocError>
    requires { world.old.failed ≡ false }
    ensures { IfOk result (λ going. HasGone F.start world.old process entry.now search going world.new) }
{
    let found = match search {
        Search::Hinted => hinted_event(hints, world, process, &entry.step)?,
        Search::Whole => event_of(hints, world, process, &entry.step)?,
    };
    let Some(event) = found else {
        return Ok(Going::Waits);
    };
    if make_event(world, &event, process, entry)? {
        Ok(Going::Made)
    } else {
        Ok(Going::Other)
    }
}
