//! A record played as a run.
ghost use Rattle.std.specs.Prelude.{◌≡◌, ◌<◌, ◌+◌, length, false, true, MatchOption, MatchResult, IfOk, IsTrue, ◌↔◌};
ghost use Rattle.reg_base.specs.Lists.{lists};
ghost use Rattle.reg_records.specs.Records.{IsFaithful};
ghost use Rattle.reg_world.specs.Worlds.{run_in};
ghost use Rattle.reg_records.specs.Playing.{AreTallied, IsEventOf, IsMade, StandsFor, StandsForNone};
ghost use Rattle.reg_records.specs.Receipts.{IsPlayFault};

use crate::entries::LogEntry;
use crate::faults::CloseFault;
use crate::finding::event_of;
use crate::hints::Hints;
use crate::tallies::{bump, entry_at, is_left, no_counts};
use reg_base::Shape;
use reg_front::FrontEnd;
use reg_process::{Event, Reply};
use reg_world::{WireStore, World, WorldFault};
use std::alloc::{AllocError, Allocator};

/// Whether a fault is `OutOfMemory`.
fn is_memory(fault: WorldFault) -> bool
    ensures { IsTrue result ↔ fault ≡ WorldFault.OutOfMemory }
{
    matches!(fault, WorldFault::OutOfMemory)
}

/// Whether two replies are the same.
fn is_same(reply: Option<Reply>, other: Option<Reply>) -> bool
    ensures { IsTrue result ↔ reply ≡ other }
{
    reply == other
}

/// Makes an event of the entry's step, and tells whether it is accepted and gives the entry's reply. Where it doesn't,
/// no event is that step with that reply, and nothing is claimed of the world.
pub fn make_event<F: FrontEnd, A: Allocator + Copy, W: WireStore<A>>(
    world: &mut World<F, A, W>,
    event: &Event,
    process: u8,
    entry: &LogEntry,
) -> Result<bool, AllocError>
    requires going { world.old.failed ≡ false }
    requires step { IsEventOf (run_in F.start world.old).nodes process entry.now.step event.now }
    ensures { IfOk result (λ made. IsMade F.start world.old process entry.now made world.new) }
{
    match world.step_reply(event) {
        Ok(reply) => Ok(is_same(reply, entry.reply)),
        Err(fault) => {
            if is_memory(fault) {
                Err(AllocError)
            } else {
                Ok(false)
            }
        }
    }
}

/// Makes the step of an entry, and tells whether it is an event that gives the entry's reply. Where it isn't, nothing
/// is claimed of the world.
fn make<F: FrontEnd, A: Allocator + Copy, W: WireStore<A>>(
    world: &mut World<F, A, W>,
    hints: &mut Hints<A>,
    process: u8,
    entry: &LogEntry,
) -> Result<bool, AllocError>
    requires { world.old.failed ≡ false }
    ensures { IfOk result (λ made. IsMade F.start world.old process entry.now made world.new) }
{
    let Some(event) = event_of(hints, world, process, &entry.step)? else {
        return Ok(false);
    };
    make_event(world, &event, process, entry)
}

/// The process that this place of the order mentions, and the entry of its log that the mention stands for. None where
/// its log has no such entry.
fn next_entry<A: Allocator + Copy>(
    counts: &[usize],
    order: &[u8],
    place: usize,
    logs: &[Vec<LogEntry, A>],
) -> Option<(u8, LogEntry)>
    requires within { place < length order.now }
    requires tallied { AreTallied counts.now order.now place }
    requires len { length counts.now ≡ length logs.now }
    ensures { MatchOption result (StandsForNone order.now (lists logs.now) place)
        (λ next. StandsFor order.now (lists logs.now) place next.0 next.1) }
{
    let by = order[place];
    let process = usize::from(by);
    if process >= counts.len() {
        return None;
    }
    let entry = entry_at(logs, process, counts[process])?;
    Some((by, entry))
}

fn unfaithful(place: usize) -> CloseFault
    ensures { result ≡ CloseFault.Unfaithful place }
{
    CloseFault::Unfaithful {
        place: place as u64,
    }
}

/// The run of a record without receipts: the order names the processes of its steps, and the k-th mention of a process
/// stands for the k-th entry of its log. Where it is Ok the steps are a run that gives the replies written down, each
/// frame being taken from its wire.
///
/// # Errors
///
/// `Unfaithful` with the first place from which the order and the logs are no run, and `OutOfMemory`.
pub fn play<F: FrontEnd, A: Allocator + Copy, W: WireStore<A>>(
    alloc: A,
    shape: Shape,
    order: &[u8],
    logs: &[Vec<LogEntry, A>],
) -> Result<World<F, A, W>, CloseFault>
    requires { length logs.now ≡ shape.processes }
    ensures { MatchResult result (λ w. IsFaithful F.start shape order.now (lists logs.now) w)
        (λ fault. IsPlayFault F.start shape order.now (lists logs.now) fault) }
{
    let Ok(mut hints) = Hints::new(alloc) else {
        return Err(CloseFault::OutOfMemory);
    };
    let Ok(mut counts) = no_counts(alloc, logs.len()) else {
        return Err(CloseFault::OutOfMemory);
    };
    let Ok(mut world) = World::new(alloc, shape) else {
        return Err(CloseFault::OutOfMemory);
    };
    for place in 0..order.len() {
        let Some((process, entry)) = next_entry(&counts, order, place, logs) else {
            return Err(unfaithful(place));
        };
        match make(&mut world, &mut hints, process, &entry) {
            Ok(true) => bump(&mut counts, order, place),
            Ok(false) => return Err(unfaithful(place)),
            Err(_) => return Err(CloseFault::OutOfMemory),
        }
    }
    if is_left(&counts, order, logs) {
        return Err(unfaithful(order.len()));
    }
    Ok(world)
}
