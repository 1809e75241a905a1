//! Bringing a world to rest.
ghost use Rattle.std.specs.Prelude.{ℕ, ◌≡◌, ◌≢◌, ◌+◌, ◌*◌, ◌<◌, None, Some, IfOk, OnOk, IfSome, MatchResult};
ghost use Rattle.std.specs.Prelude.{MatchOption, length, min};
ghost use Rattle.reg_base.specs.declared.limits.TheConstants.{MOST_EVENTS, MOST_RESENT};
ghost use Rattle.reg_world.specs.Laws.{AllAcknowledged};
ghost use Rattle.reg_world.specs.World.{event_fault};
ghost use Rattle.reg_world.specs.Worlds.{Accepts};
ghost use Rattle.reg_process.specs.declared.events.Event.TheVariants.{Take, Tick};
ghost use Rattle.reg_records.specs.Rest.{Settles, Stops, put_for};
ghost use Rattle.reg_records.specs.RestParts.{nodes_in, link_in, pending_in, distance_in, IsGoingOn, Misses, Halts};
ghost use Rattle.reg_records.specs.RestParts.{IsAgain, Passes, Nears, IsPending};

use crate::faults::SettleFault;
use reg_base::limits::{MOST_EVENTS, MOST_RESENT};
use reg_front::FrontEnd;
use reg_world::{Event, WireStore, World, WorldFault};
use std::alloc::Allocator;

/// The number of processes.
fn processes<F: FrontEnd, A: Allocator + Copy, W: WireStore<A>>(world: &World<F, A, W>) -> u8
    ensures { result ≡ world.now.processes }
{
    world.shape().processes() as u8
}

/// Makes an event that can be refused only where there is no room for it, or no memory.
fn make<F: FrontEnd, A: Allocator + Copy, W: WireStore<A>>(
    world: &mut World<F, A, W>,
    event: Event,
) -> Result<(), SettleFault>
    requires on { IsGoingOn F.start world.old }
    requires allowed { event_fault world.old.processes world.old.registers (nodes_in F.start world.old) event ≡ None }
    ensures { MatchResult result (λ _. Accepts F.start world.old event world.new)
        (λ fault. Misses F.start world.old event fault world.new) }
{
    match world.step(&event) {
        Ok(()) => Ok(()),
        Err(WorldFault::TooManyEvents) => Err(SettleFault::TooManyEvents),
        Err(WorldFault::OutOfMemory) => Err(SettleFault::OutOfMemory),
        Err(_) => unreachable!(),
    }
}

/// How many frames one process ever put for another.
fn frame_count<F: FrontEnd, A: Allocator + Copy, W: WireStore<A>>(
    world: &World<F, A, W>,
    from: u8,
    to: u8,
) -> u32
    requires on { IsGoingOn F.start world.now }
    requires from { from < world.now.processes }
    requires to { to < world.now.processes }
    requires apart { from ≢ to }
    ensures { result ≡ put_for (nodes_in F.start world.now) from to }
{
    let Some(count) = world.frame_count(from, to) else {
        unreachable!()
    };
    count as u32
}

/// How many frames a tick puts again for another process.
fn again_count<F: FrontEnd, A: Allocator + Copy, W: WireStore<A>>(
    world: &World<F, A, W>,
    from: u8,
    to: u8,
) -> u32
    requires on { IsGoingOn F.start world.now }
    requires from { from < world.now.processes }
    requires to { to < world.now.processes }
    requires apart { from ≢ to }
    ensures { result ≡ min MOST_RESENT (length (link_in F.start world.now from to).pending) }
{
    let Some(process) = world.process(from) else {
        unreachable!()
    };
    let Some(known) = process.known(to) else {
        unreachable!()
    };
    (known.next - known.first).min(MOST_RESENT) as u32
}

/// A process takes a frame. Tells at which place of the wire back it is answered.
fn take<F: FrontEnd, A: Allocator + Copy, W: WireStore<A>>(
    world: &mut World<F, A, W>,
    from: u8,
    to: u8,
    number: u32,
) -> Result<u32, SettleFault>
    requires on { IsGoingOn F.start world.old }
    requires from { from < world.old.processes }
    requires to { to < world.old.processes }
    requires apart { from ≢ to }
    requires there { number < put_for (nodes_in F.start world.old) from to }
    ensures made { MatchResult result (λ _. Accepts F.start world.old (Take from to number) world.new)
        (λ fault. Misses F.start world.old (Take from to number) fault world.new) }
    ensures answer { IfOk result (λ answer. answer ≡ put_for (nodes_in F.start world.old) to from) }
{
    let answer = frame_count(world, to, from);
    make(world, Event::Take { from, to, number })?;
    Ok(answer)
}

/// A process takes the frames that a tick put again for it, in order, and then the other one the count that answers the
/// last.
fn pass_on<F: FrontEnd, A: Allocator + Copy, W: WireStore<A>>(
    world: &mut World<F, A, W>,
    from: u8,
    to: u8,
) -> Result<(), SettleFault>
    requires on { IsGoingOn F.start world.old }
    requires from { from < world.old.processes }
    requires to { to < world.old.processes }
    requires apart { from ≢ to }
    requires again { IsAgain F.start (λ _ _. 0) world.old from to }
    ensures { (passed : ℕ → ℕ → ℕ) → IsAgain F.start passed world.old from to
        → MatchResult result (λ _. Passes F.start passed world.old from to world.new)
        (λ fault. Halts F.start passed world.old (2 * pending_in F.start world.old from) fault world.new) }
{
    let count = again_count(world, from, to);
    if count == 0 {
        return Ok(());
    }
    let end = frame_count(world, from, to);
    let mut answer = 0;
    for number in end - count..end {
        answer = take(world, from, to, number)?;
    }
    take(world, to, from, answer)?;
    Ok(())
}

/// A process puts its first unacknowledged frames again, and they are passed on to the processes from this one on,
/// before which none has any.
fn tick_and_pass<F: FrontEnd, A: Allocator + Copy, W: WireStore<A>>(
    world: &mut World<F, A, W>,
    process: u8,
    first: u8,
) -> Result<(), SettleFault>
    requires on { IsGoingOn F.start world.old }
    requires pending { IsPending F.start world.old process first }
    ensures nears { OnOk result (Nears F.start world.old world.new) }
    ensures more { OnOk result (length world.old.accepted < length world.new.accepted) }
    ensures halts { MatchResult result (λ _. Unit {0})
        (λ fault. Halts F.start (put_for (nodes_in F.start world.old)) world.old (3 * distance_in F.start world.old)
        fault world.new) }
{
    make(world, Event::Tick { process })?;
    for to in first..processes(world) {
        if to != process {
            pass_on(world, process, to)?;
        }
    }
    Ok(())
}

/// The first process for which this one has frames that are not acknowledged.
fn pending_link<F: FrontEnd, A: Allocator + Copy, W: WireStore<A>>(
    world: &World<F, A, W>,
    process: u8,
) -> Option<u8>
    requires on { IsGoingOn F.start world.now }
    requires process { process < world.now.processes }
    ensures { MatchOption result (pending_in F.start world.now process ≡ 0)
        (λ to. IsPending F.start world.now process to) }
{
    for to in 0..processes(world) {
        if to != process && again_count(world, process, to) > 0 {
            return Some(to);
        }
    }
    None
}

/// The first process, from this one on, that has frames which are not acknowledged, with the first process for which it
/// has.
fn pending_from<F: FrontEnd, A: Allocator + Copy, W: WireStore<A>>(
    world: &World<F, A, W>,
    first: u8,
) -> Option<(u8, u8)>
    requires on { IsGoingOn F.start world.now }
    ensures some { IfSome result (λ link. IsPending F.start world.now link.0 link.1) }
    ensures none { result ≡ None → first ≡ 0 → AllAcknowledged world.now.processes (nodes_in F.start world.now) }
{
    for process in first..processes(world) {
        if let Some(to) = pending_link(world, process) {
            return Some((process, to));
        }
    }
    None
}

/// A link with frames that are not acknowledged: one of the first process from this one on that has any, and else of
/// the first of all.
fn next_link<F: FrontEnd, A: Allocator + Copy, W: WireStore<A>>(
    world: &World<F, A, W>,
    first: u8,
) -> Option<(u8, u8)>
    requires on { IsGoingOn F.start world.now }
    ensures { MatchOption result (AllAcknowledged world.now.processes (nodes_in F.start world.now))
        (λ link. IsPending F.start world.now link.0 link.1) }
{
    if let Some(link) = pending_from(world, first) {
        return Some(link);
    }
    pending_from(world, 0)
}

/// Brings a world to rest, and tells by how many events: ticks and takes, each an ordinary event of `World::step`,
/// until no frame is left unacknowledged. Then each process has delivered all casts, no operation runs, and all copies
/// are equal. No frame that was put before is taken: what was lost stays lost. There are at most three events for each
/// frame that has to be acknowledged, now or later. In which order they come is not promised.
///
/// # Errors
///
/// `TooManyEvents`: with the ticks and takes made so far the world has all the events that it may have, and is not at
/// rest. It comes only where there was no room for three events for each of those frames. `OutOfMemory`: memory was
/// refused for an event, and the world has stopped, with the ticks and takes made so far. `Failed`: it had stopped
/// before, and nothing has changed.
// (a process that has unacknowledged frames puts the first ones again; these are taken, link by link, and then the
// count that answers the last of a link)
pub fn settle<F: FrontEnd, A: Allocator + Copy, W: WireStore<A>>(
    world: &mut World<F, A, W>,
) -> Result<u32, SettleFault>
    ensures { MatchResult result (λ count. Settles F.start world.old count world.new)
        (λ fault. Stops F.start world.old fault world.new) }
{
    if world.has_failed() {
        return Err(SettleFault::Failed);
    }
    // (for the proof: by these getters' contracts the world is the run of its accepted events, and its history theirs)
    world.history();
    let before = world.events();
    let mut next = 0;
    for _round in 0..=MOST_EVENTS {
        let Some((process, to)) = next_link(world, next) else {
            return Ok(world.events() - before);
        };
        tick_and_pass(world, process, to)?;
        next = process;
    }
    unreachable!()
}
