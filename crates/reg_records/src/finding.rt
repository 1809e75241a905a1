//! The event in which a process makes a step.
ghost use Rattle.std.specs.Prelude.{⊤, ◌≡◌, ◌<◌, ◌↔◌, ℕ, length, false, MatchOption, IfOk, IsTrue};
ghost use Rattle.reg_checkers.specs.History.{IsAt};
ghost use Rattle.reg_process.specs.declared.steps.Step.TheVariants.{Take};
ghost use Rattle.reg_world.specs.Worlds.{IsNoWire, run_in};
ghost use Rattle.reg_records.specs.Playing.{AreTwo, IsEventOf, NoEvent, frames_on};

use crate::hints::Hints;
use reg_frames::Frame;
use reg_front::FrontEnd;
use reg_process::Step;
use reg_world::{Event, WireStore, World};
use std::alloc::{AllocError, Allocator};

/// Whether two frames are the same.
fn is_same(frame: Frame, other: Frame) -> bool
    ensures { IsTrue result ↔ frame ≡ other }
{
    frame == other
}

/// Whether the frame stands at this place of the wire.
fn stands_at<F: FrontEnd, A: Allocator + Copy, W: WireStore<A>>(
    world: &World<F, A, W>,
    from: u8,
    to: u8,
    place: u32,
    frame: &Frame,
) -> bool
    requires going { world.now.failed ≡ false }
    requires two { AreTwo world.now from to }
    ensures { IsTrue result ↔ IsAt (frames_on F.start world.now from to) place frame.now }
{
    match world.frame_at(from, to, place) {
        Some(other) => is_same(other, *frame),
        None => false,
    }
}

/// How many frames were ever put on the wire. None where there is no such wire.
fn count_on<F: FrontEnd, A: Allocator + Copy, W: WireStore<A>>(
    world: &World<F, A, W>,
    from: u8,
    to: u8,
) -> Option<u32>
    requires { world.now.failed ≡ false }
    ensures two { MatchOption result (IsNoWire world.now from to) (λ _. AreTwo world.now from to) }
    ensures count { MatchOption result ⊤ (λ count. count ≡ length (frames_on F.start world.now from to)) }
{
    let count = world.frame_count(from, to)?;
    Some(count as u32)
}

/// The first place at which the frame stands on the wire, which has `count` frames.
fn first_place<F: FrontEnd, A: Allocator + Copy, W: WireStore<A>>(
    world: &World<F, A, W>,
    from: u8,
    to: u8,
    count: u32,
    frame: &Frame,
) -> Option<u32>
    requires going { world.now.failed ≡ false }
    requires two { AreTwo world.now from to }
    requires count { count ≡ length (frames_on F.start world.now from to) }
    ensures { MatchOption result ((k : ℕ) → IsAt (frames_on F.start world.now from to) k frame.now → ⊥)
        (λ k. IsAt (frames_on F.start world.now from to) k frame.now) }
{
    for place in 0..count {
        if stands_at(world, from, to, place, frame) {
            return Some(place);
        }
    }
    None
}

/// The event that takes the frame from the place that the hints tell. None where the hints tell none.
fn hinted_take<F: FrontEnd, A: Allocator + Copy, W: WireStore<A>>(
    hints: &mut Hints<A>,
    world: &World<F, A, W>,
    from: u8,
    to: u8,
    frame: &Frame,
) -> Result<Option<Event>, AllocError>
    requires { world.now.failed ≡ false }
    ensures { IfOk result
        (λ found. MatchOption found ⊤
        (λ event. IsEventOf (run_in F.start world.now).nodes to (Take from frame.now) event)) }
{
    if count_on(world, from, to).is_none() {
        return Ok(None);
    }
    let Some(number) = hints.guess(world, from, to, frame)? else {
        return Ok(None);
    };
    if stands_at(world, from, to, number, frame) {
        Ok(Some(Event::Take { from, to, number }))
    } else {
        Ok(None)
    }
}

/// The event that takes the frame from the first place at which it stands on its wire.
fn first_take<F: FrontEnd, A: Allocator + Copy, W: WireStore<A>>(
    world: &World<F, A, W>,
    from: u8,
    to: u8,
    frame: &Frame,
) -> Option<Event>
    requires { world.now.failed ≡ false }
    ensures { MatchOption result (NoEvent F.start world.now to (Take from frame.now))
        (λ event. IsEventOf (run_in F.start world.now).nodes to (Take from frame.now) event) }
{
    let count = count_on(world, from, to)?;
    let number = first_place(world, from, to, count, frame)?;
    Some(Event::Take { from, to, number })
}

/// An event in which the process makes this step, found without looking through a wire. Where none is found, there may
/// be one all the same.
pub fn hinted_event<F: FrontEnd, A: Allocator + Copy, W: WireStore<A>>(
    hints: &mut Hints<A>,
    world: &World<F, A, W>,
    process: u8,
    step: &Step,
) -> Result<Option<Event>, AllocError>
    requires { world.now.failed ≡ false }
    ensures { IfOk result
        (λ found. MatchOption found ⊤ (λ event. IsEventOf (run_in F.start world.now).nodes process step.now event)) }
{
    match *step {
        Step::Call { op } => Ok(Some(Event::Call { process, op })),
        Step::Tick => Ok(Some(Event::Tick { process })),
        Step::Take { from, frame } => hinted_take(hints, world, from, process, &frame),
    }
}

/// An event in which the process makes this step. A frame can be taken from any place at which it stands on its wire.
pub fn event_of<F: FrontEnd, A: Allocator + Copy, W: WireStore<A>>(
    hints: &mut Hints<A>,
    world: &World<F, A, W>,
    process: u8,
    step: &Step,
) -> Result<Option<Event>, AllocError>
    requires { world.now.failed ≡ false }
    ensures { IfOk result
        (λ found. MatchOption found (NoEvent F.start world.now process step.now)
        (λ event. IsEventOf (run_in F.start world.now).nodes process step.now event)) }
{
    if let Some(event) = hinted_event(hints, world, process, step)? {
        return Ok(Some(event));
    }
    match *step {
        Step::Call { op } => Ok(Some(Event::Call { process, op })),
        Step::Tick => Ok(Some(Event::Tick { process })),
        Step::Take { from, frame } => Ok(first_take(world, from, process, &frame)),
    }
}
