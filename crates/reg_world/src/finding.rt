//! Which process makes which step in an event.
ghost use Rattle.std.specs.Prelude.{◌≡◌, slice_get};
ghost use Rattle.reg_world.specs.WorldParts.{call_refusal as call_refusal_of, wire_in, frame_or, frame_in, call_or};
ghost use Rattle.reg_world.specs.WorldParts.{take_or, found_step as found_step_of, found as found_of};

use crate::books::Book;
use crate::callers::Caller;
use crate::events::EventStore;
use crate::faults::WorldFault;
use crate::members::Member;
use crate::stores::WireStore;
use reg_base::Op;
use reg_base::limits::{MOST_EVENTS, MOST_OPERATIONS};
use reg_frames::Frame;
use reg_front::FrontEnd;
use reg_process::{Event, Step};
use std::alloc::Allocator;

/// Why a call is refused.
fn call_refusal<A: Allocator + Copy>(
    callers: &[Caller<A>],
    registers: u32,
    process: u8,
    op: &Op,
) -> Option<WorldFault>
    ensures { result ≡ call_refusal_of callers.now registers process op.now }
{
    if usize::from(process) >= callers.len() {
        return Some(WorldFault::NoProcess);
    }
    let caller = &callers[usize::from(process)];
    if caller.runs() {
        return Some(WorldFault::Busy);
    }
    if u32::from(op.register()) >= registers {
        return Some(WorldFault::NoRegister);
    }
    if caller.calls() >= MOST_OPERATIONS {
        return Some(WorldFault::TooManyOperations);
    }
    None
}

/// The frame at this place, from 0, of all frames ever put from one process to another.
// (in line: it runs at each event, and a step handed back by a call would be copied once more)
#[inline(always)]
fn frame_from<F: FrontEnd, A: Allocator + Copy, W: WireStore<A>>(
    members: &[Member<F, A, W>],
    from: u8,
    to: u8,
    number: u32,
) -> Option<Frame>
    ensures { result ≡ slice_get (wire_in (slice_get members.now from) to) number }
{
    match members.get(usize::from(from)) {
        Some(member) => member.frame_at(to, number),
        None => None,
    }
}

/// A frame that is there.
fn frame_or_fault(frame: Option<Frame>) -> Result<Frame, WorldFault>
    ensures { result ≡ frame_or frame }
{
    match frame {
        Some(frame) => Ok(frame),
        None => Err(WorldFault::NoFrame),
    }
}

/// The frame at this place of a wire, from 0.
fn frame_at<F: FrontEnd, A: Allocator + Copy, W: WireStore<A>>(
    members: &[Member<F, A, W>],
    from: u8,
    to: u8,
    number: u32,
) -> Result<Frame, WorldFault>
    ensures { result ≡ frame_in members.now from to number }
{
    let count = members.len();
    if usize::from(from) >= count {
        return Err(WorldFault::NoProcess);
    }
    if usize::from(to) >= count {
        return Err(WorldFault::NoProcess);
    }
    if from == to {
        return Err(WorldFault::NoFrame);
    }
    frame_or_fault(frame_from(members, from, to, number))
}

/// The step of a call, unless it is refused.
fn call_step(refusal: Option<WorldFault>, process: u8, op: Op) -> Result<(u8, Step), WorldFault>
    ensures { result ≡ call_or refusal process op }
{
    match refusal {
        Some(fault) => Err(fault),
        None => Ok((process, Step::Call { op })),
    }
}

/// The step of a take, where there is a frame.
fn take_step(frame: Result<Frame, WorldFault>, from: u8, to: u8) -> Result<(u8, Step), WorldFault>
    ensures { result ≡ take_or frame from to }
{
    let frame = frame?;
    Ok((to, Step::Take { from, frame }))
}

/// The step that an event makes, or the first fault that applies, where the event isn't one too many.
// (in line: it runs at each event, and a step handed back by a call would be copied once more)
#[inline(always)]
fn found_step<F: FrontEnd, A: Allocator + Copy, W: WireStore<A>>(
    members: &[Member<F, A, W>],
    book: &Book<A, W::Events>,
    event: &Event,
) -> Result<(u8, Step), WorldFault>
    ensures { result ≡ found_step_of members.now book.now event.now }
{
    match *event {
        Event::Call { process, op } => {
            let registers = book.history().shape().registers();
            call_step(
                call_refusal(book.callers(), registers, process, &op),
                process,
                op,
            )
        }
        Event::Take { from, to, number } => take_step(
            frame_at(members, from, to, number),
            from,
            to,
        ),
        Event::Tick { process } => {
            if usize::from(process) < members.len() {
                Ok((process, Step::Tick))
            } else {
                Err(WorldFault::NoProcess)
            }
        }
    }
}

/// Which process makes which step in the event, or the first fault that applies.
// (in line: it runs at each event, and a step handed back by a call would be copied once more)
#[inline(always)]
pub(crate) fn found<F: FrontEnd, A: Allocator + Copy, W: WireStore<A>>(
    members: &[Member<F, A, W>],
    book: &Book<A, W::Events>,
    event: &Event,
) -> Result<(u8, Step), WorldFault>
    ensures { result ≡ found_of members.now book.now event.now }
{
    if book.accepted().len() >= MOST_EVENTS as usize {
        return Err(WorldFault::TooManyEvents);
    }
    found_step(members, book, event)
}
