//! What an event puts goes to its wires.
ghost use Rattle.std.specs.Prelude.{ℕ, ◌≡◌, ◌≢◌, ◌<◌, ◌≤◌, [], length, map, OnOk, slice_index_or};
ghost use Rattle.reg_base.specs.Order.{In};
ghost use Rattle.reg_frames.specs.declared.puts.Put.{Put};
ghost use Rattle.reg_process.specs.Process.{resent};
ghost use Rattle.reg_process.specs.Puts.{puts, put_to};
ghost use Rattle.reg_process.specs.Sending.{owed, sent_frames, puts_of};
ghost use Rattle.reg_world.specs.Sent.{sent as sent_on, AreOn};

use crate::stores::WireStore;
use reg_base::limits::MOST_RESENT;
use reg_frames::Frame;
use reg_front::FrontEnd;
use reg_process::{Process, Sends, Sent};
use std::alloc::{AllocError, Allocator};

/// Puts the count that is owed to a process.
// (in line: it runs for each frame that is put, and does little more than a call costs)
#[inline(always)]
fn put_owed<A: Allocator + Copy, W: WireStore<A>>(
    wires: &mut W,
    to: u8,
    got: Option<(u8, u64)>,
) -> Result<(), AllocError>
    requires { owed got to ≢ [] → to < length (W.wires wires.old) }
    ensures { OnOk result (W.wires wires.new ≡ sent_on (map (put_to to) (owed got to)) (W.wires wires.old)) }
{
    match got {
        Some((peer, count)) if peer == to => wires.put(to, &Frame::Got { count }),
        _ => Ok(()),
    }
}

/// Puts the count that is owed to a process, and the body under its number.
// (in line: it runs for each frame that is put, and does little more than a call costs)
#[inline(always)]
fn put_one<A: Allocator + Copy, W: WireStore<A>>(
    wires: &mut W,
    to: u8,
    sent: &Sent,
) -> Result<(), AllocError>
    requires { sent_frames sent.now to ≢ [] → to < length (W.wires wires.old) }
    ensures { OnOk result
        (W.wires wires.new ≡ sent_on (map (put_to to) (sent_frames sent.now to)) (W.wires wires.old)) }
{
    let Sent {
        me,
        number,
        body,
        got,
    } = *sent;
    put_owed(wires, to, got)?;
    if to == me {
        return Ok(());
    }
    wires.put(to, &Frame::Numbered { number, body })
}

/// Puts a body, and the count that is owed, for all other processes.
fn put_all<A: Allocator + Copy, W: WireStore<A>>(
    wires: &mut W,
    processes: u8,
    sent: &Sent,
) -> Result<(), AllocError>
    requires { (p : Put) → In p (puts (sent_frames sent.now) processes) → p.to < length (W.wires wires.old) }
    ensures { OnOk result (W.wires wires.new ≡ sent_on (puts (sent_frames sent.now) processes) (W.wires wires.old)) }
{
    for to in 0..processes {
        put_one(wires, to, sent)?;
    }
    Ok(())
}

/// Puts the frames of an event that isn't a tick. Where memory is refused nothing is claimed of the wires.
// (in line: it runs at each event)
#[inline(always)]
pub(crate) fn put_sends<A: Allocator + Copy, W: WireStore<A>>(
    wires: &mut W,
    sends: &Sends,
) -> Result<(), AllocError>
    requires { (p : Put) → In p (puts_of sends.now) → p.to < length (W.wires wires.old) }
    ensures { OnOk result (W.wires wires.new ≡ sent_on (puts_of sends.now) (W.wires wires.old)) }
{
    match sends {
        Sends::Nothing => Ok(()),
        Sends::Count { to, count } => wires.put(*to, &Frame::Got { count: *count }),
        Sends::Broadcast { processes, sent } => put_all(wires, *processes, sent),
    }
}

/// Puts what is unacknowledged again for one process, one by one.
// (apart: packed wires need it only where a frame is kept whole, and it would take room in what runs at each tick)
#[inline(never)]
fn put_each_to<F: FrontEnd, A: Allocator + Copy, W: WireStore<A>>(
    wires: &mut W,
    to: u8,
    process: &Process<F, A>,
) -> Result<(), AllocError>
    requires { to < length (W.wires wires.old) }
    ensures { OnOk result
        (W.wires wires.new ≡ sent_on (map (put_to to) (resent process.now.state to)) (W.wires wires.old)) }
{
    for place in 0..MOST_RESENT {
        let Some(frame) = process.resend(to, place) else {
            return Ok(());
        };
        wires.put(to, &frame)?;
    }
    Ok(())
}

/// Puts what is unacknowledged again for one process, at once where the wires can.
fn put_again_to<F: FrontEnd, A: Allocator + Copy, W: WireStore<A>>(
    wires: &mut W,
    to: u8,
    process: &Process<F, A>,
) -> Result<(), AllocError>
    requires within { to < length (W.wires wires.old) }
    requires out { AreOn (slice_index_or (W.wires wires.old) to []) (resent process.now.state to) }
    ensures { OnOk result
        (W.wires wires.new ≡ sent_on (map (put_to to) (resent process.now.state to)) (W.wires wires.old)) }
{
    if process.resend(to, 0).is_none() {
        return Ok(());
    }
    if let Some(known) = process.known(to) {
        let count = (known.next - known.first).min(MOST_RESENT);
        if wires.put_again(to, known.first, count)? {
            return Ok(());
        }
    }
    put_each_to(wires, to, process)
}

/// Puts the frames of a tick. Where memory is refused nothing is claimed of the wires.
pub(crate) fn put_again<F: FrontEnd, A: Allocator + Copy, W: WireStore<A>>(
    wires: &mut W,
    process: &Process<F, A>,
) -> Result<(), AllocError>
    requires within { length process.now.state.peers ≤ length (W.wires wires.old) }
    requires out { (to : ℕ) → to < length process.now.state.peers
        → AreOn (slice_index_or (W.wires wires.old) to []) (resent process.now.state to) }
    ensures { OnOk result (W.wires wires.new
        ≡ sent_on (puts (resent process.now.state) (length process.now.state.peers)) (W.wires wires.old)) }
{
    for to in 0..process.processes() {
        put_again_to(wires, to, process)?;
    }
    Ok(())
}
