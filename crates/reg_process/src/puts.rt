//! Bodies queued for all other processes, and the frames put.
ghost use Rattle.std.specs.Prelude.{◌≡◌, ◌≢◌, ◌<◌, ◌≤◌, ◌+◌, ◌++◌, ◌∷◌, [], length, map, replicate, IfOk, OnOk, OnErr};
ghost use Rattle.std.specs.Prelude.{vec_capacity, slice_get, slice_index_or, nat_lt};
ghost use Rattle.reg_links.specs.Sending.{link_to};
ghost use Rattle.reg_base.specs.declared.limits.TheConstants.{FRAME_NUMBERS, MOST_PROCESSES};
ghost use Rattle.reg_process.specs.Parts.{nothing};
ghost use Rattle.reg_process.specs.Queued.{out_to, outs_of, IsNumbered, all_frames, queue_outs, IsGrown, HasNumbers};
ghost use Rattle.reg_process.specs.Queued.{pending_in as pending_in_all, again_at, again_frames};
ghost use Rattle.reg_process.specs.Puts.{put_to, puts};
ghost use Rattle.reg_process.specs.Sending.{owed, sent_frames, puts_of};

use crate::sends::{Sends, Sent};
use reg_base::limits::MOST_RESENT;
use reg_frames::{Body, Frame, Put};
use reg_links::{Inbox, LinkFault, Outboxes};
use std::alloc::{AllocError, Allocator};

/// Puts one frame. Memory can be refused only where the list has no room.
fn put_frame<A: Allocator + Copy>(
    frames: &mut Vec<Put, A>,
    to: u8,
    frame: Frame,
) -> Result<(), AllocError>
    ensures frames { OnOk result (frames.new.items ≡ frames.old.items ++ put_to to frame ∷ []) }
    ensures memory { OnErr result (vec_capacity frames.old ≤ length frames.old.items) }
    ensures room { vec_capacity frames.old ≤ vec_capacity frames.new }
{
    frames.push(Put { to, frame })?;
    Ok(())
}

/// Puts the count that is owed.
fn put_got<A: Allocator + Copy>(
    frames: &mut Vec<Put, A>,
    to: u8,
    got: Option<(u8, u64)>,
) -> Result<(), AllocError>
    ensures frames { OnOk result (frames.new.items ≡ frames.old.items ++ map (put_to to) (owed got to)) }
    ensures memory { OnErr result (vec_capacity frames.old < length frames.old.items + length (owed got to)) }
    ensures room { vec_capacity frames.old ≤ vec_capacity frames.new }
{
    match got {
        Some((peer, count)) if peer == to => put_frame(frames, to, Frame::Got { count }),
        _ => Ok(()),
    }
}

/// Puts the count that is owed to one process, and the body under its number.
fn put_one<A: Allocator + Copy>(
    frames: &mut Vec<Put, A>,
    to: u8,
    sent: &Sent,
) -> Result<(), AllocError>
    ensures frames { OnOk result (frames.new.items ≡ frames.old.items ++ map (put_to to) (sent_frames sent.now to)) }
    ensures memory { OnErr result
        (vec_capacity frames.old < length frames.old.items + length (sent_frames sent.now to)) }
    ensures room { vec_capacity frames.old ≤ vec_capacity frames.new }
{
    let Sent {
        me,
        number,
        body,
        got,
    } = *sent;
    put_got(frames, to, got)?;
    if to == me {
        return Ok(());
    }
    put_frame(frames, to, Frame::Numbered { number, body })
}

/// Puts a body, and the count that is owed, for all other processes, by rising number. Memory can be refused only where
/// the list has not room for all.
fn put_all<A: Allocator + Copy>(
    frames: &mut Vec<Put, A>,
    processes: u8,
    sent: &Sent,
) -> Result<(), AllocError>
    requires { frames.old.items ≡ [] }
    ensures frames { OnOk result (frames.new.items ≡ puts (sent_frames sent.now) processes) }
    ensures memory { OnErr result (vec_capacity frames.old < length (puts (sent_frames sent.now) processes)) }
{
    for r in 0..processes {
        put_one(frames, r, sent)?;
    }
    Ok(())
}

/// Puts the frames of an event, in an empty list. Memory can be refused only where the list has not room for all.
pub fn put_sends<A: Allocator + Copy>(
    frames: &mut Vec<Put, A>,
    sends: &Sends,
) -> Result<(), AllocError>
    requires { frames.old.items ≡ [] }
    ensures frames { OnOk result (frames.new.items ≡ puts_of sends.now) }
    ensures memory { OnErr result (vec_capacity frames.old < length (puts_of sends.now)) }
{
    match *sends {
        Sends::Nothing => Ok(()),
        Sends::Count { to, count } => put_frame(frames, to, Frame::Got { count }),
        Sends::Broadcast { processes, sent } => put_all(frames, processes, &sent),
    }
}

/// Queues a body for all other processes, where there are any, and gives its number.
fn queue_for_others<A: Allocator + Copy>(
    outboxes: &mut Outboxes<A>,
    me: u8,
    body: Body,
) -> Result<u64, AllocError>
    requires me { me < length outboxes.old.counts }
    requires numbers { HasNumbers (outs_of me outboxes.old) }
    ensures number { IfOk result (λ number. IsNumbered me number outboxes.old) }
    ensures queued { OnOk result (outs_of me outboxes.new ≡ queue_outs 0 me body (outs_of me outboxes.old)) }
    ensures grown { IsGrown (outs_of me outboxes.old) (outs_of me outboxes.new) }
    ensures processes { length outboxes.new.counts ≡ length outboxes.old.counts }
{
    if outboxes.processes() == 1 {
        return Ok(0);
    }
    match outboxes.queue(me, body) {
        Ok(number) => Ok(number),
        Err(LinkFault::OutOfMemory) => Err(AllocError),
        // The clock shows more than the number of bodies queued, and so it fills first.
        Err(LinkFault::NumberFull) => unreachable!(),
    }
}

/// Queues a body for all other processes, and tells what is put, in short. Where memory is refused, the body may have
/// been queued.
pub fn queue_on_all<A: Allocator + Copy>(
    outboxes: &mut Outboxes<A>,
    me: u8,
    body: Body,
    got: Option<(u8, u64)>,
    sends: &mut Sends,
) -> Result<(), AllocError>
    requires me { me < length (outs_of me outboxes.old) }
    requires few { length (outs_of me outboxes.old) ≤ MOST_PROCESSES }
    requires numbers { HasNumbers (outs_of me outboxes.old) }
    ensures frames { OnOk result (puts_of sends.new
        ≡ puts (all_frames got me body (outs_of me outboxes.old)) (length (outs_of me outboxes.old))) }
    ensures queued { OnOk result (outs_of me outboxes.new ≡ queue_outs 0 me body (outs_of me outboxes.old)) }
    ensures grown { IsGrown (outs_of me outboxes.old) (outs_of me outboxes.new) }
    ensures length { length (outs_of me outboxes.new) ≡ length (outs_of me outboxes.old) }
{
    let processes = outboxes.processes() as u8;
    let number = queue_for_others(outboxes, me, body)?;
    let sent = Sent {
        me,
        number,
        body,
        got,
    };
    *sends = Sends::Broadcast { processes, sent };
    Ok(())
}

/// The frame at this place of those that are put again for a process: at most `limits::MOST_RESENT`.
pub fn resend_at<A: Allocator + Copy>(
    outboxes: &Outboxes<A>,
    to: u8,
    me: u8,
    place: u64,
) -> Option<Frame>
    ensures { result ≡ slice_get (again_at me to (slice_index_or (outs_of me outboxes.now) to nothing)) place }
{
    if to == me || to as usize >= outboxes.processes() || place >= MOST_RESENT {
        return None;
    }
    outboxes.resend(to, place)
}

/// Puts the first pending frames for a process again.
fn resend_one<A: Allocator + Copy>(
    frames: &mut Vec<Put, A>,
    outboxes: &Outboxes<A>,
    to: u8,
    me: u8,
) -> Result<(), AllocError>
    requires { to < length outboxes.now.counts }
    ensures frames { OnOk result
        (frames.new.items ≡ frames.old.items ++ map (put_to to) (again_at me to (link_to outboxes.now to))) }
    ensures memory { OnErr result (again_at me to (link_to outboxes.now to) ≢ []) }
{
    if to == me {
        return Ok(());
    }
    for i in 0..MOST_RESENT {
        let Some(frame) = outboxes.resend(to, i) else {
            return Ok(());
        };
        put_frame(frames, to, frame)?;
    }
    Ok(())
}

/// Puts the first unacknowledged frames for all other processes again, in an empty list. It takes memory only where a
/// frame is put.
pub fn resend_all<A: Allocator + Copy>(
    frames: &mut Vec<Put, A>,
    outboxes: &Outboxes<A>,
    me: u8,
) -> Result<(), AllocError>
    requires empty { frames.old.items ≡ [] }
    requires few { length (outs_of me outboxes.now) ≤ MOST_PROCESSES }
    ensures frames { OnOk result
        (frames.new.items ≡ puts (again_frames me (outs_of me outboxes.now)) (length (outs_of me outboxes.now))) }
    ensures memory { OnErr result
        (puts (again_frames me (outs_of me outboxes.now)) (length (outs_of me outboxes.now)) ≢ []) }
{
    for r in 0..outboxes.processes() as u8 {
        resend_one(frames, outboxes, r, me)?;
    }
    Ok(())
}

/// How many bodies another process has not acknowledged.
fn pending_to<A: Allocator + Copy>(outboxes: &Outboxes<A>, to: u8, me: u8) -> u64
    requires { to < length outboxes.now.counts }
    ensures value { result ≡ length (out_to me outboxes.now to).pending }
    ensures in_range { result ≤ FRAME_NUMBERS }
{
    if to == me {
        return 0;
    }
    outboxes.pending(to)
}

/// How many bodies the other processes have not acknowledged, over all links.
pub fn pending_in<A: Allocator + Copy>(outboxes: &Outboxes<A>, me: u8) -> u64
    requires { length (outs_of me outboxes.now) ≤ MOST_PROCESSES }
    ensures { result ≡ pending_in_all (outs_of me outboxes.now) }
{
    let mut total = 0;
    for r in 0..outboxes.processes() as u8 {
        total += pending_to(outboxes, r, me);
    }
    total
}

/// Whether some other process has not acknowledged some body. It looks no further than the first.
pub fn is_pending_in<A: Allocator + Copy>(outboxes: &Outboxes<A>, me: u8) -> bool
    requires { length (outs_of me outboxes.now) ≤ MOST_PROCESSES }
    ensures { result ≡ nat_lt 0 (pending_in_all (outs_of me outboxes.now)) }
{
    for r in 0..outboxes.processes() as u8 {
        if pending_to(outboxes, r, me) > 0 {
            return true;
        }
    }
    false
}

/// As many inboxes as `count` says, each of which expects number 0.
pub fn new_inboxes<A: Allocator + Copy>(alloc: A, count: u32) -> Result<Vec<Inbox, A>, AllocError>
    ensures { IfOk result (λ v. v.items ≡ replicate count 0) }
{
    let mut all = Vec::with_capacity(alloc, count as usize)?;
    for _i in 0..count {
        all.push_reserved(Inbox::new());
    }
    Ok(all)
}

/// Outboxes to `count` processes, the own one among them, with nothing queued.
pub fn new_outboxes<A: Allocator + Copy>(
    alloc: A,
    me: u8,
    count: u32,
) -> Result<Outboxes<A>, AllocError>
    ensures { IfOk result (λ s. outs_of me s ≡ replicate count nothing) }
{
    Outboxes::new(alloc, count)
}
