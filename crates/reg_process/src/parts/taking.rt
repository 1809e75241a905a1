//! The frames that a process takes.
ghost use Rattle.std.specs.Prelude.{◌≡◌, ◌<◌, ◌+◌, [], length, MatchResult, IfOk, OnOk, OnErr, IfErr, max, not, nat_le};
ghost use Rattle.std.specs.Prelude.{nat_lt, slice_index, slice_set, Some, None, false, true, IsErrOf, if◌then◌else◌};
ghost use Rattle.std.specs.Prelude.{vec_capacity};
ghost use Rattle.reg_base.specs.Memory.{after, register_of};
ghost use Rattle.reg_process.specs.Process.{peer_at, seen_at, next_of, acknowledged, accepted, taken, time_of};
ghost use Rattle.reg_process.specs.Steps.{Stops, StopsAt, is_peer as is_peer_of, FrameRefused, Goes, TakesCast};
ghost use Rattle.reg_process.specs.Steps.{TakesAck, TakesBody};
ghost use Rattle.reg_process.specs.Faults.{early_body, full_by, is_out as is_out_of, frame_fault, takes_memory};
ghost use Rattle.reg_process.specs.Faults.{body_memory};
ghost use Rattle.reg_process.specs.Sending.{puts_of};
ghost use Rattle.reg_frames.specs.declared.bodies.Body.TheVariants.{Cast, Ack};
ghost use Rattle.reg_frames.specs.declared.bodies.Frame.TheVariants.{Numbered, Got};
ghost use Rattle.reg_base.specs.declared.limits.TheConstants.{LAST_TIME, FRAME_NUMBERS};
ghost use Rattle.reg_holdback.specs.Waiting.{receive_fault, received};

use super::Core;
use crate::faults::ProcessFault;
use crate::outcomes::Brief;
use crate::puts::queue_on_all;
use crate::sends::Sends;
use reg_base::{Op, Stamp};
use reg_frames::{Body, Frame};
use reg_holdback::{HoldFault, Holdback};
use reg_links::Inbox;
use std::alloc::{AllocError, Allocator};

/// The time of a body.
fn body_time(body: &Body) -> u64
    ensures { result ≡ time_of body.now }
{
    match *body {
        Body::Cast { time, op: _ } => time,
        Body::Ack { time } => time,
    }
}

/// Accepts the body that is expected.
fn expect_next<A: Allocator + Copy>(inboxes: &mut Vec<Inbox, A>, from: u8, body: Body)
    requires within { from < length inboxes.old.items }
    requires room { slice_index inboxes.old.items from < FRAME_NUMBERS }
    ensures { inboxes.new.items ≡ slice_set inboxes.old.items from (slice_index inboxes.old.items from + 1) }
{
    let inbox = &mut inboxes[from as usize];
    let number = inbox.expected();
    inbox.take(number, body);
}

/// Holds the cast of an expected body.
fn hold_cast<A: Allocator + Copy>(
    waiting: &mut Holdback<A>,
    stamp: Stamp,
    op: Op,
) -> Result<(), AllocError>
    requires { receive_fault waiting.old stamp ≡ None }
    ensures held { OnOk result (waiting.new ≡ received waiting.old stamp (Some op)) }
    ensures unchanged { OnErr result (waiting.new ≡ waiting.old) }
{
    match waiting.receive(stamp, Some(op)) {
        Ok(()) => Ok(()),
        Err(HoldFault::OutOfMemory) => Err(AllocError),
        Err(HoldFault::NoProcess) => unreachable!(),
        Err(HoldFault::Stale) => unreachable!(),
    }
}

/// Takes in the time of an expected body without a cast.
fn hear<A: Allocator + Copy>(waiting: &mut Holdback<A>, stamp: Stamp)
    requires { receive_fault waiting.old stamp ≡ None }
    ensures { waiting.new ≡ received waiting.old stamp None }
{
    match waiting.receive(stamp, None) {
        Ok(()) => (),
        Err(_) => unreachable!(),
    }
}

impl<A: Allocator + Copy> Core<A> {
    /// Whether there is another process of this number.
    pub(crate) fn is_peer(&self, from: u8) -> bool
        ensures { result ≡ is_peer_of self.now from }
    {
        (from as usize) < self.inboxes.len() && from != self.me
    }

    /// The number expected from a process.
    pub(super) fn expected(&self, from: u8) -> u64
        requires { from < length self.now.peers }
        ensures { result ≡ (peer_at self.now from).expected }
    {
        self.inboxes[from as usize].expected()
    }

    /// Takes a frame.
    // (in line: it runs at each take, and a frame handed on by a call would be copied once more)
    #[inline(always)]
    pub(crate) fn take_frame(
        &mut self,
        from: u8,
        frame: &Frame,
        brief: &mut Brief<A>,
    ) -> Result<(), ProcessFault>
        requires peer { from < length self.old.peers }
        requires other { from ≡ self.old.me → ⊥ }
        ensures goes { OnOk result
            (Goes (length self.old.peers) (taken self.old from frame.now) (puts_of brief.new.sends)
            brief.new.effect.cast brief.new.effect.delivered.items brief.new.effect.reply self.new) }
        ensures room { OnOk result (frame_fault self.old from frame.now ≡ None) }
        ensures fault { IfErr result
            (λ fault. FrameRefused (frame_fault self.old from frame.now) self.old fault self.new) }
        ensures memory { IsErrOf result ProcessFault.OutOfMemory → takes_memory self.old 1 from frame.now ≡ true }
    {
        match *frame {
            Frame::Numbered { number, body } => self.take_body(from, number, body, brief),
            Frame::Got { count } => self.take_got(from, count, brief),
        }
    }

    /// Takes a count.
    fn take_got(&mut self, from: u8, count: u64, brief: &mut Brief<A>) -> Result<(), ProcessFault>
        requires peer { from < length self.old.peers }
        requires other { from ≡ self.old.me → ⊥ }
        ensures goes { OnOk result
            (Goes (length self.old.peers) (taken self.old from (Got count)) (puts_of brief.new.sends)
            brief.new.effect.cast brief.new.effect.delivered.items brief.new.effect.reply self.new) }
        ensures room { OnOk result (frame_fault self.old from (Got count) ≡ None) }
        ensures fault { IfErr result
            (λ fault. FrameRefused (frame_fault self.old from (Got count)) self.old fault self.new) }
        ensures ahead { IfErr result (λ fault. fault ≡ ProcessFault.Ahead) }
    {
        if !self.acknowledge(from, count) {
            return Err(ProcessFault::Ahead);
        }
        brief.say(Sends::Nothing, None);
        Ok(())
    }

    /// Drops what a process has accepted. False where the count is above what was queued.
    fn acknowledge(&mut self, from: u8, count: u64) -> bool
        requires peer { from < length self.old.peers }
        requires other { from ≡ self.old.me → ⊥ }
        ensures answer { result ≡ not (nat_lt (next_of (peer_at self.old from)) count) }
        ensures after { self.new ≡ (if result then acknowledged self.old from count else self.old) }
    {
        self.outboxes.got(from, count).is_ok()
    }

    /// Takes a data frame.
    // (in line: it runs at each take, and a frame handed on by a call would be copied once more)
    #[inline(always)]
    fn take_body(
        &mut self,
        from: u8,
        number: u64,
        body: Body,
        brief: &mut Brief<A>,
    ) -> Result<(), ProcessFault>
        requires peer { from < length self.old.peers }
        requires other { from ≡ self.old.me → ⊥ }
        ensures goes { OnOk result
            (Goes (length self.old.peers) (taken self.old from (Numbered number body)) (puts_of brief.new.sends)
            brief.new.effect.cast brief.new.effect.delivered.items brief.new.effect.reply self.new) }
        ensures room { OnOk result (frame_fault self.old from (Numbered number body) ≡ None) }
        ensures fault { IfErr result
            (λ fault. FrameRefused (frame_fault self.old from (Numbered number body)) self.old fault self.new) }
        ensures memory { IsErrOf result ProcessFault.OutOfMemory
            → takes_memory self.old 1 from (Numbered number body) ≡ true }
    {
        let expected = self.expected(from);
        if number != expected {
            let to = from;
            let count = expected;
            brief.say(Sends::Count { to, count }, None);
            return Ok(());
        }
        if let Some(fault) = self.refuses_body(from, &body) {
            return Err(fault);
        }
        self.accept(from, &body, brief)
    }

    /// Whether a body's cast names no register.
    fn is_out(&self, body: &Body) -> bool
        ensures { result ≡ is_out_of self.now body.now }
    {
        match *body {
            Body::Cast { time: _, op } => op.register() as usize >= self.copy.count(),
            Body::Ack { time: _ } => false,
        }
    }

    /// Why an expected body is refused, a full clock aside.
    // (in line: it is a few tests, and a body would be copied for a call)
    #[inline(always)]
    fn refuses_body(&self, from: u8, body: &Body) -> Option<ProcessFault>
        requires peer { from < length self.now.peers }
        requires other { from ≡ self.now.me → ⊥ }
        ensures { result ≡ early_body self.now from body.now }
    {
        if self.is_out(body) {
            return Some(ProcessFault::NoRegister);
        }
        let time = body_time(body);
        let Some(seen) = self.waiting.seen(from) else {
            return Some(ProcessFault::NoProcess);
        };
        if time <= seen {
            return Some(ProcessFault::Stale);
        }
        None
    }

    /// Accepts an expected body, and delivers what is clear.
    fn accept(&mut self, from: u8, body: &Body, brief: &mut Brief<A>) -> Result<(), ProcessFault>
        requires peer { from < length self.old.peers }
        requires other { from ≡ self.old.me → ⊥ }
        requires early { early_body self.old from body.now ≡ None }
        ensures goes { OnOk result
            (Goes (length self.old.peers) (accepted self.old from body.now) (puts_of brief.new.sends)
            brief.new.effect.cast brief.new.effect.delivered.items brief.new.effect.reply self.new) }
        ensures room { OnOk result (full_by self.old body.now ≡ None) }
        ensures fault { IfErr result (λ fault. StopsAt (full_by self.old body.now) fault) }
        ensures memory { IsErrOf result ProcessFault.OutOfMemory → body_memory self.old 1 from body.now ≡ true }
    {
        self.accept_body(from, body, &mut brief.sends)?;
        self.finish(None, &mut brief.effect)
    }

    /// Accepts an expected body, and tells what is put.
    fn accept_body(&mut self, from: u8, body: &Body, sends: &mut Sends) -> Result<(), ProcessFault>
        requires peer { from < length self.old.peers }
        requires other { from ≡ self.old.me → ⊥ }
        requires early { early_body self.old from body.now ≡ None }
        ensures taken { MatchResult result (λ _. TakesBody self.old from body.now (puts_of sends.new) self.new)
            (λ fault. StopsAt (full_by self.old body.now) fault) }
        ensures memory { IsErrOf result ProcessFault.OutOfMemory → body_memory self.old 1 from body.now ≡ true }
    {
        match *body {
            Body::Cast { time, op } => self.accept_cast(from, time, op, sends),
            Body::Ack { time } => self.accept_ack(from, time, sends),
        }
    }

    /// Takes in a cast of another process, and acknowledges it to all.
    fn accept_cast(
        &mut self,
        from: u8,
        time: u64,
        op: Op,
        sends: &mut Sends,
    ) -> Result<(), ProcessFault>
        requires peer { from < length self.old.peers }
        requires other { from ≡ self.old.me → ⊥ }
        requires register { register_of op < length self.old.copy }
        requires fresh { seen_at self.old from < time }
        ensures { MatchResult result (λ _. TakesCast self.old from time op (puts_of sends.new) self.new)
            (λ fault. Stops (nat_le LAST_TIME (max self.old.clock time)) fault) }
    {
        let Ok(now) = self.clock.receive(time) else {
            return Err(ProcessFault::ClockFull);
        };
        let count = self.inboxes[from as usize].expected() + 1;
        let ack = Body::Ack { time: now };
        let got = Some((from, count));
        let Ok(()) = queue_on_all(&mut self.outboxes, self.me, ack, got, sends) else {
            return Err(ProcessFault::OutOfMemory);
        };
        let stamp = Stamp {
            time,
            process: from,
        };
        let Ok(()) = hold_cast(&mut self.waiting, stamp, op) else {
            return Err(ProcessFault::OutOfMemory);
        };
        expect_next(&mut self.inboxes, from, Body::Cast { time, op });
        Ok(())
    }

    /// Takes in an acknowledgement of another process. It takes no memory.
    fn accept_ack(&mut self, from: u8, time: u64, sends: &mut Sends) -> Result<(), ProcessFault>
        requires peer { from < length self.old.peers }
        requires other { from ≡ self.old.me → ⊥ }
        requires fresh { seen_at self.old from < time }
        ensures taken { MatchResult result (λ _. TakesAck self.old from time (puts_of sends.new) self.new)
            (λ fault. Stops (nat_le LAST_TIME (max self.old.clock time)) fault) }
        ensures memory { IfErr result (λ fault. fault ≡ ProcessFault.ClockFull) }
    {
        let Ok(_) = self.clock.receive(time) else {
            return Err(ProcessFault::ClockFull);
        };
        let count = self.inboxes[from as usize].expected() + 1;
        let stamp = Stamp {
            time,
            process: from,
        };
        hear(&mut self.waiting, stamp);
        expect_next(&mut self.inboxes, from, Body::Ack { time });
        *sends = Sends::Count { to: from, count };
        Ok(())
    }
}
