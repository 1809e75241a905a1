//! The parts of a process that has not failed.
ghost use Rattle.std.specs.Prelude.{◌≡◌, ◌≢◌, ℕ, ◌<◌, ◌+◌, ◌≤◌, length, IfOk, OnErr, [], not, None, is_some, nat_lt};
ghost use Rattle.std.specs.Prelude.{slice_get};
ghost use Rattle.reg_process.specs.Process.{pending_of, peer_at, next_of, unsettled, resent};
ghost use Rattle.reg_process.specs.Parts.{state_of, first_parts};
ghost use Rattle.reg_process.specs.Puts.{puts};
ghost use Rattle.reg_base.specs.declared.limits.TheConstants.{MOST_PROCESSES};

use crate::outcomes::Brief;
use crate::puts::{is_pending_in, new_inboxes, new_outboxes, pending_in, resend_all, resend_at};
use crate::running::Current;
use crate::spare::Spare;
use reg_base::{Clock, Registers, Shape};
use reg_frames::{Frame, Put};
use reg_holdback::Holdback;
use reg_links::{Inbox, Outboxes};
use std::alloc::{AllocError, Allocator};
use std::marker::Model;

mod calling;
mod delivering;
mod looking;
mod taking;

/// A process that has not failed.
#[derive(Drop)]
pub(crate) struct Core<A: Allocator + Copy> {
    alloc: A,
    me: u8,
    clock: Clock,
    waiting: Holdback<A>,
    inboxes: Vec<Inbox, A>,
    outboxes: Outboxes<A>,
    copy: Registers<A>,
    delivered: u64,
    unsettled: u32,
    running: Option<Current>,
    calls: u32,
}

impl<A: Allocator + Copy> Model for Core<A> {
    ghost use Rattle.reg_process.specs.Process.{State};
    ghost use Rattle.reg_process.specs.Parts.{state_of};
    ghost use Rattle.reg_process.specs.Bounds.{Good};
    ghost use Rattle.reg_process.specs.Queued.{outs_of};

    ghost Value = { State };

    ghost view = { λ c. state_of
        (record {
          me = c.me;
          clock = c.clock;
          waiting = c.waiting;
          expected = c.inboxes.items;
          outs = outs_of c.me c.outboxes;
          copy = c.copy;
          delivered = c.delivered;
          unsettled = c.unsettled;
          running = c.running;
          calls = c.calls;
        }) };

    ghost invariant = { λ c. Good
        (record {
          me = c.me;
          clock = c.clock;
          waiting = c.waiting;
          expected = c.inboxes.items;
          outs = outs_of c.me c.outboxes;
          copy = c.copy;
          delivered = c.delivered;
          unsettled = c.unsettled;
          running = c.running;
          calls = c.calls;
        }) };
}

impl<A: Allocator + Copy> Core<A> {
    /// A process that did nothing yet.
    pub(crate) fn new(alloc: A, me: u8, shape: Shape) -> Result<Core<A>, AllocError>
        requires { me < shape.processes }
        ensures { IfOk result (λ c. c ≡ state_of (first_parts me shape.processes shape.registers)) }
    {
        let processes = shape.processes();
        let registers = shape.registers();
        let waiting = Holdback::new(alloc, me, shape)?;
        let inboxes = new_inboxes(alloc, processes)?;
        let outboxes = new_outboxes(alloc, me, processes)?;
        let copy = Registers::new(alloc, registers as u16)?;
        let clock = Clock::new();
        Ok(Core {
            alloc,
            me,
            clock,
            waiting,
            inboxes,
            outboxes,
            copy,
            delivered: 0,
            unsettled: 0,
            running: None,
            calls: 0,
        })
    }

    /// The number of own casts that are on their way.
    pub(crate) fn unsettled(&self) -> u32
        ensures { result ≡ unsettled self.now }
    {
        self.unsettled
    }

    /// The count of delivered casts.
    pub(crate) fn delivered_count(&self) -> u64
        ensures { result ≡ self.now.delivered }
    {
        self.delivered
    }

    /// Whether an operation runs.
    pub(crate) fn busy(&self) -> bool
        ensures { result ≡ is_some self.now.running }
    {
        self.running.is_some()
    }

    /// The time now.
    pub(crate) fn clock(&self) -> u64
        ensures value { result ≡ self.now.clock }
        ensures numbers { (r : ℕ) → next_of (peer_at self.now r) ≤ result }
    {
        self.clock.now()
    }

    /// The copy of the registers.
    pub(crate) fn registers(&self) -> &Registers<A>
        ensures { result.now ≡ self.now.copy }
    {
        &self.copy
    }

    /// How many bodies are not acknowledged, over all links.
    pub(crate) fn pending(&self) -> u64
        ensures { result ≡ pending_of self.now.peers }
    {
        pending_in(&self.outboxes, self.me)
    }

    /// Whether some body is not acknowledged.
    pub(crate) fn is_pending(&self) -> bool
        ensures { result ≡ nat_lt 0 (pending_of self.now.peers) }
    {
        is_pending_in(&self.outboxes, self.me)
    }

    /// Puts what is pending again. Memory can be refused only where a frame is put.
    pub(crate) fn tick(&self, spare: &mut Spare<A>) -> Result<Vec<Put, A>, AllocError>
        ensures frames { IfOk result (λ v. v.items ≡ puts (resent self.now) (length self.now.peers)) }
        ensures memory { OnErr result (puts (resent self.now) (length self.now.peers) ≢ []) }
        ensures list { spare.new ≡ spare.old }
    {
        let mut frames = spare.take_for_tick(self.alloc);
        resend_all(&mut frames, &self.outboxes, self.me)?;
        Ok(frames)
    }

    /// How many processes there are.
    pub(crate) fn processes(&self) -> u8
        ensures value { result ≡ length self.now.peers }
        ensures few { result ≤ MOST_PROCESSES }
    {
        self.inboxes.len() as u8
    }

    /// The frame at this place of those that a tick puts again for a process.
    pub(crate) fn resend(&self, to: u8, place: u64) -> Option<Frame>
        ensures { result ≡ slice_get (resent self.now to) place }
    {
        resend_at(&self.outboxes, to, self.me, place)
    }

    /// What goes out of an event, while nothing does.
    pub(crate) fn nothing(&self) -> Brief<A>
        ensures made { result.effect.cast ≡ None }
        ensures casts { result.effect.delivered.items ≡ [] }
        ensures answer { result.effect.reply ≡ None }
    {
        Brief::new(self.alloc)
    }
}
