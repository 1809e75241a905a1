//! The sending end of a link.
ghost use Rattle.std.specs.Prelude.{◌≡◌, ◌+◌, ◌≤◌, [], length, Some, None, Ok, MatchResult, OkIff, SomeIff, slice_get};
ghost use Rattle.std.specs.Prelude.{is_ok, if◌then◌else◌, option_map};
ghost use Rattle.reg_links.specs.Link.{next_of, with_queued, acknowledged, queue_fault, refusal_of};
ghost use Rattle.reg_frames.specs.declared.bodies.Frame.TheVariants.{Numbered};

use reg_base::limits::FRAME_NUMBERS;
use reg_frames::{Body, Frame};
use std::alloc::{Allocator, Global};
use std::collections::VecDeque;
use std::marker::Model;
use thiserror::Error;

/// Why a body is not queued: the first of these that applies.
#[derive(Clone, Copy, Debug, PartialEq, Eq, Error)]
pub enum LinkFault {
    /// All `limits::FRAME_NUMBERS` numbers are used up.
    #[error("number full")]
    NumberFull,
    /// Memory was refused.
    #[error("out of memory")]
    OutOfMemory,
}

/// A count is above the number of the next body: more was acknowledged than was queued.
#[derive(Clone, Copy, Debug, PartialEq, Eq, Error)]
#[error("ahead")]
pub struct Ahead;

/// The bodies queued for another process that it has not yet acknowledged, with their numbers.
#[derive(Drop)]
pub struct Outbox<A: Allocator + Copy = Global> {
    first: u64,
    bodies: VecDeque<Body, A>,
}

impl<A: Allocator + Copy> Model for Outbox<A> {
    ghost use Rattle.reg_links.specs.Link.{Unacknowledged};
    ghost use Rattle.reg_links.specs.Bounds.{InRange};

    ghost Value = { Unacknowledged };

    ghost view = { λ o. record { first = o.first; pending = o.bodies.items } };

    ghost invariant = { λ o. InRange (record { first = o.first; pending = o.bodies.items }) };
}

impl<A: Allocator + Copy> Outbox<A> {
    /// An outbox to which nothing was queued.
    pub fn new(alloc: A) -> Outbox<A>
        ensures { result ≡ record { first = 0; pending = [] } }
    {
        Outbox {
            first: 0,
            bodies: VecDeque::new(alloc),
        }
    }

    /// An outbox with nothing pending and the given next number. None exactly where that is above
    /// `limits::FRAME_NUMBERS`.
    pub fn starting(alloc: A, next: u64) -> Option<Outbox<A>>
        ensures { SomeIff result (next ≤ FRAME_NUMBERS) (record { first = next; pending = [] }) }
    {
        if next > FRAME_NUMBERS {
            return None;
        }
        Some(Outbox {
            first: next,
            bodies: VecDeque::new(alloc),
        })
    }

    /// Queues a body under the next number, and gives its frame. `NumberFull` comes exactly where no number is left.
    /// After a refusal nothing has changed.
    pub fn queue(&mut self, body: Body) -> Result<Frame, LinkFault>
        ensures { MatchResult result
            (λ frame. (queue_fault self.old ≡ None) × (frame ≡ Numbered (next_of self.old) body)
            × (self.new ≡ with_queued self.old body))
            (λ fault. (queue_fault self.old ≡ refusal_of fault) × (self.new ≡ self.old)) }
    {
        let number = self.first + self.bodies.len() as u64;
        if number == FRAME_NUMBERS {
            return Err(LinkFault::NumberFull);
        }
        match self.bodies.push_back(body) {
            Ok(()) => Ok(Frame::Numbered { number, body }),
            Err(_) => Err(LinkFault::OutOfMemory),
        }
    }

    /// Drops the bodies below a count of accepted frames. A count not above an earlier one changes nothing. `Ahead`
    /// comes exactly for a count above the number of the next body, and nothing has changed then.
    pub fn got(&mut self, count: u64) -> Result<(), Ahead>
        ensures answer { OkIff result (count ≤ next_of self.old) tt }
        ensures after { self.new ≡ (if is_ok result then acknowledged self.old count else self.old) }
    {
        if count > self.first + self.bodies.len() as u64 {
            return Err(Ahead);
        }
        while self.first < count {
            self.bodies.pop_front();
            self.first += 1;
        }
        Ok(())
    }

    /// How many bodies are not acknowledged.
    pub fn pending(&self) -> u64
        ensures value { result ≡ length self.now.pending }
        ensures in_range { result ≤ FRAME_NUMBERS }
    {
        self.bodies.len() as u64
    }

    /// The frame of the i-th body that is not acknowledged, from 0. None past the last.
    pub fn resend(&self, i: u64) -> Option<Frame>
        ensures { result ≡ option_map (λ body. Numbered (self.now.first + i) body) (slice_get self.now.pending i) }
    {
        let body = *self.bodies.get(i as usize)?;
        let number = self.first + i;
        Some(Frame::Numbered { number, body })
    }
}
