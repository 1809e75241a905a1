//! The sending ends of all links of one process.
ghost use Rattle.std.specs.Prelude.{◌≡◌, ℕ, ◌+◌, ◌-◌, ◌<◌, ◌≤◌, [], length, drop, replicate, None, IfOk, OnOk, OnErr};
ghost use Rattle.std.specs.Prelude.{OkIff, MatchResult, slice_get, option_map};
ghost use Rattle.reg_links.specs.Link.{next_of, refusal_of};
ghost use Rattle.reg_links.specs.Sending.{next_all, link_to, full_fault, IsQueued, IsCounted};
ghost use Rattle.reg_links.specs.Bounds.{least_from};
ghost use Rattle.reg_frames.specs.declared.bodies.Frame.TheVariants.{Numbered};
ghost use Rattle.reg_base.specs.declared.limits.TheConstants.{FRAME_NUMBERS};

use crate::outboxes::{Ahead, LinkFault};
use reg_base::limits::FRAME_NUMBERS;
use reg_frames::{Body, Frame};
use std::alloc::{AllocError, Allocator, Global};
use std::collections::VecDeque;
use std::marker::Model;

/// The sending ends of all links of one process, which queue the same bodies. Each body is kept once, until every
/// process has acknowledged it. Each link does as an `Outbox` does.
#[derive(Drop)]
pub struct Outboxes<A: Allocator + Copy = Global> {
    first: u64,
    bodies: VecDeque<Body, A>,
    counts: Vec<u64, A>,
    /// A process that was last found to have the least count. It is looked at first, and relied on for nothing.
    slowest: usize,
}

impl<A: Allocator + Copy> Model for Outboxes<A> {
    ghost use Rattle.reg_links.specs.Sending.{Sending};
    ghost use Rattle.reg_links.specs.Bounds.{InStep};

    ghost Value = { Sending };

    ghost view = { λ o. record { first = o.first; bodies = o.bodies.items; counts = o.counts.items } };

    ghost invariant = { λ o. InStep (record { first = o.first; bodies = o.bodies.items; counts = o.counts.items }) };
}

/// The least of the counts and of the number of the next body.
fn least(next: u64, counts: &[u64]) -> u64
    ensures { result ≡ least_from next counts.now }
{
    let mut least = next;
    for count in counts {
        if *count < least {
            least = *count;
        }
    }
    least
}

/// The least of the counts, which are all at least the bound. Where the slowest process still has this bound, nothing
/// is searched.
// (the slowest is the last of those with the least: where processes acknowledge a body by rising number, it is searched
// for once, and not at each of them)
fn least_again(next: u64, counts: &[u64], bound: u64, slowest: &mut usize) -> u64
    requires { bound ≤ least_from next counts.now }
    ensures { result ≡ least_from next counts.now }
{
    if *slowest < counts.len() && counts[*slowest] == bound {
        return bound;
    }
    let least = least(next, counts);
    let place = counts.iter().rposition(|count| *count == least);
    *slowest = place.unwrap_or(0);
    least
}

/// Drops `count` bodies from the front.
fn forget<A: Allocator + Copy>(bodies: &mut VecDeque<Body, A>, count: u64)
    ensures { bodies.new.items ≡ drop count bodies.old.items }
{
    for _i in 0..count {
        bodies.pop_front();
    }
}

/// The counts of processes that have acknowledged nothing.
fn no_counts<A: Allocator + Copy>(alloc: A, processes: u32) -> Result<Vec<u64, A>, AllocError>
    ensures { IfOk result (λ v. v.items ≡ replicate processes 0) }
{
    let mut counts = Vec::with_capacity(alloc, processes as usize)?;
    for _i in 0..processes {
        counts.push(0)?;
    }
    Ok(counts)
}

impl<A: Allocator + Copy> Outboxes<A> {
    /// Links to the given number of processes, the own one among them. Nothing was queued.
    pub fn new(alloc: A, processes: u32) -> Result<Outboxes<A>, AllocError>
        ensures { IfOk result (λ s. s ≡ record { first = 0; bodies = []; counts = replicate processes 0 }) }
    {
        let counts = no_counts(alloc, processes)?;
        Ok(Outboxes {
            first: 0,
            bodies: VecDeque::new(alloc),
            counts,
            slowest: 0,
        })
    }

    /// The number of processes, the own one among them.
    pub fn processes(&self) -> usize
        ensures { result ≡ length self.now.counts }
    {
        self.counts.len()
    }

    /// The number of the next body, which is the same on every link.
    pub fn next(&self) -> u64
        ensures value { result ≡ next_all self.now }
        ensures links { (r : ℕ) → r < length self.now.counts → next_of (link_to self.now r) ≡ result }
        ensures in_range { result ≤ FRAME_NUMBERS }
    {
        self.first + self.bodies.len() as u64
    }

    /// Queues a body for every process but the own one, and gives its number. `NumberFull` comes exactly where no
    /// number is left. After a refusal nothing has changed.
    pub fn queue(&mut self, me: u8, body: Body) -> Result<u64, LinkFault>
        requires { me < length self.old.counts }
        ensures answer { MatchResult result
            (λ number. (full_fault self.old ≡ None) × IsQueued self.old me body number self.new)
            (λ fault. (full_fault self.old ≡ refusal_of fault) × (self.new ≡ self.old)) }
        ensures links { (r : ℕ) → r < length self.old.counts → next_of (link_to self.old r) ≡ next_all self.old }
        ensures processes { length self.new.counts ≡ length self.old.counts }
    {
        let number = self.next();
        if number == FRAME_NUMBERS {
            return Err(LinkFault::NumberFull);
        }
        let Ok(()) = self.bodies.push_back(body) else {
            return Err(LinkFault::OutOfMemory);
        };
        // The own process has what it queues.
        self.count(me, number + 1);
        Ok(number)
    }

    /// Notes that a process has acknowledged `count` bodies. A count not above an earlier one changes no link. `Ahead`
    /// comes exactly for a count above the number of the next body, and nothing has changed then.
    pub fn got(&mut self, from: u8, count: u64) -> Result<(), Ahead>
        requires { from < length self.old.counts }
        ensures answer { OkIff result (count ≤ next_of (link_to self.old from)) tt }
        ensures counted { OnOk result (IsCounted self.old from count self.new) }
        ensures unchanged { OnErr result (self.new ≡ self.old) }
        ensures processes { length self.new.counts ≡ length self.old.counts }
    {
        if count > self.next() {
            return Err(Ahead);
        }
        self.count(from, count);
        Ok(())
    }

    /// Notes how many bodies a process has accepted, where that is not ahead. The counts are searched for the least
    /// only where the least one rises, and no other has it.
    fn count(&mut self, from: u8, count: u64)
        requires within { from < length self.old.counts }
        requires queued { count ≤ next_all self.old }
        ensures counted { IsCounted self.old from count self.new }
        ensures processes { length self.new.counts ≡ length self.old.counts }
    {
        let before = self.counts[from as usize];
        if count <= before {
            return;
        }
        self.counts[from as usize] = count;
        if before == self.first {
            let next = self.first + self.bodies.len() as u64;
            let counts = self.counts.as_slice();
            let first = least_again(next, counts, self.first, &mut self.slowest);
            forget(&mut self.bodies, first - self.first);
            self.first = first;
        }
    }

    /// How many bodies a process has not acknowledged.
    pub fn pending(&self, to: u8) -> u64
        requires { to < length self.now.counts }
        ensures value { result ≡ length (link_to self.now to).pending }
        ensures in_range { result ≤ FRAME_NUMBERS }
    {
        self.first + self.bodies.len() as u64 - self.counts[to as usize]
    }

    /// The frame of the i-th body that a process has not acknowledged, from 0. None past the last.
    pub fn resend(&self, to: u8, i: u64) -> Option<Frame>
        requires { to < length self.now.counts }
        ensures { result
            ≡ option_map (λ body. Numbered ((link_to self.now to).first + i) body)
            (slice_get (link_to self.now to).pending i) }
    {
        let count = self.counts[to as usize];
        let acknowledged = count - self.first;
        if i >= self.bodies.len() as u64 - acknowledged {
            return None;
        }
        let body = *self.bodies.get((acknowledged + i) as usize)?;
        Some(Frame::Numbered {
            number: count + i,
            body,
        })
    }
}
