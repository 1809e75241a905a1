//! The hold-back queue: casts in the order of their stamps.
ghost use Rattle.std.specs.Prelude.{◌≡◌, ◌<◌, ◌≤◌, [], length, replicate, slice_index, IfOk, IfSome, IfNone};
ghost use Rattle.std.specs.Prelude.{MatchResult, MatchOption, if◌then◌else◌, is_ok, option_map, Some, None, IfErr};
ghost use Rattle.std.specs.Prelude.{IsTrue, false};
ghost use Rattle.reg_base.specs.declared.limits.TheConstants.{MOST_PROCESSES};
ghost use Rattle.reg_base.specs.Order.{Rising, is_clear as is_clear_by};
ghost use Rattle.reg_holdback.specs.Waiting.{cast_of, ready_of, without_first, with_cast, received, receive_fault};
ghost use Rattle.reg_holdback.specs.Waiting.{refusal_of, IsLatestOwn, seen_of, IsReady, NoneClear};

use crate::held::HeldCasts;
use reg_base::{Delivered, Op, Shape, Stamp};
use std::alloc::{AllocError, Allocator, Global};
use std::marker::Model;
use thiserror::Error;

/// Why a body is refused: the first of these that applies.
#[derive(Clone, Copy, Debug, PartialEq, Eq, Error)]
pub enum HoldFault {
    /// Its sender is the process itself, or out of range.
    #[error("no process")]
    NoProcess,
    /// Its time is not above that of the last body from its sender, which is 0 where there was none.
    #[error("stale")]
    Stale,
    /// Memory was refused.
    #[error("out of memory")]
    OutOfMemory,
}

/// The casts that one process holds back until every other process is known to have passed their stamps, so that all
/// processes deliver in one order: totally ordered multicast (after Lamport 1978).
#[derive(Drop)]
pub struct Holdback<A: Allocator + Copy = Global> {
    me: u8,
    seen: Vec<u64, A>,
    held: HeldCasts<A>,
    /// A process that was last found not to have passed a stamp. It is looked at first, and relied on for nothing.
    behind: u8,
}

impl<A: Allocator + Copy> Model for Holdback<A> {
    ghost use Rattle.std.specs.Prelude.{length, ◌≤◌, ◌<◌};
    ghost use Rattle.reg_holdback.specs.Waiting.{Waiting};
    ghost use Rattle.reg_holdback.specs.Bounds.{InRange};

    ghost Value = { Waiting };

    ghost view = { λ h. record { me = h.me; seen = h.seen.items; held = h.held } };

    ghost invariant = { λ h. InRange (record { me = h.me; seen = h.seen.items; held = h.held }) };
}

/// Whether one of the other processes is not known to have passed a stamp.
fn is_behind(seen: &[u64], me: u8, stamp: Stamp, process: u8) -> bool
    ensures { IsTrue result → is_clear_by me (slice_index seen.now) (length seen.now) stamp ≡ false }
{
    if process == me || process as usize >= seen.len() {
        return false;
    }
    let time = seen[process as usize];
    let known = Stamp { time, process };
    known < stamp
}

/// Whether every other process is known to have passed a stamp. The process that was last found not to have passed one
/// is looked at first.
fn is_clear(seen: &[u64], me: u8, stamp: Stamp, behind: &mut u8) -> bool
    requires { length seen.now ≤ MOST_PROCESSES }
    ensures { result ≡ is_clear_by me (slice_index seen.now) (length seen.now) stamp }
{
    if is_behind(seen, me, stamp, *behind) {
        return false;
    }
    for (r, &time) in seen.iter().enumerate() {
        let process = r as u8;
        let known = Stamp { time, process };
        if process != me && known < stamp {
            *behind = process;
            return false;
        }
    }
    true
}

impl<A: Allocator + Copy> Holdback<A> {
    /// A queue that holds nothing and has heard of no process. The own process has to be one of the shape.
    pub fn new(alloc: A, me: u8, shape: Shape) -> Result<Holdback<A>, AllocError>
        requires { me < shape.processes }
        ensures { IfOk result (λ h. h ≡ record { me = me; seen = replicate shape.processes 0; held = [] }) }
    {
        let seen = vec![in alloc; 0; shape.processes() as usize]?;
        Ok(Holdback {
            me,
            seen,
            held: HeldCasts::new(alloc),
            behind: 0,
        })
    }

    /// Holds an own cast, which has to be later than every own cast that is held. After a refusal nothing has changed.
    pub fn cast(&mut self, stamp: Stamp, op: Op) -> Result<(), AllocError>
        requires own { stamp.process ≡ self.old.me }
        requires latest { IsLatestOwn self.old stamp }
        ensures { self.new ≡ (if is_ok result then with_cast self.old stamp op else self.old) }
    {
        self.held.insert(stamp, op)?;
        Ok(())
    }

    /// Takes in the time of a body of another process, and holds its cast, if it carries one. `NoProcess` and `Stale`
    /// come exactly where they apply. A body without a cast takes no memory. After a refusal nothing has changed.
    // (in line: most bodies carry no cast, and then it is a few tests)
    #[inline(always)]
    pub fn receive(&mut self, stamp: Stamp, op: Option<Op>) -> Result<(), HoldFault>
        ensures exact { MatchResult result
            (λ _. (receive_fault self.old stamp ≡ None) × (self.new ≡ received self.old stamp op))
            (λ fault. (receive_fault self.old stamp ≡ refusal_of fault) × (self.new ≡ self.old)) }

        // A body without a cast takes no memory.
        ensures bare { IfErr result (λ fault. op ≡ None → receive_fault self.old stamp ≡ Some fault) }
    {
        let process = stamp.process as usize;
        if stamp.process == self.me || process >= self.seen.len() {
            return Err(HoldFault::NoProcess);
        }
        if stamp.time <= self.seen[process] {
            return Err(HoldFault::Stale);
        }
        let Some(op) = op else {
            self.seen[process] = stamp.time;
            return Ok(());
        };
        if self.held.insert(stamp, op).is_err() {
            return Err(HoldFault::OutOfMemory);
        }
        self.seen[process] = stamp.time;
        Ok(())
    }

    /// Takes out the cast that is ready, and gives it. Ready is the held cast with the least stamp, where it is clear:
    /// every other process is known to have passed its stamp. None comes exactly where no held cast is clear, and
    /// nothing has changed then. It takes no memory.
    pub fn pop(&mut self) -> Option<(Stamp, Op)>
        ensures answer { option_map cast_of result ≡ ready_of self.old }
        ensures after { MatchOption result (self.new ≡ self.old) (λ _. self.new ≡ without_first self.old) }
        ensures rising { Rising self.old.held }
        ensures ready { IfSome result (λ e. IsReady self.old (cast_of e)) }
        ensures none { IfNone result (NoneClear self.old) }
    {
        self.pop_first_clear()
    }

    fn pop_first_clear(&mut self) -> Option<(Stamp, Op)>
        ensures answer { option_map cast_of result ≡ ready_of self.old }
        ensures after { MatchOption result (self.new ≡ self.old) (λ _. self.new ≡ without_first self.old) }
        ensures rising { Rising self.old.held }
    {
        let first = self.held.first()?;
        if !is_clear(&self.seen, self.me, first.stamp, &mut self.behind) {
            return None;
        }
        let Delivered { stamp, op } = self.held.pop_first()?;
        Some((stamp, op))
    }

    /// How many casts are held.
    pub fn len(&self) -> usize
        ensures { result ≡ length self.now.held }
    {
        self.held.len()
    }

    /// The held casts, in the order of their stamps.
    pub fn held<B: Allocator + Copy>(&self, alloc: B) -> Result<Vec<Delivered, B>, AllocError>
        ensures { IfOk result (λ v. v.items ≡ self.now.held) }
    {
        self.held.list(alloc)
    }

    /// The time of the last body from another process, 0 where there was none. None for the process itself and out of
    /// range.
    pub fn seen(&self, process: u8) -> Option<u64>
        ensures { result ≡ seen_of self.now process }
    {
        if process == self.me {
            return None;
        }
        self.seen.get(process as usize).copied()
    }
}
