//! How a node goes through a chapter: what is written first, and when the chapter is to end.
ghost use Rattle.std.specs.Prelude.{◌≡◌, ◌≤◌, length, true, OnErr, OnOk};
ghost use Rattle.reg_base.specs.declared.limits.TheConstants.{MOST_REGISTERS};
ghost use Rattle.reg_node.specs.Courses.{course_at_first, is_ending, is_far_ahead, is_full, is_opening, is_quiet};
ghost use Rattle.reg_node.specs.Courses.{next_opening, own_calls, progress_of};
ghost use Rattle.reg_node.specs.Openings.{opening_of as opening};

use crate::logged::LoggedNode;
use crate::openings::opening_of;
use reg_base::Op;
use reg_front::FrontEnd;
use std::alloc::{AllocError, Allocator, Global};
use std::marker::Model;

/// How far a node has come in its chapter.
#[derive(Clone, Copy, Debug, PartialEq, Eq)]
pub struct Progress {
    /// The number of its process.
    pub process: u8,
    /// How many entries of its log are calls.
    pub calls: u64,
    /// How many entries its log has.
    pub logged: u64,
    /// How many casts it has delivered.
    pub delivered: u64,
    /// How many of its own casts it has not delivered.
    pub unsettled: u64,
    /// Whether an operation runs, or its reply isn't handed out yet.
    pub is_running: bool,
}

impl Progress {
    /// That of a node. Whether an operation runs, or its reply isn't handed out yet, is the owner's to know.
    pub fn of<F: FrontEnd, A: Allocator + Copy>(
        node: &LoggedNode<F, A>,
        is_running: bool,
    ) -> Progress
        ensures { result ≡ progress_of node.now is_running }
    {
        let inner = node.meeting().node();
        let process = inner.process();
        Progress {
            process: node.process(),
            calls: inner.calls(),
            logged: inner.logged(),
            delivered: process.delivered_count(),
            unsettled: u64::from(process.unsettled()),
            is_running,
        }
    }
}

/// The course of a chapter, as one process takes it: its room, what process 0 writes first, and whether somebody asked
/// for its end.
#[derive(Drop)]
pub struct Course<A: Allocator + Copy = Global> {
    operations: u64,
    entries: u64,
    ahead: u64,
    opening: Vec<Op, A>,
    is_asked: bool,
}

impl<A: Allocator + Copy> Model for Course<A> {
    ghost use Rattle.reg_node.specs.Courses.{CourseState};

    ghost Value = { CourseState };

    ghost view = { λ c.
        record {
          operations = c.operations;
          entries = c.entries;
          ahead = c.ahead;
          opening = c.opening.items;
          asked = c.is_asked;
        } };
}

impl<A: Allocator + Copy> Course<A> {
    /// The course of a chapter before which there was none, in a room of so many operations and entries of this process
    /// and casts on their way, as a `Room` tells them.
    pub fn new(alloc: A, operations: u64, entries: u64, ahead: u64) -> Course<A>
        ensures { result ≡ course_at_first operations entries ahead }
    {
        Course {
            operations,
            entries,
            ahead,
            opening: Vec::new(alloc),
            is_asked: false,
        }
    }

    /// Notes that the chapter before this one ended with these values.
    pub fn follow(&mut self, values: &[u64]) -> Result<(), AllocError>
        requires { length values.now ≤ MOST_REGISTERS }
        ensures follows { OnOk result (self.new ≡ record self.old { opening = opening values.now }) }
        ensures refused { OnErr result (self.new ≡ self.old) }
    {
        let alloc = *self.opening.allocator();
        self.opening = opening_of(alloc, values)?;
        Ok(())
    }

    /// Asks for the end of the chapter: somebody has little room left.
    pub fn end(&mut self)
        ensures { self.new ≡ record self.old { asked = true } }
    {
        self.is_asked = true;
    }

    /// Whether there is little room left.
    fn is_full(&self, progress: &Progress) -> bool
        ensures { result ≡ is_full self.now progress.now }
    {
        progress.calls >= self.operations || progress.logged >= self.entries
    }

    /// Whether the chapter is to end, since the end was asked for or there is little room left: nothing more is called
    /// then.
    pub fn is_ending(&self, progress: &Progress) -> bool
        ensures { result ≡ is_ending self.now progress.now }
    {
        self.is_asked || self.is_full(progress)
    }

    /// Whether so many casts of this process are on their way that no other one is made.
    pub fn is_far_ahead(&self, progress: &Progress) -> bool
        ensures { result ≡ is_far_ahead self.now progress.now }
    {
        progress.unsettled >= self.ahead
    }

    /// What this process writes next of what the chapter before ended with: only process 0 does, by its first calls.
    pub fn next_opening(&self, progress: &Progress) -> Option<Op>
        ensures { result ≡ next_opening self.now progress.now }
    {
        if progress.process != 0 {
            return None;
        }
        self.opening.get(progress.calls as usize).copied()
    }

    /// How many calls are its caller's: those behind the writes of what the chapter before ended with.
    pub fn own_calls(&self, progress: &Progress) -> u64
        ensures { result ≡ own_calls self.now progress.now }
    {
        if progress.process != 0 {
            return progress.calls;
        }
        progress.calls.saturating_sub(self.opening.len() as u64)
    }

    /// Whether the values that the chapter before ended with aren't all delivered here, or the write of one goes on:
    /// nothing else is called then.
    pub fn is_opening(&self, progress: &Progress) -> bool
        ensures { result ≡ is_opening self.now progress.now }
    {
        let count = self.opening.len() as u64;
        let writes = progress.is_running && self.own_calls(progress) == 0;
        count > 0 && (progress.delivered < count || writes)
    }

    /// Whether this process calls nothing more in this chapter, and no operation goes on.
    pub fn is_quiet(&self, progress: &Progress) -> bool
        ensures { result ≡ is_quiet self.now progress.now }
    {
        self.is_ending(progress) && !progress.is_running && !self.is_opening(progress)
    }
}
