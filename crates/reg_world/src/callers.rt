//! What is kept of the operations that a process called.
ghost use Rattle.std.specs.Prelude.{◌≡◌, ◌<◌, ◌+◌, [], false, MatchResult};
ghost use Rattle.reg_world.specs.Pages.{tally_after, last_casts as last_casts_of, number_at, TimesDiffer, CallFits};
ghost use Rattle.reg_world.specs.Tallies.{finished, is_done as is_done_of};

use reg_base::{OpId, Stamp};
use reg_process::Step;
use std::alloc::{AllocError, Allocator, Global};
use std::marker::Model;

/// A cast that a process made.
#[derive(Clone, Copy, Debug, PartialEq, Eq)]
pub(crate) struct Note {
    /// The time of the cast.
    pub time: u64,
    /// The number of its operation.
    pub number: u32,
}

/// What is kept of the operations that one process called.
#[derive(Drop)]
pub(crate) struct Caller<A: Allocator + Copy = Global> {
    /// How many operations it called.
    pub(crate) calls: u32,
    /// Whether the last of them still runs.
    pub(crate) runs: bool,
    /// The casts that it made, the first of them first.
    pub(crate) casts: Vec<Note, A>,
    /// The place in `casts` of the one that is looked for next.
    pub(crate) next: usize,
}

impl<A: Allocator + Copy> Model for Caller<A> {
    ghost use Rattle.reg_world.specs.Tallies.{Tally};

    ghost Value = { Tally };

    ghost view = { λ c. record { calls = c.calls; runs = c.runs; casts = c.casts.items } };
}

impl<A: Allocator + Copy> Caller<A> {
    /// A process that called nothing yet.
    pub(crate) fn new(alloc: A) -> Caller<A>
        ensures { result ≡ record { calls = 0; runs = false; casts = [] } }
    {
        Caller {
            calls: 0,
            runs: false,
            casts: Vec::new(alloc),
            next: 0,
        }
    }

    /// How many operations it called.
    pub(crate) fn calls(&self) -> u32
        ensures { result ≡ self.now.calls }
    {
        self.calls
    }

    /// Whether the last of them still runs.
    pub(crate) fn runs(&self) -> bool
        ensures { result ≡ self.now.runs }
    {
        self.runs
    }

    /// How many of its operations are finished: all, or all but the last.
    pub(crate) fn finished(&self) -> u32
        ensures { result ≡ finished self.now }
    {
        if self.runs {
            self.calls.saturating_sub(1)
        } else {
            self.calls
        }
    }
}

impl<A: Allocator + Copy> Caller<A> {
    /// Notes a step of the process, with the cast that it made. Where memory is refused nothing has changed.
    pub(crate) fn enter(
        &mut self,
        step: &Step,
        runs: bool,
        cast: Option<Stamp>,
    ) -> Result<(), AllocError>
        requires { CallFits step.now self.old.calls }
        ensures { MatchResult result (λ _. self.new ≡ tally_after self.old step.now runs cast)
            (λ _. self.new ≡ self.old) }
    {
        if let Step::Call { op: _ } = *step {
            if let Some(stamp) = cast {
                self.casts.push(Note {
                    time: stamp.time,
                    number: self.calls,
                })?;
            }
            self.calls += 1;
        }
        self.runs = runs;
        Ok(())
    }

    /// Whether the last operation made a cast.
    pub(crate) fn last_casts(&self) -> bool
        ensures { result ≡ last_casts_of self.now }
    {
        match self.casts.last() {
            Some(note) => note.number == self.calls.saturating_sub(1),
            None => false,
        }
    }

    /// The number of the operation whose cast has this time. The casts are asked for by rising time, so the next one is
    /// looked at first.
    pub(crate) fn number_of(&mut self, time: u64) -> u32
        requires { TimesDiffer self.old.casts }
        ensures same { self.new ≡ self.old }
        ensures number { result ≡ number_at self.old.casts time }
    {
        if let Some(note) = self.casts.get(self.next)
            && note.time == time
        {
            let number = note.number;
            self.next += 1;
            return number;
        }
        number_among(&self.casts, time)
    }
}

/// The number of the operation whose cast has this time.
fn number_among(casts: &[Note], time: u64) -> u32
    ensures { result ≡ number_at casts.now time }
{
    for note in casts {
        if note.time == time {
            return note.number;
        }
    }
    0
}

/// Whether the operation is finished.
pub(crate) fn is_done<A: Allocator + Copy>(callers: &[Caller<A>], id: OpId) -> bool
    ensures { result ≡ is_done_of callers.now id }
{
    match callers.get(id.process as usize) {
        Some(caller) => id.number < caller.finished(),
        None => false,
    }
}
