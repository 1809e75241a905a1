//! Entries as they are placed.
ghost use Rattle.std.specs.Prelude.{◌≡◌, ◌<◌, ◌≤◌, ◌+◌, ◌^◌, ◌++◌, ◌∷◌, [], IfErr, IfOk, MatchOption, OnOk, length};
ghost use Rattle.std.specs.Prelude.{vec_len};
ghost use Rattle.reg_base.specs.Lists.{lists};
ghost use Rattle.reg_records.specs.Playing.{AreTallied};
ghost use Rattle.reg_base.specs.declared.limits.TheConstants.{MOST_PROCESSES};
ghost use Rattle.reg_records.specs.Records.{NothingLeft};
ghost use Rattle.reg_records.specs.Merges.{IsFirstLeft, IsMergeFault};
ghost use Rattle.reg_records.specs.Placing.{GoesOn, HasPlaced, HasPlacedAny, IsNew, IsPlacing, shape_of};

use crate::entries::LogEntry;
use crate::going::{Going, Search, go};
use crate::hints::Hints;
use crate::merging::{Left, MergeFault};
use crate::tallies::{bump, entry_at, no_counts};
use reg_base::Shape;
use reg_base::limits::MOST_EVENTS;
use reg_front::FrontEnd;
use reg_world::{WireStore, World};
use std::alloc::{AllocError, Allocator};
use std::marker::Model;

/// What came of trying to place the next entry of a log.
#[derive(Clone, Copy, Debug, PartialEq, Eq)]
pub(crate) enum Next {
    /// It was placed.
    Placed,
    /// Its frame wasn't found.
    Waits,
    /// The log has no entry left.
    Done,
}

/// The entries that are placed, as a run, with how many there are of each log.
#[derive(Drop)]
pub(crate) struct Placing<F: FrontEnd, A: Allocator + Copy, W: WireStore<A>> {
    world: World<F, A, W>,
    hints: Hints<A>,
    counts: Vec<usize, A>,
    order: Vec<u8, A>,
}

impl<F: FrontEnd, A: Allocator + Copy, W: WireStore<A>> Model for Placing<F, A, W> {
    ghost use Rattle.reg_records.specs.Placing.{Stand};

    ghost Value = { Stand };

    ghost view = { λ p. record { order = p.order.items; counts = p.counts.items; world = p.world } };
}

/// Notes that one more entry of a process is placed.
fn note<A: Allocator + Copy>(
    order: &mut Vec<u8, A>,
    counts: &mut Vec<usize, A>,
    process: u8,
) -> Result<(), AllocError>
    requires tallied { AreTallied counts.old.items order.old.items (length order.old.items) }
    requires fits { vec_len order.old + 1 < 2 ^ 64 }
    ensures order { OnOk result (order.new.items ≡ order.old.items ++ process ∷ []) }
    ensures tallied { OnOk result (AreTallied counts.new.items order.new.items (length order.new.items)) }
    ensures len { OnOk result (length counts.new.items ≡ length counts.old.items) }
{
    let at = order.len();
    order.push(process)?;
    bump(counts, order, at);
    Ok(())
}

impl<F: FrontEnd, A: Allocator + Copy, W: WireStore<A>> Placing<F, A, W> {
    /// Nothing is placed.
    pub(crate) fn new(alloc: A, shape: Shape) -> Result<Placing<F, A, W>, AllocError>
        ensures { IfOk result (λ p. IsNew shape p) }
    {
        let world = World::new(alloc, shape)?;
        let hints = Hints::new(alloc)?;
        let counts = no_counts(alloc, shape.processes() as usize)?;
        Ok(Placing {
            world,
            hints,
            counts,
            order: Vec::new(alloc),
        })
    }

    /// The processes of the entries, in their order.
    pub(crate) fn into_order(self) -> Vec<u8, A>
        ensures { result.items ≡ self.order }
    {
        self.order
    }

    /// Places the next entry of a log, if it can go.
    fn place(
        &mut self,
        logs: &[Vec<LogEntry, A>],
        process: u8,
        search: Search,
    ) -> Result<Next, MergeFault>
        requires placing { IsPlacing F.start (lists logs.now) self.old }
        requires within { process < length logs.now }
        ensures next { IfOk result (λ next. HasPlaced F.start (lists logs.now) process self.old search next self.new) }
        ensures fault { IfErr result (λ f. IsMergeFault F.start (shape_of self.old.world) (lists logs.now) f) }
    {
        let place = self.counts[usize::from(process)];
        let Some(entry) = entry_at(logs, usize::from(process), place) else {
            return Ok(Next::Done);
        };
        if self.order.len() >= MOST_EVENTS as usize {
            return Err(MergeFault::TooMany);
        }
        match go(&mut self.world, &mut self.hints, process, &entry, search)? {
            Going::Made => {
                note(&mut self.order, &mut self.counts, process)?;
                Ok(Next::Placed)
            }
            Going::Waits => Ok(Next::Waits),
            Going::Other => Err(MergeFault::Other {
                process,
                place: place as u64,
            }),
        }
    }

    /// Places entries of a log, as long as the hints tell where their frames are.
    fn go_on(&mut self, logs: &[Vec<LogEntry, A>], process: u8) -> Result<(), MergeFault>
        requires placing { IsPlacing F.start (lists logs.now) self.old }
        requires within { process < length logs.now }
        ensures goes_on { IfOk result (λ _. GoesOn F.start (lists logs.now) self.old self.new) }
        ensures fault { IfErr result (λ f. IsMergeFault F.start (shape_of self.old.world) (lists logs.now) f) }
    {
        for _entry in 0..logs[usize::from(process)].len() {
            match self.place(logs, process, Search::Hinted)? {
                Next::Placed => {}
                Next::Waits | Next::Done => return Ok(()),
            }
        }
        Ok(())
    }

    /// Places entries of each log in turn, as long as the hints tell where their frames are.
    fn go_round(&mut self, logs: &[Vec<LogEntry, A>]) -> Result<(), MergeFault>
        requires placing { IsPlacing F.start (lists logs.now) self.old }
        requires few { length logs.now ≤ MOST_PROCESSES }
        ensures goes_on { IfOk result (λ _. GoesOn F.start (lists logs.now) self.old self.new) }
        ensures fault { IfErr result (λ f. IsMergeFault F.start (shape_of self.old.world) (lists logs.now) f) }
    {
        for process in 0..logs.len() as u8 {
            self.go_on(logs, process)?;
        }
        Ok(())
    }

    /// Places one entry that can go, and tells whether there is one. Whole wires are looked through.
    fn place_any(&mut self, logs: &[Vec<LogEntry, A>]) -> Result<bool, MergeFault>
        requires placing { IsPlacing F.start (lists logs.now) self.old }
        requires few { length logs.now ≤ MOST_PROCESSES }
        ensures any { IfOk result (λ placed. HasPlacedAny F.start (lists logs.now) self.old placed self.new) }
        ensures fault { IfErr result (λ f. IsMergeFault F.start (shape_of self.old.world) (lists logs.now) f) }
    {
        for process in 0..logs.len() as u8 {
            match self.place(logs, process, Search::Whole)? {
                Next::Placed => return Ok(true),
                Next::Waits | Next::Done => {}
            }
        }
        Ok(false)
    }

    /// Places more entries, and tells whether any can go.
    pub(crate) fn go_further(&mut self, logs: &[Vec<LogEntry, A>]) -> Result<bool, MergeFault>
        requires placing { IsPlacing F.start (lists logs.now) self.old }
        requires few { length logs.now ≤ MOST_PROCESSES }
        ensures any { IfOk result (λ placed. HasPlacedAny F.start (lists logs.now) self.old placed self.new) }
        ensures fault { IfErr result (λ f. IsMergeFault F.start (shape_of self.old.world) (lists logs.now) f) }
    {
        let before = self.order.len();
        self.go_round(logs)?;
        if self.order.len() > before {
            return Ok(true);
        }
        self.place_any(logs)
    }

    /// The first entry that is left of the first log with one.
    pub(crate) fn first_left(&self, logs: &[Vec<LogEntry, A>]) -> Option<Left>
        requires placing { IsPlacing F.start (lists logs.now) self.now }
        requires few { length logs.now ≤ MOST_PROCESSES }
        ensures { MatchOption result (NothingLeft self.now.order (lists logs.now))
            (λ left. IsFirstLeft (lists logs.now) self.now.order left.process left.place) }
    {
        for process in 0..logs.len() as u8 {
            let place = self.counts[usize::from(process)];
            if entry_at(logs, usize::from(process), place).is_some() {
                return Some(Left {
                    process,
                    place: place as u64,
                });
            }
        }
        None
    }
}
