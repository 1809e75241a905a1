//! Stages that were found between two entries, each once (Lowe 2017).
ghost use Rattle.std.specs.Prelude.{◌≡◌, ◌<◌, ℕ, IfOk, IfSome, IsTrue, OnOk};
ghost use Rattle.reg_checkers.specs.History.{IsAt};
ghost use Rattle.reg_judge.specs.declared.stages.Mover.{Mover as AnyMover};
ghost use Rattle.reg_judge.specs.Stages.{AreDone, AreNarrow, Extends, HasAfter, HasEach, HasStage, IsClosed, IsDone};

use crate::bits::has;
use crate::stages::{Mover, Stage, answered, placed_after};
use crate::trail::Trail;
use std::alloc::{AllocError, Allocator, Global};
use std::collections::BTreeMap;

/// An answer: to what a process runs on a register, as the entry at a place, and the most stages that may be found.
#[derive(Clone, Copy)]
pub struct Answering {
    pub process: u8,
    pub register: u16,
    pub place: usize,
    pub limit: u32,
}

/// Stages, each once.
#[derive(Drop)]
struct Found<A: Allocator + Copy = Global> {
    stages: Vec<Stage, A>,
    /// The place of a stage, by the processes that are placed and the value.
    places: BTreeMap<(u64, u64), usize, A>,
}

/// Whether another operation takes effect beside one.
fn is_besides(stage: Stage, mover: Mover, placed: u64, other: Mover) -> bool
    requires { other.id.process < 64 }
{
    other.id.process != mover.id.process
        && has(placed, other.id.process)
        && !has(stage.placed, other.id.process)
}

/// Places what takes effect from one stage to another: writes that are hidden, the operation, and reads after it.
fn place_steps<A: Allocator + Copy>(
    trail: &mut Trail<A>,
    movers: &[Mover],
    stage: Stage,
    mover: Mover,
    placed: u64,
) -> Result<Option<usize>, AllocError>
    requires { AreNarrow movers.now }
{
    let mut last = stage.last;
    for other in movers {
        if other.act.makes.is_some() && is_besides(stage, mover, placed, *other) {
            last = trail.place(other.id, last)?;
        }
    }
    last = trail.place(mover.id, last)?;
    for other in movers {
        if other.act.makes.is_none() && is_besides(stage, mover, placed, *other) {
            last = trail.place(other.id, last)?;
        }
    }
    Ok(last)
}

impl<A: Allocator + Copy> Found<A> {
    /// No stages.
    fn new(alloc: A) -> Found<A> {
        Found {
            stages: Vec::new(alloc),
            places: BTreeMap::new(alloc),
        }
    }

    /// Whether there is a stage with these processes placed and this value. What the map says is looked up.
    fn is_there(&self, placed: u64, value: u64) -> bool
        ensures { IsTrue result → HasStage self.now.stages.items placed value }
    {
        let Some(place) = self.places.get(&(placed, value)) else {
            return false;
        };
        let Some(stage) = self.stages.get(*place) else {
            return false;
        };
        stage.placed == placed && stage.value == value
    }

    /// Adds a stage that is not there.
    fn add_new(&mut self, stage: Stage) -> Result<(), AllocError>
        ensures extends { OnOk result (Extends self.old.stages.items self.new.stages.items) }
        ensures there { OnOk result (HasStage self.new.stages.items stage.placed stage.value) }
    {
        let place = self.stages.len();
        self.stages.push(stage)?;
        self.places.insert((stage.placed, stage.value), place)?;
        Ok(())
    }

    /// Adds a stage, where it is not there.
    fn add(&mut self, stage: Stage) -> Result<(), AllocError>
        ensures extends { OnOk result (Extends self.old.stages.items self.new.stages.items) }
        ensures there { OnOk result (HasStage self.new.stages.items stage.placed stage.value) }
    {
        if self.is_there(stage.placed, stage.value) {
            return Ok(());
        }
        self.add_new(stage)
    }

    /// Adds stages, where they are not there.
    fn add_each(&mut self, stages: &[Stage]) -> Result<(), AllocError>
        ensures { OnOk result (HasEach self.new.stages.items stages.now) }
    {
        for stage in stages {
            self.add(*stage)?;
        }
        Ok(())
    }

    /// Adds the stage after an operation, where it may take effect at a stage.
    fn add_after(
        &mut self,
        trail: &mut Trail<A>,
        movers: &[Mover],
        stage: Stage,
        mover: Mover,
    ) -> Result<(), AllocError>
        requires narrow { AreNarrow movers.now }
        requires process { mover.id.process < 64 }
        ensures extends { OnOk result (Extends self.old.stages.items self.new.stages.items) }
        ensures there { OnOk result (HasAfter movers.now stage mover self.new.stages.items) }
    {
        let Some((placed, value)) = placed_after(movers, stage, mover) else {
            return Ok(());
        };
        if self.is_there(placed, value) {
            return Ok(());
        }
        let last = place_steps(trail, movers, stage, mover, placed)?;
        self.add_new(Stage {
            placed,
            value,
            last,
        })
    }

    /// Adds the stages after each operation that may take effect at a stage.
    fn add_all_after(
        &mut self,
        trail: &mut Trail<A>,
        movers: &[Mover],
        stage: Stage,
    ) -> Result<(), AllocError>
        requires { AreNarrow movers.now }
        ensures extends { OnOk result (Extends self.old.stages.items self.new.stages.items) }
        ensures there { OnOk result
            ((i : ℕ) (m : AnyMover) → IsAt movers.now i m → HasAfter movers.now stage m self.new.stages.items) }
    {
        for mover in movers {
            self.add_after(trail, movers, stage, *mover)?;
        }
        Ok(())
    }

    /// Adds the stages after a stage, unless the process is placed there.
    fn finish(
        &mut self,
        trail: &mut Trail<A>,
        movers: &[Mover],
        process: u8,
        stage: Stage,
    ) -> Result<(), AllocError>
        requires narrow { AreNarrow movers.now }
        requires process { process < 64 }
        ensures extends { OnOk result (Extends self.old.stages.items self.new.stages.items) }
        ensures done { OnOk result (IsDone movers.now process self.new.stages.items stage) }
    {
        if has(stage.placed, process) {
            return Ok(());
        }
        self.add_all_after(trail, movers, stage)
    }

    /// Adds all stages that operations lead to, one after another, up to those at which the process is placed. False
    /// where there are more than the limit.
    fn complete(
        &mut self,
        trail: &mut Trail<A>,
        movers: &[Mover],
        process: u8,
        limit: u32,
    ) -> Result<bool, AllocError>
        requires narrow { AreNarrow movers.now }
        requires process { process < 64 }
        ensures extends { OnOk result (Extends self.old.stages.items self.new.stages.items) }
        ensures done { IfOk result (λ all. IsTrue all → AreDone movers.now process self.new.stages.items) }
    {
        for place in 0..=limit as usize {
            if place >= self.stages.len() {
                return Ok(true);
            }
            let stage = self.stages[place];
            self.finish(trail, movers, process, stage)?;
        }
        Ok(false)
    }
}

/// The stages after an answer to what a process runs, from those before it. None where more than the limit are found.
pub fn close<A: Allocator + Copy>(
    alloc: A,
    trail: &mut Trail<A>,
    stages: &[Stage],
    movers: &[Mover],
    at: Answering,
) -> Result<Option<Vec<Stage, A>>, AllocError>
    requires narrow { AreNarrow movers.now }
    requires process { at.process < 64 }
    ensures { IfOk result (λ o. IfSome o (λ v. IsClosed movers.now at.process stages.now v.items)) }
{
    let mut found = Found::new(alloc);
    found.add_each(stages)?;
    if !found.complete(trail, movers, at.process, at.limit)? {
        return Ok(None);
    }
    let kept = answered(alloc, &found.stages, at.process)?;
    Ok(Some(kept))
}
