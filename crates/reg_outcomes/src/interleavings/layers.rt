//! Layers: all stages after some number of turns.
ghost use Rattle.std.specs.Prelude.{◌≡◌, ◌++◌, ◌∷◌, [], ◌<◌, ◌≤◌, ◌^◌, length, List, ℕ, IfOk, OnOk, IfErr};
ghost use Rattle.std.specs.List.{sum_by};
ghost use Rattle.reg_base.specs.Lists.{lists};
ghost use Rattle.reg_base.specs.declared.limits.TheConstants.{MOST_PROCESSES};
ghost use Rattle.reg_base.specs.Order.{In};
ghost use Rattle.reg_outcomes.specs.Interleavings.{ArePlayable, CountsStages, IsFault, IsWider, Stage as AnyStage};
ghost use Rattle.reg_outcomes.specs.Interleavings.{first_stage};
ghost use Rattle.reg_outcomes.specs.Layers.{Adds, IsLayer, IsNext, IsNextOf, IsReady, IsStep, Refuses, entries_of};
ghost use Rattle.reg_outcomes.specs.Layers.{operation_count, stage_of};

use crate::faults::InterleavingFault;
use crate::interleavings::stages::Stage;
use reg_base::Op;
use std::alloc::{AllocError, Allocator, Global};
use std::collections::BTreeMap;

/// All stages after some number of turns, each with turns that lead to it.
pub(crate) type Layer<A> = BTreeMap<Stage<A>, Vec<u8, A>, A>;

/// These turns, and one more.
fn with_turn<A: Allocator + Copy>(
    alloc: A,
    turns: &[u8],
    process: u8,
) -> Result<Vec<u8, A>, AllocError>
    ensures { IfOk result (λ v. v.items ≡ turns.now ++ process ∷ []) }
{
    let mut longer = Vec::with_capacity(alloc, turns.len() + 1)?;
    longer.extend_from_slice(turns)?;
    longer.push(process)?;
    Ok(longer)
}

/// A layer while stages are added to it, and how many it may have at most.
#[derive(Drop)]
pub(crate) struct GrowingLayer<A: Allocator + Copy = Global> {
    pub(crate) alloc: A,
    pub(crate) limit: u32,
    pub(crate) layer: Layer<A>,
}

impl<A: Allocator + Copy> GrowingLayer<A> {
    /// A layer in which no stage is yet.
    pub(crate) fn new(alloc: A, limit: u32) -> GrowingLayer<A>
        ensures empty { result.layer.entries ≡ [] }
        ensures limit { result.limit ≡ limit }
    {
        GrowingLayer {
            alloc,
            limit,
            layer: BTreeMap::new(alloc),
        }
    }

    /// Adds a stage, unless it is there. One more turn, of this process, leads to it.
    pub(crate) fn add_stage(
        &mut self,
        stage: Stage<A>,
        turns: &[u8],
        process: u8,
    ) -> Result<(), InterleavingFault>
        ensures adds { OnOk result
            (Adds (λ f. f
            ≡ (stage_of stage, turns.now ++ process ∷ [])) (entries_of self.old.layer) (entries_of self.new.layer)) }
        ensures narrow { OnOk result
            (length self.old.layer.entries ≤ self.old.limit → length self.new.layer.entries ≤ self.old.limit) }
        ensures limit { self.new.limit ≡ self.old.limit }
        ensures refused { IfErr result
            (Refuses self.old.limit (λ f. f
            ≡ (stage_of stage, turns.now ++ process ∷ [])) (entries_of self.old.layer)) }
    {
        if self.layer.contains_key(&stage) {
            return Ok(());
        }
        if self.layer.len() >= self.limit as usize {
            return Err(InterleavingFault::TooManyStages);
        }
        let turns = with_turn(self.alloc, turns, process)?;
        self.layer.insert(stage, turns)?;
        Ok(())
    }

    /// Adds the stage after the next operation of a process, if it has one.
    fn add_step(
        &mut self,
        scripts: &[Vec<Op, A>],
        stage: &Stage<A>,
        turns: &[u8],
        process: u8,
    ) -> Result<(), InterleavingFault>
        requires process { process < length scripts.now }
        requires ready { IsReady (lists scripts.now) (stage_of stage.now) }
        ensures adds { OnOk result
            (Adds (IsStep (lists scripts.now) process (stage_of stage.now, turns.now)) (entries_of self.old.layer)
            (entries_of self.new.layer)) }
        ensures narrow { OnOk result
            (length self.old.layer.entries ≤ self.old.limit → length self.new.layer.entries ≤ self.old.limit) }
        ensures limit { self.new.limit ≡ self.old.limit }
        ensures refused { IfErr result
            (Refuses self.old.limit (IsStep (lists scripts.now) process (stage_of stage.now, turns.now))
            (entries_of self.old.layer)) }
    {
        match stage.next_op(scripts, process) {
            Some(op) => {
                let later = stage.after(self.alloc, process, op)?;
                self.add_stage(later, turns, process)
            }
            None => Ok(()),
        }
    }

    /// Adds the stage after the next operation of each process that has one.
    fn add_steps(
        &mut self,
        scripts: &[Vec<Op, A>],
        stage: &Stage<A>,
        turns: &[u8],
    ) -> Result<(), InterleavingFault>
        requires few { length scripts.now ≤ MOST_PROCESSES }
        requires ready { IsReady (lists scripts.now) (stage_of stage.now) }
        ensures adds { OnOk result
            (Adds (IsNext (lists scripts.now) (stage_of stage.now, turns.now)) (entries_of self.old.layer)
            (entries_of self.new.layer)) }
        ensures narrow { OnOk result
            (length self.old.layer.entries ≤ self.old.limit → length self.new.layer.entries ≤ self.old.limit) }
        ensures limit { self.new.limit ≡ self.old.limit }
        ensures refused { IfErr result
            (Refuses self.old.limit (IsNext (lists scripts.now) (stage_of stage.now, turns.now))
            (entries_of self.old.layer)) }
    {
        let processes = scripts.len() as u8;
        for process in 0..processes {
            self.add_step(scripts, stage, turns, process)?;
        }
        Ok(())
    }
}

/// All stages after one turn more.
pub(crate) fn next_layer<A: Allocator + Copy>(
    alloc: A,
    scripts: &[Vec<Op, A>],
    limit: u32,
    layer: Layer<A>,
) -> Result<Layer<A>, InterleavingFault>
    requires few { length scripts.now ≤ MOST_PROCESSES }
    requires ready { (f : AnyStage × List ℕ) → In f (entries_of layer) → IsReady (lists scripts.now) f.0 }
    ensures adds { IfOk result (λ next. Adds (IsNextOf (lists scripts.now) (entries_of layer)) [] (entries_of next)) }
    ensures narrow { IfOk result (λ next. length next.entries ≤ limit) }
    ensures refused { IfErr result (Refuses limit (IsNextOf (lists scripts.now) (entries_of layer)) []) }
{
    let mut next = GrowingLayer::new(alloc, limit);
    for (stage, turns) in layer {
        next.add_steps(scripts, &stage, &turns)?;
    }
    Ok(next.layer)
}

/// The stage that no turn leads to.
pub(crate) fn first_layer<A: Allocator + Copy>(
    alloc: A,
    processes: usize,
    registers: u16,
) -> Result<Layer<A>, AllocError>
    ensures { IfOk result (λ layer. entries_of layer ≡ (first_stage processes registers, []) ∷ []) }
{
    let stage = Stage::first(alloc, processes, registers)?;
    let mut layer = BTreeMap::new(alloc);
    layer.insert(stage, Vec::new(alloc))?;
    Ok(layer)
}

/// How many operations there are.
pub fn count_operations<A: Allocator + Copy>(scripts: &[Vec<Op, A>]) -> usize
    requires { sum_by length (lists scripts.now) < 2 ^ 64 }
    ensures { result ≡ sum_by length (lists scripts.now) }
{
    let mut count = 0;
    for script in scripts {
        count += script.len();
    }
    count
}

/// All stages at which the scripts are used up, and how many stages there are with those on the way.
#[derive(Drop)]
pub(crate) struct LastLayer<A: Allocator + Copy = Global> {
    pub(crate) layer: Layer<A>,
    pub(crate) stages: u64,
}

/// All stages at which the scripts are used up.
pub(crate) fn last_layer<A: Allocator + Copy>(
    alloc: A,
    scripts: &[Vec<Op, A>],
    registers: u16,
    limit: u32,
) -> Result<LastLayer<A>, InterleavingFault>
    requires playable { ArePlayable (lists scripts.now) registers }
    requires some { 0 < limit }
    ensures layer { IfOk result
        (λ last. IsLayer (lists scripts.now) registers (operation_count (lists scripts.now)) (entries_of last.layer)) }
    ensures stages { IfOk result (λ last. CountsStages (lists scripts.now) registers last.stages) }
    ensures narrow { OnOk result (¬ IsWider (lists scripts.now) registers limit) }
    ensures refused { IfErr result (IsFault (lists scripts.now) registers limit) }
{
    let mut layer = first_layer(alloc, scripts.len(), registers)?;
    let mut stages = 1;
    for _turn in 0..count_operations(scripts) {
        layer = next_layer(alloc, scripts, limit, layer)?;
        stages += layer.len() as u64;
    }
    Ok(LastLayer { layer, stages })
}
