//! The stages from which no order goes on, each kept once.
ghost use Rattle.std.specs.Prelude.{◌≡◌, [], IfErr, IsTrue, OnOk};
ghost use Rattle.reg_outcomes.specs.Layers.{Adds, Refuses, stage_of};
ghost use Rattle.reg_outcomes.specs.Walking.{HasFailed, IsNoted, NotesNone, Overfills, stages_in};

use crate::faults::InterleavingFault;
use crate::interleavings::stages::Stage;
use std::alloc::{AllocError, Allocator, Global};
use std::collections::BTreeMap;

/// Stages to which as many operations lead.
pub(crate) type FailedLayer<A> = BTreeMap<Stage<A>, (), A>;

/// Notes a stage, unless it is there.
fn note_in<A: Allocator + Copy>(
    layer: &mut FailedLayer<A>,
    stage: Stage<A>,
    limit: u32,
) -> Result<(), InterleavingFault>
    ensures adds { OnOk result (Adds (λ f. f ≡ (stage_of stage, [])) (stages_in layer.old) (stages_in layer.new)) }
    ensures refused { IfErr result (Refuses limit (λ f. f ≡ (stage_of stage, [])) (stages_in layer.old)) }
{
    if layer.contains_key(&stage) {
        return Ok(());
    }
    if layer.len() >= limit as usize {
        return Err(InterleavingFault::TooManyStages);
    }
    layer.insert(stage, ())?;
    Ok(())
}

/// The stages from which no order goes on, by the number of operations placed, and how many there may be of a number.
#[derive(Drop)]
pub(crate) struct Failed<A: Allocator + Copy = Global> {
    pub(crate) limit: u32,
    pub(crate) layers: Vec<FailedLayer<A>, A>,
}

impl<A: Allocator + Copy> Failed<A> {
    /// No stages.
    pub(crate) fn new(alloc: A, limit: u32) -> Failed<A>
        ensures none { result.layers.items ≡ [] }
        ensures limit { result.limit ≡ limit }
    {
        Failed {
            limit,
            layers: Vec::new(alloc),
        }
    }

    /// Whether a stage, to which so many operations lead, is known to fail.
    pub(crate) fn has(&self, placed: usize, stage: &Stage<A>) -> bool
        ensures { IsTrue result → HasFailed self.now.layers.items placed (stage_of stage.now) }
    {
        match self.layers.get(placed) {
            Some(layer) => layer.contains_key(stage),
            None => false,
        }
    }

    /// Makes room for stages to which up to so many operations lead, where there is room for one fewer.
    pub(crate) fn make_room(&mut self, alloc: A, placed: usize) -> Result<(), AllocError>
        ensures kept { OnOk result (NotesNone self.old.layers.items self.new.layers.items) }
        ensures limit { self.new.limit ≡ self.old.limit }
    {
        if self.layers.len() <= placed {
            self.layers.push(BTreeMap::new(alloc))?;
        }
        Ok(())
    }

    /// Notes that a stage fails, to which so many operations lead, where there is room for it.
    pub(crate) fn note(&mut self, placed: usize, stage: Stage<A>) -> Result<(), InterleavingFault>
        ensures noted { OnOk result (IsNoted placed (stage_of stage) self.old.layers.items self.new.layers.items) }
        ensures limit { self.new.limit ≡ self.old.limit }
        ensures refused { IfErr result (Overfills self.old.limit placed (stage_of stage) self.old.layers.items) }
    {
        if placed >= self.layers.len() {
            return Ok(());
        }
        let layer = &mut self.layers[placed];
        note_in(layer, stage, self.limit)
    }
}
