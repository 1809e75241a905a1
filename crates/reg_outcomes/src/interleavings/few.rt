//! All outcomes of scripts whose interleavings go through few stages.
ghost use Rattle.std.specs.Prelude.{◌<◌, ◌≤◌, IfOk, IfErr};
ghost use Rattle.reg_base.specs.Lists.{lists};
ghost use Rattle.reg_outcomes.specs.Interleavings.{AreAll, ArePlayable, CountsStages, IsFewFault};
ghost use Rattle.reg_outcomes.specs.Layers.{IsLayer, entries_of, operation_count};

use crate::faults::InterleavingFault;
use crate::interleavings::layers::{LastLayer, count_operations, first_layer, next_layer};
use crate::interleavings::outcomes::{AllOutcomes, tell_last};
use reg_base::Op;
use std::alloc::Allocator;

/// All stages at which the scripts are used up, where there are few with those on the way.
fn few_layers<A: Allocator + Copy>(
    alloc: A,
    scripts: &[Vec<Op, A>],
    registers: u16,
    most: u32,
) -> Result<LastLayer<A>, InterleavingFault>
    requires playable { ArePlayable (lists scripts.now) registers }
    requires some { 0 < most }
    ensures layer { IfOk result
        (λ last. IsLayer (lists scripts.now) registers (operation_count (lists scripts.now)) (entries_of last.layer)) }
    ensures stages { IfOk result (λ last. CountsStages (lists scripts.now) registers last.stages) }
    ensures few { IfOk result (λ last. last.stages ≤ most) }
    ensures refused { IfErr result (IsFewFault (lists scripts.now) registers most) }
{
    let mut layer = first_layer(alloc, scripts.len(), registers)?;
    let mut stages = 1;
    for _turn in 0..count_operations(scripts) {
        layer = next_layer(alloc, scripts, most - stages, layer)?;
        stages += layer.len() as u32;
    }
    Ok(LastLayer {
        layer,
        stages: stages as u64,
    })
}

/// All outcomes that interleavings of the scripts, one for each process, have on one memory with the given number of
/// registers, as `all_outcomes` gives them, where the interleavings go through no more stages than the most.
///
/// # Errors
///
/// There are more stages than the most, or memory was refused.
pub fn few_outcomes<A: Allocator + Copy>(
    alloc: A,
    scripts: &[Vec<Op, A>],
    registers: u16,
    most: u32,
) -> Result<AllOutcomes<A>, InterleavingFault>
    requires playable { ArePlayable (lists scripts.now) registers }
    requires some { 0 < most }
    ensures outcomes { IfOk result (λ all. AreAll (lists scripts.now) registers all.list.items) }
    ensures stages { IfOk result (λ all. CountsStages (lists scripts.now) registers all.stages) }
    ensures few { IfOk result (λ all. all.stages ≤ most) }
    ensures refused { IfErr result (IsFewFault (lists scripts.now) registers most) }
{
    let last = few_layers(alloc, scripts, registers, most)?;
    Ok(tell_last(alloc, last)?)
}
