//! All outcomes of scripts.
ghost use Rattle.std.specs.Prelude.{◌≡◌, ◌<◌, [], ℕ, List, map, IfOk, IfErr, OnOk};
ghost use Rattle.std.specs.BTreeMap.{IsOrdered};
ghost use Rattle.std.specs.Cmp.Lexicographic.{slice_cmp};
ghost use Rattle.reg_base.specs.Lists.{lists};
ghost use Rattle.reg_outcomes.specs.Told.{told_cmp};
ghost use Rattle.reg_base.specs.declared.memory.Op.{Op as AnyOp};
ghost use Rattle.reg_outcomes.specs.Interleavings.{AreAll, ArePlayable, CountsStages, IsFault, IsWider};
ghost use Rattle.reg_outcomes.specs.Layers.{Adds, IsLayer, IsToldIn, entries_of, interleaving_of, operation_count};
ghost use Rattle.reg_outcomes.specs.Layers.{told_entries};

use crate::faults::InterleavingFault;
use crate::interleavings::layers::{LastLayer, Layer, last_layer};
use crate::interleavings::stages::Stage;
use crate::told::ToldAnswer;
use reg_base::Op;
use std::alloc::{AllocError, Allocator, Global};
use std::collections::BTreeMap;
use std::marker::Model;

/// The most stages that the same number of turns, or of operations placed, may lead to where no other limit is given.
pub const MOST_STAGES: u32 = 4_000_000;

/// An outcome of scripts, and the turns of an interleaving that has it. Contracts see it as that interleaving.
#[derive(Drop)]
pub struct Outcome<A: Allocator + Copy = Global> {
    /// What the operations told, by process and then by number.
    pub told: Vec<ToldAnswer, A>,
    /// The processes in the order of their turns.
    pub turns: Vec<u8, A>,
}

impl<A: Allocator + Copy> Model for Outcome<A> {
    ghost use Rattle.reg_outcomes.specs.Interleavings.{Interleaving};

    ghost Value = { Interleaving };

    ghost view = { λ o. record { turns = o.turns.items; told = o.told.items } };
}

/// Each outcome once, with turns that have it.
type TurnsByOutcome<A> = BTreeMap<Vec<ToldAnswer, A>, Vec<u8, A>, A>;

/// Adds an outcome, unless it is there.
fn add_outcome<A: Allocator + Copy>(
    told: Vec<ToldAnswer, A>,
    turns: Vec<u8, A>,
    outcomes: &mut TurnsByOutcome<A>,
) -> Result<(), AllocError>
    ensures { OnOk result
        (Adds (λ o. o ≡ (told.items, turns.items)) (told_entries outcomes.old) (told_entries outcomes.new)) }
{
    if !outcomes.contains_key(&told) {
        outcomes.insert(told, turns)?;
    }
    Ok(())
}

/// What is told at the stages of a layer.
fn tell_layer<A: Allocator + Copy>(
    alloc: A,
    layer: Layer<A>,
) -> Result<TurnsByOutcome<A>, AllocError>
    ensures { IfOk result (λ outcomes. Adds (IsToldIn (entries_of layer)) [] (told_entries outcomes)) }
{
    let mut outcomes = BTreeMap::new(alloc);
    for (stage, turns) in layer {
        let Stage {
            next: _next,
            memory: _memory,
            told,
        } = stage;
        add_outcome(told, turns, &mut outcomes)?;
    }
    Ok(outcomes)
}

/// The outcomes in their order.
fn listed<A: Allocator + Copy>(
    alloc: A,
    outcomes: TurnsByOutcome<A>,
) -> Result<Vec<Outcome<A>, A>, AllocError>
    ensures list { IfOk result (λ v. v.items ≡ map interleaving_of outcomes.entries) }
    ensures ordered { OnOk result (IsOrdered (λ a b. slice_cmp told_cmp a.items b.items) outcomes) }
{
    let mut list = Vec::new(alloc);
    for (told, turns) in outcomes {
        list.push(Outcome { told, turns })?;
    }
    Ok(list)
}

/// All outcomes of scripts, rising, and how many stages interleavings of them go through.
#[derive(Drop)]
pub struct AllOutcomes<A: Allocator + Copy = Global> {
    pub list: Vec<Outcome<A>, A>,
    pub stages: u64,
}

/// What is told at the stages at which scripts are used up.
pub(crate) fn tell_last<A: Allocator + Copy>(
    alloc: A,
    last: LastLayer<A>,
) -> Result<AllOutcomes<A>, AllocError>
    ensures outcomes { IfOk result
        (λ all. (scripts : List (List AnyOp)) (registers : ℕ)
        → IsLayer scripts registers (operation_count scripts) (entries_of last.layer)
        → AreAll scripts registers all.list.items) }
    ensures stages { IfOk result (λ all. all.stages ≡ last.stages) }
{
    let LastLayer { layer, stages } = last;
    let outcomes = tell_layer(alloc, layer)?;
    let list = listed(alloc, outcomes)?;
    Ok(AllOutcomes { list, stages })
}

/// All outcomes that interleavings of the scripts, one for each process, have on one memory with the given number of
/// registers: each once, rising, and with the turns of an interleaving that has it. The search goes turn by turn, and
/// keeps each stage of a turn once, so it grows with the number of stages and not with that of the interleavings. No
/// clause says how it goes.
///
/// # Errors
///
/// Some number of turns leads to more stages than the limit, or memory was refused.
pub fn all_outcomes<A: Allocator + Copy>(
    alloc: A,
    scripts: &[Vec<Op, A>],
    registers: u16,
    limit: u32,
) -> Result<AllOutcomes<A>, InterleavingFault>
    requires playable { ArePlayable (lists scripts.now) registers }
    requires some { 0 < limit }
    ensures outcomes { IfOk result (λ all. AreAll (lists scripts.now) registers all.list.items) }
    ensures stages { IfOk result (λ all. CountsStages (lists scripts.now) registers all.stages) }
    ensures narrow { OnOk result (¬ IsWider (lists scripts.now) registers limit) }
    ensures refused { IfErr result (IsFault (lists scripts.now) registers limit) }
{
    let last = last_layer(alloc, scripts, registers, limit)?;
    Ok(tell_last(alloc, last)?)
}
