//! Where interleaved scripts stand.
ghost use Rattle.std.specs.Prelude.{◌≡◌, ◌+◌, ◌<◌, ◌≤◌, length, slice_get, slice_index, slice_set, IfOk, OnOk, insert};
ghost use Rattle.reg_base.specs.Lists.{lists};
ghost use Rattle.reg_base.specs.Memory.{after, register_of};
ghost use Rattle.reg_outcomes.specs.declared.told.ToldAnswer.{ToldAnswer as AnyAnswer};
ghost use Rattle.reg_outcomes.specs.Interleavings.{first_stage, script_of, stage_after, told_after, told_behind};
ghost use Rattle.reg_outcomes.specs.Layers.{stage_of};

use crate::told::ToldAnswer;
use reg_base::{Answer, Op, OpId};
use std::alloc::{AllocError, Allocator, Global};

/// Where interleaved scripts stand.
#[derive(Drop)]
#[derive_where(PartialEq, Eq, PartialOrd, Ord)]
pub(crate) struct Stage<A: Allocator + Copy = Global> {
    /// How many operations of each script are done.
    pub(crate) next: Vec<u32, A>,
    /// The value of each register.
    pub(crate) memory: Vec<u64, A>,
    /// What these operations told, in the order of an outcome.
    pub(crate) told: Vec<ToldAnswer, A>,
}

/// The place after all that a process and those before it were told.
fn place_behind(told: &[ToldAnswer], process: u8) -> usize
    ensures within { result ≤ length told.now }
    ensures place { (t : AnyAnswer) → t.process ≡ process → insert told.now result t ≡ told_behind t told.now }
{
    for (place, answer) in told.iter().enumerate() {
        if process < answer.process {
            return place;
        }
    }
    told.len()
}

/// Tells the answer of an operation, where it tells of the memory.
fn tell<A: Allocator + Copy>(
    told: &mut Vec<ToldAnswer, A>,
    op: Op,
    id: OpId,
    answer: Answer,
) -> Result<(), AllocError>
    ensures { OnOk result (told.new.items ≡ told_after op id answer told.old.items) }
{
    if !op.tells() {
        return Ok(());
    }
    let OpId { process, number } = id;
    let place = place_behind(told, process);
    told.insert(
        place,
        ToldAnswer {
            process,
            number,
            answer,
        },
    )?;
    Ok(())
}

/// The operation of this number in a script, None where it has no more.
fn op_at(script: &[Op], number: u32) -> Option<Op>
    ensures { result ≡ slice_get script.now number }
{
    script.get(number as usize).copied()
}

impl<A: Allocator + Copy> Stage<A> {
    /// The stage at which no operation is done.
    pub(crate) fn first(alloc: A, processes: usize, registers: u16) -> Result<Stage<A>, AllocError>
        ensures { IfOk result (λ s. stage_of s ≡ first_stage processes registers) }
    {
        let next = vec![in alloc; 0; processes]?;
        let memory = vec![in alloc; 0; usize::from(registers)]?;
        let told = Vec::new(alloc);
        Ok(Stage { next, memory, told })
    }

    /// The same stage once more.
    pub(crate) fn copied(&self, alloc: A) -> Result<Stage<A>, AllocError>
        ensures { IfOk result (λ s. stage_of s ≡ stage_of self.now) }
    {
        let next = Vec::from_slice(alloc, self.next.as_slice())?;
        let memory = Vec::from_slice(alloc, self.memory.as_slice())?;
        let told = Vec::from_slice(alloc, self.told.as_slice())?;
        Ok(Stage { next, memory, told })
    }

    /// The next operation of a process, None where its script is used up.
    pub(crate) fn next_op(&self, scripts: &[Vec<Op, A>], process: u8) -> Option<Op>
        requires script { process < length scripts.now }
        requires process { process < length self.now.next.items }
        ensures { result ≡ slice_get (script_of (lists scripts.now) process) (slice_index self.now.next.items process) }
    {
        let number = self.next[usize::from(process)];
        op_at(&scripts[usize::from(process)], number)
    }

    /// The stage after a process did this operation, its next one, where this is told.
    pub(crate) fn after_and_told(
        &self,
        alloc: A,
        process: u8,
        op: Op,
        told: Vec<ToldAnswer, A>,
    ) -> Result<Stage<A>, AllocError>
        requires process { process < length self.now.next.items }
        requires register { register_of op < length self.now.memory.items }
        requires number { slice_index self.now.next.items process < u32.MAX }
        ensures next { IfOk result (λ s. s.next.items
            ≡ slice_set self.now.next.items process (slice_index self.now.next.items process + 1)) }
        ensures memory { IfOk result (λ s. s.memory.items ≡ after op self.now.memory.items) }
        ensures told { IfOk result (λ s. s.told.items ≡ told.items) }
    {
        let mut next = Vec::from_slice(alloc, self.next.as_slice())?;
        let mut memory = Vec::from_slice(alloc, self.memory.as_slice())?;
        next[usize::from(process)] += 1;
        op.apply_to(&mut memory);
        Ok(Stage { next, memory, told })
    }

    /// The stage after a process did this operation, its next one.
    pub(crate) fn after(&self, alloc: A, process: u8, op: Op) -> Result<Stage<A>, AllocError>
        requires process { process < length self.now.next.items }
        requires register { register_of op < length self.now.memory.items }
        requires number { slice_index self.now.next.items process < u32.MAX }
        ensures { IfOk result (λ s. stage_of s ≡ stage_after process op (stage_of self.now)) }
    {
        let number = self.next[usize::from(process)];
        let answer = op.answer_on(&self.memory);
        let mut told = Vec::from_slice(alloc, self.told.as_slice())?;
        tell(&mut told, op, OpId { process, number }, answer)?;
        self.after_and_told(alloc, process, op, told)
    }
}
