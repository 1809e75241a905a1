//! A walk from stage to stage, each time by one operation that is placed, or is taken back.
ghost use Rattle.std.specs.Prelude.{◌≡◌, ◌++◌, ◌∷◌, [], ◌<◌, ℕ, List, length, replicate, slice_index, slice_set, IfOk};
ghost use Rattle.std.specs.Prelude.{IsTrue, OnOk};
ghost use Rattle.std.specs.Prelude.{false, true};
ghost use Rattle.reg_base.specs.Memory.{register_of};
ghost use Rattle.reg_outcomes.specs.Interleavings.{first_stage};
ghost use Rattle.reg_outcomes.specs.Finding.{placed_after};
ghost use Rattle.reg_outcomes.specs.Layers.{stage_of};
ghost use Rattle.reg_outcomes.specs.declared.orders.walk.Step.{Step as AnyStep};
ghost use Rattle.reg_outcomes.specs.Walking.{FitsIn, ids_of, stage_before, step_of};

use crate::interleavings::stages::Stage;
use crate::orders::choices::Choice;
use reg_base::OpId;
use std::alloc::{AllocError, Allocator, Global};

/// An operation that was placed, and how the stage before it was.
#[derive(Clone, Copy)]
pub(crate) struct Step {
    id: OpId,
    register: u16,
    /// The value that the register had.
    before: u64,
    /// The processes that are tried at that stage once this operation is.
    tried: u64,
}

/// A stage, and how it was come to.
#[derive(Drop)]
pub(crate) struct Walk<A: Allocator + Copy = Global> {
    pub(crate) stage: Stage<A>,
    /// The processes that were tried at the stage.
    pub(crate) tried: u64,
    pub(crate) path: Vec<Step, A>,
}

impl<A: Allocator + Copy> Walk<A> {
    /// At the first stage.
    pub(crate) fn new(alloc: A, processes: usize, registers: u16) -> Result<Walk<A>, AllocError>
        ensures stage { IfOk result (λ w. stage_of w.stage ≡ first_stage processes registers) }
        ensures tried { IfOk result (λ w. w.tried ≡ 0) }
        ensures path { IfOk result (λ w. w.path.items ≡ []) }
    {
        let stage = Stage::first(alloc, processes, registers)?;
        Ok(Walk {
            stage,
            tried: 0,
            path: Vec::new(alloc),
        })
    }

    /// Places an operation, the next one of its process.
    pub(crate) fn place(&mut self, choice: Choice) -> Result<(), AllocError>
        requires process { choice.process < length self.old.stage.next.items }
        requires register { register_of choice.op < length self.old.stage.memory.items }
        requires number { slice_index self.old.stage.next.items choice.process < u32.MAX }
        requires told { self.old.stage.told.items ≡ [] }
        ensures stage { OnOk result
            (stage_of self.new.stage ≡ placed_after choice.process choice.op (stage_of self.old.stage)) }
        ensures tried { OnOk result (self.new.tried ≡ 0) }
        ensures path { OnOk result
            (self.new.path.items ≡ self.old.path.items ++ step_of choice (stage_of self.old.stage) ∷ []) }
    {
        let process = usize::from(choice.process);
        let register = choice.op.register();
        let number = self.stage.next[process];
        self.path.push(Step {
            id: OpId {
                process: choice.process,
                number,
            },
            register,
            before: self.stage.memory[usize::from(register)],
            tried: choice.tried,
        })?;
        self.stage.next[process] = number + 1;
        choice.op.apply_to(&mut self.stage.memory);
        self.tried = 0;
        Ok(())
    }

    /// Takes the last operation back, false where there is none.
    pub(crate) fn back(&mut self) -> bool
        requires { (steps : List AnyStep) (x : AnyStep) → self.old.path.items ≡ steps ++ x ∷ []
            → FitsIn x (stage_of self.old.stage) }
        ensures none { result ≡ false → self.old.path.items ≡ [] }
        ensures back { result ≡ true
            → (x : AnyStep) × (self.old.path.items ≡ self.new.path.items ++ x ∷ [])
            × (stage_of self.new.stage ≡ stage_before x (stage_of self.old.stage)) × (self.new.tried ≡ x.tried) }
    {
        let Some(step) = self.path.pop() else {
            return false;
        };
        self.stage.next[usize::from(step.id.process)] = step.id.number;
        self.stage.memory[usize::from(step.register)] = step.before;
        self.tried = step.tried;
        true
    }

    /// The register that the last operation named, and the value that it had before. None before the first operation.
    pub(crate) fn replaced(&self) -> Option<(u16, u64)> {
        match self.path.last() {
            Some(step) => Some((step.register, step.before)),
            None => None,
        }
    }

    /// The operations that were placed.
    pub(crate) fn ids(&self, alloc: A) -> Result<Vec<OpId, A>, AllocError>
        ensures { IfOk result (λ v. v.items ≡ ids_of self.now.path.items) }
    {
        let mut ids = Vec::with_capacity(alloc, self.path.len())?;
        for step in &self.path {
            ids.push(step.id)?;
        }
        Ok(ids)
    }
}
