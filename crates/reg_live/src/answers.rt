//! The operations of a pass by their kind, each with its answer as a value.
ghost use Rattle.std.specs.Prelude.{if◌then◌else◌, IfOk, IfErr, OnOk};
ghost use Rattle.reg_base.specs.declared.memory.Op.TheVariants.{Read, Write, Swap, CompareAndSwap};
ghost use Rattle.reg_base.specs.declared.memory.Answer.TheVariants.{Done, Value, Unequal};
ghost use Rattle.reg_process.specs.declared.steps.Step.TheVariants.{Call};
ghost use Rattle.reg_live.specs.Stations.{IsRefusal};
ghost use Rattle.reg_live.specs.Passes.{IsAnswered, IsLeft};

use crate::faults::LiveFault;
use crate::gates::Gate;
use crate::passes::Pass;
use reg_base::{Answer, Op};
use reg_front::FrontEnd;
use std::sync::Wait;

impl<F: FrontEnd, G: Gate + Drop> Pass<F, G> {
    /// Reads a register, and waits for its value.
    ///
    /// # Errors
    ///
    /// Those of `perform`.
    pub fn read<R: Wait>(&mut self, rt: &R, register: u16) -> Result<u64, LiveFault>
        ensures answered { IfOk result (λ value. IsAnswered (Read register) (Value value) self.old self.new) }
        ensures left { IfErr result (λ fault. IsLeft fault self.old self.new) }
        ensures refusal { IfErr result (λ fault. IsRefusal self.old.shape.registers 0 (Call (Read register)) fault) }
    {
        match self.perform(rt, Op::Read { register })?.answer {
            Answer::Value(value) => Ok(value),
            Answer::Done | Answer::Unequal => unreachable!(),
        }
    }

    /// Writes a value to a register, and waits until that is done.
    ///
    /// # Errors
    ///
    /// Those of `perform`.
    pub fn write<R: Wait>(&mut self, rt: &R, register: u16, value: u64) -> Result<(), LiveFault>
        ensures answered { OnOk result (IsAnswered (Write register value) Done self.old self.new) }
        ensures left { IfErr result (λ fault. IsLeft fault self.old self.new) }
        ensures refusal { IfErr result
            (λ fault. IsRefusal self.old.shape.registers 0 (Call (Write register value)) fault) }
    {
        self.perform(rt, Op::Write { register, value })?;
        Ok(())
    }

    /// Swaps a value for the one that the register has, and waits for that one.
    ///
    /// # Errors
    ///
    /// Those of `perform`.
    pub fn swap<R: Wait>(&mut self, rt: &R, register: u16, value: u64) -> Result<u64, LiveFault>
        ensures answered { IfOk result (λ old. IsAnswered (Swap register value) (Value old) self.old self.new) }
        ensures left { IfErr result (λ fault. IsLeft fault self.old self.new) }
        ensures refusal { IfErr result
            (λ fault. IsRefusal self.old.shape.registers 0 (Call (Swap register value)) fault) }
    {
        match self.perform(rt, Op::Swap { register, value })?.answer {
            Answer::Value(old) => Ok(old),
            Answer::Done | Answer::Unequal => unreachable!(),
        }
    }

    /// Writes a value where the register holds the expected one, and waits for whether it did: false says that the
    /// register held another value, and that nothing was changed.
    ///
    /// # Errors
    ///
    /// Those of `perform`.
    pub fn compare_and_swap<R: Wait>(
        &mut self,
        rt: &R,
        register: u16,
        expected: u64,
        value: u64,
    ) -> Result<bool, LiveFault>
        ensures answered { IfOk result
            (λ done. IsAnswered (CompareAndSwap register expected value) (if done then Done else Unequal) self.old
            self.new) }
        ensures left { IfErr result (λ fault. IsLeft fault self.old self.new) }
        ensures refusal { IfErr result
            (λ fault. IsRefusal self.old.shape.registers 0 (Call (CompareAndSwap register expected value)) fault) }
    {
        let op = Op::CompareAndSwap {
            register,
            expected,
            value,
        };
        match self.perform(rt, op)?.answer {
            Answer::Done => Ok(true),
            Answer::Unequal => Ok(false),
            Answer::Value(_) => unreachable!(),
        }
    }
}
