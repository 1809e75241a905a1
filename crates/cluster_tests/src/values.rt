//! Values that several tests speak of.
ghost use Rattle.std.specs.Prelude.{◌≡◌};
ghost use Rattle.reg_base.specs.declared.memory.Op.{Op};

use reg_base::{Answer, Op, OpId};
use reg_live::Receipt;

/// A write of this value to the register.
pub fn write(register: u16, value: u64) -> Op
    ensures { result ≡ Op.Write register value }
{
    Op::Write { register, value }
}

/// A read of the register.
pub fn read(register: u16) -> Op
    ensures { result ≡ Op.Read register }
{
    Op::Read { register }
}

/// A compare-and-swap of this value for the expected one of the register.
pub fn compare_and_swap(register: u16, expected: u64, value: u64) -> Op
    ensures { result ≡ Op.CompareAndSwap register expected value }
{
    Op::CompareAndSwap {
        register,
        expected,
        value,
    }
}

/// What is told of the operation of this process and number: its answer, and where it was called and answered.
pub fn receipt(id: (u8, u32), op: Op, answer: Answer, called: u64, answered: u64) -> Receipt
    ensures { result
        ≡ record {
          id = record { process = id.0; number = id.1 };
          op = op;
          answer = answer;
          called = called;
          answered = answered;
        } }
{
    let (process, number) = id;
    Receipt {
        id: OpId { process, number },
        op,
        answer,
        called,
        answered,
    }
}
