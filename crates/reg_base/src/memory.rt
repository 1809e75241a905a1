//! Operations, their names and answers, and one memory.
ghost use Rattle.std.specs.Prelude.{◌≡◌, ◌<◌, ◌↔◌, ℕ, false, List, IsTrue, IfOk, SomeIff, length, slice_get};
ghost use Rattle.reg_base.specs.Memory.{register_of, updates, tells, answer_of, after, blank, IsBlind};

use std::alloc::{AllocError, Allocator, Global};
use std::marker::Model;
use std::mem;

/// An operation on one register.
#[derive(Clone, Copy, Debug, PartialEq, Eq)]
pub enum Op {
    /// Answers the register's value.
    Read {
        register: u16,
    },
    /// Replaces the register's value.
    Write {
        register: u16,
        value: u64,
    },
    /// Replaces the register's value, and answers the old one.
    Swap {
        register: u16,
        value: u64,
    },
    /// Replaces the register's value where it is the expected one, and answers whether it did.
    CompareAndSwap {
        register: u16,
        expected: u64,
        value: u64,
    },
}

/// What an operation answers.
#[derive(Clone, Copy, Debug, PartialEq, Eq)]
pub enum Answer {
    /// The answer of a write, and of a compare-and-swap that found the expected value.
    Done,
    /// The answer of a read or a swap: the register's value before it.
    Value(u64),
    /// The answer of a compare-and-swap that found another value than the expected one, and changed nothing.
    Unequal,
}

/// The name of an operation: the process that called it, and its number there, from 0.
#[derive(Clone, Copy, Debug, PartialEq, Eq, PartialOrd, Ord)]
pub struct OpId {
    pub process: u8,
    pub number: u32,
}

impl Op {
    /// Whether the operation may change the memory.
    pub fn updates(&self) -> bool
        ensures { result ≡ updates self.now }
    {
        match *self {
            Op::Read { register: _ } => false,
            Op::Write {
                register: _,
                value: _,
            } => true,
            Op::Swap {
                register: _,
                value: _,
            } => true,
            Op::CompareAndSwap { .. } => true,
        }
    }

    /// Whether the operation's answer tells of the memory, and isn't the same on every one.
    pub fn tells(&self) -> bool
        ensures verdict { result ≡ tells self.now }
        ensures blind { (result ≡ false) ↔ IsBlind self.now }
    {
        match *self {
            Op::Write { .. } => false,
            Op::Read { .. } => true,
            Op::Swap { .. } => true,
            Op::CompareAndSwap { .. } => true,
        }
    }

    /// Whether the operation has this answer on some memory.
    pub fn can_answer(&self, answer: &Answer) -> bool
        ensures { IsTrue result ↔ ((m : List ℕ) × (answer.now ≡ answer_of self.now m)) }
    {
        match *self {
            Op::Read { register: _ } => match *answer {
                Answer::Done => false,
                Answer::Value(_) => true,
                Answer::Unequal => false,
            },
            Op::Write {
                register: _,
                value: _,
            } => match *answer {
                Answer::Done => true,
                Answer::Value(_) => false,
                Answer::Unequal => false,
            },
            Op::Swap {
                register: _,
                value: _,
            } => match *answer {
                Answer::Done => false,
                Answer::Value(_) => true,
                Answer::Unequal => false,
            },
            Op::CompareAndSwap {
                register: _,
                expected: _,
                value: _,
            } => match *answer {
                Answer::Done => true,
                Answer::Value(_) => false,
                Answer::Unequal => true,
            },
        }
    }

    /// The register that the operation names.
    pub fn register(&self) -> u16
        ensures { result ≡ register_of self.now }
    {
        match *self {
            Op::Read { register } => register,
            Op::Write { register, value: _ } => register,
            Op::Swap { register, value: _ } => register,
            Op::CompareAndSwap { register, .. } => register,
        }
    }

    /// What the operation answers on a memory, which has a value for each register. The operation isn't applied.
    pub fn answer_on(&self, memory: &[u64]) -> Answer
        requires { register_of self.now < length memory.now }
        ensures { result ≡ answer_of self.now memory.now }
    {
        match *self {
            Op::Write {
                register: _,
                value: _,
            } => Answer::Done,
            Op::Read { register } | Op::Swap { register, value: _ } => {
                Answer::Value(memory[register as usize])
            }
            Op::CompareAndSwap {
                register,
                expected,
                value: _,
            } => {
                if memory[register as usize] == expected {
                    Answer::Done
                } else {
                    Answer::Unequal
                }
            }
        }
    }

    /// Applies the operation to a memory, which has a value for each register, and answers it.
    pub fn apply_to(&self, memory: &mut [u64]) -> Answer
        requires { register_of self.now < length memory.old }
        ensures answer { result ≡ answer_of self.now memory.old }
        ensures memory { memory.new ≡ after self.now memory.old }
    {
        match *self {
            Op::Read { register } => Answer::Value(memory[register as usize]),
            Op::Write { register, value } => {
                memory[register as usize] = value;
                Answer::Done
            }
            Op::Swap { register, value } => {
                Answer::Value(mem::replace(&mut memory[register as usize], value))
            }
            Op::CompareAndSwap {
                register,
                expected,
                value,
            } => {
                let held = &mut memory[register as usize];
                if *held == expected {
                    *held = value;
                    Answer::Done
                } else {
                    Answer::Unequal
                }
            }
        }
    }
}

/// A copy of the registers: one memory, with a value for each register.
#[derive(Drop)]
pub struct Registers<A: Allocator + Copy = Global> {
    values: Vec<u64, A>,
}

impl<A: Allocator + Copy> Model for Registers<A> {
    ghost use Rattle.std.specs.Prelude.{List, ℕ};

    ghost Value = { List ℕ };

    ghost view = { λ r. r.values.items };
}

impl<A: Allocator + Copy> Registers<A> {
    /// As many registers as `count` says, all 0.
    pub fn new(alloc: A, count: u16) -> Result<Registers<A>, AllocError>
        ensures { IfOk result (λ r. r ≡ blank count) }
    {
        let values = vec![in alloc; 0; count as usize]?;
        Ok(Registers { values })
    }

    /// Other registers with these values.
    pub fn duplicate<B: Allocator + Copy>(&self, alloc: B) -> Result<Registers<B>, AllocError>
        ensures { IfOk result (λ r. r ≡ self.now) }
    {
        let values = self.values.as_slice().to_vec(alloc)?;
        Ok(Registers { values })
    }

    /// How many registers there are.
    pub fn count(&self) -> usize
        ensures { result ≡ length self.now }
    {
        self.values.len()
    }

    /// The value of a register, None past the last.
    pub fn get(&self, register: u16) -> Option<u64>
        ensures { result ≡ slice_get self.now register }
    {
        self.values.get(register as usize).copied()
    }

    /// What an operation answers on these values. It is not applied.
    pub fn answer(&self, op: &Op) -> Answer
        requires { register_of op.now < length self.now }
        ensures { result ≡ answer_of op.now self.now }
    {
        op.answer_on(&self.values)
    }

    /// Applies an operation and answers it. None comes exactly for a register past the last, and nothing has changed
    /// then.
    pub fn apply(&mut self, op: &Op) -> Option<Answer>
        ensures answer { SomeIff result (register_of op.now < length self.old) (answer_of op.now self.old) }
        ensures memory { self.new ≡ after op.now self.old }
    {
        if op.register() as usize >= self.values.len() {
            return None;
        }
        Some(op.apply_to(&mut self.values))
    }
}
