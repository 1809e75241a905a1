//! The pass that answers the operations of an order anew, one after another.
ghost use Rattle.std.specs.Prelude.{◌≡◌, ℕ, ◌<◌, ◌↔◌, All, IfOk, IsTrue, MatchOption, length};
ghost use Rattle.reg_base.specs.Memory.{register_of, after};
ghost use Rattle.reg_checkers.specs.Checks.{IsFirst};
ghost use Rattle.reg_checkers.specs.Facts.{IsWrongOn, IsWrongFact};

use crate::facts::Fact;
use reg_base::{Registers, Shape};
use std::alloc::{AllocError, Allocator};

/// Whether the fact has another answer than the operation has on these values. The operation is applied to them.
fn is_wrong<A: Allocator + Copy>(values: &mut Registers<A>, fact: Fact) -> bool
    requires { register_of fact.op < length values.old }
    ensures verdict { IsTrue result ↔ IsWrongOn values.old fact }
    ensures left { values.new ≡ after fact.op values.old }
{
    let answer = values.answer(&fact.op);
    let _ = values.apply(&fact.op);
    match fact.answered {
        Some(given) => given.answer != answer,
        None => false,
    }
}

/// The first place whose answer is not that of the memory after the operations before it, None where there is none.
pub fn first_wrong<A: Allocator + Copy>(
    alloc: A,
    shape: Shape,
    facts: &[Fact],
) -> Result<Option<usize>, AllocError>
    requires { All (λ f. register_of f.op < shape.registers) facts.now }
    ensures { IfOk result
        (λ o. MatchOption o ((k : ℕ) → ¬ IsWrongFact shape.registers facts.now k)
        (λ k. IsFirst (IsWrongFact shape.registers facts.now) k)) }
{
    let mut values = Registers::new(alloc, shape.registers() as u16)?;
    for place in 0..facts.len() {
        if is_wrong(&mut values, facts[place]) {
            return Ok(Some(place));
        }
    }
    Ok(None)
}
