//! What a chapter writes first: the values with which the one before it ended.
ghost use Rattle.std.specs.Prelude.{◌≡◌, ◌≤◌, ◌++◌, length, IfOk, OnOk};
ghost use Rattle.reg_base.specs.declared.limits.TheConstants.{MOST_REGISTERS};
ghost use Rattle.reg_node.specs.Openings.{opening_of as opening, write_of};

use reg_base::Op;
use std::alloc::{AllocError, Allocator};

/// Adds the write of a register's value, unless that is 0.
fn add<A: Allocator + Copy>(
    writes: &mut Vec<Op, A>,
    register: u16,
    value: u64,
) -> Result<(), AllocError>
    ensures { OnOk result (writes.new.items ≡ writes.old.items ++ write_of register value) }
{
    if value != 0 {
        writes.push(Op::Write { register, value })?;
    }
    Ok(())
}

/// What process 0 writes first in a chapter, where the one before it ended with these values: those that aren't 0, in
/// the order of their registers.
pub fn opening_of<A: Allocator + Copy>(alloc: A, values: &[u64]) -> Result<Vec<Op, A>, AllocError>
    requires { length values.now ≤ MOST_REGISTERS }
    ensures { IfOk result (λ v. v.items ≡ opening values.now) }
{
    let mut writes = Vec::new(alloc);
    for register in 0..values.len() {
        add(&mut writes, register as u16, values[register])?;
    }
    Ok(writes)
}
