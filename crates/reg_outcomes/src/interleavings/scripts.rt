//! What can be interleaved.
ghost use Rattle.std.specs.Prelude.{◌<◌, ◌↔◌, All, IsTrue};
ghost use Rattle.reg_base.specs.Lists.{lists};
ghost use Rattle.reg_base.specs.Memory.{register_of};
ghost use Rattle.reg_outcomes.specs.Interleavings.{ArePlayable, IsPlayable};

use reg_base::Op;
use reg_base::limits::{MOST_OPERATIONS, MOST_PROCESSES};
use std::alloc::Allocator;

/// Whether each of these operations is on a register that there is.
fn are_known(script: &[Op], registers: u16) -> bool
    ensures { IsTrue result ↔ All (λ op. register_of op < registers) script.now }
{
    script.iter().all(|op| op.register() < registers)
}

/// Whether a script can be run.
fn is_playable(script: &[Op], registers: u16) -> bool
    ensures { IsTrue result ↔ IsPlayable registers script.now }
{
    script.len() <= MOST_OPERATIONS as usize && are_known(script, registers)
}

/// Whether these scripts can be interleaved on the given number of registers: there are not too many, none is too long,
/// and each operation is on a register that there is.
pub fn are_playable<A: Allocator + Copy>(scripts: &[Vec<Op, A>], registers: u16) -> bool
    ensures { IsTrue result ↔ ArePlayable (lists scripts.now) registers }
{
    if scripts.len() > MOST_PROCESSES as usize {
        return false;
    }
    for script in scripts {
        if !is_playable(script, registers) {
            return false;
        }
    }
    true
}
