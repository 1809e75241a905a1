//! Reading a workload that is in its layout.
ghost use Rattle.std.specs.Prelude.{IfOk};
ghost use Rattle.reg_commands.specs.Plays.{Holds};

use crate::layout::laying::lay_out;
use crate::layout::reading::guess_workload;
use reg_inputs::{Workload, WorkloadFault};
use std::alloc::Allocator;

/// The workload that a text in its layout says: it is made out, and where its own layout is the text, the text says it.
///
/// # Errors
///
/// `Toml` where the text is in no layout, `OutOfMemory`, or a fault that the text seems to have. No clause speaks of
/// them.
pub fn read_layout<A: Allocator + Copy>(alloc: A, text: &str) -> Result<Workload<A>, WorkloadFault>
    ensures { IfOk result (λ w. Holds text.now w) }
{
    let work = guess_workload(alloc, text)?;
    let Ok(layout) = lay_out(alloc, &work) else {
        return Err(WorkloadFault::OutOfMemory);
    };
    if layout.as_slice() == text.as_bytes() {
        Ok(work)
    } else {
        Err(WorkloadFault::Toml)
    }
}
