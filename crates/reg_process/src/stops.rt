//! Which faults stop a process for good.
ghost use Rattle.std.specs.Prelude.{◌≡◌};
ghost use Rattle.reg_process.specs.Faults.{is_stop as is_stop_of};

use crate::faults::ProcessFault;

/// Whether a fault stops a process for good: `ClockFull` and `OutOfMemory` do.
pub fn is_stop(fault: ProcessFault) -> bool
    ensures { result ≡ is_stop_of fault }
{
    matches!(fault, ProcessFault::ClockFull | ProcessFault::OutOfMemory)
}
