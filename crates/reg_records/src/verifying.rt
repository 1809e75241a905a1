//! Records checked: that they are runs, and that the callers were told what happened.
ghost use Rattle.std.specs.Prelude.{◌≡◌, length, MatchResult};
ghost use Rattle.reg_base.specs.Lists.{lists};
ghost use Rattle.reg_records.specs.Receipts.{IsRecord, IsRecordFault};

use crate::entries::{LogEntry, Receipt};
use crate::faults::CloseFault;
use crate::playing::play;
use crate::telling::first_untold;
use reg_base::Shape;
use reg_front::FrontEnd;
use reg_world::{WireStore, World};
use std::alloc::Allocator;

/// The run of a record: the order names the processes of its steps, and the k-th mention of a process stands for the
/// k-th entry of its log. Where it is Ok the steps are a run that gives the replies written down, each frame being
/// taken from its wire, and the receipts of each process are just its finished operations, in order.
///
/// # Errors
///
/// `Unfaithful` with the first place from which the order and the logs are no run, `Mismatch` with the first process
/// whose receipts aren't its finished operations, and `OutOfMemory`.
pub fn verify<F: FrontEnd, A: Allocator + Copy>(
    alloc: A,
    shape: Shape,
    order: &[u8],
    logs: &[Vec<LogEntry, A>],
    receipts: &[Vec<Receipt, A>],
) -> Result<World<F, A>, CloseFault>
    requires logs { length logs.now ≡ shape.processes }
    requires receipts { length receipts.now ≡ shape.processes }
    ensures { MatchResult result (λ w. IsRecord F.start shape order.now (lists logs.now) (lists receipts.now) w)
        (λ fault. IsRecordFault F.start shape order.now (lists logs.now) (lists receipts.now) fault) }
{
    verify_in(alloc, shape, order, logs, receipts)
}

/// The run of a record, checked as by `verify`, in a world that keeps its wires in a store of the caller's choice.
///
/// # Errors
///
/// `Unfaithful` with the first place from which the order and the logs are no run, `Mismatch` with the first process
/// whose receipts aren't its finished operations, and `OutOfMemory`.
pub fn verify_in<F: FrontEnd, A: Allocator + Copy, W: WireStore<A>>(
    alloc: A,
    shape: Shape,
    order: &[u8],
    logs: &[Vec<LogEntry, A>],
    receipts: &[Vec<Receipt, A>],
) -> Result<World<F, A, W>, CloseFault>
    requires logs { length logs.now ≡ shape.processes }
    requires receipts { length receipts.now ≡ shape.processes }
    ensures { MatchResult result (λ w. IsRecord F.start shape order.now (lists logs.now) (lists receipts.now) w)
        (λ fault. IsRecordFault F.start shape order.now (lists logs.now) (lists receipts.now) fault) }
{
    let world = play::<F, A, W>(alloc, shape, order, logs)?;
    match first_untold(shape, world.history().entries(), receipts) {
        Some(process) => Err(CloseFault::Mismatch { process }),
        None => Ok(world),
    }
}
