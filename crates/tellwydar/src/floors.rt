//! A read after what another thread was told.
ghost use Rattle.std.specs.Prelude.{◌≡◌, ◌≤◌, IfErr, IfOk};
ghost use Rattle.reg_base.specs.Memory.{Memory, answer_of};
ghost use Rattle.reg_base.specs.declared.memory.Op.{Op};
ghost use Rattle.reg_process.specs.declared.steps.Step.TheVariants.{Call};
ghost use Rattle.reg_world.specs.World.{op_id};
ghost use Rattle.reg_live.specs.Stations.{IsRefusal};
ghost use Rattle.reg_live.specs.Passes.{with_receipt, IsLeft};

use crate::operations::read;
use reg_front::FrontEnd;
use reg_live::{Gate, LiveFault, Pass, Receipt};
use std::sync::Wait;

/// Calls a read of a register at a place of the journal that is not below the floor, and waits for its answer. Where
/// the floor is the place after another operation's answer, the read is called after that answer.
///
/// # Errors
///
/// `NoRegister` only for a register past the last, and `Behind` only with a `length` below the floor. When the other
/// faults come is not promised. Nothing has changed; but where it is `Failed`, the read may count as called.
pub fn read_from<F: FrontEnd, G: Gate + Drop, R: Wait>(
    rt: &R,
    pass: &mut Pass<F, G>,
    register: u16,
    floor: u64,
) -> Result<Receipt, LiveFault>
    ensures added { IfOk result (λ r. pass.new ≡ with_receipt pass.old r) }
    ensures own { IfOk result (λ r. (r.op ≡ Op.Read register) × (r.id ≡ op_id pass.old.me pass.old.called)) }
    ensures form { IfOk result (λ r. (m : Memory) × (r.answer ≡ answer_of (Op.Read register) m)) }
    ensures floor { IfOk result (λ r. floor ≤ r.called) }
    ensures left { IfErr result (λ fault. IsLeft fault pass.old pass.new) }
    ensures refusal { IfErr result (λ fault. IsRefusal pass.old.shape.registers floor (Call (Op.Read register)) fault) }
{
    pass.perform_after(rt, read(register), floor)
}
