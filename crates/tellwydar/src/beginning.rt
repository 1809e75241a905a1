//! The first call of a world.
ghost use Rattle.std.specs.Prelude.{◌≡◌, [], length, IfErr, IfOk};
ghost use Rattle.reg_front.specs.Table.{linear};
ghost use Rattle.reg_process.specs.declared.events.Event.TheVariants.{Call};
ghost use Rattle.reg_world.specs.Worlds.{Refuses};
ghost use Rattle.tellwydar.specs.Firsts.{first_entries};

use reg_base::Op;
use reg_front::Linear;
use reg_process::Reply;
use reg_world::{Event, World, WorldFault};

/// Calls an operation where nothing was called yet, and gives its reply, or None if none came. Then the history is this
/// call, with the answer if one came. To believe this takes no definition of a run.
///
/// # Errors
///
/// The first fault of `WorldFault` that applies, and then nothing has changed; or `OutOfMemory`, and then the world has
/// stopped for good, with what it accepted before.
pub fn call_first(
    world: &mut World<Linear>,
    process: u8,
    op: Op,
) -> Result<Option<Reply>, WorldFault>
    requires { world.old.history ≡ [] }
    ensures history { IfOk result (λ reply. world.new.history
        ≡ first_entries (length world.old.accepted) process op reply) }
    ensures refused { IfErr result (λ fault. Refuses linear world.old (Call process op) fault world.new) }
{
    world.step_reply(&Event::Call { process, op })
}
