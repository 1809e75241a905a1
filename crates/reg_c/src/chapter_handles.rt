//! The chapter of a node that a caller holds by a pointer.
ghost use Rattle.std.specs.Prelude.{◌≡◌};
ghost use Rattle.std.specs.Borrow.{full_share, sem};
ghost use Rattle.std.specs.Ptr.{lies_at};
ghost use Rattle.reg_c.specs.declared.nodes.HeldNode.{HeldNode};
ghost use Rattle.reg_c.specs.contracts.nodes.HeldNode.{the_row};
ghost use Rattle.reg_c.specs.NodeChapters.{NodeHearsState, NodeTellsState, TellsOver};

use crate::node_chapters::{hear_state, is_over, tell_state};
use crate::nodes::HeldNode;

/// Puts as many of the bytes that tell how far the node behind the handle has come in its chapter into the room as it
/// takes, and tells how many there are; `is_quiet` isn't 0 where it calls nothing more and no operation goes on. If the
/// result isn't 0, nothing has changed.
#[unsafe(no_mangle)]
pub unsafe extern "C" fn tellwydar_node_tell_state(
    handle: *mut u8,
    is_quiet: u32,
    room: &mut [u8],
    length: &mut usize,
) -> u32
    ghost held: { HeldNode }
    requires* { sem 𝓛 (lies_at the_row full_share handle held) }
    ensures* { ∃ₛ
        (λ (after : HeldNode). sem 𝓛 (lies_at the_row full_share handle after)
        ∗ ⌜ NodeTellsState is_quiet held after result room.old room.new length.old length.new ⌝) }
{
    tell_state(&mut *(handle as *mut HeldNode), is_quiet, room, length)
}

/// Has the node behind the handle hear the bytes by which another one tells how far it has come: the latest ones of
/// each are kept. If the result isn't 0, nothing has changed.
#[unsafe(no_mangle)]
pub unsafe extern "C" fn tellwydar_node_hear_state(handle: *mut u8, sender: u8, bytes: &[u8]) -> u32
    ghost held: { HeldNode }
    requires* { sem 𝓛 (lies_at the_row full_share handle held) }
    ensures* { ∃ₛ
        (λ (after : HeldNode). sem 𝓛 (lies_at the_row full_share handle after)
        ∗ ⌜ NodeHearsState sender bytes.now held after result ⌝) }
{
    hear_state(&mut *(handle as *mut HeldNode), sender, bytes)
}

/// 1 where the chapter of the node behind the handle is over, by what it told and heard.
#[unsafe(no_mangle)]
pub unsafe extern "C" fn tellwydar_node_is_over(handle: *mut u8) -> u32
    ghost held: { HeldNode }
    requires* { sem 𝓛 (lies_at the_row full_share handle held) }
    ensures* { ∃ₛ
        (λ (after : HeldNode). sem 𝓛 (lies_at the_row full_share handle after)
        ∗ ⌜ (after ≡ held) × TellsOver held.chapter result ⌝) }
{
    is_over(&mut *(handle as *mut HeldNode))
}
