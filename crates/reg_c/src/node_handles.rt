//! Nodes that a caller holds by a pointer.
ghost use Rattle.std.specs.Prelude.{◌≡◌, ◌<◌, None, vec_capacity};
ghost use Rattle.std.specs.Borrow.{full_share, sem};
ghost use Rattle.std.specs.Ptr.{lies_at};
ghost use Rattle.reg_process.specs.declared.faults.ProcessFault.TheVariants.{OutOfMemory};
ghost use Rattle.reg_process.specs.declared.steps.Step.TheVariants.{Tick};
ghost use Rattle.reg_c.specs.declared.nodes.HeldNode.{HeldNode};
ghost use Rattle.reg_c.specs.declared.nodes.KeptNode.{KeptNode};
ghost use Rattle.reg_c.specs.contracts.nodes.HeldNode.{the_row};
ghost use Rattle.reg_c.specs.Events.{compare_and_swap_of, op_of, refusal_code};
ghost use Rattle.reg_c.specs.Nodes.{IsNothing, NodeCalls, NodeHands, NodeHears, NodeMarks, NodeSteps, NodeTakes, Opens};
ghost use Rattle.reg_c.specs.Nodes.{TellsBytes, frames_handed, node_number};
ghost use Rattle.reg_c.specs.NodePeers.{CameFrom, NodeTells, NodeWatches};
ghost use Rattle.reg_c.specs.Processes.{TellsFrames};

use crate::node_parts::look;
use crate::node_peers::{came, known, watch};
use crate::nodes::{
    HeldNode, bytes, call, close, compare_and_swap, frames, hand_out, hear, mark_durable, new,
    take, tick,
};
use crate::opening::open;
use crate::unboxed::Unboxed;
use std::alloc::Global;

/// Writes the pointer for the caller, as one to bytes: what it points to is not for C to look into.
fn put(handle: &mut *mut u8, held: *mut HeldNode)
    ensures { handle.new ≡ held }
{
    *handle = held as *mut u8;
}

/// Makes a handle with no node behind it. If the result isn't 0, the handle is as it was.
#[unsafe(no_mangle)]
pub extern "C" fn tellwydar_node_new(alloc: Global, handle: &mut *mut u8) -> u32
    ensures room { 0 < result → handle.new ≡ handle.old }
    ensures why { 0 < result → result ≡ refusal_code OutOfMemory }
    ensures* node { ⌜ result ≡ 0 ⌝
        -∗ ∃ₛ (λ (held : HeldNode). sem 𝓛 (lies_at the_row full_share handle.new held) ∗ ⌜ IsNothing held ⌝) }
{
    match new(alloc) {
        Ok(held) => {
            let Unboxed { at } = held;
            put(handle, at);
            0
        }
        Err(code) => code,
    }
}

/// Opens a node behind the handle with the text of its log, of which so many entries were told durable. If the result
/// isn't 0, nothing has changed but the place that the fault names.
#[unsafe(no_mangle)]
pub unsafe extern "C" fn tellwydar_node_open(handle: *mut u8, text: &[u8], durable: u64) -> u32
    ghost held: { HeldNode }
    requires* { sem 𝓛 (lies_at the_row full_share handle held) }
    ensures* { ∃ₛ
        (λ (after : HeldNode). sem 𝓛 (lies_at the_row full_share handle after)
        ∗ ⌜ Opens text.now durable held after result ⌝) }
{
    open(&mut *(handle as *mut HeldNode), text, durable)
}

/// Calls the operation that these numbers say, at the node behind the handle.
#[unsafe(no_mangle)]
pub unsafe extern "C" fn tellwydar_node_call(
    handle: *mut u8,
    kind: u32,
    register: u32,
    value: u64,
) -> u32
    ghost held: { HeldNode }
    requires* { sem 𝓛 (lies_at the_row full_share handle held) }
    ensures* { ∃ₛ
        (λ (after : HeldNode). sem 𝓛 (lies_at the_row full_share handle after)
        ∗ ⌜ NodeCalls (op_of kind register value) held after result ⌝) }
{
    call(&mut *(handle as *mut HeldNode), kind, register, value)
}

/// Calls the compare-and-swap that these numbers say, at the node behind the handle.
#[unsafe(no_mangle)]
pub unsafe extern "C" fn tellwydar_node_compare_and_swap(
    handle: *mut u8,
    register: u32,
    expected: u64,
    value: u64,
) -> u32
    ghost held: { HeldNode }
    requires* { sem 𝓛 (lies_at the_row full_share handle held) }
    ensures* { ∃ₛ
        (λ (after : HeldNode). sem 𝓛 (lies_at the_row full_share handle after)
        ∗ ⌜ NodeCalls (compare_and_swap_of register expected value) held after result ⌝) }
{
    compare_and_swap(&mut *(handle as *mut HeldNode), register, expected, value)
}

/// Has the node behind the handle take the frame of `from` that the bytes spell. If they spell none, no step is made.
#[unsafe(no_mangle)]
pub unsafe extern "C" fn tellwydar_node_take(handle: *mut u8, from: u8, bytes: &[u8]) -> u32
    ghost held: { HeldNode }
    requires* { sem 𝓛 (lies_at the_row full_share handle held) }
    ensures* { ∃ₛ
        (λ (after : HeldNode). sem 𝓛 (lies_at the_row full_share handle after)
        ∗ ⌜ NodeTakes from bytes.now held after result ⌝) }
{
    take(&mut *(handle as *mut HeldNode), from, bytes)
}

/// Has the node behind the handle put the first unacknowledged frames of every link again.
#[unsafe(no_mangle)]
pub unsafe extern "C" fn tellwydar_node_tick(handle: *mut u8) -> u32
    ghost held: { HeldNode }
    requires* { sem 𝓛 (lies_at the_row full_share handle held) }
    ensures* { ∃ₛ
        (λ (after : HeldNode). sem 𝓛 (lies_at the_row full_share handle after) ∗ ⌜ NodeSteps Tick held after result ⌝) }
{
    tick(&mut *(handle as *mut HeldNode))
}

/// Puts as many of the bytes by which the last step makes the log grow into the room as it takes, and gives how many
/// there are: none if no step was made.
#[unsafe(no_mangle)]
pub unsafe extern "C" fn tellwydar_node_bytes(handle: *mut u8, room: &mut [u8]) -> usize
    ghost held: { HeldNode }
    requires* { sem 𝓛 (lies_at the_row full_share handle held) }
    ensures* { ∃ₛ
        (λ (after : HeldNode). sem 𝓛 (lies_at the_row full_share handle after)
        ∗ ⌜ (after ≡ held) × TellsBytes held.bytes.items result room.old room.new ⌝) }
{
    bytes(&mut *(handle as *mut HeldNode), room)
}

/// Has the node behind the handle hear that another process accepted so many bodies of this one.
#[unsafe(no_mangle)]
pub unsafe extern "C" fn tellwydar_node_hear(handle: *mut u8, other: u8, count: u64) -> u32
    ghost held: { HeldNode }
    requires* { sem 𝓛 (lies_at the_row full_share handle held) }
    ensures* { ∃ₛ
        (λ (after : HeldNode). sem 𝓛 (lies_at the_row full_share handle after)
        ∗ ⌜ NodeHears other count held after result ⌝) }
{
    hear(&mut *(handle as *mut HeldNode), other, count)
}

/// Tells the node behind the handle that the first `count` entries of its log are durable.
#[unsafe(no_mangle)]
pub unsafe extern "C" fn tellwydar_node_mark_durable(handle: *mut u8, count: u64) -> u32
    ghost held: { HeldNode }
    requires* { sem 𝓛 (lies_at the_row full_share handle held) }
    ensures* { ∃ₛ
        (λ (after : HeldNode). sem 𝓛 (lies_at the_row full_share handle after)
        ∗ ⌜ NodeMarks count held after result ⌝) }
{
    mark_durable(&mut *(handle as *mut HeldNode), count)
}

/// Has the node behind the handle hand out what is due next.
#[unsafe(no_mangle)]
pub unsafe extern "C" fn tellwydar_node_hand_out(handle: *mut u8) -> u32
    ghost held: { HeldNode }
    requires* { sem 𝓛 (lies_at the_row full_share handle held) }
    ensures* { ∃ₛ
        (λ (after : HeldNode). sem 𝓛 (lies_at the_row full_share handle after) ∗ ⌜ NodeHands held after result ⌝) }
{
    hand_out(&mut *(handle as *mut HeldNode))
}

/// Puts as many of the bytes of the frames that were handed out last into the room as it takes, and tells how many
/// there are, as `tellwydar_process_frames` does. If the result isn't 0, nothing has changed.
#[unsafe(no_mangle)]
pub unsafe extern "C" fn tellwydar_node_frames(
    handle: *mut u8,
    room: &mut [u8],
    length: &mut usize,
) -> u32
    ghost held: { HeldNode }
    requires* { sem 𝓛 (lies_at the_row full_share handle held) }
    ensures* { ∃ₛ
        (λ (after : HeldNode). sem 𝓛 (lies_at the_row full_share handle after)
        ∗ ⌜ (after ≡ held) × TellsFrames (frames_handed held.output) result room.old room.new length.old length.new ⌝) }
{
    frames(&mut *(handle as *mut HeldNode), room, length)
}

/// One number of what the handle holds, as the number `what` says.
#[unsafe(no_mangle)]
pub unsafe extern "C" fn tellwydar_node_look(handle: *mut u8, what: u32, register: u16) -> u64
    ghost held: { HeldNode }
    requires* { sem 𝓛 (lies_at the_row full_share handle held) }
    ensures* { ∃ₛ
        (λ (after : HeldNode). sem 𝓛 (lies_at the_row full_share handle after)
        ∗ ⌜ (after ≡ held) × (result ≡ node_number held what register) ⌝) }
{
    look(&mut *(handle as *mut HeldNode), what, register)
}

/// One number of what the node behind the handle knows of a peer, as the number `what` says.
#[unsafe(no_mangle)]
pub unsafe extern "C" fn tellwydar_node_known(handle: *mut u8, what: u32, peer: u8) -> u64
    ghost held: { HeldNode }
    requires* { sem 𝓛 (lies_at the_row full_share handle held) }
    ensures* { ∃ₛ
        (λ (after : HeldNode). sem 𝓛 (lies_at the_row full_share handle after)
        ∗ ⌜ (after ≡ held) × NodeTells held what peer result ⌝) }
{
    known(&mut *(handle as *mut HeldNode), what, peer)
}

/// Has the node behind the handle look at a peer, and tells what is due: 1 where the peer is to be greeted, and 2 where
/// the node is to tick.
#[unsafe(no_mangle)]
pub unsafe extern "C" fn tellwydar_node_watch(handle: *mut u8, peer: u8) -> u32
    ghost held: { HeldNode }
    requires* { sem 𝓛 (lies_at the_row full_share handle held) }
    ensures* { ∃ₛ
        (λ (after : HeldNode). sem 𝓛 (lies_at the_row full_share handle after)
        ∗ ⌜ NodeWatches peer held after result ⌝) }
{
    watch(&mut *(handle as *mut HeldNode), peer)
}

/// Tells the node behind the handle that something came from a peer.
#[unsafe(no_mangle)]
pub unsafe extern "C" fn tellwydar_node_came(handle: *mut u8, peer: u8) -> u32
    ghost held: { HeldNode }
    requires* { sem 𝓛 (lies_at the_row full_share handle held) }
    ensures* { ∃ₛ
        (λ (after : HeldNode). sem 𝓛 (lies_at the_row full_share handle after) ∗ ⌜ CameFrom peer held after result ⌝) }
{
    came(&mut *(handle as *mut HeldNode), peer)
}

/// Gives back the node behind the handle. The handle's own block is of `malloc`, and the caller's to free.
#[unsafe(no_mangle)]
pub unsafe extern "C" fn tellwydar_node_close(handle: *mut u8)
    ghost held: { HeldNode }
    requires* { sem 𝓛 (lies_at the_row full_share handle held) }
    ensures* { ∃ₛ
        (λ (after : HeldNode). sem 𝓛 (lies_at the_row full_share handle after)
        ∗ ⌜ (after.node ≡ KeptNode.Closed) × (after.output ≡ None) × (after.chapter ≡ None) × (after.peers ≡ None)
        × (after.course ≡ None) × (vec_capacity after.bytes ≡ 0) ⌝) }
{
    close(&mut *(handle as *mut HeldNode))
}
