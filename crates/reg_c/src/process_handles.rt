//! Processes that a caller holds by a pointer.
ghost use Rattle.std.specs.Prelude.{◌≡◌, ◌<◌, None, vec_capacity};
ghost use Rattle.std.specs.Borrow.{full_share, sem};
ghost use Rattle.std.specs.Ptr.{lies_at};
ghost use Rattle.reg_process.specs.declared.steps.Step.TheVariants.{Tick};
ghost use Rattle.reg_c.specs.declared.processes.HeldProcess.{HeldProcess};
ghost use Rattle.reg_c.specs.declared.processes.KeptProcess.{KeptProcess};
ghost use Rattle.reg_c.specs.contracts.processes.HeldProcess.{the_row};
ghost use Rattle.reg_c.specs.Events.{compare_and_swap_of, op_of};
ghost use Rattle.reg_c.specs.Processes.{Calls, IsFirstProcess, Made, Takes, TellsFrames, TellsKnown, process_number};
ghost use Rattle.reg_c.specs.Processes.{process_refusal, state_in};

use crate::processes::{
    HeldProcess, call, close, compare_and_swap, frames, known, look, open, take, tick,
};
use crate::unboxed::Unboxed;
use std::alloc::Global;

/// Writes the pointer for the caller, as one to bytes: what it points to is not for C to look into.
fn put(handle: &mut *mut u8, held: *mut HeldProcess)
    ensures { handle.new ≡ held }
{
    *handle = held as *mut u8;
}

/// Makes a process that did nothing yet. Where the result is 0 there is one behind the handle, and else the handle is
/// as it was.
#[unsafe(no_mangle)]
pub extern "C" fn tellwydar_process_new(
    alloc: Global,
    front: u32,
    processes: u32,
    registers: u32,
    me: u8,
    handle: &mut *mut u8,
) -> u32
    ensures room { 0 < result → handle.new ≡ handle.old }
    ensures why { 0 < result → result ≡ process_refusal front processes registers me }
    ensures front { result ≡ 0 → front < 3 }
    ensures me { result ≡ 0 → me < processes }
    ensures* process { ⌜ result ≡ 0 ⌝
        -∗ ∃ₛ
        (λ (held : HeldProcess). sem 𝓛 (lies_at the_row full_share handle.new held)
        ∗ ⌜ IsFirstProcess front me (record { processes = processes; registers = registers }) held ⌝) }
{
    match open(alloc, front, processes, registers, me) {
        Ok(held) => {
            let Unboxed { at } = held;
            put(handle, at);
            0
        }
        Err(code) => code,
    }
}

/// Calls the operation that these numbers say, at the process behind the handle.
#[unsafe(no_mangle)]
pub unsafe extern "C" fn tellwydar_process_call(
    handle: *mut u8,
    kind: u32,
    register: u32,
    value: u64,
) -> u32
    ghost held: { HeldProcess }
    requires* { sem 𝓛 (lies_at the_row full_share handle held) }
    ensures* { ∃ₛ
        (λ (after : HeldProcess). sem 𝓛 (lies_at the_row full_share handle after)
        ∗ ⌜ Calls (op_of kind register value) held after result ⌝) }
{
    call(&mut *(handle as *mut HeldProcess), kind, register, value)
}

/// Calls the compare-and-swap that these numbers say, at the process behind the handle.
#[unsafe(no_mangle)]
pub unsafe extern "C" fn tellwydar_process_compare_and_swap(
    handle: *mut u8,
    register: u32,
    expected: u64,
    value: u64,
) -> u32
    ghost held: { HeldProcess }
    requires* { sem 𝓛 (lies_at the_row full_share handle held) }
    ensures* { ∃ₛ
        (λ (after : HeldProcess). sem 𝓛 (lies_at the_row full_share handle after)
        ∗ ⌜ Calls (compare_and_swap_of register expected value) held after result ⌝) }
{
    compare_and_swap(
        &mut *(handle as *mut HeldProcess),
        register,
        expected,
        value,
    )
}

/// Has the process behind the handle take the frame of `from` that the bytes spell. Where they spell none, nothing
/// changes.
#[unsafe(no_mangle)]
pub unsafe extern "C" fn tellwydar_process_take(handle: *mut u8, from: u8, bytes: &[u8]) -> u32
    ghost held: { HeldProcess }
    requires* { sem 𝓛 (lies_at the_row full_share handle held) }
    ensures* { ∃ₛ
        (λ (after : HeldProcess). sem 𝓛 (lies_at the_row full_share handle after)
        ∗ ⌜ Takes from bytes.now held after result ⌝) }
{
    take(&mut *(handle as *mut HeldProcess), from, bytes)
}

/// Has the process behind the handle put the first unacknowledged frames of every link again.
#[unsafe(no_mangle)]
pub unsafe extern "C" fn tellwydar_process_tick(handle: *mut u8) -> u32
    ghost held: { HeldProcess }
    requires* { sem 𝓛 (lies_at the_row full_share handle held) }
    ensures* { ∃ₛ
        (λ (after : HeldProcess). sem 𝓛 (lies_at the_row full_share handle after) ∗ ⌜ Made Tick held after result ⌝) }
{
    tick(&mut *(handle as *mut HeldProcess))
}

/// Puts as many of the bytes of the last step's frames into the room as it takes, and tells how many there are: for
/// each frame a byte for its receiver, and the bytes that spell it. Where the result isn't 0, nothing has changed.
#[unsafe(no_mangle)]
pub unsafe extern "C" fn tellwydar_process_frames(
    handle: *mut u8,
    room: &mut [u8],
    length: &mut usize,
) -> u32
    ghost held: { HeldProcess }
    requires* { sem 𝓛 (lies_at the_row full_share handle held) }
    ensures* { ∃ₛ
        (λ (after : HeldProcess). sem 𝓛 (lies_at the_row full_share handle after)
        ∗ ⌜ (after ≡ held) × TellsFrames held.frames.items result room.old room.new length.old length.new ⌝) }
{
    frames(&mut *(handle as *mut HeldProcess), room, length)
}

/// One number of what the handle holds, as the number `what` says.
#[unsafe(no_mangle)]
pub unsafe extern "C" fn tellwydar_process_look(handle: *mut u8, what: u32, register: u16) -> u64
    ghost held: { HeldProcess }
    requires* { sem 𝓛 (lies_at the_row full_share handle held) }
    ensures* { ∃ₛ
        (λ (after : HeldProcess). sem 𝓛 (lies_at the_row full_share handle after)
        ∗ ⌜ (after ≡ held) × (result ≡ process_number held what register) ⌝) }
{
    look(&mut *(handle as *mut HeldProcess), what, register)
}

/// One number of what the process behind the handle knows of another one, as the number `what` says.
#[unsafe(no_mangle)]
pub unsafe extern "C" fn tellwydar_process_known(handle: *mut u8, what: u32, peer: u8) -> u64
    ghost held: { HeldProcess }
    requires* { sem 𝓛 (lies_at the_row full_share handle held) }
    ensures* { ∃ₛ
        (λ (after : HeldProcess). sem 𝓛 (lies_at the_row full_share handle after)
        ∗ ⌜ (after ≡ held) × TellsKnown (state_in held.process) what peer result ⌝) }
{
    known(&mut *(handle as *mut HeldProcess), what, peer)
}

/// Gives back the process behind the handle. The handle's own block is of `malloc`, and the caller's to free.
#[unsafe(no_mangle)]
pub unsafe extern "C" fn tellwydar_process_close(handle: *mut u8)
    ghost held: { HeldProcess }
    requires* { sem 𝓛 (lies_at the_row full_share handle held) }
    ensures* { ∃ₛ
        (λ (after : HeldProcess). sem 𝓛 (lies_at the_row full_share handle after)
        ∗ ⌜ (after.process ≡ KeptProcess.Closed) × (after.reply ≡ None) × (vec_capacity after.frames ≡ 0) ⌝) }
{
    close(&mut *(handle as *mut HeldProcess))
}
