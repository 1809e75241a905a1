//! Worlds that a caller holds by a pointer.
ghost use Rattle.std.specs.Prelude.{◌≡◌, ◌<◌, None, vec_capacity};
ghost use Rattle.std.specs.Borrow.{full_share, sem};
ghost use Rattle.std.specs.Ptr.{lies_at};
ghost use Rattle.reg_world.specs.declared.faults.WorldFault.{WorldFault};
ghost use Rattle.reg_c.specs.declared.holding.Held.{Held};
ghost use Rattle.reg_c.specs.declared.holding.Kept.{Kept};
ghost use Rattle.reg_c.specs.contracts.holding.Held.{the_row};
ghost use Rattle.reg_c.specs.Events.{compare_and_swap_event, event_of, fault_code};
ghost use Rattle.reg_c.specs.Worlds.{HasOrders, IsOpened, Steps, number_of, refusal_of};

use crate::holding::{Held, arrange, close, compare_and_swap, look, open, step};
use crate::unboxed::Unboxed;
use std::alloc::Global;

/// Writes the pointer for the caller, as one to bytes: what it points to is not for C to look into.
fn put(handle: &mut *mut u8, held: *mut Held)
    ensures { handle.new ≡ held }
{
    *handle = held as *mut u8;
}

/// Makes a world in which nothing happened yet. Where the result is 0 there is one behind the handle, and else the
/// handle is as it was.
#[unsafe(no_mangle)]
pub extern "C" fn tellwydar_world_new(
    alloc: Global,
    front: u32,
    processes: u32,
    registers: u32,
    handle: &mut *mut u8,
) -> u32
    ensures room { 0 < result → handle.new ≡ handle.old }
    ensures why { 0 < result → result ≡ refusal_of front processes registers }
    ensures front { result ≡ 0 → front < 3 }
    ensures* world { ⌜ result ≡ 0 ⌝
        -∗ ∃ₛ
        (λ (held : Held). sem 𝓛 (lies_at the_row full_share handle.new held)
        ∗ ⌜ IsOpened front (record { processes = processes; registers = registers }) held ⌝) }
{
    match open(alloc, front, processes, registers) {
        Ok(held) => {
            let Unboxed { at } = held;
            put(handle, at);
            0
        }
        Err(code) => code,
    }
}

/// Makes the event that these numbers say, in the world behind the handle.
#[unsafe(no_mangle)]
pub unsafe extern "C" fn tellwydar_world_step(
    handle: *mut u8,
    kind: u32,
    process: u8,
    number: u32,
    from: u8,
    value: u64,
) -> u32
    ghost held: { Held }
    requires* { sem 𝓛 (lies_at the_row full_share handle held) }
    ensures* { ∃ₛ
        (λ (after : Held). sem 𝓛 (lies_at the_row full_share handle after)
        ∗ ⌜ Steps (event_of kind process number from value) held after result ⌝) }
{
    step(
        &mut *(handle as *mut Held),
        kind,
        process,
        number,
        from,
        value,
    )
}

/// Calls the compare-and-swap that these numbers say, in the world behind the handle.
#[unsafe(no_mangle)]
pub unsafe extern "C" fn tellwydar_world_compare_and_swap(
    handle: *mut u8,
    process: u8,
    register: u32,
    expected: u64,
    value: u64,
) -> u32
    ghost held: { Held }
    requires* { sem 𝓛 (lies_at the_row full_share handle held) }
    ensures* { ∃ₛ
        (λ (after : Held). sem 𝓛 (lies_at the_row full_share handle after)
        ∗ ⌜ Steps (compare_and_swap_event process register expected value) held after result ⌝) }
{
    compare_and_swap(
        &mut *(handle as *mut Held),
        process,
        register,
        expected,
        value,
    )
}

/// Asks the world behind the handle for its serial order and, where its front end has one, its point order. Where the
/// result isn't 0, memory was refused, and the orders that were asked for before are kept.
#[unsafe(no_mangle)]
pub unsafe extern "C" fn tellwydar_world_arrange(handle: *mut u8) -> u32
    ghost held: { Held }
    requires* { sem 𝓛 (lies_at the_row full_share handle held) }
    ensures* { ∃ₛ
        (λ (after : Held). sem 𝓛 (lies_at the_row full_share handle after)
        ∗ ⌜ (after.world ≡ held.world) × (after.reply ≡ held.reply)
        × (result ≡ 0 → HasOrders after.world after.order.items after.points.items)
        × (0 < result → result ≡ fault_code WorldFault.OutOfMemory) × (0 < result → after ≡ held) ⌝) }
{
    arrange(&mut *(handle as *mut Held))
}

/// One number of what the handle holds, as the number `what` says.
#[unsafe(no_mangle)]
pub unsafe extern "C" fn tellwydar_world_look(handle: *mut u8, what: u32, at: u32) -> u64
    ghost held: { Held }
    requires* { sem 𝓛 (lies_at the_row full_share handle held) }
    ensures* { ∃ₛ
        (λ (after : Held). sem 𝓛 (lies_at the_row full_share handle after)
        ∗ ⌜ (after ≡ held) × (result ≡ number_of held what at) ⌝) }
{
    look(&mut *(handle as *mut Held), what, at)
}

/// Gives back the world behind the handle. The handle's own block is of `malloc`, and the caller's to free.
#[unsafe(no_mangle)]
pub unsafe extern "C" fn tellwydar_world_close(handle: *mut u8)
    ghost held: { Held }
    requires* { sem 𝓛 (lies_at the_row full_share handle held) }
    ensures* { ∃ₛ
        (λ (after : Held). sem 𝓛 (lies_at the_row full_share handle after)
        ∗ ⌜ (after.world ≡ Kept.Closed) × (after.reply ≡ None) × (vec_capacity after.order ≡ 0)
        × (vec_capacity after.points ≡ 0) ⌝) }
{
    close(&mut *(handle as *mut Held))
}
