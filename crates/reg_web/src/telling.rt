//! What a command tells over memory that the host lends.
ghost use Rattle.reg_commands.specs.Lent.{Fills, IsTold};

use reg_commands::{Lengths, TextCommand, tell};
use reg_heap::{LentHeap, Room};
use std::alloc::Allocator;

/// Runs a command, and puts what it tells into the rooms, as far as they take it.
fn tell_over<C: TextCommand, A: Allocator + Copy>(
    command: C,
    alloc: A,
    text: &[u8],
    output: &mut [u8],
    errors: &mut [u8],
    lengths: &mut Lengths,
) -> u8
    requires { C.IsReady command }
    ensures { Fills
        (IsTold (C.MayDeny command) C.Fault.of_fault C.Fault.line (C.IsBlamed command) (C.IsAnswer command) text.now)
        result output.old output.new errors.old errors.new lengths.new }
{
    tell(command, alloc, text).put(output, errors, lengths)
}

/// The same over a heap in memory that is lent. What no block was cut from is lent no more.
pub(crate) fn tell_in<C: TextCommand>(
    command: C,
    room: &mut Room,
    text: &[u8],
    output: &mut [u8],
    errors: &mut [u8],
    lengths: &mut Lengths,
) -> u8
    requires { C.IsReady command }
    ensures { Fills
        (IsTold (C.MayDeny command) C.Fault.of_fault C.Fault.line (C.IsBlamed command) (C.IsAnswer command) text.now)
        result output.old output.new errors.old errors.new lengths.new }
{
    let heap = LentHeap::new(room.take());
    let status = tell_over(command, &heap, text, output, errors, lengths);
    if let Some(left) = heap.into_room() {
        *room = left;
    }
    status
}
