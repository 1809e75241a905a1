//! The course of a chapter of a node that a caller holds by a pointer.
ghost use Rattle.std.specs.Prelude.{◌≡◌};
ghost use Rattle.std.specs.Borrow.{full_share, sem};
ghost use Rattle.std.specs.Ptr.{lies_at};
ghost use Rattle.reg_c.specs.declared.nodes.HeldNode.{HeldNode};
ghost use Rattle.reg_c.specs.contracts.nodes.HeldNode.{the_row};
ghost use Rattle.reg_c.specs.NodeCourses.{NodeEnds, NodeFollows, NodeHasRoom, course_number};

use crate::node_courses::{course, end, follow, set_room};
use crate::nodes::HeldNode;

/// Sets the room of the chapter of the node behind the handle, by the numbers that `tellwydar_room` tells. The chapter
/// follows no other one then, and nobody has asked for its end. If the result isn't 0, nothing has changed.
#[unsafe(no_mangle)]
pub unsafe extern "C" fn tellwydar_node_set_room(
    handle: *mut u8,
    operations: u64,
    entries: u64,
    ahead: u64,
) -> u32
    ghost held: { HeldNode }
    requires* { sem 𝓛 (lies_at the_row full_share handle held) }
    ensures* { ∃ₛ
        (λ (after : HeldNode). sem 𝓛 (lies_at the_row full_share handle after)
        ∗ ⌜ NodeHasRoom operations entries ahead held after result ⌝) }
{
    set_room(&mut *(handle as *mut HeldNode), operations, entries, ahead)
}

/// Notes that the chapter before that of the node behind the handle ended with these values of the registers: those
/// that aren't 0 are what process 0 writes first. If the result isn't 0, nothing has changed.
#[unsafe(no_mangle)]
pub unsafe extern "C" fn tellwydar_node_follow(handle: *mut u8, values: &[u64]) -> u32
    ghost held: { HeldNode }
    requires* { sem 𝓛 (lies_at the_row full_share handle held) }
    ensures* { ∃ₛ
        (λ (after : HeldNode). sem 𝓛 (lies_at the_row full_share handle after)
        ∗ ⌜ NodeFollows values.now held after result ⌝) }
{
    follow(&mut *(handle as *mut HeldNode), values)
}

/// Asks for the end of the chapter of the node behind the handle, as is due where another one tells how far it has
/// come. If the result isn't 0, nothing has changed.
#[unsafe(no_mangle)]
pub unsafe extern "C" fn tellwydar_node_end(handle: *mut u8) -> u32
    ghost held: { HeldNode }
    requires* { sem 𝓛 (lies_at the_row full_share handle held) }
    ensures* { ∃ₛ
        (λ (after : HeldNode). sem 𝓛 (lies_at the_row full_share handle after) ∗ ⌜ NodeEnds held after result ⌝) }
{
    end(&mut *(handle as *mut HeldNode))
}

/// One number of the course of the chapter of the node behind the handle, as the number `what` says; `running` isn't 0
/// where an operation runs or its reply isn't handed out.
#[unsafe(no_mangle)]
pub unsafe extern "C" fn tellwydar_node_course(handle: *mut u8, what: u32, running: u32) -> u64
    ghost held: { HeldNode }
    requires* { sem 𝓛 (lies_at the_row full_share handle held) }
    ensures* { ∃ₛ
        (λ (after : HeldNode). sem 𝓛 (lies_at the_row full_share handle after)
        ∗ ⌜ (after ≡ held) × (result ≡ course_number held what running) ⌝) }
{
    course(&mut *(handle as *mut HeldNode), what, running)
}
