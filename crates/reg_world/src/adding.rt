//! What an event adds to the lists of a book: its call, its answer, its read, and the casts that are delivered in it
//! for the first time.
ghost use Rattle.std.specs.Prelude.{◌≡◌, ◌<◌, ◌≤◌, ◌+◌, ◌-◌, ◌++◌, ◌∷◌, [], if◌then◌else◌, ℕ, length, vec_len};
ghost use Rattle.std.specs.Prelude.{vec_capacity};
ghost use Rattle.reg_base.specs.declared.stamps.Delivered.{Delivered};
ghost use Rattle.reg_base.specs.Order.{In};
ghost use Rattle.reg_checkers.specs.History.{IsAt, IsHistory};
ghost use Rattle.reg_world.specs.World.{op_id, calls_in, answers_in};
ghost use Rattle.reg_world.specs.Tallies.{Tally};
ghost use Rattle.reg_world.specs.Witnesses.{is_after as is_after_of, last_stamp as last_stamp_of};
ghost use Rattle.reg_world.specs.Pages.{copied_in, first_in, firsts_in, tally_at, number_at, TimesDiffer};

use crate::callers::Caller;
use crate::order::{CopyRead, First};
use crate::witnesses::{is_after, last_stamp};
use reg_base::{Delivered, OpId, Stamp};
use reg_checkers::{Entry, History};
use reg_process::{Reply, Step};
use std::alloc::Allocator;

/// Adds the call of an operation.
// (in line: it runs at each event, and what it adds would be copied for a call)
#[inline(always)]
pub(crate) fn push_call<A: Allocator + Copy>(
    history: &mut History<A>,
    at: u32,
    id: OpId,
    step: &Step,
)
    requires room { 1 ≤ history.old.room }
    requires in_place { IsHistory history.old.shape.processes history.old.shape.registers
        (history.old.entries ++ calls_in at id step.now) }
    ensures shape { history.new.shape ≡ history.old.shape }
    ensures entries { history.new.entries ≡ history.old.entries ++ calls_in at id step.now }
    ensures room { history.old.room ≤ history.new.room + 1 }
{
    if let Step::Call { op } = *step {
        match history.push(Entry::Called { at, id, op }) {
            Ok(()) => {}
            Err(_) => unreachable!(),
        }
    }
}

/// Adds the answer of an operation.
// (in line: it runs at each event, and what it adds would be copied for a call)
#[inline(always)]
pub(crate) fn push_answer<A: Allocator + Copy>(
    history: &mut History<A>,
    at: u32,
    id: OpId,
    reply: Option<Reply>,
)
    requires room { 1 ≤ history.old.room }
    requires in_place { IsHistory history.old.shape.processes history.old.shape.registers
        (history.old.entries ++ answers_in at id reply) }
    ensures shape { history.new.shape ≡ history.old.shape }
    ensures entries { history.new.entries ≡ history.old.entries ++ answers_in at id reply }
{
    if let Some(reply) = reply {
        match history.push(Entry::Answered {
            at,
            id,
            answer: reply.answer,
        }) {
            Ok(()) => {}
            Err(_) => unreachable!(),
        }
    }
}

/// The id of the operation that a delivered cast carries.
fn id_of<A: Allocator + Copy>(callers: &mut Vec<Caller<A>, A>, stamp: Stamp) -> OpId
    requires caster { stamp.process < length callers.old.items }
    requires differ { TimesDiffer (tally_at callers.old.items stamp.process).casts }
    ensures same { callers.new.items ≡ callers.old.items }
    ensures id { result ≡ op_id stamp.process (number_at (tally_at callers.old.items stamp.process).casts stamp.time) }
{
    let process = stamp.process;
    let number = callers[usize::from(process)].number_of(stamp.time);
    OpId { process, number }
}

/// Adds the cast, if it comes after the last one that was delivered.
fn push_first<A: Allocator + Copy>(
    order: &mut Vec<First, A>,
    callers: &mut Vec<Caller<A>, A>,
    at: u32,
    last: Option<Stamp>,
    cast: &Delivered,
)
    requires room { vec_len order.old < vec_capacity order.old }
    requires caster { cast.now.stamp.process < length callers.old.items }
    requires differ { TimesDiffer (tally_at callers.old.items cast.now.stamp.process).casts }
    ensures order { order.new.items
        ≡ order.old.items
        ++ (if is_after_of last cast.now.stamp then first_in callers.old.items at cast.now ∷ [] else []) }
    ensures same { callers.new.items ≡ callers.old.items }
    ensures few { vec_len order.new ≤ vec_len order.old + 1 }
    ensures capacity { vec_capacity order.new ≡ vec_capacity order.old }
{
    if is_after(last, cast.stamp) {
        let id = id_of(callers, cast.stamp);
        order.push_reserved(First {
            stamp: cast.stamp,
            id,
            op: cast.op,
            at,
        });
    }
}

/// Adds the casts that come after the last one that was delivered.
// (in line: it runs at each event, and its lists stay in registers from one push to the next)
#[inline(always)]
pub(crate) fn push_firsts<A: Allocator + Copy>(
    order: &mut Vec<First, A>,
    callers: &mut Vec<Caller<A>, A>,
    at: u32,
    delivered: &[Delivered],
)
    requires room { vec_len order.old + length delivered.now ≤ vec_capacity order.old }
    requires casters { (d : Delivered) → In d delivered.now → d.stamp.process < length callers.old.items }
    requires differ { (p : ℕ) (t : Tally) → IsAt callers.old.items p t → TimesDiffer t.casts }
    ensures order { order.new.items
        ≡ order.old.items ++ firsts_in callers.old.items at (last_stamp_of order.old.items) delivered.now }
    ensures same { callers.new.items ≡ callers.old.items }
{
    let last = last_stamp(order);
    for cast in delivered {
        push_first(order, callers, at, last, cast);
    }
}

/// Adds the read, if the reply is to one from a copy.
pub(crate) fn push_read<A: Allocator + Copy>(
    reads: &mut Vec<CopyRead, A>,
    id: OpId,
    is_copied: bool,
    reply: Option<Reply>,
)
    requires { vec_len reads.old < vec_capacity reads.old }
    ensures { reads.new.items ≡ reads.old.items ++ copied_in is_copied id reply }
{
    if let Some(reply) = reply
        && is_copied
    {
        reads.push_reserved(CopyRead {
            id,
            place: reply.place,
        });
    }
}
