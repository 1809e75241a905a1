//! A world that a caller holds.
ghost use Rattle.std.specs.Prelude.{◌≡◌, ◌<◌, [], Some, IfErr, IfOk, IfSome, None, vec_capacity};
ghost use Rattle.reg_world.specs.declared.faults.WorldFault.{WorldFault};
ghost use Rattle.reg_world.specs.Worlds.{new_world};
ghost use Rattle.reg_c.specs.declared.holding.Kept.{Kept};
ghost use Rattle.reg_c.specs.Events.{compare_and_swap_event, event_of, fault_code};
ghost use Rattle.reg_c.specs.Worlds.{Goes, GoesIn, HasOrders, HasPoints, IsOrder, Steps, events_in, history_in};
ghost use Rattle.reg_c.specs.Worlds.{kept_at_first, kept_under as world_under, looked, number_of, refusal_of, unmade};

use crate::choosing::{front_of, kept_under, of_kept};
use crate::codes::{CLOSED, NO_EVENT, NO_FRONT, NO_SHAPE};
use crate::events::{code_of_fault, code_of_reply, compare_and_swap_call, event, value_of_answer};
use crate::looking::{Look, look_at, of_entry, of_id, of_point};
use crate::unboxed::Unboxed;
use reg_base::{OpId, Shape};
use reg_checkers::{Entry, Point};
use reg_front::{Front, FrontEnd, Linear, LocalRead, LocalWrite, RealTime};
use reg_process::Reply;
use reg_world::{Event, PackedWires, World, WorldFault};
use std::alloc::{AllocError, Global};

/// A world whose wires take four bytes a frame.
type Packed<F> = World<F, Global, PackedWires<Global>>;

/// A world under the front end that its caller named, or none: it was closed.
#[derive(Drop)]
pub enum Kept {
    Linear(Packed<Linear>),
    LocalRead(Packed<LocalRead>),
    LocalWrite(Packed<LocalWrite>),
    Closed,
}

/// A world with the reply of its last step, and what was last asked of its order.
#[derive(Drop)]
pub struct Held {
    pub world: Kept,
    pub reply: Option<Reply>,
    pub order: Vec<OpId>,
    pub points: Vec<Point>,
}

/// A world of this front end, in which nothing happened yet.
fn new_kept(alloc: Global, front: Front, shape: Shape) -> Result<Kept, AllocError>
    ensures { IfOk result (λ kept. kept ≡ world_under front (new_world shape)) }
{
    kept_under!(front, Kept, World::new(alloc, shape))
}

/// A world of the front end of this number, in which nothing happened yet.
fn begin(alloc: Global, front: u32, shape: Shape) -> Result<Kept, u32>
    ensures world { IfOk result (λ kept. kept_at_first front shape ≡ Some kept) }
    ensures why { IfErr result (λ code. code ≡ unmade front) }
{
    let Some(front) = front_of(front) else {
        return Err(NO_FRONT);
    };
    match new_kept(alloc, front, shape) {
        Ok(kept) => Ok(kept),
        Err(AllocError) => Err(code_of_fault(WorldFault::OutOfMemory)),
    }
}

/// A world of this shape, in which nothing happened yet: 0, 1 and 2 are the front ends linear, local-read and
/// local-write.
///
/// # Errors
///
/// 34: there is no such shape. 35: there is no such front end. 23: memory was refused.
pub fn open(alloc: Global, front: u32, processes: u32, registers: u32) -> Result<Unboxed<Held>, u32>
    ensures world { IfOk result
        (λ b. kept_at_first front (record { processes = processes; registers = registers }) ≡ Some b.value.world) }
    ensures nothing_else { IfOk result
        (λ b. (b.value.reply ≡ None) × (b.value.order.items ≡ []) × (b.value.points.items ≡ [])) }
    ensures refused { IfErr result (λ code. 0 < code) }
    ensures why { IfErr result (λ code. code ≡ refusal_of front processes registers) }
{
    let Ok(shape) = Shape::new(processes, registers) else {
        return Err(NO_SHAPE);
    };
    let world = begin(alloc, front, shape)?;
    let held = Held {
        world,
        reply: None,
        order: Vec::new(alloc),
        points: Vec::new(alloc),
    };
    match Box::new(alloc, held) {
        Ok(held) => Ok(Unboxed::of(held)),
        Err(_) => Err(code_of_fault(WorldFault::OutOfMemory)),
    }
}

/// Makes an event in a world: the reply, and its number or that of the refusal.
fn go<F: FrontEnd>(world: &mut Packed<F>, event: &Event) -> (Option<Reply>, u32)
    ensures { Goes F.start event.now world.old world.new result.0 result.1 }
{
    match world.step_reply(event) {
        Ok(reply) => (reply, code_of_reply(reply)),
        Err(fault) => (None, code_of_fault(fault)),
    }
}

fn go_in(kept: &mut Kept, event: &Event) -> (Option<Reply>, u32)
    ensures { GoesIn event.now kept.old kept.new result.0 result.1 }
{
    of_kept!(kept, Kept, world => go(world, event), (None, CLOSED))
}

/// Makes the event, if there is one.
fn make(held: &mut Held, event: Option<Event>) -> u32
    ensures { Steps event held.old held.new result }
{
    let Some(event) = event else {
        return NO_EVENT;
    };
    let (reply, code) = go_in(&mut held.world, &event);
    held.reply = reply;
    code
}

/// Makes the event that these numbers say.
pub fn step(held: &mut Held, kind: u32, process: u8, number: u32, from: u8, value: u64) -> u32
    ensures { Steps (event_of kind process number from value) held.old held.new result }
{
    make(held, event(kind, process, number, from, value))
}

/// Calls the compare-and-swap that these numbers say.
pub fn compare_and_swap(
    held: &mut Held,
    process: u8,
    register: u32,
    expected: u64,
    value: u64,
) -> u32
    ensures { Steps (compare_and_swap_event process register expected value) held.old held.new result }
{
    make(
        held,
        compare_and_swap_call(process, register, expected, value),
    )
}

/// A serial order of the world's history, None where memory is refused.
fn serial<F: FrontEnd>(world: &Packed<F>) -> Option<Vec<OpId>>
    ensures { IfSome result (λ ids. IsOrder F.start world.now ids.items) }
{
    match world.serial_order() {
        Ok((_, ids)) => Some(ids),
        Err(_) => None,
    }
}

/// A point order of the world's history, None where memory is refused.
fn points<F: RealTime>(world: &Packed<F>) -> Option<Vec<Point>>
    ensures { IfSome result (λ points. HasPoints F.start world.now points.items) }
{
    match world.linearization() {
        Ok((_, points)) => Some(points),
        Err(_) => None,
    }
}

/// The orders of what is kept, None where memory is refused.
fn orders(alloc: Global, kept: &Kept) -> Option<(Vec<OpId>, Vec<Point>)>
    ensures { IfSome result (λ o. HasOrders kept.now o.0.items o.1.items) }
{
    match kept {
        Kept::Linear(world) => Some((serial(world)?, points(world)?)),
        Kept::LocalRead(world) => Some((serial(world)?, Vec::new(alloc))),
        Kept::LocalWrite(world) => Some((serial(world)?, Vec::new(alloc))),
        Kept::Closed => Some((Vec::new(alloc), Vec::new(alloc))),
    }
}

/// Asks the world for its serial order and, where its front end has one, its point order, which `look` then shows.
/// Where memory is refused nothing changes: the orders that were asked for before are kept.
pub fn arrange(held: &mut Held) -> u32
    ensures same { (held.new.world ≡ held.old.world) × (held.new.reply ≡ held.old.reply) }
    ensures right { result ≡ 0 → HasOrders held.new.world held.new.order.items held.new.points.items }
    ensures why { 0 < result → result ≡ fault_code WorldFault.OutOfMemory }
    ensures kept { 0 < result → held.new ≡ held.old }
{
    let alloc = *held.order.allocator();
    let Some((order, points)) = orders(alloc, &held.world) else {
        return code_of_fault(WorldFault::OutOfMemory);
    };
    held.order = order;
    held.points = points;
    0
}

/// How many events were accepted.
fn events(kept: &Kept) -> u64
    ensures { result ≡ events_in kept.now }
{
    u64::from(of_kept!(kept, Kept, world => world.events(), 0))
}

/// The calls and answers.
fn history(kept: &Kept) -> &[Entry]
    ensures { result.now ≡ history_in kept.now }
{
    of_kept!(kept, Kept, world => world.history().entries(), &[])
}

/// What a look tells.
fn number(held: &Held, look: Look, at: usize) -> u64
    ensures { result ≡ looked held.now look at }
{
    match look {
        Look::Events => events(&held.world),
        Look::Entries => history(&held.world).len() as u64,
        Look::OfEntry(part) => match history(&held.world).get(at) {
            Some(entry) => of_entry(part, entry),
            None => 0,
        },
        Look::ReplyValue => match held.reply {
            Some(reply) => value_of_answer(reply.answer),
            None => 0,
        },
        Look::ReplyPlace => match held.reply {
            Some(reply) => reply.place,
            None => 0,
        },
        Look::Ids => held.order.len() as u64,
        Look::OfId(part) => match held.order.get(at) {
            Some(id) => of_id(part, id),
            None => 0,
        },
        Look::Points => held.points.len() as u64,
        Look::OfPoint(part) => match held.points.get(at) {
            Some(point) => of_point(part, point),
            None => 0,
        },
    }
}

/// One number of what is held, as the number `what` says.
pub fn look(held: &mut Held, what: u32, at: u32) -> u64
    ensures same { held.new ≡ held.old }
    ensures value { result ≡ number_of held.old what at }
{
    match look_at(what) {
        Some(look) => number(held, look, at as usize),
        None => 0,
    }
}

/// Gives back what is held.
pub fn close(held: &mut Held)
    ensures { (held.new.world ≡ Kept.Closed) × (held.new.reply ≡ None) × (vec_capacity held.new.order ≡ 0)
        × (vec_capacity held.new.points ≡ 0) }
{
    let alloc = *held.order.allocator();
    held.world = Kept::Closed;
    held.reply = None;
    held.order = Vec::new(alloc);
    held.points = Vec::new(alloc);
}
