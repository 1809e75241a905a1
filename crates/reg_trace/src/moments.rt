//! What each event of a run did.
ghost use Rattle.std.specs.Prelude.{◌≡◌, ◌≢◌, ◌<◌, ◌++◌, ℕ, Some, false, drop, length, map, take, slice_index, IfErr};
ghost use Rattle.std.specs.Prelude.{IfOk, OnOk};
ghost use Rattle.reg_base.specs.Memory.{after, register_of};
ghost use Rattle.reg_process.specs.Process.{peer_at};
ghost use Rattle.reg_world.specs.Histories.{process_of};
ghost use Rattle.reg_world.specs.World.{delivered_of};
ghost use Rattle.reg_world.specs.Worlds.{Accepts, refusal, run_in};
ghost use Rattle.reg_trace.specs.Moments.{deliveries_of, expected_by, frame_taken, moment_of, out_of_turn, placed};
ghost use Rattle.reg_trace.specs.Moments.{puts_since};

use crate::waits::{Wait, waits_in};
use reg_base::Registers;
use reg_base::limits::MOST_PROCESSES;
use reg_frames::Frame;
use reg_front::FrontEnd;
use reg_process::{Delivered, Reply};
use reg_world::{Event, World, WorldFault};
use std::alloc::{AllocError, Allocator, Global};
use std::marker::Model;

const WIDTH: usize = MOST_PROCESSES as usize;

/// A frame that an event put, with the process that it is for and its place on that wire.
#[derive(Clone, Copy, Debug, PartialEq, Eq)]
pub struct Sent {
    pub to: u8,
    pub place: usize,
    pub frame: Frame,
}

/// A cast that a process delivered.
#[derive(Clone, Copy, Debug, PartialEq, Eq)]
pub struct Delivery {
    pub cast: Delivered,
    /// What the copy has of the operation's register after it.
    pub value: u64,
}

/// What an event did.
#[derive(Drop)]
pub struct Moment<A: Allocator + Copy = Global> {
    pub event: Event,
    /// The process that the event is of.
    pub process: u8,
    /// The frame that a take took.
    pub frame: Option<Frame>,
    /// The number that was expected, where the frame is a data frame of another number: it was dropped.
    pub expected: Option<u64>,
    /// The clock of the process after the event.
    pub clock: u64,
    /// The casts that the process delivered, in order.
    pub delivered: Vec<Delivery, A>,
    /// The reply that the event gave.
    pub reply: Option<Reply>,
    /// The casts that the process holds back after the event, in the order of their stamps.
    pub waits: Vec<Wait, A>,
    /// The frames that the process put, by rising receiver and place.
    pub sent: Vec<Sent, A>,
}

impl<A: Allocator + Copy> Model for Moment<A> {
    ghost use Rattle.reg_trace.specs.Moments.{Fact};

    ghost Value = { Fact };

    ghost view = { λ m.
        record {
          event = m.event;
          process = m.process;
          frame = m.frame;
          expected = m.expected;
          clock = m.clock;
          delivered = m.delivered.items;
          reply = m.reply;
          waits = m.waits.items;
          sent = m.sent.items;
        } };
}

/// The process that an event is of.
pub fn process_of_event(event: &Event) -> u8
    ensures { result ≡ process_of event.now }
{
    match event {
        Event::Call { process, .. } => *process,
        Event::Take { to, .. } => *to,
        Event::Tick { process } => *process,
    }
}

/// The frame that an event takes.
fn frame_of<F: FrontEnd, A: Allocator + Copy>(world: &World<F, A>, event: &Event) -> Option<Frame>
    requires { world.now.failed ≡ false }
    ensures { result ≡ frame_taken world.now.processes (run_in F.start world.now).nodes event.now }
{
    match event {
        Event::Take { from, to, number } => match world.wire(*from, *to) {
            Some(frames) => frames.get(*number as usize).copied(),
            None => None,
        },
        _ => None,
    }
}

/// The number that a process expects of the next data frame of another one.
fn expected_from<F: FrontEnd, A: Allocator + Copy>(world: &World<F, A>, from: u8, to: u8) -> u64
    requires going { world.now.failed ≡ false }
    requires from { from < world.now.processes }
    requires to { to < world.now.processes }
    requires other { from ≡ to → ⊥ }
    ensures { result ≡ (peer_at ((run_in F.start world.now).nodes to).state from).expected }
{
    match world.process(to) {
        Some(process) => match process.known(from) {
            Some(known) => known.expected,
            None => unreachable!(),
        },
        None => unreachable!(),
    }
}

/// The number that the receiver of a take expects of the sender's next data frame.
fn expected_of<F: FrontEnd, A: Allocator + Copy>(world: &World<F, A>, event: &Event) -> Option<u64>
    requires { world.now.failed ≡ false }
    ensures { result ≡ expected_by world.now.processes (run_in F.start world.now).nodes event.now }
{
    match event {
        Event::Take { from, to, .. } => world
            .wire(*from, *to)
            .map(|_| expected_from(world, *from, *to)),
        _ => None,
    }
}

/// The number expected, where the frame is a data frame of another number: one that is dropped.
fn unexpected(frame: Option<Frame>, expected: Option<u64>) -> Option<u64>
    ensures { result ≡ out_of_turn frame expected }
{
    match frame {
        Some(Frame::Numbered { number, .. }) => match expected {
            Some(expected) => {
                if number == expected {
                    None
                } else {
                    Some(expected)
                }
            }
            None => None,
        },
        _ => None,
    }
}

/// How many frames stand on the wires of a process, by receiver.
fn lengths<F: FrontEnd, A: Allocator + Copy>(world: &World<F, A>, process: u8) -> [usize; WIDTH]
    requires going { world.now.failed ≡ false }
    requires process { process < world.now.processes }
    ensures { (to : ℕ) → to < world.now.processes → (to ≡ process → ⊥)
        → slice_index result to ≡ length (((run_in F.start world.now).nodes process).wire to) }
{
    let mut lengths = [0; WIDTH];
    for to in 0..world.shape().processes() as u8 {
        if let Some(frames) = world.wire(process, to) {
            lengths[usize::from(to)] = frames.len();
        }
    }
    lengths
}

/// Adds the frames of a wire from this place on.
fn push_sent<A: Allocator + Copy>(
    sent: &mut Vec<Sent, A>,
    to: u8,
    first: usize,
    frames: &[Frame],
) -> Result<(), AllocError>
    ensures { OnOk result (sent.new.items ≡ sent.old.items ++ placed to first (drop first frames.now)) }
{
    for place in first..frames.len() {
        let frame = frames[place];
        sent.push(Sent { to, place, frame })?;
    }
    Ok(())
}

/// The frames that a process put after those of these lengths.
fn sent_since<F: FrontEnd, A: Allocator + Copy>(
    alloc: A,
    world: &World<F, A>,
    process: u8,
    lengths: &[usize; WIDTH],
) -> Result<Vec<Sent, A>, AllocError>
    requires going { world.now.failed ≡ false }
    requires process { process < world.now.processes }
    ensures { IfOk result (λ v. v.items
        ≡ puts_since process (slice_index lengths.now) ((run_in F.start world.now).nodes process).wire
        world.now.processes) }
{
    let mut sent = Vec::new(alloc);
    for to in 0..world.shape().processes() as u8 {
        if let Some(frames) = world.wire(process, to) {
            push_sent(&mut sent, to, lengths[usize::from(to)], frames)?;
        }
    }
    Ok(sent)
}

/// How many casts a process has delivered.
fn delivered_count<F: FrontEnd, A: Allocator + Copy>(world: &World<F, A>, process: u8) -> u64
    requires going { world.now.failed ≡ false }
    requires process { process < world.now.processes }
    ensures { result ≡ ((run_in F.start world.now).nodes process).state.delivered }
{
    match world.process(process) {
        Some(process) => process.delivered_count(),
        None => unreachable!(),
    }
}

/// The clock of a process.
fn clock_of<F: FrontEnd, A: Allocator + Copy>(world: &World<F, A>, process: u8) -> u64
    requires going { world.now.failed ≡ false }
    requires process { process < world.now.processes }
    ensures { result ≡ ((run_in F.start world.now).nodes process).state.clock }
{
    match world.process(process) {
        Some(process) => process.clock(),
        None => unreachable!(),
    }
}

/// The casts of the one order from this place up to that.
fn casts_between<F: FrontEnd, A: Allocator + Copy>(
    alloc: A,
    world: &World<F, A>,
    first: u64,
    end: u64,
) -> Result<Vec<Delivered, A>, AllocError>
    ensures { IfOk result (λ v. v.items ≡ drop first (take end (map delivered_of (run_in F.start world.now).order))) }
{
    let order = world.order();
    order
        .iter()
        .map(|first| Delivered {
            stamp: first.stamp,
            op: first.op,
        })
        .take(end as usize)
        .skip(first as usize)
        .collect(alloc)
}

/// The copy of a process.
fn copy_of<F: FrontEnd, A: Allocator + Copy>(
    alloc: A,
    world: &World<F, A>,
    process: u8,
) -> Result<Registers<A>, AllocError>
    requires going { world.now.failed ≡ false }
    requires process { process < world.now.processes }
    ensures { IfOk result (λ copy. copy ≡ ((run_in F.start world.now).nodes process).state.copy) }
{
    match world.process(process) {
        Some(process) => process.registers().duplicate(alloc),
        None => unreachable!(),
    }
}

/// A cast as a process with this copy delivers it.
fn deliver<A: Allocator + Copy>(copy: &mut Registers<A>, cast: Delivered) -> Delivery
    ensures cast { result.cast ≡ cast }
    ensures value { result.value ≡ slice_index (after cast.op copy.old) (register_of cast.op) }
    ensures copy { copy.new ≡ after cast.op copy.old }
{
    let _answer = copy.apply(&cast.op);
    let value = copy.get(cast.op.register()).unwrap_or(0);
    Delivery { cast, value }
}

/// These casts as a process with this copy delivers them.
fn deliveries<A: Allocator + Copy>(
    alloc: A,
    mut copy: Registers<A>,
    casts: &[Delivered],
) -> Result<Vec<Delivery, A>, AllocError>
    ensures { IfOk result (λ v. v.items ≡ deliveries_of casts.now copy) }
{
    let mut delivered = Vec::new(alloc);
    for cast in casts {
        delivered.push(deliver(&mut copy, *cast))?;
    }
    Ok(delivered)
}

/// The casts of the one order from this place up to that, as a process with this copy delivers them.
fn delivered_between<F: FrontEnd, A: Allocator + Copy>(
    alloc: A,
    world: &World<F, A>,
    copy: Registers<A>,
    first: u64,
    end: u64,
) -> Result<Vec<Delivery, A>, AllocError>
    ensures { IfOk result (λ v. v.items
        ≡ deliveries_of (drop first (take end (map delivered_of (run_in F.start world.now).order))) copy) }
{
    let casts = casts_between(alloc, world, first, end)?;
    deliveries(alloc, copy, casts.as_slice())
}

/// What an event of a process that is there did. Memory aside, an event is refused as the world refuses it.
pub(crate) fn tell<F: FrontEnd, A: Allocator + Copy>(
    alloc: A,
    world: &mut World<F, A>,
    event: &Event,
) -> Result<Moment<A>, WorldFault>
    requires going { world.old.failed ≡ false }
    requires process { process_of event.now < world.old.processes }
    ensures made { OnOk result (Accepts F.start world.old event.now world.new) }
    ensures told { IfOk result (λ m. m ≡ moment_of F.start world.old event.now) }
    ensures refused { IfErr result (λ f. f ≢ WorldFault.OutOfMemory → refusal F.start world.old event.now ≡ Some f) }
{
    let process = process_of_event(event);
    let frame = frame_of(world, event);
    let expected = unexpected(frame, expected_of(world, event));
    let lengths = lengths(world, process);
    let before = delivered_count(world, process);
    let Ok(copy) = copy_of(alloc, world, process) else {
        return Err(WorldFault::OutOfMemory);
    };
    let reply = world.step_reply(event)?;
    let clock = clock_of(world, process);
    let after = delivered_count(world, process);
    let Ok(delivered) = delivered_between(alloc, world, copy, before, after) else {
        return Err(WorldFault::OutOfMemory);
    };
    let Ok(sent) = sent_since(alloc, world, process, &lengths) else {
        return Err(WorldFault::OutOfMemory);
    };
    let Ok(waits) = waits_in(alloc, world, process) else {
        return Err(WorldFault::OutOfMemory);
    };
    Ok(Moment {
        event: *event,
        process,
        frame,
        expected,
        clock,
        delivered,
        reply,
        waits,
        sent,
    })
}
