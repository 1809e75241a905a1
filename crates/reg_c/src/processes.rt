//! A process that a caller holds.
ghost use Rattle.std.specs.Prelude.{◌≡◌, ◌<◌, ◌⊎◌, ◌++◌, Some, None, IfErr, IfOk, MatchOption, MatchResult};
ghost use Rattle.std.specs.Prelude.{vec_capacity};
ghost use Rattle.reg_frames.specs.Spelling.{Fits};
ghost use Rattle.reg_process.specs.Faults.{NewRefused};
ghost use Rattle.reg_process.specs.Known.{IsNoPeer, known_of};
ghost use Rattle.reg_process.specs.Process.{peer_at};
ghost use Rattle.reg_process.specs.declared.faults.ProcessFault.{ProcessFault};
ghost use Rattle.reg_process.specs.declared.steps.Step.TheVariants.{Tick};
ghost use Rattle.reg_c.specs.declared.processes.KeptProcess.{KeptProcess};
ghost use Rattle.reg_c.specs.Events.{compare_and_swap_of, no_frame, op_of, refusal_code};
ghost use Rattle.reg_c.specs.Processes.{AllFit, Calls, IsFirstProcess, IsUnspelled, Made, Makes, MakesIn, Takes};
ghost use Rattle.reg_c.specs.Processes.{TellsFrames, TellsKnown, all_bytes, first_process, kept_process};
ghost use Rattle.reg_c.specs.Processes.{process_at_first, process_looked, process_number, process_refusal, put_bytes};
ghost use Rattle.reg_c.specs.Processes.{running_code, state_in, state_part, unmade_process, with_room};

use crate::choosing::{front_of, kept_under, of_kept};
use crate::codes::{CLOSED, NO_EVENT, NO_FRAME, NO_FRONT, NO_SHAPE};
use crate::events;
use crate::events::{code_of_refusal, code_of_reply, operation, value_of_answer};
use crate::parts::{ProcessLook, StatePart, of_known, peer_look, process_look};
use crate::unboxed::Unboxed;
use reg_base::{Op, Shape};
use reg_commands::fill;
use reg_frames::{FrameFault, decode, encode};
use reg_front::{Front, FrontEnd, Linear, LocalRead, LocalWrite};
use reg_process::{Awaited, Known, Process, ProcessFault, Put, Reply, Step};
use std::alloc::Global;
use std::mem;

/// A process under the front end that its caller named, or none: it was closed.
#[derive(Drop)]
pub enum KeptProcess {
    Linear(Process<Linear>),
    LocalRead(Process<LocalRead>),
    LocalWrite(Process<LocalWrite>),
    Closed,
}

/// A process with the reply of its last step and the frames that this step put.
#[derive(Drop)]
pub struct HeldProcess {
    pub process: KeptProcess,
    pub reply: Option<Reply>,
    pub frames: Vec<Put>,
}

/// What a step gave: its frames, its reply, and its number.
#[derive(Drop)]
struct Given {
    frames: Vec<Put>,
    reply: Option<Reply>,
    code: u32,
}

/// A process of this front end that did nothing yet.
fn new_kept(alloc: Global, front: Front, shape: Shape, me: u8) -> Result<KeptProcess, ProcessFault>
    ensures process { IfOk result
        (λ kept. (kept ≡ kept_process front (first_process me shape)) × (me < shape.processes)) }
    ensures why { IfErr result (λ fault. NewRefused shape.processes me fault) }
{
    kept_under!(front, KeptProcess, Process::new(alloc, shape, me))
}

/// A process of the front end of this number that did nothing yet.
fn begin(alloc: Global, front: u32, shape: Shape, me: u8) -> Result<KeptProcess, u32>
    ensures process { IfOk result (λ kept. (process_at_first front me shape ≡ Some kept) × (me < shape.processes)) }
    ensures why { IfErr result (λ code. code ≡ unmade_process front me shape.processes) }
{
    let Some(front) = front_of(front) else {
        return Err(NO_FRONT);
    };
    match new_kept(alloc, front, shape, me) {
        Ok(kept) => Ok(kept),
        Err(fault) => Err(code_of_refusal(fault)),
    }
}

/// The process `me` of a run of this shape, which did nothing yet: 0, 1 and 2 are the front ends linear, local-read and
/// local-write.
///
/// # Errors
///
/// 34: there is no such shape. 35: there is no such front end. 18: there is no such process. 23: memory was refused.
pub fn open(
    alloc: Global,
    front: u32,
    processes: u32,
    registers: u32,
    me: u8,
) -> Result<Unboxed<HeldProcess>, u32>
    ensures process { IfOk result
        (λ b. IsFirstProcess front me (record { processes = processes; registers = registers }) b.value) }
    ensures refused { IfErr result (λ code. 0 < code) }
    ensures why { IfErr result (λ code. code ≡ process_refusal front processes registers me) }
{
    let Ok(shape) = Shape::new(processes, registers) else {
        return Err(NO_SHAPE);
    };
    let process = begin(alloc, front, shape, me)?;
    let held = HeldProcess {
        process,
        reply: None,
        frames: Vec::new(alloc),
    };
    match Box::new(alloc, held) {
        Ok(held) => Ok(Unboxed::of(held)),
        Err(_) => Err(code_of_refusal(ProcessFault::OutOfMemory)),
    }
}

/// Makes a step at a process, with a list for its frames.
fn make<F: FrontEnd>(process: &mut Process<F>, list: Vec<Put>, step: &Step) -> Given
    ensures { Makes F.start step.now (with_room (vec_capacity list) process.old) process.new result.frames.items
        result.reply result.code }
{
    let alloc = *list.allocator();
    process.reuse(list);
    match process.step(step) {
        Ok(outcome) => Given {
            frames: outcome.frames,
            reply: outcome.reply,
            code: code_of_reply(outcome.reply),
        },
        Err(fault) => Given {
            frames: Vec::new(alloc),
            reply: None,
            code: code_of_refusal(fault),
        },
    }
}

fn make_in(kept: &mut KeptProcess, list: Vec<Put>, step: &Step) -> Given
    ensures { MakesIn step.now (vec_capacity list) kept.old kept.new result.frames.items result.reply result.code }
{
    of_kept!(kept, KeptProcess, process => make(process, list, step), Given {
        frames: Vec::new(*list.allocator()),
        reply: None,
        code: CLOSED,
    })
}

/// Makes a step at the process that is held.
fn step(held: &mut HeldProcess, step: &Step) -> u32
    ensures { Made step.now held.old held.new result }
{
    let alloc = *held.frames.allocator();
    let list = mem::replace(&mut held.frames, Vec::new(alloc));
    let given = make_in(&mut held.process, list, step);
    held.frames = given.frames;
    held.reply = given.reply;
    given.code
}

/// Calls the operation, if there is one.
fn call_op(held: &mut HeldProcess, op: Option<Op>) -> u32
    ensures { Calls op held.old held.new result }
{
    match op {
        Some(op) => step(held, &Step::Call { op }),
        None => NO_EVENT,
    }
}

/// Calls the operation that these numbers say.
pub fn call(held: &mut HeldProcess, kind: u32, register: u32, value: u64) -> u32
    ensures { Calls (op_of kind register value) held.old held.new result }
{
    call_op(held, operation(kind, register, value))
}

/// Calls the compare-and-swap that these numbers say.
pub fn compare_and_swap(held: &mut HeldProcess, register: u32, expected: u64, value: u64) -> u32
    ensures { Calls (compare_and_swap_of register expected value) held.old held.new result }
{
    call_op(held, events::compare_and_swap(register, expected, value))
}

/// Takes the frame of `from` that the bytes spell. Where they spell none, nothing changes.
pub fn take(held: &mut HeldProcess, from: u8, bytes: &[u8]) -> u32
    ensures { Takes from bytes.now held.old held.new result }
{
    match decode(bytes) {
        Ok(frame) => step(held, &Step::Take { from, frame }),
        Err(_) => NO_FRAME,
    }
}

/// Puts the first unacknowledged frames of every link again.
pub fn tick(held: &mut HeldProcess) -> u32
    ensures { Made Tick held.old held.new result }
{
    step(held, &Step::Tick)
}

/// Adds a frame: a byte for its receiver, and what spells it.
fn spell(bytes: &mut Vec<u8>, put: &Put) -> Result<(), u32>
    ensures { MatchResult result (λ _. Fits put.now.frame × (bytes.new.items ≡ bytes.old.items ++ put_bytes put.now))
        (λ code. (code ≡ refusal_code ProcessFault.OutOfMemory) ⊎ ((code ≡ no_frame) × ¬ Fits put.now.frame)) }
{
    let alloc = *bytes.allocator();
    let spelled = match encode(alloc, &put.frame) {
        Ok(spelled) => spelled,
        Err(FrameFault::Range) => return Err(NO_FRAME),
        Err(_) => return Err(code_of_refusal(ProcessFault::OutOfMemory)),
    };
    if bytes.push(put.to).is_err() {
        return Err(code_of_refusal(ProcessFault::OutOfMemory));
    }
    if bytes.extend_from_slice(&spelled).is_err() {
        return Err(code_of_refusal(ProcessFault::OutOfMemory));
    }
    Ok(())
}

/// The bytes of all frames, in their order.
fn spell_all(alloc: Global, puts: &[Put]) -> Result<Vec<u8>, u32>
    ensures { MatchResult result (λ v. AllFit puts.now × (v.items ≡ all_bytes puts.now))
        (λ code. IsUnspelled puts.now code) }
{
    let mut bytes = Vec::new(alloc);
    for put in puts {
        spell(&mut bytes, put)?;
    }
    Ok(bytes)
}

/// Puts as many of the bytes of frames into the room as it takes, and tells how many there are. If the result isn't 0,
/// nothing has changed.
pub(crate) fn tell_frames(alloc: Global, puts: &[Put], room: &mut [u8], length: &mut usize) -> u32
    ensures { TellsFrames puts.now result room.old room.new length.old length.new }
{
    match spell_all(alloc, puts) {
        Ok(bytes) => {
            fill(room, &bytes);
            *length = bytes.len();
            0
        }
        Err(code) => code,
    }
}

/// Puts as many of the bytes of the last step's frames into the room as it takes, and tells how many there are. Where
/// the result isn't 0, nothing has changed.
pub fn frames(held: &mut HeldProcess, room: &mut [u8], length: &mut usize) -> u32
    ensures same { held.new ≡ held.old }
    ensures told { TellsFrames held.old.frames.items result room.old room.new length.old length.new }
{
    let alloc = *held.frames.allocator();
    tell_frames(alloc, &held.frames, room, length)
}

/// A part of a process.
pub(crate) fn part<F: FrontEnd>(process: &Process<F>, part: StatePart, register: u16) -> u64
    ensures { result ≡ state_part part register process.now.state }
{
    match part {
        StatePart::Clock => process.clock(),
        StatePart::Delivered => process.delivered_count(),
        StatePart::Unsettled => u64::from(process.unsettled()),
        StatePart::Pending => process.pending(),
        StatePart::Running => running(process),
        StatePart::Register => process.registers().get(register).unwrap_or(0),
    }
}

/// What its running operation waits for.
fn running<F: FrontEnd>(process: &Process<F>) -> u64
    ensures { result ≡ running_code process.now.state.running }
{
    match process.awaited() {
        None => 0,
        Some(Awaited::Cast { stamp: _, op: _ }) => 1,
        Some(Awaited::Settling { op: _ }) => 2,
    }
}

/// What a look tells.
fn number(held: &HeldProcess, look: ProcessLook, register: u16) -> u64
    ensures { result ≡ process_looked held.now register look }
{
    match look {
        ProcessLook::OfState(of) => {
            of_kept!(&held.process, KeptProcess, process => part(process, of, register), 0)
        }
        ProcessLook::ReplyValue => match held.reply {
            Some(reply) => value_of_answer(reply.answer),
            None => 0,
        },
        ProcessLook::ReplyPlace => match held.reply {
            Some(reply) => reply.place,
            None => 0,
        },
    }
}

/// One number of what is held, as the number `what` says.
pub fn look(held: &mut HeldProcess, what: u32, register: u16) -> u64
    ensures same { held.new ≡ held.old }
    ensures value { result ≡ process_number held.old what register }
{
    match process_look(what) {
        Some(look) => number(held, look, register),
        None => 0,
    }
}

/// What the process that is held knows of another one.
fn known_in(kept: &KeptProcess, peer: u8) -> Option<Known>
    ensures { MatchOption (state_in kept.now) (result ≡ None)
        (λ s. MatchOption result (IsNoPeer s peer) (λ k. k ≡ known_of (peer_at s peer))) }
{
    of_kept!(kept, KeptProcess, process => process.known(peer), None)
}

/// One number of what the process that is held knows of another one, as the number `what` says.
pub fn known(held: &mut HeldProcess, what: u32, peer: u8) -> u64
    ensures same { held.new ≡ held.old }
    ensures value { TellsKnown (state_in held.old.process) what peer result }
{
    let Some(part) = peer_look(what) else {
        return 0;
    };
    match known_in(&held.process, peer) {
        Some(known) => of_known(part, &known),
        None => 0,
    }
}

/// Gives back what is held.
pub fn close(held: &mut HeldProcess)
    ensures { (held.new.process ≡ KeptProcess.Closed) × (held.new.reply ≡ None) × (vec_capacity held.new.frames ≡ 0) }
{
    let alloc = *held.frames.allocator();
    held.process = KeptProcess::Closed;
    held.reply = None;
    held.frames = Vec::new(alloc);
}
