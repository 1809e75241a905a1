//! A node that a caller holds.
ghost use Rattle.std.specs.Prelude.{◌≡◌, [], None, IfErr, IfOk, vec_capacity};
ghost use Rattle.reg_process.specs.declared.steps.Step.TheVariants.{Tick};
ghost use Rattle.reg_c.specs.declared.nodes.KeptNode.{KeptNode};
ghost use Rattle.reg_c.specs.Events.{compare_and_swap_of, op_of, refusal_code};
ghost use Rattle.reg_c.specs.Nodes.{HandsAs, HandsIn, HearsAs, HearsIn, IsNothing, MarksAs, MarksIn, NodeCalls};
ghost use Rattle.reg_c.specs.Nodes.{NodeHands, NodeHears, NodeMarks, NodeSteps, NodeTakes, NoStep, Steps, StepsIn};
ghost use Rattle.reg_c.specs.Nodes.{TellsBytes, frames_handed};
ghost use Rattle.reg_c.specs.Processes.{TellsFrames};

use crate::choosing::of_kept;
use crate::codes::{CLOSED, NO_EVENT, NO_FRAME};
use crate::events;
use crate::events::{code_of_refusal, code_of_reply, operation};
use crate::node_codes::{NOT_LOGGED, NOTHING_DUE, code_of_hello, code_of_logged};
use crate::processes::tell_frames;
use crate::unboxed::Unboxed;
use reg_base::Op;
use reg_commands::fill;
use reg_frames::decode;
use reg_front::{FrontEnd, Linear, LocalRead, LocalWrite};
use reg_node::{Chapter, Course, LoggedNode, Output, Peers};
use reg_process::{ProcessFault, Step};
use std::alloc::Global;

/// A node under the front end that its log names, or none: none was opened yet, or it was closed.
#[derive(Drop)]
pub enum KeptNode {
    Linear(LoggedNode<Linear>),
    LocalRead(LoggedNode<LocalRead>),
    LocalWrite(LoggedNode<LocalWrite>),
    Closed,
}

/// A node with what its caller will ask for.
#[derive(Drop)]
pub struct HeldNode {
    pub node: KeptNode,
    /// The bytes by which the last step makes the log grow: none if none was made.
    pub bytes: Vec<u8>,
    /// What was handed out last.
    pub output: Option<Output>,
    /// What the processes told of their chapter: none if no node was opened.
    pub chapter: Option<Chapter>,
    /// What is known of the silence of its peers: none if no node was opened.
    pub peers: Option<Peers>,
    /// The course of its chapter: none until its room is set.
    pub course: Option<Course>,
    /// How many bytes of the text that was opened last are the log.
    pub whole: u64,
    /// The line or the entry that the last refusal of a log named.
    pub place: u64,
}

/// What a step gave: the bytes by which the log grows, and its number.
#[derive(Drop)]
struct Written {
    bytes: Vec<u8>,
    code: u32,
}

/// What was handed out, and its number.
#[derive(Drop)]
struct Handed {
    output: Option<Output>,
    code: u32,
}

/// What is held at first: no node.
pub fn new(alloc: Global) -> Result<Unboxed<HeldNode>, u32>
    ensures none { IfOk result (λ b. IsNothing b.value) }
    ensures why { IfErr result (λ code. code ≡ refusal_code ProcessFault.OutOfMemory) }
{
    let held = HeldNode {
        node: KeptNode::Closed,
        bytes: Vec::new(alloc),
        output: None,
        chapter: None,
        peers: None,
        course: None,
        whole: 0,
        place: 0,
    };
    match Box::new(alloc, held) {
        Ok(held) => Ok(Unboxed::of(held)),
        Err(_) => Err(code_of_refusal(ProcessFault::OutOfMemory)),
    }
}

/// Makes a step at a node.
fn make<F: FrontEnd>(alloc: Global, node: &mut LoggedNode<F>, step: &Step) -> Written
    ensures { Steps F.start step.now node.old node.new result.bytes.items result.code }
{
    match node.step(step) {
        Ok(bytes) => Written { bytes, code: 0 },
        Err(fault) => Written {
            bytes: Vec::new(alloc),
            code: code_of_logged(fault),
        },
    }
}

fn make_in(alloc: Global, kept: &mut KeptNode, step: &Step) -> Written
    ensures { StepsIn step.now kept.old kept.new result.bytes.items result.code }
{
    of_kept!(kept, KeptNode, node => make(alloc, node, step), Written {
        bytes: Vec::new(alloc),
        code: CLOSED,
    })
}

/// Makes a step at the node that is held, and holds its bytes.
fn step(held: &mut HeldNode, step: &Step) -> u32
    ensures { NodeSteps step.now held.old held.new result }
{
    let alloc = *held.bytes.allocator();
    let written = make_in(alloc, &mut held.node, step);
    held.bytes = written.bytes;
    written.code
}

/// Makes no step, so that no bytes are held.
fn skip(held: &mut HeldNode)
    ensures { NoStep held.old held.new }
{
    let alloc = *held.bytes.allocator();
    held.bytes = Vec::new(alloc);
}

/// Calls the operation, if there is one.
fn call_op(held: &mut HeldNode, op: Option<Op>) -> u32
    ensures { NodeCalls op held.old held.new result }
{
    match op {
        Some(op) => step(held, &Step::Call { op }),
        None => {
            skip(held);
            NO_EVENT
        }
    }
}

/// Calls the operation that these numbers say.
pub fn call(held: &mut HeldNode, kind: u32, register: u32, value: u64) -> u32
    ensures { NodeCalls (op_of kind register value) held.old held.new result }
{
    call_op(held, operation(kind, register, value))
}

/// Calls the compare-and-swap that these numbers say.
pub fn compare_and_swap(held: &mut HeldNode, register: u32, expected: u64, value: u64) -> u32
    ensures { NodeCalls (compare_and_swap_of register expected value) held.old held.new result }
{
    call_op(held, events::compare_and_swap(register, expected, value))
}

/// Takes the frame of `from` that the bytes spell. If they spell none, no step is made.
pub fn take(held: &mut HeldNode, from: u8, bytes: &[u8]) -> u32
    ensures { NodeTakes from bytes.now held.old held.new result }
{
    match decode(bytes) {
        Ok(frame) => step(held, &Step::Take { from, frame }),
        Err(_) => {
            skip(held);
            NO_FRAME
        }
    }
}

/// Puts the first unacknowledged frames of every link again.
pub fn tick(held: &mut HeldNode) -> u32
    ensures { NodeSteps Tick held.old held.new result }
{
    step(held, &Step::Tick)
}

/// Puts as many of the last step's bytes into the room as it takes, and gives how many there are.
pub fn bytes(held: &mut HeldNode, room: &mut [u8]) -> usize
    ensures same { held.new ≡ held.old }
    ensures told { TellsBytes held.old.bytes.items result room.old room.new }
{
    fill(room, &held.bytes);
    held.bytes.len()
}

fn note<F: FrontEnd>(node: &mut LoggedNode<F>, other: u8, count: u64) -> u32
    ensures { HearsAs other count node.old node.new result }
{
    match node.hear(other, count) {
        Ok(()) => 0,
        Err(fault) => code_of_hello(fault),
    }
}

fn hear_in(kept: &mut KeptNode, other: u8, count: u64) -> u32
    ensures { HearsIn other count kept.old kept.new result }
{
    of_kept!(kept, KeptNode, node => note(node, other, count), CLOSED)
}

/// Hears that another process accepted so many bodies of this one.
pub fn hear(held: &mut HeldNode, other: u8, count: u64) -> u32
    ensures { NodeHears other count held.old held.new result }
{
    hear_in(&mut held.node, other, count)
}

fn mark<F: FrontEnd>(node: &mut LoggedNode<F>, count: u64) -> u32
    ensures { MarksAs count node.old node.new result }
{
    match node.mark_durable(count) {
        Ok(()) => 0,
        Err(_) => NOT_LOGGED,
    }
}

fn mark_in(kept: &mut KeptNode, count: u64) -> u32
    ensures { MarksIn count kept.old kept.new result }
{
    of_kept!(kept, KeptNode, node => mark(node, count), CLOSED)
}

/// Notes that the first `count` entries of the log are durable.
pub fn mark_durable(held: &mut HeldNode, count: u64) -> u32
    ensures { NodeMarks count held.old held.new result }
{
    mark_in(&mut held.node, count)
}

fn hand<F: FrontEnd>(node: &mut LoggedNode<F>) -> Handed
    ensures { HandsAs node.old node.new result.output result.code }
{
    match node.hand_out() {
        Some(output) => {
            let code = code_of_reply(output.reply());
            Handed {
                output: Some(output),
                code,
            }
        }
        None => Handed {
            output: None,
            code: NOTHING_DUE,
        },
    }
}

fn hand_in(kept: &mut KeptNode) -> Handed
    ensures { HandsIn kept.old kept.new result.output result.code }
{
    of_kept!(kept, KeptNode, node => hand(node), Handed {
        output: None,
        code: CLOSED,
    })
}

/// Hands out what is due next, and holds it.
pub fn hand_out(held: &mut HeldNode) -> u32
    ensures { NodeHands held.old held.new result }
{
    let handed = hand_in(&mut held.node);
    held.output = handed.output;
    handed.code
}

/// Puts as many of the bytes of the frames that were handed out last into the room as it takes, and tells how many
/// there are. If the result isn't 0, nothing has changed.
pub fn frames(held: &mut HeldNode, room: &mut [u8], length: &mut usize) -> u32
    ensures same { held.new ≡ held.old }
    ensures told { TellsFrames (frames_handed held.old.output) result room.old room.new length.old length.new }
{
    let alloc = *held.bytes.allocator();
    match &held.output {
        Some(output) => tell_frames(alloc, output.frames(), room, length),
        None => tell_frames(alloc, &[], room, length),
    }
}

/// Gives back what is held.
pub fn close(held: &mut HeldNode)
    ensures { (held.new.node ≡ KeptNode.Closed) × (held.new.output ≡ None) × (held.new.chapter ≡ None)
        × (held.new.peers ≡ None) × (held.new.course ≡ None) × (vec_capacity held.new.bytes ≡ 0) }
{
    let alloc = *held.bytes.allocator();
    held.node = KeptNode::Closed;
    held.output = None;
    held.chapter = None;
    held.peers = None;
    held.course = None;
    held.bytes = Vec::new(alloc);
}
