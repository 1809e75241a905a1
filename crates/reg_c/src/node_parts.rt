//! What a caller sees of a node that it holds.
ghost use Rattle.std.specs.Prelude.{◌≡◌};
ghost use Rattle.reg_c.specs.Nodes.{flag, logged_in, node_look_of, node_looked, node_number, node_part, node_state_in};
ghost use Rattle.reg_c.specs.Nodes.{reply_handed};
ghost use Rattle.reg_c.specs.Processes.{state_part};
ghost use Rattle.reg_c.specs.Worlds.{seen};

use crate::choosing::of_kept;
use crate::events::value_of_answer;
use crate::nodes::{HeldNode, KeptNode};
use crate::parts::{ProcessLook, StatePart, process_look};
use crate::processes;
use reg_front::FrontEnd;
use reg_node::{LoggedNode, Output};
use reg_process::Reply;

/// What a node has beside its process.
#[derive(Clone, Copy)]
pub enum NodePart {
    /// How many entries it logged.
    Logged,
    /// How many of them it was told are durable.
    Durable,
    /// How many of them are calls.
    Calls,
    /// 1 if it has stopped, since it had no text of an entry.
    Stopped,
    /// 1 if it has found out that its log was lost.
    Lost,
    /// 1 if it has heard from all others.
    HeardAll,
}

/// What to look at.
#[derive(Clone, Copy)]
pub enum NodeLook {
    /// Of its process; the reply is that of what was handed out last.
    OfProcess(ProcessLook),
    OfNode(NodePart),
    /// How many bytes of the text that was opened last are the log.
    Whole,
    /// The line or the entry that the last refusal of a log named.
    Place,
}

/// What the number says to look at: up to 7 as of a process.
pub fn node_look(what: u32) -> Option<NodeLook>
    ensures { result ≡ node_look_of what }
{
    let look = match what {
        8 => NodeLook::OfNode(NodePart::Logged),
        9 => NodeLook::OfNode(NodePart::Durable),
        10 => NodeLook::OfNode(NodePart::Stopped),
        11 => NodeLook::OfNode(NodePart::Lost),
        12 => NodeLook::OfNode(NodePart::HeardAll),
        13 => NodeLook::Whole,
        14 => NodeLook::Place,
        15 => NodeLook::OfNode(NodePart::Calls),
        _ => NodeLook::OfProcess(process_look(what)?),
    };
    Some(look)
}

pub(crate) fn flag_of(is: bool) -> u64
    ensures { result ≡ flag is }
{
    if is { 1 } else { 0 }
}

/// A part of a node.
fn part<F: FrontEnd>(node: &LoggedNode<F>, part: NodePart) -> u64
    ensures { result ≡ node_part part node.now }
{
    let meeting = node.meeting();
    match part {
        NodePart::Logged => meeting.node().logged(),
        NodePart::Durable => meeting.node().durable(),
        NodePart::Calls => meeting.node().calls(),
        NodePart::Stopped => flag_of(node.is_stopped()),
        NodePart::Lost => flag_of(meeting.is_lost()),
        NodePart::HeardAll => flag_of(meeting.has_heard_all()),
    }
}

fn part_in(kept: &KeptNode, of: NodePart) -> u64
    ensures { result ≡ seen (node_part of) (logged_in kept.now) }
{
    of_kept!(kept, KeptNode, node => part(node, of), 0)
}

/// A part of a node's process.
fn state<F: FrontEnd>(node: &LoggedNode<F>, of: StatePart, register: u16) -> u64
    ensures { result ≡ state_part of register node.now.meeting.node.process.state }
{
    processes::part(node.meeting().node().process(), of, register)
}

fn state_in(kept: &KeptNode, of: StatePart, register: u16) -> u64
    ensures { result ≡ seen (state_part of register) (node_state_in kept.now) }
{
    of_kept!(kept, KeptNode, node => state(node, of, register), 0)
}

/// The reply that was handed out last.
fn reply(output: &Option<Output>) -> Option<Reply>
    ensures { result ≡ reply_handed output.now }
{
    match output {
        Some(output) => output.reply(),
        None => None,
    }
}

fn number_of_process(held: &HeldNode, look: ProcessLook, register: u16) -> u64
    ensures { result ≡ node_looked held.now register (NodeLook.OfProcess look) }
{
    match look {
        ProcessLook::OfState(of) => state_in(&held.node, of, register),
        ProcessLook::ReplyValue => match reply(&held.output) {
            Some(reply) => value_of_answer(reply.answer),
            None => 0,
        },
        ProcessLook::ReplyPlace => match reply(&held.output) {
            Some(reply) => reply.place,
            None => 0,
        },
    }
}

/// What a look tells.
fn number(held: &HeldNode, look: NodeLook, register: u16) -> u64
    ensures { result ≡ node_looked held.now register look }
{
    match look {
        NodeLook::OfProcess(look) => number_of_process(held, look, register),
        NodeLook::OfNode(of) => part_in(&held.node, of),
        NodeLook::Whole => held.whole,
        NodeLook::Place => held.place,
    }
}

/// One number of what is held, as the number `what` says.
pub fn look(held: &mut HeldNode, what: u32, register: u16) -> u64
    ensures same { held.new ≡ held.old }
    ensures value { result ≡ node_number held.old what register }
{
    match node_look(what) {
        Some(look) => number(held, look, register),
        None => 0,
    }
}
