//! What a node that a caller holds knows of its peers, and of their silence.
ghost use Rattle.std.specs.Prelude.{◌≡◌, None, MatchOption};
ghost use Rattle.reg_node.specs.Peers.{has_heard, is_long_at};
ghost use Rattle.reg_process.specs.Known.{IsNoPeer, known_of};
ghost use Rattle.reg_process.specs.Process.{peer_at};
ghost use Rattle.reg_c.specs.Nodes.{flag, node_state_in};
ghost use Rattle.reg_c.specs.NodePeers.{CameFrom, HearsIn, LooksIn, NodeTells, NodeWatches, look_code, meeting_in};
ghost use Rattle.reg_c.specs.Processes.{TellsKnown};
ghost use Rattle.reg_c.specs.Worlds.{seen};

use crate::choosing::of_kept;
use crate::node_parts::flag_of;
use crate::nodes::{HeldNode, KeptNode};
use crate::parts::{of_known, peer_look};
use reg_node::{Look, Peers};
use reg_process::Known;

/// What is due at a look: 1 where the peer is to be greeted, and 2 where the node is to tick.
fn code_of_look(look: Look) -> u32
    ensures { result ≡ look_code look }
{
    match (look.greets, look.ticks) {
        (false, false) => 0,
        (true, false) => 1,
        (false, true) => 2,
        (true, true) => 3,
    }
}

fn look_in(kept: &KeptNode, peers: &mut Peers, peer: u8) -> Look
    ensures { LooksIn (meeting_in kept.now) peer peers.old result peers.new }
{
    of_kept!(kept, KeptNode, node => peers.look(node.meeting(), peer), Look {
        greets: false,
        ticks: false,
    })
}

/// Looks at a peer, and tells what is due.
pub fn watch(held: &mut HeldNode, peer: u8) -> u32
    ensures { NodeWatches peer held.old held.new result }
{
    match &mut held.peers {
        Some(peers) => code_of_look(look_in(&held.node, peers, peer)),
        None => 0,
    }
}

fn hear_in(kept: &KeptNode, peers: &mut Peers, peer: u8) -> bool
    ensures { HearsIn (meeting_in kept.now) peer peers.old result peers.new }
{
    of_kept!(kept, KeptNode, node => peers.hear(node.meeting(), peer), false)
}

/// Notes that the node took what came from a peer, and tells what is due: 2 where it is to tick.
pub fn came(held: &mut HeldNode, peer: u8) -> u32
    ensures { CameFrom peer held.old held.new result }
{
    match &mut held.peers {
        Some(peers) => 2 * u32::from(hear_in(&held.node, peers, peer)),
        None => 0,
    }
}

/// 1 if the node has heard from a peer.
fn heard_in(kept: &KeptNode, peer: u8) -> u64
    ensures { result ≡ seen (λ m. flag (has_heard m peer)) (meeting_in kept.now) }
{
    of_kept!(kept, KeptNode, node => flag_of(node.meeting().has_heard(peer)), 0)
}

/// 1 if a peer is silent for long.
fn silent_in(peers: &Option<Peers>, peer: u8) -> u64
    ensures { result ≡ seen (λ all. flag (is_long_at all peer)) peers.now }
{
    match peers {
        Some(peers) => flag_of(peers.is_long(peer)),
        None => 0,
    }
}

/// What the process of the node that is held knows of another one.
fn known_in(kept: &KeptNode, peer: u8) -> Option<Known>
    ensures { MatchOption (node_state_in kept.now) (result ≡ None)
        (λ s. MatchOption result (IsNoPeer s peer) (λ k. k ≡ known_of (peer_at s peer))) }
{
    of_kept!(kept, KeptNode, node => node.meeting().node().process().known(peer), None)
}

/// One number of what the process of the node knows of another one.
fn number_of_known(kept: &KeptNode, what: u32, peer: u8) -> u64
    ensures { TellsKnown (node_state_in kept.now) what peer result }
{
    let Some(part) = peer_look(what) else {
        return 0;
    };
    match known_in(kept, peer) {
        Some(known) => of_known(part, &known),
        None => 0,
    }
}

/// One number of what the node knows of a peer, as the number `what` says.
pub fn known(held: &mut HeldNode, what: u32, peer: u8) -> u64
    ensures same { held.new ≡ held.old }
    ensures value { NodeTells held.old what peer result }
{
    match what {
        4 => heard_in(&held.node, peer),
        5 => silent_in(&held.peers, peer),
        _ => number_of_known(&held.node, what, peer),
    }
}
