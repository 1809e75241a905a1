//! What a node watches of its peers: when one is greeted, and when the node ticks.
ghost use Rattle.std.specs.Prelude.{◌≡◌, IfOk};
ghost use Rattle.reg_node.specs.Peers.{HearsOf, LooksAt, behind, first_watched, heard_of, is_answered, is_long_at};
ghost use Rattle.reg_node.specs.Peers.{look_of, looked_at, unheard_beat, watch};

use crate::meetings::MeetingNode;
use reg_base::limits::{FRAME_NUMBERS, MOST_RESENT};
use reg_front::FrontEnd;
use reg_links::Beat;
use reg_process::Known;
use std::alloc::{AllocError, Allocator, Global};
use std::marker::Model;

/// What is due at a look at a peer.
#[derive(Clone, Copy, Debug, PartialEq, Eq)]
pub struct Look {
    /// The peer is to be greeted.
    pub greets: bool,
    /// The node is to tick.
    pub ticks: bool,
}

/// What is watched of a peer.
#[derive(Clone, Copy, Debug, PartialEq, Eq)]
pub struct Watched {
    /// For how many looks it was silent.
    beat: Beat,
    /// The number after the last frame that a tick put again to it, if there were more that it hadn't acknowledged.
    awaited: Option<u64>,
}

/// What is watched of each process.
#[derive(Drop)]
pub struct Peers<A: Allocator + Copy = Global> {
    all: Vec<Watched, A>,
}

impl<A: Allocator + Copy> Model for Peers<A> {
    ghost use Rattle.std.specs.Prelude.{List};
    ghost use Rattle.reg_node.specs.declared.peers.Watched.{Watched};

    ghost Value = { List Watched };

    ghost view = { λ p. p.all.items };
}

/// A peer that wasn't heard, before the first look.
fn unheard() -> Beat
    ensures { result ≡ unheard_beat }
{
    let mut beat = Beat::new();
    beat.look(Some(FRAME_NUMBERS), false);
    beat
}

/// What is watched of a peer: once it was heard, the first frame to it that isn't acknowledged, if there is one.
fn watch(heard: bool, known: &Known) -> Option<u64>
    ensures { result ≡ watch heard known.now }
{
    if !heard {
        return Some(FRAME_NUMBERS);
    }
    if known.first == known.next {
        return None;
    }
    Some(known.first)
}

/// The number after the last frame that a tick puts again to a peer which has acknowledged all before `first`. None
/// where the tick puts all again that it hasn't acknowledged.
fn behind(first: u64, next: u64) -> Option<u64>
    ensures { result ≡ behind first next }
{
    match first.checked_add(MOST_RESENT) {
        Some(put) if put < next => Some(put),
        _ => None,
    }
}

/// A look at a peer, by whether it was heard and what the node knows of it.
fn look_at(watched: &mut Watched, heard: bool, known: &Known) -> Look
    ensures look { result ≡ look_of heard known.now watched.old.beat }
    ensures watched { watched.new ≡ looked_at heard known.now watched.old }
{
    let is_due = watched.beat.look(watch(heard, known), false);
    let is_long = watched.beat.is_long();
    let ticks = is_due && known.first != known.next && !is_long;
    if ticks {
        watched.awaited = behind(known.first, known.next);
    }
    Look {
        greets: is_due && (!heard || is_long),
        ticks,
    }
}

/// Notes that something came from a peer, of which the node knows this then, and tells whether it is to tick.
fn hear_of(watched: &mut Watched, known: &Known) -> bool
    ensures ticks { result ≡ is_answered watched.old.awaited known.now.first }
    ensures watched { watched.new ≡ heard_of known.now watched.old }
{
    watched.beat.hear();
    let Some(awaited) = watched.awaited else {
        return false;
    };
    if known.first < awaited {
        return false;
    }
    let is_answered = known.first == awaited;
    watched.awaited = if is_answered {
        behind(known.first, known.next)
    } else {
        None
    };
    is_answered
}

impl<A: Allocator + Copy> Peers<A> {
    /// Of a node with the given number of processes, its own among them, that was just opened: none was heard.
    pub fn new(alloc: A, processes: u32) -> Result<Peers<A>, AllocError>
        ensures { IfOk result (λ p. p ≡ first_watched processes) }
    {
        let mut all = Vec::new(alloc);
        for _process in 0..processes {
            all.push(Watched {
                beat: unheard(),
                awaited: None,
            })?;
        }
        Ok(Peers { all })
    }

    /// A look at a peer of the node, such as there is one of each every few milliseconds. Where looks, one after
    /// another, find that it wasn't heard, or the same frame to it unacknowledged, something is due after 1, 2, 4, ..
    /// 64 looks, and from there on after each 100. Nothing is where there is no other process of this number.
    pub fn look<F: FrontEnd, B: Allocator + Copy>(
        &mut self,
        node: &MeetingNode<F, B>,
        peer: u8,
    ) -> Look
        ensures { LooksAt node.now peer self.old result self.new }
    {
        let place = usize::from(peer);
        let known = node.node().process().known(peer);
        match known {
            Some(known) if place < self.all.len() => {
                look_at(&mut self.all[place], node.has_heard(peer), &known)
            }
            _ => Look {
                greets: false,
                ticks: false,
            },
        }
    }

    /// Notes that the node took what came from a peer. Where that was silent for long, its looks are counted anew.
    ///
    /// Tells whether the node is to tick at once: where the last tick that was due for this peer put frames again, and
    /// it acknowledged just these, though it hasn't acknowledged more. So frames that the peer dropped, since one
    /// before them was lost, are put again as fast as it acknowledges them. A peer that acknowledged more takes
    /// frames as they come.
    pub fn hear<F: FrontEnd, B: Allocator + Copy>(
        &mut self,
        node: &MeetingNode<F, B>,
        peer: u8,
    ) -> bool
        ensures { HearsOf node.now peer self.old result self.new }
    {
        let place = usize::from(peer);
        let known = node.node().process().known(peer);
        match known {
            Some(known) if place < self.all.len() => hear_of(&mut self.all[place], &known),
            _ => false,
        }
    }

    /// Whether a peer is silent for 127 looks or more: it is only greeted then, since the frames of a tick may well be
    /// lost on it.
    pub fn is_long(&self, peer: u8) -> bool
        ensures { result ≡ is_long_at self.now peer }
    {
        let place = usize::from(peer);
        place < self.all.len() && self.all[place].beat.is_long()
    }
}
