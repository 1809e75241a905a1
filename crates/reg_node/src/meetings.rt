//! A node that meets the others first: each says how many of its bodies it accepted.
ghost use Rattle.std.specs.Prelude.{◌≡◌, ◌<◌, ◌≤◌, true, false, replicate, slice_set, IfErr, IfOk, MatchOption};
ghost use Rattle.std.specs.Prelude.{MatchResult, OnErr, OnOk};
ghost use Rattle.reg_process.specs.Faults.{is_cast};
ghost use Rattle.reg_process.specs.Process.{State, unsettled};
ghost use Rattle.reg_node.specs.Logs.{first_state};
ghost use Rattle.reg_node.specs.Meetings.{Hears, HearsNothing, MeetingHandsOut, MeetingHandsOutNothing, MeetingLogs};
ghost use Rattle.reg_node.specs.Meetings.{MeetingLogsNothing, all_heard, heard_at_first};
ghost use Rattle.reg_node.specs.Nodes.{Lives, Past, marked, past_given, past_logged};
ghost use Rattle.reg_node.specs.Opening.{IsOpened, IsOpenFault, opened_with};
ghost use Rattle.reg_node.specs.Peers.{has_heard};

use crate::faults::{HelloFault, MeetingFault, NotLogged, OpenFault};
use crate::nodes::Node;
use crate::outputs::Output;
use reg_base::{Op, Shape};
use reg_front::{FrontEnd, Start};
use reg_process::Step;
use reg_records::LogEntry;
use std::alloc::{AllocError, Allocator, Global};
use std::marker::Model;

/// Notes that a process was heard.
fn mark(heard: &mut [bool], process: u8)
    ensures { heard.new ≡ slice_set heard.old process true }
{
    let process = usize::from(process);
    if process < heard.len() {
        heard[process] = true;
    }
}

fn none_heard<A: Allocator + Copy>(alloc: A, processes: u32) -> Result<Vec<bool, A>, AllocError>
    ensures { IfOk result (λ v. v.items ≡ replicate processes false) }
{
    let mut heard = Vec::new(alloc);
    for _process in 0..processes {
        heard.push(false)?;
    }
    Ok(heard)
}

/// Whether all are heard.
fn are_all(heard: &[bool]) -> bool
    ensures { result ≡ all_heard heard.now }
{
    for is_heard in heard {
        if !*is_heard {
            return false;
        }
    }
    true
}

/// A node that makes no cast of its own until each other process has said how many of its bodies it accepted. Where one
/// accepted more than the node ever queued for it, the node's log was lost: it stops for good.
#[derive(Drop)]
pub struct MeetingNode<F: FrontEnd, A: Allocator + Copy = Global> {
    node: Node<F, A>,
    heard: Vec<bool, A>,
    lost: bool,
}

impl<F: FrontEnd, A: Allocator + Copy> Model for MeetingNode<F, A> {
    ghost use Rattle.reg_node.specs.Meetings.{MeetingState};

    ghost Value = { MeetingState };

    ghost view = { λ m. record { node = m.node; heard = m.heard.items; lost = m.lost } };
}

impl<F: FrontEnd, A: Allocator + Copy> MeetingNode<F, A> {
    /// A node that goes on after its log, as by `Node::open`, and has heard from no other process.
    ///
    /// # Errors
    ///
    /// Those of `Node::open`.
    pub fn open(
        alloc: A,
        shape: Shape,
        me: u8,
        entries: &[LogEntry],
    ) -> Result<MeetingNode<F, A>, OpenFault>
        ensures opened { IfOk result (λ m. IsOpened entries.now m.node × (m.heard ≡ heard_at_first shape.processes me)
            × (m.lost ≡ false)) }
        ensures lives { IfOk result (λ m. Lives F.start (first_state shape me) (opened_with entries.now) m.node) }
        ensures fault { IfErr result (IsOpenFault F.start shape me entries.now) }
    {
        let node = Node::open(alloc, shape, me, entries)?;
        let Ok(mut heard) = none_heard(alloc, shape.processes()) else {
            return Err(OpenFault::OutOfMemory);
        };
        mark(&mut heard, me);
        Ok(MeetingNode {
            node,
            heard,
            lost: false,
        })
    }

    /// Its node, to look at.
    pub fn node(&self) -> &Node<F, A>
        ensures { result.now ≡ self.now.node }
    {
        &self.node
    }

    /// Whether it has found out that its log was lost.
    pub fn is_lost(&self) -> bool
        ensures { result ≡ self.now.lost }
    {
        self.lost
    }

    /// Whether it has heard from a process.
    pub fn has_heard(&self, process: u8) -> bool
        ensures { result ≡ has_heard self.now process }
    {
        let process = usize::from(process);
        process < self.heard.len() && self.heard[process]
    }

    /// Whether it has heard from all others.
    pub fn has_heard_all(&self) -> bool
        ensures { result ≡ all_heard self.now.heard }
    {
        are_all(&self.heard)
    }

    /// Hears that another process accepted the first `count` bodies that were queued for it.
    pub fn hear(&mut self, other: u8, count: u64) -> Result<(), HelloFault>
        ensures heard { MatchResult result (λ _. Hears self.old other count self.new)
            (λ fault. HearsNothing self.old other count fault self.new) }
        ensures node { self.new.node ≡ self.old.node }
    {
        if self.lost {
            return Err(HelloFault::LogLost);
        }
        let Some(known) = self.node.process().known(other) else {
            return Err(HelloFault::NoPeer);
        };
        if known.next < count {
            self.lost = true;
            return Err(HelloFault::LogLost);
        }
        mark(&mut self.heard, other);
        Ok(())
    }

    /// Whether the operation would be cast.
    fn casts(&self, op: &Op) -> bool
        ensures { result ≡ is_cast (F.start op.now (unsettled self.now.node.process.state)) }
    {
        let start = F::start(op, self.node.process().unsettled());
        matches!(start, Start::Cast | Start::CastAndAnswer)
    }

    /// Makes a step, as by `Node::step`, unless it is a call that would be cast too early.
    pub fn step(&mut self, step: &Step) -> Result<LogEntry, MeetingFault>
        ensures made { MatchResult result (λ entry. MeetingLogs F.start self.old step.now entry self.new)
            (λ fault. MeetingLogsNothing F.start self.old step.now fault self.new) }
        ensures lives { (first : State) (past : Past) → Lives F.start first past self.old.node
            → Lives F.start first (past_logged past result) self.new.node }
    {
        if self.lost {
            return Err(MeetingFault::LogLost);
        }
        if let Step::Call { op } = step
            && self.casts(op)
            && !are_all(&self.heard)
        {
            return Err(MeetingFault::Unheard);
        }
        self.node
            .step(step)
            .map_err(|fault| MeetingFault::OfNode { fault })
    }

    /// Notes that the first `count` entries of the log are durable, as by `Node::mark_durable`.
    ///
    /// # Errors
    ///
    /// `NotLogged`: the log has fewer entries. Nothing has changed.
    pub fn mark_durable(&mut self, count: u64) -> Result<(), NotLogged>
        ensures marked { OnOk result
            ((count ≤ self.old.node.logged) × (self.new ≡ record self.old { node = marked self.old.node count })) }
        ensures refused { OnErr result ((self.old.node.logged < count) × (self.new ≡ self.old)) }
        ensures lives { (first : State) (past : Past) → Lives F.start first past self.old.node
            → Lives F.start first past self.new.node }
    {
        self.node.mark_durable(count)
    }

    /// Hands out what is held first, as by `Node::hand_out`, unless the log was lost.
    pub fn hand_out(&mut self) -> Option<Output<A>>
        ensures due { MatchOption result (MeetingHandsOutNothing self.old self.new)
            (λ output. MeetingHandsOut self.old output self.new) }
        ensures lives { (first : State) (past : Past) → Lives F.start first past self.old.node
            → Lives F.start first (past_given past result) self.new.node }
    {
        if self.lost {
            return None;
        }
        self.node.hand_out()
    }
}
