//! One node.
ghost use Rattle.std.specs.Prelude.{◌≡◌, ◌<◌, ◌≤◌, if◌then◌else◌, length, IfOk, IfErr, IsErrOf, OnErr, OnOk};
ghost use Rattle.std.specs.Prelude.{MatchOption, MatchResult};
ghost use Rattle.reg_process.specs.Faults.{StepTakesMemory};
ghost use Rattle.reg_process.specs.Process.{State};
ghost use Rattle.reg_node.specs.Logs.{calls_in, first_state, is_call as is_call_of};
ghost use Rattle.reg_node.specs.Opening.{IsOpened, IsOpenFault, opened_with, unopened_by};
ghost use Rattle.reg_node.specs.Nodes.{HandsOut, HandsOutNothing, Lives, Logs, LogsNothing, Past, marked, past_given};
ghost use Rattle.reg_node.specs.Nodes.{past_logged};

use crate::faults::{NodeFault, NotLogged, OpenFault};
use crate::outputs::Output;
use crate::replaying::replay;
use reg_base::Shape;
use reg_base::limits::MOST_EVENTS;
use reg_front::FrontEnd;
use reg_process::{Process, ProcessFault, Step};
use reg_records::LogEntry;
use std::alloc::{Allocator, Global};
use std::collections::VecDeque;
use std::marker::Model;

/// One process, with the counts of the entries and of the calls of its log. What goes out of a step is held back until
/// the owner has said that the step's entry is durable.
#[derive(Drop)]
pub struct Node<F: FrontEnd, A: Allocator + Copy = Global> {
    process: Process<F, A>,
    logged: u64,
    calls: u64,
    durable: u64,
    /// What went out of the last steps, in their order.
    held: VecDeque<Output<A>, A>,
}

impl<F: FrontEnd, A: Allocator + Copy> Model for Node<F, A> {
    ghost use Rattle.std.specs.Prelude.{◌≤◌, length};
    ghost use Rattle.reg_base.specs.declared.limits.TheConstants.{MOST_EVENTS};
    ghost use Rattle.reg_node.specs.Nodes.{NodeState};

    ghost Value = { NodeState };

    ghost view = { λ n.
        record { process = n.process; logged = n.logged; calls = n.calls; durable = n.durable; held = n.held.items } };

    ghost invariant = { λ n. (n.logged ≤ MOST_EVENTS) × (n.calls ≤ n.logged) × (n.durable ≤ n.logged)
        × (length n.held.items ≤ n.logged) };
}

/// Why no node is opened where there is no process.
fn unopened(fault: ProcessFault) -> OpenFault
    ensures { result ≡ unopened_by fault }
{
    match fault {
        ProcessFault::NoProcess => OpenFault::NoProcess,
        _ => OpenFault::OutOfMemory,
    }
}

/// Whether a step is a call.
fn is_call(step: &Step) -> bool
    ensures { result ≡ is_call_of step.now }
{
    matches!(*step, Step::Call { op: _ })
}

/// By how many the calls grow with a step.
fn calls_of(step: &Step) -> u64
    ensures value { result ≡ (if is_call_of step.now then 1 else 0) }
    ensures within { result ≤ 1 }
{
    u64::from(is_call(step))
}

/// How many of these entries are calls.
fn count_calls(entries: &[LogEntry]) -> u64
    ensures value { result ≡ calls_in entries.now }
    ensures within { result ≤ length entries.now }
{
    entries.iter().filter(|entry| is_call(&entry.step)).count() as u64
}

impl<F: FrontEnd, A: Allocator + Copy> Node<F, A> {
    /// A node that goes on after its log, which is all durable. Nothing of these entries is held back: a caller of
    /// before is gone, and frames that were lost are put again by ticks.
    ///
    /// # Errors
    ///
    /// The first entry that is no step of such a process, or why there is none before.
    pub fn open(
        alloc: A,
        shape: Shape,
        me: u8,
        entries: &[LogEntry],
    ) -> Result<Node<F, A>, OpenFault>
        ensures process { OnOk result (me < shape.processes) }
        ensures opened { IfOk result (IsOpened entries.now) }
        ensures lives { IfOk result (Lives F.start (first_state shape me) (opened_with entries.now)) }
        ensures fault { IfErr result (IsOpenFault F.start shape me entries.now) }
    {
        let mut process = match Process::new(alloc, shape, me) {
            Ok(process) => process,
            Err(fault) => return Err(unopened(fault)),
        };
        if entries.len() > MOST_EVENTS as usize {
            return Err(OpenFault::TooLong);
        }
        replay(&mut process, entries)?;
        let logged = entries.len() as u64;
        Ok(Node {
            process,
            logged,
            calls: count_calls(entries),
            durable: logged,
            held: VecDeque::new(alloc),
        })
    }

    /// Its process, to look at. What it tells may be of entries that are not durable.
    pub fn process(&self) -> &Process<F, A>
        ensures { result.now ≡ self.now.process }
    {
        &self.process
    }

    /// How many entries it logged, those that it was opened with among them.
    pub fn logged(&self) -> u64
        ensures { result ≡ self.now.logged }
    {
        self.logged
    }

    /// How many of them are calls.
    pub fn calls(&self) -> u64
        ensures value { result ≡ self.now.calls }
        ensures within { result ≤ self.now.logged }
    {
        self.calls
    }

    /// How many of them it was told are durable.
    pub fn durable(&self) -> u64
        ensures value { result ≡ self.now.durable }
        ensures within { result ≤ self.now.logged }
    {
        self.durable
    }

    /// Makes a step of its process: calls the next operation, takes a frame that another process put for it, or puts
    /// unacknowledged data frames again, as far as a process does in one tick. The entry is for the log alone: its
    /// reply is told where it is handed out.
    pub fn step(&mut self, step: &Step) -> Result<LogEntry, NodeFault>
        ensures made { MatchResult result (λ entry. Logs F.start self.old step.now entry self.new)
            (λ fault. LogsNothing F.start self.old step.now fault self.new) }
        ensures memory { IsErrOf result (NodeFault.Refused ProcessFault.OutOfMemory)
            → StepTakesMemory F.start self.old.process.state self.old.process.room step.now }
        ensures lives { (first : State) (past : Past) → Lives F.start first past self.old
            → Lives F.start first (past_logged past result) self.new }
    {
        if self.logged >= u64::from(MOST_EVENTS) {
            return Err(NodeFault::Full);
        }
        if self.held.reserve(1).is_err() {
            return Err(NodeFault::NoRoom);
        }
        match self.process.step(step) {
            Ok(outcome) => {
                let reply = outcome.reply;
                self.held
                    .push_back_reserved(Output::new(outcome.frames, reply));
                self.logged += 1;
                self.calls += calls_of(step);
                Ok(LogEntry { step: *step, reply })
            }
            Err(fault) => Err(NodeFault::Refused { fault }),
        }
    }

    /// Notes that the first `count` entries of the log are durable. A count that is not above an earlier one changes
    /// nothing.
    ///
    /// # Errors
    ///
    /// `NotLogged`: the log has fewer entries. Nothing has changed.
    pub fn mark_durable(&mut self, count: u64) -> Result<(), NotLogged>
        ensures marked { OnOk result ((count ≤ self.old.logged) × (self.new ≡ marked self.old count)) }
        ensures refused { OnErr result ((self.old.logged < count) × (self.new ≡ self.old)) }
        ensures lives { (first : State) (past : Past) → Lives F.start first past self.old
            → Lives F.start first past self.new }
    {
        if self.logged < count {
            return Err(NotLogged);
        }
        self.durable = self.durable.max(count);
        Ok(())
    }

    /// Hands out what is held first, where its entry is durable: frames to be carried to other processes, and the reply
    /// to be told to the caller. None where no entry whose output is held is durable.
    pub fn hand_out(&mut self) -> Option<Output<A>>
        ensures due { MatchOption result (HandsOutNothing self.old self.new)
            (λ output. HandsOut self.old output self.new) }
        ensures lives { (first : State) (past : Past) → Lives F.start first past self.old
            → Lives F.start first (past_given past result) self.new }
    {
        let first_held = self.logged - self.held.len() as u64;
        if first_held < self.durable {
            self.held.pop_front()
        } else {
            None
        }
    }
}
