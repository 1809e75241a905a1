//! A node that spells the entries of its log.
ghost use Rattle.std.specs.Prelude.{◌≡◌, ◌≢◌, ◌<◌, ◌≤◌, false, IfErr, IfOk, MatchOption, MatchResult, OnErr, OnOk};
ghost use Rattle.reg_process.specs.Process.{State};
ghost use Rattle.reg_node.specs.LogTexts.{Journal, log_crc};
ghost use Rattle.reg_node.specs.Logged.{IsSpelled, IsSpelledOn, LoggedHandsOut, LoggedHandsOutNothing, SpellsEntry};
ghost use Rattle.reg_node.specs.Logged.{SpellsNothing, Writes, WritesNothing};
ghost use Rattle.reg_node.specs.Logs.{first_state};
ghost use Rattle.reg_node.specs.Meetings.{Hears, HearsNothing, heard_at_first};
ghost use Rattle.reg_node.specs.Nodes.{Lives, Past, marked, past_given};
ghost use Rattle.reg_node.specs.Opening.{IsOpened, IsOpenFault, opened_with};

use crate::faults::{HelloFault, LoggedFault, MeetingFault, NotLogged, OpenFault};
use crate::meetings::MeetingNode;
use crate::outputs::Output;
use crate::transcripts::{Log, ReadLog, Recorded, sealed_entry};
use reg_base::Names;
use reg_front::FrontEnd;
use reg_process::Step;
use reg_records::LogEntry;
use std::alloc::{Allocator, Global};
use std::marker::Model;

/// A node that meets the others, and spells each entry behind the log that it was opened with. The owner writes these
/// bytes down in their order, and then says that they are durable.
#[derive(Drop)]
pub struct LoggedNode<F: FrontEnd, A: Allocator + Copy = Global> {
    alloc: A,
    meeting: MeetingNode<F, A>,
    process: u8,
    names: Names<A>,
    crc: u32,
    stopped: bool,
}

impl<F: FrontEnd, A: Allocator + Copy> Model for LoggedNode<F, A> {
    ghost use Rattle.reg_node.specs.Logged.{LoggedState};

    ghost Value = { LoggedState };

    ghost view = { λ l.
        record { meeting = l.meeting; process = l.process; names = l.names; crc = l.crc; stopped = l.stopped } };
}

impl<F: FrontEnd, A: Allocator + Copy> LoggedNode<F, A> {
    /// A node that goes on after the log that was read, as by `Node::open`, and has heard from no other process. The
    /// caller takes `F` by the log's front end, which is not looked at here, and cuts off what stands behind the
    /// log.
    ///
    /// # Errors
    ///
    /// Those of `Node::open`.
    pub fn open(alloc: A, read: ReadLog<A>) -> Result<LoggedNode<F, A>, OpenFault>
        ensures opened { IfOk result (λ l. IsOpened read.log.entries l.meeting.node × (l.process ≡ read.log.id.process)
            × (l.names ≡ read.log.names) × (l.crc ≡ read.crc) × (l.stopped ≡ false)) }
        ensures meets { IfOk result
            (λ l. (l.meeting.heard ≡ heard_at_first read.log.shape.processes read.log.id.process)
            × (l.meeting.lost ≡ false)) }
        ensures lives { IfOk result
            (λ l. Lives F.start (first_state read.log.shape read.log.id.process) (opened_with read.log.entries)
            l.meeting.node) }
        ensures spelled { read.crc ≡ log_crc read.log
            → IfOk result
            (λ l. IsSpelled F.start (first_state read.log.shape read.log.id.process) read.log
            (opened_with read.log.entries) l) }
        ensures fault { IfErr result (IsOpenFault F.start read.log.shape read.log.id.process read.log.entries) }
    {
        let ReadLog { log, crc, .. } = read;
        let Log {
            id,
            shape,
            names,
            entries,
            ..
        } = log;
        let meeting = MeetingNode::open(alloc, shape, id.process, &entries)?;
        Ok(LoggedNode {
            alloc,
            meeting,
            process: id.process,
            names,
            crc,
            stopped: false,
        })
    }

    /// Its node, to look at.
    pub fn meeting(&self) -> &MeetingNode<F, A>
        ensures { result.now ≡ self.now.meeting }
    {
        &self.meeting
    }

    /// The number of its process.
    pub fn process(&self) -> u8
        ensures { result ≡ self.now.process }
    {
        self.process
    }

    /// Whether it has stopped, since it made a step and had no text of its entry.
    pub fn is_stopped(&self) -> bool
        ensures { result ≡ self.now.stopped }
    {
        self.stopped
    }

    /// The bytes of an entry that was made, by which the log grows.
    fn spell(&mut self, made: Result<LogEntry, MeetingFault>) -> Result<Vec<u8, A>, LoggedFault>
        ensures { MatchResult result (λ v. SpellsEntry self.old made v.items self.new)
            (λ fault. SpellsNothing self.old made fault self.new) }
    {
        let entry = match made {
            Ok(entry) => entry,
            Err(fault) => return Err(LoggedFault::OfMeeting { fault }),
        };
        let recorded = Recorded {
            process: self.process,
            entry,
        };
        match sealed_entry(self.alloc, &self.names, self.crc, &recorded) {
            Ok((bytes, crc)) => {
                self.crc = crc;
                Ok(bytes)
            }
            Err(_) => {
                self.stopped = true;
                Err(LoggedFault::Unspelled)
            }
        }
    }

    /// Makes a step, as by `MeetingNode::step`, and gives the bytes of the entry.
    pub fn step(&mut self, step: &Step) -> Result<Vec<u8, A>, LoggedFault>
        ensures written { MatchResult result (λ v. Writes F.start self.old step.now v.items self.new)
            (λ fault. WritesNothing F.start self.old step.now fault self.new) }
        ensures spelled { (first : State) (j : Journal) (past : Past) → IsSpelled F.start first j past self.old
            → MatchResult result (λ v. IsSpelledOn F.start first j past v.items self.new)
            (λ fault. fault ≢ LoggedFault.Unspelled → IsSpelled F.start first j past self.new) }
    {
        if self.stopped {
            return Err(LoggedFault::Stopped);
        }
        let made = self.meeting.step(step);
        self.spell(made)
    }

    /// Hears that another process accepted so many bodies, as by `MeetingNode::hear`.
    pub fn hear(&mut self, other: u8, count: u64) -> Result<(), HelloFault>
        ensures heard { MatchResult result (λ _. Hears self.old.meeting other count self.new.meeting)
            (λ fault. HearsNothing self.old.meeting other count fault self.new.meeting) }
        ensures rest { self.new ≡ record self.old { meeting = self.new.meeting } }
        ensures spelled { (first : State) (j : Journal) (past : Past) → IsSpelled F.start first j past self.old
            → IsSpelled F.start first j past self.new }
    {
        self.meeting.hear(other, count)
    }

    /// Notes that the first `count` entries of the log are durable, as by `MeetingNode::mark_durable`.
    ///
    /// # Errors
    ///
    /// `NotLogged`: the log has fewer entries. Nothing has changed.
    pub fn mark_durable(&mut self, count: u64) -> Result<(), NotLogged>
        ensures marked { OnOk result
            ((count ≤ self.old.meeting.node.logged)
            × (self.new
            ≡ record self.old { meeting = record self.old.meeting { node = marked self.old.meeting.node count } })) }
        ensures refused { OnErr result ((self.old.meeting.node.logged < count) × (self.new ≡ self.old)) }
        ensures spelled { (first : State) (j : Journal) (past : Past) → IsSpelled F.start first j past self.old
            → IsSpelled F.start first j past self.new }
    {
        self.meeting.mark_durable(count)
    }

    /// Hands out what is held first, as by `MeetingNode::hand_out`, unless the node has stopped.
    pub fn hand_out(&mut self) -> Option<Output<A>>
        ensures due { MatchOption result (LoggedHandsOutNothing self.old self.new)
            (λ output. LoggedHandsOut self.old output self.new) }
        ensures spelled { (first : State) (j : Journal) (past : Past) → IsSpelled F.start first j past self.old
            → IsSpelled F.start first j (past_given past result) self.new }
    {
        if self.stopped {
            return None;
        }
        self.meeting.hand_out()
    }
}
