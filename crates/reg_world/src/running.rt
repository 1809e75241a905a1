//! All processes and wires of a run, one event after another.
ghost use Rattle.std.specs.Prelude.{◌≡◌, ◌<◌, ◌≤◌, ◌++◌, ◌∷◌, List, false, length, take, Option, Some, IfOk, []};
ghost use Rattle.std.specs.Prelude.{MatchOption, MatchResult};
ghost use Rattle.reg_process.specs.declared.steps.Reply.{Reply};
ghost use Rattle.reg_process.specs.declared.events.Event.{Event};
ghost use Rattle.reg_world.specs.Histories.{Grows, Makes};
ghost use Rattle.reg_world.specs.Laws.{DeliveriesAgree, DeliveriesRise, DeliveriesMade, UndeliveredAbove};
ghost use Rattle.reg_world.specs.Laws.{AllAcknowledged, IsQuiescent};
ghost use Rattle.reg_world.specs.Promises.{OrderIsLongest, OrderIsRight, FirstsRight, RepliesRight, ReadsRight};
ghost use Rattle.reg_world.specs.World.{whole};
ghost use Rattle.reg_world.specs.Worlds.{Made, run_in, Accepts, Refuses, reply_in, new_world, after_events, RunRefuses};
ghost use Rattle.reg_world.specs.Worlds.{IsProcess, IsWire, IsNoWire, HasFrames, IsFrameAt};
ghost use Rattle.reg_world.specs.WorldParts.{IsWorld};

mod orders;

use crate::advancing::{advance, run_ahead};
use crate::books::Book;
use crate::events::EventStore;
use crate::faults::{RunFault, WorldFault};
use crate::finding::found;
use crate::members::{Member, new_members};
use crate::order::{CopyRead, First};
use crate::slices::Wires;
use crate::stores::{ListingStore, WireStore};
use crate::witnesses::witness_of;
use reg_base::Shape;
use reg_base::limits::MOST_EVENTS;
use reg_checkers::History;
use reg_frames::Frame;
use reg_front::FrontEnd;
use reg_process::{Brief, Event, Process, Reply};
use std::alloc::{AllocError, Allocator, Global};
use std::marker::Model;

/// All processes of a run with their wires, and what is told of the run.
///
/// A wire is the list of all frames ever put from one process to another. An event takes a frame by its place there, so
/// frames can be lost, repeated and taken in any order.
#[derive(Drop)]
pub struct World<F: FrontEnd, A: Allocator + Copy = Global, W: WireStore<A> = Wires<A>> {
    alloc: A,
    failed: bool,
    members: Vec<Member<F, A, W>, A>,
    book: Book<A, W::Events>,
    /// What went out of the last event.
    brief: Brief<A>,
}

impl<F: FrontEnd, A: Allocator + Copy, W: WireStore<A>> Model for World<F, A, W> {
    ghost use Rattle.reg_world.specs.Worlds.{Made};
    ghost use Rattle.reg_world.specs.WorldParts.{IsWorld};

    ghost Value = { Made };

    ghost view = { λ w.
        record {
          failed = w.failed;
          processes = w.book.shape.processes;
          registers = w.book.shape.registers;
          accepted = w.book.accepted;
          history = w.book.entries;
        } };

    ghost invariant = { λ w. IsWorld F.start w.failed w.members.items w.book };
}

impl<F: FrontEnd, A: Allocator + Copy, W: WireStore<A>> World<F, A, W> {
    /// A world in which nothing happened yet.
    ///
    /// # Errors
    ///
    /// Memory was refused.
    pub fn new(alloc: A, shape: Shape) -> Result<World<F, A, W>, AllocError>
        ensures { IfOk result (λ w. w ≡ new_world shape) }
    {
        let members = new_members(alloc, shape)?;
        let book = Book::new(alloc, shape)?;
        Ok(World {
            alloc,
            failed: false,
            members,
            book,
            brief: Brief::new(alloc),
        })
    }

    /// Makes an event. The history grows by the event's own call, and by an answer where the event gives one.
    ///
    /// # Errors
    ///
    /// The first fault of `WorldFault` that applies, and then nothing has changed; or `OutOfMemory`, and then the world
    /// has stopped for good, with the events, history, order and reads of the steps before.
    // (in line: a caller that makes events of one kind passes by what the others ask for)
    #[inline(always)]
    pub fn step(&mut self, event: &Event) -> Result<(), WorldFault>
        ensures made { MatchResult result (λ _. Accepts F.start self.old event.now self.new)
            (λ fault. Refuses F.start self.old event.now fault self.new) }
        ensures history { MatchResult result
            (λ _. (reply : Option Reply)
            × Grows (length self.old.accepted) self.old.history event.now reply self.new.history)
            (λ _. self.new.history ≡ self.old.history) }
        ensures accepted { MatchResult result (λ _. self.new.accepted ≡ self.old.accepted ++ event.now ∷ [])
            (λ _. self.new.accepted ≡ self.old.accepted) }
    {
        self.step_reply(event)?;
        Ok(())
    }

    /// Makes an event, and gives the reply that it brings, or None. The history grows by the event's own call, and by
    /// the answer of the reply.
    ///
    /// # Errors
    ///
    /// The first fault of `WorldFault` that applies, and then nothing has changed; or `OutOfMemory`, and then the world
    /// has stopped for good, with the events, history, order and reads of the steps before.
    // (in line: as `step`)
    #[inline(always)]
    pub fn step_reply(&mut self, event: &Event) -> Result<Option<Reply>, WorldFault>
        ensures made { MatchResult result (λ reply. Accepts F.start self.old event.now self.new
            × (reply ≡ reply_in F.start self.old event.now))
            (λ fault. Refuses F.start self.old event.now fault self.new) }
        ensures history { MatchResult result
            (λ reply. Grows (length self.old.accepted) self.old.history event.now reply self.new.history)
            (λ _. self.new.history ≡ self.old.history) }
        ensures accepted { MatchResult result (λ _. self.new.accepted ≡ self.old.accepted ++ event.now ∷ [])
            (λ _. self.new.accepted ≡ self.old.accepted) }
    {
        if self.failed {
            return Err(WorldFault::Failed);
        }
        let moved = found(&self.members, &self.book, event)?;
        let (members, book) = (&mut self.members, &mut self.book);
        match advance(members, book, *event, &moved, &mut self.brief) {
            Ok(reply) => Ok(reply),
            Err(_) => {
                self.failed = true;
                Err(WorldFault::OutOfMemory)
            }
        }
    }

    /// Makes these events, one after another, in a new world.
    ///
    /// # Errors
    ///
    /// The first event that is refused, and why. `OutOfMemory` with 0 may also say that memory was refused before any
    /// event.
    pub fn run(alloc: A, shape: Shape, events: &[Event]) -> Result<World<F, A, W>, RunFault>
        ensures world { MatchResult result (λ w. w ≡ after_events F.start shape events.now)
            (λ f. RunRefuses F.start shape events.now f.at f.fault) }
        ensures history { IfOk result (λ w. Makes events.now w.history) }
        ensures accepted { MatchResult result
            (λ _. (run_in F.start (after_events F.start shape events.now)).accepted ≡ events.now)
            (λ f. (run_in F.start (after_events F.start shape (take f.at events.now))).accepted
            ≡ take f.at events.now) }
    {
        let Ok(events) = events.to_vec(alloc) else {
            let fault = WorldFault::OutOfMemory;
            return Err(RunFault { at: 0, fault });
        };
        World::run_owned(alloc, shape, events)
    }

    /// Makes the events of a list that it takes over, one after another, in a new world.
    ///
    /// # Errors
    ///
    /// The first event that is refused, and why. `OutOfMemory` with 0 may also say that memory was refused before any
    /// event.
    // (the list itself becomes that of the accepted events, so that none is copied)
    pub fn run_owned(
        alloc: A,
        shape: Shape,
        events: Vec<Event, A>,
    ) -> Result<World<F, A, W>, RunFault>
        ensures world { MatchResult result (λ w. w ≡ after_events F.start shape events.items)
            (λ f. RunRefuses F.start shape events.items f.at f.fault) }
        ensures history { IfOk result (λ w. Makes events.items w.history) }
        ensures accepted { MatchResult result
            (λ _. (run_in F.start (after_events F.start shape events.items)).accepted ≡ events.items)
            (λ f. (run_in F.start (after_events F.start shape (take f.at events.items))).accepted
            ≡ take f.at events.items) }
    {
        let Ok(mut world) = World::new(alloc, shape) else {
            let fault = WorldFault::OutOfMemory;
            return Err(RunFault { at: 0, fault });
        };
        let count = events.len();
        world.book.put_ahead(events);
        run_ahead(&mut world.members, &mut world.book, &mut world.brief, count)?;
        // (for the proof: by this getter's contract the history is that of the accepted events)
        world.history();
        Ok(world)
    }

    /// The number of processes and of registers.
    pub fn shape(&self) -> Shape
        ensures { result ≡ record { processes = self.now.processes; registers = self.now.registers } }
    {
        self.book.history().shape()
    }

    /// Whether it has stopped: it was out of memory, and refuses every event.
    pub fn has_failed(&self) -> bool
        ensures { result ≡ self.now.failed }
    {
        self.failed
    }

    /// How many events were accepted.
    pub fn events(&self) -> u32
        ensures value { result ≡ length self.now.accepted }
        ensures few { result ≤ MOST_EVENTS }
        ensures all { (run_in F.start self.now).accepted ≡ self.now.accepted }
    {
        self.book.accepted().len() as u32
    }

    /// The calls and answers, each with the number of its event, from 0.
    pub fn history(&self) -> &History<A>
        ensures shape { result.now.shape ≡ record { processes = self.now.processes; registers = self.now.registers } }
        ensures value { result.now.entries ≡ self.now.history }
        ensures made { Makes self.now.accepted self.now.history }
        ensures entries { result.now.entries ≡ (run_in F.start self.now).history }
        ensures replies { RepliesRight F.start self.now.processes self.now.registers (run_in F.start self.now) }
    {
        self.book.history()
    }

    /// The history alone.
    pub fn into_history(self) -> History<A>
        ensures shape { result.shape ≡ record { processes = self.processes; registers = self.registers } }
        ensures value { result.entries ≡ self.history }
        ensures entries { result.entries ≡ (run_in F.start self).history }
    {
        self.book.into_history()
    }

    /// Each cast's first delivery anywhere, in order of delivery, which is the order of stamps: the one order of casts.
    /// What a process has delivered is a prefix of it.
    pub fn order(&self) -> &[First]
        ensures value { result.now ≡ (run_in F.start self.now).order }
        ensures agree { DeliveriesAgree self.now.processes (run_in F.start self.now).nodes }
        ensures rise { DeliveriesRise self.now.processes (run_in F.start self.now).nodes }
        ensures made { DeliveriesMade self.now.processes (run_in F.start self.now).nodes }
        ensures above { (more : List Event)
            → UndeliveredAbove self.now.processes (run_in F.start self.now).nodes
            (whole F.start self.now.processes self.now.registers (self.now.accepted ++ more)).nodes }
        ensures longest { OrderIsLongest self.now.processes (run_in F.start self.now) }
        ensures right { OrderIsRight self.now.processes (run_in F.start self.now) }
        ensures firsts { FirstsRight F.start self.now.processes self.now.registers (run_in F.start self.now) }
    {
        self.book.order()
    }

    /// The finished reads that were answered from a copy, in order of their answers.
    pub fn reads(&self) -> &[CopyRead]
        ensures value { result.now ≡ (run_in F.start self.now).reads }
        ensures right { ReadsRight (run_in F.start self.now) }
    {
        self.book.reads()
    }

    /// A process of the run, None where there is no such one. Nothing is claimed of it once the world has stopped.
    /// Where no process of the run has a frame that is not acknowledged, each has delivered all casts, none is busy,
    /// and all copies are equal.
    pub fn process(&self, process: u8) -> Option<&Process<F, A>>
        ensures process { MatchOption result (self.now.processes ≤ process)
            (λ p. IsProcess F.start self.now process p.now) }
        ensures quiescent { AllAcknowledged self.now.processes (run_in F.start self.now).nodes
            → IsQuiescent self.now.processes (run_in F.start self.now).nodes }
    {
        match self.members.get(usize::from(process)) {
            Some(member) => Some(member.process()),
            None => None,
        }
    }

    /// How many frames were ever put from one process to another, None where one of them isn't there or both are the
    /// same. Nothing is claimed of the number once the world has stopped.
    pub fn frame_count(&self, from: u8, to: u8) -> Option<usize>
        ensures { MatchOption result (IsNoWire self.now from to) (λ count. HasFrames F.start self.now from to count) }
    {
        if from == to {
            return None;
        }
        if usize::from(to) >= self.members.len() {
            return None;
        }
        match self.members.get(usize::from(from)) {
            Some(member) => Some(member.count(to)),
            None => None,
        }
    }

    /// The frame at this place, from 0, of all frames ever put from one process to another. None where there is no such
    /// place, or where one of the processes isn't there or both are the same. Nothing is claimed of the frame once the
    /// world has stopped.
    pub fn frame_at(&self, from: u8, to: u8, number: u32) -> Option<Frame>
        ensures { IsFrameAt F.start self.now from to number result }
    {
        if from == to {
            return None;
        }
        if usize::from(to) >= self.members.len() {
            return None;
        }
        match self.members.get(usize::from(from)) {
            Some(member) => member.frame_at(to, number),
            None => None,
        }
    }
}

impl<F: FrontEnd, A: Allocator + Copy, W: ListingStore<A>> World<F, A, W> {
    /// The events accepted so far, in order. The run that the world tells of is the run of these events.
    pub fn accepted(&self) -> &[Event]
        ensures value { result.now ≡ self.now.accepted }
        ensures all { (run_in F.start self.now).accepted ≡ self.now.accepted }
    {
        W::listed(self.book.accepted())
    }
}

impl<F: FrontEnd, A: Allocator + Copy> World<F, A, Wires<A>> {
    /// All frames ever put from one process to another, None where one of the processes isn't there or both are the
    /// same. Nothing is claimed of the frames once the world has stopped.
    pub fn wire(&self, from: u8, to: u8) -> Option<&[Frame]>
        ensures { MatchOption result (IsNoWire self.now from to)
            (λ frames. IsWire F.start self.now from to frames.now) }
    {
        if from == to {
            return None;
        }
        if usize::from(to) >= self.members.len() {
            return None;
        }
        match self.members.get(usize::from(from)) {
            Some(member) => Some(member.wire(to)),
            None => None,
        }
    }
}
