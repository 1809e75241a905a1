//! What a world tells of its run.
ghost use Rattle.std.specs.Prelude.{◌≡◌, ◌<◌, ◌≤◌, ◌+◌, ◌-◌, not, [], length, replicate, IfOk, OnOk, MatchResult};
ghost use Rattle.std.specs.Prelude.{vec_len, vec_capacity, slice_get, Decides, None};
ghost use Rattle.reg_world.specs.World.{op_id};
ghost use Rattle.reg_world.specs.Tallies.{no_calls};
ghost use Rattle.reg_world.specs.Pages.{entered, passed, CallsNothing, tallies_after, tally_after, calls_after};
ghost use Rattle.reg_world.specs.Pages.{last_casts, tally_at, CallFits, MayEnter};

use crate::adding::{push_answer, push_call, push_firsts, push_read};
use crate::callers::Caller;
use crate::events::EventStore;
use crate::members::StepEffect;
use crate::order::{CopyRead, First};
use reg_base::{OpId, Shape, Stamp};
use reg_checkers::History;
use reg_process::{Effect, Event, Step};
use std::alloc::{AllocError, Allocator};
use std::marker::Model;

/// What a world tells of its run: the events that it accepted, the calls and answers, each cast's first delivery and
/// the reads from a copy, with what is kept of the operations of each process.
#[derive(Drop)]
pub(crate) struct Book<A: Allocator + Copy, E: EventStore<A>> {
    accepted: E,
    history: History<A>,
    order: Vec<First, A>,
    reads: Vec<CopyRead, A>,
    callers: Vec<Caller<A>, A>,
}

impl<A: Allocator + Copy, E: EventStore<A>> Model for Book<A, E> {
    ghost use Rattle.reg_world.specs.Pages.{Pages};

    ghost Value = { Pages };

    ghost view = { λ b.
        record {
          shape = b.history.shape;
          accepted = E.taken b.accepted;
          ahead = E.ahead b.accepted;
          entries = b.history.entries;
          order = b.order.items;
          reads = b.reads.items;
          tallies = b.callers.items;
        } };
}

/// What is kept of each of the given number of processes, which called nothing yet.
fn new_callers<A: Allocator + Copy>(alloc: A, count: u32) -> Result<Vec<Caller<A>, A>, AllocError>
    ensures { IfOk result (λ v. v.items ≡ replicate count no_calls) }
{
    let mut callers = Vec::new(alloc);
    for _i in 0..count {
        callers.push(Caller::new(alloc))?;
    }
    Ok(callers)
}

/// Makes room in each list for what an event can add. The lists stay.
fn reserve_all<A: Allocator + Copy, E: EventStore<A>>(
    accepted: &mut E,
    history: &mut History<A>,
    order: &mut Vec<First, A>,
    reads: &mut Vec<CopyRead, A>,
    firsts: usize,
) -> Result<(), AllocError>
    ensures accepted { E.taken accepted.new ≡ E.taken accepted.old }
    ensures ahead { E.ahead accepted.new ≡ E.ahead accepted.old }
    ensures accepted_room { OnOk result (1 ≤ E.room accepted.new) }
    ensures shape { history.new.shape ≡ history.old.shape }
    ensures entries { history.new.entries ≡ history.old.entries }
    ensures entries_room { OnOk result (2 ≤ history.new.room) }
    ensures order { order.new.items ≡ order.old.items }
    ensures order_room { OnOk result (vec_len order.new + firsts ≤ vec_capacity order.new) }
    ensures reads { reads.new.items ≡ reads.old.items }
    ensures reads_room { OnOk result (vec_len reads.new + 1 ≤ vec_capacity reads.new) }
{
    accepted.make_room()?;
    history.reserve(2)?;
    order.reserve(firsts)?;
    reads.reserve(1)
}

/// Whether a step calls, answers and delivers nothing, so that all that is told of it is that its event was accepted.
// (in line: it is a few tests)
#[inline(always)]
fn is_silent<A: Allocator + Copy>(step: &Step, effect: &Effect<A>) -> bool
    ensures { Decides result (CallsNothing step.now × (effect.now.reply ≡ None) × (effect.now.delivered.items ≡ [])) }
{
    let calls = match step {
        Step::Call { .. } => true,
        Step::Take { .. } => false,
        Step::Tick => false,
    };
    !calls && effect.reply.is_none() && effect.delivered.is_empty()
}

/// The operations of a step.
#[derive(Clone, Copy)]
struct StepIds {
    /// The operation that is called, where one is.
    called: OpId,
    /// The last operation called, which a reply is to.
    answered: OpId,
    /// Whether a reply to that operation is from a copy: it made no cast.
    is_copied: bool,
}

/// Notes a step of one process. Where memory is refused nothing has changed.
fn enter_caller<A: Allocator + Copy>(
    callers: &mut Vec<Caller<A>, A>,
    process: u8,
    step: &Step,
    runs: bool,
    cast: Option<Stamp>,
) -> Result<StepIds, AllocError>
    requires process { process < length callers.old.items }
    requires calls { CallFits step.now (tally_at callers.old.items process).calls }
    ensures callers { MatchResult result (λ _. callers.new.items
        ≡ tallies_after callers.old.items process step.now runs cast)
        (λ _. callers.new.items ≡ callers.old.items) }
    ensures called { IfOk result (λ ids. ids.called ≡ op_id process (tally_at callers.old.items process).calls) }
    ensures answered { IfOk result (λ ids. ids.answered
        ≡ op_id process (calls_after step.now (tally_at callers.old.items process).calls - 1)) }
    ensures copied { IfOk result (λ ids. ids.is_copied
        ≡ not (last_casts (tally_after (tally_at callers.old.items process) step.now runs cast))) }
{
    let caller = &mut callers[usize::from(process)];
    let number = caller.calls();
    caller.enter(step, runs, cast)?;
    let answered = OpId {
        process,
        number: caller.calls().saturating_sub(1),
    };
    Ok(StepIds {
        called: OpId { process, number },
        answered,
        is_copied: !caller.last_casts(),
    })
}

impl<A: Allocator + Copy, E: EventStore<A>> Book<A, E> {
    /// The book of a run in which nothing happened yet.
    pub(crate) fn new(alloc: A, shape: Shape) -> Result<Book<A, E>, AllocError>
        ensures { IfOk result (λ b. b
            ≡ record {
              shape = shape;
              accepted = [];
              ahead = [];
              entries = [];
              order = [];
              reads = [];
              tallies = replicate shape.processes no_calls;
            }) }
    {
        let history = History::new(alloc, shape)?;
        let callers = new_callers(alloc, shape.processes())?;
        Ok(Book {
            accepted: E::new(alloc),
            history,
            order: Vec::new(alloc),
            reads: Vec::new(alloc),
            callers,
        })
    }

    /// Puts these events ahead, before any was accepted. Nothing else changes.
    pub(crate) fn put_ahead(&mut self, mut events: Vec<Event, A>)
        requires { self.old.accepted ≡ [] }
        ensures { self.new ≡ record self.old { ahead = events.items } }
    {
        self.accepted.put_ahead(&mut events);
    }

    /// The first event that is ahead.
    pub(crate) fn next_ahead(&self) -> Option<Event>
        ensures { result ≡ slice_get self.now.ahead 0 }
    {
        self.accepted.next()
    }

    /// The events accepted so far.
    pub(crate) fn accepted(&self) -> &E
        ensures { E.taken result.now ≡ self.now.accepted }
    {
        &self.accepted
    }

    /// The history alone.
    pub(crate) fn into_history(self) -> History<A>
        ensures shape { result.shape ≡ self.shape }
        ensures entries { result.entries ≡ self.entries }
    {
        self.history
    }

    /// The calls and answers.
    pub(crate) fn history(&self) -> &History<A>
        ensures shape { result.now.shape ≡ self.now.shape }
        ensures entries { result.now.entries ≡ self.now.entries }
    {
        &self.history
    }

    /// Each cast's first delivery.
    pub(crate) fn order(&self) -> &[First]
        ensures { result.now ≡ self.now.order }
    {
        self.order.as_slice()
    }

    /// The reads answered from a copy.
    pub(crate) fn reads(&self) -> &[CopyRead]
        ensures { result.now ≡ self.now.reads }
    {
        self.reads.as_slice()
    }

    /// What is kept of the operations of each process.
    pub(crate) fn callers(&self) -> &[Caller<A>]
        ensures { result.now ≡ self.now.tallies }
    {
        self.callers.as_slice()
    }

    /// Enters an event in which the process made this step. Where memory is refused nothing has changed.
    // (in line: it runs at each event, most of which tell nothing)
    #[inline(always)]
    pub(crate) fn enter(
        &mut self,
        event: Event,
        process: u8,
        step: &Step,
        made: &StepEffect<'_, A>,
    ) -> Result<(), AllocError>
        requires { MayEnter self.old process step.now made.now.runs made.now.effect.now.cast
            made.now.effect.now.delivered.items made.now.effect.now.reply }
        ensures { MatchResult result (λ _. self.new
            ≡ entered self.old event process step.now made.now.runs made.now.effect.now.cast
            made.now.effect.now.delivered.items made.now.effect.now.reply)
            (λ _. self.new ≡ self.old) }
    {
        if is_silent(step, made.effect) {
            self.enter_silent(event, process, made.runs)
        } else {
            self.enter_telling(event, process, step, made)
        }
    }

    /// Enters an event that calls, answers and delivers nothing.
    // (in line: it runs at most events, and does little more than a call costs)
    #[inline(always)]
    fn enter_silent(&mut self, event: Event, process: u8, runs: bool) -> Result<(), AllocError>
        requires { process < length self.old.tallies }
        ensures { MatchResult result (λ _. self.new ≡ passed self.old event process runs) (λ _. self.new ≡ self.old) }
    {
        self.accepted.make_room()?;
        self.callers[usize::from(process)].runs = runs;
        self.accepted.add(event);
        Ok(())
    }

    /// Enters an event, whatever it tells.
    // (in line: its lists stay in registers from one push to the next)
    #[inline(always)]
    fn enter_telling(
        &mut self,
        event: Event,
        process: u8,
        step: &Step,
        made: &StepEffect<'_, A>,
    ) -> Result<(), AllocError>
        requires { MayEnter self.old process step.now made.now.runs made.now.effect.now.cast
            made.now.effect.now.delivered.items made.now.effect.now.reply }
        ensures { MatchResult result (λ _. self.new
            ≡ entered self.old event process step.now made.now.runs made.now.effect.now.cast
            made.now.effect.now.delivered.items made.now.effect.now.reply)
            (λ _. self.new ≡ self.old) }
    {
        let effect = made.effect;
        let at = self.accepted.len() as u32;
        reserve_all(
            &mut self.accepted,
            &mut self.history,
            &mut self.order,
            &mut self.reads,
            effect.delivered.len(),
        )?;
        let ids = enter_caller(&mut self.callers, process, step, made.runs, effect.cast)?;
        push_call(&mut self.history, at, ids.called, step);
        push_answer(&mut self.history, at, ids.answered, effect.reply);
        push_read(&mut self.reads, ids.answered, ids.is_copied, effect.reply);
        push_firsts(&mut self.order, &mut self.callers, at, &effect.delivered);
        self.accepted.add(event);
        Ok(())
    }
}
