//! The events of a play without those that no answer needs.
ghost use Rattle.std.specs.Prelude.{◌≡◌, ◌<◌, ◌∷◌, ◌++◌, ◌↔◌, [], IfOk, OnOk, IsTrue, MatchOption, length, max, take};
ghost use Rattle.std.specs.List.{remove};
ghost use Rattle.reg_show.specs.Shorts.{HaveSameAnswers, IsTried, KeepsAnswers, Shortens, finished_by, finished_of};
ghost use Rattle.reg_show.specs.Shorts.{last_after, up_to_answer, up_to_last_answer};

use reg_base::{Answer, Op, Shape};
use reg_checkers::Entry;
use reg_front::FrontEnd;
use reg_world::{Event, PackedWires, RunFault, World, WorldFault};
use std::alloc::{AllocError, Allocator};

/// An operation that a process called, with its answer.
#[derive(Clone, Copy, Debug, PartialEq, Eq)]
pub struct Finished {
    pub op: Op,
    pub answer: Answer,
}

/// The operation that a process called last, after one more entry.
fn last_called(process: u8, last: Option<Op>, entry: Entry) -> Option<Op>
    ensures { result ≡ last_after process last entry }
{
    match entry {
        Entry::Called { at: _, id, op } => {
            if id.process == process {
                Some(op)
            } else {
                last
            }
        }
        Entry::Answered { .. } => last,
    }
}

/// The operation that a process finishes by an entry: the one that it called last.
fn finished_at(process: u8, last: Option<Op>, entry: Entry) -> Option<Finished>
    ensures { MatchOption result (finished_by process last entry ≡ []) (λ f. finished_by process last entry ≡ f ∷ []) }
{
    match entry {
        Entry::Called { .. } => None,
        Entry::Answered { at: _, id, answer } => {
            if id.process != process {
                return None;
            }
            match last {
                Some(op) => Some(Finished { op, answer }),
                None => None,
            }
        }
    }
}

/// Adds the operation that a process finishes by an entry.
fn add_finished<A: Allocator + Copy>(
    finished: &mut Vec<Finished, A>,
    process: u8,
    last: Option<Op>,
    entry: Entry,
) -> Result<(), AllocError>
    ensures { OnOk result (finished.new.items ≡ finished.old.items ++ finished_by process last entry) }
{
    match finished_at(process, last, entry) {
        Some(one) => {
            finished.push(one)?;
            Ok(())
        }
        None => Ok(()),
    }
}

/// The finished operations of a process, in order, each with its answer.
fn finished_in<A: Allocator + Copy>(
    alloc: A,
    process: u8,
    entries: &[Entry],
) -> Result<Vec<Finished, A>, AllocError>
    ensures { IfOk result (λ v. v.items ≡ finished_of process entries.now) }
{
    let mut last = None;
    let mut finished = Vec::new(alloc);
    for entry in entries {
        add_finished(&mut finished, process, last, *entry)?;
        last = last_called(process, last, *entry);
    }
    Ok(finished)
}

/// Whether these are the same operations, with the same answers.
fn are_same(list: &[Finished], others: &[Finished]) -> bool
    ensures { IsTrue result ↔ list.now ≡ others.now }
{
    list == others
}

/// Whether a process finishes the same operations in both histories, each with the same answer.
fn has_same_answers<A: Allocator + Copy>(
    alloc: A,
    process: u8,
    entries: &[Entry],
    others: &[Entry],
) -> Result<bool, AllocError>
    ensures { IfOk result (λ same. IsTrue same ↔ finished_of process entries.now ≡ finished_of process others.now) }
{
    let one = finished_in(alloc, process, entries)?;
    let other = finished_in(alloc, process, others)?;
    Ok(are_same(&one, &other))
}

/// Whether each process finishes the same operations in both histories, each with the same answer.
fn have_same_answers<A: Allocator + Copy>(
    alloc: A,
    processes: u8,
    entries: &[Entry],
    others: &[Entry],
) -> Result<bool, AllocError>
    ensures { IfOk result (λ same. IsTrue same ↔ HaveSameAnswers processes entries.now others.now) }
{
    for process in 0..processes {
        let same = has_same_answers(alloc, process, entries, others)?;
        if !same {
            return Ok(false);
        }
    }
    Ok(true)
}

/// Whether all of these events are accepted, and each process finishes by them the operations that it finishes in this
/// history, each with the same answer.
fn keep_answers<F: FrontEnd, A: Allocator + Copy>(
    alloc: A,
    shape: Shape,
    entries: &[Entry],
    events: Vec<Event, A>,
) -> Result<bool, AllocError>
    ensures { IfOk result (λ keeps. IsTrue keeps ↔ KeepsAnswers F.start shape entries.now events.items) }
{
    match World::<F, A, PackedWires<A>>::run_owned(alloc, shape, events) {
        Ok(world) => {
            let processes = shape.processes() as u8;
            have_same_answers(alloc, processes, world.history().entries(), entries)
        }
        Err(RunFault { at: _, fault }) => match fault {
            WorldFault::OutOfMemory => Err(AllocError),
            _ => Ok(false),
        },
    }
}

/// The events without the one at this place.
fn without<A: Allocator + Copy>(
    alloc: A,
    events: &[Event],
    place: usize,
) -> Result<Vec<Event, A>, AllocError>
    requires { place < length events.now }
    ensures { IfOk result (λ v. v.items ≡ remove events.now place) }
{
    let mut others = Vec::with_capacity(alloc, events.len() - 1)?;
    others.extend_from_slice(&events[..place])?;
    others.extend_from_slice(&events[place + 1..])?;
    Ok(others)
}

/// Drops the event at this place where all answers of this history are the same without it.
fn try_without<F: FrontEnd, A: Allocator + Copy>(
    alloc: A,
    shape: Shape,
    entries: &[Entry],
    events: &mut Vec<Event, A>,
    place: usize,
) -> Result<(), AllocError>
    requires { place < length events.old.items }
    ensures { OnOk result (IsTried (KeepsAnswers F.start shape entries.now) events.old.items place events.new.items) }
{
    let others = without(alloc, events.as_slice(), place)?;
    let keeps = keep_answers::<F, A>(alloc, shape, entries, others)?;
    if !keeps {
        return Ok(());
    }
    events.remove(place);
    Ok(())
}

/// The events without each that no answer of this history needs: from the last to the first, an event is dropped where
/// all answers are the same without it. Each is tried by a run, so the work grows as the square of their number.
pub(crate) fn shorten<F: FrontEnd, A: Allocator + Copy>(
    alloc: A,
    shape: Shape,
    entries: &[Entry],
    events: &[Event],
) -> Result<Vec<Event, A>, AllocError>
    ensures { IfOk result
        (λ v. Shortens (KeepsAnswers F.start shape entries.now) (length events.now) events.now v.items) }
{
    let mut short = Vec::from_slice(alloc, events)?;
    for tried in 0..events.len() {
        let place = events.len() - tried - 1;
        try_without::<F, A>(alloc, shape, entries, &mut short, place)?;
    }
    Ok(short)
}

/// So many events, or as many as there are up to that of this entry, where it is an answer and they are more.
fn count_past(count: usize, entry: Entry) -> usize
    ensures { result ≡ max (up_to_answer entry) count }
{
    match entry {
        Entry::Called { .. } => count,
        Entry::Answered { at, .. } => {
            let end = at as usize + 1;
            if end < count { count } else { end }
        }
    }
}

/// How many events there are up to the last answer.
fn count_to_last_answer(entries: &[Entry]) -> usize
    ensures { result ≡ up_to_last_answer entries.now }
{
    let mut count = 0;
    for entry in entries {
        count = count_past(count, *entry);
    }
    count
}

/// The events up to the last answer of this history.
pub(crate) fn up_to_last<'e>(entries: &[Entry], events: &'e [Event]) -> &'e [Event]
    ensures { result.now ≡ take (up_to_last_answer entries.now) events.now }
{
    let count = count_to_last_answer(entries);
    if count < events.len() {
        &events[..count]
    } else {
        events
    }
}
