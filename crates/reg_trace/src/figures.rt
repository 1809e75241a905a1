//! What a drawing of a run joins: operations from call to answer, and frames from the event that put them to the one
//! that takes them.
ghost use Rattle.std.specs.Prelude.{◌≡◌, IfOk};
ghost use Rattle.std.specs.BTreeMap.{get};
ghost use Rattle.std.specs.List.{list_any};
ghost use Rattle.reg_trace.specs.Figures.{arrows_of, bars_of, end_of, takes_from};
ghost use Rattle.reg_trace.specs.Moments.{Fact};
ghost use Rattle.reg_trace.specs.Putters.{wire_place_cmp};

use crate::moments::Moment;
use crate::putters::{Putters, WirePlace, putters_of};
use reg_base::{Answer, Op, OpId};
use reg_checkers::Entry;
use reg_world::Event;
use std::alloc::{AllocError, Allocator};

/// The answer of an operation.
#[derive(Clone, Copy, Debug, PartialEq, Eq)]
pub struct End {
    /// The number of its event.
    pub at: u32,
    pub answer: Answer,
}

/// An operation, from its call to its answer, or open.
#[derive(Clone, Copy, Debug, PartialEq, Eq)]
pub struct Bar {
    pub id: OpId,
    pub op: Op,
    /// The number of the event that called it.
    pub call: u32,
    pub end: Option<End>,
}

/// A frame that was taken, from the event that put it to the one that takes it.
#[derive(Clone, Copy, Debug, PartialEq, Eq)]
pub struct Arrow {
    pub from: u8,
    pub to: u8,
    /// Its place on its wire.
    pub place: u32,
    pub puts: usize,
    pub takes: usize,
}

/// The answer of an operation, where the entries have one.
fn end_among(entries: &[Entry], id: OpId) -> Option<End>
    ensures { result ≡ end_of id entries.now }
{
    for entry in entries {
        if let Entry::Answered {
            at,
            id: other,
            answer,
        } = entry
        {
            if other.process == id.process && other.number == id.number {
                return Some(End {
                    at: *at,
                    answer: *answer,
                });
            }
        }
    }
    None
}

/// A bar for each operation of a history, in order of the calls.
///
/// # Errors
///
/// Memory was refused.
pub fn bars<A: Allocator + Copy>(alloc: A, entries: &[Entry]) -> Result<Vec<Bar, A>, AllocError>
    ensures { IfOk result (λ v. v.items ≡ bars_of entries.now) }
{
    let mut bars = Vec::new(alloc);
    for entry in entries {
        if let Entry::Called { at, id, op } = entry {
            bars.push(Bar {
                id: *id,
                op: *op,
                call: *at,
                end: end_among(entries, *id),
            })?;
        }
    }
    Ok(bars)
}

/// The number of the first event that put the frame at this place of a wire.
fn putter_of<A: Allocator + Copy>(
    putters: &Putters<A>,
    from: u8,
    to: u8,
    place: u32,
) -> Option<usize>
    ensures { result ≡ get wire_place_cmp putters.now (record { from = from; to = to; place = place }) }
{
    let at = WirePlace {
        from,
        to,
        place: place as usize,
    };
    putters.get(&at).copied()
}

/// An arrow for each take whose frame one of the moments put, in order of the takes: of the moments of a run, for each
/// take (`laws::takes_have_arrows`).
///
/// # Errors
///
/// Memory was refused.
pub fn arrows<A: Allocator + Copy>(
    alloc: A,
    moments: &[Moment<A>],
) -> Result<Vec<Arrow, A>, AllocError>
    ensures { IfOk result (λ v. v.items ≡ arrows_of moments.now) }
{
    let putters = putters_of(alloc, moments)?;
    let mut arrows = Vec::new(alloc);
    for (takes, moment) in moments.iter().enumerate() {
        if let Event::Take { from, to, number } = moment.event {
            if let Some(puts) = putter_of(&putters, from, to, number) {
                arrows.push(Arrow {
                    from,
                    to,
                    place: number,
                    puts,
                    takes,
                })?;
            }
        }
    }
    Ok(arrows)
}

/// Whether an event takes the frame at this place of a wire.
fn takes<A: Allocator + Copy>(moment: &Moment<A>, from: u8, to: u8, place: usize) -> bool
    ensures { result ≡ takes_from from to place moment.now.event }
{
    match moment.event {
        Event::Take {
            from: sender,
            to: receiver,
            number,
        } => sender == from && receiver == to && number as usize == place,
        _ => false,
    }
}

/// Whether some event takes the frame at this place of a wire.
pub fn is_taken<A: Allocator + Copy>(moments: &[Moment<A>], from: u8, to: u8, place: usize) -> bool
    ensures { result ≡ list_any (λ (f : Fact). takes_from from to place f.event) moments.now }
{
    moments.iter().any(|moment| takes(moment, from, to, place))
}
