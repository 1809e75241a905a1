//! The search for a point order of a history, or for the first answer that none explains.
ghost use Rattle.std.specs.Prelude.{◌≡◌, IfOk};
ghost use Rattle.reg_checkers.specs.History.{IsAt, event_of as event_number};
ghost use Rattle.reg_checkers.specs.declared.entries.Entry.{Entry as AnyEntry};
ghost use Rattle.reg_judge.specs.Firsts.{AreRulingsOf};
ghost use Rattle.reg_judge.specs.Rulings.{IsSought};

use crate::judge::{MOST_STAGES, PointsFault, judge_points};
use crate::rulings::faults::RuleFault;
use crate::rulings::firsts::first_unexplained;
use crate::rulings::keys::Ruling;
use reg_checkers::{Entry, History, Point};
use std::alloc::Allocator;

/// What a search for a point order came to.
#[derive(Drop)]
pub enum Sought<A: Allocator + Copy> {
    /// This one.
    Points(Vec<Point, A>),
    /// There is none. The place is that of the first answer up to which there is none.
    None { place: usize },
}

/// The number of the event of an entry.
pub(crate) fn event_of(entry: Entry) -> u32
    ensures { result ≡ event_number entry }
{
    match entry {
        Entry::Called { at, id: _, op: _ } => at,
        Entry::Answered {
            at,
            id: _,
            answer: _,
        } => at,
    }
}

/// The number of the event of the entry at a place, 0 where there is none.
pub(crate) fn event_at<A: Allocator + Copy>(history: &History<A>, place: usize) -> u32
    ensures { (e : AnyEntry) → IsAt history.now.entries place e → result ≡ event_number e }
{
    match history.entries().get(place) {
        Some(entry) => event_of(*entry),
        None => 0,
    }
}

/// A point order of a history, or the place of the first answer that none explains.
///
/// # Errors
///
/// `TooWide`, `Unchecked` and `OutOfMemory` say nothing of the history: that `Unchecked` never comes, no clause says.
pub fn seek<A: Allocator + Copy>(alloc: A, history: &History<A>) -> Result<Sought<A>, RuleFault>
    ensures { IfOk result (IsSought history.now.shape.registers history.now.entries) }
{
    match judge_points(alloc, history, MOST_STAGES) {
        Ok(points) => Ok(Sought::Points(points)),
        Err(PointsFault::No { place }) => Ok(Sought::None { place }),
        Err(PointsFault::TooManyStages { place }) => Err(RuleFault::TooWide {
            at: event_at(history, place),
        }),
        Err(PointsFault::Unchecked) => Err(RuleFault::Unchecked),
        Err(PointsFault::OutOfMemory) => Err(RuleFault::OutOfMemory),
    }
}

/// A point order of a history, or the place of the first answer that none explains, by what was found out of each
/// register. So the whole is searched only where each register by itself has a point order.
///
/// # Errors
///
/// As `seek`.
pub(crate) fn seek_by<A: Allocator + Copy>(
    alloc: A,
    history: &History<A>,
    rulings: &[Ruling],
) -> Result<Sought<A>, RuleFault>
    requires { AreRulingsOf history.now.shape.processes history.now.shape.registers history.now.entries rulings.now }
    ensures { IfOk result (IsSought history.now.shape.registers history.now.entries) }
{
    match first_unexplained(history.entries(), rulings) {
        Some(place) => Ok(Sought::None { place }),
        None => seek(alloc, history),
    }
}
