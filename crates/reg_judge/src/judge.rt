//! A point order of a history, or the first answer that none explains.
ghost use Rattle.std.specs.Prelude.{◌≡◌, ◌+◌, ◌-◌, ◌<◌, ◌≤◌, IfErr, IfOk, MatchResult, length, take};
ghost use Rattle.reg_checkers.specs.Orders.{IsPointOrder};
ghost use Rattle.reg_judge.specs.Judging.{AreBounds, HasPointOrder, IsDecided, IsExplained, IsFirstUnexplained};
ghost use Rattle.reg_judge.specs.Judging.{IsPointsFault};

use crate::order::points_of;
use crate::search::{Searched, go_through};
use reg_checkers::{CheckFault, Entry, History, HistoryFault, Point, check_points, table_of};
use std::alloc::{AllocError, Allocator, Global};
use thiserror::Error;

/// The most stages of a register between two entries, where nothing else is asked for.
pub const MOST_STAGES: u32 = 1_048_576;

/// Why a history has no point order, or none is given.
#[derive(Clone, Copy, Debug, PartialEq, Eq, Error)]
pub enum PointsFault {
    /// There is no point order, from the entry at this place on. That is an answer, and the entries before it have a
    /// point order.
    #[error("no point order from the answer at {place} on")]
    No { place: usize },
    /// At the entry of this place there were more stages of a register than the limit.
    #[error("too many stages at {place}")]
    TooManyStages { place: usize },
    /// What the search found did not pass the check of point orders.
    #[error("unchecked")]
    Unchecked,
    /// Memory was refused.
    #[error("out of memory")]
    OutOfMemory,
}

impl From<AllocError> for PointsFault {
    ghost use Rattle.std.specs.Prelude.{◌≡◌};
    ghost use Rattle.reg_judge.specs.declared.judge.PointsFault.TheVariants.{OutOfMemory};

    ghost from_gives = { λ _ fault. fault ≡ OutOfMemory };

    fn from(_error: AllocError) -> PointsFault {
        Self::OutOfMemory
    }
}

/// How far a search came that found no order.
#[derive(Drop)]
pub(crate) struct Stuck<A: Allocator + Copy = Global> {
    /// The place of the entry up to which it came.
    place: usize,
    /// What it had placed before that entry.
    points: Vec<Point, A>,
}

/// Whether there is a point order.
#[derive(Drop)]
pub(crate) enum Decided<A: Allocator + Copy = Global> {
    /// This one.
    Order(Vec<Point, A>),
    /// None.
    NoOrder(Stuck<A>),
}

/// A point order of a history, or that there is none.
pub(crate) fn decide<A: Allocator + Copy>(
    alloc: A,
    history: &History<A>,
    limit: u32,
) -> Result<Decided<A>, PointsFault>
    ensures decided { IfOk result (IsDecided history.now.shape.registers history.now.entries) }
    ensures refused { IfErr result (IsPointsFault history.now.shape.registers history.now.entries) }
{
    let rows = table_of(alloc, history.shape(), history.entries())?;
    match go_through(alloc, history.shape(), &rows, history.entries(), limit)? {
        Searched::Through(search) => {
            let points = points_of(alloc, &rows, &search)?;
            match check_points(alloc, history, &points) {
                Ok(()) => Ok(Decided::Order(points)),
                Err(CheckFault::OutOfMemory) => Err(PointsFault::OutOfMemory),
                Err(_) => Err(PointsFault::Unchecked),
            }
        }
        Searched::AtEntry(place, search) => {
            let points = points_of(alloc, &rows, &search)?;
            Ok(Decided::NoOrder(Stuck { place, points }))
        }
        Searched::Wide(place) => Err(PointsFault::TooManyStages { place }),
    }
}

/// The first entries of a history.
pub(crate) fn first_part<A: Allocator + Copy>(
    alloc: A,
    history: &History<A>,
    count: usize,
) -> Result<History<A>, AllocError>
    requires { count ≤ length history.now.entries }
    ensures entries { IfOk result (λ part. part.entries ≡ take count history.now.entries) }
    ensures shape { IfOk result (λ part. part.shape ≡ history.now.shape) }
{
    let mut part = History::new(alloc, history.shape())?;
    let entries = history.entries();
    for place in 0..count {
        match part.push(entries[place]) {
            Ok(()) => {}
            Err(HistoryFault::OutOfMemory) => return Err(AllocError),
            Err(HistoryFault::OutOfPlace) => unreachable!(),
        }
    }
    Ok(part)
}

/// How many first entries have a point order, where a search of all was stuck: those before the entry up to which it
/// came, if what it had placed passes the check, and else none. It goes by answers that come later, so it may not.
fn explained<A: Allocator + Copy>(
    alloc: A,
    history: &History<A>,
    stuck: &Stuck<A>,
) -> Result<usize, AllocError>
    requires { stuck.now.place < length history.now.entries }
    ensures { IfOk result (IsExplained history.now.shape.registers history.now.entries) }
{
    let part = first_part(alloc, history, stuck.place)?;
    match check_points(alloc, &part, &stuck.points) {
        Ok(()) => Ok(stuck.place),
        Err(CheckFault::OutOfMemory) => Err(AllocError),
        Err(_) => Ok(0),
    }
}

/// A number of entries between two, to be tried next: where the search came to, if that is between them.
fn between(good: usize, bad: usize, reached: usize) -> usize
    requires { good + 1 < bad }
    ensures above { good < result }
    ensures below { result < bad }
{
    if good <= reached && reached < bad - 1 {
        return reached + 1;
    }
    if good < reached && reached < bad {
        return reached;
    }
    good + (bad - good) / 2
}

/// So many first entries of a history have a point order, and so many have none.
#[derive(Clone, Copy)]
struct Bounds {
    good: usize,
    bad: usize,
    /// The place up to which the last search came.
    reached: usize,
}

/// Closer bounds.
fn narrowed<A: Allocator + Copy>(
    alloc: A,
    history: &History<A>,
    bounds: Bounds,
    limit: u32,
) -> Result<Bounds, PointsFault>
    requires wide { bounds.good + 1 < bounds.bad }
    requires are { AreBounds history.now.shape.registers history.now.entries bounds }
    ensures found { IfOk result (AreBounds history.now.shape.registers history.now.entries) }
    ensures closer { IfOk result (λ b. b.bad - b.good < bounds.bad - bounds.good) }
    ensures refused { IfErr result (IsPointsFault history.now.shape.registers history.now.entries) }
{
    let count = between(bounds.good, bounds.bad, bounds.reached);
    let part = first_part(alloc, history, count)?;
    match decide(alloc, &part, limit) {
        Ok(Decided::Order(_)) => Ok(Bounds {
            good: count,
            bad: bounds.bad,
            reached: bounds.reached,
        }),
        Ok(Decided::NoOrder(stuck)) => Ok(Bounds {
            good: bounds.good,
            bad: count,
            reached: stuck.place,
        }),
        Err(PointsFault::TooManyStages { place }) => Err(PointsFault::TooManyStages { place }),
        Err(PointsFault::Unchecked) => Err(PointsFault::Unchecked),
        Err(_) => Err(PointsFault::OutOfMemory),
    }
}

/// The place of the first answer that no point order explains, in a history that has none.
fn first_unexplained<A: Allocator + Copy>(
    alloc: A,
    history: &History<A>,
    stuck: &Stuck<A>,
    limit: u32,
) -> Result<usize, PointsFault>
    requires stuck { stuck.now.place < length history.now.entries }
    requires none { ¬ HasPointOrder history.now.shape.registers history.now.entries }
    ensures found { IfOk result (IsFirstUnexplained history.now.shape.registers history.now.entries) }
    ensures refused { IfErr result (IsPointsFault history.now.shape.registers history.now.entries) }
{
    let mut bounds = Bounds {
        good: explained(alloc, history, stuck)?,
        bad: history.entries().len(),
        reached: stuck.place,
    };
    'narrow: while bounds.good + 1 < bounds.bad {
        match narrowed(alloc, history, bounds, limit) {
            Ok(closer) => bounds = closer,
            Err(fault) => return Err(fault),
        }
    }
    Ok(bounds.good)
}

/// A point order of a history (Herlihy and Wing 1990), or the first answer that none explains. Each register is
/// searched by itself, entry by entry, and what is found is checked. No clause says how the search goes.
///
/// # Errors
///
/// `No`: the history has no point order; nor have the entries up to the answer at the place, and those before it have
/// one.
/// `TooManyStages`, `Unchecked` and `OutOfMemory` say nothing of the history. That `Unchecked` never comes is tried,
/// and not proved.
pub fn judge_points<A: Allocator + Copy>(
    alloc: A,
    history: &History<A>,
    limit: u32,
) -> Result<Vec<Point, A>, PointsFault>
    ensures { MatchResult result (λ points. IsPointOrder history.now.shape.registers history.now.entries points.items)
        (IsPointsFault history.now.shape.registers history.now.entries) }
{
    match decide(alloc, history, limit)? {
        Decided::Order(points) => Ok(points),
        Decided::NoOrder(stuck) => {
            let place = first_unexplained(alloc, history, &stuck, limit)?;
            Err(PointsFault::No { place })
        }
    }
}
