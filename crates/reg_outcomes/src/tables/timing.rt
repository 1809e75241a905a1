//! Whether an order keeps the real time of its history, and whether a history is linearizable.
ghost use Rattle.std.specs.Prelude.{◌≡◌, ◌<◌, ◌-◌, ◌^◌, ◌↔◌, length, true, IfOk, IfErr, IfSome, OnOk, ℕ};
ghost use Rattle.std.specs.BTreeMap.{get};
ghost use Rattle.reg_base.specs.declared.memory.OpId.{OpId as AnyId};
ghost use Rattle.reg_checkers.specs.History.{IsHistory};
ghost use Rattle.reg_checkers.specs.Orders.{IsDistinct, IsSerial};
ghost use Rattle.reg_world.specs.RealTime.{KeepsRealTime};
ghost use Rattle.reg_outcomes.specs.declared.orders.kinds.OrderKind.TheVariants.{Points};
ghost use Rattle.reg_outcomes.specs.declared.interleavings.outcomes.TheConstants.{MOST_STAGES};
ghost use Rattle.reg_outcomes.specs.Finding.{IsFindFault};
ghost use Rattle.reg_outcomes.specs.Outcomes.{IsLinearizable};
ghost use Rattle.reg_outcomes.specs.Timing.{IsPlaceOf, bound_next, id_cmp};

use crate::faults::InterleavingFault;
use crate::interleavings::outcomes::MOST_STAGES;
use crate::orders::finding::find_points;
use reg_base::OpId;
use reg_checkers::{Entry, History};
use std::alloc::{AllocError, Allocator};
use std::collections::BTreeMap;

/// The place of each operation of an order.
fn places<A: Allocator + Copy>(
    alloc: A,
    order: &[OpId],
) -> Result<BTreeMap<OpId, usize, A>, AllocError>
    ensures places { IfOk result (λ m. (id : AnyId) → IsPlaceOf order.now id (get id_cmp m id)) }
    ensures few { OnOk result (length order.now < 2 ^ 64) }
{
    let mut places = BTreeMap::new(alloc);
    for (place, id) in order.iter().enumerate() {
        places.insert(*id, place)?;
    }
    Ok(places)
}

/// The place after those of all operations that were answered so far, and None where the entry calls one that stands
/// before it.
fn next_bound<A: Allocator + Copy>(
    places: &BTreeMap<OpId, usize, A>,
    bound: usize,
    entry: Entry,
) -> Option<usize>
    requires { (id : AnyId) → IfSome (get id_cmp places.now id) (λ place. place < 2 ^ 64 - 1) }
    ensures { result ≡ bound_next (get id_cmp places.now) bound entry }
{
    match entry {
        Entry::Called { id, .. } => match places.get(&id) {
            Some(place) if *place < bound => None,
            _ => Some(bound),
        },
        Entry::Answered { id, .. } => match places.get(&id) {
            Some(place) => Some(bound.max(*place + 1)),
            None => Some(bound),
        },
    }
}

/// Whether in an order each operation stands after those that were answered before its call. An operation was answered
/// before another's call just where its answer stands before that call in the history, so one walk tells it: each call
/// has to stand after all that was answered so far.
///
/// # Errors
///
/// Memory was refused.
fn keeps_real_time<A: Allocator + Copy>(
    alloc: A,
    entries: &[Entry],
    order: &[OpId],
) -> Result<bool, AllocError>
    requires distinct { IsDistinct order.now }
    requires history { (n : ℕ) × (registers : ℕ) × IsHistory n registers entries.now }
    ensures { IfOk result (λ keeps. (keeps ≡ true) ↔ KeepsRealTime entries.now order.now) }
{
    let places = places(alloc, order)?;
    let mut bound = 0;
    for entry in entries {
        match next_bound(&places, bound, *entry) {
            Some(next) => bound = next,
            None => return Ok(false),
        }
    }
    Ok(true)
}

/// Whether a history is linearizable (Herlihy and Wing 1990), by a serial order of it. It is where this order keeps the
/// real time; where it does not, another may, and is looked for.
///
/// # Errors
///
/// The order doesn't keep the real time, and some number of operations, placed in search of a point order, leads to
/// more stages than `MOST_STAGES`; or memory was refused.
pub(crate) fn is_linearizable<A: Allocator + Copy>(
    alloc: A,
    history: &History<A>,
    order: &[OpId],
) -> Result<bool, InterleavingFault>
    requires { IsSerial history.now.shape.registers history.now.entries order.now }
    ensures found { IfOk result (λ is. (is ≡ true) ↔ IsLinearizable history.now.shape.registers history.now.entries) }
    ensures refused { IfErr result
        (IsFindFault Points history.now.shape.processes history.now.shape.registers history.now.entries MOST_STAGES) }
    ensures late { IfErr result (λ f. f ≡ InterleavingFault.TooManyStages
        → ¬ KeepsRealTime history.now.entries order.now) }
{
    if keeps_real_time(alloc, history.entries(), order)? {
        return Ok(true);
    }
    let points = find_points(alloc, history, MOST_STAGES)?;
    Ok(points.is_some())
}
