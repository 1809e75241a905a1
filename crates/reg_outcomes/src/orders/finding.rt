//! Orders of a history, found or proved not to exist: operations are placed one after another (Wing and Gong 1993), and
//! each stage from which no order goes on is kept, so that it is tried once (Lowe 2017).
ghost use Rattle.std.specs.Prelude.{◌≡◌, ℕ, List, ◌≤◌, MatchBool, MatchOption, IfOk, IfErr, IfSome, IsTrue};
ghost use Rattle.reg_base.specs.declared.memory.Op.{Op as AnyOp};
ghost use Rattle.reg_base.specs.declared.memory.OpId.{OpId as AnyId};
ghost use Rattle.reg_base.specs.declared.limits.TheConstants.{LAST_EVENT};
ghost use Rattle.reg_checkers.specs.declared.entries.Point.{Point as AnyPoint};
ghost use Rattle.reg_checkers.specs.History.{IsAt, IsCalled, IsHistory, WasCalled};
ghost use Rattle.reg_checkers.specs.Orders.{IsPointOrder, IsSerial};
ghost use Rattle.reg_outcomes.specs.Finding.{IsFindFault, IsSearchFault};
ghost use Rattle.reg_outcomes.specs.Forced.{AreForced};
ghost use Rattle.reg_outcomes.specs.Guiding.{IsGuide};
ghost use Rattle.reg_outcomes.specs.Interleavings.{first_stage};
ghost use Rattle.reg_outcomes.specs.Layers.{stage_of};
ghost use Rattle.reg_outcomes.specs.Losing.{AreUses};
ghost use Rattle.reg_outcomes.specs.Placing.{ArePointsOf, IsComplete, IsOrder};
ghost use Rattle.reg_outcomes.specs.Searching.{IsNextChoice, IsSearch, IsTurned};
ghost use Rattle.reg_outcomes.specs.Walking.{AreTried, Goes, IsPath};

use crate::faults::InterleavingFault;
use crate::orders::before::Before;
use crate::orders::choices::{Choice, choose};
use crate::orders::failed::Failed;
use crate::orders::finder::Finder;
use crate::orders::guide::Guide;
use crate::orders::kinds::OrderKind;
use crate::orders::torn::{Outlook, outlook_of};
use crate::orders::uses::Uses;
use crate::orders::walk::Walk;
use reg_base::OpId;
use reg_checkers::{History, Point};
use std::alloc::{AllocError, Allocator};

/// Whether the last operation replaced a value that is needed still, and that no operation makes any more.
fn loses_value<A: Allocator + Copy>(finder: &Finder<'_, A>, uses: &Uses<A>, walk: &Walk<A>) -> bool
    requires few { finder.now.shape.processes ≤ 64 }
    requires history { IsHistory finder.now.shape.processes finder.now.shape.registers finder.now.entries }
    requires uses { AreUses finder.now.entries uses.now }
    ensures { IsTrue result → ¬ Goes finder.now.kind finder.now.entries (stage_of walk.now.stage) }
{
    let Some(value) = walk.replaced() else {
        return false;
    };
    let processes = finder.shape().processes() as u8;
    uses.is_lost(&walk.stage, processes, value)
}

/// The operation that is placed next, None where the stage leads to no order. One that is blocked need not be tried.
fn free_choice<A: Allocator + Copy>(
    finder: &Finder<'_, A>,
    guide: &Guide<A>,
    walk: &Walk<A>,
) -> Option<Choice>
    requires few { finder.now.shape.processes ≤ 64 }
    requires history { IsHistory finder.now.shape.processes finder.now.shape.registers finder.now.entries }
    requires guide { IsGuide finder.now guide.now }
    requires path { IsPath finder.now.kind finder.now.shape.processes finder.now.shape.registers finder.now.entries
        walk.now.path.items (stage_of walk.now.stage) }
    requires tried { AreTried finder.now.kind finder.now.entries (stage_of walk.now.stage) walk.now.tried }
    requires open { ¬ IsComplete finder.now.entries walk.now.stage.next.items }
    ensures { MatchOption result (¬ Goes finder.now.kind finder.now.entries (stage_of walk.now.stage))
        (IsNextChoice finder.now walk.now) }
{
    let mut tried = walk.tried;
    'choices: loop {
        let choice = choose(finder, &walk.stage, tried)?;
        if !guide.blocks(finder, &walk.stage.next, choice.process) {
            return Some(choice);
        }
        tried = choice.tried;
    }
}

/// The operation that is placed next, None where the stage leads to no order.
fn next_choice<A: Allocator + Copy>(
    finder: &Finder<'_, A>,
    guide: &Guide<A>,
    walk: &Walk<A>,
    failed: &Failed<A>,
) -> Option<Choice>
    requires few { finder.now.shape.processes ≤ 64 }
    requires history { IsHistory finder.now.shape.processes finder.now.shape.registers finder.now.entries }
    requires guide { IsGuide finder.now guide.now }
    requires search { IsSearch finder.now walk.now failed.now }
    requires open { ¬ IsComplete finder.now.entries walk.now.stage.next.items }
    ensures { MatchOption result (¬ Goes finder.now.kind finder.now.entries (stage_of walk.now.stage))
        (IsNextChoice finder.now walk.now) }
{
    if walk.tried == 0 && loses_value(finder, &guide.uses, walk) {
        return None;
    }
    if walk.tried == 0 && failed.has(walk.path.len(), &walk.stage) {
        return None;
    }
    free_choice(finder, guide, walk)
}

/// How a turn of the search ended.
#[derive(Clone, Copy)]
pub(crate) enum Turn {
    /// The search goes on.
    On,
    /// All finished operations are placed.
    Complete,
    /// There is no order.
    Over,
}

/// Notes that the stage leads to no order, and takes the last operation back.
fn go_back<A: Allocator + Copy>(
    alloc: A,
    finder: &Finder<'_, A>,
    walk: &mut Walk<A>,
    failed: &mut Failed<A>,
) -> Result<Turn, InterleavingFault>
    requires history { IsHistory finder.now.shape.processes finder.now.shape.registers finder.now.entries }
    requires search { IsSearch finder.now walk.old failed.old }
    requires fails { ¬ Goes finder.now.kind finder.now.entries (stage_of walk.old.stage) }
    ensures turned { IfOk result (IsTurned finder.now walk.old walk.new failed.new) }
    ensures refused { IfErr result
        (IsFindFault finder.now.kind finder.now.shape.processes finder.now.shape.registers finder.now.entries
        finder.now.limit) }
{
    failed.note(walk.path.len(), walk.stage.copied(alloc)?)?;
    if walk.back() {
        Ok(Turn::On)
    } else {
        Ok(Turn::Over)
    }
}

/// Places one operation more, or takes one back.
fn go_on<A: Allocator + Copy>(
    alloc: A,
    finder: &Finder<'_, A>,
    guide: &Guide<A>,
    walk: &mut Walk<A>,
    failed: &mut Failed<A>,
) -> Result<Turn, InterleavingFault>
    requires few { finder.now.shape.processes ≤ 64 }
    requires history { IsHistory finder.now.shape.processes finder.now.shape.registers finder.now.entries }
    requires guide { IsGuide finder.now guide.now }
    requires search { IsSearch finder.now walk.old failed.old }
    ensures turned { IfOk result (IsTurned finder.now walk.old walk.new failed.new) }
    ensures refused { IfErr result
        (IsFindFault finder.now.kind finder.now.shape.processes finder.now.shape.registers finder.now.entries
        finder.now.limit) }
{
    failed.make_room(alloc, walk.path.len())?;
    if finder.is_complete(&walk.stage.next) {
        return Ok(Turn::Complete);
    }
    match next_choice(finder, guide, walk, failed) {
        Some(choice) => {
            walk.place(choice)?;
            Ok(Turn::On)
        }
        None => go_back(alloc, finder, walk, failed),
    }
}

/// Places operations and takes them back until all finished ones are placed, or there is no order. Whether all are
/// placed.
fn walk_on<A: Allocator + Copy>(
    alloc: A,
    finder: &Finder<'_, A>,
    guide: &Guide<A>,
    walk: &mut Walk<A>,
    failed: &mut Failed<A>,
) -> Result<bool, InterleavingFault>
    requires few { finder.now.shape.processes ≤ 64 }
    requires history { IsHistory finder.now.shape.processes finder.now.shape.registers finder.now.entries }
    requires guide { IsGuide finder.now guide.now }
    requires search { IsSearch finder.now walk.old failed.old }
    ensures placed { IfOk result
        (λ all. MatchBool all
        (IsSearch finder.now walk.new failed.new × IsComplete finder.now.entries walk.new.stage.next.items)
        (¬ Goes finder.now.kind finder.now.entries
        (first_stage finder.now.shape.processes finder.now.shape.registers))) }
    ensures refused { IfErr result
        (IsFindFault finder.now.kind finder.now.shape.processes finder.now.shape.registers finder.now.entries
        finder.now.limit) }
{
    'turns: loop {
        match go_on(alloc, finder, guide, walk, failed)? {
            Turn::On => {}
            Turn::Complete => return Ok(true),
            Turn::Over => return Ok(false),
        }
    }
}

/// The ids of the operations in an order that places all finished ones, by a guide, None where there is none.
fn ids_guided<A: Allocator + Copy>(
    alloc: A,
    finder: &Finder<'_, A>,
    guide: &Guide<A>,
) -> Result<Option<Vec<OpId, A>>, InterleavingFault>
    requires history { IsHistory finder.now.shape.processes finder.now.shape.registers finder.now.entries }
    requires guide { IsGuide finder.now guide.now }
    ensures found { IfOk result
        (λ o. MatchOption o
        ((ids : List AnyId) → ¬ IsOrder finder.now.kind finder.now.shape.registers finder.now.entries ids)
        (λ v. IsOrder finder.now.kind finder.now.shape.registers finder.now.entries v.items)) }
    ensures refused { IfErr result
        (IsFindFault finder.now.kind finder.now.shape.processes finder.now.shape.registers finder.now.entries
        finder.now.limit) }
{
    let shape = finder.shape();
    let mut walk = Walk::new(alloc, shape.processes() as usize, shape.registers() as u16)?;
    let mut failed = Failed::new(alloc, finder.limit());
    if walk_on(alloc, finder, guide, &mut walk, &mut failed)? {
        Ok(Some(walk.ids(alloc)?))
    } else {
        Ok(None)
    }
}

/// The ids of the operations in an order that places all finished ones, None where there is none.
fn ids_found<A: Allocator + Copy>(
    alloc: A,
    finder: &Finder<'_, A>,
    before: Option<Before<A>>,
) -> Result<Option<Vec<OpId, A>>, InterleavingFault>
    requires history { IsHistory finder.now.shape.processes finder.now.shape.registers finder.now.entries }
    requires before { IfSome before (λ b. AreForced finder.now b) }
    ensures found { IfOk result
        (λ o. MatchOption o
        ((ids : List AnyId) → ¬ IsOrder finder.now.kind finder.now.shape.registers finder.now.entries ids)
        (λ v. IsOrder finder.now.kind finder.now.shape.registers finder.now.entries v.items)) }
    ensures refused { IfErr result
        (IsFindFault finder.now.kind finder.now.shape.processes finder.now.shape.registers finder.now.entries
        finder.now.limit) }
{
    let uses = Uses::new(alloc, finder)?;
    let guide = Guide { uses, before };
    ids_guided(alloc, finder, &guide)
}

/// The ids of the operations in a point order, None where there is none.
fn ids_by_points<A: Allocator + Copy>(
    alloc: A,
    history: &History<A>,
    limit: u32,
) -> Result<Option<Vec<OpId, A>>, InterleavingFault>
    ensures found { IfOk result
        (λ o. MatchOption o
        ((ids : List AnyId) → ¬ IsOrder OrderKind.Points history.now.shape.registers history.now.entries ids)
        (λ v. IsOrder OrderKind.Points history.now.shape.registers history.now.entries v.items)) }
    ensures refused { IfErr result
        (IsFindFault OrderKind.Points history.now.shape.processes history.now.shape.registers history.now.entries
        limit) }
{
    let points = Finder::new(alloc, history, OrderKind::Points, limit)?;
    ids_found(alloc, &points, None)
}

/// The ids of the operations in a serial order, None where there is none.
fn serial_found<A: Allocator + Copy>(
    alloc: A,
    history: &History<A>,
    finder: &Finder<'_, A>,
) -> Result<Option<Vec<OpId, A>>, InterleavingFault>
    requires kind { finder.now.kind ≡ OrderKind.Serial }
    requires shape { finder.now.shape ≡ history.now.shape }
    requires entries { finder.now.entries ≡ history.now.entries }
    requires in_place { IsHistory finder.now.shape.processes finder.now.shape.registers finder.now.entries }
    ensures found { IfOk result
        (λ o. MatchOption o ((ids : List AnyId) → ¬ IsSerial history.now.shape.registers history.now.entries ids)
        (λ v. IsSerial history.now.shape.registers history.now.entries v.items)) }
    ensures refused { IfErr result
        (IsSearchFault history.now.shape.processes history.now.shape.registers history.now.entries finder.now.limit) }
{
    match outlook_of(alloc, finder)? {
        Outlook::Torn => Ok(None),
        Outlook::Open(before) => match ids_by_points(alloc, history, finder.limit())? {
            Some(ids) => Ok(Some(ids)),
            None => ids_found(alloc, finder, before),
        },
    }
}

/// A serial order of a history, None where there is none (sequential consistency, Lamport 1979). Operations are placed
/// one after another, and taken back where that leads to no order. Each stage from which no order goes on is kept, so
/// the search grows with the number of these stages and not with that of the orders. Before that it is asked what has
/// to come before each operation, by the own order of each process and by what reads, swaps and compare-and-swaps
/// found. Where an operation would have to come before itself there is no order, and none is tried before what is known
/// to come before it. A point order is looked for first, with no such question, since it is a serial order too. No
/// clause says how the search goes.
///
/// # Errors
///
/// Some number of operations placed leads to more stages than the limit, all of them kept, or memory was refused.
pub fn find_serial<A: Allocator + Copy>(
    alloc: A,
    history: &History<A>,
    limit: u32,
) -> Result<Option<Vec<OpId, A>>, InterleavingFault>
    ensures found { IfOk result
        (λ o. MatchOption o ((ids : List AnyId) → ¬ IsSerial history.now.shape.registers history.now.entries ids)
        (λ v. IsSerial history.now.shape.registers history.now.entries v.items)) }
    ensures refused { IfErr result
        (IsSearchFault history.now.shape.processes history.now.shape.registers history.now.entries limit) }
{
    let finder = Finder::new(alloc, history, OrderKind::Serial, limit)?;
    serial_found(alloc, history, &finder)
}

/// The event of a call that the history has.
fn event_of_call<A: Allocator + Copy>(finder: &Finder<'_, A>, id: OpId) -> u32
    requires { WasCalled finder.now.entries id }
    ensures { (op : AnyOp) × IsCalled finder.now.entries id result op }
{
    match finder.fact(id) {
        Some(fact) => fact.called,
        None => unreachable!(),
    }
}

/// The points of operations in a point order: each at the latest of the calls so far.
fn points_of<A: Allocator + Copy>(
    alloc: A,
    finder: &Finder<'_, A>,
    ids: &[OpId],
) -> Result<Vec<Point, A>, AllocError>
    requires history { IsHistory finder.now.shape.processes finder.now.shape.registers finder.now.entries }
    requires called { (k : ℕ) (id : AnyId) → IsAt ids.now k id → WasCalled finder.now.entries id }
    ensures { IfOk result (λ v. ArePointsOf finder.now.entries ids.now v.items) }
{
    let mut points = Vec::with_capacity(alloc, ids.len())?;
    let mut at: u32 = 0;
    for id in ids {
        at = at.max(event_of_call(finder, *id));
        points.push(Point { id: *id, at })?;
    }
    Ok(points)
}

/// The points of an order that places all finished operations, None where there is none.
fn points_found<A: Allocator + Copy>(
    alloc: A,
    finder: &Finder<'_, A>,
) -> Result<Option<Vec<Point, A>>, InterleavingFault>
    requires kind { finder.now.kind ≡ OrderKind.Points }
    requires history { IsHistory finder.now.shape.processes finder.now.shape.registers finder.now.entries }
    ensures found { IfOk result
        (λ o. MatchOption o
        ((points : List AnyPoint) → ¬ IsPointOrder finder.now.shape.registers finder.now.entries points)
        (λ v. IsPointOrder finder.now.shape.registers finder.now.entries v.items)) }
    ensures events { IfOk result (λ o. IfSome o (λ v. (k : ℕ) (p : AnyPoint) → IsAt v.items k p → p.at ≤ LAST_EVENT)) }
    ensures refused { IfErr result
        (IsFindFault finder.now.kind finder.now.shape.processes finder.now.shape.registers finder.now.entries
        finder.now.limit) }
{
    match ids_found(alloc, finder, None)? {
        Some(ids) => Ok(Some(points_of(alloc, finder, &ids)?)),
        None => Ok(None),
    }
}

/// A point order of a history, None where there is none (linearizability, Herlihy and Wing 1990). Operations are placed
/// one after another, each only once all that were answered before its call are placed (Wing and Gong 1993), and each
/// stage from which no order goes on is kept (Lowe 2017). No clause says how the search goes.
///
/// # Errors
///
/// Some number of operations so placed leads to more stages than the limit, all of them kept, or memory was refused.
pub fn find_points<A: Allocator + Copy>(
    alloc: A,
    history: &History<A>,
    limit: u32,
) -> Result<Option<Vec<Point, A>>, InterleavingFault>
    ensures found { IfOk result
        (λ o. MatchOption o
        ((points : List AnyPoint) → ¬ IsPointOrder history.now.shape.registers history.now.entries points)
        (λ v. IsPointOrder history.now.shape.registers history.now.entries v.items)) }
    ensures events { IfOk result (λ o. IfSome o (λ v. (k : ℕ) (p : AnyPoint) → IsAt v.items k p → p.at ≤ LAST_EVENT)) }
    ensures refused { IfErr result
        (IsFindFault OrderKind.Points history.now.shape.processes history.now.shape.registers history.now.entries
        limit) }
{
    let finder = Finder::new(alloc, history, OrderKind::Points, limit)?;
    points_found(alloc, &finder)
}
