//! The report of a run.
ghost use Rattle.std.specs.Prelude.{◌≡◌, ◌≤◌, ℕ, IfOk, IfErr, length, option_map, string_bytes};
ghost use Rattle.reg_base.specs.declared.limits.TheConstants.{LAST_EVENT, MOST_PROCESSES};
ghost use Rattle.reg_front.specs.declared.named.Front.{Front as AnyFront};
ghost use Rattle.reg_front.specs.Table.{front_name};
ghost use Rattle.reg_checkers.specs.History.{IsAt};
ghost use Rattle.reg_checkers.specs.Log.{IsLog};
ghost use Rattle.reg_checkers.specs.Orders.{IsSerial};
ghost use Rattle.reg_history.specs.Reports.{Contents, report_text};
ghost use Rattle.reg_text.specs.Writing.{IsWrittenOr};
ghost use Rattle.reg_world.specs.declared.order.First.{First};
ghost use Rattle.reg_world.specs.Fronts.{HasPoints};
ghost use Rattle.reg_world.specs.Worlds.{run_in};
ghost use Rattle.reg_commands.specs.Replays.{plan_in, Shows, PointsOf, PointsStand};

use crate::faults::Fault;
use reg_base::{Names, OpId};
use reg_front::{Front, FrontEnd};
use reg_history::{History, Point, Report, write_report};
use reg_world::{NamedFront, WireStore, World};
use std::alloc::{AllocError, Allocator};
use std::io::Write;

// Each entry of a history is in place. It does nothing: its contract says so.
fn in_place<A: Allocator + Copy>(history: &History<A>)
    ensures { IsLog history.now }
{
    history.entries();
}

/// The report of these parts, under the front end of this title and these names. Serial orders and point orders are
/// within the limits of a report, so it is not refused.
fn report<A: Allocator + Copy>(
    title: String<A>,
    names: Names<A>,
    history: History<A>,
    order: Vec<OpId, A>,
    points: Option<Vec<Point, A>>,
) -> Report<A>
    requires title { (front : AnyFront) × (string_bytes title ≡ front_name front) }
    requires few { history.shape.processes ≤ MOST_PROCESSES }
    requires names { history.shape.registers ≡ length names }
    requires order { IsSerial history.shape.registers history.entries order.items }
    requires points { PointsStand history.shape.registers history.entries (option_map (λ v. v.items) points) }
    ensures { let parts : Contents = record {
      front = string_bytes title;
      shape = history.shape;
      names = names;
      entries = history.entries;
      order = order.items;
      points = option_map (λ v. v.items) points;
    } in
        result ≡ parts }
{
    in_place(&history);
    match Report::new(title, names, history, order, points) {
        Ok(report) => report,
        Err(_) => unreachable!(),
    }
}

/// The report of what a world did, under this front end and these names, with these points or none.
fn report_world<F: FrontEnd, A: Allocator + Copy, W: WireStore<A>>(
    alloc: A,
    front: Front,
    names: Names<A>,
    world: World<F, A, W>,
    points: Option<Vec<Point, A>>,
) -> Result<Report<A>, Fault>
    requires names { world.registers ≡ length names }
    requires points { PointsStand world.registers world.history (option_map (λ v. v.items) points) }
    ensures shows { IfOk result (λ r. Shows F.start (plan_in front names world) r) }
    ensures points { IfOk result (λ r. r.points ≡ option_map (λ v. v.items) points) }
    ensures why { IfErr result (λ f. f ≡ Fault.OutOfMemory) }
{
    let title = String::from_str(alloc, front.name())?;
    let (_, order) = world.serial_order()?;
    Ok(report(title, names, world.into_history(), order, points))
}

// Each first delivery is at an event that a run may have. It does nothing: its contract says so.
fn firsts_at_events<F: FrontEnd, A: Allocator + Copy, W: WireStore<A>>(world: &World<F, A, W>)
    ensures { (k : ℕ) (f : First) → IsAt (run_in F.start world.now).order k f → f.at ≤ LAST_EVENT }
{
    world.order();
    world.events();
}

/// The points of a run, None where its front end keeps no real time.
fn standing_points<F: NamedFront, A: Allocator + Copy, W: WireStore<A>>(
    world: &World<F, A, W>,
) -> Result<Option<Vec<Point, A>>, AllocError>
    ensures points { IfOk result (λ o. HasPoints F.front world.now (option_map (λ v. v.items) o)) }
    ensures stand { IfOk result (λ o. PointsStand world.now.registers world.now.history (option_map (λ v. v.items) o)) }
{
    firsts_at_events(world);
    // (for the proof: by this getter's contract the history is that of the run)
    world.history();
    F::points_of(world)
}

/// The report of what a world did, under this front end and these names: with its points where its front end keeps the
/// real time.
///
/// # Errors
///
/// `OutOfMemory`, and no other.
pub fn report_run<F: NamedFront, A: Allocator + Copy, W: WireStore<A>>(
    alloc: A,
    front: Front,
    names: Names<A>,
    world: World<F, A, W>,
) -> Result<Report<A>, Fault>
    requires { world.registers ≡ length names }
    ensures shows { IfOk result (λ r. Shows F.start (plan_in front names world) r) }
    ensures points { IfOk result (λ r. PointsOf F.front (plan_in front names world) r.points) }
    ensures why { IfErr result (λ f. f ≡ Fault.OutOfMemory) }
{
    let points = standing_points(&world)?;
    report_world(alloc, front, names, world, points)
}

/// Writes the text of a report, all of it or, where the writer fails, a first part.
///
/// # Errors
///
/// `Output` where the writer failed.
pub fn write_out<A: Allocator + Copy, W: Write>(
    writer: &mut W,
    report: &Report<A>,
) -> Result<(), Fault>
    ensures { IsWrittenOr Fault.Output result (W.contents writer.old) (W.contents writer.new) (report_text report.now) }
{
    if write_report(writer, report).is_err() || writer.flush().is_err() {
        return Err(Fault::Output);
    }
    Ok(())
}
