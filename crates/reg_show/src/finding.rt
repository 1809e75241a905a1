//! The command that finds an order of a report's history.
ghost use Rattle.std.specs.Prelude.{⊤, ◌≡◌, IfOk, IfErr, MatchOption, option_map};
ghost use Rattle.reg_checkers.specs.Orders.{IsSerial};
ghost use Rattle.reg_commands.specs.Replays.{PointsStand};
ghost use Rattle.reg_text.specs.Writing.{IsWrittenOr};
ghost use Rattle.reg_show.specs.Finding.{BlamesFind, Finds, HasNone, IsReordered, IsUnfound, none_text};
ghost use Rattle.reg_show.specs.Finding.{with_order};

use crate::faults::ShowFault;
use reg_base::OpId;
use reg_checkers::ids_of_points;
use reg_commands::{Fault, TextCommand, read_report_text, write_answer, write_out};
use reg_history::{Point, Report};
use reg_outcomes::{MOST_STAGES, OrderKind, find_points, find_serial};
use std::alloc::Allocator;
use std::io::Write;

/// The report with this order, and these points or none, in place of its own.
fn reordered<A: Allocator + Copy>(
    report: Report<A>,
    order: Vec<OpId, A>,
    points: Option<Vec<Point, A>>,
) -> Report<A>
    requires order { IsSerial report.shape.registers report.entries order.items }
    requires points { PointsStand report.shape.registers report.entries (option_map (λ v. v.items) points) }
    ensures { result ≡ with_order report order.items (option_map (λ v. v.items) points) }
{
    match report.with_lists(order, points) {
        Ok(report) => report,
        Err(_) => unreachable!(),
    }
}

/// The report with a serial order of its history, None where there is none.
fn with_serial_order<A: Allocator + Copy>(
    alloc: A,
    report: Report<A>,
) -> Result<Option<Report<A>>, ShowFault>
    ensures found { IfOk result
        (λ o. MatchOption o (HasNone OrderKind.Serial report) (λ r. IsReordered OrderKind.Serial report r)) }
    ensures why { IfErr result (IsUnfound OrderKind.Serial report) }
{
    let Some(ids) = find_serial(alloc, report.history(), MOST_STAGES)? else {
        return Ok(None);
    };
    Ok(Some(reordered(report, ids, None)))
}

/// The report with a point order of its history, None where there is none.
fn with_points<A: Allocator + Copy>(
    alloc: A,
    report: Report<A>,
) -> Result<Option<Report<A>>, ShowFault>
    ensures found { IfOk result
        (λ o. MatchOption o (HasNone OrderKind.Points report) (λ r. IsReordered OrderKind.Points report r)) }
    ensures why { IfErr result (IsUnfound OrderKind.Points report) }
{
    let Some(points) = find_points(alloc, report.history(), MOST_STAGES)? else {
        return Ok(None);
    };
    let ids = ids_of_points(alloc, &points)?;
    Ok(Some(reordered(report, ids, Some(points))))
}

/// The report with an order of this kind, None where its history has none.
fn with_order_found<A: Allocator + Copy>(
    alloc: A,
    kind: OrderKind,
    report: Report<A>,
) -> Result<Option<Report<A>>, ShowFault>
    ensures found { IfOk result (λ o. MatchOption o (HasNone kind report) (λ r. IsReordered kind report r)) }
    ensures why { IfErr result (IsUnfound kind report) }
{
    match kind {
        OrderKind::Serial => with_serial_order(alloc, report),
        OrderKind::Points => with_points(alloc, report),
    }
}

/// Writes that there is no order of this kind, to the last byte.
fn write_none<W: Write>(writer: &mut W, kind: OrderKind) -> Result<(), Fault>
    ensures { IsWrittenOr Fault.Output result (W.contents writer.old) (W.contents writer.new) (none_text kind) }
{
    let text = match kind {
        OrderKind::Serial => "no serial order\n",
        OrderKind::Points => "no point order\n",
    };
    write_answer(writer, text.as_bytes())
}

/// Finds an order of the history of the report that a text spells, and writes the report in version 2 with it in place
/// of its own order and points, or one line that says that there is none, once the search is over. The answer is a no
/// where there is none. The text is let go before the search.
#[derive(Clone, Copy, Debug)]
pub struct FindOrder {
    pub kind: OrderKind,
}

impl TextCommand for FindOrder {
    ghost use Rattle.reg_commands.specs.declared.command.Command.TheVariants.{Check};

    type Fault = ShowFault;

    ghost MayDeny = { λ _. ⊤ };

    ghost IsAnswer = { λ it. Finds it.kind };

    ghost IsBlamed = { λ it. BlamesFind it.kind };

    fn answer<A: Allocator + Copy, W: Write>(
        self,
        alloc: A,
        text: String<A>,
        writer: &mut W,
    ) -> Result<bool, ShowFault> {
        let report = read_report_text(alloc, text.as_str())?;
        drop(text);
        match with_order_found(alloc, self.kind, report)? {
            Some(found) => {
                write_out(writer, &found)?;
                Ok(true)
            }
            None => {
                write_none(writer, self.kind)?;
                Ok(false)
            }
        }
    }

    ghost blames_input = { λ _ _ _ _ blamed. blamed Check };
}
