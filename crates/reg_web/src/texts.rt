//! The functions that the host calls. Each works in the room that is lent to it, and leaves in it what it did not
//! touch.
ghost use Rattle.std.specs.Prelude.{◌≡◌, false, true};
ghost use Rattle.reg_commands.specs.Kinds.{kind_of as kind_of_text};
ghost use Rattle.reg_commands.specs.Lent.{Fills};
ghost use Rattle.reg_commands.specs.declared.command.Command.{Command};
ghost use Rattle.reg_outcomes.specs.declared.orders.kinds.OrderKind.{OrderKind as AnyOrder};
ghost use Rattle.reg_show.specs.declared.showing.Showing.{Showing as AnyShowing};
ghost use Rattle.reg_web.specs.Tables.{start_in, table_of};
ghost use Rattle.reg_web.specs.Texts.{IsAnswer, IsExplained, IsFound, IsMerged, IsReplayedUnder, IsRuled, IsShown};
ghost use Rattle.reg_web.specs.Texts.{IsToldUnder, IsVerified, kind_number};

use crate::judging::{Check, Replay, ShowSchedule};
use crate::tables::Table;
use crate::telling::tell_in;
use crate::under::{DataUnder, ReplayUnder};
use reg_commands::{Kind, Lengths, kind_of};
use reg_heap::Room;
use reg_judge::JudgeReport;
use reg_outcomes::OrderKind;
use reg_reasons::ExplainLent;
use reg_show::{FindOrder, Showing};
use reg_verify::{Merge, Verify};

/// What a text is meant as, by its first line that counts: 0 is a schedule, 1 a workload, 2 a report.
#[unsafe(no_mangle)]
pub extern "C" fn tellwydar_kind(text: &[u8]) -> u32
    ensures { result ≡ kind_number (kind_of_text text.now) }
{
    match kind_of(text) {
        Kind::Schedule => 0,
        Kind::Workload => 1,
        Kind::Report => 2,
    }
}

/// Runs a schedule. The answer is the report of its run, and the status 0; or 1 with the line of a fault, or a first
/// part of it.
#[unsafe(no_mangle)]
pub extern "C" fn tellwydar_replay(
    room: &mut Room,
    text: &[u8],
    output: &mut [u8],
    errors: &mut [u8],
    lengths: &mut Lengths,
) -> u8
    ensures { Fills (IsAnswer Command.Replay text.now) result output.old output.new errors.old errors.new lengths.new }
{
    tell_in(Replay, room, text, output, errors, lengths)
}

/// Judges a report. The answer is the checkers' verdicts, and the status 0 where each says yes; or 1 where one says no,
/// or with the line of a fault or a first part of it, also where memory was refused.
#[unsafe(no_mangle)]
pub extern "C" fn tellwydar_check(
    room: &mut Room,
    text: &[u8],
    output: &mut [u8],
    errors: &mut [u8],
    lengths: &mut Lengths,
) -> u8
    ensures { Fills (IsAnswer Command.Check text.now) result output.old output.new errors.old errors.new lengths.new }
{
    tell_in(Check, room, text, output, errors, lengths)
}

/// Judges the history of a report, whose own order and points are not looked at. The answer begins with yes where it
/// has a point order, and the status is 0; or with no where it has none, and the status is 1; or 1 with the line of a
/// fault or a first part of it.
#[unsafe(no_mangle)]
pub extern "C" fn tellwydar_judge(
    room: &mut Room,
    text: &[u8],
    output: &mut [u8],
    errors: &mut [u8],
    lengths: &mut Lengths,
) -> u8
    ensures { Fills (IsRuled false text.now) result output.old output.new errors.old errors.new lengths.new }
{
    let command = JudgeReport { as_report: false };
    tell_in(command, room, text, output, errors, lengths)
}

/// Judges the history of a report, whose own order and points are not looked at. The answer is the report with a point
/// order that was found in place of its own, and the status 0; or it begins with no where there is none, and the status
/// is 1; or 1 with the line of a fault or a first part of it.
#[unsafe(no_mangle)]
pub extern "C" fn tellwydar_judge_report(
    room: &mut Room,
    text: &[u8],
    output: &mut [u8],
    errors: &mut [u8],
    lengths: &mut Lengths,
) -> u8
    ensures { Fills (IsRuled true text.now) result output.old output.new errors.old errors.new lengths.new }
{
    let command = JudgeReport { as_report: true };
    tell_in(command, room, text, output, errors, lengths)
}

/// Judges the record of a run. The answer is the report of the run, and the status 0; or 1 with the line of a fault, or
/// a first part of it.
#[unsafe(no_mangle)]
pub extern "C" fn tellwydar_verify(
    room: &mut Room,
    text: &[u8],
    output: &mut [u8],
    errors: &mut [u8],
    lengths: &mut Lengths,
) -> u8
    ensures { Fills (IsVerified text.now) result output.old output.new errors.old errors.new lengths.new }
{
    tell_in(Verify, room, text, output, errors, lengths)
}

/// Puts the steps of a record into an order that is a run. The answer is the record in that order, and the status 0; or
/// 1 with the line of a fault, or a first part of it.
#[unsafe(no_mangle)]
pub extern "C" fn tellwydar_merge(
    room: &mut Room,
    text: &[u8],
    output: &mut [u8],
    errors: &mut [u8],
    lengths: &mut Lengths,
) -> u8
    ensures { Fills (IsMerged text.now) result output.old output.new errors.old errors.new lengths.new }
{
    tell_in(Merge, room, text, output, errors, lengths)
}

/// Tells what is wrong with a text, or what an accepted one is. A workload is accepted in its layout alone. The answer
/// is of one line where the text is accepted, and the status 0; or it begins with the line of what is wrong, with what
/// explains it, and the status is 1; or 1 with the line of a fault or a first part of it.
#[unsafe(no_mangle)]
pub extern "C" fn tellwydar_why(
    room: &mut Room,
    text: &[u8],
    output: &mut [u8],
    errors: &mut [u8],
    lengths: &mut Lengths,
) -> u8
    ensures { Fills (IsExplained text.now) result output.old output.new errors.old errors.new lengths.new }
{
    tell_in(ExplainLent, room, text, output, errors, lengths)
}

/// Looks for a serial order of a report's history. The answer is the report with it, and the status 0; or 1 with the
/// line that there is none, or with the line of a fault or a first part of it.
#[unsafe(no_mangle)]
pub extern "C" fn tellwydar_find_serial(
    room: &mut Room,
    text: &[u8],
    output: &mut [u8],
    errors: &mut [u8],
    lengths: &mut Lengths,
) -> u8
    ensures { Fills (IsFound AnyOrder.Serial text.now) result output.old output.new errors.old errors.new lengths.new }
{
    let command = FindOrder {
        kind: OrderKind::Serial,
    };
    tell_in(command, room, text, output, errors, lengths)
}

/// Looks for a point order of a report's history. The answer is the report with it, and the status 0; or 1 with the
/// line that there is none, or with the line of a fault or a first part of it.
#[unsafe(no_mangle)]
pub extern "C" fn tellwydar_find_points(
    room: &mut Room,
    text: &[u8],
    output: &mut [u8],
    errors: &mut [u8],
    lengths: &mut Lengths,
) -> u8
    ensures { Fills (IsFound AnyOrder.Points text.now) result output.old output.new errors.old errors.new lengths.new }
{
    let command = FindOrder {
        kind: OrderKind::Points,
    };
    tell_in(command, room, text, output, errors, lengths)
}

/// Tells what happens in the run of a schedule, event by event, and the status 0; or 1 with the line of a fault, or a
/// first part of it.
#[unsafe(no_mangle)]
pub extern "C" fn tellwydar_trace(
    room: &mut Room,
    text: &[u8],
    output: &mut [u8],
    errors: &mut [u8],
    lengths: &mut Lengths,
) -> u8
    ensures { Fills (IsShown AnyShowing.Trace text.now) result output.old output.new errors.old errors.new lengths.new }
{
    let showing = Showing::Trace;
    let command = ShowSchedule { showing };
    tell_in(command, room, text, output, errors, lengths)
}

/// Draws the run of a schedule, and the status is 0; or 1 with the line of a fault, or a first part of it.
#[unsafe(no_mangle)]
pub extern "C" fn tellwydar_draw(
    room: &mut Room,
    text: &[u8],
    output: &mut [u8],
    errors: &mut [u8],
    lengths: &mut Lengths,
) -> u8
    ensures { Fills (IsShown AnyShowing.Draw text.now) result output.old output.new errors.old errors.new lengths.new }
{
    let showing = Showing::Draw;
    let command = ShowSchedule { showing };
    tell_in(command, room, text, output, errors, lengths)
}

/// Draws the run of a schedule large enough for a projector, and the status is 0; or 1 with the line of a fault, or a
/// first part of it.
#[unsafe(no_mangle)]
pub extern "C" fn tellwydar_draw_large(
    room: &mut Room,
    text: &[u8],
    output: &mut [u8],
    errors: &mut [u8],
    lengths: &mut Lengths,
) -> u8
    ensures { Fills (IsShown AnyShowing.DrawLarge text.now) result output.old output.new errors.old errors.new
        lengths.new }
{
    let showing = Showing::DrawLarge;
    let command = ShowSchedule { showing };
    tell_in(command, room, text, output, errors, lengths)
}

/// Tells the run of a schedule as data, and the status 0; or 1 with the line of a fault, or a first part of it.
#[unsafe(no_mangle)]
pub extern "C" fn tellwydar_data(
    room: &mut Room,
    text: &[u8],
    output: &mut [u8],
    errors: &mut [u8],
    lengths: &mut Lengths,
) -> u8
    ensures { Fills (IsShown AnyShowing.Data text.now) result output.old output.new errors.old errors.new lengths.new }
{
    let showing = Showing::Data;
    let command = ShowSchedule { showing };
    tell_in(command, room, text, output, errors, lengths)
}

/// Runs a schedule under the front end of the table of this number, whatever its own front line says, and tells the
/// run as data, without points. The number is the sum of 1 where a read with no own cast on its way looks at the copy,
/// 2 where one with own casts on their way is held for them, 4 where a write with no own cast on its way is answered at
/// once, and 8 where one with own casts on their way is. All else is cast and runs until its delivery. What is above 15
/// in the number is not looked at. The front end that the data names is that of the text. The status is 0; or 1 with
/// the line of a fault, or a first part of it.
#[unsafe(no_mangle)]
pub extern "C" fn tellwydar_data_under(
    room: &mut Room,
    text: &[u8],
    table: u32,
    output: &mut [u8],
    errors: &mut [u8],
    lengths: &mut Lengths,
) -> u8
    ensures { Fills (IsToldUnder (start_in (table_of table)) text.now) result output.old output.new errors.old
        errors.new lengths.new }
{
    let table = Table::numbered(table);
    let command = DataUnder { table };
    tell_in(command, room, text, output, errors, lengths)
}

/// Runs a schedule under the front end of the table of this number, as `tellwydar_data_under` does. The answer is the
/// report of that run, whose order is a serial order of its history. It names the text's front end, and has no points.
/// The status is 0; or 1 with the line of a fault, or a first part of it.
#[unsafe(no_mangle)]
pub extern "C" fn tellwydar_replay_under(
    room: &mut Room,
    text: &[u8],
    table: u32,
    output: &mut [u8],
    errors: &mut [u8],
    lengths: &mut Lengths,
) -> u8
    ensures { Fills (IsReplayedUnder (start_in (table_of table)) text.now) result output.old output.new errors.old
        errors.new lengths.new }
{
    let table = Table::numbered(table);
    let command = ReplayUnder { table };
    tell_in(command, room, text, output, errors, lengths)
}

/// Makes the page of the run of a schedule, and the status is 0; or 1 with the line of a fault, or a first part of it.
#[unsafe(no_mangle)]
pub extern "C" fn tellwydar_page(
    room: &mut Room,
    text: &[u8],
    output: &mut [u8],
    errors: &mut [u8],
    lengths: &mut Lengths,
) -> u8
    ensures { Fills (IsShown AnyShowing.Page text.now) result output.old output.new errors.old errors.new lengths.new }
{
    let showing = Showing::Page;
    let command = ShowSchedule { showing };
    tell_in(command, room, text, output, errors, lengths)
}

/// Brings the run of a schedule to rest. The answer is the schedule with the events that do, and the status 0; or 1
/// with the line of a fault, or a first part of it.
#[unsafe(no_mangle)]
pub extern "C" fn tellwydar_rest(
    room: &mut Room,
    text: &[u8],
    output: &mut [u8],
    errors: &mut [u8],
    lengths: &mut Lengths,
) -> u8
    ensures { Fills (IsShown AnyShowing.Rest text.now) result output.old output.new errors.old errors.new lengths.new }
{
    let showing = Showing::Rest;
    let command = ShowSchedule { showing };
    tell_in(command, room, text, output, errors, lengths)
}
