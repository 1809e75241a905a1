//! What is told of the run of a schedule under a front end that need not be the one that it names.
ghost use Rattle.std.specs.Prelude.{◌≢◌, ◌≤◌, None, IfOk, IfErr, OnOk, length};
ghost use Rattle.reg_commands.specs.Replays.{BlamesRun};
ghost use Rattle.reg_trace.specs.Data.{IsDataOf};
ghost use Rattle.reg_show.specs.Pages.{StopsTold};
ghost use Rattle.reg_show.specs.declared.paging.TheConstants.{MOST_TOLD};

use crate::faults::ShowFault;
use crate::paging::MOST_TOLD;
use reg_commands::Fault;
use reg_front::FrontEnd;
use reg_trace::{Data, Notes, tell_data_under};
use reg_workload::Schedule;
use std::alloc::Allocator;

/// Runs a schedule: all that is told of the run, with these notes and no points.
fn data_under<F: FrontEnd, A: Allocator + Copy>(
    alloc: A,
    schedule: Schedule<A>,
    notes: Notes<A>,
) -> Result<Data<A>, Fault>
    ensures told { IfOk result (λ d. IsDataOf F.start schedule notes None d) }
    ensures why { IfErr result (λ f. BlamesRun F.start schedule f) }
{
    Ok(tell_data_under::<F, A>(alloc, schedule, notes)?)
}

/// Runs a schedule under a front end that need not be the one that it names: all that is told of the run, with these
/// notes and no points.
///
/// # Errors
///
/// `TooManyToDraw`, the first event that is refused, and `OutOfMemory`.
pub fn told_under<F: FrontEnd, A: Allocator + Copy>(
    alloc: A,
    schedule: Schedule<A>,
    notes: Notes<A>,
) -> Result<Data<A>, ShowFault>
    ensures few { OnOk result (length schedule.events ≤ MOST_TOLD) }
    ensures told { IfOk result (λ d. IsDataOf F.start schedule notes None d) }
    ensures why { IfErr result (StopsTold F.start schedule) }
    ensures kind { IfErr result (λ f. f ≢ ShowFault.Command Fault.Output) }
{
    if schedule.events.len() > MOST_TOLD {
        return Err(ShowFault::TooManyToDraw);
    }
    Ok(data_under::<F, A>(alloc, schedule, notes)?)
}
