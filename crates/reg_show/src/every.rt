//! The command that prints all outcomes that a workload's scripts can have.
ghost use Rattle.std.specs.Option.{option_map};
ghost use Rattle.reg_base.specs.Lists.{lists};
ghost use Rattle.reg_text.specs.Writing.{IsWrittenOr};
ghost use Rattle.reg_outcomes.specs.AllText.{ShowsAll, all_text};
ghost use Rattle.reg_show.specs.AllOutcomes.{StopsAll};

use crate::faults::ShowFault;
use reg_commands::{Fault, WorkCommand};
use reg_outcomes::{
    AllOutcomes, MOST_STAGES, ToldAnswer, all_outcomes, count_operations, nevers_of, write_all,
};
use reg_workload::Workload;
use std::alloc::Allocator;
use std::io::Write;

/// Writes the text of all outcomes, to the last byte.
fn send<A: Allocator + Copy, W: Write>(
    writer: &mut W,
    operations: u64,
    all: &AllOutcomes<A>,
    nevers: &Option<Vec<Vec<ToldAnswer, A>, A>>,
) -> Result<(), ShowFault>
    ensures { IsWrittenOr (ShowFault.Command Fault.Output) result (W.contents writer.old) (W.contents writer.new)
        (all_text operations all.now.stages all.now.list.items (option_map (λ list. lists list.items) nevers.now)) }
{
    if write_all(writer, operations, all, nevers).is_err() || writer.flush().is_err() {
        return Err(ShowFault::Command {
            fault: Fault::Output,
        });
    }
    Ok(())
}

/// Writes all outcomes that the scripts of the workload that a text says can have, and the combinations of their
/// answers that no outcome has, once all are found.
#[derive(Clone, Copy, Debug)]
pub struct EveryOutcome;

impl WorkCommand for EveryOutcome {
    type Fault = ShowFault;

    ghost IsShown = { λ _ Wrote work. ShowsAll work.scripts work.shape.registers Wrote };

    ghost IsStopped = { λ _ fault work. StopsAll work fault };

    fn show<A: Allocator + Copy, W: Write>(
        self,
        alloc: A,
        work: Workload<A>,
        writer: &mut W,
    ) -> Result<(), ShowFault> {
        let scripts = work.scripts.as_slice();
        let registers = work.shape.registers() as u16;
        let all = all_outcomes(alloc, scripts, registers, MOST_STAGES)?;
        let nevers = nevers_of(alloc, all.list.as_slice())?;
        send(writer, count_operations(scripts) as u64, &all, &nevers)
    }
}
