//! The command that plays a workload many times and prints the table of what the plays told.
ghost use Rattle.std.specs.Prelude.{◌≤◌, IfOk, IfErr};
ghost use Rattle.reg_text.specs.Writing.{IsWrittenOr};
ghost use Rattle.reg_commands.specs.Replays.{start_of};
ghost use Rattle.reg_outcomes.specs.declared.tables.plays.TheConstants.{MOST_PLAYS};
ghost use Rattle.reg_outcomes.specs.Outcomes.{AreOutcomes, IsPlaysFault};
ghost use Rattle.reg_outcomes.specs.TableText.{table_text};
ghost use Rattle.reg_show.specs.Outcomes.{ShowsOutcomes, StopsPlays};
ghost use Rattle.reg_show.specs.Seeds.{IsSeed, reseeded};

use crate::faults::ShowFault;
use crate::seeding::reseed;
use reg_commands::{Fault, WorkCommand};
use reg_front::by_front;
use reg_outcomes::{InterleavingFault, Outcomes, play_many, write_table};
use reg_workload::Workload;
use std::alloc::Allocator;
use std::io::Write;

/// Writes the text of a table, to the last byte.
fn send<A: Allocator + Copy, W: Write>(
    writer: &mut W,
    plays: u32,
    outcomes: &Outcomes<A>,
) -> Result<(), Fault>
    ensures { IsWrittenOr Fault.Output result (W.contents writer.old) (W.contents writer.new)
        (table_text plays outcomes.now.rows.items outcomes.now.unfinished outcomes.now.undrawn) }
{
    if write_table(writer, plays, outcomes).is_err() || writer.flush().is_err() {
        return Err(Fault::Output);
    }
    Ok(())
}

/// What so many plays of a workload under its front end told.
fn plays_of<A: Allocator + Copy>(
    alloc: A,
    work: &Workload<A>,
    plays: u32,
) -> Result<Outcomes<A>, InterleavingFault>
    requires { plays ≤ MOST_PLAYS }
    ensures told { IfOk result
        (λ o. AreOutcomes (start_of work.now.front) work.now plays o.rows.items o.unfinished o.undrawn) }
    ensures why { IfErr result (IsPlaysFault (start_of work.now.front) work.now plays) }
{
    by_front!(work.front, play_many::<_, A>(alloc, work, plays))
}

/// Plays the workload that a text says `plays` times, from this seed on or else from its own, and writes the table of
/// what the plays told, once all of them are counted. There are at most `MOST_PLAYS`.
#[derive(Clone, Copy, Debug)]
pub struct ManyPlays {
    pub plays: u32,
    pub seed: Option<u64>,
}

impl WorkCommand for ManyPlays {
    type Fault = ShowFault;

    ghost IsReady = { λ it. (it.plays ≤ MOST_PLAYS) × IsSeed it.seed };

    ghost IsShown = { λ it Wrote work. ShowsOutcomes it.plays (start_of work.front) Wrote (reseeded it.seed work) };

    ghost IsStopped = { λ it fault work. StopsPlays it.plays (start_of work.front) (reseeded it.seed work) fault };

    fn show<A: Allocator + Copy, W: Write>(
        self,
        alloc: A,
        work: Workload<A>,
        writer: &mut W,
    ) -> Result<(), ShowFault> {
        let work = reseed(work, self.seed);
        let outcomes = plays_of(alloc, &work, self.plays)?;
        send(writer, self.plays, &outcomes)?;
        Ok(())
    }
}
