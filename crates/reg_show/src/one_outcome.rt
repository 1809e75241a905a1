//! The command that prints the schedule of a run with one of the outcomes of a workload's scripts.
ghost use Rattle.std.specs.Prelude.{◌≡◌, ◌≢◌, ◌≤◌, ◌⊎◌, IfOk, IfErr, IsErrOf};
ghost use Rattle.std.specs.Io.KnownBytes.{Appends};
ghost use Rattle.reg_text.specs.Writing.{AppendsPart};
ghost use Rattle.reg_commands.specs.Replays.{start_of};
ghost use Rattle.reg_outcomes.specs.Finishing.{HasRoom};
ghost use Rattle.reg_outcomes.specs.Interleavings.{AreAll, IsInterleaving, IsWider};
ghost use Rattle.reg_outcomes.specs.Showing.{IsRunOf};
ghost use Rattle.reg_outcomes.specs.declared.interleavings.outcomes.TheConstants.{MOST_STAGES};
ghost use Rattle.reg_show.specs.OneOutcome.{Lacks, SendsRun, ShowsOutcome, StopsOutcome};

use crate::faults::ShowFault;
use crate::scheduling::{events_have_bits, send};
use reg_commands::{Fault, WorkCommand};
use reg_front::{FrontEnd, by_front};
use reg_outcomes::{AllOutcomes, MOST_STAGES, Outcome, all_outcomes, run_outcome};
use reg_workload::Workload;
use reg_world::{PackedWires, World};
use std::alloc::Allocator;
use std::io::Write;

/// All outcomes of a workload's scripts.
fn outcomes_of<A: Allocator + Copy>(
    alloc: A,
    work: &Workload<A>,
) -> Result<AllOutcomes<A>, ShowFault>
    ensures all { IfOk result (λ all. AreAll work.now.scripts work.now.shape.registers all.list.items) }
    ensures why { IfErr result
        (λ f. (f ≡ ShowFault.Command Fault.OutOfMemory)
        ⊎ ((f ≡ ShowFault.TooManyStages) × IsWider work.now.scripts work.now.shape.registers MOST_STAGES)) }
{
    let registers = work.shape.registers() as u16;
    Ok(all_outcomes(alloc, work.scripts.as_slice(), registers, MOST_STAGES)?)
}

/// A run with an outcome of a workload's scripts.
fn run_of<F: FrontEnd, A: Allocator + Copy>(
    alloc: A,
    work: &Workload<A>,
    outcome: &Outcome<A>,
) -> Result<World<F, A, PackedWires<A>>, ShowFault>
    requires { IsInterleaving work.now.scripts work.now.shape.registers outcome.now }
    ensures run { IfOk result (λ world. IsRunOf F.start work.now.scripts work.now.shape.registers outcome.now world) }
    ensures why { IfErr result (λ f. Lacks (HasRoom work.now.scripts) f) }
{
    Ok(run_outcome(alloc, work.shape, work.scripts.as_slice(), outcome)?)
}

/// Makes a run with an outcome of a workload's scripts, and writes its schedule.
fn write_run<F: FrontEnd, A: Allocator + Copy, W: Write>(
    alloc: A,
    work: &Workload<A>,
    outcome: &Outcome<A>,
    writer: &mut W,
) -> Result<(), ShowFault>
    requires { IsInterleaving work.now.scripts work.now.shape.registers outcome.now }
    ensures ok { IfOk result
        (λ _. SendsRun F.start (Appends (W.contents writer.old) (W.contents writer.new)) work.now outcome.now) }
    ensures why { IfErr result (λ f. (f ≡ ShowFault.Command Fault.Output) ⊎ Lacks (HasRoom work.now.scripts) f) }
    ensures silent { IfErr result (λ f. f ≢ ShowFault.Command Fault.Output → writer.new ≡ writer.old) }
    ensures part { IsErrOf result (ShowFault.Command Fault.Output)
        → SendsRun F.start (AppendsPart (W.contents writer.old) (W.contents writer.new)) work.now outcome.now }
{
    let world = run_of::<F, A>(alloc, work, outcome)?;
    let events = world.accepted();
    events_have_bits(events);
    send(writer, work.shape, &work.names, work.front, events)?;
    Ok(())
}

/// Makes a run with an outcome of a workload's scripts under its front end, and writes its schedule.
fn write_run_of<A: Allocator + Copy, W: Write>(
    alloc: A,
    work: &Workload<A>,
    outcome: &Outcome<A>,
    writer: &mut W,
) -> Result<(), ShowFault>
    requires { IsInterleaving work.now.scripts work.now.shape.registers outcome.now }
    ensures ok { IfOk result
        (λ _. SendsRun (start_of work.now.front) (Appends (W.contents writer.old) (W.contents writer.new)) work.now
        outcome.now) }
    ensures why { IfErr result (λ f. (f ≡ ShowFault.Command Fault.Output) ⊎ Lacks (HasRoom work.now.scripts) f) }
    ensures silent { IfErr result (λ f. f ≢ ShowFault.Command Fault.Output → writer.new ≡ writer.old) }
    ensures part { IsErrOf result (ShowFault.Command Fault.Output)
        → SendsRun (start_of work.now.front) (AppendsPart (W.contents writer.old) (W.contents writer.new)) work.now
        outcome.now }
{
    by_front!(
        work.front,
        write_run::<_, A, W>(alloc, work, outcome, writer)
    )
}

/// Writes the schedule of a run with the outcome of this number, counted from 1, among all outcomes that the scripts of
/// the workload that a text says can have, in their order, once the run is made. It is made under the workload's front
/// end, and calls the operations in the order of the outcome's turns.
#[derive(Clone, Copy, Debug)]
pub struct OneOutcome {
    pub number: u32,
}

impl WorkCommand for OneOutcome {
    type Fault = ShowFault;

    ghost IsReady = { λ it. 1 ≤ it.number };

    ghost IsShown = { λ it Wrote work. ShowsOutcome it.number (start_of work.front) Wrote work };

    ghost IsStopped = { λ it fault work. StopsOutcome it.number work fault };

    fn show<A: Allocator + Copy, W: Write>(
        self,
        alloc: A,
        work: Workload<A>,
        writer: &mut W,
    ) -> Result<(), ShowFault> {
        let all = outcomes_of(alloc, &work)?;
        match all.list.get(self.number as usize - 1) {
            Some(outcome) => write_run_of(alloc, &work, outcome, writer),
            None => Err(ShowFault::NoSuchOutcome),
        }
    }
}
