//! The command that judges a record and prints the report of its run.
ghost use Rattle.std.specs.Prelude.{ℕ, ◌≡◌, ◌≢◌, ◌≤◌, ◌⊎◌, IfOk, IfErr, length, string_bytes};
ghost use Rattle.reg_base.specs.Lists.{lists};
ghost use Rattle.reg_base.specs.declared.limits.TheConstants.{MOST_EVENTS};
ghost use Rattle.reg_commands.specs.Replays.{PointsOf, start_of};
ghost use Rattle.reg_records.specs.Records.{FailsAt, IsFaithful};
ghost use Rattle.reg_verify.specs.Judging.{BlamesSteps};
ghost use Rattle.reg_node.specs.RecordLines.{Account, IsAccount, SpellsAccount};
ghost use Rattle.reg_verify.specs.Verifies.{BlamesAccount, BlamesText, IsReportOfAccount, Runs, ShowsAccount, Verifies};
ghost use Rattle.reg_verify.specs.Verifies.{line_at};

use crate::faults::VerifyFault;
use crate::logs::part;
use reg_base::Shape;
use reg_commands::{Fault, TextCommand, report_run, write_out};
use reg_front::{FrontEnd, by_front};
use reg_history::{ReadWhy, Report};
use reg_node::{Record, RecordFault, Recorded, parse_record};
use reg_records::{CloseFault, LogEntry, play};
use reg_world::{NamedFront, PackedWires, World};
use std::alloc::Allocator;
use std::io::Write;

/// The first line of a step.
pub(crate) const FIRST_STEP: u64 = 5;

/// The record that a text spells.
///
/// # Errors
///
/// `Line` names the first line with which no record goes on, and why; or `OutOfMemory`.
pub fn read_record_text<A: Allocator + Copy>(alloc: A, text: &str) -> Result<Record<A>, Fault>
    ensures read { IfOk result (λ r. SpellsAccount text.now r × IsAccount r) }
    ensures why { IfErr result (λ f. BlamesText f text.now) }
    ensures kind { IfErr result (λ f. (f ≢ Fault.Output) × (f ≢ Fault.Unread)) }
{
    match parse_record(alloc, text) {
        Ok(record) => Ok(record),
        Err(RecordFault::Line { line, why }) => Err(Fault::Line {
            line,
            why: ReadWhy::from(why),
        }),
        Err(RecordFault::OutOfMemory) => Err(Fault::OutOfMemory),
    }
}

/// The run that these logs are in this order, or the line of the first step with which they are none.
fn run_logs<F: FrontEnd, A: Allocator + Copy>(
    alloc: A,
    shape: Shape,
    order: &[u8],
    logs: &[Vec<LogEntry, A>],
) -> Result<World<F, A, PackedWires<A>>, VerifyFault>
    requires logs { length logs.now ≡ shape.processes }
    requires few { length order.now ≤ MOST_EVENTS }
    ensures ran { IfOk result (λ w. IsFaithful F.start shape order.now (lists logs.now) w) }
    ensures why { IfErr result
        (λ f. (f ≡ VerifyFault.Command Fault.OutOfMemory)
        ⊎ ((place : ℕ) × (f ≡ VerifyFault.Unfaithful (line_at place))
        × FailsAt F.start shape order.now (lists logs.now) place)) }
{
    match play(alloc, shape, order, logs) {
        Ok(world) => Ok(world),
        Err(CloseFault::Unfaithful { place }) => Err(VerifyFault::Unfaithful {
            line: place + FIRST_STEP,
        }),
        Err(CloseFault::Mismatch { .. }) => unreachable!(),
        Err(CloseFault::OutOfMemory) => Err(VerifyFault::Command {
            fault: Fault::OutOfMemory,
        }),
    }
}

/// The run of a record's steps.
fn run_steps<F: FrontEnd, A: Allocator + Copy>(
    alloc: A,
    shape: Shape,
    steps: Vec<Recorded, A>,
) -> Result<World<F, A, PackedWires<A>>, VerifyFault>
    requires { length steps.items ≤ MOST_EVENTS }
    ensures ran { IfOk result (λ w. Runs F.start shape steps.items w) }
    ensures why { IfErr result (λ f. BlamesSteps F.start shape steps.items f) }
{
    let (order, logs) = part(alloc, shape.processes(), &steps)?;
    // The run doesn't need the steps, which take as much memory as the logs.
    drop(steps);
    run_logs::<F, A>(alloc, shape, &order, &logs)
}

/// The report of a record.
fn report_of<F: NamedFront, A: Allocator + Copy>(
    alloc: A,
    account: Record<A>,
) -> Result<Report<A>, VerifyFault>
    requires { IsAccount account }
    ensures shows { IfOk result (λ r. ShowsAccount F.start account (PointsOf F.front) r) }
    ensures why { IfErr result (λ f. BlamesSteps F.start account.shape account.steps f) }
{
    let Record {
        front,
        shape,
        names,
        steps,
    } = account;
    let world = run_steps::<F, A>(alloc, shape, steps)?;
    let report = report_run(alloc, front, names, world)?;
    Ok(report)
}

/// The report of a record, by its front end.
///
/// # Errors
///
/// `Unfaithful` names the first step with which the steps are no run; or there was no memory.
pub fn report_by_front<A: Allocator + Copy>(
    alloc: A,
    account: Record<A>,
) -> Result<Report<A>, VerifyFault>
    requires { IsAccount account }
    ensures ok { IfOk result (λ r. IsReportOfAccount account r) }
    ensures why { IfErr result (λ f. BlamesSteps (start_of account.front) account.shape account.steps f) }
{
    by_front!(account.front, report_of::<_, A>(alloc, account))
}

/// The report of the record that a text spells. The text is let go before the run.
fn verified<A: Allocator + Copy>(alloc: A, text: String<A>) -> Result<Report<A>, VerifyFault>
    ensures ok { IfOk result
        (λ r. (a : Account) × IsAccount a × SpellsAccount (string_bytes text) a × IsReportOfAccount a r) }
    ensures why { IfErr result (λ f. BlamesAccount f (string_bytes text)) }
    ensures kind { IfErr result (λ f. f ≢ VerifyFault.Command Fault.Output) }
{
    let account = read_record_text(alloc, text.as_str())?;
    // The run doesn't need the text, which takes more memory than the record.
    drop(text);
    report_by_front(alloc, account)
}

/// Judges the record that a text spells, and writes the report of the run that it is, once all steps are judged.
#[derive(Clone, Copy, Debug)]
pub struct Verify;

impl TextCommand for Verify {
    ghost use Rattle.reg_commands.proofs.Blamed.{told_by_all};

    type Fault = VerifyFault;

    ghost IsAnswer = { λ _ _. Verifies };

    ghost IsBlamed = { λ _. BlamesAccount };

    fn answer<A: Allocator + Copy, W: Write>(
        self,
        alloc: A,
        text: String<A>,
        writer: &mut W,
    ) -> Result<bool, VerifyFault> {
        let report = verified(alloc, text)?;
        write_out(writer, &report)?;
        Ok(true)
    }

    ghost blames_input = { λ _ fault text. told_by_all BlamesText text tt (λ long. long) (λ no. no) tt fault };
}
