//! The command that puts the steps of a record into an order that is a run.
ghost use Rattle.std.specs.Prelude.{ℕ, ◌≡◌, ◌≢◌, ◌<◌, ◌≤◌, IfOk, IfErr, length, string_bytes};
ghost use Rattle.reg_base.specs.Lists.{lists};
ghost use Rattle.reg_base.specs.declared.limits.TheConstants.{MOST_EVENTS};
ghost use Rattle.reg_commands.specs.Replays.{start_of};
ghost use Rattle.reg_node.specs.RecordLines.{IsAccount};
ghost use Rattle.reg_records.specs.Merges.{IsFull};
ghost use Rattle.reg_records.specs.Records.{IsFaithful, mentions};
ghost use Rattle.reg_world.specs.Worlds.{Made};
ghost use Rattle.reg_verify.specs.Laying.{AllWithin, BlamesOrder, IsStepOf, IsUnordered};
ghost use Rattle.reg_verify.specs.Logs.{AreLogs, order_of};
ghost use Rattle.reg_verify.specs.Merges.{BlamesMerge, Merges, Orders, ShowsMerged};
ghost use Rattle.reg_verify.specs.Verifies.{line_at};

use crate::faults::VerifyFault;
use crate::laying::{first_beyond, laid_out, place_of};
use crate::logs::logs_of;
use crate::verifying::{FIRST_STEP, read_record_text};
use reg_base::Shape;
use reg_commands::{Fault, TextCommand, write_answer};
use reg_front::{Front, FrontEnd, by_front};
use reg_node::{LineFault, Record, Recorded, text_of_record};
use reg_records::{LogEntry, MergeFault, merge};
use reg_world::PackedWires;
use std::alloc::Allocator;
use std::io::Write;

/// Why logs have no order.
#[derive(Clone, Copy, Debug, PartialEq, Eq)]
pub(crate) enum Unordered {
    /// The entry of this process with this number, from 0, is in no run.
    Stuck { process: u8, number: u64 },
    /// There was no memory.
    OutOfMemory,
}

/// An order of all entries of the logs that is a run.
fn whole_order<F: FrontEnd, A: Allocator + Copy>(
    alloc: A,
    shape: Shape,
    logs: &[Vec<LogEntry, A>],
) -> Result<Vec<u8, A>, Unordered>
    requires logs { length logs.now ≡ shape.processes }
    requires few { ¬ IsFull F.start shape (lists logs.now) }
    ensures order { IfOk result (λ v. (w : Made) × IsFaithful F.start shape v.items (lists logs.now) w) }
    ensures fault { IfErr result (λ f. IsUnordered F.start shape (lists logs.now) f) }
{
    match merge::<F, A, PackedWires<A>>(alloc, shape, logs) {
        Ok(merged) => match merged.left {
            None => Ok(merged.order),
            Some(left) => Err(Unordered::Stuck {
                process: left.process,
                number: left.place,
            }),
        },
        Err(MergeFault::Other { process, place }) => Err(Unordered::Stuck {
            process,
            number: place,
        }),
        Err(MergeFault::TooMany) => unreachable!(),
        Err(MergeFault::OutOfMemory) => Err(Unordered::OutOfMemory),
    }
}

/// The step at this place is in no run.
fn stuck_at(place: usize) -> VerifyFault
    requires { place < MOST_EVENTS }
    ensures { result ≡ VerifyFault.Unfaithful (line_at place) }
{
    VerifyFault::Unfaithful {
        line: place as u64 + FIRST_STEP,
    }
}

/// The step of a process with this number is in no run.
fn stuck_step(steps: &[Recorded], process: u8, number: u64) -> VerifyFault
    requires few { length steps.now ≤ MOST_EVENTS }
    requires one { number < mentions process (order_of steps.now) }
    ensures { (place : ℕ) × (result ≡ VerifyFault.Unfaithful (line_at place))
        × IsStepOf steps.now process number place }
{
    match place_of(steps, process, number) {
        Some(place) => stuck_at(place),
        None => unreachable!(),
    }
}

/// The steps of these logs in an order that is a run.
fn order_logs<F: FrontEnd, A: Allocator + Copy>(
    alloc: A,
    shape: Shape,
    steps: &[Recorded],
    logs: &[Vec<LogEntry, A>],
) -> Result<Vec<Recorded, A>, VerifyFault>
    requires logs { AreLogs shape.processes steps.now (lists logs.now) }
    requires within { AllWithin shape.processes steps.now }
    requires few { length steps.now ≤ MOST_EVENTS }
    ensures orders { IfOk result (λ v. Orders F.start shape steps.now v.items) }
    ensures why { IfErr result (λ f. BlamesOrder F.start shape steps.now f) }
{
    match whole_order::<F, A>(alloc, shape, logs) {
        Ok(order) => {
            let ordered = laid_out(alloc, &order, logs)?;
            Ok(ordered)
        }
        Err(Unordered::Stuck { process, number }) => Err(stuck_step(steps, process, number)),
        Err(Unordered::OutOfMemory) => Err(VerifyFault::Command {
            fault: Fault::OutOfMemory,
        }),
    }
}

/// The steps in an order that is a run.
fn order_steps<F: FrontEnd, A: Allocator + Copy>(
    alloc: A,
    shape: Shape,
    steps: &[Recorded],
) -> Result<Vec<Recorded, A>, VerifyFault>
    requires { length steps.now ≤ MOST_EVENTS }
    ensures orders { IfOk result (λ v. Orders F.start shape steps.now v.items) }
    ensures why { IfErr result (λ f. BlamesOrder F.start shape steps.now f) }
{
    let logs = logs_of(alloc, shape.processes(), steps)?;
    if let Some(place) = first_beyond(shape.processes(), steps) {
        return Err(stuck_at(place));
    }
    order_logs::<F, A>(alloc, shape, steps, &logs)
}

/// The steps in an order that is a run, by the front end.
pub(crate) fn order_by_front<A: Allocator + Copy>(
    alloc: A,
    front: Front,
    shape: Shape,
    steps: &[Recorded],
) -> Result<Vec<Recorded, A>, VerifyFault>
    requires { length steps.now ≤ MOST_EVENTS }
    ensures orders { IfOk result (λ v. Orders (start_of front) shape steps.now v.items) }
    ensures why { IfErr result (λ f. BlamesOrder (start_of front) shape steps.now f) }
{
    by_front!(front, order_steps::<_, A>(alloc, shape, steps))
}

/// The record of the same steps in an order that is a run.
fn merged_record<A: Allocator + Copy>(
    alloc: A,
    account: Record<A>,
) -> Result<Record<A>, VerifyFault>
    requires { IsAccount account }
    ensures shows { IfOk result (λ r. ShowsMerged account r) }
    ensures why { IfErr result (λ f. BlamesOrder (start_of account.front) account.shape account.steps f) }
{
    let Record {
        front,
        shape,
        names,
        steps,
    } = account;
    let steps = order_by_front(alloc, front, shape, &steps)?;
    Ok(Record {
        front,
        shape,
        names,
        steps,
    })
}

/// The text of the record of the same steps in an order that is a run.
fn merged_text<A: Allocator + Copy>(alloc: A, text: String<A>) -> Result<Vec<u8, A>, VerifyFault>
    ensures ok { IfOk result (λ v. Merges (λ written. written ≡ v.items) (string_bytes text)) }
    ensures why { IfErr result (λ f. BlamesMerge f (string_bytes text)) }
    ensures kind { IfErr result (λ f. f ≢ VerifyFault.Command Fault.Output) }
{
    let record = read_record_text(alloc, text.as_str())?;
    // The order doesn't need the text, which takes more memory than the record.
    drop(text);
    let merged = merged_record(alloc, record)?;
    match text_of_record(alloc, &merged) {
        Ok(bytes) => Ok(bytes),
        Err(LineFault::Unfit) => unreachable!(),
        Err(LineFault::OutOfMemory) => Err(VerifyFault::Command {
            fault: Fault::OutOfMemory,
        }),
    }
}

/// Puts the steps of a record into an order that is a run, those of each process in their own order, and writes the
/// record of it.
#[derive(Clone, Copy, Debug)]
pub struct Merge;

impl TextCommand for Merge {
    ghost use Rattle.reg_commands.proofs.Blamed.{told_by_all};
    ghost use Rattle.reg_verify.specs.Merges.{BlamesInput};

    type Fault = VerifyFault;

    ghost IsAnswer = { λ _ _. Merges };

    ghost IsBlamed = { λ _. BlamesMerge };

    fn answer<A: Allocator + Copy, W: Write>(
        self,
        alloc: A,
        text: String<A>,
        writer: &mut W,
    ) -> Result<bool, VerifyFault> {
        let bytes = merged_text(alloc, text)?;
        write_answer(writer, &bytes)?;
        Ok(true)
    }

    ghost blames_input = { λ _ fault text. told_by_all BlamesInput text tt (λ long. long) (λ no. no) tt fault };
}
