//! What is told of a record of processes that ran apart.
ghost use Rattle.std.specs.Prelude.{◌≡◌, ◌≢◌, ◌++◌, ℕ, List, IfErr, IfOk, false};
ghost use Rattle.reg_node.specs.RecordLines.{IsAccount, SpellsAccount};
ghost use Rattle.reg_verify.specs.Verifies.{BlamesAccount, verify_line};
ghost use Rattle.reg_reasons.specs.Records.{RefusesRecord, TellsRecord};
ghost use Rattle.reg_reasons.specs.Tellings.{Halts};

use crate::first_lines::{Subject, line_of_fault};
use crate::refusals::{Explanation, accepted, is_of_text, joined};
use crate::steps::explain_record;
use reg_commands::Fault;
use reg_node::Record;
use reg_verify::{VerifyFault, read_record_text, report_by_front};
use std::alloc::{AllocError, Allocator};

/// The answer for a record with this fault.
fn refused<A: Allocator + Copy>(
    alloc: A,
    text: &str,
    fault: VerifyFault,
) -> Result<Explanation<A>, AllocError>
    ensures { IfOk result
        (λ t. (rest : List ℕ) × (t.answer.items ≡ verify_line fault ++ rest) × (t.is_accepted ≡ false)) }
{
    let line = line_of_fault(alloc, fault)?;
    let notes = explain_record(alloc, text, fault)?;
    joined(line, notes.as_slice())
}

/// The answer for a record that is refused, if the fault is one of the text; else the fault.
fn refused_or_halted<A: Allocator + Copy>(
    alloc: A,
    text: &str,
    fault: VerifyFault,
) -> Result<Explanation<A>, Fault>
    requires blamed { BlamesAccount fault text.now }
    requires kind { (fault ≢ VerifyFault.Command Fault.Output) × (fault ≢ VerifyFault.Command Fault.Unread) }
    ensures told { IfOk result (λ t. RefusesRecord t.answer.items text.now × (t.is_accepted ≡ false)) }
    ensures why { IfErr result (λ f. Halts f text.now) }
    ensures kind { IfErr result (λ f. (f ≢ Fault.Output) × (f ≢ Fault.Unread)) }
{
    if let VerifyFault::Command { fault } = fault
        && !is_of_text(fault)
    {
        return Err(fault);
    }
    match refused(alloc, text, fault) {
        Ok(told) => Ok(told),
        Err(_) => Err(Fault::OutOfMemory),
    }
}

/// The answer for a record that was read.
fn tell_steps<A: Allocator + Copy>(
    alloc: A,
    text: &str,
    account: Record<A>,
) -> Result<Explanation<A>, Fault>
    requires good { IsAccount account }
    requires read { SpellsAccount text.now account }
    ensures told { IfOk result (λ t. TellsRecord t.is_accepted t.answer.items text.now) }
    ensures why { IfErr result (λ f. Halts f text.now) }
    ensures kind { IfErr result (λ f. (f ≢ Fault.Output) × (f ≢ Fault.Unread)) }
{
    let subject = Subject {
        name: "a record: ",
        processes: account.shape.processes(),
        registers: account.shape.registers(),
        front: account.front.name(),
        count: account.steps.as_slice().len(),
        one: " step",
        many: " steps",
    };
    match report_by_front(alloc, account) {
        Ok(_report) => match accepted(alloc, subject, ", a run\n") {
            Ok(told) => Ok(told),
            Err(_) => Err(Fault::OutOfMemory),
        },
        Err(fault) => refused_or_halted(alloc, text, fault),
    }
}

/// What is told of a text that begins as a record.
///
/// # Errors
///
/// There was no memory.
pub(crate) fn tell_record<A: Allocator + Copy>(
    alloc: A,
    text: &str,
) -> Result<Explanation<A>, Fault>
    ensures told { IfOk result (λ t. TellsRecord t.is_accepted t.answer.items text.now) }
    ensures why { IfErr result (λ f. Halts f text.now) }
    ensures kind { IfErr result (λ f. (f ≢ Fault.Output) × (f ≢ Fault.Unread)) }
{
    match read_record_text(alloc, text) {
        Ok(account) => tell_steps(alloc, text, account),
        Err(fault) => refused_or_halted(alloc, text, VerifyFault::Command { fault }),
    }
}
