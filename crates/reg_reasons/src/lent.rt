//! What is told of a text where there is no heap but one: a workload is read in its layout.
ghost use Rattle.std.specs.Prelude.{◌≡◌, ◌≢◌, IfOk, IfErr, false};
ghost use Rattle.reg_commands.specs.declared.kinds.Kind.{Kind as AnyKind};
ghost use Rattle.reg_reasons.specs.Lent.{Doubts, TellsAnyLent, TellsLent};
ghost use Rattle.reg_reasons.specs.Records.{begins_record};
ghost use Rattle.reg_reasons.specs.Tellings.{Halts};

use crate::records::tell_record;
use crate::refusals::{Explanation, refused, tell_load, tell_report, tell_schedule};
use crate::stops::Steps;
use crate::toml_values::stop_of;
use reg_commands::{Fault, Kind, kind_of, read_layout};
use reg_inputs::WorkloadFault;
use std::alloc::{AllocError, Allocator};

/// The answer for a text that is meant as a workload, and for which the reader of layouts told this fault. It is told
/// that the text is no document where the steps over documents say so.
fn doubted<A: Allocator + Copy>(
    alloc: A,
    text: &str,
    fault: WorkloadFault,
) -> Result<Explanation<A>, AllocError>
    ensures { IfOk result (λ t. Doubts t.answer.items × (t.is_accepted ≡ false)) }
{
    let fault = if stop_of(alloc, text.as_bytes())?.is_none() {
        fault
    } else {
        WorkloadFault::Toml
    };
    refused(
        alloc,
        Steps,
        Kind::Workload,
        text,
        Fault::Workload { fault },
    )
}

/// The answer for a text that is meant as a workload.
fn tell_laid_out<A: Allocator + Copy>(alloc: A, text: &str) -> Result<Explanation<A>, Fault>
    ensures told { IfOk result (λ t. TellsLent AnyKind.Workload t.is_accepted t.answer.items text.now) }
    ensures memory { IfErr result (λ f. f ≡ Fault.OutOfMemory) }
{
    let told = match read_layout(alloc, text) {
        Ok(work) => tell_load(alloc, text, &work),
        Err(WorkloadFault::OutOfMemory) => return Err(Fault::OutOfMemory),
        Err(fault) => doubted(alloc, text, fault),
    };
    match told {
        Ok(told) => Ok(told),
        Err(_) => Err(Fault::OutOfMemory),
    }
}

/// What is told of a text, by its kind: a record by how it begins.
///
/// # Errors
///
/// What is none of the text stops before an answer: want of memory, or a text that is longer than an input may be, and
/// neither a reader nor a writer that failed.
pub(crate) fn tell_lent<A: Allocator + Copy>(alloc: A, text: &str) -> Result<Explanation<A>, Fault>
    ensures told { IfOk result (λ t. TellsAnyLent (begins_record text.now) t.is_accepted t.answer.items text.now) }
    ensures why { IfErr result (λ f. Halts f text.now) }
    ensures kind { IfErr result (λ f. (f ≢ Fault.Output) × (f ≢ Fault.Unread)) }
{
    if text.as_bytes().starts_with(b"tellwydar record ") {
        return tell_record(alloc, text);
    }
    match kind_of(text.as_bytes()) {
        Kind::Report => tell_report(alloc, text),
        Kind::Schedule => tell_schedule(alloc, text),
        Kind::Workload => tell_laid_out(alloc, text),
    }
}
