//! A log made again, step by step.
ghost use Rattle.std.specs.Prelude.{◌≡◌, ◌↔◌, false, IfErr, IfOk, IsTrue, OnOk};
ghost use Rattle.reg_process.specs.Events.{IsGoing};
ghost use Rattle.reg_node.specs.Logs.{AreSteps, state_after};
ghost use Rattle.reg_node.specs.Replaying.{IsReplayFault, Remakes};

use crate::faults::OpenFault;
use reg_front::FrontEnd;
use reg_process::{Process, ProcessFault, Reply};
use reg_records::LogEntry;
use std::alloc::{AllocError, Allocator};

/// Whether a fault is `OutOfMemory`.
fn is_memory(fault: ProcessFault) -> bool
    ensures { IsTrue result ↔ fault ≡ ProcessFault.OutOfMemory }
{
    matches!(fault, ProcessFault::OutOfMemory)
}

/// Whether two replies are the same.
fn is_same(reply: Option<Reply>, other: Option<Reply>) -> bool
    ensures { IsTrue result ↔ reply ≡ other }
{
    reply == other
}

/// Makes the step of an entry, and tells whether the process accepts it and gives the entry's reply. Where it doesn't,
/// nothing is claimed of the process.
fn remake<F: FrontEnd, A: Allocator + Copy>(
    process: &mut Process<F, A>,
    entry: &LogEntry,
) -> Result<bool, AllocError>
    requires { process.old.failed ≡ false }
    ensures { IfOk result (λ made. Remakes F.start process.old entry.now made process.new) }
{
    match process.step(&entry.step) {
        Ok(outcome) => Ok(is_same(outcome.reply, entry.reply)),
        Err(fault) => {
            if is_memory(fault) {
                Err(AllocError)
            } else {
                Ok(false)
            }
        }
    }
}

/// Makes the steps of all entries, one after another.
pub(crate) fn replay<F: FrontEnd, A: Allocator + Copy>(
    process: &mut Process<F, A>,
    entries: &[LogEntry],
) -> Result<(), OpenFault>
    requires { process.old.failed ≡ false }
    ensures made { OnOk result (AreSteps F.start process.old.state entries.now
        × IsGoing process.new (state_after F.start process.old.state entries.now)) }
    ensures fault { IfErr result (λ fault. IsReplayFault F.start process.old.state entries.now fault) }
{
    for place in 0..entries.len() {
        let entry = entries[place];
        match remake(process, &entry) {
            Ok(true) => {}
            Ok(false) => {
                return Err(OpenFault::NoStep {
                    place: place as u64,
                });
            }
            Err(_) => return Err(OpenFault::OutOfMemory),
        }
    }
    Ok(())
}
