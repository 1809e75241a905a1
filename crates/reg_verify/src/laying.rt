//! Steps by their processes: laid out in an order, and found.
ghost use Rattle.std.specs.Prelude.{◌≡◌, ◌<◌, ◌≤◌, IfOk, MatchOption, length};
ghost use Rattle.reg_base.specs.Lists.{lists};
ghost use Rattle.reg_base.specs.declared.limits.TheConstants.{MOST_EVENTS};
ghost use Rattle.reg_checkers.specs.History.{IsAt};
ghost use Rattle.reg_node.specs.declared.transcripts.recorded.Recorded.{Recorded as AnyRecorded};
ghost use Rattle.reg_records.specs.Records.{mentions};
ghost use Rattle.reg_verify.specs.Laying.{AllStand, AllWithin, AreLaidOut, IsStepOf};
ghost use Rattle.reg_verify.specs.Logs.{order_of};

use reg_node::Recorded;
use reg_records::{LogEntry, bump, entry_at, no_counts};
use std::alloc::{AllocError, Allocator};

/// The entries of the logs in this order: the k-th mention of a process stands for the k-th entry of its log.
pub(crate) fn laid_out<A: Allocator + Copy>(
    alloc: A,
    order: &[u8],
    logs: &[Vec<LogEntry, A>],
) -> Result<Vec<Recorded, A>, AllocError>
    requires { AllStand order.now (lists logs.now) }
    ensures { IfOk result (λ v. AreLaidOut order.now (lists logs.now) v.items) }
{
    let mut counts = no_counts(alloc, logs.len())?;
    let mut steps = Vec::new(alloc);
    for place in 0..order.len() {
        let process = order[place];
        let at = usize::from(process);
        if at >= counts.len() {
            unreachable!();
        }
        let Some(entry) = entry_at(logs, at, counts[at]) else {
            unreachable!()
        };
        steps.push(Recorded { process, entry })?;
        bump(&mut counts, order, place);
    }
    Ok(steps)
}

/// The first step whose process is none of so many.
pub(crate) fn first_beyond(processes: u32, steps: &[Recorded]) -> Option<usize>
    ensures { MatchOption result (AllWithin processes steps.now)
        (λ place. (step : AnyRecorded) × IsAt steps.now place step × (processes ≤ step.process)) }
{
    for place in 0..steps.len() {
        let step = steps[place];
        if u32::from(step.process) >= processes {
            return Some(place);
        }
    }
    None
}

/// The place of the step of a process with this number, from 0.
pub(crate) fn place_of(steps: &[Recorded], process: u8, number: u64) -> Option<usize>
    requires { length steps.now ≤ MOST_EVENTS }
    ensures { MatchOption result (mentions process (order_of steps.now) ≤ number)
        (λ place. IsStepOf steps.now process number place) }
{
    let mut before = 0;
    for place in 0..steps.len() {
        let step = steps[place];
        if step.process != process {
            continue;
        }
        if before == number {
            return Some(place);
        }
        before += 1;
    }
    None
}
