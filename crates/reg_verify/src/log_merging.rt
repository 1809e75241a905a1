//! The steps of all logs of a chapter in an order that is a run.
ghost use Rattle.std.specs.Prelude.{◌≡◌, ◌<◌, ◌≤◌, ◌++◌, ℕ, IfErr, IfOk, OnOk, length, map, vec_len};
ghost use Rattle.reg_base.specs.declared.limits.TheConstants.{MOST_EVENTS};
ghost use Rattle.reg_checkers.specs.History.{IsAt};
ghost use Rattle.reg_commands.specs.Replays.{start_of};
ghost use Rattle.reg_node.specs.LogTexts.{Journal};
ghost use Rattle.reg_node.specs.RecordLines.{Account, account_text};
ghost use Rattle.reg_verify.specs.Gathers.{AreGathered, IsEntryAt, IsGatherFault, IsLogsFault, MergesLogs};
ghost use Rattle.reg_verify.specs.Gathers.{joined as all_joined, steps_of};
ghost use Rattle.reg_verify.specs.Merges.{Orders};

use crate::faults::VerifyFault;
use crate::gathering::{LogsFault, gathered, read_texts};
use crate::merging::order_by_front;
use crate::verifying::FIRST_STEP;
use reg_base::Shape;
use reg_base::limits::MOST_EVENTS;
use reg_front::Front;
use reg_node::{LineFault, Log, Record, Recorded, text_of_record};
use std::alloc::{AllocError, Allocator};

/// Adds the steps of a log.
fn add_steps<A: Allocator + Copy>(
    steps: &mut Vec<Recorded, A>,
    log: &Log<A>,
) -> Result<(), AllocError>
    ensures { OnOk result (steps.new.items ≡ steps.old.items ++ steps_of log.now) }
{
    let process = log.id.process;
    for entry in &log.entries {
        steps.push(Recorded {
            process,
            entry: *entry,
        })?;
    }
    Ok(())
}

/// How many entries a log has.
fn count_of<A: Allocator + Copy>(log: &Log<A>) -> usize
    ensures { result ≡ length log.now.entries }
{
    log.entries.len()
}

/// The steps of gathered logs, log by log.
fn joined<A: Allocator + Copy>(alloc: A, logs: &[Log<A>]) -> Result<Vec<Recorded, A>, LogsFault>
    requires { (first : Journal) × AreGathered first logs.now }
    ensures steps { IfOk result (λ v. (v.items ≡ all_joined logs.now) × (length v.items ≤ MOST_EVENTS)) }
    ensures fault { IfErr result (IsGatherFault logs.now) }
{
    let mut steps = Vec::new(alloc);
    for at in 0..logs.len() {
        let log = &logs[at];
        if count_of(log) > MOST_EVENTS as usize - steps.len() {
            return Err(LogsFault::TooMany);
        }
        add_steps(&mut steps, log)?;
    }
    Ok(steps)
}

/// Which entry of which log has its step at this place of those of all logs.
fn entry_at<A: Allocator + Copy>(logs: &[Log<A>], place: u64) -> LogsFault
    requires { place < length (all_joined logs.now) }
    ensures { (log : ℕ) × (entry : ℕ) × (result ≡ LogsFault.Unfaithful log entry) × IsEntryAt logs.now log entry place }
{
    let mut left = place;
    for log in 0..logs.len() {
        let count = count_of(&logs[log]) as u64;
        if left < count {
            return LogsFault::Unfaithful {
                log: log as u64,
                entry: left,
            };
        }
        left -= count;
    }
    unreachable!()
}

/// The front end and the shape of a log.
fn start_in<A: Allocator + Copy>(log: &Log<A>) -> (Front, Shape)
    ensures { (result.0 ≡ log.now.front) × (result.1 ≡ log.now.shape) }
{
    (log.front, log.shape)
}

/// The steps of gathered logs in an order that is a run.
fn ordered<A: Allocator + Copy>(
    alloc: A,
    first: &Log<A>,
    logs: &[Log<A>],
) -> Result<Vec<Recorded, A>, LogsFault>
    requires { AreGathered first.now logs.now }
    ensures orders { IfOk result
        (λ v. Orders (start_of first.now.front) first.now.shape (all_joined logs.now) v.items) }
    ensures fault { IfErr result (IsGatherFault logs.now) }
{
    let steps = joined(alloc, logs)?;
    let (front, shape) = start_in(first);
    match order_by_front(alloc, front, shape, &steps) {
        Ok(ordered) => Ok(ordered),
        Err(VerifyFault::Unfaithful { line }) => Err(entry_at(logs, line - FIRST_STEP)),
        Err(VerifyFault::Command { .. }) => Err(LogsFault::OutOfMemory),
    }
}

/// The steps of logs in an order that is a run, where the logs are of one chapter.
fn gathered_order<A: Allocator + Copy>(
    alloc: A,
    logs: &[Log<A>],
) -> Result<Vec<Recorded, A>, LogsFault>
    ensures orders { IfOk result
        (λ v. (first : Journal) × AreGathered first logs.now
        × Orders (start_of first.front) first.shape (all_joined logs.now) v.items) }
    ensures fault { IfErr result (IsGatherFault logs.now) }
{
    let first = gathered(logs)?;
    ordered(alloc, first, logs)
}

/// The record of these steps that is like the first log.
fn record_like_first<A: Allocator + Copy>(
    mut logs: Vec<Log<A>, A>,
    steps: Vec<Recorded, A>,
) -> Record<A>
    requires { 0 < vec_len logs }
    ensures { (first : Journal) × IsAt logs.items 0 first
        × (result ≡ record { front = first.front; shape = first.shape; names = first.names; steps = steps.items }) }
{
    let first = logs.remove(0);
    let Log {
        front,
        shape,
        names,
        ..
    } = first;
    Record {
        front,
        shape,
        names,
        steps,
    }
}

/// The record of all steps of the logs that the texts are, in an order that is a run, where they are the logs of one
/// chapter, one of each process.
///
/// # Errors
///
/// What the texts are instead, or that there was no memory.
pub fn merge_logs<A: Allocator + Copy>(alloc: A, texts: &[&[u8]]) -> Result<Record<A>, LogsFault>
    ensures merged { IfOk result (λ r. MergesLogs (map (λ t. t.now) texts.now) r) }
    ensures fault { IfErr result (IsLogsFault (map (λ t. t.now) texts.now)) }
{
    let logs = read_texts(alloc, texts)?;
    let steps = gathered_order(alloc, &logs)?;
    Ok(record_like_first(logs, steps))
}

/// The text of the record that `merge_logs` gives.
///
/// # Errors
///
/// Those of `merge_logs`.
pub fn merge_logs_text<A: Allocator + Copy>(
    alloc: A,
    texts: &[&[u8]],
) -> Result<Vec<u8, A>, LogsFault>
    ensures merged { IfOk result
        (λ v. (r : Account) × MergesLogs (map (λ t. t.now) texts.now) r × (v.items ≡ account_text r)) }
    ensures fault { IfErr result (IsLogsFault (map (λ t. t.now) texts.now)) }
{
    let record = merge_logs(alloc, texts)?;
    match text_of_record(alloc, &record) {
        Ok(text) => Ok(text),
        Err(LineFault::Unfit) => unreachable!(),
        Err(LineFault::OutOfMemory) => Err(LogsFault::OutOfMemory),
    }
}
