//! The logs of all processes of one chapter: read, and compared.
ghost use Rattle.std.specs.Prelude.{◌≡◌, ◌<◌, ◌≤◌, ◌↔◌, ℕ, true, None, IfErr, IfOk, MatchOption, MatchResult, length};
ghost use Rattle.std.specs.Prelude.{map, option_copied, slice_get};
ghost use Rattle.reg_base.specs.declared.limits.TheConstants.{MOST_PROCESSES};
ghost use Rattle.reg_checkers.specs.History.{IsAt};
ghost use Rattle.reg_node.specs.LogTexts.{Journal};
ghost use Rattle.reg_verify.specs.Gathers.{Agree, AllAgree, AreApart, AreGathered, AreSpelled, DifferFirst, HasLogOf};
ghost use Rattle.reg_verify.specs.Gathers.{IsGatherFault, IsLogsFault, IsTextOf, IsUnread};
ghost use Rattle.reg_verify.specs.Gathering.{NoneBefore, told_unread};

use reg_base::Names;
use reg_node::{Log, LogFault, ReadLog, read_log};
use std::alloc::{AllocError, Allocator};
use thiserror::Error;

/// What all logs of a chapter have in common, in the order in which it is compared.
#[derive(Clone, Copy, Debug, PartialEq, Eq)]
pub enum HeadPart {
    Cluster,
    Chapter,
    Front,
    /// How many processes there are.
    Processes,
    /// The names of the registers.
    Registers,
}

/// Why texts are no logs whose steps have an order that is a run. Logs are told by their places, from 0.
#[derive(Clone, Copy, Debug, PartialEq, Eq, Error)]
pub enum LogsFault {
    /// There is no text.
    #[error("no log")]
    NoLog,
    /// The text at this place is read as no log. `Damaged` says that a line ends behind the last one that stands whole,
    /// which no crash leaves.
    #[error("log {log}: {fault}")]
    Unread { log: u64, fault: LogFault },
    /// The log at this place is the first that differs from the first one, in this part and in none before it.
    #[error("log {log}: of another chapter")]
    Other { log: u64, part: HeadPart },
    /// The log at this place is of the process of one before it.
    #[error("log {log}: of the process of log {before}")]
    Twice { log: u64, before: u64 },
    /// No log is of this process.
    #[error("no log of process {process}")]
    Missing { process: u8 },
    /// The logs have more entries than a record may have steps.
    #[error("too many entries")]
    TooMany,
    /// This entry of this log, both from 0, is in no run of first entries of the logs.
    #[error("log {log}: entry {entry}: unfaithful")]
    Unfaithful { log: u64, entry: u64 },
    /// There was no memory.
    #[error("out of memory")]
    OutOfMemory,
}

impl From<AllocError> for LogsFault {
    ghost use Rattle.std.specs.Prelude.{◌≡◌};
    ghost use Rattle.reg_verify.specs.declared.gathering.LogsFault.TheVariants.{OutOfMemory};

    ghost from_gives = { λ _ told. told ≡ OutOfMemory };

    fn from(_error: AllocError) -> LogsFault {
        Self::OutOfMemory
    }
}

/// The log that a text is. A crash leaves a part of a line behind the last one that stands whole, and no line feed.
fn read_text<A: Allocator + Copy>(alloc: A, text: &[u8]) -> Result<Log<A>, LogFault>
    ensures read { IfOk result (λ l. IsTextOf text.now l) }
    ensures fault { IfErr result (IsUnread text.now) }
{
    let read = match read_log(alloc, text, 0) {
        Ok(read) => read,
        Err(fault) => return Err(fault),
    };
    let ReadLog { log, whole, crc: _ } = read;
    let place = log.entries.len() as u64;
    if text[whole as usize..].contains(&b'\n') {
        return Err(LogFault::Damaged { place });
    }
    Ok(log)
}

/// What is told of a text that is read as no log.
fn unread(log: u64, fault: LogFault) -> LogsFault
    ensures { result ≡ told_unread log fault }
{
    match fault {
        LogFault::OutOfMemory => LogsFault::OutOfMemory,
        _ => LogsFault::Unread { log, fault },
    }
}

/// The logs that the texts are.
pub(crate) fn read_texts<A: Allocator + Copy>(
    alloc: A,
    texts: &[&[u8]],
) -> Result<Vec<Log<A>, A>, LogsFault>
    ensures read { IfOk result (λ v. AreSpelled (map (λ t. t.now) texts.now) v.items) }
    ensures fault { IfErr result (IsLogsFault (map (λ t. t.now) texts.now)) }
{
    let mut logs = Vec::new(alloc);
    for at in 0..texts.len() {
        let log = match read_text(alloc, texts[at]) {
            Ok(log) => log,
            Err(fault) => return Err(unread(at as u64, fault)),
        };
        if logs.push(log).is_err() {
            return Err(LogsFault::OutOfMemory);
        }
    }
    Ok(logs)
}

/// Whether two registers have one name, or there is neither of them.
fn is_same_name(a: Option<&str>, b: Option<&str>) -> bool
    ensures { (result ≡ true) ↔ (option_copied a.entry ≡ option_copied b.entry) }
{
    match (a, b) {
        (Some(a), Some(b)) => a == b,
        (None, None) => true,
        _ => false,
    }
}

/// Whether the registers have the same names.
pub(crate) fn have_same_names<A: Allocator + Copy>(a: &Names<A>, b: &Names<A>) -> bool
    ensures { (result ≡ true) ↔ (a.now ≡ b.now) }
{
    if a.count() != b.count() {
        return false;
    }
    for register in 0..a.count() {
        if !is_same_name(a.name(register as u16), b.name(register as u16)) {
            return false;
        }
    }
    true
}

/// The first part in which a log differs from the first one.
fn other_part<A: Allocator + Copy>(first: &Log<A>, log: &Log<A>) -> Option<HeadPart>
    ensures { MatchOption result (Agree first.now log.now) (λ part. DifferFirst part first.now log.now) }
{
    if first.id.cluster != log.id.cluster {
        return Some(HeadPart::Cluster);
    }
    if first.id.chapter != log.id.chapter {
        return Some(HeadPart::Chapter);
    }
    if first.front != log.front {
        return Some(HeadPart::Front);
    }
    if first.shape.processes() != log.shape.processes() {
        return Some(HeadPart::Processes);
    }
    if !have_same_names(&first.names, &log.names) {
        return Some(HeadPart::Registers);
    }
    None
}

/// Whether each log agrees with the first one.
fn check_heads<A: Allocator + Copy>(logs: &[Log<A>]) -> Result<(), LogsFault>
    ensures agree { IfOk result (λ _. AllAgree logs.now) }
    ensures fault { IfErr result (IsGatherFault logs.now) }
{
    for at in 0..logs.len() {
        if let Some(part) = other_part(&logs[0], &logs[at]) {
            return Err(LogsFault::Other {
                log: at as u64,
                part,
            });
        }
    }
    Ok(())
}

/// The process of a log.
fn process_of<A: Allocator + Copy>(log: &Log<A>) -> u8
    ensures { result ≡ log.now.id.process }
{
    log.id.process
}

/// The place of a log of this process, of the first logs of this number.
fn find_log<A: Allocator + Copy>(logs: &[Log<A>], count: usize, process: u8) -> Option<usize>
    requires { count ≤ length logs.now }
    ensures { MatchOption result (NoneBefore logs.now count process)
        (λ k. (k < count) × ((j : Journal) × IsAt logs.now k j × (j.id.process ≡ process))) }
{
    for place in 0..count {
        if process_of(&logs[place]) == process {
            return Some(place);
        }
    }
    None
}

/// Whether no two logs are of one process.
fn check_apart<A: Allocator + Copy>(logs: &[Log<A>]) -> Result<(), LogsFault>
    ensures apart { IfOk result (λ _. AreApart logs.now) }
    ensures fault { IfErr result (IsGatherFault logs.now) }
{
    for at in 0..logs.len() {
        if let Some(before) = find_log(logs, at, process_of(&logs[at])) {
            return Err(LogsFault::Twice {
                log: at as u64,
                before: before as u64,
            });
        }
    }
    Ok(())
}

/// How many processes a log says that there are.
fn processes_of<A: Allocator + Copy>(log: &Log<A>) -> u32
    ensures value { result ≡ log.now.shape.processes }
    ensures in_range { result ≤ MOST_PROCESSES }
{
    log.shape.processes()
}

/// Whether each process has a log.
fn check_all<A: Allocator + Copy>(first: &Log<A>, logs: &[Log<A>]) -> Result<(), LogsFault>
    requires { IsAt logs.now 0 first.now }
    ensures all { IfOk result (λ _. (p : ℕ) → p < first.now.shape.processes → HasLogOf p logs.now) }
    ensures fault { IfErr result (IsGatherFault logs.now) }
{
    for process in 0..processes_of(first) {
        let process = process as u8;
        if find_log(logs, logs.len(), process).is_none() {
            return Err(LogsFault::Missing { process });
        }
    }
    Ok(())
}

/// The first log, where these are the logs of one chapter, one of each process.
pub(crate) fn gathered<A: Allocator + Copy>(logs: &[Log<A>]) -> Result<&Log<A>, LogsFault>
    ensures gathered { IfOk result (λ first. AreGathered first.now logs.now) }
    ensures fault { IfErr result (IsGatherFault logs.now) }
{
    let Some(first) = logs.first() else {
        return Err(LogsFault::NoLog);
    };
    check_heads(logs)?;
    check_apart(logs)?;
    check_all(first, logs)?;
    Ok(first)
}
