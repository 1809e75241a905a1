//! Logs, and their reader.
ghost use Rattle.std.specs.Prelude.{◌≡◌, ◌≢◌, ◌<◌, ◌≤◌, ◌^◌, ℕ, List, length, map, IfErr, IfOk, MatchResult};
ghost use Rattle.reg_base.specs.declared.limits.TheConstants.{MOST_PROCESSES};
ghost use Rattle.reg_node.specs.declared.transcripts.logs.LogId.{LogId as AnyId};
ghost use Rattle.reg_node.specs.LogFaults.{IsLogFault};
ghost use Rattle.reg_node.specs.LogTexts.{IsJournal, Journal, SpellsLog, id_lines, log_crc, log_lines, log_text};
ghost use Rattle.reg_node.specs.LogTexts.{recorded_by};

use crate::transcripts::record_text::{Record, read_record};
use crate::transcripts::recorded::Recorded;
use crate::transcripts::sealing::{Unsealed, unseal};
use reg_base::limits::MOST_PROCESSES;
use reg_base::{Names, Shape};
use reg_front::Front;
use reg_records::LogEntry;
use reg_text::{Lines, TextFault, Why, expect_line, read_count};
use std::alloc::{Allocator, Global};
use std::marker::Model;
use thiserror::Error;

/// Which log it is.
#[derive(Clone, Copy, Debug, PartialEq, Eq)]
pub struct LogId {
    /// The cluster: the same in all logs of one, and in no other's.
    pub cluster: u64,
    /// The process whose log it is.
    pub process: u8,
    /// The chapter, from 0.
    pub chapter: u64,
    /// A number drawn when the log was begun, so that a log that was lost isn't taken for the one begun after it.
    pub begun: u64,
}

/// Why bytes are read as no log. The contract says of the first three that the bytes spell none.
#[derive(Clone, Copy, Debug, PartialEq, Eq, Error)]
pub enum LogFault {
    /// The line at which the reader stopped, of those that stand whole behind their seals, and what is wrong with it.
    #[error("line {line}: {why}")]
    Line { line: u64, why: Why },
    /// The shape doesn't have the process.
    #[error("no process")]
    NoProcess,
    /// The entry at this place, from 0, is of another process.
    #[error("entry {place}: of another process")]
    Foreign { place: u64 },
    /// The entry at this place, from 0, is the first that doesn't stand whole behind its seal, and was told durable.
    #[error("entry {place}: damaged")]
    Damaged { place: u64 },
    /// There was no memory.
    #[error("out of memory")]
    OutOfMemory,
}

/// What a node wrote down: which log it is, what its cluster is like, and what its process did.
#[derive(Drop)]
pub struct Log<A: Allocator + Copy = Global> {
    pub id: LogId,
    pub front: Front,
    pub shape: Shape,
    pub names: Names<A>,
    pub entries: Vec<LogEntry, A>,
}

impl<A: Allocator + Copy> Model for Log<A> {
    ghost use Rattle.reg_node.specs.LogFaults.{IsLogFault};
    ghost use Rattle.reg_node.specs.LogTexts.{Journal};

    ghost Value = { Journal };

    ghost view = { λ l.
        record { id = l.id; front = l.front; shape = l.shape; names = l.names; entries = l.entries.items } };
}

/// A log that was read, and where it goes on.
#[derive(Drop)]
pub struct ReadLog<A: Allocator + Copy = Global> {
    pub log: Log<A>,
    /// How many bytes stand whole: what is behind them is to be cut off.
    pub whole: u64,
    /// What the seals of further lines go on from.
    pub crc: u32,
}

impl From<TextFault> for LogFault {
    ghost use Rattle.std.specs.Prelude.{◌≡◌};
    ghost use Rattle.reg_node.specs.LogFaults.{of_text};

    ghost from_gives = { λ fault told. told ≡ of_text fault };

    fn from(fault: TextFault) -> LogFault {
        match fault {
            TextFault::Line { line, why } => Self::Line { line, why },
            TextFault::OutOfMemory => Self::OutOfMemory,
        }
    }
}

/// The lines that say which log it is.
fn read_id(lines: &mut Lines<'_>) -> Result<LogId, TextFault>
    ensures read { IfOk result (λ id. lines.old.left ≡ id_lines id lines.new.left) }
    ensures within { IfOk result (λ id. (id.cluster < 2 ^ 64) × (id.chapter < 2 ^ 64) × (id.begun < 2 ^ 64)) }
    ensures whole { (id : AnyId) (rest : List (List ℕ)) → id.cluster < 2 ^ 64 → id.process < MOST_PROCESSES
        → id.chapter < 2 ^ 64 → id.begun < 2 ^ 64 → lines.old.left ≡ id_lines id rest
        → MatchResult result (λ i. (i ≡ id) × (lines.new.left ≡ rest)) (λ _. ⊥) }
{
    expect_line(lines, b"tellwydar log 1")?;
    let cluster = read_count(lines, b"cluster ", u64::MAX)?;
    let process = read_count(lines, b"process ", MOST_PROCESSES as u64 - 1)?;
    let chapter = read_count(lines, b"chapter ", u64::MAX)?;
    let begun = read_count(lines, b"begun ", u64::MAX)?;
    Ok(LogId {
        cluster,
        process: process as u8,
        chapter,
        begun,
    })
}

/// The entries of steps that are all of this process.
fn own_entries<A: Allocator + Copy>(
    alloc: A,
    process: u8,
    steps: &[Recorded],
) -> Result<Vec<LogEntry, A>, LogFault>
    ensures read { IfOk result (λ v. steps.now ≡ map (recorded_by process) v.items) }
    ensures whole { (es : List LogEntry) → steps.now ≡ map (recorded_by process) es
        → MatchResult result (λ v. v.items ≡ es) (λ f. f ≡ LogFault.OutOfMemory) }
    ensures kind { IfErr result (λ f. (place : ℕ) → f ≢ LogFault.Damaged place) }
{
    let mut entries = Vec::new(alloc);
    for place in 0..steps.len() {
        let step = steps[place];
        if step.process != process {
            return Err(LogFault::Foreign {
                place: place as u64,
            });
        }
        if entries.push(step.entry).is_err() {
            return Err(LogFault::OutOfMemory);
        }
    }
    Ok(entries)
}

/// The log of these lines.
fn read_lines<A: Allocator + Copy>(alloc: A, lines: &mut Lines<'_>) -> Result<Log<A>, LogFault>
    ensures read { IfOk result (λ l. (lines.old.left ≡ log_lines l) × IsJournal l) }
    ensures whole { (j : Journal) → IsJournal j → lines.old.left ≡ log_lines j
        → MatchResult result (λ l. l ≡ j) (λ f. f ≡ LogFault.OutOfMemory) }
    ensures kind { IfErr result (λ f. (place : ℕ) → f ≢ LogFault.Damaged place) }
{
    let id = read_id(lines)?;
    let record = read_record(alloc, lines)?;
    let Record {
        front,
        shape,
        names,
        steps,
    } = record;
    if u32::from(id.process) >= shape.processes() {
        return Err(LogFault::NoProcess);
    }
    let entries = own_entries(alloc, id.process, &steps)?;
    Ok(Log {
        id,
        front,
        shape,
        names,
        entries,
    })
}

/// The log that the bytes spell, of which so many entries were told durable. What a crash left behind the last line
/// that stands whole is no part of it.
pub fn read_log<A: Allocator + Copy>(
    alloc: A,
    bytes: &[u8],
    durable: u64,
) -> Result<ReadLog<A>, LogFault>
    ensures read { IfOk result
        (λ r. (tail : List ℕ) × SpellsLog bytes.now r.log tail × (r.whole ≡ length (log_text r.log))
        × (r.crc ≡ log_crc r.log)) }
    ensures good { IfOk result (λ r. IsJournal r.log × (durable ≤ length r.log.entries)) }
    ensures whole { (j : Journal) (tail : List ℕ) → IsJournal j → SpellsLog bytes.now j tail
        → durable ≤ length j.entries → MatchResult result (λ r. r.log ≡ j) (λ f. f ≡ LogFault.OutOfMemory) }
    ensures fault { IfErr result (IsLogFault bytes.now durable) }
{
    let Ok(unsealed) = unseal(alloc, bytes) else {
        return Err(LogFault::OutOfMemory);
    };
    let Unsealed { text, crc, whole } = unsealed;
    let log = read_lines(alloc, &mut Lines::new(&text))?;
    let count = log.entries.len() as u64;
    if count < durable {
        return Err(LogFault::Damaged { place: count });
    }
    Ok(ReadLog {
        log,
        whole: whole as u64,
        crc,
    })
}
