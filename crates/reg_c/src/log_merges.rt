//! The logs of all processes of a chapter, merged over memory that the caller lends.
ghost use Rattle.std.specs.Prelude.{◌≡◌, ◌<◌, IfOk, map};
ghost use Rattle.reg_c.specs.NodeCodes.{log_code, log_place};
ghost use Rattle.reg_c.specs.LogMerges.{TellsMergedLogs, logs_code, logs_log, logs_place, part_number};
ghost use Rattle.reg_c.specs.LogMerges.{parts as parts_by, with_fault};

use crate::events::code_of_refusal;
use crate::node_codes::refusal_of_log;
use reg_commands::fill;
use reg_node::LogFault;
use reg_process::ProcessFault;
use reg_verify::{HeadPart, LogsFault, merge_logs_text};
use std::alloc::{AllocError, Global};

/// What is told of logs that are merged.
#[repr(C)]
#[derive(Clone, Copy)]
pub struct MergedRow {
    /// How many bytes the record's text has.
    pub length: usize,
    /// The log that a refusal names, by its place from 0; else 0.
    pub log: u64,
    /// What else it names: a line, an entry, a part of the head, a log or a process; else 0.
    pub place: u64,
}

/// Why logs are refused: a number, and what it names.
#[derive(Clone, Copy)]
pub struct LogsRefusal {
    pub code: u32,
    pub log: u64,
    pub place: u64,
}

/// The bytes in parts of these lengths. What is behind the last is in none.
fn parts<'a>(alloc: Global, bytes: &'a [u8], lengths: &[u64]) -> Result<Vec<&'a [u8]>, AllocError>
    ensures { IfOk result (λ v. map (λ t. t.now) v.items ≡ parts_by lengths.now bytes.now) }
{
    let mut parts = Vec::new(alloc);
    let mut rest = bytes;
    for length in lengths {
        let end = (*length as usize).min(rest.len());
        let (part, behind) = rest.split_at(end);
        parts.push(part)?;
        rest = behind;
    }
    Ok(parts)
}

/// A part of the head, as a number.
fn number_of(part: HeadPart) -> u64
    ensures { result ≡ part_number part }
{
    match part {
        HeadPart::Cluster => 0,
        HeadPart::Chapter => 1,
        HeadPart::Front => 2,
        HeadPart::Processes => 3,
        HeadPart::Registers => 4,
    }
}

/// Why a text is read as no log.
fn refusal_of_text(log: u64, fault: LogFault) -> LogsRefusal
    ensures code { (result.code ≡ log_code fault) × (0 < result.code) }
    ensures named { (result.log ≡ log) × (result.place ≡ log_place fault) }
{
    let refusal = refusal_of_log(fault);
    LogsRefusal {
        code: refusal.code,
        log,
        place: refusal.place,
    }
}

/// A number, and what it names.
fn named(code: u32, log: u64, place: u64) -> LogsRefusal
    ensures { (result.code ≡ code) × (result.log ≡ log) × (result.place ≡ place) }
{
    LogsRefusal { code, log, place }
}

/// Why logs have no record that is a run.
fn refusal_of_logs(fault: LogsFault) -> LogsRefusal
    ensures code { (result.code ≡ logs_code fault) × (0 < result.code) }
    ensures named { (result.log ≡ logs_log fault) × (result.place ≡ logs_place fault) }
{
    match fault {
        LogsFault::NoLog => named(96, 0, 0),
        LogsFault::Unread { log, fault } => refusal_of_text(log, fault),
        LogsFault::Other { log, part } => named(97, log, number_of(part)),
        LogsFault::Twice { log, before } => named(98, log, before),
        LogsFault::Missing { process } => named(99, 0, u64::from(process)),
        LogsFault::TooMany => named(100, 0, 0),
        LogsFault::Unfaithful { log, entry } => named(101, log, entry),
        LogsFault::OutOfMemory => named(code_of_refusal(ProcessFault::OutOfMemory), 0, 0),
    }
}

/// Puts what a refusal names into the row.
fn refuse(fault: LogsFault, row: &mut MergedRow) -> u32
    ensures code { (result ≡ logs_code fault) × (0 < result) }
    ensures named { row.new ≡ with_fault row.old fault }
{
    let refusal = refusal_of_logs(fault);
    row.log = refusal.log;
    row.place = refusal.place;
    refusal.code
}

/// Tells what the merge of these texts gives.
fn tell_merged(alloc: Global, texts: &[&[u8]], room: &mut [u8], row: &mut MergedRow) -> u32
    ensures { TellsMergedLogs (map (λ t. t.now) texts.now) room.old room.new row.old row.new result }
{
    match merge_logs_text(alloc, texts) {
        Ok(text) => {
            fill(room, &text);
            row.length = text.len();
            0
        }
        Err(fault) => refuse(fault, row),
    }
}

/// Merges the logs of all processes of a chapter, which stand one behind the other and have these lengths. Puts as many
/// bytes of the text of their record in an order that is a run into the room as it takes, and tells how many there are.
/// If the result isn't 0, it says why there is no such record, and the row tells what it names; the room and the length
/// haven't changed.
#[unsafe(no_mangle)]
pub extern "C" fn tellwydar_merge_logs(
    alloc: Global,
    logs: &[u8],
    lengths: &[u64],
    room: &mut [u8],
    row: &mut MergedRow,
) -> u32
    ensures { TellsMergedLogs (parts_by lengths.now logs.now) room.old room.new row.old row.new result }
{
    match parts(alloc, logs, lengths) {
        Ok(texts) => tell_merged(alloc, &texts, room, row),
        Err(_) => refuse(LogsFault::OutOfMemory, row),
    }
}
