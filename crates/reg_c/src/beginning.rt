//! The bytes that begin a log.
ghost use Rattle.std.specs.Prelude.{◌≡◌, ◌≤◌, ◌<◌, ◌^◌, ◌⊎◌, ◌++◌, ◌∷◌, [], ℕ, List, None, IfErr, IfOk, MatchResult};
ghost use Rattle.std.specs.Prelude.{codes, length};
ghost use Rattle.reg_base.specs.Names.{names_fault};
ghost use Rattle.reg_base.specs.declared.limits.TheConstants.{MOST_PROCESSES};
ghost use Rattle.reg_process.specs.declared.faults.ProcessFault.{ProcessFault};
ghost use Rattle.reg_c.specs.Beginning.{BeginsLog, IsMisplaced, IsUnbegun, SaysNames, TellsBegun, TellsHeadless};
ghost use Rattle.reg_c.specs.Events.{refusal_code};
ghost use Rattle.reg_c.specs.NodeCodes.{bad_names};
ghost use Rattle.reg_text.specs.Lines.{lines_of};
ghost use Rattle.reg_text.specs.Words.{names_text};

use crate::choosing::front_of;
use crate::codes::{NO_FRONT, NO_SHAPE};
use crate::events::code_of_refusal;
use crate::node_codes::BAD_NAMES;
use reg_base::limits::MOST_REGISTERS;
use reg_base::{Names, Shape};
use reg_commands::fill;
use reg_front::Front;
use reg_node::{LogId, begin_log, is_headless};
use reg_process::ProcessFault;
use reg_text::{Lines, TextFault, Why, read_names};
use std::alloc::{AllocError, Global};

/// Which log it is, and what its cluster is like.
#[repr(C)]
#[derive(Clone, Copy)]
pub struct LogRow {
    /// The same in all logs of a cluster, and in no other's.
    pub cluster: u64,
    /// The chapter, from 0.
    pub chapter: u64,
    /// Drawn anew for each log that is begun.
    pub begun: u64,
    /// 0, 1 and 2 are the front ends linear, local-read and local-write.
    pub front: u32,
    /// How many processes the cluster has.
    pub processes: u32,
    /// The process whose log it is.
    pub process: u8,
}

/// The log that these numbers say.
fn log_id(cluster: u64, process: u8, chapter: u64, begun: u64) -> LogId
    ensures same { result ≡ record { cluster = cluster; process = process; chapter = chapter; begun = begun } }
    ensures within { (cluster < 2 ^ 64) × (chapter < 2 ^ 64) × (begun < 2 ^ 64) }
{
    LogId {
        cluster,
        process,
        chapter,
        begun,
    }
}

/// The line of the names.
fn registers_line(alloc: Global, text: &[u8]) -> Result<Vec<u8>, AllocError>
    ensures { IfOk result (λ v. v.items ≡ codes "registers " ++ text.now) }
{
    let mut line = Vec::from_slice(alloc, b"registers ")?;
    line.extend_from_slice(text)?;
    Ok(line)
}

/// The names of this line, which is the only one.
fn names_of(alloc: Global, line: &[u8]) -> Result<Names, TextFault>
    ensures read { IfOk result
        (λ n. (lines_of line.now ≡ (codes "registers" ++ names_text n) ∷ []) × (names_fault n ≡ None)) }
    ensures whole { (names : List (List ℕ)) → names_fault names ≡ None
        → lines_of line.now ≡ (codes "registers" ++ names_text names) ∷ []
        → MatchResult result (λ n. n ≡ names) (λ f. f ≡ TextFault.OutOfMemory) }
{
    let mut lines = Lines::new(line);
    let names = match read_names(alloc, &mut lines, MOST_REGISTERS) {
        Ok(names) => names,
        Err(fault) => return Err(fault),
    };
    match lines.next() {
        Some(_) => Err(lines.fault(Why::Range)),
        None => Ok(names),
    }
}

/// The names that the text has, one space between them.
pub(crate) fn names_in(alloc: Global, text: &[u8]) -> Result<Names, u32>
    ensures read { IfOk result (λ n. SaysNames text.now n × (names_fault n ≡ None)) }
    ensures why { IfErr result
        (λ code.
        ((code ≡ bad_names) × ((names : List (List ℕ)) → names_fault names ≡ None → ¬ SaysNames text.now names))
        ⊎ (code ≡ refusal_code ProcessFault.OutOfMemory)) }
{
    let Ok(line) = registers_line(alloc, text) else {
        return Err(code_of_refusal(ProcessFault::OutOfMemory));
    };
    match names_of(alloc, &line) {
        Ok(names) => Ok(names),
        Err(TextFault::Line { .. }) => Err(BAD_NAMES),
        Err(TextFault::OutOfMemory) => Err(code_of_refusal(ProcessFault::OutOfMemory)),
    }
}

/// A shape of so many processes, which has this one, with a register for each name.
pub(crate) fn shape_of_names(processes: u32, process: u8, names: &Names) -> Result<Shape, u32>
    ensures made { IfOk result
        (λ s. (s ≡ record { processes = processes; registers = length names.now }) × (0 < processes)
        × (processes ≤ MOST_PROCESSES) × (process < processes)) }
    ensures why { IfErr result (IsMisplaced processes process (length names.now)) }
{
    let Ok(shape) = Shape::new(processes, names.count() as u32) else {
        return Err(NO_SHAPE);
    };
    if u32::from(process) >= processes {
        return Err(code_of_refusal(ProcessFault::NoProcess));
    }
    Ok(shape)
}

/// The log with no entries that these numbers and names say.
fn begin(alloc: Global, row: &LogRow, text: &[u8]) -> Result<Vec<u8>, u32>
    ensures begun { IfOk result (λ v. BeginsLog row.now text.now v.items) }
    ensures why { IfErr result (λ code. (0 < code) × IsUnbegun row.now text.now code) }
{
    let Some(front) = front_of(row.front) else {
        return Err(NO_FRONT);
    };
    let names = names_in(alloc, text)?;
    let shape = shape_of_names(row.processes, row.process, &names)?;
    let id = log_id(row.cluster, row.process, row.chapter, row.begun);
    match begin_log(alloc, id, front, shape, &names) {
        Ok((bytes, _)) => Ok(bytes),
        Err(_) => Err(code_of_refusal(ProcessFault::OutOfMemory)),
    }
}

/// Puts as many bytes of the log with no entries that the row and the names say into the room as it takes, and tells
/// how many there are. The names have one space between them. If the result isn't 0, nothing has changed.
#[unsafe(no_mangle)]
pub extern "C" fn tellwydar_node_begin(
    alloc: Global,
    row: &LogRow,
    names: &[u8],
    room: &mut [u8],
    length: &mut usize,
) -> u32
    ensures { TellsBegun row.now names.now result room.old room.new length.old length.new }
{
    match begin(alloc, row, names) {
        Ok(bytes) => {
            fill(room, &bytes);
            *length = bytes.len();
            0
        }
        Err(code) => code,
    }
}

/// Puts into `headless` 1 where the text is of a log that the row says and that never began, else 0. That is a first
/// part of its lines up to its chapter, with zeros behind it or none, or all of these lines with fewer than five lines
/// behind them. Of the row the cluster, the chapter and the process are looked at. If the result isn't 0, there was no
/// memory, and nothing has changed.
#[unsafe(no_mangle)]
pub extern "C" fn tellwydar_node_is_headless(
    alloc: Global,
    row: &LogRow,
    text: &[u8],
    headless: &mut u32,
) -> u32
    ensures { TellsHeadless row.now text.now result headless.old headless.new }
{
    let LogRow {
        cluster,
        chapter,
        begun,
        process,
        ..
    } = *row;
    match is_headless(alloc, text, log_id(cluster, process, chapter, begun)) {
        Ok(answer) => {
            *headless = u32::from(answer);
            0
        }
        Err(_) => code_of_refusal(ProcessFault::OutOfMemory),
    }
}
