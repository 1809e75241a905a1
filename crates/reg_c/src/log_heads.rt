//! What the head of a log says, over memory that the caller lends, and how long a log is up to an entry.
ghost use Rattle.std.specs.Prelude.{◌≡◌, ◌≤◌, Some, length, IfErr, IfOk};
ghost use Rattle.reg_node.specs.LogHeads.{BeginsWith, first_entries};
ghost use Rattle.reg_node.specs.LogTexts.{IsJournal, Journal, log_text};
ghost use Rattle.reg_node.specs.Messages.{spaced};
ghost use Rattle.reg_c.specs.Fronts.{front_at};
ghost use Rattle.reg_c.specs.LogHeads.{IsUntold, SaysHead, SaysLog, TellsHead};

use crate::beginning::LogRow;
use crate::events::code_of_refusal;
use crate::node_codes::refusal_of_log;
use reg_base::Names;
use reg_commands::fill;
use reg_front::Front;
use reg_node::{Head, first_part, names_line, read_head};
use reg_process::ProcessFault;
use std::alloc::{AllocError, Global};

/// How many bytes stand before the first name in the line of the names.
const BEFORE_NAMES: usize = 10;

/// The number of a front end.
fn number_of(front: Front) -> u32
    ensures { front_at result ≡ Some front }
{
    match front {
        Front::Linear => 0,
        Front::LocalRead => 1,
        Front::LocalWrite => 2,
    }
}

/// The numbers of a head.
fn row_of(head: &Head) -> LogRow
    ensures { SaysLog head.now result }
{
    LogRow {
        cluster: head.id.cluster,
        chapter: head.id.chapter,
        begun: head.id.begun,
        front: number_of(head.front),
        processes: head.shape.processes(),
        process: head.id.process,
    }
}

/// The names, one space between them.
fn spaced_names(alloc: Global, names: &Names) -> Result<Vec<u8>, AllocError>
    ensures { IfOk result (λ v. v.items ≡ spaced names.now) }
{
    let line = names_line(alloc, names)?;
    let bytes = line.as_bytes();
    Vec::from_slice(alloc, &bytes[BEFORE_NAMES.min(bytes.len())..])
}

/// The numbers and the names of the head that the text begins with.
fn told_head(alloc: Global, text: &[u8]) -> Result<(LogRow, Vec<u8>), u32>
    ensures says { IfOk result (λ t. SaysHead text.now t.0 t.1.items) }
    ensures why { IfErr result (IsUntold text.now) }
{
    let head = match read_head(alloc, text) {
        Ok(head) => head,
        Err(fault) => return Err(refusal_of_log(fault).code),
    };
    match spaced_names(alloc, &head.names) {
        Ok(names) => Ok((row_of(&head), names)),
        Err(_) => Err(code_of_refusal(ProcessFault::OutOfMemory)),
    }
}

/// Puts what the head of the log says that the text begins with into the row, and as many bytes of its names into the
/// room as it takes, and tells how many they are. The names have one space between them. What stands behind the head
/// isn't looked at. If the result isn't 0, nothing has changed.
#[unsafe(no_mangle)]
pub extern "C" fn tellwydar_log_head(
    alloc: Global,
    text: &[u8],
    row: &mut LogRow,
    room: &mut [u8],
    length: &mut usize,
) -> u32
    ensures { TellsHead text.now result row.old row.new room.old room.new length.old length.new }
{
    match told_head(alloc, text) {
        Ok((head, names)) => {
            *row = head;
            fill(room, &names);
            *length = names.len();
            0
        }
        Err(code) => code,
    }
}

/// How many bytes the head and the first entries, so many, of the log take that the text begins with, where it has as
/// many. Of other texts it is told only that they have so many bytes.
#[unsafe(no_mangle)]
pub extern "C" fn tellwydar_log_part(text: &[u8], entries: u64) -> usize
    ensures within { result ≤ length text.now }
    ensures part { (j : Journal) → IsJournal j → BeginsWith text.now j → entries ≤ length j.entries
        → result ≡ length (log_text (first_entries j entries)) }
{
    first_part(text, entries).len()
}
