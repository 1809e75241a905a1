//! The head of a log, written.
ghost use Rattle.std.specs.Prelude.{◌≡◌, ◌++◌, codes, IfOk, string_bytes};
ghost use Rattle.reg_text.specs.Words.{names_text};
ghost use Rattle.reg_node.specs.Headless.{first_lines};
ghost use Rattle.reg_node.specs.LogTexts.{begun_with, log_lines};
ghost use Rattle.reg_node.specs.Seals.{IsSealed};

use crate::transcripts::logs::LogId;
use crate::transcripts::sealing::seal;
use crate::transcripts::seals::FIRST_CRC;
use reg_base::{Names, Shape};
use reg_front::Front;
use reg_text::name_at;
use std::alloc::{AllocError, Allocator};

/// The line of the names in a head.
pub fn names_line<A: Allocator + Copy>(alloc: A, names: &Names<A>) -> Result<String<A>, AllocError>
    ensures { IfOk result (λ s. string_bytes s ≡ codes "registers" ++ names_text names.now) }
{
    let mut line = String::from_str(alloc, "registers")?;
    for place in 0..names.count() {
        line.push_str(" ")?;
        line.push_str(name_at(names, place as u16))?;
    }
    Ok(line)
}

/// The lines of a log that say of which cluster, process and chapter it is, and the register behind them.
pub(crate) fn begin_first<A: Allocator + Copy>(
    alloc: A,
    id: LogId,
) -> Result<(Vec<u8, A>, u32), AllocError>
    ensures { IfOk result (λ p. IsSealed p.0.items p.1 (first_lines id)) }
{
    let LogId {
        cluster,
        process,
        chapter,
        ..
    } = id;
    let cluster = format!(in alloc; "cluster {cluster}")?;
    let process = format!(in alloc; "process {process}")?;
    let chapter = format!(in alloc; "chapter {chapter}")?;
    let mut bytes = Vec::new(alloc);
    let crc = seal(&mut bytes, FIRST_CRC, b"tellwydar log 1")?;
    let crc = seal(&mut bytes, crc, cluster.as_bytes())?;
    let crc = seal(&mut bytes, crc, process.as_bytes())?;
    let crc = seal(&mut bytes, crc, chapter.as_bytes())?;
    Ok((bytes, crc))
}

/// The text of a log with no entries, and the register behind it.
pub fn begin_log<A: Allocator + Copy>(
    alloc: A,
    id: LogId,
    front: Front,
    shape: Shape,
    names: &Names<A>,
) -> Result<(Vec<u8, A>, u32), AllocError>
    ensures { IfOk result (λ p. IsSealed p.0.items p.1 (log_lines (begun_with id front shape names.now))) }
{
    let begun = id.begun;
    let front = front.name();
    let processes = shape.processes();
    let begun = format!(in alloc; "begun {begun}")?;
    let front = format!(in alloc; "front {front}")?;
    let processes = format!(in alloc; "processes {processes}")?;
    let registers = names_line(alloc, names)?;
    let (mut bytes, crc) = begin_first(alloc, id)?;
    let crc = seal(&mut bytes, crc, begun.as_bytes())?;
    let crc = seal(&mut bytes, crc, b"tellwydar record 1")?;
    let crc = seal(&mut bytes, crc, front.as_bytes())?;
    let crc = seal(&mut bytes, crc, processes.as_bytes())?;
    let crc = seal(&mut bytes, crc, registers.as_bytes())?;
    Ok((bytes, crc))
}
