//! The text of a record, written.
ghost use Rattle.std.specs.Prelude.{◌≡◌, ◌∷◌, ◌++◌, [], IfErr, IfOk, OnOk};
ghost use Rattle.reg_node.specs.LineFaults.{IsRecordFault};
ghost use Rattle.reg_node.specs.RecordLines.{account_text, head_lines};
ghost use Rattle.reg_text.specs.Lines.{text_of};

use crate::transcripts::beginning::names_line;
use crate::transcripts::record_text::Record;
use crate::transcripts::writing::{LineFault, recorded_line};
use reg_base::{Names, Shape};
use reg_front::Front;
use std::alloc::{AllocError, Allocator};

/// Adds a line with its line feed.
fn add_line<A: Allocator + Copy>(text: &mut Vec<u8, A>, line: &[u8]) -> Result<(), AllocError>
    ensures { OnOk result (text.new.items ≡ text.old.items ++ (line.now ++ 10 ∷ [])) }
{
    text.extend_from_slice(line)?;
    text.push(b'\n')?;
    Ok(())
}

/// The header lines of a record.
fn head_text<A: Allocator + Copy>(
    alloc: A,
    front: Front,
    shape: Shape,
    names: &Names<A>,
) -> Result<Vec<u8, A>, AllocError>
    ensures { IfOk result (λ v. v.items ≡ text_of (head_lines front shape.processes names.now [])) }
{
    let front = front.name();
    let processes = shape.processes();
    let front = format!(in alloc; "front {front}")?;
    let processes = format!(in alloc; "processes {processes}")?;
    let registers = names_line(alloc, names)?;
    let mut text = Vec::new(alloc);
    add_line(&mut text, b"tellwydar record 1")?;
    add_line(&mut text, front.as_bytes())?;
    add_line(&mut text, processes.as_bytes())?;
    add_line(&mut text, registers.as_bytes())?;
    Ok(text)
}

/// The text of a record.
///
/// # Errors
///
/// `Unfit`: a step has no line.
pub fn text_of_record<A: Allocator + Copy>(
    alloc: A,
    account: &Record<A>,
) -> Result<Vec<u8, A>, LineFault>
    ensures text { IfOk result (λ v. v.items ≡ account_text account.now) }
    ensures fault { IfErr result (IsRecordFault account.now) }
{
    let mut text = head_text(alloc, account.front, account.shape, &account.names)?;
    for step in &account.steps {
        match recorded_line(alloc, &account.names, step) {
            Ok(line) => add_line(&mut text, line.as_bytes())?,
            Err(fault) => return Err(fault),
        }
    }
    Ok(text)
}
