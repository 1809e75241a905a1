//! Writing an answer that is made.
ghost use Rattle.reg_text.specs.Writing.{IsWrittenOr};

use crate::faults::Fault;
use reg_text::write_bytes;
use std::io::Write;

/// Writes an answer, to the last byte.
///
/// # Errors
///
/// `Output` where the writer failed, and then a first part of the answer went out.
pub fn write_answer<W: Write>(writer: &mut W, answer: &[u8]) -> Result<(), Fault>
    ensures { IsWrittenOr Fault.Output result (W.contents writer.old) (W.contents writer.new) answer.now }
{
    if write_bytes(writer, answer).is_err() || writer.flush().is_err() {
        return Err(Fault::Output);
    }
    Ok(())
}
