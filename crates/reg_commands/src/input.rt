//! Reading the whole input as text.
ghost use Rattle.std.specs.Prelude.{◌≡◌, ◌≢◌, ◌≤◌, length, string_bytes, IfOk, IfErr, OnOk, IfSome};
ghost use Rattle.reg_base.specs.declared.limits.TheConstants.{LONGEST_INPUT};
ghost use Rattle.reg_commands.specs.Answers.{Blames};
ghost use Rattle.reg_commands.specs.declared.command.Command.{Command as AnyCommand};

use crate::faults::Fault;
use reg_base::limits::LONGEST_INPUT;
use std::alloc::Allocator;
use std::io::Read;

/// All that the reader has left, unless it is more than the limit. It stops at the first read that fails, at one that a
/// signal interrupted too.
fn read_all<A: Allocator, R: Read>(alloc: A, reader: &mut R) -> Result<Vec<u8, A>, Fault>
    ensures all { IfOk result (λ v. IfSome (R.remaining reader.old) (λ xs. v.items ≡ xs)) }
    ensures within { IfOk result (λ v. length v.items ≤ LONGEST_INPUT) }
    ensures why { IfErr result
        (λ f. IfSome (R.remaining reader.old) (λ xs. (command : AnyCommand) → Blames command f xs)) }
    ensures kind { IfErr result (λ f. f ≢ Fault.Output) }
{
    let mut bytes = Vec::new(alloc);
    let mut chunk = [0u8; 65536];
    for _ in 0..u64::MAX {
        match reader.read(&mut chunk) {
            Ok(0) => return Ok(bytes),
            Ok(count) => {
                if count > LONGEST_INPUT - bytes.len() {
                    return Err(Fault::TooLong);
                }
                match bytes.extend_from_slice(&chunk[..count]) {
                    Ok(()) => {}
                    Err(_) => return Err(Fault::OutOfMemory),
                }
            }
            Err(_) => return Err(Fault::Unread),
        }
    }
    Err(Fault::Unread)
}

/// The whole input as text.
///
/// # Errors
///
/// `Unread` where a read failed, for whatever cause, and then nothing more is read, which is only tested; `TooLong`,
/// `NotText` and `OutOfMemory`.
pub fn read_input<A: Allocator, R: Read>(alloc: A, reader: &mut R) -> Result<String<A>, Fault>
    ensures ok { IfOk result (λ s. IfSome (R.remaining reader.old) (λ xs. string_bytes s ≡ xs)) }
    ensures within { OnOk result (IfSome (R.remaining reader.old) (λ xs. length xs ≤ LONGEST_INPUT)) }
    ensures why { IfErr result
        (λ f. IfSome (R.remaining reader.old) (λ xs. (command : AnyCommand) → Blames command f xs)) }
    ensures kind { IfErr result (λ f. f ≢ Fault.Output) }
{
    let bytes = read_all(alloc, reader)?;
    match String::from_utf8(bytes) {
        Ok(text) => Ok(text),
        Err(_) => Err(Fault::NotText),
    }
}
