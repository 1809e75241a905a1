//! The words of a command line, and how it is told that they ask for nothing.
ghost use Rattle.std.specs.Prelude.{◌≡◌};
ghost use Rattle.reg_text.specs.Writing.{AppendsPart, IsWritten};
ghost use Rattle.reg_cli.specs.Faults.{status_of, words_line};

use crate::faults::WordsFault;
use reg_text::{Unwritten, write_bytes};
use std::env;
use std::io::{ErrorKind, Write};
use std::rt::Env;

/// The words of the command line, which no clause names.
///
/// # Errors
///
/// `OutOfMemory` where memory was refused, and else `CommandLine`. No clause says so.
pub fn words_of<R: AllocGlobal + Env>(rt: &R) -> Result<Vec<String>, WordsFault> {
    match env::args(rt) {
        Ok(args) => args
            .collect(rt.alloc())
            .map_err(|_| WordsFault::OutOfMemory),
        Err(error) if error.kind() == ErrorKind::OutOfMemory => Err(WordsFault::OutOfMemory),
        Err(_) => Err(WordsFault::CommandLine),
    }
}

/// Writes the line of a fault, all of it or, where the writer fails, a first part.
fn write_line<W: Write>(errors: &mut W, fault: WordsFault, refused: &[u8]) -> Result<(), Unwritten>
    ensures { IsWritten result (W.contents errors.old) (W.contents errors.new) (words_line refused.now fault) }
{
    match fault {
        WordsFault::CommandLine => write_bytes(errors, refused),
        WordsFault::OutOfMemory => write_bytes(errors, b"out of memory\n"),
    }
}

/// Tells why the words ask for nothing, and gives the status. A line that is refused is told by `refused`, which has
/// its line feed. Where `errors` fails, a first part of the line went out, and the status is the same.
pub fn tell<W: Write>(fault: WordsFault, refused: &[u8], errors: &mut W) -> u8
    ensures status { result ≡ status_of fault }
    ensures told { AppendsPart (W.contents errors.old) (W.contents errors.new) (words_line refused.now fault) }
{
    let _ = write_line(errors, fault, refused);
    fault.status()
}
