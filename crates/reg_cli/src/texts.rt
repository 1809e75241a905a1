//! The commands over texts, with one allocator.
ghost use Rattle.std.specs.Prelude.{◌≡◌, ◌≢◌, ◌≤◌, ◌⊎◌, IfSome, true, false, length};
ghost use Rattle.std.specs.Io.KnownBytes.{Appends};
ghost use Rattle.reg_base.specs.declared.limits.TheConstants.{LONGEST_INPUT};
ghost use Rattle.reg_text.specs.Writing.{AppendsPart};
ghost use Rattle.reg_commands.specs.Answers.{Answers, AnswersInPart, Blames};
ghost use Rattle.reg_commands.specs.FaultLines.{fault_line};
ghost use Rattle.reg_commands.specs.declared.faults.Fault.{Fault as AnyFault};

use reg_commands::{Command, Fault, OverText, run_command};
use std::alloc::Global;
use std::io::{Read, Write};

/// Runs a command: it reads the whole input, and writes once all of it is accepted. The answer is the status: 0, or 1
/// where the answer is a no or something was refused, in the second case with the line of the fault on `errors`, or a
/// first part of it.
pub fn run_text<R: Read, W: Write, E: Write>(
    alloc: Global,
    command: Command,
    reader: &mut R,
    writer: &mut W,
    errors: &mut E,
) -> u8
    ensures range { result ≤ 1 }
    ensures within { result ≡ 0 → IfSome (R.remaining reader.old) (λ xs. length xs ≤ LONGEST_INPUT) }
    ensures answered { result ≡ 0
        → IfSome (R.remaining reader.old)
        (Answers command true (Appends (W.contents writer.old) (W.contents writer.new))) }
    ensures refused { result ≡ 1
        → ((command ≡ Command.Check)
        × IfSome (R.remaining reader.old)
        (Answers command false (Appends (W.contents writer.old) (W.contents writer.new)))
        × (errors.new ≡ errors.old))
        ⊎ ((f : AnyFault) × IfSome (R.remaining reader.old) (Blames command f)
        × (f ≢ Fault.Output → writer.new ≡ writer.old)
        × (f ≡ Fault.Output
        → IfSome (R.remaining reader.old) (AnswersInPart command (W.contents writer.old) (W.contents writer.new)))
        × AppendsPart (E.contents errors.old) (E.contents errors.new) (fault_line f)) }
    ensures quiet { result ≡ 0 → errors.new ≡ errors.old }
{
    let global = alloc;
    let command = OverText { command, global };
    run_command(command, alloc, reader, writer, errors)
}
