//! Why a record has no report.
ghost use Rattle.std.specs.Prelude.{◌++◌, ◌∷◌, [], codes};
ghost use Rattle.std.specs.Fmt.{decimal};
ghost use Rattle.reg_text.specs.Writing.{Puts, IsWritten};
ghost use Rattle.reg_verify.specs.Verifies.{verify_line};

use reg_commands::{Fault, Refusal};
use reg_text::{Sink, Unwritten, put_number};
use std::alloc::AllocError;
use std::io::Write;
use thiserror::Error;

/// Why a record has no report. Its text is its line on standard error.
#[derive(Clone, Copy, Debug, PartialEq, Eq, Error)]
pub enum VerifyFault {
    /// The input is refused, the output failed, or there was no memory.
    #[error("{fault}")]
    Command { fault: Fault },
    /// The step on this line, counted from 1, is the first that its process does not make in a run of those before it,
    /// or makes with another reply.
    #[error("line {line}: unfaithful")]
    Unfaithful { line: u64 },
}

impl From<Fault> for VerifyFault {
    ghost use Rattle.std.specs.Prelude.{◌≡◌};
    ghost use Rattle.reg_verify.specs.declared.faults.VerifyFault.TheVariants.{Command};

    ghost from_gives = { λ fault told. told ≡ Command fault };

    fn from(fault: Fault) -> VerifyFault {
        Self::Command { fault }
    }
}

impl From<AllocError> for VerifyFault {
    ghost use Rattle.std.specs.Prelude.{◌≡◌};
    ghost use Rattle.reg_commands.specs.declared.faults.Fault.TheVariants.{OutOfMemory};
    ghost use Rattle.reg_verify.specs.declared.faults.VerifyFault.TheVariants.{Command};

    ghost from_gives = { λ _ told. told ≡ Command OutOfMemory };

    fn from(_error: AllocError) -> VerifyFault {
        Self::Command {
            fault: Fault::OutOfMemory,
        }
    }
}

/// Puts the line of an unfaithful step.
fn put_unfaithful<W: Write>(sink: &mut Sink<'_, W>, line: u64)
    ensures { Puts W.contents sink.old sink.new (codes "line " ++ decimal line ++ (codes ": unfaithful" ++ 10 ∷ [])) }
{
    put_number(sink, "line ", line);
    sink.put(b": unfaithful\n");
}

/// Writes the line of an unfaithful step, all of it or, where the writer fails, a first part.
fn write_unfaithful<W: Write>(errors: &mut W, line: u64) -> Result<(), Unwritten>
    ensures { IsWritten result (W.contents errors.old) (W.contents errors.new)
        (verify_line (VerifyFault.Unfaithful line)) }
{
    let mut sink = Sink::new(errors);
    put_unfaithful(&mut sink, line);
    sink.finish()
}

impl Refusal for VerifyFault {
    ghost use Rattle.reg_verify.specs.Verifies.{verify_line};
    ghost use Rattle.reg_verify.specs.declared.faults.VerifyFault.TheVariants.{Command};

    ghost line = { verify_line };

    ghost of_fault = { λ fault. Command fault };

    fn write_line<W: Write>(self, errors: &mut W) -> Result<(), Unwritten> {
        match self {
            VerifyFault::Command { fault } => fault.write_line(errors),
            VerifyFault::Unfaithful { line } => write_unfaithful(errors, line),
        }
    }

    ghost is_told = { λ _ _ same. same };

    ghost tells_output = { λ _ same. cc };
}
