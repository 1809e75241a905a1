//! Why a command gives no answer, as the line that tells it.
ghost use Rattle.std.specs.Prelude.{◌≡◌, ℕ, List};
ghost use Rattle.reg_text.specs.Writing.{IsWritten};
ghost use Rattle.reg_commands.specs.declared.faults.Fault.{Fault as AnyFault};
ghost use Rattle.reg_commands.specs.declared.faults.Fault.TheVariants.{Output};

use crate::faults::Fault;
use reg_text::Unwritten;
use std::io::Write;

/// Why a command gives no answer: one of the faults that all commands tell, or one of its own.
pub trait Refusal: Copy + From<Fault> {
    /// Its line on the error stream, with its line feed.
    ghost line: { Self → List ℕ };

    /// A fault that all commands tell, told by this one.
    ghost of_fault: { AnyFault → Self };

    /// Writes its line, all of it or, where the writer fails, a first part.
    fn write_line<W: Write>(self, errors: &mut W) -> Result<(), Unwritten>
        ensures { IsWritten result (W.contents errors.old) (W.contents errors.new) (line self) };

    /// A fault is made what tells it.
    ghost is_told: { (fault : AnyFault) (told : Self) → Self.from_gives fault told → told ≡ of_fault fault };

    /// What tells that the output failed tells of no other fault.
    ghost tells_output: { (fault : AnyFault) → of_fault fault ≡ of_fault Output → fault ≡ Output };
}
