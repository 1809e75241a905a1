//! What all commands share that answer the text on their input: it is read whole, answered on a writer, and the status
//! tells whether that was done.
ghost use Rattle.std.specs.Prelude.{◌≡◌, ◌≢◌, ◌≤◌, ℕ, Bool, List, Ok, ⊤, true, false, IfOk, IfErr, IfSome, IsErrOf};
ghost use Rattle.std.specs.Prelude.{OnOk, length, string_bytes};
ghost use Rattle.std.specs.Io.KnownBytes.{Appends};
ghost use Rattle.reg_base.specs.declared.limits.TheConstants.{LONGEST_INPUT};
ghost use Rattle.reg_text.specs.Writing.{AppendsPart};
ghost use Rattle.reg_commands.specs.Answers.{Blames};
ghost use Rattle.reg_commands.specs.Statuses.{CanTell, IsEither, Stops};
ghost use Rattle.reg_commands.specs.declared.command.Command.{Command as AnyCommand};
ghost use Rattle.reg_commands.specs.declared.faults.Fault.{Fault as AnyFault};
ghost use Rattle.reg_commands.specs.declared.faults.Fault.TheVariants.{Output};

use crate::input::read_input;
use crate::refusal::Refusal;
use std::alloc::Allocator;
use std::io::{Read, Write};

/// A command that answers a text.
pub trait TextCommand: Copy {
    /// Why a text gets no answer.
    type Fault: Refusal;

    /// What its caller sees to: by default nothing.
    ghost IsReady: { Self → Type 0 } = { λ _. ⊤ };

    /// Its answer may be a no: by default it never is.
    ghost MayDeny: { Self → Type 0 } = { λ _. ⊥ };

    /// What the text is, whether its answer is a yes, and what of it was written: the third argument says how a text
    /// was.
    ghost IsAnswer: { Self → Bool → (List ℕ → Type 0) → List ℕ → Type 0 };

    /// What a fault says of the text.
    ghost IsBlamed: { Self → Self.Fault → List ℕ → Type 0 };

    /// Answers a text: whether the answer is a yes. It writes once all of the text is accepted, and the answer is made.
    ///
    /// # Errors
    ///
    /// What the text is refused for; that the output failed, and then a first part of the answer went out; and that
    /// memory was refused.
    fn answer<A: Allocator + Copy, W: Write>(
        self,
        alloc: A,
        text: String<A>,
        writer: &mut W,
    ) -> Result<bool, Self::Fault>
        requires { IsReady self }
        ensures ok { IfOk result
            (λ agrees. IsAnswer self agrees (Appends (W.contents writer.old) (W.contents writer.new))
            (string_bytes text)) }
        ensures no { result ≡ Ok false → MayDeny self }
        ensures why { IfErr result (λ f. IsBlamed self f (string_bytes text)) }
        ensures silent { IfErr result (λ f. f ≢ Self.Fault.of_fault Output → writer.new ≡ writer.old) }
        ensures part { IsErrOf result (Self.Fault.of_fault Output)
            → IsEither (IsAnswer self) (AppendsPart (W.contents writer.old) (W.contents writer.new))
            (string_bytes text) };

    /// What all commands tell of their input by a fault, this one tells too: that it can't be read, is too long or is
    /// no text, or that there is no memory.
    ghost blames_input: { (it : Self) (fault : AnyFault) (text : List ℕ) → fault ≢ Output
        → ((command : AnyCommand) → Blames command fault text) → IsBlamed it (Self.Fault.of_fault fault) text };
}

/// Reads the whole input, and answers it.
fn obey<C: TextCommand, A: Allocator + Copy, R: Read, W: Write>(
    command: C,
    alloc: A,
    reader: &mut R,
    writer: &mut W,
) -> Result<bool, C::Fault>
    requires { C.IsReady command }
    ensures ok { IfOk result
        (λ agrees. IfSome (R.remaining reader.old)
        (C.IsAnswer command agrees (Appends (W.contents writer.old) (W.contents writer.new)))) }
    ensures no { result ≡ Ok false → C.MayDeny command }
    ensures within { OnOk result (IfSome (R.remaining reader.old) (λ xs. length xs ≤ LONGEST_INPUT)) }
    ensures kind { IfErr result (CanTell C.Fault.of_fault (C.IsBlamed command)) }
    ensures why { IfErr result (λ f. IfSome (R.remaining reader.old) (C.IsBlamed command f)) }
    ensures silent { IfErr result (λ f. f ≢ C.Fault.of_fault Output → writer.new ≡ writer.old) }
    ensures part { IsErrOf result (C.Fault.of_fault Output)
        → IfSome (R.remaining reader.old)
        (IsEither (C.IsAnswer command) (AppendsPart (W.contents writer.old) (W.contents writer.new))) }
{
    let text = read_input(alloc, reader)?;
    command.answer(alloc, text, writer)
}

/// Runs a command over the text on the reader: it reads the whole input, and answers it on the writer. The answer is
/// the status: 0 where it is a yes, or 1: where it is a no; where something was refused, with the line of the fault on
/// `errors` or a first part of it; or where the writer failed, and then a first part of the answer went out.
pub fn run_command<C: TextCommand, A: Allocator + Copy, R: Read, W: Write, E: Write>(
    command: C,
    alloc: A,
    reader: &mut R,
    writer: &mut W,
    errors: &mut E,
) -> u8
    requires { C.IsReady command }
    ensures range { result ≤ 1 }
    ensures within { result ≡ 0 → IfSome (R.remaining reader.old) (λ xs. length xs ≤ LONGEST_INPUT) }
    ensures answered { result ≡ 0
        → IfSome (R.remaining reader.old)
        (C.IsAnswer command true (Appends (W.contents writer.old) (W.contents writer.new))) }
    ensures stopped { result ≡ 1
        → Stops (C.MayDeny command) C.Fault.of_fault C.Fault.line (C.IsBlamed command) (C.IsAnswer command)
        (R.remaining reader.old) (writer.new ≡ writer.old) (W.contents writer.old) (W.contents writer.new)
        (errors.new ≡ errors.old) (E.contents errors.old) (E.contents errors.new) }
    ensures quiet { result ≡ 0 → errors.new ≡ errors.old }
{
    match obey(command, alloc, reader, writer) {
        Ok(true) => 0,
        Ok(false) => 1,
        Err(fault) => {
            let _ = fault.write_line(errors);
            1
        }
    }
}
