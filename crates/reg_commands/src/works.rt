//! Commands over workloads, and over the documents that say them.
ghost use Rattle.std.specs.Prelude.{◌≡◌, ◌≢◌, ℕ, List, ⊤, false, IfOk, IfErr, IsErrOf};
ghost use Rattle.std.specs.Io.KnownBytes.{Appends};
ghost use Rattle.reg_text.specs.Writing.{AppendsPart};
ghost use Rattle.reg_inputs.specs.Loads.{Load};
ghost use Rattle.reg_commands.specs.declared.command.Command.TheVariants.{Play};
ghost use Rattle.reg_commands.specs.declared.faults.Fault.TheVariants.{Output};
ghost use Rattle.reg_commands.specs.Works.{BlamesDocument, OfDocument as IsOfDocument};

use crate::playing::read_workload;
use crate::refusal::Refusal;
use crate::shell::TextCommand;
use reg_workload::Workload;
use std::alloc::{Allocator, Global};
use std::io::Write;

/// A command that shows something of a workload.
pub trait WorkCommand: Copy {
    /// Why nothing is shown.
    type Fault: Refusal;

    /// What its caller sees to: by default nothing.
    ghost IsReady: { Self → Type 0 } = { λ _. ⊤ };

    /// What was written of the workload: the second argument says how a text was.
    ghost IsShown: { Self → (List ℕ → Type 0) → Load → Type 0 };

    /// Why nothing is shown of the workload.
    ghost IsStopped: { Self → Self.Fault → Load → Type 0 };

    /// Shows something of a workload. It writes once what is to be shown is made.
    ///
    /// # Errors
    ///
    /// Why nothing is shown, among it that the output failed, and then a first part went out.
    fn show<A: Allocator + Copy, W: Write>(
        self,
        alloc: A,
        work: Workload<A>,
        writer: &mut W,
    ) -> Result<(), Self::Fault>
        requires { IsReady self }
        ensures ok { IfOk result (λ _. IsShown self (Appends (W.contents writer.old) (W.contents writer.new)) work) }
        ensures why { IfErr result (λ f. IsStopped self f work) }
        ensures silent { IfErr result (λ f. f ≢ Self.Fault.of_fault Output → writer.new ≡ writer.old) }
        ensures part { IsErrOf result (Self.Fault.of_fault Output)
            → IsShown self (AppendsPart (W.contents writer.old) (W.contents writer.new)) work };
}

/// A command over the workload that a document says. The table of the document is kept in the global heap, where `toml`
/// keeps it.
#[derive(Clone, Copy, Debug)]
pub struct OfDocument<C> {
    pub command: C,
    pub global: Global,
}

impl<C: WorkCommand> TextCommand for OfDocument<C> {
    ghost use Rattle.std.specs.Prelude.{refl};
    ghost use Rattle.std.proofs.Common.{inl};

    type Fault = C::Fault;

    ghost IsReady = { λ it. C.IsReady it.command };

    ghost IsAnswer = { λ it _. IsOfDocument (C.IsShown it.command) };

    ghost IsBlamed = { λ it. BlamesDocument C.Fault.of_fault (C.IsStopped it.command) };

    fn answer<A: Allocator + Copy, W: Write>(
        self,
        alloc: A,
        text: String<A>,
        writer: &mut W,
    ) -> Result<bool, C::Fault> {
        let work = read_workload(alloc, self.global, text.as_str())?;
        match self.command.show(alloc, work, writer) {
            Ok(()) => Ok(true),
            Err(fault) => Err(fault),
        }
    }

    ghost blames_input = { λ _ fault _ _ blamed. inl (fault, refl, blamed (Play false)) };
}
