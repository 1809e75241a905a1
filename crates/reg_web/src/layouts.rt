//! The commands over workloads that are in their layout, and the one that puts a workload into its layout. The kit's
//! reader of documents allocates by the C library's heap alone, which a page doesn't have.
ghost use Rattle.std.specs.Prelude.{◌≡◌, IfOk, IfErr};
ghost use Rattle.reg_commands.specs.Plays.{Holds};
ghost use Rattle.reg_inputs.specs.Loads.{IsLoad, Load};
ghost use Rattle.reg_commands.specs.Layout.{load_text};
ghost use Rattle.reg_web.specs.Layouts.{IsLayoutFault};

use reg_commands::{
    Fault, TextCommand, WorkCommand, guess_workload, lay_out, play_workload, read_layout,
    write_answer, write_out,
};
use reg_inputs::{Workload, WorkloadFault};
use std::alloc::Allocator;
use std::io::Write;

/// A fault of a workload as the commands tell it.
fn fault_of(fault: WorkloadFault) -> Fault
    ensures { IsLayoutFault result }
{
    match fault {
        WorkloadFault::OutOfMemory => Fault::OutOfMemory,
        fault => Fault::Workload { fault },
    }
}

/// The workload that a text in its layout says.
fn laid_out<A: Allocator + Copy>(alloc: A, text: &str) -> Result<Workload<A>, Fault>
    ensures read { IfOk result (λ w. Holds text.now w) }
    ensures why { IfErr result IsLayoutFault }
{
    match read_layout(alloc, text) {
        Ok(work) => Ok(work),
        Err(fault) => Err(fault_of(fault)),
    }
}

/// A command over the workload that a text in its layout says. Of a text that is in none no clause says why.
#[derive(Clone, Copy)]
pub(crate) struct InLayout<C> {
    pub command: C,
}

impl<C: WorkCommand> TextCommand for InLayout<C> {
    ghost use Rattle.std.specs.Prelude.{refl, false};
    ghost use Rattle.std.proofs.Common.{inl};
    ghost use Rattle.reg_commands.specs.Works.{OfDocument};
    ghost use Rattle.reg_commands.specs.declared.command.Command.TheVariants.{Play as PlayCommand};
    ghost use Rattle.reg_web.specs.Layouts.{BlamesLayout};

    type Fault = C::Fault;

    ghost IsReady = { λ it. C.IsReady it.command };

    ghost IsAnswer = { λ it _. OfDocument (C.IsShown it.command) };

    ghost IsBlamed = { λ it. BlamesLayout C.Fault.of_fault (C.IsStopped it.command) };

    fn answer<A: Allocator + Copy, W: Write>(
        self,
        alloc: A,
        text: String<A>,
        writer: &mut W,
    ) -> Result<bool, C::Fault> {
        let work = laid_out(alloc, text.as_str())?;
        match self.command.show(alloc, work, writer) {
            Ok(()) => Ok(true),
            Err(fault) => Err(fault),
        }
    }

    ghost blames_input = { λ _ fault _ _ blamed. inl (fault, refl, inl (blamed (PlayCommand false))) };
}

/// Plays a workload, fairly or as the words of its seed say, and writes the report of the play.
#[derive(Clone, Copy)]
pub(crate) struct Play {
    pub fair: bool,
}

impl WorkCommand for Play {
    ghost use Rattle.reg_web.specs.Layouts.{ShowsReport, StopsReport};

    type Fault = Fault;

    ghost IsShown = { λ it. ShowsReport it.fair };

    ghost IsStopped = { λ _ fault _. StopsReport fault };

    fn show<A: Allocator + Copy, W: Write>(
        self,
        alloc: A,
        work: Workload<A>,
        writer: &mut W,
    ) -> Result<(), Fault> {
        let report = play_workload(alloc, work, self.fair)?;
        write_out(writer, &report)
    }
}

/// The layout of the workload that a text seems to say.
fn layout_of<A: Allocator + Copy>(alloc: A, text: &str) -> Result<Vec<u8, A>, Fault>
    ensures made { IfOk result (λ v. (work : Load) × IsLoad work × (v.items ≡ load_text work)) }
    ensures why { IfErr result IsLayoutFault }
{
    let work = match guess_workload(alloc, text) {
        Ok(work) => work,
        Err(fault) => return Err(fault_of(fault)),
    };
    Ok(lay_out(alloc, &work)?)
}

/// Puts the workload that a text seems to say into its layout.
#[derive(Clone, Copy)]
pub(crate) struct LayOut;

impl TextCommand for LayOut {
    ghost use Rattle.std.specs.Prelude.{false};
    ghost use Rattle.std.proofs.Common.{inl};
    ghost use Rattle.reg_commands.specs.declared.command.Command.TheVariants.{Play as PlayCommand};
    ghost use Rattle.reg_web.specs.Layouts.{BlamesGuess, LaysOut};

    type Fault = Fault;

    ghost IsAnswer = { λ _ _. LaysOut };

    ghost IsBlamed = { λ _. BlamesGuess };

    fn answer<A: Allocator + Copy, W: Write>(
        self,
        alloc: A,
        text: String<A>,
        writer: &mut W,
    ) -> Result<bool, Fault> {
        let layout = layout_of(alloc, text.as_str())?;
        write_answer(writer, layout.as_slice())?;
        Ok(true)
    }

    ghost blames_input = { λ _ _ _ _ blamed. inl (blamed (PlayCommand false)) };
}
