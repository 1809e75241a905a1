//! One process with its wires.
ghost use Rattle.std.specs.Prelude.{◌≡◌, ◌<◌, ◌≤◌, [], length, replicate, false, is_some, Ok, IfOk, OnOk, IfErr};
ghost use Rattle.std.specs.Prelude.{slice_get, slice_index_or};
ghost use Rattle.reg_process.specs.Parts.{state_of, first_parts};
ghost use Rattle.reg_process.specs.Sending.{puts_of};
ghost use Rattle.reg_frames.specs.declared.puts.Put.{Put};
ghost use Rattle.reg_base.specs.Order.{In};
ghost use Rattle.reg_world.specs.Sent.{sent};
ghost use Rattle.reg_base.specs.declared.limits.TheConstants.{MOST_PROCESSES};
ghost use Rattle.reg_world.specs.Members.{MayAct, Acts, listed};
ghost use Rattle.reg_world.specs.WorldParts.{first_standing};

use crate::putting::{put_again, put_sends};
use crate::slices::Wires;
use crate::stores::WireStore;
use reg_base::Shape;
use reg_frames::Frame;
use reg_front::FrontEnd;
use reg_process::{Brief, Effect, Process, ProcessFault, Sends, Step};
use std::alloc::{AllocError, Allocator, Global};
use std::marker::Model;

/// What a step did, but for its frames, which were put on their wires.
#[derive(Clone, Copy)]
pub(crate) struct StepEffect<'a, A: Allocator + Copy = Global> {
    /// What goes out of it.
    pub(crate) effect: &'a Effect<A>,
    /// Whether the process runs an operation after it.
    pub(crate) runs: bool,
}

/// One process, and all frames that it ever put for each process.
#[derive(Drop)]
pub(crate) struct Member<F: FrontEnd, A: Allocator + Copy, W: WireStore<A>> {
    process: Process<F, A>,
    wires: W,
}

impl<F: FrontEnd, A: Allocator + Copy, W: WireStore<A>> Model for Member<F, A, W> {
    ghost use Rattle.reg_world.specs.Members.{Standing};

    ghost Value = { Standing };

    ghost view = { λ s. record { failed = s.process.failed; state = s.process.state; wires = W.wires s.wires } };
}

impl<F: FrontEnd, A: Allocator + Copy, W: WireStore<A>> Member<F, A, W> {
    /// A process that did nothing yet.
    pub(crate) fn new(alloc: A, shape: Shape, me: u8) -> Result<Member<F, A, W>, AllocError>
        ensures { IfOk result (λ s. s
            ≡ record {
              failed = false;
              state = state_of (first_parts me shape.processes shape.registers);
              wires = replicate shape.processes [];
            }) }
    {
        let wires = W::new(alloc, shape.processes())?;
        match Process::new(alloc, shape, me) {
            Ok(process) => Ok(Member { process, wires }),
            Err(_) => Err(AllocError),
        }
    }

    /// The process.
    pub(crate) fn process(&self) -> &Process<F, A>
        ensures failed { result.now.failed ≡ self.now.failed }
        ensures state { result.now.state ≡ self.now.state }
    {
        &self.process
    }

    /// How many frames were ever put for a process, 0 where there is no such process.
    pub(crate) fn count(&self, to: u8) -> usize
        ensures { result ≡ length (slice_index_or self.now.wires to []) }
    {
        self.wires.count(to)
    }

    /// The frame at this place, from 0, of all frames ever put for a process.
    // (in line: it runs at each event, and an outcome handed back by a call would be copied once more)
    #[inline(always)]
    pub(crate) fn frame_at(&self, to: u8, number: u32) -> Option<Frame>
        ensures { result ≡ slice_get (slice_index_or self.now.wires to []) number }
    {
        self.wires.frame_at(to, number)
    }

    /// Makes a step that no fault applies to, and puts its frames on their wires. Says what goes out of it, and whether
    /// the process runs an operation after it. It fails only where memory is refused; nothing is claimed of the member
    /// then.
    // (in line: it runs at each event, and does little more than calls)
    #[inline(always)]
    pub(crate) fn act(&mut self, step: &Step, brief: &mut Brief<A>) -> Result<bool, AllocError>
        requires { MayAct F.start self.old step.now }
        ensures made { OnOk result
            (Acts F.start self.old step.now brief.new.effect.cast brief.new.effect.delivered.items
            brief.new.effect.reply self.new) }
        ensures runs { IfOk result (λ runs. runs ≡ is_some self.new.state.running) }
    {
        self.make(step, brief)?;
        Ok(self.process.busy())
    }

    /// Makes a step, says what goes out of it, and puts its frames on their wires.
    // (in line: it runs at each event, and does little more than calls)
    #[inline(always)]
    fn make(&mut self, step: &Step, brief: &mut Brief<A>) -> Result<(), AllocError>
        requires { MayAct F.start self.old step.now }
        ensures { OnOk result
            (Acts F.start self.old step.now brief.new.effect.cast brief.new.effect.delivered.items
            brief.new.effect.reply self.new) }
    {
        match *step {
            Step::Call { op } => {
                allocated(self.process.call_brief(op, brief))?;
                self.put(&brief.sends)
            }
            Step::Take { from, frame } => {
                allocated(self.process.take_brief(from, &frame, brief))?;
                self.put(&brief.sends)
            }
            Step::Tick => {
                allocated(self.process.tick_brief(brief))?;
                put_again(&mut self.wires, &self.process)
            }
        }
    }

    /// Puts the frames of a step that was made.
    // (in line: it runs at each event, and does little more than a call)
    #[inline(always)]
    fn put(&mut self, sends: &Sends) -> Result<(), AllocError>
        requires { (p : Put) → In p (puts_of sends.now) → p.to < length self.old.wires }
        ensures { OnOk result (self.new ≡ record self.old { wires = sent (puts_of sends.now) self.old.wires }) }
    {
        put_sends(&mut self.wires, sends)
    }
}

impl<F: FrontEnd, A: Allocator + Copy> Member<F, A, Wires<A>> {
    /// All frames ever put for a process, none where there is no such process.
    pub(crate) fn wire(&self, to: u8) -> &[Frame]
        ensures { result.now ≡ slice_index_or self.now.wires to [] }
    {
        self.wires.to(to)
    }
}

/// What a step gave to which no fault applies: memory alone can be refused.
// (in line: it runs at each event, and what a call hands back would be copied once more)
#[inline(always)]
fn allocated<T>(given: Result<T, ProcessFault>) -> Result<T, AllocError>
    requires { IfErr given (λ fault. fault ≡ ProcessFault.OutOfMemory) }
    ensures { IfOk result (λ value. given ≡ Ok value) }
{
    match given {
        Ok(value) => Ok(value),
        Err(_) => Err(AllocError),
    }
}

/// Processes that did nothing yet.
pub(crate) fn new_members<F: FrontEnd, A: Allocator + Copy, W: WireStore<A>>(
    alloc: A,
    shape: Shape,
) -> Result<Vec<Member<F, A, W>, A>, AllocError>
    ensures stand { IfOk result (λ v. v.items ≡ listed (first_standing shape) shape.processes) }
    ensures few { shape.processes ≤ MOST_PROCESSES }
{
    let mut members = Vec::new(alloc);
    for me in 0..shape.processes() {
        members.push(Member::new(alloc, shape, me as u8)?)?;
    }
    Ok(members)
}
