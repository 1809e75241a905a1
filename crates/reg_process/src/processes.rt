//! One process, with its stop.
ghost use Rattle.std.specs.Prelude.{◌≡◌, ◌≢◌, ℕ, [], length, ◌<◌, ◌≤◌, MatchOption, MatchResult, IfOk, IfErr, IfSome};
ghost use Rattle.std.specs.Prelude.{slice_get, option_map, is_some, max, nat_lt, false, true, IsErrOf, vec_capacity};
ghost use Rattle.std.specs.Prelude.{if◌then◌else◌};
ghost use Rattle.reg_process.specs.Process.{next_of, peer_at, pending_of, resent, unsettled};
ghost use Rattle.reg_process.specs.Parts.{state_of, first_parts};
ghost use Rattle.reg_process.specs.declared.steps.Step.TheVariants.{Call, Take, Tick};
ghost use Rattle.reg_process.specs.Faults.{NewRefused, StepTakesMemory, is_cast, is_numbered as is_numbered_of};
ghost use Rattle.reg_process.specs.Faults.{takes_memory};
ghost use Rattle.reg_process.specs.Events.{Steps, Briefs, Refused};
ghost use Rattle.reg_process.specs.Known.{IsNoPeer, known_of};
ghost use Rattle.reg_process.specs.Puts.{puts};
ghost use Rattle.reg_process.specs.Sending.{puts_of, IsListed};
ghost use Rattle.reg_process.specs.Waits.{running_of};
ghost use Rattle.reg_base.specs.declared.limits.TheConstants.{MOST_PROCESSES};

use crate::awaited::Awaited;
use crate::faults::ProcessFault;
use crate::known::Known;
use crate::outcomes::{Brief, Effect, Outcome};
use crate::parts::Core;
use crate::puts::put_sends;
use crate::sends::Sends;
use crate::spare::Spare;
use crate::steps::Step;
use crate::stops::is_stop;
use reg_base::{Delivered, Op, Registers, Shape};
use reg_frames::{Frame, Put};
use reg_front::FrontEnd;
use std::alloc::{AllocError, Allocator, Global};
use std::marker::{Model, PhantomData};

/// One process of a run in which all run the front end F: a logical clock, a copy of the registers, a hold-back queue,
/// the bodies that some other process has not acknowledged, and an inbox for each other process. The clock, and the
/// order of delivery, are those of Lamport 1978.
#[derive(Drop)]
pub struct Process<F: FrontEnd, A: Allocator + Copy = Global> {
    core: Core<A>,
    spare: Spare<A>,
    failed: bool,
    front: PhantomData<F>,
}

impl<F: FrontEnd, A: Allocator + Copy> Model for Process<F, A> {
    ghost use Rattle.reg_process.specs.Events.{Kept};

    ghost Value = { Kept };

    ghost view = { λ p. record { failed = p.failed; state = p.core; room = p.spare } };
}

impl<F: FrontEnd, A: Allocator + Copy> Process<F, A> {
    /// A process that did nothing yet. `NoProcess` comes exactly where the shape doesn't have it, and else only
    /// `OutOfMemory`.
    pub fn new(alloc: A, shape: Shape, me: u8) -> Result<Process<F, A>, ProcessFault>
        ensures made { IfOk result
            (λ p. (me < shape.processes)
            × (p
            ≡ record { failed = false; state = state_of (first_parts me shape.processes shape.registers); room = 0 })) }
        ensures fault { IfErr result (λ fault. NewRefused shape.processes me fault) }
    {
        if u32::from(me) >= shape.processes() {
            return Err(ProcessFault::NoProcess);
        }
        let Ok(core) = Core::new(alloc, me, shape) else {
            return Err(ProcessFault::OutOfMemory);
        };
        Ok(Process {
            core,
            spare: Spare::new(alloc),
            failed: false,
            front: PhantomData,
        })
    }

    /// How many processes there are, this one among them.
    pub fn processes(&self) -> u8
        ensures value { result ≡ length self.now.state.peers }
        ensures few { result ≤ MOST_PROCESSES }
    {
        self.core.processes()
    }

    /// The time of the clock. On no link is the number of the next body above it.
    pub fn clock(&self) -> u64
        ensures value { result ≡ self.now.state.clock }
        ensures numbers { (r : ℕ) → next_of (peer_at self.now.state r) ≤ result }
    {
        self.core.clock()
    }

    /// How many casts it has delivered.
    pub fn delivered_count(&self) -> u64
        ensures { result ≡ self.now.state.delivered }
    {
        self.core.delivered_count()
    }

    /// How many of its own casts it has not delivered.
    pub fn unsettled(&self) -> u32
        ensures { result ≡ unsettled self.now.state }
    {
        self.core.unsettled()
    }

    /// Whether an operation runs.
    pub fn busy(&self) -> bool
        ensures { result ≡ is_some self.now.state.running }
    {
        self.core.busy()
    }

    /// How many bodies are not acknowledged, over all links: one counts for each process that hasn't acknowledged it.
    pub fn pending(&self) -> u64
        ensures { result ≡ pending_of self.now.state.peers }
    {
        self.core.pending()
    }

    /// Whether some body is not acknowledged, so that a tick puts a frame.
    pub fn is_pending(&self) -> bool
        ensures { result ≡ nat_lt 0 (pending_of self.now.state.peers) }
    {
        self.core.is_pending()
    }

    /// Its copy of the registers.
    pub fn registers(&self) -> &Registers<A>
        ensures { result.now ≡ self.now.state.copy }
    {
        self.core.registers()
    }

    /// What it knows of another process, and keeps for it. None where there is no other of this number.
    pub fn known(&self, process: u8) -> Option<Known>
        ensures value { MatchOption result (IsNoPeer self.now.state process)
            (λ k. k ≡ known_of (peer_at self.now.state process)) }
        ensures other { IfSome result (λ _. IsNoPeer self.now.state process → ⊥) }
    {
        if !self.core.is_peer(process) {
            return None;
        }
        Some(self.core.known(process))
    }

    /// The casts that it holds back, in the order of their stamps.
    pub fn held<B: Allocator + Copy>(&self, alloc: B) -> Result<Vec<Delivered, B>, AllocError>
        ensures { IfOk result (λ v. v.items ≡ self.now.state.held) }
    {
        self.core.held(alloc)
    }

    /// What the running operation waits for, None where none runs.
    pub fn awaited(&self) -> Option<Awaited>
        ensures { option_map running_of result ≡ self.now.state.running }
    {
        match self.core.running() {
            Some(current) => Some(current.awaited()),
            None => None,
        }
    }

    /// Takes back the list of an event's frames, so that a later event takes no memory for one. Of this list and the
    /// one that it has, it keeps the one with more room. Nothing else changes.
    pub fn reuse(&mut self, frames: Vec<Put, A>)
        ensures { self.new ≡ record self.old { room = max self.old.room (vec_capacity frames) } }
    {
        self.spare.keep(frames);
    }

    /// The frame at this place, from 0, of those that a tick puts again for a process. None past the last.
    pub fn resend(&self, to: u8, place: u64) -> Option<Frame>
        ensures { result ≡ slice_get (resent self.now.state to) place }
    {
        self.core.resend(to, place)
    }

    /// What goes out of a tick, aside from its frames, which `resend` gives: nothing. The process stays as it is.
    /// `Failed` is the only fault. It takes no memory.
    pub fn tick_brief(&self, brief: &mut Brief<A>) -> Result<(), ProcessFault>
        ensures ticked { MatchResult result
            (λ _. Briefs F.start self.now Tick (puts (resent self.now.state) (length self.now.state.peers))
            brief.new.effect.cast brief.new.effect.delivered.items brief.new.effect.reply self.now)
            (λ fault. Refused F.start self.now Tick fault self.now) }
        ensures memory { IfErr result (λ fault. fault ≡ ProcessFault.Failed) }
    {
        if self.failed {
            return Err(ProcessFault::Failed);
        }
        brief.say(Sends::Nothing, None);
        Ok(())
    }

    /// Puts unacknowledged data frames again: on each link the first `limits::MOST_RESENT`. The process stays as it is.
    /// `Failed` and `OutOfMemory` are the only faults. It takes no memory where there is no such frame.
    pub fn tick(&mut self) -> Result<Outcome<A>, ProcessFault>
        ensures ticked { MatchResult result
            (λ o. Steps F.start self.old Tick o.frames.items o.cast o.delivered.items o.reply self.new)
            (λ fault. Refused F.start self.old Tick fault self.new) }
        ensures memory { IsErrOf result ProcessFault.OutOfMemory
            → puts (resent self.old.state) (length self.old.state.peers) ≢ [] }
    {
        if self.failed {
            return Err(ProcessFault::Failed);
        }
        let Ok(frames) = self.core.tick(&mut self.spare) else {
            self.failed = true;
            return Err(ProcessFault::OutOfMemory);
        };
        Ok(outcome(frames, self.core.nothing().effect))
    }

    /// Takes a frame that another process put for it. A data frame out of turn is dropped and answered by the count of
    /// those accepted. An expected one is accepted and answered so too; its cast is held back and acknowledged to all
    /// others; and what is clear then is delivered. A count drops the bodies that its sender has accepted.
    ///
    /// A count takes no memory. Where the kept list has room for the answer, neither does a dropped frame, nor an
    /// acknowledgement that makes no cast clear.
    pub fn take(&mut self, from: u8, frame: &Frame) -> Result<Outcome<A>, ProcessFault>
        ensures taken { MatchResult result
            (λ o. Steps F.start self.old (Take from frame.now) o.frames.items o.cast o.delivered.items o.reply self.new)
            (λ fault. Refused F.start self.old (Take from frame.now) fault self.new) }
        ensures memory { IsErrOf result ProcessFault.OutOfMemory
            → takes_memory self.old.state self.old.room from frame.now ≡ true }
    {
        let mut brief = self.core.nothing();
        self.take_brief(from, frame, &mut brief)?;
        let alloc = *brief.effect.delivered.allocator();
        let list = self.list_for(alloc, is_numbered(frame));
        self.tell(list, brief)
    }

    /// Takes a frame as `take` does, and tells in short what is put, which takes no memory. What can take some is a
    /// cast, and an acknowledgement that makes a cast clear. Where the frame is refused, nothing is claimed of what is
    /// told.
    // (in line: it runs at each take, and a frame handed on by a call would be copied once more)
    #[inline(always)]
    pub fn take_brief(
        &mut self,
        from: u8,
        frame: &Frame,
        brief: &mut Brief<A>,
    ) -> Result<(), ProcessFault>
        ensures taken { MatchResult result
            (λ _. Briefs F.start self.old (Take from frame.now) (puts_of brief.new.sends) brief.new.effect.cast
            brief.new.effect.delivered.items brief.new.effect.reply self.new)
            (λ fault. Refused F.start self.old (Take from frame.now) fault self.new) }
        ensures memory { IsErrOf result ProcessFault.OutOfMemory → takes_memory self.old.state 1 from frame.now ≡ true }
    {
        if self.failed {
            return Err(ProcessFault::Failed);
        }
        if !self.core.is_peer(from) {
            return Err(ProcessFault::NoProcess);
        }
        match self.core.take_frame(from, frame, brief) {
            Ok(()) => Ok(()),
            Err(fault) => {
                self.failed = is_stop(fault);
                Err(fault)
            }
        }
    }

    /// Calls its next operation, which starts as the front end says, and delivers what is clear. One that isn't cast
    /// takes no memory.
    pub fn call(&mut self, op: Op) -> Result<Outcome<A>, ProcessFault>
        ensures called { MatchResult result
            (λ o. Steps F.start self.old (Call op) o.frames.items o.cast o.delivered.items o.reply self.new)
            (λ fault. Refused F.start self.old (Call op) fault self.new) }
        ensures memory { IsErrOf result ProcessFault.OutOfMemory
            → is_cast (F.start op (unsettled self.old.state)) ≡ true }
    {
        let mut brief = self.core.nothing();
        self.call_brief(op, &mut brief)?;
        let alloc = *brief.effect.delivered.allocator();
        let list = self.list_for(alloc, brief.effect.cast.is_some());
        self.tell(list, brief)
    }

    /// Calls its next operation as `call` does, and tells in short what is put. Where the call is refused, nothing is
    /// claimed of what is told.
    pub fn call_brief(&mut self, op: Op, brief: &mut Brief<A>) -> Result<(), ProcessFault>
        ensures called { MatchResult result
            (λ _. Briefs F.start self.old (Call op) (puts_of brief.new.sends) brief.new.effect.cast
            brief.new.effect.delivered.items brief.new.effect.reply self.new)
            (λ fault. Refused F.start self.old (Call op) fault self.new) }
        ensures memory { IsErrOf result ProcessFault.OutOfMemory
            → is_cast (F.start op (unsettled self.old.state)) ≡ true }
    {
        if self.failed {
            return Err(ProcessFault::Failed);
        }
        if let Some(fault) = self.core.refuses_call(&op) {
            return Err(fault);
        }
        let start = F::start(&op, self.core.unsettled());
        match self.core.begin(op, start, brief) {
            Ok(()) => Ok(()),
            Err(fault) => {
                self.failed = true;
                Err(fault)
            }
        }
    }

    /// An empty list for the frames of an event: the kept one where it uses that, which doesn't stay then.
    fn list_for(&mut self, alloc: A, uses: bool) -> Vec<Put, A>
        ensures empty { result.items ≡ [] }
        ensures room { uses ≡ true → vec_capacity result ≡ self.old.room }
        ensures left { self.new ≡ record self.old { room = if uses then 0 else self.old.room } }
    {
        if uses {
            self.spare.take(alloc)
        } else {
            Vec::new(alloc)
        }
    }

    /// Lists the frames of an event in an empty list. Where memory is refused the process stops.
    fn tell(&mut self, list: Vec<Put, A>, brief: Brief<A>) -> Result<Outcome<A>, ProcessFault>
        requires { list.items ≡ [] }
        ensures told { IfOk result
            (λ o. IsListed (puts_of brief.sends) brief.effect.cast brief.effect.delivered.items brief.effect.reply
            o.frames.items o.cast o.delivered.items o.reply) }
        ensures kept { MatchResult result (λ _. self.new ≡ self.old)
            (λ fault. (fault ≡ ProcessFault.OutOfMemory) × (self.new ≡ record self.old { failed = true })) }
        ensures memory { IfErr result (λ _. vec_capacity list < length (puts_of brief.sends)) }
    {
        let mut frames = list;
        let Ok(()) = put_sends(&mut frames, &brief.sends) else {
            self.failed = true;
            return Err(ProcessFault::OutOfMemory);
        };
        Ok(outcome(frames, brief.effect))
    }

    /// Makes a step: a call, a take or a tick, with the faults of each. It takes memory where these do.
    pub fn step(&mut self, step: &Step) -> Result<Outcome<A>, ProcessFault>
        ensures stepped { MatchResult result
            (λ o. Steps F.start self.old step.now o.frames.items o.cast o.delivered.items o.reply self.new)
            (λ fault. Refused F.start self.old step.now fault self.new) }
        ensures memory { IsErrOf result ProcessFault.OutOfMemory
            → StepTakesMemory F.start self.old.state self.old.room step.now }
    {
        match *step {
            Step::Call { op } => self.call(op),
            Step::Take { from, frame } => self.take(from, &frame),
            Step::Tick => self.tick(),
        }
    }
}

/// Whether a frame carries a body: a count doesn't.
fn is_numbered(frame: &Frame) -> bool
    ensures { result ≡ is_numbered_of frame.now }
{
    match *frame {
        Frame::Numbered { number: _, body: _ } => true,
        Frame::Got { count: _ } => false,
    }
}

/// What goes out of an event, from its frames and the rest.
fn outcome<A: Allocator + Copy>(frames: Vec<Put, A>, effect: Effect<A>) -> Outcome<A>
    ensures { IsListed frames.items effect.cast effect.delivered.items effect.reply result.frames.items result.cast
        result.delivered.items result.reply }
{
    let Effect {
        cast,
        delivered,
        reply,
    } = effect;
    Outcome {
        frames,
        cast,
        delivered,
        reply,
    }
}
