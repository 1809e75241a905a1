//! The calls of a process: how operations start.
ghost use Rattle.std.specs.Prelude.{◌≡◌, ◌<◌, ◌+◌, [], length, MatchResult, IfOk, OnOk, IfErr, cond, nat_le, Some};
ghost use Rattle.std.specs.Prelude.{None, true, if◌then◌else◌};
ghost use Rattle.reg_base.specs.Memory.{after, register_of};
ghost use Rattle.reg_process.specs.Process.{unsettled, look as look_of, called, Held};
ghost use Rattle.reg_process.specs.Steps.{Stops, StopsAt, Goes, cast_start, own_running, MakesCast};
ghost use Rattle.reg_process.specs.Faults.{early_fault, full_at, is_cast};
ghost use Rattle.reg_process.specs.Sending.{puts_of};
ghost use Rattle.reg_front.specs.Fronts.{MayStart};
ghost use Rattle.reg_frames.specs.declared.bodies.Body.TheVariants.{Cast};
ghost use Rattle.reg_base.specs.declared.limits.TheConstants.{LAST_TIME, MOST_OPERATIONS};
ghost use Rattle.reg_base.specs.declared.memory.Answer.TheVariants.{Done};

use super::Core;
use crate::faults::ProcessFault;
use crate::outcomes::Brief;
use crate::puts::queue_on_all;
use crate::running::Current;
use crate::sends::Sends;
use crate::steps::Reply;
use reg_base::limits::MOST_OPERATIONS;
use reg_base::{Answer, Op, Stamp};
use reg_frames::Body;
use reg_front::Start;
use std::alloc::Allocator;

/// What runs after an own cast.
fn own(runs: bool, stamp: Stamp, op: Op) -> Option<Current>
    ensures { result ≡ own_running runs stamp op }
{
    if runs {
        Some(Current::cast(stamp, op))
    } else {
        None
    }
}

/// The reply of an event with an own cast.
fn reply_to(runs: bool, due: Option<Reply>, place: u64) -> Option<Reply>
    ensures { result ≡ cond runs due (Some (record { answer = Done; place = place })) }
{
    if runs {
        due
    } else {
        Some(Reply {
            answer: Answer::Done,
            place,
        })
    }
}

impl<A: Allocator + Copy> Core<A> {
    /// Why a call is refused before it starts.
    pub(crate) fn refuses_call(&self, op: &Op) -> Option<ProcessFault>
        ensures { result ≡ early_fault self.now op.now self.now.running }
    {
        let is_busy = self.running.is_some();
        if is_busy {
            return Some(ProcessFault::Busy);
        }
        if op.register() as usize >= self.copy.count() {
            return Some(ProcessFault::NoRegister);
        }
        if self.calls >= MOST_OPERATIONS {
            return Some(ProcessFault::TooManyOperations);
        }
        None
    }

    /// Starts an operation.
    pub(crate) fn begin(
        &mut self,
        op: Op,
        start: Start,
        brief: &mut Brief<A>,
    ) -> Result<(), ProcessFault>
        requires register { register_of op < length self.old.copy }
        requires calls { self.old.calls < MOST_OPERATIONS }
        requires may { MayStart op (unsettled self.old) start }
        ensures goes { OnOk result
            (Goes (length self.old.peers) (called self.old op start) (puts_of brief.new.sends) brief.new.effect.cast
            brief.new.effect.delivered.items brief.new.effect.reply self.new) }
        ensures room { OnOk result (full_at self.old.clock start ≡ None) }
        ensures fault { IfErr result (λ fault. StopsAt (full_at self.old.clock start) fault) }
        ensures memory { IfErr result (λ _. is_cast start ≡ true) }
    {
        match start {
            Start::Cast => self.broadcast(op, true, brief),
            Start::CastAndAnswer => self.broadcast(op, false, brief),
            Start::Look => {
                let reply = self.look(op);
                brief.say(Sends::Nothing, Some(reply));
                Ok(())
            }
            Start::Hold => {
                self.hold(op);
                brief.say(Sends::Nothing, None);
                Ok(())
            }
        }
    }

    /// Holds a read.
    fn hold(&mut self, op: Op)
        requires register { register_of op < length self.old.copy }
        requires calls { self.old.calls < MOST_OPERATIONS }
        requires waits { 0 < unsettled self.old }
        ensures { self.new ≡ record self.old { calls = self.old.calls + 1; running = Some (Held op) } }
    {
        self.calls += 1;
        self.running = Some(Current::held(op));
    }

    /// Answers from the copy at once.
    fn look(&mut self, op: Op) -> Reply
        requires register { register_of op < length self.old.copy }
        requires calls { self.old.calls < MOST_OPERATIONS }
        ensures reply { result ≡ look_of self.old op }
        ensures after { self.new ≡ record self.old { calls = self.old.calls + 1; running = None } }
    {
        self.calls += 1;
        self.running = None;
        let answer = self.copy.answer(&op);
        Reply {
            answer,
            place: self.delivered,
        }
    }

    /// Casts an operation, and delivers what is clear.
    fn broadcast(&mut self, op: Op, runs: bool, brief: &mut Brief<A>) -> Result<(), ProcessFault>
        requires register { register_of op < length self.old.copy }
        requires calls { self.old.calls < MOST_OPERATIONS }
        ensures goes { OnOk result
            (Goes (length self.old.peers) (called self.old op (cast_start runs)) (puts_of brief.new.sends)
            brief.new.effect.cast brief.new.effect.delivered.items brief.new.effect.reply self.new) }
        ensures room { OnOk result (self.old.clock < LAST_TIME) }
        ensures fault { IfErr result (λ fault. Stops (nat_le LAST_TIME self.old.clock) fault) }
    {
        let place = self.delivered_count();
        let stamp = self.cast(op, runs, &mut brief.sends)?;
        self.finish(Some(stamp), &mut brief.effect)?;
        brief.effect.reply = reply_to(runs, brief.effect.reply, place);
        Ok(())
    }

    /// Makes an own cast, which the operation may run for: its stamp, and what is put.
    fn cast(&mut self, op: Op, runs: bool, sends: &mut Sends) -> Result<Stamp, ProcessFault>
        requires register { register_of op < length self.old.copy }
        requires calls { self.old.calls < MOST_OPERATIONS }
        ensures { MatchResult result (λ stamp. MakesCast self.old op runs stamp (puts_of sends.new) self.new)
            (λ fault. Stops (nat_le LAST_TIME self.old.clock) fault) }
    {
        let Ok(time) = self.clock.tick() else {
            return Err(ProcessFault::ClockFull);
        };
        let stamp = Stamp {
            time,
            process: self.me,
        };
        let body = Body::Cast { time, op };
        let Ok(()) = queue_on_all(&mut self.outboxes, self.me, body, None, sends) else {
            return Err(ProcessFault::OutOfMemory);
        };
        let Ok(()) = self.waiting.cast(stamp, op) else {
            return Err(ProcessFault::OutOfMemory);
        };
        self.unsettled += 1;
        self.calls += 1;
        self.running = own(runs, stamp, op);
        Ok(stamp)
    }
}
