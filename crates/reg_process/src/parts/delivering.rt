//! Delivery: one clear cast after another.
ghost use Rattle.std.specs.Prelude.{◌≡◌, ◌≢◌, ◌<◌, ◌+◌, ◌^◌, [], length, MatchOption, IfOk, IfErr, OnOk, Some, None};
ghost use Rattle.reg_base.specs.Memory.{after, register_of};
ghost use Rattle.reg_process.specs.Process.{still, clear_casts};
ghost use Rattle.reg_process.specs.Delivery.{reply_by};
ghost use Rattle.reg_process.specs.Bounds.{RunsWell};
ghost use Rattle.reg_frames.specs.declared.bodies.Body.TheVariants.{Cast};
ghost use Rattle.reg_process.specs.Steps.{DeliversOne, DeliversNone, Delivers};

use super::Core;
use crate::awaited::Awaited;
use crate::faults::ProcessFault;
use crate::outcomes::Effect;
use crate::running::Current;
use crate::steps::Reply;
use reg_base::{Delivered, Registers, Stamp};
use std::alloc::{AllocError, Allocator};

/// Applies a cast, and answers the running operation where this is due. `left` own casts stay held.
fn settle<A: Allocator + Copy>(
    copy: &mut Registers<A>,
    running: Option<Current>,
    cast: Delivered,
    left: u32,
    place: u64,
) -> Option<Reply>
    requires runs { RunsWell (length copy.old) (left + 1) running }
    requires place { place + 1 < 2 ^ 64 }
    requires register { register_of cast.op < length copy.old }
    ensures copy { copy.new ≡ after cast.op copy.old }
    ensures reply { result ≡ reply_by copy.old place left cast running }
{
    let Some(current) = running else {
        copy.apply(&cast.op);
        return None;
    };
    match current.awaited() {
        Awaited::Cast { stamp, op } => {
            let answer = copy.answer(&op);
            copy.apply(&cast.op);
            if cast.stamp == stamp {
                Some(Reply { answer, place })
            } else {
                None
            }
        }
        Awaited::Settling { op } => {
            copy.apply(&cast.op);
            if left == 0 {
                let answer = copy.answer(&op);
                Some(Reply {
                    answer,
                    place: place + 1,
                })
            } else {
                None
            }
        }
    }
}

/// What was answered runs no more.
fn end_answered(running: &mut Option<Current>, reply: Option<Reply>)
    ensures { running.new ≡ still reply running.old }
{
    let Some(_) = reply else {
        return;
    };
    *running = None;
}

impl<A: Allocator + Copy> Core<A> {
    /// Delivers the first held cast, if it is clear.
    fn deliver_one(&mut self) -> Option<(Delivered, Option<Reply>)>
        ensures { MatchOption result (DeliversNone self.old × (self.new ≡ self.old))
            (λ r. DeliversOne self.old r.0 r.1 self.new) }
    {
        let Some((stamp, op)) = self.waiting.pop() else {
            return None;
        };
        let cast = Delivered { stamp, op };
        self.unsettled -= u32::from(stamp.process == self.me);
        let reply = settle(
            &mut self.copy,
            self.running,
            cast,
            self.unsettled,
            self.delivered,
        );
        self.delivered += 1;
        end_answered(&mut self.running, reply);
        Some((cast, reply))
    }

    /// Delivers all clear casts into an empty list, and answers what is due. Memory can be refused only where there is
    /// one.
    fn deliver(&mut self, delivered: &mut Vec<Delivered, A>) -> Result<Option<Reply>, AllocError>
        requires { delivered.old.items ≡ [] }
        ensures done { IfOk result (λ reply. Delivers self.old delivered.new.items reply self.new) }
        ensures memory { IfErr result (λ _. clear_casts self.old ≢ []) }
    {
        let mut reply = None;
        while let Some((cast, due)) = self.deliver_one() {
            delivered.push(cast)?;
            if reply.is_none() {
                reply = due;
            }
        }
        Ok(reply)
    }

    /// Delivers all clear casts in an event that has made this cast.
    pub(crate) fn finish(
        &mut self,
        cast: Option<Stamp>,
        effect: &mut Effect<A>,
    ) -> Result<(), ProcessFault>
        ensures made { OnOk result (effect.new.cast ≡ cast) }
        ensures done { OnOk result (Delivers self.old effect.new.delivered.items effect.new.reply self.new) }
        ensures fault { IfErr result (λ fault. fault ≡ ProcessFault.OutOfMemory) }
        ensures memory { IfErr result (λ _. clear_casts self.old ≢ []) }
    {
        effect.delivered.clear();
        let Ok(reply) = self.deliver(&mut effect.delivered) else {
            return Err(ProcessFault::OutOfMemory);
        };
        effect.cast = cast;
        effect.reply = reply;
        Ok(())
    }
}
