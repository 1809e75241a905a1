//! Events made, one after another, with the parts of a world.
ghost use Rattle.std.specs.Prelude.{◌≡◌, List, false, length, take, drop, OnOk, [], MatchResult};
ghost use Rattle.reg_world.specs.Worlds.{run_in, after_events, RunRefuses};
ghost use Rattle.reg_world.specs.WorldParts.{IsWorld, IsMove, Advances, PartsGoOn, PartsRefuse, made_of};

use crate::books::Book;
use crate::faults::{RunFault, WorldFault};
use crate::finding::found;
use crate::members::{Member, StepEffect};
use crate::stores::WireStore;
use reg_front::FrontEnd;
use reg_process::{Brief, Event, Reply, Step};
use std::alloc::{AllocError, Allocator};

/// Makes the step of an event. Where memory is refused the book hasn't changed.
// (in line: it runs at each event, and what a call hands back would be copied once more)
#[inline(always)]
pub(crate) fn advance<F: FrontEnd, A: Allocator + Copy, W: WireStore<A>>(
    members: &mut Vec<Member<F, A, W>, A>,
    book: &mut Book<A, W::Events>,
    event: Event,
    moved: &(u8, Step),
    brief: &mut Brief<A>,
) -> Result<Option<Reply>, AllocError>
    requires world { IsWorld F.start false members.old.items book.old }
    requires moves { IsMove F.start book.old event (moved.now.0, moved.now.1) }
    ensures made { MatchResult result (λ reply. Advances F.start book.old event reply members.new.items book.new)
        (λ _. (book.new ≡ book.old) × (length members.new.items ≡ length members.old.items)) }
    ensures ahead { OnOk result (book.new.ahead ≡ drop 1 book.old.ahead) }
{
    let (process, step) = (moved.0, &moved.1);
    let member = &mut members[usize::from(process)];
    let runs = member.act(step, brief)?;
    let effect = &brief.effect;
    book.enter(event, process, step, &StepEffect { effect, runs })?;
    Ok(effect.reply)
}

/// Makes an event, or tells why it is refused.
// (in line: it runs at each event, and what a call hands back would be copied once more)
#[inline(always)]
fn step_parts<F: FrontEnd, A: Allocator + Copy, W: WireStore<A>>(
    members: &mut Vec<Member<F, A, W>, A>,
    book: &mut Book<A, W::Events>,
    brief: &mut Brief<A>,
    event: Event,
) -> Result<(), WorldFault>
    requires { IsWorld F.start false members.old.items book.old }
    ensures made { MatchResult result (λ _. PartsGoOn F.start book.old event members.new.items book.new)
        (λ fault. PartsRefuse F.start book.old event fault) }
{
    let moved = found(members, book, &event)?;
    match advance(members, book, event, &moved, brief) {
        Ok(_) => Ok(()),
        Err(_) => Err(WorldFault::OutOfMemory),
    }
}

/// Makes the events that are ahead, one after another, up to the first that is refused.
pub(crate) fn run_ahead<F: FrontEnd, A: Allocator + Copy, W: WireStore<A>>(
    members: &mut Vec<Member<F, A, W>, A>,
    book: &mut Book<A, W::Events>,
    brief: &mut Brief<A>,
    count: usize,
) -> Result<(), RunFault>
    requires world { IsWorld F.start false members.old.items book.old }
    requires none { book.old.accepted ≡ [] }
    requires count { count ≡ length book.old.ahead }
    ensures world { OnOk result (IsWorld F.start false members.new.items book.new) }
    ensures made { MatchResult result (λ _. made_of false book.new ≡ after_events F.start book.old.shape book.old.ahead)
        (λ f. RunRefuses F.start book.old.shape book.old.ahead f.at f.fault) }
    ensures accepted { MatchResult result
        (λ _. (run_in F.start (after_events F.start book.old.shape book.old.ahead)).accepted ≡ book.old.ahead)
        (λ f. (run_in F.start (after_events F.start book.old.shape (take f.at book.old.ahead))).accepted
        ≡ take f.at book.old.ahead) }
{
    for at in 0..count {
        let Some(event) = book.next_ahead() else {
            unreachable!()
        };
        if let Err(fault) = step_parts(members, book, brief, event) {
            return Err(RunFault { at, fault });
        }
    }
    Ok(())
}
