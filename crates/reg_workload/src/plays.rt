//! Plays of workloads.
ghost use Rattle.std.specs.Prelude.{◌≡◌, ◌<◌, ◌≤◌, length, true, IfOk};
ghost use Rattle.reg_workload.specs.Fair.{TakesInOrder, most_fair_events};
ghost use Rattle.reg_workload.specs.Plays.{IsPlay};
ghost use Rattle.reg_workload.specs.Rounds.{fair_play};
ghost use Rattle.reg_workload.specs.Seeded.{seeded_play};

use crate::playing::Play;
use crate::{fair, seeded};
use reg_base::Words;
use reg_front::FrontEnd;
use reg_inputs::Workload;
use reg_world::WireStore;
use std::alloc::{AllocError, Allocator};

/// Plays a workload in rounds: each process that is free calls its next operation, by rising number, and then the next
/// frame of each wire is taken, by sender and then by receiver. It ends with a round that makes no event, or once there
/// are as many events as the budget says. So the frames of each wire are taken in order, each once, and none is put
/// again. A play of fewer events than the budget is finished. It has at most `1 + 2 * n * (n - 1)` events for each
/// operation, among n processes, so every budget above that many for all operations is enough.
///
/// # Errors
///
/// Memory was refused.
pub fn play_fair<F: FrontEnd, A: Allocator + Copy>(
    alloc: A,
    work: &Workload<A>,
) -> Result<Play<F, A>, AllocError>
    ensures rounds { IfOk result (λ p. p.world
        ≡ (fair_play F.start work.now.shape work.now.scripts work.now.budget).made) }
    ensures play { IfOk result
        (λ p. IsPlay F.start work.now.shape work.now.scripts work.now.budget p.world p.finished) }
    ensures in_order { IfOk result (λ p. TakesInOrder p.world.accepted) }
    ensures finished { IfOk result (λ p. length p.world.accepted < work.now.budget → p.finished ≡ true) }
    ensures few { IfOk result (λ p. length p.world.accepted
        ≤ most_fair_events work.now.shape.processes work.now.scripts) }
    ensures enough { IfOk result (λ p. most_fair_events work.now.shape.processes work.now.scripts < work.now.budget
        → p.finished ≡ true) }
{
    play_fair_in(alloc, work)
}

/// Plays a workload in rounds of calls and takes, by the rules of `play_fair`, in a world that keeps its wires in a
/// store of the caller's choice.
///
/// # Errors
///
/// Memory was refused.
pub fn play_fair_in<F: FrontEnd, A: Allocator + Copy, W: WireStore<A>>(
    alloc: A,
    work: &Workload<A>,
) -> Result<Play<F, A, W>, AllocError>
    ensures rounds { IfOk result (λ p. p.world
        ≡ (fair_play F.start work.now.shape work.now.scripts work.now.budget).made) }
    ensures play { IfOk result
        (λ p. IsPlay F.start work.now.shape work.now.scripts work.now.budget p.world p.finished) }
    ensures in_order { IfOk result (λ p. TakesInOrder p.world.accepted) }
    ensures finished { IfOk result (λ p. length p.world.accepted < work.now.budget → p.finished ≡ true) }
    ensures few { IfOk result (λ p. length p.world.accepted
        ≤ most_fair_events work.now.shape.processes work.now.scripts) }
    ensures enough { IfOk result (λ p. most_fair_events work.now.shape.processes work.now.scripts < work.now.budget
        → p.finished ≡ true) }
{
    fair::play_fair(alloc, work.shape, &work.scripts, work.budget)
}

/// Plays a workload for as many turns at most as its budget says. A turn lists what can happen next: a call for each
/// process that is free and has an operation left, the next frame of each wire, by sender and then by receiver, and a
/// tick for each process with frames to put again. The next word, modulo their number, says which of them it is. A
/// frame is lost where the next word, modulo 100, is below `loss`; else it is taken, and can be taken again where the
/// word after that, modulo 100, is below `repeat`. Where nothing can happen the play ends. Without loss, a play of
/// fewer events than the budget is finished. The words are those of `words`; the workload's seed is not used.
///
/// # Errors
///
/// Memory was refused.
pub fn play_seeded<F: FrontEnd, R: Words + Drop, A: Allocator + Copy>(
    alloc: A,
    work: &Workload<A>,
    words: R,
) -> Result<Play<F, A>, AllocError>
    ensures turns { IfOk result (λ p. p.world
        ≡ (seeded_play F.start R.next_word work.now.shape work.now.scripts work.now.loss work.now.repeat work.now.budget
        words).0.made) }
    ensures play { IfOk result
        (λ p. IsPlay F.start work.now.shape work.now.scripts work.now.budget p.world p.finished) }
    ensures finished { IfOk result (λ p. work.now.loss ≡ 0 → length p.world.accepted < work.now.budget
        → p.finished ≡ true) }
{
    play_seeded_in(alloc, work, words)
}

/// Plays a workload in turns that the words decide, by the rules of `play_seeded`, in a world that keeps its wires in a
/// store of the caller's choice.
///
/// # Errors
///
/// Memory was refused.
pub fn play_seeded_in<F: FrontEnd, R: Words + Drop, A: Allocator + Copy, W: WireStore<A>>(
    alloc: A,
    work: &Workload<A>,
    words: R,
) -> Result<Play<F, A, W>, AllocError>
    ensures turns { IfOk result (λ p. p.world
        ≡ (seeded_play F.start R.next_word work.now.shape work.now.scripts work.now.loss work.now.repeat work.now.budget
        words).0.made) }
    ensures play { IfOk result
        (λ p. IsPlay F.start work.now.shape work.now.scripts work.now.budget p.world p.finished) }
    ensures finished { IfOk result (λ p. work.now.loss ≡ 0 → length p.world.accepted < work.now.budget
        → p.finished ≡ true) }
{
    let mut words = words;
    seeded::play_seeded(alloc, work, &mut words)
}
