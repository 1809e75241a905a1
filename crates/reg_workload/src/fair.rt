//! The fair player.
ghost use Rattle.std.specs.Prelude.{◌≡◌, ◌≤◌, ◌<◌, length, false, true, OnOk, IfOk};
ghost use Rattle.reg_base.specs.Lists.{lists};
ghost use Rattle.reg_base.specs.declared.limits.TheConstants.{MOST_EVENTS};
ghost use Rattle.reg_workload.specs.Plays.{IsPlay};
ghost use Rattle.reg_workload.specs.PlayParts.{GoesOn, IsReadyToCall, ArePlayable};
ghost use Rattle.reg_workload.specs.Rounds.{call_in_round, take_in_round, calls_in_round, takes_from_in_round};
ghost use Rattle.reg_workload.specs.Rounds.{takes_in_round, round, rounds, fair_play};
ghost use Rattle.reg_workload.specs.Fair.{TakesInOrder, most_fair_events};
ghost use Rattle.reg_workload.specs.FairParts.{IsFair, IsBehind, RoundPart, NoneMayCall, AllBehindFrom, AllBehind};
ghost use Rattle.reg_workload.specs.FairParts.{AtRest};

use crate::playing::{Play, Player};
use reg_base::{Op, Shape};
use reg_front::FrontEnd;
use reg_world::WireStore;
use std::alloc::{AllocError, Allocator};

/// A process calls its next operation, where it is free and has one left, unless the budget is used up. Tells whether
/// it is.
fn call_one<F: FrontEnd, A: Allocator + Copy, W: WireStore<A>>(
    player: &mut Player<'_, F, A, W>,
    process: u8,
    budget: u32,
) -> Result<bool, AllocError>
    requires process { process < player.old.made.processes }
    requires going { player.old.made.failed ≡ false }
    requires few { length player.old.made.accepted ≤ budget }
    requires budget { budget ≤ MOST_EVENTS }
    requires fair { IsFair F.start player.old }
    ensures value { OnOk result (player.new ≡ call_in_round F.start budget player.old process) }
    ensures part { IfOk result
        (λ full. RoundPart F.start budget player.old player.new full (IsReadyToCall F.start player.new process → ⊥)) }
{
    if !player.may_call(process) {
        return Ok(false);
    }
    if player.events() == budget {
        return Ok(true);
    }
    player.call(process)?;
    Ok(false)
}

/// Each process that is free calls its next operation, until the budget is used up. Tells whether it is.
fn call_each<F: FrontEnd, A: Allocator + Copy, W: WireStore<A>>(
    player: &mut Player<'_, F, A, W>,
    budget: u32,
) -> Result<bool, AllocError>
    requires going { player.old.made.failed ≡ false }
    requires few { length player.old.made.accepted ≤ budget }
    requires budget { budget ≤ MOST_EVENTS }
    requires fair { IsFair F.start player.old }
    ensures value { OnOk result (player.new ≡ calls_in_round F.start budget player.old.made.processes player.old) }
    ensures part { IfOk result
        (λ full. RoundPart F.start budget player.old player.new full
        (NoneMayCall F.start player.new player.new.made.processes)) }
{
    for process in 0..player.processes() {
        if call_one(player, process, budget)? {
            return Ok(true);
        }
    }
    Ok(false)
}

/// The next frame of a wire is taken, where there is one, unless the budget is used up. Tells whether it is.
fn take_one<F: FrontEnd, A: Allocator + Copy, W: WireStore<A>>(
    player: &mut Player<'_, F, A, W>,
    from: u8,
    to: u8,
    budget: u32,
) -> Result<bool, AllocError>
    requires from { from < player.old.made.processes }
    requires to { to < player.old.made.processes }
    requires going { player.old.made.failed ≡ false }
    requires few { length player.old.made.accepted ≤ budget }
    requires budget { budget ≤ MOST_EVENTS }
    requires fair { IsFair F.start player.old }
    ensures value { OnOk result (player.new ≡ take_in_round F.start budget player.old from to) }
    ensures part { IfOk result
        (λ full. RoundPart F.start budget player.old player.new full (IsBehind F.start player.new from to)) }
{
    let Some(number) = player.frame(from, to) else {
        return Ok(false);
    };
    if player.events() == budget {
        return Ok(true);
    }
    player.take(from, to, number)?;
    player.leave(from, to);
    Ok(false)
}

/// Each process takes the next frame that this one put for it, until the budget is used up. Tells whether it is.
fn take_from<F: FrontEnd, A: Allocator + Copy, W: WireStore<A>>(
    player: &mut Player<'_, F, A, W>,
    from: u8,
    budget: u32,
) -> Result<bool, AllocError>
    requires from { from < player.old.made.processes }
    requires going { player.old.made.failed ≡ false }
    requires few { length player.old.made.accepted ≤ budget }
    requires budget { budget ≤ MOST_EVENTS }
    requires fair { IsFair F.start player.old }
    ensures value { OnOk result
        (player.new ≡ takes_from_in_round F.start budget from player.old.made.processes player.old) }
    ensures part { IfOk result
        (λ full. RoundPart F.start budget player.old player.new full
        (AllBehindFrom F.start player.new from player.new.made.processes)) }
{
    for to in 0..player.processes() {
        if take_one(player, from, to, budget)? {
            return Ok(true);
        }
    }
    Ok(false)
}

/// Each process takes the next frame of each other, until the budget is used up. Tells whether it is.
fn take_each<F: FrontEnd, A: Allocator + Copy, W: WireStore<A>>(
    player: &mut Player<'_, F, A, W>,
    budget: u32,
) -> Result<bool, AllocError>
    requires going { player.old.made.failed ≡ false }
    requires few { length player.old.made.accepted ≤ budget }
    requires budget { budget ≤ MOST_EVENTS }
    requires fair { IsFair F.start player.old }
    ensures value { OnOk result (player.new ≡ takes_in_round F.start budget player.old.made.processes player.old) }
    ensures part { IfOk result
        (λ full. RoundPart F.start budget player.old player.new full
        (AllBehind F.start player.new player.new.made.processes)) }
{
    for from in 0..player.processes() {
        if take_from(player, from, budget)? {
            return Ok(true);
        }
    }
    Ok(false)
}

/// A round, until the budget is used up. Tells whether it is.
fn play_round<F: FrontEnd, A: Allocator + Copy, W: WireStore<A>>(
    player: &mut Player<'_, F, A, W>,
    budget: u32,
) -> Result<bool, AllocError>
    requires going { player.old.made.failed ≡ false }
    requires few { length player.old.made.accepted ≤ budget }
    requires budget { budget ≤ MOST_EVENTS }
    requires fair { IsFair F.start player.old }
    ensures value { OnOk result (player.new ≡ round F.start budget player.old) }
    ensures part { IfOk result
        (λ full. RoundPart F.start budget player.old player.new full (AtRest F.start player.new)) }
{
    if call_each(player, budget)? {
        return Ok(true);
    }
    take_each(player, budget)
}

/// Rounds, until one makes no event or the budget is used up.
fn play_rounds<F: FrontEnd, A: Allocator + Copy, W: WireStore<A>>(
    player: &mut Player<'_, F, A, W>,
    budget: u32,
) -> Result<(), AllocError>
    requires going { player.old.made.failed ≡ false }
    requires few { length player.old.made.accepted ≤ budget }
    requires budget { budget ≤ MOST_EVENTS }
    requires fair { IsFair F.start player.old }
    ensures value { OnOk result (player.new ≡ rounds F.start budget budget player.old) }
    ensures on { OnOk result (GoesOn budget player.old player.new) }
    ensures fair { OnOk result (IsFair F.start player.new) }
    ensures rest { OnOk result (length player.new.made.accepted < budget → AtRest F.start player.new) }
{
    for _round in 0..budget {
        let before = player.events();
        if play_round(player, budget)? || player.events() == before {
            return Ok(());
        }
    }
    Ok(())
}

/// Plays scripts, one for each process of the shape, in rounds: each process that is free calls its next operation, by
/// rising number, and then the next frame of each wire is taken, by sender and then by receiver. It ends with a round
/// that makes no event, or once there are as many events as the budget says. So the frames of each wire are taken in
/// order, each once, and none is put again. A play of fewer events than the budget is finished. Each operation brings
/// about one call and at most `2 * n * (n - 1)` takes among n processes, so a budget above that many events for all of
/// them is enough.
///
/// # Errors
///
/// Memory was refused.
pub(crate) fn play_fair<F: FrontEnd, A: Allocator + Copy, W: WireStore<A>>(
    alloc: A,
    shape: Shape,
    scripts: &[Vec<Op, A>],
    budget: u32,
) -> Result<Play<F, A, W>, AllocError>
    requires count { length scripts.now ≡ shape.processes }
    requires playable { ArePlayable shape.registers (lists scripts.now) }
    requires budget { budget ≤ MOST_EVENTS }
    ensures rounds { IfOk result (λ p. p.world ≡ (fair_play F.start shape (lists scripts.now) budget).made) }
    ensures play { IfOk result (λ p. IsPlay F.start shape (lists scripts.now) budget p.world p.finished) }
    ensures in_order { IfOk result (λ p. TakesInOrder p.world.accepted) }
    ensures finished { IfOk result (λ p. length p.world.accepted < budget → p.finished ≡ true) }
    ensures few { IfOk result (λ p. length p.world.accepted ≤ most_fair_events shape.processes (lists scripts.now)) }
    ensures enough { IfOk result
        (λ p. most_fair_events shape.processes (lists scripts.now) < budget → p.finished ≡ true) }
{
    let mut player = Player::new(alloc, shape, scripts)?;
    play_rounds(&mut player, budget)?;
    Ok(player.end())
}
