//! The seeded player.
ghost use Rattle.std.specs.Prelude.{◌≡◌, ◌≤◌, ◌<◌, ◌+◌, ℕ, [], length, false, true, Some, OnOk, IfOk};
ghost use Rattle.reg_base.specs.declared.limits.TheConstants.{MOST_EVENTS};
ghost use Rattle.reg_workload.specs.Plays.{IsPlay, cursor_at, next_frame};
ghost use Rattle.reg_workload.specs.Listed.{AreListed};
ghost use Rattle.reg_workload.specs.PlayParts.{GoesOn, Turns, AllStill, IsChoice};
ghost use Rattle.reg_workload.specs.Seeded.{takes_or_loses, chooses, choices_of, turn, turns, seeded_play};
ghost use Rattle.reg_base.specs.Words.{says};

use crate::choices::{Chances, Choice};
use crate::playing::{Play, Player};
use reg_base::{Words, happens};
use reg_front::FrontEnd;
use reg_inputs::Workload;
use reg_world::WireStore;
use std::alloc::{AllocError, Allocator};

/// How often of a hundred times a frame is lost, and how often it can be taken again.
#[derive(Clone, Copy)]
struct Odds {
    /// How many of a hundred frames that are chosen are lost.
    loss: u32,
    /// How many of a hundred frames that are taken can be taken again.
    repeat: u32,
}

/// Makes a choice. A frame is lost, or it is taken, and perhaps stays where it can be taken again.
fn choose<F: FrontEnd, R: Words, A: Allocator + Copy, W: WireStore<A>>(
    player: &mut Player<'_, F, A, W>,
    choice: Choice,
    words: &mut R,
    odds: Odds,
) -> Result<(), AllocError>
    requires going { player.old.made.failed ≡ false }
    requires choice { IsChoice F.start player.old choice }
    requires room { length player.old.made.accepted < MOST_EVENTS }
    requires behind { (from to : ℕ) → cursor_at player.old from to < MOST_EVENTS }
    ensures value { OnOk result
        ((player.new, words.new) ≡ chooses F.start R.next_word odds.loss odds.repeat player.old choice words.old) }
    ensures turns { OnOk result (Turns odds.loss player.old player.new) }
{
    match choice {
        Choice::Call { process } => player.call(process),
        Choice::Take { from, to, .. } if happens(words, odds.loss) => {
            player.leave(from, to);
            Ok(())
        }
        Choice::Take { from, to, number } => {
            player.take(from, to, number)?;
            if !happens(words, odds.repeat) {
                player.leave(from, to);
            }
            Ok(())
        }
        Choice::Tick { process } => player.tick(process),
    }
}

/// A turn. Tells whether nothing can happen.
fn play_turn<F: FrontEnd, R: Words, A: Allocator + Copy, W: WireStore<A>>(
    player: &mut Player<'_, F, A, W>,
    chances: &mut Chances,
    words: &mut R,
    odds: Odds,
) -> Result<bool, AllocError>
    requires going { player.old.made.failed ≡ false }
    requires listed { AreListed F.start player.old chances.old }
    requires room { length player.old.made.accepted < MOST_EVENTS }
    requires behind { (from to : ℕ) → cursor_at player.old from to < MOST_EVENTS }
    ensures value { OnOk result
        ((player.new, words.new) ≡ turn F.start R.next_word odds.loss odds.repeat (player.old, words.old)) }
    ensures listed { OnOk result (AreListed F.start player.new chances.new) }
    ensures ended { IfOk result (λ ended. ended ≡ true
        → (choices_of F.start player.old ≡ []) × AllStill F.start player.old × (player.new ≡ player.old)) }
    ensures turns { IfOk result (λ ended. ended ≡ false → Turns odds.loss player.old player.new) }
{
    let all = chances.count(player);
    if all == 0 {
        return Ok(true);
    }
    let word = words.word();
    let Some(choice) = chances.nth(player, word % all) else {
        unreachable!()
    };
    choose(player, choice, words, odds)?;
    chances.list_again(player, choice);
    Ok(false)
}

/// Makes turns until nothing can happen, or as many as the budget says. Tells whether nothing can happen.
fn play_turns<F: FrontEnd, R: Words, A: Allocator + Copy, W: WireStore<A>>(
    player: &mut Player<'_, F, A, W>,
    words: &mut R,
    odds: Odds,
    budget: u32,
) -> Result<bool, AllocError>
    requires going { player.old.made.failed ≡ false }
    requires none { length player.old.made.accepted ≡ 0 }
    requires first { (from to : ℕ) → cursor_at player.old from to ≡ 0 }
    requires budget { budget ≤ MOST_EVENTS }
    ensures value { OnOk result
        ((player.new, words.new) ≡ turns F.start R.next_word odds.loss odds.repeat budget (player.old, words.old)) }
    ensures on { OnOk result (GoesOn budget player.old player.new) }
    ensures ended { IfOk result
        (λ ended. (ended ≡ true → AllStill F.start player.new)
        × (ended ≡ false → odds.loss ≡ 0 → length player.new.made.accepted ≡ budget)) }
{
    let mut chances = Chances::new(player);
    for _turn in 0..budget {
        if play_turn(player, &mut chances, words, odds)? {
            return Ok(true);
        }
    }
    Ok(false)
}

/// Plays a workload by these words, as `play_seeded` of the crate tells it.
///
/// # Errors
///
/// Memory was refused.
pub(crate) fn play_seeded<F: FrontEnd, R: Words, A: Allocator + Copy, W: WireStore<A>>(
    alloc: A,
    work: &Workload<A>,
    words: &mut R,
) -> Result<Play<F, A, W>, AllocError>
    ensures turns { IfOk result (λ p. p.world
        ≡ (seeded_play F.start R.next_word work.now.shape work.now.scripts work.now.loss work.now.repeat work.now.budget
        words.old).0.made) }
    ensures words { OnOk result (words.new
        ≡ (seeded_play F.start R.next_word work.now.shape work.now.scripts work.now.loss work.now.repeat work.now.budget
        words.old).1) }
    ensures play { IfOk result
        (λ p. IsPlay F.start work.now.shape work.now.scripts work.now.budget p.world p.finished) }
    ensures finished { IfOk result (λ p. work.now.loss ≡ 0 → length p.world.accepted < work.now.budget
        → p.finished ≡ true) }
{
    let odds = Odds {
        loss: work.loss,
        repeat: work.repeat,
    };
    let mut player = Player::new(alloc, work.shape, &work.scripts)?;
    let _ended = play_turns(&mut player, words, odds, work.budget)?;
    Ok(player.end())
}
