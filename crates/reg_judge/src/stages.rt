//! Stages of a register, and the operations that may be placed from there.
ghost use Rattle.std.specs.Prelude.{◌≡◌, ◌<◌, ◌⊎◌, ℕ, true, None, IfOk, IsTrue, MatchOption, OnOk};
ghost use Rattle.std.specs.Int.{bit_at};
ghost use Rattle.reg_checkers.specs.History.{IsAt};
ghost use Rattle.reg_judge.specs.declared.stages.Stage.{Stage as AnyStage};
ghost use Rattle.reg_judge.specs.Stages.{AreNarrow, Extends, HasWithout, IsAfter, Keeps, MayMove, Settles};

use crate::acts::Act;
use crate::bits::{has, with, without};
use reg_base::OpId;
use std::alloc::{AllocError, Allocator};

/// How far the operations of one register have taken effect.
#[derive(Clone, Copy)]
pub struct Stage {
    /// The processes whose running operation has taken effect.
    pub placed: u64,
    /// The value of the register.
    pub value: u64,
    /// The place in the trail of the last operation that took effect.
    pub last: Option<usize>,
}

/// An operation that runs on the register.
#[derive(Clone, Copy)]
pub struct Mover {
    pub id: OpId,
    pub act: Act,
    /// Whether it asks nothing, and no operation that is not answered yet goes by what it leaves.
    pub free: bool,
}

/// Whether an operation takes effect without harm where the register has this value: one that changes nothing and may
/// come there, and, where a write that asks nothing follows, one that leaves what no operation goes by.
fn is_harmless(mover: Mover, value: u64, hides: bool) -> bool
    ensures { IsTrue result → (mover.act.makes ≡ None) ⊎ (mover.free ≡ true) }
{
    if mover.act.makes.is_none() {
        return mover.act.fits(value);
    }
    hides && mover.free
}

/// The processes whose operations have taken effect, with those that do without harm.
fn settled(movers: &[Mover], placed: u64, value: u64, hides: bool) -> u64
    requires { AreNarrow movers.now }
    ensures { Settles movers.now (bit_at placed) result }
{
    let mut all = placed;
    for mover in movers {
        if is_harmless(*mover, value, hides) {
            all = with(all, mover.id.process);
        }
    }
    all
}

/// What one operation makes of a stage: the processes that are placed then, and the value. None where it may not take
/// effect there.
pub fn placed_after(movers: &[Mover], stage: Stage, mover: Mover) -> Option<(u64, u64)>
    requires narrow { AreNarrow movers.now }
    requires process { mover.id.process < 64 }
    ensures { MatchOption result (¬ MayMove stage mover) (λ e. IsAfter movers.now stage mover e.0 e.1) }
{
    if has(stage.placed, mover.id.process) || !mover.act.fits(stage.value) {
        return None;
    }
    let value = mover.act.value_after(stage.value);
    let hides = mover.act.makes.is_some() && mover.act.asks_nothing();
    let placed = settled(movers, with(stage.placed, mover.id.process), value, hides);
    Some((placed, value))
}

/// Whether the process is placed at each stage.
pub fn all_have(stages: &[Stage], process: u8) -> bool
    requires { process < 64 }
    ensures { IsTrue result → (j : ℕ) (s : AnyStage) → IsAt stages.now j s → bit_at s.placed process ≡ 1 }
{
    for stage in stages {
        if !has(stage.placed, process) {
            return false;
        }
    }
    true
}

/// Keeps a stage at which the process is placed, and there the process is not placed any more.
fn keep<A: Allocator + Copy>(
    kept: &mut Vec<Stage, A>,
    stage: Stage,
    process: u8,
) -> Result<(), AllocError>
    requires { process < 64 }
    ensures extends { OnOk result (Extends kept.old.items kept.new.items) }
    ensures kept { OnOk result (bit_at stage.placed process ≡ 1 → HasWithout process kept.new.items stage) }
{
    if has(stage.placed, process) {
        kept.push(Stage {
            placed: without(stage.placed, process),
            value: stage.value,
            last: stage.last,
        })?;
    }
    Ok(())
}

/// The stages at which the process is placed, where what it ran is answered.
pub fn answered<A: Allocator + Copy>(
    alloc: A,
    stages: &[Stage],
    process: u8,
) -> Result<Vec<Stage, A>, AllocError>
    requires { process < 64 }
    ensures { IfOk result (λ v. Keeps process stages.now v.items) }
{
    let mut kept = Vec::new(alloc);
    for stage in stages {
        keep(&mut kept, *stage, process)?;
    }
    Ok(kept)
}
