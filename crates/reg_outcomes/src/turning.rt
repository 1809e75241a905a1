//! Runs that have an outcome: the turns of an interleaving are made one after another, each from rest to rest.
ghost use Rattle.std.specs.Prelude.{ℕ, ◌≡◌, ◌+◌, ◌-◌, ◌*◌, ◌≤◌, ◌↔◌, IsTrue, IfOk, IfErr, OnOk, MatchResult, None};
ghost use Rattle.std.specs.Prelude.{false, length};
ghost use Rattle.reg_base.specs.Lists.{lists};
ghost use Rattle.reg_base.specs.declared.limits.TheConstants.{MOST_EVENTS, MOST_PROCESSES};
ghost use Rattle.reg_process.specs.declared.events.Event.TheVariants.{Call};
ghost use Rattle.reg_records.specs.Rest.{Settles, most_to_rest};
ghost use Rattle.reg_records.specs.RestParts.{IsGoingOn};
ghost use Rattle.reg_world.specs.Worlds.{Accepts, new_world, refusal, run_in};
ghost use Rattle.reg_outcomes.specs.Finishing.{HasRoom};
ghost use Rattle.reg_outcomes.specs.Interleavings.{ArePlayable, IsInterleaving};
ghost use Rattle.reg_outcomes.specs.Showing.{IsRunOf, IsTurnsFault};
ghost use Rattle.reg_outcomes.specs.Turning.{IsTurn, MayTurn};

use crate::interleavings::layers::count_operations;
use crate::interleavings::outcomes::Outcome;
use crate::interleavings::stages::Stage;
use reg_base::limits::MOST_EVENTS;
use reg_base::{Op, Shape};
use reg_front::FrontEnd;
use reg_records::{SettleFault, settle};
use reg_world::{Event, WireStore, World, WorldFault};
use std::alloc::{AllocError, Allocator};
use thiserror::Error;

/// Why no run of an outcome is made.
#[derive(Clone, Copy, Debug, PartialEq, Eq, Error)]
pub enum TurnsFault {
    /// All operations, reckoned at `1 + 3 * n * (n - 1)` events each among n processes, take more than `MOST_EVENTS`.
    #[error("too many events")]
    TooManyEvents,
    /// Memory was refused.
    #[error("out of memory")]
    OutOfMemory,
}

impl From<AllocError> for TurnsFault {
    ghost use Rattle.std.specs.Prelude.{◌≡◌};
    ghost use Rattle.reg_outcomes.specs.declared.turning.TurnsFault.TheVariants.{OutOfMemory};

    ghost from_gives = { λ _ fault. fault ≡ OutOfMemory };

    fn from(_error: AllocError) -> TurnsFault {
        Self::OutOfMemory
    }
}

/// The most events of a turn: a call, and three for each frame that it makes needed.
fn most_events_of_turn(processes: u64) -> u64
    requires { processes ≤ MOST_PROCESSES }
    ensures value { result ≡ 1 + 3 * (processes * (processes - 1)) }
    ensures few { result ≤ 12289 }
{
    1 + 3 * (processes * processes.saturating_sub(1))
}

/// Whether a run has room to call all operations one after another, and to come to rest after each.
fn has_room<A: Allocator + Copy>(scripts: &[Vec<Op, A>], registers: u16) -> bool
    requires { ArePlayable (lists scripts.now) registers }
    ensures { IsTrue result ↔ HasRoom (lists scripts.now) }
{
    let operations = count_operations(scripts) as u64;
    operations * most_events_of_turn(scripts.len() as u64) <= u64::from(MOST_EVENTS)
}

/// A process calls an operation, which no fault applies to.
fn call<F: FrontEnd, A: Allocator + Copy, W: WireStore<A>>(
    world: &mut World<F, A, W>,
    process: u8,
    op: Op,
) -> Result<(), TurnsFault>
    requires { refusal F.start world.old (Call process op) ≡ None }
    ensures { MatchResult result (λ _. Accepts F.start world.old (Call process op) world.new)
        (λ fault. fault ≡ TurnsFault.OutOfMemory) }
{
    match world.step(&Event::Call { process, op }) {
        Ok(()) => Ok(()),
        Err(WorldFault::OutOfMemory) => Err(TurnsFault::OutOfMemory),
        Err(_) => unreachable!(),
    }
}

/// Brings a world that has room for it to rest.
fn come_to_rest<F: FrontEnd, A: Allocator + Copy, W: WireStore<A>>(
    world: &mut World<F, A, W>,
) -> Result<(), TurnsFault>
    requires going { world.old.failed ≡ false }
    requires room { length world.old.accepted + most_to_rest world.old.processes (run_in F.start world.old).nodes
        ≤ MOST_EVENTS }
    ensures { MatchResult result (λ _. (count : ℕ) × Settles F.start world.old count world.new)
        (λ fault. fault ≡ TurnsFault.OutOfMemory) }
{
    match settle(world) {
        Ok(_) => Ok(()),
        Err(SettleFault::OutOfMemory) => Err(TurnsFault::OutOfMemory),
        Err(SettleFault::TooManyEvents) => unreachable!(),
        Err(SettleFault::Failed) => unreachable!(),
    }
}

/// A process calls an operation in a world at rest, and the world is brought to rest again.
fn take_turn<F: FrontEnd, A: Allocator + Copy, W: WireStore<A>>(
    world: &mut World<F, A, W>,
    process: u8,
    op: Op,
) -> Result<(), TurnsFault>
    requires on { IsGoingOn F.start world.old }
    requires may { MayTurn F.start world.old.processes world.old.registers world.old.accepted process op }
    ensures { MatchResult result
        (λ _. IsTurn F.start world.old.processes world.old.registers world.old.accepted process op world.new)
        (λ fault. fault ≡ TurnsFault.OutOfMemory) }
{
    call(world, process, op)?;
    come_to_rest(world)
}

/// Takes the turns of an outcome, one after another, in a world in which nothing happened yet.
fn take_turns<F: FrontEnd, A: Allocator + Copy, W: WireStore<A>>(
    alloc: A,
    registers: u16,
    scripts: &[Vec<Op, A>],
    outcome: &Outcome<A>,
    world: &mut World<F, A, W>,
) -> Result<(), TurnsFault>
    requires new { world.old ≡ new_world (record { processes = length scripts.now; registers = registers }) }
    requires playable { ArePlayable (lists scripts.now) registers }
    requires outcome { IsInterleaving (lists scripts.now) registers outcome.now }
    requires room { HasRoom (lists scripts.now) }
    ensures { MatchResult result (λ _. IsRunOf F.start (lists scripts.now) registers outcome.now world.new)
        (λ fault. fault ≡ TurnsFault.OutOfMemory) }
{
    let mut stage = Stage::first(alloc, scripts.len(), registers)?;
    for turn in 0..outcome.turns.len() {
        let process = outcome.turns[turn];
        let Some(op) = stage.next_op(scripts, process) else {
            unreachable!()
        };
        take_turn(world, process, op)?;
        stage = stage.after(alloc, process, op)?;
    }
    Ok(())
}

/// A run that has an outcome of scripts, one for each process: the operations are called in the order of the outcome's
/// turns, and any lawful front end answers them what the outcome tells. After each turn `settle` brings the world to
/// rest, which no clause says.
///
/// # Errors
///
/// `TooManyEvents`: reckoned at `1 + 3 * n * (n - 1)` events for each operation among n processes (`HasRoom`), all
/// operations take more than `MOST_EVENTS`.
/// `OutOfMemory`: memory was refused.
pub fn run_outcome<F: FrontEnd, A: Allocator + Copy, W: WireStore<A>>(
    alloc: A,
    shape: Shape,
    scripts: &[Vec<Op, A>],
    outcome: &Outcome<A>,
) -> Result<World<F, A, W>, TurnsFault>
    requires processes { shape.processes ≡ length scripts.now }
    requires playable { ArePlayable (lists scripts.now) shape.registers }
    requires outcome { IsInterleaving (lists scripts.now) shape.registers outcome.now }
    ensures run { IfOk result (λ world. IsRunOf F.start (lists scripts.now) shape.registers outcome.now world) }
    ensures room { OnOk result (HasRoom (lists scripts.now)) }
    ensures refused { IfErr result (IsTurnsFault (lists scripts.now)) }
{
    let registers = shape.registers() as u16;
    if !has_room(scripts, registers) {
        return Err(TurnsFault::TooManyEvents);
    }
    let mut world = World::new(alloc, shape)?;
    take_turns(alloc, registers, scripts, outcome, &mut world)?;
    Ok(world)
}
