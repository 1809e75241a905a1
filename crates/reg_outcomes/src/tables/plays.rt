//! Many plays of a workload, and what they told.
ghost use Rattle.std.specs.Prelude.{◌≡◌, ◌≤◌, ◌<◌, ◌++◌, ◌∷◌, ◌+◌, List, [], IfOk, IfErr, OnOk, length};
ghost use Rattle.reg_outcomes.specs.declared.orders.kinds.OrderKind.TheVariants.{Points};
ghost use Rattle.reg_outcomes.specs.declared.interleavings.outcomes.TheConstants.{MOST_STAGES};
ghost use Rattle.reg_outcomes.specs.Finding.{IsFindFault};
ghost use Rattle.reg_outcomes.specs.PlayTables.{Seen};
ghost use Rattle.reg_outcomes.specs.Counts.{HasRoom, IsCounted};
ghost use Rattle.reg_outcomes.specs.Outcomes.{AreOutcomes, AreSeen, HasLateWitness, IsPlayFault, IsPlaysFault, IsSeen};
ghost use Rattle.reg_outcomes.specs.Timing.{IsSeenIn};

use crate::faults::InterleavingFault;
use crate::tables::rows::{Row, table_of};
use crate::tables::tallies::{Glance, Tallies};
use crate::tables::timing::is_linearizable;
use crate::tables::undrawn::count_undrawn;
use crate::told::tell;
use reg_front::FrontEnd;
use reg_workload::{Play, SeedWords, Workload, play_seeded_in};
use reg_world::{UnlistedWires, World};
use std::alloc::{Allocator, Global};

/// The most plays of a table.
pub const MOST_PLAYS: u32 = 1_000_000;

/// What many plays of a workload told.
#[derive(Drop)]
pub struct Outcomes<A: Allocator + Copy = Global> {
    /// A line for each outcome, by falling count, and then by outcome.
    pub rows: Vec<Row<A>, A>,
    /// In how many plays some operation is not answered.
    pub unfinished: u32,
    /// How many of all outcomes of the scripts no finished play had. None where interleavings go through too many
    /// stages.
    pub undrawn: Option<usize>,
}

/// Counts what a finished play told.
fn count_finished<F: FrontEnd, A: Allocator + Copy>(
    alloc: A,
    world: &World<F, A, UnlistedWires<A>>,
    seed: u64,
    tallies: &mut Tallies<A>,
) -> Result<(), InterleavingFault>
    requires { HasRoom (λ v. v.items) tallies.old.told }
    ensures counted { OnOk result
        ((s : Seen) × IsSeenIn world.now seed s
        × ((plays : List Seen) → IsCounted (λ v. v.items) plays tallies.old.told tallies.old.unfinished
        → IsCounted (λ v. v.items) (plays ++ s ∷ []) tallies.new.told tallies.new.unfinished)) }
    ensures refused { IfErr result
        (λ f. IsFindFault Points world.now.processes world.now.registers world.now.history MOST_STAGES f
        × (f ≡ InterleavingFault.TooManyStages → HasLateWitness F.start world.now)) }
{
    let (history, order) = world.serial_order()?;
    let linearizable = is_linearizable(alloc, history, order.as_slice())?;
    let outcome = tell(alloc, history)?;
    let events = world.events();
    let glance = Glance {
        seed,
        events,
        linearizable,
    };
    tallies.add(outcome, glance)?;
    Ok(())
}

/// Counts what the play from this seed told.
fn count_play<F: FrontEnd, A: Allocator + Copy>(
    alloc: A,
    work: &Workload<A>,
    seed: u64,
    tallies: &mut Tallies<A>,
) -> Result<(), InterleavingFault>
    requires scripts { work.now.shape.processes ≡ length work.now.scripts }
    requires told { HasRoom (λ v. v.items) tallies.old.told }
    requires unfinished { tallies.old.unfinished < u32.MAX }
    ensures counted { OnOk result
        ((s : Seen) × IsSeen F.start work.now seed s
        × ((plays : List Seen) → IsCounted (λ v. v.items) plays tallies.old.told tallies.old.unfinished
        → IsCounted (λ v. v.items) (plays ++ s ∷ []) tallies.new.told tallies.new.unfinished)) }
    ensures refused { IfErr result (IsPlayFault F.start work.now seed) }
{
    let words = SeedWords::new(seed);
    let play: Play<F, A, UnlistedWires<A>> = play_seeded_in(alloc, work, words)?;
    // (for the proof: by these getters' contracts the world is the run of its events)
    play.world.events();
    play.world.history();
    if play.finished {
        count_finished(alloc, &play.world, seed, tallies)
    } else {
        tallies.add_unfinished();
        Ok(())
    }
}

/// Counts what the given number of plays told.
fn count_plays<F: FrontEnd, A: Allocator + Copy>(
    alloc: A,
    work: &Workload<A>,
    plays: u32,
) -> Result<Tallies<A>, InterleavingFault>
    requires { plays ≤ MOST_PLAYS }
    ensures counted { IfOk result
        (λ t. (seen : List Seen) × AreSeen F.start work.now plays seen
        × IsCounted (λ v. v.items) seen t.told t.unfinished) }
    ensures refused { IfErr result (IsPlaysFault F.start work.now plays) }
{
    let mut tallies = Tallies::new(alloc);
    let first = work.seed;
    for turn in 0..plays {
        let seed = first.wrapping_add(turn as u64);
        count_play::<F, A>(alloc, work, seed, &mut tallies)?;
    }
    Ok(tallies)
}

/// Plays a workload `plays` times, each time by the words of a seed of its own: the first by those of the workload's
/// seed, and each other by those of the next number, modulo 2^64. The lines tell what the finished plays answered, and
/// of each outcome whether the history of some play that has it is linearizable. One play is kept at a time, which no
/// clause says.
///
/// # Errors
///
/// Whether a play is linearizable was not found, since its witness doesn't keep the real time, and some number of its
/// operations, placed in search of a point order, leads to more stages than `MOST_STAGES`; or memory was refused.
pub fn play_many<F: FrontEnd, A: Allocator + Copy>(
    alloc: A,
    work: &Workload<A>,
    plays: u32,
) -> Result<Outcomes<A>, InterleavingFault>
    requires { plays ≤ MOST_PLAYS }
    ensures told { IfOk result (λ o. AreOutcomes F.start work.now plays o.rows.items o.unfinished o.undrawn) }
    ensures refused { IfErr result (IsPlaysFault F.start work.now plays) }
{
    let tallies = count_plays::<F, A>(alloc, work, plays)?;
    let undrawn = count_undrawn(alloc, work, &tallies.told)?;
    let Tallies { told, unfinished } = tallies;
    let rows = table_of(alloc, told)?;
    Ok(Outcomes {
        rows,
        unfinished,
        undrawn,
    })
}
