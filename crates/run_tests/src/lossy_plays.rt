//! Seeded plays with loss: the witness of each beside the plain list of it, and how many are finished. Each comes to
//! rest where it ended.
use crate::demands::demand_none;
use crate::plays::{LOSSY, SMALL, work_of};
use crate::resting::comes_to_rest;
use crate::seeded::{are_points, is_right};
use reg_front::{Front, FrontEnd, Linear, LocalRead, LocalWrite};
use reg_workload::{Play, SeedWords, Workload, play_seeded};
use std::alloc::Global;

/// A workload that swaps at each process.
pub(crate) const SWAPS: &str =
    "front = \"linear\"\nregisters = [\"x\"]\nscripts = [[\"swap x 1\", \"read x\", \"write x 2\"], [\"read x\", \"swap x 3\"], [\"swap x 4\", \"read x\"]]\n";

/// A workload that compares and swaps at each process, and reads.
const COMPARES: &str =
    "front = \"linear\"\nregisters = [\"x\"]\nscripts = [[\"cas x 0 1\", \"read x\", \"cas x 1 2\"], [\"read x\", \"cas x 0 3\"], [\"cas x 0 4\", \"write x 1\"]]\n";

/// A workload of three processes and two registers.
pub(crate) const THREE: &str =
    "front = \"linear\"\nregisters = [\"x\", \"y\"]\nscripts = [[\"write x 5\", \"swap y 1\", \"read x\"], [\"swap x 2\", \"write y 7\", \"read y\"], [\"read x\", \"write x 9\", \"swap y 3\"]]\n";

const REPEATS: &str = "repeat = 50\n";

const HALF_LOST: &str = "loss = 50\n";

/// Plays of a workload.
#[derive(Clone, Copy, Debug)]
struct Plays {
    /// The document of the workload.
    head: &'static str,
    /// Lines more of it.
    lines: &'static str,
    front: Front,
    /// How many seeds play it.
    seeds: u64,
}

macro_rules! plays {
    ($head:expr, $lines:expr, $front:ident, $seeds:expr) => {
        Plays {
            head: $head,
            lines: $lines,
            front: Front::$front,
            seeds: $seeds,
        }
    };
}

/// Plays, and the fewest of them that are finished.
const PLAYS: &[(Plays, u64)] = &[
    (plays!(SMALL, LOSSY, LocalWrite, 10), 10),
    (plays!(SMALL, LOSSY, LocalWrite, 200), 10),
    (plays!(SMALL, LOSSY, LocalRead, 5), 1),
    (plays!(SMALL, LOSSY, Linear, 5), 1),
    (plays!(SMALL, REPEATS, Linear, 10), 10),
    (plays!(SWAPS, LOSSY, LocalWrite, 5), 1),
    (plays!(SWAPS, LOSSY, LocalRead, 5), 1),
    (plays!(SWAPS, LOSSY, Linear, 5), 1),
    (plays!(COMPARES, LOSSY, LocalWrite, 5), 1),
    (plays!(COMPARES, LOSSY, LocalRead, 5), 1),
    (plays!(COMPARES, LOSSY, Linear, 5), 1),
    (plays!(THREE, HALF_LOST, LocalWrite, 5), 0),
    (plays!(THREE, HALF_LOST, LocalRead, 5), 0),
    (plays!(THREE, HALF_LOST, Linear, 5), 0),
];

/// Whether a play is finished. None where it has too many events, its witness isn't the plain list and a serial order,
/// or it doesn't come to rest.
fn end_of<F: FrontEnd>(alloc: Global, play: &mut Play<F>, budget: u32) -> Option<bool> {
    let world = &mut play.world;
    let right = world.events() <= budget && is_right(alloc, world) && comes_to_rest(world);
    right.then_some(play.finished)
}

/// The same of the play of a seed.
fn end_of_seed<F: FrontEnd>(alloc: Global, work: &Workload, seed: u64) -> Option<bool> {
    match play_seeded::<F, _, _>(alloc, work, SeedWords::new(seed)) {
        Ok(mut play) => end_of(alloc, &mut play, work.budget),
        Err(_) => None,
    }
}

/// The same of a linear play, whose points are looked at too.
fn end_of_linear(alloc: Global, play: &mut Play<Linear>, budget: u32) -> Option<bool> {
    if !are_points(alloc, &play.world) {
        return None;
    }
    end_of(alloc, play, budget)
}

/// The same of the linear play of a seed.
fn end_of_linear_seed(alloc: Global, work: &Workload, seed: u64) -> Option<bool> {
    match play_seeded::<Linear, _, _>(alloc, work, SeedWords::new(seed)) {
        Ok(mut play) => end_of_linear(alloc, &mut play, work.budget),
        Err(_) => None,
    }
}

/// How many plays of the first seeds are finished.
///
/// # Errors
///
/// The first seed whose play is wrong.
fn finished_plays(alloc: Global, work: &Workload, front: Front, seeds: u64) -> Result<u64, u64> {
    let mut count = 0u64;
    for seed in 0..seeds {
        let end = match front {
            Front::Linear => end_of_linear_seed(alloc, work, seed),
            Front::LocalRead => end_of_seed::<LocalRead>(alloc, work, seed),
            Front::LocalWrite => end_of_seed::<LocalWrite>(alloc, work, seed),
        };
        match end {
            Some(finished) => count = count.wrapping_add(u64::from(finished)),
            None => return Err(seed),
        }
    }
    Ok(count)
}

/// How many of these plays are finished. An error where one is wrong.
fn finished_of(alloc: Global, plays: &Plays, budget: u32) -> Result<u64, u64> {
    match work_of(alloc, plays.head, plays.lines, budget) {
        Some(work) => finished_plays(alloc, &work, plays.front, plays.seeds),
        None => Err(0),
    }
}

/// How many of these plays are finished, where they are too few or one is wrong.
fn too_few(alloc: Global, plays: &Plays, least: u64) -> Option<Result<u64, u64>> {
    match finished_of(alloc, plays, 100_000) {
        Ok(count) if count >= least => None,
        count => Some(count),
    }
}

#[test]
fn the_witness_of_each_play_is_the_plain_list(rt: HostRuntime) {
    for (plays, least) in PLAYS {
        demand_none(&rt, plays, &too_few(rt.alloc(), plays, *least));
    }
}

const TIGHT: Plays = plays!(SMALL, LOSSY, LocalWrite, 10);

/// How many plays of this budget are finished, where they are too many or one is wrong.
fn too_many(alloc: Global, budget: u32) -> Option<Result<u64, u64>> {
    match finished_of(alloc, &TIGHT, budget) {
        Ok(count) if budget > 2 || count == 0 => None,
        count => Some(count),
    }
}

/// A play of fewer events than its three operations isn't finished, and its lost casts stand in its witness too.
#[test]
fn a_lossy_play_keeps_a_tight_budget(rt: HostRuntime) {
    for budget in 1..40u32 {
        demand_none(&rt, &budget, &too_many(rt.alloc(), budget));
    }
}
