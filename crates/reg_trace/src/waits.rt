//! The casts that a process holds back, and whom each waits for.
ghost use Rattle.std.specs.Prelude.{◌≡◌, ◌<◌, ◌++◌, false, length, IfOk, OnOk};
ghost use Rattle.reg_world.specs.Worlds.{run_in};
ghost use Rattle.reg_trace.specs.Waits.{first_unheard as lowest_unheard, is_unheard as unheard_by, wait_for, waits_of};

use reg_base::Stamp;
use reg_front::FrontEnd;
use reg_process::Process;
use reg_world::World;
use std::alloc::{AllocError, Allocator};

/// A cast that a process holds back, and the lowest process that it hasn't heard past its stamp.
#[derive(Clone, Copy, Debug, PartialEq, Eq)]
pub struct Wait {
    pub stamp: Stamp,
    pub unheard: u8,
}

/// Whether a process hasn't heard another one past a stamp.
fn is_unheard<F: FrontEnd, A: Allocator + Copy>(
    process: &Process<F, A>,
    me: u8,
    stamp: Stamp,
    other: u8,
) -> bool
    requires me { process.now.state.me ≡ me }
    requires other { other < length process.now.state.peers }
    ensures { result ≡ unheard_by process.now.state stamp other }
{
    if other == me {
        return false;
    }
    match process.known(other) {
        Some(known) => {
            known.seen < stamp.time || (known.seen == stamp.time && other < stamp.process)
        }
        None => unreachable!(),
    }
}

/// The lowest of the given number of processes that a process hasn't heard past a stamp.
fn first_unheard<F: FrontEnd, A: Allocator + Copy>(
    process: &Process<F, A>,
    me: u8,
    processes: u8,
    stamp: Stamp,
) -> Option<u8>
    requires me { process.now.state.me ≡ me }
    requires all { length process.now.state.peers ≡ processes }
    ensures { result ≡ lowest_unheard process.now.state stamp processes }
{
    let mut lowest = None;
    for other in 0..processes {
        if lowest.is_none() && is_unheard(process, me, stamp, other) {
            lowest = Some(other);
        }
    }
    lowest
}

/// Adds a cast that waits for a process, if it does.
fn push_wait<A: Allocator + Copy>(
    waits: &mut Vec<Wait, A>,
    stamp: Stamp,
    lowest: Option<u8>,
) -> Result<(), AllocError>
    ensures { OnOk result (waits.new.items ≡ waits.old.items ++ wait_for stamp lowest) }
{
    if let Some(unheard) = lowest {
        waits.push(Wait { stamp, unheard })?;
    }
    Ok(())
}

/// The casts that a process holds back, each with the process that it waits for.
fn waits_at<F: FrontEnd, A: Allocator + Copy>(
    alloc: A,
    process: &Process<F, A>,
    me: u8,
    processes: u8,
) -> Result<Vec<Wait, A>, AllocError>
    requires me { process.now.state.me ≡ me }
    requires all { length process.now.state.peers ≡ processes }
    ensures { IfOk result (λ v. v.items ≡ waits_of processes process.now.state process.now.state.held) }
{
    let held = process.held(alloc)?;
    let mut waits = Vec::new(alloc);
    for cast in &held {
        let lowest = first_unheard(process, me, processes, cast.stamp);
        push_wait(&mut waits, cast.stamp, lowest)?;
    }
    Ok(waits)
}

/// The casts that a process of a world holds back, each with the process that it waits for.
pub(crate) fn waits_in<F: FrontEnd, A: Allocator + Copy>(
    alloc: A,
    world: &World<F, A>,
    process: u8,
) -> Result<Vec<Wait, A>, AllocError>
    requires going { world.now.failed ≡ false }
    requires process { process < world.now.processes }
    ensures { IfOk result (λ v. v.items
        ≡ waits_of world.now.processes ((run_in F.start world.now).nodes process).state
        ((run_in F.start world.now).nodes process).state.held) }
{
    match world.process(process) {
        Some(found) => waits_at(alloc, found, process, world.shape().processes() as u8),
        None => unreachable!(),
    }
}
