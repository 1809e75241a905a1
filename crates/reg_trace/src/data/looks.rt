//! What is told of the state of a process.
ghost use Rattle.std.specs.Prelude.{◌≡◌, ◌<◌, false, length, IfOk};
ghost use Rattle.reg_world.specs.Worlds.{run_in};
ghost use Rattle.reg_trace.specs.Looks.{kept_of, look_of, peers_of};

use reg_base::{Registers, Shape};
use reg_front::FrontEnd;
use reg_process::{Awaited, Delivered, Known, Process};
use reg_world::World;
use std::alloc::{AllocError, Allocator, Global};
use std::marker::Model;

/// A register of a copy, with its value.
#[derive(Clone, Copy, Debug, PartialEq, Eq)]
pub struct Kept {
    pub register: u16,
    pub value: u64,
}

/// What is told of the state of a process.
#[derive(Drop)]
pub struct Look<A: Allocator + Copy = Global> {
    /// What it knows of each process, and keeps for it. None in its own place.
    pub peers: Vec<Option<Known>, A>,
    /// The casts that it holds back, in the order of their stamps.
    pub held: Vec<Delivered, A>,
    /// The registers of its copy that are not 0.
    pub copy: Vec<Kept, A>,
    /// How many casts it delivered.
    pub delivered: u64,
    /// What the running operation waits for.
    pub awaited: Option<Awaited>,
}

impl<A: Allocator + Copy> Model for Look<A> {
    ghost use Rattle.std.specs.Prelude.{option_map};
    ghost use Rattle.reg_process.specs.Waits.{running_of};
    ghost use Rattle.reg_trace.specs.Looks.{Look as AnyLook};

    ghost Value = { AnyLook };

    ghost view = { λ l.
        record {
          peers = l.peers.items;
          held = l.held.items;
          copy = l.copy.items;
          delivered = l.delivered;
          running = option_map running_of l.awaited;
        } };
}

/// What a process knows of each of the first `processes` processes, and keeps for it.
fn peers<F: FrontEnd, A: Allocator + Copy>(
    alloc: A,
    process: &Process<F, A>,
    me: u8,
    processes: u8,
) -> Result<Vec<Option<Known>, A>, AllocError>
    requires me { process.now.state.me ≡ me }
    requires all { length process.now.state.peers ≡ processes }
    ensures { IfOk result (λ v. v.items ≡ peers_of process.now.state processes) }
{
    let mut peers = Vec::new(alloc);
    for other in 0..processes {
        if other == me {
            peers.push(None)?;
        } else {
            match process.known(other) {
                Some(known) => peers.push(Some(known))?,
                None => unreachable!(),
            }
        }
    }
    Ok(peers)
}

/// The registers that are not 0, of the first `registers` ones.
fn kept_among<A: Allocator + Copy>(
    alloc: A,
    values: &Registers<A>,
    registers: u16,
) -> Result<Vec<Kept, A>, AllocError>
    ensures { IfOk result (λ v. v.items ≡ kept_of values.now registers) }
{
    let mut kept = Vec::new(alloc);
    for register in 0..registers {
        let value = values.get(register).unwrap_or(0);
        if value != 0 {
            kept.push(Kept { register, value })?;
        }
    }
    Ok(kept)
}

/// What is told of the state of a process, the one of this number.
fn look_at<F: FrontEnd, A: Allocator + Copy>(
    alloc: A,
    shape: Shape,
    process: &Process<F, A>,
    me: u8,
) -> Result<Look<A>, AllocError>
    requires me { process.now.state.me ≡ me }
    requires all { length process.now.state.peers ≡ shape.processes }
    ensures { IfOk result (λ l. l ≡ look_of shape process.now.state) }
{
    Ok(Look {
        peers: peers(alloc, process, me, shape.processes() as u8)?,
        held: process.held(alloc)?,
        copy: kept_among(alloc, process.registers(), shape.registers() as u16)?,
        delivered: process.delivered_count(),
        awaited: process.awaited(),
    })
}

/// The state of a process of a world.
pub(crate) fn look_in<F: FrontEnd, A: Allocator + Copy>(
    alloc: A,
    world: &World<F, A>,
    process: u8,
) -> Result<Look<A>, AllocError>
    requires going { world.now.failed ≡ false }
    requires process { process < world.now.processes }
    ensures { IfOk result (λ l. l
        ≡ look_of (record { processes = world.now.processes; registers = world.now.registers })
        ((run_in F.start world.now).nodes process).state) }
{
    match world.process(process) {
        Some(found) => look_at(alloc, world.shape(), found, process),
        None => unreachable!(),
    }
}
