//! What all threads of a cluster share.
ghost use Rattle.std.specs.Prelude.{◌≡◌, ◌≤◌, false, is_some, vec_len, IfOk, IfErr};
ghost use Rattle.reg_live.specs.Stations.{IsRefusal};

use crate::faults::LiveFault;
use crate::gates::Gate;
use crate::journals::{GatedJournal, Journal};
use crate::stations::{Request, Section, Station};
use reg_base::Shape;
use reg_front::FrontEnd;
use std::alloc::{AllocError, Global};
use std::sync::{Condvar, Mutex, MutexGuard, Wait};

/// A station under its lock, and what wakes the caller that waits for its answer.
#[derive(Drop)]
pub(crate) struct Desk<F: FrontEnd> {
    pub(crate) station: Mutex<Station<F>>,
    pub(crate) changed: Condvar,
}

/// What all threads of a cluster share.
#[derive(Drop)]
pub(crate) struct Shared<F: FrontEnd, G> {
    pub(crate) desks: Vec<Desk<F>>,
    pub(crate) gated: GatedJournal<G>,
    pub(crate) shape: Shape,
    ghost one_each: { vec_len desks ≡ shape.processes },
}

/// A desk for each process.
fn new_desks<F: FrontEnd>(alloc: Global, shape: Shape) -> Result<Vec<Desk<F>>, AllocError>
    ensures { IfOk result (λ v. vec_len v ≡ shape.processes) }
{
    let mut desks = Vec::new(alloc);
    for me in 0..shape.processes() {
        desks.push(Desk {
            station: Mutex::new(Station::new(alloc, shape, me as u8)?),
            changed: Condvar::new(),
        })?;
    }
    Ok(desks)
}

/// Stations that did nothing yet.
pub(crate) fn new_shared<F: FrontEnd, G: Drop>(
    alloc: Global,
    shape: Shape,
    gate: G,
) -> Result<Shared<F, G>, AllocError>
    ensures { IfOk result (λ s. s.shape ≡ shape) }
{
    let desks = new_desks(alloc, shape)?;
    let gated = GatedJournal {
        gate,
        journal: Mutex::new(Journal::new(alloc)),
    };
    Ok(Shared {
        desks,
        gated,
        shape,
    })
}

impl<F: FrontEnd> Desk<F> {
    /// Lets no caller wait here any more, and wakes the one that does.
    fn end_waiting<R: Wait>(&self, rt: &R) {
        let ended = self.station.lock(rt).end_waiting();
        ended.wake(&self.changed);
    }
}

/// Whether a section gave an answer.
fn is_answered(made: &Result<Section, LiveFault>) -> bool
    ensures made { IfOk made.now (λ section. result ≡ is_some section.reply) }
    ensures refused { IfErr made.now (λ _. result ≡ false) }
{
    match made {
        Ok(section) => section.reply.is_some(),
        Err(_) => false,
    }
}

impl<F: FrontEnd, G: Gate> Shared<F, G> {
    /// One section of a process at the station that is lent, whose lock is then let go. The caller that waits there is
    /// woken by an answer. Where the station has stopped, or the journal has no place left, all callers that wait are.
    pub(crate) fn section<R: Wait>(
        &self,
        rt: &R,
        desk: &Desk<F>,
        station: MutexGuard<'_, Station<F>>,
        request: Request,
    ) -> Result<Section, LiveFault>
        ensures own { IfOk result (λ section. section.spot.process ≡ request.process) }
        ensures floor { IfOk result (λ section. request.floor ≤ section.spot.place) }
        ensures refusal { IfErr result (λ fault. IsRefusal self.now.shape.registers request.floor request.step fault) }
    {
        let mut station = station;
        let registers = self.shape.registers();
        let made = station.section(rt, &self.gated, registers, request);
        let ends = station.ends_waiting();
        drop(station);
        if is_answered(&made) {
            desk.changed.notify_all();
        }
        if ends {
            self.end_waiting(rt);
        }
        made
    }

    /// Lets no caller wait any more: one that waits at a station, or comes to wait there later, is told that it failed.
    pub(crate) fn end_waiting<R: Wait>(&self, rt: &R) {
        for desk in &self.desks {
            desk.end_waiting(rt);
        }
    }
}
