//! The start of a running cluster, and its end.
ghost use Rattle.std.specs.Prelude.{◌≡◌, IfOk, IfErr};
ghost use Rattle.reg_base.specs.Lists.{lists};
ghost use Rattle.reg_live.specs.Passes.{IsLived, IsUnclosed, AreOneEach, AreOwn, AreNew, RespectTime, RespectUpdates};

use crate::closing::{Closed, close_in};
use crate::clusters::{Cluster, Parts, set_up};
use crate::couriers::Courier;
use crate::crews::{Crew, Worker, pace};
use crate::gates::Gate;
use crate::halts::halt;
use crate::pacers::Pacer;
use crate::passes::Pass;
use crate::roads::Road;
use reg_base::Shape;
use reg_front::FrontEnd;
use reg_records::CloseFault;
use reg_world::WireStore;
use std::alloc::{AllocError, Global};
use std::marker::Model;
use std::sync::{Arc, Wait};
use std::thread::Threads;
use std::time::Clock;
use thiserror::Error;

/// Why a cluster was not started.
#[derive(Clone, Copy, Debug, PartialEq, Eq, Error)]
pub enum StartFault {
    /// There was no memory for it, or one of its threads couldn't be made.
    #[error("out of memory")]
    OutOfMemory,
}

impl From<AllocError> for StartFault {
    ghost use Rattle.reg_live.specs.declared.running.StartFault.TheVariants.{OutOfMemory};

    ghost from_gives = { λ _ fault. fault ≡ OutOfMemory };

    fn from(_error: AllocError) -> StartFault {
        Self::OutOfMemory
    }
}

/// A cluster whose couriers and pacer run. Contracts see it as its shape. Where it is dropped without `close`, its
/// threads run on.
#[derive(Drop)]
pub struct Running<F: FrontEnd, G> {
    cluster: Cluster<F, G>,
    couriers: Vec<Worker<Courier<F, G>>>,
    pacer: Worker<Pacer<F, G>>,
}

impl<F: FrontEnd, G> Model for Running<F, G> {
    ghost use Rattle.reg_base.specs.Shape.{Extent};

    ghost Value = { Extent };

    ghost view = { λ r. r.cluster };
}

impl<F: FrontEnd, G: Gate + Drop> Running<F, G> {
    /// Stops the cluster, waits for its threads, and closes it.
    ///
    /// # Errors
    ///
    /// Those of `close` of the cluster. Its threads are joined before, which no clause says.
    pub fn close<R: Threads + Wait>(
        self,
        rt: &R,
        alloc: Global,
        passes: Vec<Pass<F, G>>,
    ) -> Result<Closed<F>, CloseFault>
        ensures lived { IfOk result (λ c. IsLived F.start self (lists c.receipts.items) c.world) }
        ensures each { IfOk result (λ c. AreOneEach passes.items self.processes) }
        ensures own { IfOk result (λ c. AreOwn passes.items (lists c.receipts.items)) }
        ensures time { IfOk result (λ c. RespectTime c.world.registers c.world.history (lists c.receipts.items)) }
        ensures updates { IfOk result (λ c. RespectUpdates F.start c.world.history (lists c.receipts.items)) }
        ensures refused { IfErr result (IsUnclosed F.start self passes.items) }
    {
        self.close_in(rt, alloc, passes)
    }

    /// `close`, with the run in a world that keeps its wires in a store of the caller's choice.
    ///
    /// # Errors
    ///
    /// Those of `close`.
    pub fn close_in<R: Threads + Wait, W: WireStore<Global>>(
        self,
        rt: &R,
        alloc: Global,
        passes: Vec<Pass<F, G>>,
    ) -> Result<Closed<F, W>, CloseFault>
        ensures lived { IfOk result (λ c. IsLived F.start self (lists c.receipts.items) c.world) }
        ensures each { IfOk result (λ c. AreOneEach passes.items self.processes) }
        ensures own { IfOk result (λ c. AreOwn passes.items (lists c.receipts.items)) }
        ensures time { IfOk result (λ c. RespectTime c.world.registers c.world.history (lists c.receipts.items)) }
        ensures updates { IfOk result (λ c. RespectUpdates F.start c.world.history (lists c.receipts.items)) }
        ensures refused { IfErr result (IsUnclosed F.start self passes.items) }
    {
        let Running {
            cluster,
            couriers,
            pacer,
        } = self;
        let halted = halt(rt, &cluster);
        halted.join_all(rt, couriers);
        let pacer = halted.join(rt, pacer);
        let parts = Parts {
            cluster,
            passes,
            couriers: Vec::new(alloc),
            pacer,
        };
        close_in(rt, alloc, parts)
    }
}

/// Starts the threads of a cluster, the pacer's first, and hands on its passes. Where one can't be made, those that
/// were are stopped, and have ended.
fn run_parts<
    F: FrontEnd + Send + Sync + 'static,
    G: Gate + Drop + Send + Sync + 'static,
    P: Road + Drop + Send + Sync + 'static,
    R: Threads + Wait + Clock + Copy + Send + Sync + 'static,
>(
    rt: R,
    alloc: Global,
    parts: Parts<F, G>,
    road: &Arc<P>,
) -> Result<(Running<F, G>, Vec<Pass<F, G>>), StartFault>
    ensures cluster { IfOk result (λ started. started.0 ≡ parts.cluster) }
    ensures passes { IfOk result (λ started. started.1 ≡ parts.passes) }
{
    let Parts {
        cluster,
        passes,
        couriers,
        pacer,
    } = parts;
    let mut crew = Crew {
        couriers: Vec::new(alloc),
        pacer: pace(rt, pacer)?,
    };
    if crew.start(rt, couriers, road).is_err() {
        crew.disband(&rt, &cluster);
        return Err(StartFault::OutOfMemory);
    }
    let Crew { couriers, pacer } = crew;
    let running = Running {
        cluster,
        couriers,
        pacer,
    };
    Ok((running, passes))
}

/// Sets up a cluster, and starts a thread for each courier, all over one road, and one for the pacer. The passes are
/// one for each process, in order, and nothing was called yet.
///
/// # Errors
///
/// `OutOfMemory` where memory or a thread was refused. The threads that were made are joined before.
pub fn start<
    F: FrontEnd + Send + Sync + 'static,
    G: Gate + Drop + Send + Sync + 'static,
    P: Road + Drop + Send + Sync + 'static,
    R: Threads + Wait + Clock + Copy + Send + Sync + 'static,
>(
    rt: R,
    alloc: Global,
    shape: Shape,
    gate: G,
    road: Arc<P>,
) -> Result<(Running<F, G>, Vec<Pass<F, G>>), StartFault>
    ensures cluster { IfOk result (λ started. started.0 ≡ shape) }
    ensures passes { IfOk result (λ started. AreNew shape started.1.items) }
{
    let parts = set_up::<F, G>(alloc, shape, gate)?;
    run_parts(rt, alloc, parts, &road)
}
