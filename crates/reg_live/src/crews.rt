//! The threads of a cluster.
use crate::clusters::Cluster;
use crate::couriers::Courier;
use crate::gates::Gate;
use crate::halts::halt;
use crate::pacers::Pacer;
use crate::roads::Road;
use reg_front::FrontEnd;
use std::alloc::AllocError;
use std::sync::{Arc, Wait};
use std::thread;
use std::thread::{JoinHandle, Threads};
use std::time::Clock;

/// A thread of a cluster. It is joined only after Stop (`Halted::join`).
#[derive(Drop)]
pub(crate) struct Worker<T> {
    pub(crate) handle: JoinHandle<T>,
}

/// Starts a courier over the road.
fn carry<
    F: FrontEnd + Send + Sync + 'static,
    G: Gate + Drop + Send + Sync + 'static,
    P: Road + Drop + Send + Sync + 'static,
    R: Threads + Wait + Copy + Send + Sync + 'static,
>(rt: R, courier: Courier<F, G>, road: Arc<P>) -> Result<Worker<Courier<F, G>>, AllocError> {
    let mut courier = courier;
    let started = thread::spawn(&rt, move || {
        let over: &P = &road;
        courier.run(&rt, over);
        courier
    });
    match started {
        Ok(handle) => Ok(Worker { handle }),
        Err(_) => Err(AllocError),
    }
}

/// Starts the pacer.
pub(crate) fn pace<
    F: FrontEnd + Send + Sync + 'static,
    G: Gate + Drop + Send + Sync + 'static,
    R: Threads + Wait + Clock + Copy + Send + Sync + 'static,
>(rt: R, pacer: Pacer<F, G>) -> Result<Worker<Pacer<F, G>>, AllocError> {
    let mut pacer = pacer;
    let started = thread::spawn(&rt, move || {
        pacer.run(&rt);
        pacer
    });
    match started {
        Ok(handle) => Ok(Worker { handle }),
        Err(_) => Err(AllocError),
    }
}

/// The threads of a cluster that is being started. They can't be let go: they become those of a running cluster, or are
/// disbanded.
pub(crate) struct Crew<F: FrontEnd, G> {
    pub(crate) couriers: Vec<Worker<Courier<F, G>>>,
    pub(crate) pacer: Worker<Pacer<F, G>>,
}

impl<F: FrontEnd + Send + Sync + 'static, G: Gate + Drop + Send + Sync + 'static> Crew<F, G> {
    /// Starts each courier. Those that were started belong to the crew, also where one could not be.
    pub(crate) fn start<
        P: Road + Drop + Send + Sync + 'static,
        R: Threads + Wait + Copy + Send + Sync + 'static,
    >(&mut self, rt: R, couriers: Vec<Courier<F, G>>, road: &Arc<P>) -> Result<(), AllocError> {
        for courier in couriers {
            self.couriers.reserve(1)?;
            self.couriers
                .push_reserved(carry(rt, courier, Arc::try_clone(road)?)?);
        }
        Ok(())
    }

    /// Gives notice to all threads of the cluster, and waits until those of the crew are done.
    pub(crate) fn disband<R: Threads + Wait>(self, rt: &R, cluster: &Cluster<F, G>) {
        let Crew { couriers, pacer } = self;
        let halted = halt(rt, cluster);
        halted.join_all(rt, couriers);
        drop(halted.join(rt, pacer));
    }
}
