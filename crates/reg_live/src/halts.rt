//! The end of a cluster's threads.
ghost use Rattle.std.specs.Prelude.{◌≡◌, IfSome};

use crate::clusters::Cluster;
use crate::couriers::Courier;
use crate::crews::Worker;
use crate::gates::Gate;
use crate::notices::{Notice, Notices};
use crate::roads::Posts;
use reg_front::FrontEnd;
use std::sync::Wait;
use std::thread::Threads;

/// A token: all threads of a cluster were given notice, so that they end.
#[derive(Drop)]
pub(crate) struct Halted(());

/// Gives notice until memory is there for it.
pub(crate) fn halt<F: FrontEnd, G: Gate, R: Wait>(rt: &R, cluster: &Cluster<F, G>) -> Halted {
    for _ in rt.forever() {
        if let Ok(halted) = cluster.halt(rt) {
            return halted;
        }
    }
    unreachable!()
}

impl Halted {
    /// The token, where no courier's notice is missing.
    pub(crate) fn by(posts: &Posts, couriers: Notices, _pacer: Notice) -> Option<Halted>
        ensures { IfSome result (λ _. couriers ≡ posts.now) }
    {
        if couriers.count() == posts.count() {
            Some(Halted(()))
        } else {
            None
        }
    }

    /// Waits until a thread is done.
    pub(crate) fn join<T, R: Threads + Wait>(&self, rt: &R, worker: Worker<T>) -> T {
        let Worker { handle } = worker;
        handle.join(rt)
    }

    /// Waits until the couriers are done.
    pub(crate) fn join_all<F: FrontEnd, G: Gate + Drop, R: Threads + Wait>(
        &self,
        rt: &R,
        couriers: Vec<Worker<Courier<F, G>>>,
    ) {
        for courier in couriers {
            drop(self.join(rt, courier));
        }
    }
}
