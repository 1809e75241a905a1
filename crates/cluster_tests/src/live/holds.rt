//! A thread that is held inside a call of a gate or of a road, until some time after its cluster began to be closed.
use crate::live::crews::{LONG, wait};
use std::process::Abort;
use std::sync::atomic::{AtomicBool, Ordering};
use std::sync::{Arc, Wait};
use std::thread;
use std::thread::{JoinHandle, Threads};

/// What the threads tell each other.
#[derive(Drop)]
pub struct Hold {
    /// The thread is held.
    pub inside: AtomicBool,
    /// The cluster is being closed.
    pub closing: AtomicBool,
    /// The thread may go on.
    pub released: AtomicBool,
}

impl Hold {
    pub fn new() -> Hold {
        Hold {
            inside: AtomicBool::new(false),
            closing: AtomicBool::new(false),
            released: AtomicBool::new(false),
        }
    }

    /// Holds the thread that calls it until it may go on.
    pub fn stay(&self) {
        self.inside.store(true, Ordering::SeqCst);
        let _set = wait(&self.released, LONG);
        self.inside.store(false, Ordering::SeqCst);
    }
}

/// Lets the thread go on some time after the cluster began to be closed, in a thread of its own.
pub fn release_later<R: Threads + Wait + Abort>(rt: &R, hold: &Arc<Hold>) -> JoinHandle<()> {
    let hold = Arc::try_clone(hold).expect(rt, "memory");
    thread::spawn(rt, move || {
        let _closing = wait(&hold.closing, LONG);
        let _long = wait(&hold.released, 30_000_000);
        hold.released.store(true, Ordering::SeqCst);
    })
    .expect(rt, "a thread")
}
