//! Notice to the threads of a cluster that they are to end.
ghost use Rattle.std.specs.Prelude.{◌≡◌, ◌+◌, ◌<◌, ◌^◌};

use crossbeam_channel::{SendError, Sender};
use std::alloc::AllocError;
use std::marker::Model;
use std::sync::Wait;

/// A token: a thread was given notice, or is gone.
#[derive(Drop)]
pub(crate) struct Notice(());

/// Gives notice to the thread that receives there, unless memory is refused.
pub(crate) fn give_notice<T: Drop, R: Wait>(
    rt: &R,
    to: &Sender<T>,
    stop: T,
) -> Result<Notice, AllocError> {
    match to.send(rt, stop) {
        Ok(()) | Err(SendError::Disconnected(_)) => Ok(Notice(())),
        Err(SendError::OutOfMemory(_)) => Err(AllocError),
    }
}

/// Notices to threads, one for each. Contracts see how many they are.
#[derive(Drop)]
pub(crate) struct Notices {
    count: usize,
}

impl Model for Notices {
    ghost use Rattle.std.specs.Prelude.{ℕ};

    ghost Value = { ℕ };

    ghost view = { λ n. n.count };
}

impl Notices {
    pub(crate) fn none() -> Notices
        ensures { result ≡ 0 }
    {
        Notices { count: 0 }
    }

    pub(crate) fn count(&self) -> usize
        ensures { result ≡ self.now }
    {
        self.count
    }

    /// One more.
    pub(crate) fn add(&mut self, _notice: Notice)
        requires { self.old < 2 ^ 63 }
        ensures { self.new ≡ self.old + 1 }
    {
        self.count += 1;
    }
}
