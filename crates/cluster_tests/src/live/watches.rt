//! A limit of time on a test whose threads could wait for ever, so that its failure names itself.
use std::alloc::Global;
use std::process::Abort;
use std::sync::atomic::{AtomicBool, Ordering};
use std::sync::{Arc, Wait};
use std::thread;
use std::thread::{JoinHandle, Threads};
use std::time::{Clock, Duration};

/// A test that has some seconds to end.
#[derive(Drop)]
pub struct Watch {
    ended: Arc<AtomicBool>,
    watcher: JoinHandle<()>,
}

/// Looks every 10 milliseconds, for 5 seconds, whether the test has ended.
fn has_ended<R: Clock>(rt: &R, ended: &AtomicBool) -> bool {
    for _look in 0..500u32 {
        if ended.load(Ordering::SeqCst) {
            return true;
        }
        thread::sleep(rt, Duration::from_millis(10));
    }
    false
}

impl Watch {
    /// Begins to watch the test.
    pub fn new<R: Threads + Wait + Clock + Abort + Copy + Send + Sync + 'static>(
        rt: R,
        alloc: Global,
    ) -> Watch {
        let ended = Arc::new(alloc, AtomicBool::new(false)).expect(&rt, "memory");
        let seen = Arc::try_clone(&ended).expect(&rt, "memory");
        let watcher = thread::spawn(&rt, move || {
            let in_time = has_ended(&rt, &seen);
            assert!(rt; in_time, "the test waits for what never comes");
        })
        .expect(&rt, "a thread");
        Watch { ended, watcher }
    }

    /// The test has ended.
    pub fn end<R: Threads>(self, rt: &R) {
        let Watch { ended, watcher } = self;
        ended.store(true, Ordering::SeqCst);
        watcher.join(rt);
    }
}
