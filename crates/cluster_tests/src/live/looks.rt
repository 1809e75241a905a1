//! How long the pacer pauses between two looks.
use crate::live::crews::{LONG, join_all, parts_of, pass_of, send_off, shut, size_of, wait};
use crate::live::pacing::length_of;
use crate::values::write;
use reg_front::LocalWrite;
use reg_live::{NoGate, Pacer, Parcel, Parts, Pass, Posts, Road};
use std::process::Abort;
use std::sync::atomic::{AtomicBool, AtomicU64, Ordering};
use std::sync::{Arc, Wait};
use std::thread::{JoinHandle, Threads};
use std::time::{Clock, Duration};
use std::{io, thread};

/// Loses all parcels, and tells that one was sent.
#[derive(Drop)]
struct Losing {
    sent: Arc<AtomicBool>,
}

impl Road for Losing {
    fn send<R: Wait>(&self, _rt: &R, _posts: &Posts, _parcel: Parcel) {
        self.sent.store(true, Ordering::SeqCst);
    }
}

/// A clock that stands at the start when it is read first, just before 10 milliseconds up to its hundredth reading,
/// and at 10 milliseconds from then on. It holds whoever reads it then, and 20 readings later, until it may go on.
#[derive(Drop)]
struct Held {
    readings: AtomicU64,
    before: AtomicBool,
    go_on: AtomicBool,
    behind: AtomicBool,
    end: AtomicBool,
}

impl Held {
    fn new() -> Held {
        Held {
            readings: AtomicU64::new(0),
            before: AtomicBool::new(false),
            go_on: AtomicBool::new(false),
            behind: AtomicBool::new(false),
            end: AtomicBool::new(false),
        }
    }

    fn read(&self) -> Duration {
        let reading = self.readings.fetch_add(1, Ordering::SeqCst);
        if reading == 100 {
            self.before.store(true, Ordering::SeqCst);
            let _set = wait(&self.go_on, LONG);
        }
        if reading == 120 {
            self.behind.store(true, Ordering::SeqCst);
            let _set = wait(&self.end, LONG);
        }
        match reading {
            0 => Duration::from_millis(0),
            1..=100 => Duration::from_micros(9_990),
            _ => Duration::from_millis(10),
        }
    }
}

/// A handle whose clock is held.
#[derive(Drop)]
struct Timed<R> {
    _rt: R,
    clock: Arc<Held>,
}

impl<R: Wait> Wait for Timed<R> {}

impl<R> Clock for Timed<R> {
    fn monotonic(&self) -> io::Result<Duration> {
        Ok(self.clock.read())
    }

    fn since_1970(&self) -> io::Result<Duration> {
        Ok(self.clock.read())
    }
}

/// The pacer in a thread of its own, by this clock.
fn pace<R: Threads + Wait + Abort + Copy + Send + Sync + Drop + 'static>(
    rt: R,
    pacer: Pacer<LocalWrite, NoGate>,
    clock: &Arc<Held>,
) -> JoinHandle<Pacer<LocalWrite, NoGate>> {
    let mut pacer = pacer;
    let clock = Arc::try_clone(clock).expect(&rt, "memory");
    thread::spawn(&rt, move || {
        pacer.run(&Timed { _rt: rt, clock });
        pacer
    })
    .expect(&rt, "a thread")
}

/// How many sections the journal has just before 10 milliseconds are over, and after that.
fn lengths_of(
    rt: &impl Wait,
    pass: &mut Pass<LocalWrite, NoGate>,
    clock: &Held,
) -> (Option<u64>, Option<u64>) {
    let _set = wait(&clock.before, LONG);
    let before = length_of(rt, pass);
    clock.go_on.store(true, Ordering::SeqCst);
    let _set = wait(&clock.behind, LONG);
    (before, length_of(rt, pass))
}

/// The frame of a write is lost before the pacer looks at all. Its first look sees that, and the second makes a tick:
/// it comes once 10 milliseconds are over, and no sooner.
#[test]
fn looks_are_ten_milliseconds_apart(rt: HostRuntime) {
    let alloc = rt.alloc();
    let mut parts = parts_of::<LocalWrite, NoGate>(&rt, alloc, (2, 1), NoGate);
    let sent = Arc::new(alloc, AtomicBool::new(false)).expect(&rt, "memory");
    let road = Losing {
        sent: Arc::try_clone(&sent).expect(&rt, "memory"),
    };
    let clock = Arc::new(alloc, Held::new()).expect(&rt, "memory");
    let couriers = send_off(rt, alloc, &mut parts, road);
    let written = pass_of(&rt, &mut parts.passes, 0)
        .perform(&rt, write(0, 1))
        .is_ok();
    let _set = wait(&sent, LONG);
    let Parts {
        cluster,
        mut passes,
        couriers: none,
        pacer,
    } = parts;
    let pacer = pace(rt, pacer, &clock);
    let lengths = lengths_of(&rt, pass_of(&rt, &mut passes, 0), &clock);
    let stopped = cluster.stop(&rt).is_ok();
    clock.end.store(true, Ordering::SeqCst);
    let pacer = pacer.join(&rt);
    drop(join_all(&rt, alloc, couriers));
    let parts = Parts {
        cluster,
        passes,
        couriers: none,
        pacer,
    };
    let _size = size_of(shut(&rt, alloc, parts));
    assert_eq!(rt;
        (written, stopped, lengths),
        (true, true, (Some(1), Some(2)))
    );
}
