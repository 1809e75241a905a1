//! Stations that are held in a section while others go on.
use crate::live::crews::{
    LONG, answered, end, last_of, parts_of, perform_apart, put_back, shut, size_of, start,
    told_apart, wait,
};
use crate::live::watches::Watch;
use crate::values::{read, write};
use reg_base::Op;
use reg_front::LocalWrite;
use reg_live::{Gate, Honest, LiveFault, Parts, Pass};
use std::alloc::Global;
use std::process::Abort;
use std::sync::atomic::{AtomicBool, Ordering};
use std::sync::{Arc, Wait};
use std::thread;
use std::thread::{JoinHandle, Threads};

/// What was seen of the stations, and of the second caller.
#[derive(Drop)]
struct Flags {
    /// Station 0 is held.
    entered: AtomicBool,
    /// The second caller was answered.
    answered: AtomicBool,
    /// Station 2 made a section.
    other: AtomicBool,
    /// The limit was reached.
    late: AtomicBool,
}

impl Flags {
    fn new() -> Flags {
        Flags {
            entered: AtomicBool::new(false),
            answered: AtomicBool::new(false),
            other: AtomicBool::new(false),
            late: AtomicBool::new(false),
        }
    }

    /// Counts turns until the flag is set.
    fn wait(&self, flag: &AtomicBool) {
        if !wait(flag, LONG) {
            self.late.store(true, Ordering::SeqCst);
        }
    }
}

/// Holds the first section of station 0 until the second caller was answered, and until station 2 has made a section
/// where there is one.
#[derive(Drop)]
struct Holding {
    flags: Arc<Flags>,
    third: bool,
}

impl Gate for Holding {
    fn held(&self, process: u8) {
        let flags: &Flags = &self.flags;
        if process == 2 {
            flags.other.store(true, Ordering::SeqCst);
        }
        if process != 0 || flags.entered.load(Ordering::SeqCst) {
            return;
        }
        flags.entered.store(true, Ordering::SeqCst);
        flags.wait(&flags.answered);
        if self.third {
            flags.wait(&flags.other);
        }
    }
}

/// Performs an operation in a thread of its own, once station 0 is held, and tells that it was answered. The section
/// that is held isn't in the journal yet, so there is no place after it to be called at.
fn perform_once_held<R: Threads + Wait + Abort + Copy + Send + Sync + 'static>(
    rt: R,
    pass: Pass<LocalWrite, Holding>,
    op: Op,
    flags: &Arc<Flags>,
) -> JoinHandle<Pass<LocalWrite, Holding>> {
    let mut pass = pass;
    let shared = Arc::try_clone(flags).expect(&rt, "memory");
    thread::spawn(&rt, move || {
        shared.wait(&shared.entered);
        let early = pass.perform_after(&rt, op, 1);
        assert!(&rt; early == Err(LiveFault::Behind { length: 0 }));
        let _receipt = answered(&rt, &mut pass, op);
        shared.answered.store(true, Ordering::SeqCst);
        pass
    })
    .expect(&rt, "a thread")
}

/// Of the last two passes the first writes in a thread of its own. Once its station is held, the second performs its
/// operation.
fn perform_both<R: Threads + Wait + Abort + Copy + Send + Sync + 'static>(
    rt: R,
    passes: &mut Vec<Pass<LocalWrite, Holding>>,
    op: Op,
    flags: &Arc<Flags>,
) {
    let second = last_of(&rt, passes);
    let one = perform_apart(rt, passes, write(0, 1), 0);
    let two = perform_once_held(rt, second, op, flags);
    let _receipt = told_apart(&rt, passes, one).expect(&rt, "an answer");
    put_back(&rt, passes, two.join(&rt));
}

/// A cluster of these many processes whose station 0 is held.
fn held(
    rt: &(impl Wait + Abort),
    alloc: Global,
    processes: u32,
) -> (Parts<LocalWrite, Holding>, Arc<Flags>) {
    let flags = Arc::new(alloc, Flags::new()).expect(rt, "memory");
    let gate = Holding {
        flags: Arc::try_clone(&flags).expect(rt, "memory"),
        third: processes > 2,
    };
    (parts_of(rt, alloc, (processes, 1), gate), flags)
}

#[test]
fn two_stations_are_held_at_once(rt: HostRuntime) {
    let alloc = rt.alloc();
    let (mut parts, flags) = held(&rt, alloc, 2);
    perform_both(rt, &mut parts.passes, read(0), &flags);
    let late = flags.late.load(Ordering::SeqCst);
    let (events, _) = size_of(shut(&rt, alloc, parts));
    assert_eq!(rt; (late, events), (false, 2));
}

#[test]
fn others_go_on_while_one_is_held(rt: HostRuntime) {
    let alloc = rt.alloc();
    let watch = Watch::new(rt, alloc);
    let (parts, flags) = held(&rt, alloc, 3);
    let (mut passes, running) = start(rt, alloc, parts, Honest);
    let third = last_of(&rt, &mut passes);
    perform_both(rt, &mut passes, write(0, 1), &flags);
    put_back(&rt, &mut passes, third);
    let late = flags.late.load(Ordering::SeqCst);
    let (_, entries) = size_of(end(&rt, alloc, running, passes));
    watch.end(&rt);
    assert_eq!(rt; (late, entries), (false, 4));
}
