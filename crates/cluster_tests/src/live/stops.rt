//! Stations that stop, and frames that were changed on their way.
use crate::live::crews::{
    LONG, call_back, end, last_of, parts_of, pass_of, perform_apart, put_back, send_off, shut,
    size_of, start, told, told_apart, wait,
};
use crate::live::watches::Watch;
use crate::values::{read, write};
use reg_base::limits::LAST_TIME;
use reg_base::{Op, OpId};
use reg_frames::{Body, Frame, decode, encode};
use reg_front::{Linear, LocalWrite};
use reg_live::{
    CloseFault, Closed, Gate, LiveFault, NoGate, Parcel, Parts, Pass, Posts, Receipt, Road, close,
};
use std::alloc::Global;
use std::process::Abort;
use std::sync::atomic::{AtomicBool, Ordering};
use std::sync::{Arc, Wait};
use std::thread::Threads;
use std::time::Clock;

/// What is changed in the cast that goes first from process 0 to process 1.
#[derive(Clone, Copy)]
pub enum Change {
    /// It is of the last time, so that the clock of its receiver is full.
    LastTime,
    /// It writes another value.
    Value(u64),
}

/// Changes one frame, and hands all parcels on, but for those from process 2 to process 1, which are lost: so the first
/// cast that comes to process 1 is the changed one, also where process 0 has answered another one before.
#[derive(Drop)]
pub struct Changing {
    alloc: Global,
    change: Change,
    done: AtomicBool,
}

impl Changing {
    pub fn new(alloc: Global, change: Change) -> Changing {
        Changing {
            alloc,
            change,
            done: AtomicBool::new(false),
        }
    }
}

/// The frame after a change, where it is a cast.
fn changed(frame: Frame, change: Change) -> Option<Frame> {
    let Frame::Numbered {
        number,
        body: Body::Cast { time, op },
    } = frame
    else {
        return None;
    };
    let (time, op) = match change {
        Change::LastTime => (LAST_TIME, op),
        Change::Value(value) => (time, Op::Write { register: 0, value }),
    };
    let body = Body::Cast { time, op };
    Some(Frame::Numbered { number, body })
}

/// The bytes of a parcel after a change, where they are those of a cast.
fn changed_bytes(alloc: Global, bytes: &[u8], change: Change) -> Option<Vec<u8>> {
    let frame = changed(decode(bytes).ok()?, change)?;
    encode(alloc, &frame).ok()
}

impl Road for Changing {
    fn send<R: Wait>(&self, rt: &R, posts: &Posts, parcel: Parcel) {
        if parcel.from == 2 && parcel.to == 1 {
            return;
        }
        let mut parcel = parcel;
        let ours = parcel.from == 0 && parcel.to == 1;
        if ours && !self.done.load(Ordering::SeqCst) {
            if let Some(bytes) = changed_bytes(self.alloc, parcel.bytes.as_slice(), self.change) {
                self.done.store(true, Ordering::SeqCst);
                parcel.bytes = bytes;
            }
        }
        let _came = posts.put(rt, parcel);
    }
}

/// Tells that station 1 made a section.
#[derive(Drop)]
struct Seeing {
    seen: Arc<AtomicBool>,
}

impl Gate for Seeing {
    fn held(&self, process: u8) {
        if process == 1 {
            self.seen.store(true, Ordering::SeqCst);
        }
    }
}

/// A cluster of two, and what tells that station 1 made a section.
fn watched(
    rt: &(impl Wait + Abort),
    alloc: Global,
) -> (Parts<LocalWrite, Seeing>, Arc<AtomicBool>) {
    let seen = Arc::new(alloc, AtomicBool::new(false)).expect(rt, "memory");
    let gate = Seeing {
        seen: Arc::try_clone(&seen).expect(rt, "memory"),
    };
    (parts_of(rt, alloc, (2, 1), gate), seen)
}

/// Whether the second process is refused once its station has seen a cast, while the first goes on.
fn stops_second(
    rt: &(impl Wait + Abort),
    passes: &mut Vec<Pass<LocalWrite, Seeing>>,
    seen: &AtomicBool,
) -> bool {
    let before = pass_of(rt, passes, 0).perform(rt, write(0, 1)).is_ok();
    let came = wait(seen, LONG);
    let refused = pass_of(rt, passes, 1).perform(rt, read(0));
    let after = pass_of(rt, passes, 0).perform(rt, write(0, 2)).is_ok();
    before && came && refused == Err(LiveFault::Failed) && after
}

/// Whether the closed cluster has both writes of the first process, and nothing of the second.
fn has_both_writes(closed: &Closed<LocalWrite>) -> bool {
    let both = [
        OpId {
            process: 0,
            number: 0,
        },
        OpId {
            process: 0,
            number: 1,
        },
    ];
    let ordered = match closed.world.witness() {
        Ok(order) => order.as_slice() == both.as_slice(),
        Err(_) => false,
    };
    ordered && told(closed, 0) == Some(2) && told(closed, 1) == Some(0)
}

#[test]
fn a_station_stops_alone(rt: HostRuntime) {
    let alloc = rt.alloc();
    let watch = Watch::new(rt, alloc);
    let (parts, seen) = watched(&rt, alloc);
    let road = Changing::new(alloc, Change::LastTime);
    let (mut passes, running) = start(rt, alloc, parts, road);
    let stopped = stops_second(&rt, &mut passes, &seen);
    let both = has_both_writes(&end(&rt, alloc, running, passes));
    watch.end(&rt);
    assert_eq!(rt; (stopped, both), (true, true));
}

/// Closes a cluster in which a value was changed on its way, without its last pass where `less`. No pacer runs, so that
/// each place in the journal is known.
fn fault_of_change<R: Threads + Wait + Clock + Abort + Copy + Send + Sync + 'static>(
    rt: R,
    alloc: Global,
    less: bool,
) -> Option<CloseFault> {
    let watch = Watch::new(rt, alloc);
    let mut parts = parts_of::<Linear, NoGate>(&rt, alloc, (2, 1), NoGate);
    let road = Changing::new(alloc, Change::Value(6));
    let couriers = send_off(rt, alloc, &mut parts, road);
    let written = pass_of(&rt, &mut parts.passes, 0)
        .perform(&rt, write(0, 5))
        .is_ok();
    let stopped = call_back(&rt, alloc, &mut parts, couriers);
    if less {
        drop(last_of(&rt, &mut parts.passes));
    }
    let fault = close(&rt, alloc, parts).err();
    watch.end(&rt);
    assert_eq!(rt; (written, stopped), (true, true));
    fault
}

#[test]
fn a_changed_value_is_unfaithful(rt: HostRuntime) {
    let unfaithful = Some(CloseFault::Unfaithful { place: 1 });
    assert!(rt; fault_of_change(rt, rt.alloc(), false) == unfaithful);
    assert!(rt; fault_of_change(rt, rt.alloc(), true) == unfaithful);
}

/// What a caller is told whose station has stopped.
const STOPPED: Result<Receipt, LiveFault> = Err(LiveFault::Failed);

/// Whether the first and the last of three that write are told that no answer comes.
fn both_are_told<R: Threads + Wait + Abort + Copy + Send + Sync + 'static>(
    rt: R,
    passes: &mut Vec<Pass<Linear, NoGate>>,
) -> bool {
    let third = perform_apart(rt, passes, write(0, 1), 0);
    let second = last_of(&rt, passes);
    let first = perform_apart(rt, passes, write(0, 1), 0);
    let first = told_apart(&rt, passes, first);
    put_back(&rt, passes, second);
    let third = told_apart(&rt, passes, third);
    first == STOPPED && third == STOPPED
}

/// The caller of the process whose cast stops another, and that of a third process, both wait for what that one never
/// says.
#[test]
fn all_callers_are_told_where_a_station_stops(rt: HostRuntime) {
    let alloc = rt.alloc();
    let watch = Watch::new(rt, alloc);
    let parts = parts_of::<Linear, NoGate>(&rt, alloc, (3, 1), NoGate);
    let road = Changing::new(alloc, Change::LastTime);
    let (mut passes, running) = start(rt, alloc, parts, road);
    let told = both_are_told(rt, &mut passes);
    let (_, entries) = size_of(end(&rt, alloc, running, passes));
    watch.end(&rt);
    assert_eq!(rt; (told, entries), (true, 2));
}

/// Counts turns until this number of sections was made, and some more, in which their callers begin to wait.
fn wait_for_callers(rt: &impl Wait, pass: &mut Pass<Linear, NoGate>, sections: u64) {
    let made = Err(LiveFault::Behind { length: sections });
    for _turn in 0..LONG {
        if pass.perform_after(rt, read(0), 2_000_000) == made {
            break;
        }
    }
    let _set = wait(&AtomicBool::new(false), 30_000_000);
}

/// No courier runs, so that each caller would wait for ever.
#[test]
fn no_caller_waits_once_the_cluster_is_stopped(rt: HostRuntime) {
    let alloc = rt.alloc();
    let watch = Watch::new(rt, alloc);
    let mut parts = parts_of::<Linear, NoGate>(&rt, alloc, (4, 1), NoGate);
    let mut fourth = last_of(&rt, &mut parts.passes);
    let mut callers = Vec::new(alloc);
    for _caller in 0..3u8 {
        let caller = perform_apart(rt, &mut parts.passes, write(0, 1), 0);
        callers.push(caller).expect(&rt, "memory");
    }
    wait_for_callers(&rt, &mut fourth, 3);
    let mut told = parts.cluster.stop(&rt).is_ok();
    put_back(&rt, &mut parts.passes, fourth);
    for caller in callers {
        told = told_apart(&rt, &mut parts.passes, caller) == STOPPED && told;
    }
    let (events, _) = size_of(shut(&rt, alloc, parts));
    watch.end(&rt);
    assert_eq!(rt; (told, events), (true, 3));
}
