//! What callers are told, and how soon, where no pacer runs.
use crate::live::crews::{LONG, call_back, parts_of, pass_of, send_off, shut, size_of, told, wait};
use crate::live::stops::{Change, Changing};
use crate::live::watches::Watch;
use crate::values::{read, write};
use reg_base::limits::MOST_EVENTS;
use reg_front::{Linear, LocalWrite};
use reg_live::{Honest, LiveFault, NoGate, Parcel, Parts, Pass, Posts, Road};
use std::alloc::Global;
use std::process::Abort;
use std::sync::atomic::{AtomicBool, Ordering};
use std::sync::{Arc, Wait};
use std::thread;
use std::thread::Threads;
use std::time::{Clock, Duration};

/// A read that is answered, a stop of the cluster, and another read.
#[test]
fn a_later_caller_is_not_told_an_earlier_answer(rt: HostRuntime) {
    let alloc = rt.alloc();
    let mut parts = parts_of::<Linear, NoGate>(&rt, alloc, (2, 1), NoGate);
    let couriers = send_off(rt, alloc, &mut parts, Honest);
    let first = pass_of(&rt, &mut parts.passes, 0)
        .perform(&rt, read(0))
        .is_ok();
    let stopped = call_back(&rt, alloc, &mut parts, couriers);
    let second = pass_of(&rt, &mut parts.passes, 0).perform(&rt, read(0));
    let told = told(&shut(&rt, alloc, parts), 0);
    assert_eq!(rt;
        (first, stopped, second, told),
        (true, true, Err(LiveFault::Failed), Some(1))
    );
}

/// Holds the first parcel until another caller was answered, and tells where that took too long.
#[derive(Drop)]
struct Held {
    inside: AtomicBool,
    answered: AtomicBool,
    late: AtomicBool,
}

impl Road for Held {
    fn send<R: Wait>(&self, _rt: &R, _posts: &Posts, _parcel: Parcel) {
        if self.inside.swap(true, Ordering::SeqCst) {
            return;
        }
        if !wait(&self.answered, LONG) {
            self.late.store(true, Ordering::SeqCst);
        }
    }
}

/// A road that holds nothing yet.
fn open_road(rt: &impl Abort, alloc: Global) -> Arc<Held> {
    let road = Held {
        inside: AtomicBool::new(false),
        answered: AtomicBool::new(false),
        late: AtomicBool::new(false),
    };
    Arc::new(alloc, road).expect(rt, "memory")
}

/// Whether a write is answered while the courier of its station is held with the frame of an earlier one.
fn writes_meanwhile(
    rt: &(impl Wait + Abort),
    pass: &mut Pass<LocalWrite, NoGate>,
    road: &Held,
) -> bool {
    let first = pass.perform(rt, write(0, 1)).is_ok();
    let _set = wait(&road.inside, LONG);
    let second = pass.perform(rt, write(0, 2)).is_ok();
    road.answered.store(true, Ordering::SeqCst);
    first && second
}

/// Whether a write is answered in time, with couriers at work over the road, while the courier of its station is held
/// with the frame of an earlier one.
fn writes_in_time<R: Threads + Wait + Abort + Copy + Send + Sync + 'static>(
    rt: R,
    alloc: Global,
    parts: &mut Parts<LocalWrite, NoGate>,
    road: &Arc<Held>,
) -> bool {
    let shared = Arc::try_clone(road).expect(&rt, "memory");
    let couriers = send_off(rt, alloc, parts, shared);
    let written = writes_meanwhile(&rt, pass_of(&rt, &mut parts.passes, 0), road);
    let stopped = call_back(&rt, alloc, parts, couriers);
    written && stopped && !road.late.load(Ordering::SeqCst)
}

#[test]
fn no_station_is_locked_while_its_frames_are_sent(rt: HostRuntime) {
    let alloc = rt.alloc();
    let watch = Watch::new(rt, alloc);
    let road = open_road(&rt, alloc);
    let mut parts = parts_of::<LocalWrite, NoGate>(&rt, alloc, (2, 1), NoGate);
    let written = writes_in_time(rt, alloc, &mut parts, &road);
    watch.end(&rt);
    let _size = size_of(shut(&rt, alloc, parts));
    assert!(rt; written);
}

/// No pacer runs, so nothing comes to the station that stopped but the frame that stopped it.
#[test]
fn a_caller_is_told_at_once_where_a_station_stops(rt: HostRuntime) {
    let alloc = rt.alloc();
    let watch = Watch::new(rt, alloc);
    let mut parts = parts_of::<Linear, NoGate>(&rt, alloc, (2, 1), NoGate);
    let couriers = send_off(
        rt,
        alloc,
        &mut parts,
        Changing::new(alloc, Change::LastTime),
    );
    let refused = pass_of(&rt, &mut parts.passes, 0).perform(&rt, write(0, 1));
    let stopped = call_back(&rt, alloc, &mut parts, couriers);
    watch.end(&rt);
    let (events, _) = size_of(shut(&rt, alloc, parts));
    assert_eq!(rt;
        (refused, stopped, events),
        (Err(LiveFault::Failed), true, 1)
    );
}

/// Whether a write is answered, and the journal gets five sections within some seconds.
fn sends_all<R: Wait + Clock>(rt: &R, pass: &mut Pass<Linear, NoGate>) -> bool {
    let far = u64::from(MOST_EVENTS) + 1;
    let made = Err(LiveFault::Behind { length: 5 });
    if pass.perform(rt, write(0, 1)).is_err() {
        return false;
    }
    for _look in 0..400u32 {
        if pass.perform_after(rt, read(0), far) == made {
            return true;
        }
        thread::sleep(rt, Duration::from_millis(10));
    }
    false
}

/// No pacer runs. A write has five sections: its call, the take of its cast, of the count and the acknowledgement
/// that answer it, and of the count that answers this, though the acknowledgement brought the caller's answer.
#[test]
fn what_comes_of_an_answering_frame_is_sent(rt: HostRuntime) {
    let alloc = rt.alloc();
    let watch = Watch::new(rt, alloc);
    let mut parts = parts_of::<Linear, NoGate>(&rt, alloc, (2, 1), NoGate);
    let couriers = send_off(rt, alloc, &mut parts, Honest);
    let sent = sends_all(&rt, pass_of(&rt, &mut parts.passes, 0));
    let stopped = call_back(&rt, alloc, &mut parts, couriers);
    watch.end(&rt);
    let (events, _) = size_of(shut(&rt, alloc, parts));
    assert_eq!(rt; (sent, stopped, events), (true, true, 5));
}
