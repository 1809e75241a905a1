//! A cluster that is closed while a station makes a section.
use crate::live::crews::{LONG, answered, call_back, join_all, parts_of, pass_of, send_off, wait};
use crate::live::holds::{Hold, release_later};
use crate::values::write;
use reg_front::LocalWrite;
use reg_live::{Gate, Parcel, Parts, Posts, Road, close};
use std::alloc::Global;
use std::process::Abort;
use std::sync::atomic::{AtomicBool, Ordering};
use std::sync::{Arc, Wait};
use std::thread::Threads;

/// Holds each section of station 1 until it may go on.
#[derive(Drop)]
struct Holding {
    hold: Arc<Hold>,
}

impl Gate for Holding {
    fn held(&self, process: u8) {
        if process == 1 {
            self.hold.stay();
        }
    }
}

/// Hands each parcel on, and tells so.
#[derive(Drop)]
struct Telling {
    put: Arc<AtomicBool>,
}

impl Road for Telling {
    fn send<R: Wait>(&self, rt: &R, posts: &Posts, parcel: Parcel) {
        let _came = posts.put(rt, parcel);
        self.put.store(true, Ordering::SeqCst);
    }
}

/// How many events the closed cluster has.
fn events_of(rt: &impl Wait, alloc: Global, parts: Parts<LocalWrite, Holding>) -> Option<u32> {
    match close(rt, alloc, parts) {
        Ok(closed) => Some(closed.world.events()),
        Err(_) => None,
    }
}

/// Has the first courier alone send the frame of a write, and leaves the second one at its place. Tells whether it was
/// sent.
fn sends<R: Threads + Wait + Abort + Copy + Send + Sync + 'static>(
    rt: R,
    alloc: Global,
    parts: &mut Parts<LocalWrite, Holding>,
    put: &Arc<AtomicBool>,
) -> bool {
    let road = Telling {
        put: Arc::try_clone(put).expect(&rt, "memory"),
    };
    let second = parts.couriers.pop().expect(&rt, "a courier");
    let first = send_off(rt, alloc, parts, road);
    let _receipt = answered(&rt, pass_of(&rt, &mut parts.passes, 0), write(0, 1));
    let sent = wait(put, LONG);
    let stopped = call_back(&rt, alloc, parts, first);
    parts.couriers.clear();
    parts.couriers.push(second).expect(&rt, "memory");
    sent && stopped
}

/// The first courier sends the frame of a write, and the second takes it in a section that lasts until the cluster is
/// being closed: it is in the record, of which a journal that was taken before the logs would know nothing.
#[test]
fn a_section_under_way_is_in_the_record(rt: HostRuntime) {
    let alloc = rt.alloc();
    let hold = Arc::new(alloc, Hold::new()).expect(&rt, "memory");
    let put = Arc::new(alloc, AtomicBool::new(false)).expect(&rt, "memory");
    let gate = Holding {
        hold: Arc::try_clone(&hold).expect(&rt, "memory"),
    };
    let mut parts = parts_of::<LocalWrite, Holding>(&rt, alloc, (2, 1), gate);
    let sent = sends(rt, alloc, &mut parts, &put);
    let second = send_off(rt, alloc, &mut parts, Telling { put });
    let entered = wait(&hold.inside, LONG);
    let releasing = release_later(&rt, &hold);
    hold.closing.store(true, Ordering::SeqCst);
    let events = events_of(&rt, alloc, parts);
    releasing.join(&rt);
    drop(join_all(&rt, alloc, second));
    assert_eq!(rt; (sent, entered, events), (true, true, Some(2)));
}
