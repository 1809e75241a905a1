//! Clusters whose threads `start` of a running cluster made, and that `close` of one ends.
use crate::live::crews::{LONG, answered, pass_of, shape_of, wait};
use crate::live::holds::{Hold, release_later};
use crate::live::watches::Watch;
use crate::values::write;
use reg_front::{Linear, LocalWrite};
use reg_live::{NoGate, Parcel, Pass, Posts, Road, Running, start};
use reg_world::PackedWires;
use std::alloc::Global;
use std::process::Abort;
use std::sync::atomic::{AtomicU64, Ordering};
use std::sync::{Arc, Wait};
use std::thread::Threads;
use std::time::Clock;

/// Loses the first two parcels, and hands all others on.
#[derive(Drop)]
struct Losing {
    came: AtomicU64,
}

impl Road for Losing {
    fn send<R: Wait>(&self, rt: &R, posts: &Posts, parcel: Parcel) {
        if self.came.fetch_add(1, Ordering::SeqCst) >= 2 {
            let _came = posts.put(rt, parcel);
        }
    }
}

/// The frame of the only operation is lost two times, so it is answered by a second tick. The pacer alone makes ticks,
/// so it looks more than once. The run has a world with packed wires.
#[test]
fn a_running_cluster_has_a_pacer(rt: HostRuntime) {
    let alloc = rt.alloc();
    let watch = Watch::new(rt, alloc);
    let came = AtomicU64::new(0);
    let road = Arc::new(alloc, Losing { came }).expect(&rt, "memory");
    let shape = shape_of(&rt, 2, 1);
    let (running, mut passes) = start::<Linear, _, _, _>(rt, alloc, shape, NoGate, road).expect(
        &rt,
        "a cluster",
    );
    let told = pass_of(&rt, &mut passes, 0).perform(&rt, write(0, 1));
    let closed = running
        .close_in::<_, PackedWires<Global>>(&rt, alloc, passes)
        .is_ok();
    watch.end(&rt);
    assert_eq!(rt; (told.is_ok(), closed), (true, true));
}

/// Loses all parcels, and holds the courier that brings one from this process until it may go on.
#[derive(Drop)]
struct Holding {
    from: u8,
    hold: Arc<Hold>,
}

impl Road for Holding {
    fn send<R: Wait>(&self, _rt: &R, _posts: &Posts, parcel: Parcel) {
        if parcel.from == self.from {
            self.hold.stay();
        }
    }
}

/// A cluster of two at work over such a road, whose process that the road holds has written.
fn written<R: Threads + Wait + Clock + Abort + Copy + Send + Sync + 'static>(
    rt: R,
    alloc: Global,
    from: u8,
    hold: &Arc<Hold>,
) -> (Running<LocalWrite, NoGate>, Vec<Pass<LocalWrite, NoGate>>) {
    let hold = Arc::try_clone(hold).expect(&rt, "memory");
    let road = Arc::new(alloc, Holding { from, hold }).expect(&rt, "memory");
    let shape = shape_of(&rt, 2, 1);
    let (running, mut passes) = start::<LocalWrite, _, _, _>(rt, alloc, shape, NoGate, road).expect(
        &rt,
        "a cluster",
    );
    let pass = pass_of(&rt, &mut passes, usize::from(from));
    let _receipt = answered(&rt, pass, write(0, 1));
    (running, passes)
}

/// Whether the courier of a process is held until the cluster is being closed, and isn't any more when it is closed.
fn is_waited_for<R: Threads + Wait + Clock + Abort + Copy + Send + Sync + 'static>(
    rt: R,
    alloc: Global,
    from: u8,
) -> bool {
    let hold = Arc::new(alloc, Hold::new()).expect(&rt, "memory");
    let (running, passes) = written(rt, alloc, from, &hold);
    let held = wait(&hold.inside, LONG);
    let releasing = release_later(&rt, &hold);
    hold.closing.store(true, Ordering::SeqCst);
    let closed = running.close(&rt, alloc, passes).is_ok();
    let left = hold.inside.load(Ordering::SeqCst);
    releasing.join(&rt);
    held && closed && !left
}

#[test]
fn no_courier_is_left_behind(rt: HostRuntime) {
    for from in 0..2u8 {
        assert!(rt; is_waited_for(rt, rt.alloc(), from), "{from}");
    }
}
