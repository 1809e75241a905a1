//! Roads that lose, repeat and reorder parcels.
use crate::live::crews::{
    answered, call_all, end, parts_of, pass_of, perform_apart, size_of, start, told_apart,
};
use crate::live::watches::Watch;
use crate::values::{read, write};
use reg_base::Answer;
use reg_front::{FrontEnd, Linear, LocalRead, LocalWrite};
use reg_history::{check_points, check_serial};
use reg_live::{Closed, LiveFault, NoGate, Pass, Receipt, Rough};
use reg_workload::SeedWords;
use std::alloc::Global;
use std::process::Abort;
use std::sync::Wait;
use std::thread::Threads;
use std::time::Clock;

/// A road that loses a fifth of the parcels, and puts a fifth of the others twice.
fn road(seed: u64) -> Rough<SeedWords> {
    Rough::new(SeedWords::new(seed), 20, 20)
}

/// What three callers, each with a register of its own, made over a rough road.
fn run_rough<
    F: FrontEnd + Send + Sync + 'static,
    R: Threads + Wait + Clock + Abort + Copy + Send + Sync + 'static,
>(rt: R, alloc: Global, seed: u64) -> Closed<F> {
    let parts = parts_of::<F, NoGate>(&rt, alloc, (3, 3), NoGate);
    let (mut passes, running) = start(rt, alloc, parts, road(seed));
    call_all(rt, alloc, &mut passes);
    end(&rt, alloc, running, passes)
}

/// Whether the witness of a run holds its six operations in a serial order.
fn is_serial<F: FrontEnd>(alloc: Global, closed: &Closed<F>) -> bool {
    match closed.world.witness() {
        Ok(order) => {
            order.len() == 6 && check_serial(alloc, closed.world.history(), &order).is_ok()
        }
        Err(_) => false,
    }
}

/// Whether the witness of a run is serial, and its points place its six operations in a point order.
fn is_pointed(alloc: Global, closed: &Closed<Linear>) -> bool {
    let pointed = match closed.world.points() {
        Ok(points) => {
            points.len() == 6 && check_points(alloc, closed.world.history(), &points).is_ok()
        }
        Err(_) => false,
    };
    pointed && is_serial(alloc, closed)
}

/// Whether a run over a rough road is serial.
fn runs_serially<
    F: FrontEnd + Send + Sync + 'static,
    R: Threads + Wait + Clock + Abort + Copy + Send + Sync + 'static,
>(rt: R, alloc: Global, seed: u64) -> bool {
    let closed = run_rough::<F, R>(rt, alloc, seed);
    is_serial(alloc, &closed)
}

#[test]
fn callers_are_answered_over_rough_roads(rt: HostRuntime) {
    for seed in 0..10u64 {
        let linear = is_pointed(rt.alloc(), &run_rough::<Linear, _>(rt, rt.alloc(), seed));
        let local_read = runs_serially::<LocalRead, _>(rt, rt.alloc(), seed);
        let local_write = runs_serially::<LocalWrite, _>(rt, rt.alloc(), seed);
        assert_eq!(rt;
            (linear, local_read, local_write),
            (true, true, true),
            "seed {seed}"
        );
    }
}

/// Whether a read is answered 1, and called at this place or after it.
fn is_read(seen: Result<Receipt, LiveFault>, front: u64) -> bool {
    matches!(seen, Ok(seen) if seen.answer == Answer::Value(1) && seen.called >= front)
}

/// The first of three writes and hands its front to the others. Whether these read what it wrote, and it is refused
/// at a front that is far ahead.
fn hands_on<R: Threads + Wait + Abort + Copy + Send + Sync + 'static>(
    rt: R,
    passes: &mut Vec<Pass<Linear, NoGate>>,
) -> bool {
    let written = answered(&rt, pass_of(&rt, passes, 0), write(0, 1));
    let front = written.answered.wrapping_add(1);
    let three = perform_apart(rt, passes, read(0), front);
    let two = perform_apart(rt, passes, read(0), front);
    let behind = pass_of(&rt, passes, 0).perform_after(&rt, read(0), 2_000_000);
    let two = told_apart(&rt, passes, two);
    let three = told_apart(&rt, passes, three);
    is_read(two, front)
        && is_read(three, front)
        && matches!(behind, Err(LiveFault::Behind { length }) if length < 2_000_000)
}

#[test]
fn fronts_are_handed_on(rt: HostRuntime) {
    let alloc = rt.alloc();
    let watch = Watch::new(rt, alloc);
    let parts = parts_of::<Linear, NoGate>(&rt, alloc, (3, 1), NoGate);
    let (mut passes, running) = start(rt, alloc, parts, road(7));
    let right = hands_on(rt, &mut passes);
    let (_, entries) = size_of(end(&rt, alloc, running, passes));
    watch.end(&rt);
    assert_eq!(rt; (right, entries), (true, 6));
}
