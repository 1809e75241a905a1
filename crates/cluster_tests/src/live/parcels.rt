//! Which parcels come out of a road: of one that tells of each whether it came, and of a rough one by the words it
//! draws.
use crate::live::crews::{call_all, call_back, parts_of, pass_of, send_off, shut, size_of};
use crate::live::watches::Watch;
use crate::values::write;
use reg_frames::Frame;
use reg_front::{LocalRead, LocalWrite};
use reg_live::{NoGate, Parcel, Parts, Posts, Road, Rough};
use reg_workload::{SeedWords, Words};
use std::alloc::Global;
use std::process::Abort;
use std::sync::atomic::{AtomicBool, Ordering};
use std::sync::{Arc, Wait};

/// Puts bytes that are no frame before each parcel, and a parcel for nobody; and notes where one comes or doesn't
/// against what is told of it.
#[derive(Drop)]
struct Littering {
    alloc: Global,
    wrong: Arc<AtomicBool>,
}

impl Road for Littering {
    fn send<R: Wait>(&self, rt: &R, posts: &Posts, parcel: Parcel) {
        let litter = Parcel {
            from: parcel.from,
            to: parcel.to,
            bytes: Vec::new(self.alloc),
        };
        let astray = Parcel {
            from: parcel.from,
            to: 9,
            bytes: Vec::new(self.alloc),
        };
        let littered = posts.put(rt, litter);
        let strayed = posts.put(rt, astray);
        let came = posts.put(rt, parcel);
        if !littered || strayed || !came {
            self.wrong.store(true, Ordering::SeqCst);
        }
    }
}

/// No pacer runs: what is no frame costs nothing but its own parcel.
#[test]
fn litter_is_dropped(rt: HostRuntime) {
    let alloc = rt.alloc();
    let watch = Watch::new(rt, alloc);
    let mut parts = parts_of::<LocalRead, NoGate>(&rt, alloc, (3, 3), NoGate);
    let wrong = Arc::new(alloc, AtomicBool::new(false)).expect(&rt, "memory");
    let road = Littering {
        alloc,
        wrong: Arc::try_clone(&wrong).expect(&rt, "memory"),
    };
    let couriers = send_off(rt, alloc, &mut parts, road);
    call_all(rt, alloc, &mut parts.passes);
    let stopped = call_back(&rt, alloc, &mut parts, couriers);
    let (_, entries) = size_of(shut(&rt, alloc, parts));
    watch.end(&rt);
    assert_eq!(rt;
        (stopped, wrong.load(Ordering::SeqCst), entries),
        (true, false, 12)
    );
}

/// How many writes are sent over a rough road.
const WRITES: u64 = 12;

/// Takes a frame of this number where `accepted` frames were accepted, and adds the count that is answered.
fn take(counts: &mut Vec<u64>, accepted: &mut u64, number: u64) -> bool {
    if number == *accepted {
        *accepted = accepted.wrapping_add(1);
    }
    counts.push(*accepted).is_ok()
}

/// The counts that answer the frames which come out of a rough road, by the rule in words: the first word says whether
/// a frame is lost, and then no other is drawn; the second whether it comes twice, and the third whether it is kept
/// back until after the next one.
fn expected(alloc: Global, seed: u64, loss: u32, repeat: u32) -> Vec<u64> {
    let mut words = SeedWords::new(seed);
    let mut counts = Vec::new(alloc);
    let mut accepted = 0u64;
    let mut kept = None;
    let mut all = true;
    for number in 0..WRITES {
        if words.word() % 100 < loss {
            continue;
        }
        let (second, third) = (words.word(), words.word());
        if second % 100 < repeat {
            all = take(&mut counts, &mut accepted, number) && all;
        }
        if third % 2 == 0 && kept.is_none() {
            kept = Some(number);
            continue;
        }
        all = take(&mut counts, &mut accepted, number) && all;
        if let Some(earlier) = kept {
            all = take(&mut counts, &mut accepted, earlier) && all;
        }
        kept = None;
    }
    if !all {
        counts.clear();
    }
    counts
}

/// The counts among frames.
fn counts_of(alloc: Global, frames: Option<&[Frame]>) -> Vec<u64> {
    let mut counts = Vec::new(alloc);
    let mut all = true;
    for frame in frames.unwrap_or(&[]) {
        if let Frame::Got { count } = *frame {
            all = counts.push(count).is_ok() && all;
        }
    }
    if !all {
        counts.clear();
    }
    counts
}

/// Runs the couriers one after another until each has taken what is there.
pub fn carry(rt: &impl Wait, parts: &mut Parts<LocalWrite, NoGate>, road: &impl Road) -> bool {
    let stopped = parts.cluster.stop(rt).is_ok();
    for courier in &mut parts.couriers {
        courier.run(rt, road);
    }
    stopped
}

/// Has process 0 write a number of times, and carries its frames over a road, and what answers them nowhere. Tells
/// whether the couriers could be run.
fn writes_over(
    rt: &(impl Wait + Abort),
    parts: &mut Parts<LocalWrite, NoGate>,
    road: &impl Road,
) -> bool {
    for value in 0..WRITES {
        let _told = pass_of(rt, &mut parts.passes, 0).perform(rt, write(0, value));
    }
    carry(rt, parts, road) && carry(rt, parts, &Lost)
}

/// The counts that process 1 puts for process 0 then.
fn answered(
    rt: &(impl Wait + Abort),
    alloc: Global,
    seed: u64,
    loss: u32,
    repeat: u32,
) -> Vec<u64> {
    let mut parts = parts_of::<LocalWrite, NoGate>(rt, alloc, (2, 1), NoGate);
    let road = Rough::new(SeedWords::new(seed), loss, repeat);
    assert!(rt; writes_over(rt, &mut parts, &road));
    let closed = shut(rt, alloc, parts);
    counts_of(alloc, closed.world.wire(1, 0))
}

/// Loses all parcels.
pub struct Lost;

impl Road for Lost {
    fn send<R: Wait>(&self, _rt: &R, _posts: &Posts, _parcel: Parcel) {}
}

#[test]
fn words_say_what_comes_out_of_a_rough_road(rt: HostRuntime) {
    let alloc = rt.alloc();
    for seed in 0..40u64 {
        for (loss, repeat) in [(0u32, 0u32), (0, 50), (20, 20)] {
            let right = expected(alloc, seed, loss, repeat);
            assert!(rt; answered(&rt, alloc, seed, loss, repeat).as_slice() == right.as_slice());
        }
    }
}
