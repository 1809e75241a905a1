//! When frames are put again in a cluster none of whose threads runs, and that an honest road needs none of it.
use crate::live::crews::{
    call_back, join_all, parts_of, pass_of, put_back, send_off, shut, size_of,
};
use crate::live::parcels::{Lost, carry};
use crate::values::{read, write};
use reg_base::limits::MOST_EVENTS;
use reg_frames::{Frame, decode, encode};
use reg_front::{Linear, LocalWrite};
use reg_live::{Closed, Honest, LiveFault, NoGate, Parcel, Parts, Pass, Posts, Road};
use std::alloc::Global;
use std::process::Abort;
use std::sync::Wait;
use std::thread::{JoinHandle, Threads};
use std::{mem, thread};

/// How many sections the journal has.
pub fn length_of(rt: &impl Wait, pass: &mut Pass<LocalWrite, NoGate>) -> Option<u64> {
    let far = u64::from(MOST_EVENTS) + 1;
    match pass.perform_after(rt, read(0), far) {
        Err(LiveFault::Behind { length }) => Some(length),
        _ => None,
    }
}

/// Runs the couriers one after another, `rounds` times.
fn carry_often(
    rt: &impl Wait,
    parts: &mut Parts<LocalWrite, NoGate>,
    road: &impl Road,
    rounds: u8,
) -> bool {
    let mut all = true;
    for _round in 0..rounds {
        all = carry(rt, parts, road) && all;
    }
    all
}

/// Makes `times` writes of a process. Tells whether each is answered at once.
fn write_often(
    rt: &(impl Wait + Abort),
    parts: &mut Parts<LocalWrite, NoGate>,
    process: usize,
    times: u64,
) -> bool {
    let pass = pass_of(rt, &mut parts.passes, process);
    let mut all = true;
    for value in 0..times {
        all = pass.perform(rt, write(0, value)).is_ok() && all;
    }
    all
}

/// How many sections the journal has after a look.
fn length_after_look(
    rt: &(impl Wait + Abort),
    parts: &mut Parts<LocalWrite, NoGate>,
) -> Option<u64> {
    parts.pacer.look(rt);
    length_of(rt, pass_of(rt, &mut parts.passes, 0))
}

/// How many sections the journal has after nine looks.
fn length_after_looks(
    rt: &(impl Wait + Abort),
    parts: &mut Parts<LocalWrite, NoGate>,
) -> Option<u64> {
    for _look in 0..8u8 {
        parts.pacer.look(rt);
    }
    length_after_look(rt, parts)
}

/// Whether a station whose frames are lost ticks at the second look, and again after two looks more. A look that
/// ended at the first link with a tick due would leave the other one behind, so that the station ticked at the fourth
/// look too.
fn ticks_in_turn(rt: &(impl Wait + Abort), parts: &mut Parts<LocalWrite, NoGate>) -> bool {
    let written = write_often(rt, parts, 0, 1);
    let mut lengths = [None; 5];
    for length in &mut lengths {
        if carry(rt, parts, &Lost) {
            *length = length_after_look(rt, parts);
        }
    }
    written && lengths == [Some(1), Some(2), Some(2), Some(3), Some(3)]
}

/// Whether no look makes a tick after a write, while its own courier has mail and while the other one has.
fn waits_for_mail(rt: &(impl Wait + Abort), parts: &mut Parts<LocalWrite, NoGate>) -> bool {
    let written = write_often(rt, parts, 0, 1);
    let own = length_after_looks(rt, parts);
    let stopped = parts.cluster.stop(rt).is_ok();
    parts
        .couriers
        .get_mut(0)
        .expect(rt, "a courier")
        .run(rt, &Honest);
    let other = length_after_looks(rt, parts);
    written && stopped && own == Some(1) && other == Some(1)
}

/// Hands each parcel on, and after the count 2 from process 1 the count 1 once more.
#[derive(Drop)]
struct Late {
    alloc: Global,
}

impl Road for Late {
    fn send<R: Wait>(&self, rt: &R, posts: &Posts, parcel: Parcel) {
        let (from, to) = (parcel.from, parcel.to);
        let second = matches!(decode(parcel.bytes.as_slice()), Ok(Frame::Got { count: 2 }));
        let _came = posts.put(rt, parcel);
        if second && from == 1 {
            if let Ok(bytes) = encode(self.alloc, &Frame::Got { count: 1 }) {
                let _came = posts.put(rt, Parcel { from, to, bytes });
            }
        }
    }
}

/// Whether no look makes a tick after `writes` writes all of whose frames come over the road, and after their sections.
fn rests_behind(
    rt: &(impl Wait + Abort),
    parts: &mut Parts<LocalWrite, NoGate>,
    road: &impl Road,
    writes: u64,
    sections: u64,
) -> bool {
    let written = write_often(rt, parts, 0, writes);
    let carried = carry_often(rt, parts, road, 8);
    written && carried && length_after_looks(rt, parts) == Some(sections)
}

/// Twenty writes whose frames are lost, a tick, which puts the first sixteen again, and nine looks with all frames
/// that they put.
fn put_again(rt: &(impl Wait + Abort), parts: &mut Parts<LocalWrite, NoGate>) -> bool {
    let written = write_often(rt, parts, 0, 20);
    let lost = carry(rt, parts, &Lost);
    parts.pacer.look(rt);
    parts.pacer.look(rt);
    let mut carried = carry_often(rt, parts, &Honest, 8);
    for _look in 0..9u8 {
        parts.pacer.look(rt);
        carried = carry_often(rt, parts, &Honest, 8) && carried;
    }
    written && lost && carried
}

/// Whether the journal has these lengths after a first look, a second one and a round, where the frame of one write
/// of each of these processes is lost.
fn has_lengths(
    rt: &(impl Wait + Abort),
    parts: &mut Parts<LocalWrite, NoGate>,
    writers: &[usize],
    lengths: [u64; 3],
) -> bool {
    let mut written = true;
    for process in writers {
        written = write_often(rt, parts, *process, 1) && written;
    }
    let lost = carry(rt, parts, &Lost);
    let first = length_after_look(rt, parts);
    let second = length_after_look(rt, parts);
    parts.pacer.round(rt);
    let third = length_of(rt, pass_of(rt, &mut parts.passes, 0));
    written
        && lost
        && [first, second, third] == [Some(lengths[0]), Some(lengths[1]), Some(lengths[2])]
}

/// A write of a process whose frames all come: at once, or after a tick where they are lost first.
fn comes(
    rt: &(impl Wait + Abort),
    parts: &mut Parts<LocalWrite, NoGate>,
    process: usize,
    lost: bool,
) -> bool {
    let mut right = write_often(rt, parts, process, 1);
    if lost {
        right = carry(rt, parts, &Lost) && right;
        parts.pacer.look(rt);
        parts.pacer.look(rt);
    }
    right && carry_often(rt, parts, &Honest, 8)
}

/// A write of each of two processes, the second one while a frame waits in the mailbox of its courier.
fn both_write(rt: &(impl Wait + Abort), parts: &mut Parts<LocalWrite, NoGate>) -> bool {
    let first = write_often(rt, parts, 1, 1);
    let carried = carry_often(rt, parts, &Honest, 3);
    let second = write_often(rt, parts, 0, 1);
    first && carried && second && carry_often(rt, parts, &Honest, 8)
}

/// What is done in a cluster none of whose threads runs.
#[derive(Clone, Copy)]
enum Scene {
    TicksInTurn,
    WaitsForMail,
    /// A write has five sections where all its frames come: its call, the take of its cast, of the count and the
    /// acknowledgement that answer it, and of the count that answers this.
    RestsBehindAWrite,
    /// Two writes, and one more section, of the old count.
    RestsBehindAnOldCount,
    PutsAgain,
    TicksOf { process: usize },
    /// At the second look the first two tick: then each link of the third has mail at its other end. In a round all
    /// three do.
    TicksOfAll,
    Comes { process: usize, lost: bool },
    BothWrite,
}

fn plays(
    rt: &(impl Wait + Abort),
    alloc: Global,
    parts: &mut Parts<LocalWrite, NoGate>,
    scene: &Scene,
) -> bool {
    match scene {
        Scene::TicksInTurn => ticks_in_turn(rt, parts),
        Scene::WaitsForMail => waits_for_mail(rt, parts),
        Scene::RestsBehindAWrite => rests_behind(rt, parts, &Honest, 1, 5),
        Scene::RestsBehindAnOldCount => rests_behind(rt, parts, &Late { alloc }, 2, 11),
        Scene::PutsAgain => put_again(rt, parts),
        Scene::TicksOf { process } => has_lengths(rt, parts, &[*process], [1, 2, 3]),
        Scene::TicksOfAll => has_lengths(rt, parts, &[0, 1, 2], [3, 5, 8]),
        Scene::Comes { process, lost } => comes(rt, parts, *process, *lost),
        Scene::BothWrite => both_write(rt, parts),
    }
}

/// The cluster, of a number of processes, in which a scene was played, and whether it went as it should.
fn played(
    rt: &(impl Wait + Abort),
    alloc: Global,
    processes: u32,
    scene: &Scene,
) -> (bool, Closed<LocalWrite>) {
    let mut parts = parts_of::<LocalWrite, NoGate>(rt, alloc, (processes, 1), NoGate);
    let right = plays(rt, alloc, &mut parts, scene);
    (right, shut(rt, alloc, parts))
}

/// Whether a scene goes as it should, and the cluster then has this number of events.
fn ends_with(
    rt: &(impl Wait + Abort),
    alloc: Global,
    processes: u32,
    scene: &Scene,
    events: u32,
) -> bool {
    let (right, closed) = played(rt, alloc, processes, scene);
    right && closed.world.events() == events
}

/// Whether all frames of a process were acknowledged.
fn rests(closed: &Closed<LocalWrite>, process: u8) -> bool {
    match closed.world.process(process) {
        Some(process) => process.pending() == 0,
        None => false,
    }
}

/// Whether a scene of two processes goes as it should, and the frames of these were all acknowledged then.
fn rests_after(rt: &(impl Wait + Abort), alloc: Global, scene: &Scene, still: &[u8]) -> bool {
    let (mut right, closed) = played(rt, alloc, 2, scene);
    for process in still {
        right = rests(&closed, *process) && right;
    }
    right
}

#[test]
fn a_silent_link_makes_its_station_tick(rt: HostRuntime) {
    assert!(rt; ends_with(&rt, rt.alloc(), 2, &Scene::TicksInTurn, 3));
}

#[test]
fn all_links_are_looked_at(rt: HostRuntime) {
    assert!(rt; ends_with(&rt, rt.alloc(), 3, &Scene::TicksInTurn, 3));
}

#[test]
fn a_link_with_mail_makes_no_tick(rt: HostRuntime) {
    assert!(rt; ends_with(&rt, rt.alloc(), 2, &Scene::WaitsForMail, 1));
}

#[test]
fn an_acknowledged_link_makes_no_tick(rt: HostRuntime) {
    assert!(rt; ends_with(&rt, rt.alloc(), 2, &Scene::RestsBehindAWrite, 5));
}

#[test]
fn an_old_count_makes_no_tick(rt: HostRuntime) {
    assert!(rt; ends_with(&rt, rt.alloc(), 2, &Scene::RestsBehindAnOldCount, 11));
}

#[test]
fn what_a_tick_leaves_out_is_put_again_later(rt: HostRuntime) {
    assert!(rt; rests_after(&rt, rt.alloc(), &Scene::PutsAgain, &[0]));
}

#[test]
fn all_stations_are_looked_at(rt: HostRuntime) {
    for process in 0..3usize {
        assert!(rt; ends_with(&rt, rt.alloc(), 3, &Scene::TicksOf { process }, 3));
    }
}

#[test]
fn stations_tick_at_one_look(rt: HostRuntime) {
    assert!(rt; ends_with(&rt, rt.alloc(), 3, &Scene::TicksOfAll, 8));
}

/// The courier that is told of frames is that of the station which has them.
#[test]
fn the_frames_of_each_station_come(rt: HostRuntime) {
    for (process, lost) in [(0, false), (1, false), (0, true), (1, true)] {
        let scene = Scene::Comes { process, lost };
        assert!(rt; rests_after(&rt, rt.alloc(), &scene, &[process as u8]));
    }
}

/// No pacer looks: a courier that isn't told of frames since other mail waits for it would leave them behind.
#[test]
fn frames_are_sent_though_mail_waits(rt: HostRuntime) {
    assert!(rt; rests_after(&rt, rt.alloc(), &Scene::BothWrite, &[0, 1]));
}

/// Writes and reads a number of times, in a thread of its own. Gives the pass, and whether all were answered.
fn perform_apart<R: Threads + Wait + Abort + Copy + Send + Sync + 'static>(
    rt: R,
    pass: Pass<Linear, NoGate>,
    times: u64,
) -> JoinHandle<(Pass<Linear, NoGate>, bool)> {
    let mut pass = pass;
    thread::spawn(&rt, move || {
        let mut answered = true;
        for value in 0..times {
            let written = pass.perform(&rt, write(0, value));
            let later = matches!(written, Ok(receipt) if receipt.called < receipt.answered);
            answered = answered && later && pass.perform(&rt, read(0)).is_ok();
        }
        (pass, answered)
    })
    .expect(&rt, "a thread")
}

/// Each pass at work in a thread of its own. Whether all were answered.
fn perform_all<R: Threads + Wait + Abort + Copy + Send + Sync + 'static>(
    rt: R,
    alloc: Global,
    passes: &mut Vec<Pass<Linear, NoGate>>,
) -> bool {
    let mut callers = Vec::new(alloc);
    for pass in mem::replace(passes, Vec::new(alloc)) {
        callers
            .push(perform_apart(rt, pass, 500))
            .expect(&rt, "memory");
    }
    let mut all = true;
    for (pass, answered) in join_all(&rt, alloc, callers) {
        put_back(&rt, passes, pass);
        all = all && answered;
    }
    all
}

/// No pacer runs: a frame that was overtaken would never be taken.
#[test]
fn an_honest_road_needs_no_tick(rt: HostRuntime) {
    let alloc = rt.alloc();
    let mut parts = parts_of::<Linear, NoGate>(&rt, alloc, (3, 1), NoGate);
    let couriers = send_off(rt, alloc, &mut parts, Honest);
    let all = perform_all(rt, alloc, &mut parts.passes);
    let stopped = call_back(&rt, alloc, &mut parts, couriers);
    let (_, entries) = size_of(shut(&rt, alloc, parts));
    assert_eq!(rt; (all, stopped, entries), (true, true, 6_000));
}
