//! The limits of a process and of the journal.
use crate::live::crews::{parts_of, pass_of, perform_apart, shut, size_of, told_apart};
use crate::values::{read, write};
use reg_base::limits::{MOST_EVENTS, MOST_OPERATIONS};
use reg_front::{FrontEnd, Linear, LocalRead};
use reg_live::{LiveFault, NoGate, Pacer, Pass};
use std::process::Abort;
use std::sync::Wait;
use std::thread::Threads;

/// Whether `times` reads are all answered.
fn reads_so_often<F: FrontEnd>(rt: &impl Wait, pass: &mut Pass<F, NoGate>, times: u32) -> bool {
    for _read in 0..times {
        if pass.perform(rt, read(0)).is_err() {
            return false;
        }
    }
    true
}

/// Whether a new pass is full after the most operations of a process, and no sooner.
fn gets_full(rt: &impl Wait, pass: &mut Pass<Linear, NoGate>) -> bool {
    reads_so_often(rt, pass, MOST_OPERATIONS)
        && pass.perform(rt, read(0)) == Err(LiveFault::Full)
        && pass.receipts().len() == MOST_OPERATIONS as usize
}

#[test]
fn a_pass_calls_so_many_operations(rt: HostRuntime) {
    let alloc = rt.alloc();
    let mut parts = parts_of::<Linear, NoGate>(&rt, alloc, (1, 1), NoGate);
    let full = gets_full(&rt, pass_of(&rt, &mut parts.passes, 0));
    let (events, _) = size_of(shut(&rt, alloc, parts));
    assert_eq!(rt; (full, events), (true, MOST_OPERATIONS));
}

/// Fills a journal by reads that are answered from the copies, all but the last places. Whether all are answered.
fn reads_all(rt: &impl Wait, passes: &mut Vec<Pass<LocalRead, NoGate>>) -> bool {
    for pass in passes.iter_mut() {
        if !reads_so_often(rt, pass, MOST_OPERATIONS - 1) {
            return false;
        }
    }
    true
}

/// Makes rounds until the journal is full.
fn fill(rt: &impl Wait, pass: &mut Pass<LocalRead, NoGate>, pacer: &mut Pacer<LocalRead, NoGate>) {
    let last = u64::from(MOST_EVENTS);
    let full = Err(LiveFault::Behind { length: last });
    for _round in 0..u32::MAX {
        if pass.perform_after(rt, read(0), last + 1) == full {
            return;
        }
        pacer.round(rt);
    }
}

/// Whether a caller that waits is told once the journal is full, and one that comes later too.
fn tells_of_the_end<R: Threads + Wait + Abort + Copy + Send + Sync + 'static>(
    rt: R,
    passes: &mut Vec<Pass<LocalRead, NoGate>>,
    pacer: &mut Pacer<LocalRead, NoGate>,
) -> bool {
    let caller = perform_apart(rt, passes, write(0, 1), 0);
    fill(&rt, pass_of(&rt, passes, 14), pacer);
    let told = told_apart(&rt, passes, caller);
    let later = pass_of(&rt, passes, 14).perform(&rt, read(0));
    told == Err(LiveFault::Failed) && later == Err(LiveFault::Full)
}

#[test]
fn no_caller_waits_once_the_journal_is_full(rt: HostRuntime) {
    let alloc = rt.alloc();
    let mut parts = parts_of::<LocalRead, NoGate>(&rt, alloc, (16, 1), NoGate);
    let read = reads_all(&rt, &mut parts.passes);
    let told = tells_of_the_end(rt, &mut parts.passes, &mut parts.pacer);
    let (events, _) = size_of(shut(&rt, alloc, parts));
    assert_eq!(rt; (read, told, events), (true, true, MOST_EVENTS));
}
