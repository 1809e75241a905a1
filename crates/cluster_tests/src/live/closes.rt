//! Clusters closed with passes that aren't theirs, one for each process.
use crate::live::crews::{answered, last_of, parts_of, put_back};
use crate::values::write;
use reg_front::LocalWrite;
use reg_live::{CloseFault, NoGate, Pass, close};
use std::alloc::Global;
use std::process::Abort;
use std::sync::Wait;

/// The last pass of another cluster of these many processes, which made a write where `busy`.
fn foreign(
    rt: &(impl Wait + Abort),
    alloc: Global,
    processes: u32,
    busy: bool,
) -> Pass<LocalWrite, NoGate> {
    let mut parts = parts_of::<LocalWrite, NoGate>(rt, alloc, (processes, 2), NoGate);
    let mut pass = last_of(rt, &mut parts.passes);
    if busy {
        let _receipt = answered(rt, &mut pass, write(1, 7));
    }
    pass
}

/// How many processes a cluster has; how many of its last passes are left out; how many processes each other cluster
/// has whose last pass stands beside the rest; whether these passes made a write; and the process of the mismatch.
type Row = (u32, u8, &'static [u32], bool, Option<u8>);

/// The fault of a cluster that is closed so.
fn fault_of(rt: &(impl Wait + Abort), alloc: Global, row: &Row) -> Option<CloseFault> {
    let (processes, less, others, busy, _) = *row;
    let mut parts = parts_of::<LocalWrite, NoGate>(rt, alloc, (processes, 2), NoGate);
    for _less in 0..less {
        drop(last_of(rt, &mut parts.passes));
    }
    for other in others {
        put_back(rt, &mut parts.passes, foreign(rt, alloc, *other, busy));
    }
    close(rt, alloc, parts).err()
}

/// Demands the fault of each row.
fn demand(rt: &(impl Wait + Abort), alloc: Global, rows: &[Row]) {
    for row in rows {
        let fault = match row.4 {
            Some(process) => Some(CloseFault::Mismatch { process }),
            None => None,
        };
        assert!(rt; fault_of(rt, alloc, row) == fault, "{row:?}");
    }
}

const COUNTED: [Row; 6] = [
    (2, 0, &[], false, None),
    (2, 1, &[], false, Some(1)),
    (2, 0, &[2], false, Some(1)),
    (2, 0, &[2, 2], false, Some(1)),
    (2, 0, &[3], false, Some(2)),
    (2, 1, &[1], false, Some(0)),
];

#[test]
fn passes_are_counted(rt: HostRuntime) {
    demand(&rt, rt.alloc(), COUNTED.as_slice());
}

#[test]
fn the_lowest_process_without_a_pass_is_told(rt: HostRuntime) {
    demand(&rt, rt.alloc(), &[(3, 2, &[], false, Some(1))]);
}

#[test]
fn the_lowest_process_that_is_not_there_is_told(rt: HostRuntime) {
    demand(&rt, rt.alloc(), &[(2, 0, &[4, 3, 4], false, Some(2))]);
}

const BY_RECEIPTS: [Row; 2] = [(2, 1, &[2], false, None), (2, 1, &[2], true, Some(1))];

#[test]
fn a_pass_of_another_cluster_is_told_by_its_receipts(rt: HostRuntime) {
    demand(&rt, rt.alloc(), BY_RECEIPTS.as_slice());
}

/// The first process has a pass of another cluster, and the second one has none. Where the receipts of the pass don't
/// fit, the first process is the lowest of both.
const BOTH_WRONG: [Row; 2] = [(2, 2, &[1], false, Some(1)), (2, 2, &[1], true, Some(0))];

#[test]
fn receipts_of_a_lower_process_are_told_before_a_missing_pass(rt: HostRuntime) {
    demand(&rt, rt.alloc(), BOTH_WRONG.as_slice());
}
