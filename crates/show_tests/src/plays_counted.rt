//! What the table of plays says of plays that are linearizable in another order than their own or not at all, and of
//! outcomes that no play had.
use crate::litmus::{has_table, table_under};
use std::alloc::{AllocError, Global};

/// Adds a workload of two processes that write `first` and `second` times, each its own register, with answers at once.
/// Their interleavings go through a stage for each pair of how often both wrote.
fn add_writes(text: &mut String, first: u32, second: u32) -> Result<(), AllocError> {
    text.push_str("registers = [\"x\", \"y\"]\nscripts = [[\"write x 1\"")?;
    for _ in 1..first {
        text.push_str(", \"write x 1\"")?;
    }
    text.push_str("], [\"write y 1\"")?;
    for _ in 1..second {
        text.push_str(", \"write y 1\"")?;
    }
    text.push_str("]]\n")
}

/// Whether the table of one play of these numbers of writes ends so.
fn ends_so(alloc: Global, first: u32, second: u32, end: &str) -> bool {
    let mut work = String::new(alloc);
    let added = add_writes(&mut work, first, second).is_ok();
    let table = table_under(alloc, 1, "local-write", work.as_str());
    added && table.ends_with(end)
}

// 100 times 100 stages are just few enough.
#[test]
fn undrawn_outcomes_of_10_000_stages_are_counted(rt: HostRuntime) {
    assert!(rt; ends_so(rt.alloc(), 99, 99, "\nunfinished 0\nnever drawn 0\n"));
}

#[test]
fn undrawn_outcomes_of_10_100_stages_are_not(rt: HostRuntime) {
    assert!(rt; ends_so(rt.alloc(), 99, 100, "\nunfinished 0\n"));
}

/// Store buffering, and the play of this seed alone.
const STORE_BUFFERING: &str = "registers = [\"x\", \"y\"]
scripts = [[\"write x 1\", \"read y\"], [\"write y 1\", \"read x\"]]
seed = 4
";

// Its own order has process 0's read, called at event 29, before process 1's, which was answered at event 16. With both
// turned round it is a point order: the second one reads what process 0 writes from event 6 to event 27.
#[test]
fn a_play_is_linearizable_in_another_order_than_its_own(rt: HostRuntime) {
    let right = "plays 1
outcomes 1
       1  p0 #1 value 1  p1 #1 value 1  real time     50 events  seed 4  linearizable 4  not linearizable -
unfinished 0
never drawn 2
";
    assert!(rt; has_table(rt.alloc(), 1, "local-read", STORE_BUFFERING, right));
}

// Process 1's write is answered at event 0, and process 0's read, called at event 4, misses it.
#[test]
fn an_outcome_is_late_where_no_play_is_linearizable(rt: HostRuntime) {
    let right = "plays 1
outcomes 1
       1  p0 #1 value 0  p1 #1 value 1  late          95 events  seed 4  linearizable -  not linearizable 4
unfinished 0
never drawn 2
";
    assert!(rt; has_table(rt.alloc(), 1, "local-write", STORE_BUFFERING, right));
}
