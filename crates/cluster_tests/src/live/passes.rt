//! Passes of clusters whose threads were not started, so that each place in the journal is known.
use crate::live::crews::{parts_of, pass_of, shut, size_of};
use crate::values::{compare_and_swap, read, receipt, write};
use reg_base::Answer;
use reg_front::{Linear, LocalWrite};
use reg_live::{LiveFault, NoGate, Pacer, Pass};
use std::sync::Wait;

/// Whether the only process answers a write and a read at once, and refuses a front that is ahead and a register that
/// doesn't exist.
fn answers_at_once(
    rt: &impl Wait,
    pass: &mut Pass<Linear, NoGate>,
    pacer: &mut Pacer<Linear, NoGate>,
) -> bool {
    let behind = pass.perform_after(rt, write(0, 5), 1);
    let first = pass.perform(rt, write(0, 5));
    pacer.round(rt);
    let second = pass.perform_after(rt, read(0), 1);
    let other = pass.perform(rt, read(1));
    let written = receipt((0, 0), write(0, 5), Answer::Done, 0, 0);
    let seen = receipt((0, 1), read(0), Answer::Value(5), 1, 1);
    behind == Err(LiveFault::Behind { length: 0 })
        && first == Ok(written)
        && second == Ok(seen)
        && other == Err(LiveFault::NoRegister)
        && pass.receipts() == [written, seen].as_slice()
}

/// Whether the only process, which has called two operations and has 5, changes that to 6 where 5 is expected, and then
/// keeps it.
fn compares(rt: &impl Wait, pass: &mut Pass<Linear, NoGate>) -> bool {
    let changed = pass.compare_and_swap(rt, 0, 5, 6);
    let kept = pass.compare_and_swap(rt, 0, 5, 7);
    let other = pass.compare_and_swap(rt, 1, 5, 7);
    let told = [
        receipt((0, 2), compare_and_swap(0, 5, 6), Answer::Done, 2, 2),
        receipt((0, 3), compare_and_swap(0, 5, 7), Answer::Unequal, 3, 3),
    ];
    changed == Ok(true)
        && kept == Ok(false)
        && other == Err(LiveFault::NoRegister)
        && pass.receipts().get(2..) == Some(told.as_slice())
        && pass.read(rt, 0) == Ok(6)
}

#[test]
fn one_process_answers_at_once(rt: HostRuntime) {
    let alloc = rt.alloc();
    let mut parts = parts_of::<Linear, NoGate>(&rt, alloc, (1, 1), NoGate);
    let pass = pass_of(&rt, &mut parts.passes, 0);
    let right = answers_at_once(&rt, pass, &mut parts.pacer) && compares(&rt, pass);
    let closed = shut(&rt, alloc, parts);
    let passes = closed.receipts.len();
    let (_, entries) = size_of(closed);
    assert_eq!(rt; (right, entries, passes), (true, 10, 1));
}

/// Whether two writes have the event of a tick between them.
fn has_a_tick_between(
    rt: &impl Wait,
    pass: &mut Pass<LocalWrite, NoGate>,
    pacer: &mut Pacer<LocalWrite, NoGate>,
) -> bool {
    let first = pass.perform(rt, write(0, 1));
    pacer.round(rt);
    let second = pass.perform(rt, write(0, 2));
    first == Ok(receipt((0, 0), write(0, 1), Answer::Done, 0, 0))
        && second == Ok(receipt((0, 1), write(0, 2), Answer::Done, 2, 2))
}

/// The passes are given back in another order.
#[test]
fn a_round_makes_a_tick(rt: HostRuntime) {
    let alloc = rt.alloc();
    let mut parts = parts_of::<LocalWrite, NoGate>(&rt, alloc, (2, 1), NoGate);
    let pass = pass_of(&rt, &mut parts.passes, 0);
    let right = has_a_tick_between(&rt, pass, &mut parts.pacer);
    parts.passes.reverse();
    let (events, _) = size_of(shut(&rt, alloc, parts));
    assert_eq!(rt; (right, events), (true, 3));
}
