//! The tables of the front ends, and their names.
use crate::demands::{demand, demand_same};
use crate::macros::swap_of;
use crate::values::{READ, WRITE_FIVE};
use reg_base::Op;
use reg_front::{Front, FrontEnd, Linear, LocalRead, LocalWrite, Start};

const SWAP: Op = swap_of!(5);

/// How an operation starts with linear, with local-read and with local-write.
type Starts = (Start, Start, Start);

/// An operation, how many own casts aren't delivered, and how it starts.
const STARTS: &[(Op, u32, Starts)] = &[
    (
        WRITE_FIVE,
        0,
        (Start::Cast, Start::Cast, Start::CastAndAnswer),
    ),
    (
        WRITE_FIVE,
        1,
        (Start::Cast, Start::Cast, Start::CastAndAnswer),
    ),
    (READ, 0, (Start::Cast, Start::Look, Start::Look)),
    (READ, 1, (Start::Cast, Start::Hold, Start::Hold)),
    (SWAP, 0, (Start::Cast, Start::Cast, Start::Cast)),
    (SWAP, 1, (Start::Cast, Start::Cast, Start::Cast)),
];

/// How an operation starts with each front end.
fn starts_of(op: &Op, unsettled: u32) -> Starts {
    (
        Linear::start(op, unsettled),
        LocalRead::start(op, unsettled),
        LocalWrite::start(op, unsettled),
    )
}

#[test]
fn operations_start_as_the_table_says(rt: HostRuntime) {
    for (op, unsettled, starts) in STARTS {
        demand_same(&rt, &(op, unsettled), &starts_of(op, *unsettled), starts);
    }
}

/// A name, and the front end that it names.
const NAMES: &[(&str, Option<Front>)] = &[
    ("linear", Some(Front::Linear)),
    ("local-read", Some(Front::LocalRead)),
    ("local-write", Some(Front::LocalWrite)),
    ("Linear", None),
    ("local", None),
    ("", None),
];

#[test]
fn front_ends_have_their_names(rt: HostRuntime) {
    for (name, front) in NAMES {
        demand_same(&rt, name, &Front::from_name(name), front);
        if let Some(front) = front {
            demand(&rt, name, front.name() == *name);
        }
    }
}
