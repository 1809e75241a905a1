//! Histories, made of their entries.
use crate::macros::{answered, called, id};
use crate::values::{READ, WRITE_FIVE};
use reg_base::{Answer, OpId, Shape};
use reg_history::{Entry, History};
use std::alloc::Allocator;

/// A write of process 0 that is answered before a read of process 1 is called, which still answers 0.
pub(crate) const STALE_READ: &[Entry] = &[
    called!(0, 0, 0, WRITE_FIVE),
    answered!(4, 0, 0, Answer::Done),
    called!(5, 1, 0, READ),
    answered!(5, 1, 0, Answer::Value(0)),
];

/// A history of this shape. None where memory is refused, or an entry isn't in place.
pub(crate) fn history_on<A: Allocator + Copy>(
    alloc: A,
    shape: Shape,
    entries: &[Entry],
) -> Option<History<A>> {
    let Ok(mut history) = History::new(alloc, shape) else {
        return None;
    };
    for entry in entries {
        if history.push(*entry).is_err() {
            return None;
        }
    }
    Some(history)
}

/// A history of `processes` processes on one register. None where memory is refused, or an entry isn't in place.
pub(crate) fn history_of<A: Allocator + Copy>(
    alloc: A,
    processes: u32,
    entries: &[Entry],
) -> Option<History<A>> {
    let Ok(shape) = Shape::new(processes, 1) else {
        return None;
    };
    history_on(alloc, shape, entries)
}
