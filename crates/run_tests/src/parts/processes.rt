//! Worked examples of one process and of several side by side, as tables of steps and what each gives.
use crate::demands::shape_of;
use crate::parts::process_rows::{
    ALONE, AT_ONCE, COMPARED, EACH_LACKS, HELD_READ, LAST_TIME, OUT_OF_TURN, PAST_LAST_TIME,
    REFUSED, STOPPED, SWAP, TO_ALL, WAITING,
};
use crate::parts::traces::{Row, follow};
use reg_front::{Front, Linear, LocalRead, LocalWrite};
use reg_process::{Process, ProcessFault};

/// How many processes there are, and their steps.
pub(crate) type Table = (u32, &'static [Row]);

const OF_LINEAR: &[Table] = &[(2, WAITING), (3, TO_ALL)];

const OF_LOCAL_READ: &[Table] = &[
    (2, REFUSED),
    (2, OUT_OF_TURN),
    (2, LAST_TIME),
    (2, PAST_LAST_TIME),
    (2, STOPPED),
];

const OF_LOCAL_WRITE: &[Table] = &[
    (1, ALONE),
    (2, AT_ONCE),
    (2, HELD_READ),
    (2, SWAP),
    (2, COMPARED),
    (3, EACH_LACKS),
];

/// The tables of linear. (Each function names the tables of one front end, since one that names many texts is slow to
/// prove.)
fn of_linear() -> &'static [Table] {
    OF_LINEAR
}

fn of_local_read() -> &'static [Table] {
    OF_LOCAL_READ
}

fn of_local_write() -> &'static [Table] {
    OF_LOCAL_WRITE
}

/// The tables of a front end.
pub(crate) fn tables_of(front: Front) -> &'static [Table] {
    match front {
        Front::Linear => of_linear(),
        Front::LocalRead => of_local_read(),
        Front::LocalWrite => of_local_write(),
    }
}

#[test]
fn processes_step_by_step(rt: HostRuntime) {
    for (processes, rows) in of_linear() {
        follow::<Linear>(&rt, *processes, rows);
    }
    for (processes, rows) in of_local_read() {
        follow::<LocalRead>(&rt, *processes, rows);
    }
    for (processes, rows) in of_local_write() {
        follow::<LocalWrite>(&rt, *processes, rows);
    }
}

#[test]
fn no_process_past_the_last(rt: HostRuntime) {
    let fault = Process::<LocalRead>::new(rt.alloc(), shape_of(&rt, 2), 2).err();
    assert!(rt; fault == Some(ProcessFault::NoProcess));
}
