//! What a tick puts again.
use crate::demands::shape_of;
use crate::values::WRITE_FIVE;
use reg_base::Shape;
use reg_frames::{Body, Frame};
use reg_front::LocalWrite;
use reg_process::{Process, Put};
use std::alloc::Global;

/// Whether these are the frames of the first sixteen writes for process 1.
fn are_first_sixteen(puts: &[Put]) -> bool {
    let mut number = 0u64;
    for put in puts {
        let time = number.wrapping_add(1);
        let op = WRITE_FIVE;
        let body = Body::Cast { time, op };
        let frame = Frame::Numbered { number, body };
        if *put != (Put { to: 1, frame }) {
            return false;
        }
        number = time;
    }
    number == 16
}

/// Whether a process makes `writes` writes, and then a tick puts the first sixteen frames again.
fn puts_the_first_sixteen(process: &mut Process<LocalWrite>, writes: u8) -> bool {
    for _write in 0..writes {
        if process.call(WRITE_FIVE).is_err() {
            return false;
        }
    }
    match process.tick() {
        Ok(again) => are_first_sixteen(again.frames.as_slice()),
        Err(_) => false,
    }
}

/// The same of a new process.
fn new_puts_the_first_sixteen(alloc: Global, shape: Shape, writes: u8) -> bool {
    match Process::new(alloc, shape, 0) {
        Ok(mut process) => puts_the_first_sixteen(&mut process, writes),
        Err(_) => false,
    }
}

#[test]
fn tick_puts_the_first_sixteen(rt: HostRuntime) {
    assert!(rt; new_puts_the_first_sixteen(rt.alloc(), shape_of(&rt, 2), 17));
}
