//! Scripts in threads of their own.
use crate::live::crews::{
    call_all, end, last_of, parts_of, pass_of, perform_apart, put_back, shape_of, start, told,
    told_apart,
};
use crate::live::watches::Watch;
use crate::values::{read, write};
use reg_base::Op;
use reg_front::{FrontEnd, Linear, LocalWrite};
use reg_live::{CloseFault, Closed, Honest, LiveFault, NoGate, Pass, RunStop, run_scripts};
use std::alloc::Global;
use std::process::Abort;
use std::sync::Wait;
use std::thread::Threads;
use std::time::Clock;

/// The place after the answer of the last operation of a pass.
fn front_of(pass: &Pass<LocalWrite, NoGate>) -> u64 {
    match pass.receipts().last() {
        Some(receipt) => receipt.answered.wrapping_add(1),
        None => 0,
    }
}

/// Whether a read by the second of three is called after the last answer of the first.
fn is_called_behind<R: Threads + Wait + Abort + Copy + Send + Sync + 'static>(
    rt: R,
    passes: &mut Vec<Pass<LocalWrite, NoGate>>,
) -> bool {
    let front = front_of(pass_of(&rt, passes, 0));
    let third = last_of(&rt, passes);
    let reader = perform_apart(rt, passes, read(0), front);
    let seen = told_apart(&rt, passes, reader);
    put_back(&rt, passes, third);
    matches!(seen, Ok(seen) if front > 0 && seen.called >= front)
}

/// Whether a closed cluster of three has these receipts, and an entry for the call and the answer of each.
fn has_all(closed: &Closed<LocalWrite>) -> bool {
    told(closed, 0) == Some(2)
        && told(closed, 1) == Some(3)
        && told(closed, 2) == Some(2)
        && closed.world.history().entries().len() == 14
}

#[test]
fn each_caller_reads_what_it_wrote(rt: HostRuntime) {
    let alloc = rt.alloc();
    let watch = Watch::new(rt, alloc);
    let parts = parts_of::<LocalWrite, NoGate>(&rt, alloc, (3, 3), NoGate);
    let (mut passes, running) = start(rt, alloc, parts, Honest);
    call_all(rt, alloc, &mut passes);
    let behind = is_called_behind(rt, &mut passes);
    let all = has_all(&end(&rt, alloc, running, passes));
    watch.end(&rt);
    assert_eq!(rt; (behind, all), (true, true));
}

/// Adds the script that writes a register and reads it.
fn add_script(rt: &impl Abort, alloc: Global, scripts: &mut Vec<Vec<Op>>, register: u16) {
    let script = vec![in alloc; write(register, 5), read(register)].expect(rt, "memory");
    scripts.push(script).expect(rt, "memory");
}

/// The scripts that write a register and read it.
fn scripts(rt: &impl Abort, alloc: Global, processes: u16) -> Vec<Vec<Op>> {
    let mut scripts = Vec::new(alloc);
    for register in 0..processes {
        add_script(rt, alloc, &mut scripts, register);
    }
    scripts
}

/// Performs the scripts of the given number of processes, over these registers.
fn performed<
    F: FrontEnd + Send + Sync + 'static,
    R: Threads + Wait + Clock + Abort + Copy + Send + Sync + 'static,
>(rt: R, alloc: Global, processes: u16, registers: u32) -> Result<Closed<F>, RunStop> {
    let shape = shape_of(&rt, u32::from(processes), registers);
    let scripts = scripts(&rt, alloc, processes);
    if scripts.len() != shape.processes() as usize {
        return Err(RunStop::OutOfMemory);
    }
    run_scripts::<F, R>(rt, alloc, shape, scripts)
}

#[test]
fn scripts_are_performed(rt: HostRuntime) {
    let alloc = rt.alloc();
    for processes in [1u16, 3] {
        let closed = performed::<Linear, HostRuntime>(rt, alloc, processes, 4).is_ok();
        assert!(rt; closed);
    }
}

#[test]
fn the_lowest_refused_process_is_told(rt: HostRuntime) {
    let stop = performed::<LocalWrite, HostRuntime>(rt, rt.alloc(), 3, 1).err();
    let fault = LiveFault::NoRegister;
    assert!(rt; stop == Some(RunStop::Pass { process: 1, fault }));
}

/// Each stop, and its text.
const STOPS: [(RunStop, &str); 3] = [
    (
        RunStop::Pass {
            process: 63,
            fault: LiveFault::Behind { length: 7 },
        },
        "process 63: behind 7",
    ),
    (
        RunStop::Close {
            fault: CloseFault::Mismatch { process: 10 },
        },
        "close: mismatch 10",
    ),
    (RunStop::OutOfMemory, "out of memory"),
];

/// Whether a stop shows this text.
fn shows(alloc: Global, stop: RunStop, shown: &str) -> bool {
    match format!(in alloc; "{stop}") {
        Ok(text) => text.as_str() == shown,
        Err(_) => false,
    }
}

#[test]
fn stops_have_their_texts(rt: HostRuntime) {
    for (stop, text) in &STOPS {
        assert!(rt; shows(rt.alloc(), *stop, text), "{text}");
    }
}
