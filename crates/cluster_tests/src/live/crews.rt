//! Clusters, and what tests do with their parts. A function that works at passes borrows them, so that a test owns a
//! cluster over few calls.
use crate::values::{read, write};
use reg_base::{Answer, Op, Shape};
use reg_front::FrontEnd;
use reg_live::{
    Closed, Cluster, Courier, Gate, LiveFault, Pacer, Parts, Pass, Receipt, Road, close, set_up,
};
use std::alloc::Global;
use std::process::Abort;
use std::sync::atomic::{AtomicBool, Ordering};
use std::sync::{Arc, Wait};
use std::thread::{JoinHandle, Threads};
use std::time::Clock;
use std::{mem, thread};

pub fn shape_of(rt: &impl Abort, processes: u32, registers: u32) -> Shape {
    Shape::new(processes, registers).expect(rt, "a shape")
}

/// A cluster of these many processes.
pub fn parts_of<F: FrontEnd, G: Gate + Drop>(
    rt: &impl Abort,
    alloc: Global,
    size: (u32, u32),
    gate: G,
) -> Parts<F, G> {
    set_up(alloc, shape_of(rt, size.0, size.1), gate).expect(rt, "a cluster")
}

/// The pass at this place, which is that of the process while none was taken from before it.
pub fn pass_of<'a, F: FrontEnd, G: Gate + Drop>(
    rt: &impl Abort,
    passes: &'a mut Vec<Pass<F, G>>,
    process: usize,
) -> &'a mut Pass<F, G> {
    passes.get_mut(process).expect(rt, "a pass")
}

/// Takes the pass of the last process.
pub fn last_of<F: FrontEnd, G: Gate + Drop>(
    rt: &impl Abort,
    passes: &mut Vec<Pass<F, G>>,
) -> Pass<F, G> {
    passes.pop().expect(rt, "a pass")
}

/// Puts a pass after the others.
pub fn put_back<F: FrontEnd, G: Gate + Drop>(
    rt: &impl Abort,
    passes: &mut Vec<Pass<F, G>>,
    pass: Pass<F, G>,
) {
    passes.push(pass).expect(rt, "memory");
}

/// Performs an operation that is to be answered.
pub fn answered<F: FrontEnd, G: Gate + Drop>(
    rt: &(impl Wait + Abort),
    pass: &mut Pass<F, G>,
    op: Op,
) -> Receipt {
    pass.perform(rt, op).expect(rt, "an answer")
}

/// Writes a register and reads it, as the first operations of a pass.
fn write_and_read<F: FrontEnd, G: Gate + Drop>(
    rt: &(impl Wait + Abort),
    pass: &mut Pass<F, G>,
    register: u16,
) {
    let value = u64::from(register) + 1;
    let written = answered(rt, pass, write(register, value));
    let seen = answered(rt, pass, read(register));
    assert!(rt;
        seen.answer == Answer::Value(value) && pass.receipts() == [written, seen].as_slice()
    );
}

/// Writes a register and reads it, in a thread of its own.
fn call_both<
    F: FrontEnd + Send + Sync + 'static,
    G: Gate + Drop + Send + Sync + 'static,
    R: Threads + Wait + Abort + Copy + Send + Sync + 'static,
>(rt: R, pass: Pass<F, G>, register: u16) -> JoinHandle<Pass<F, G>> {
    let mut pass = pass;
    thread::spawn(&rt, move || {
        write_and_read(&rt, &mut pass, register);
        pass
    })
    .expect(&rt, "a thread")
}

/// Each pass writes a register of its own and reads it, in a thread of its own.
pub fn call_all<
    F: FrontEnd + Send + Sync + 'static,
    G: Gate + Drop + Send + Sync + 'static,
    R: Threads + Wait + Abort + Copy + Send + Sync + 'static,
>(rt: R, alloc: Global, passes: &mut Vec<Pass<F, G>>) {
    let mut callers = Vec::new(alloc);
    let mut register = 0u16;
    for pass in mem::replace(passes, Vec::new(alloc)) {
        callers
            .push(call_both(rt, pass, register))
            .expect(&rt, "memory");
        register = register.wrapping_add(1);
    }
    *passes = join_all(&rt, alloc, callers);
}

/// What the threads ended with, in their order.
pub fn join_all<T: Send + Drop + 'static, R: Threads + Wait + Abort>(
    rt: &R,
    alloc: Global,
    handles: Vec<JoinHandle<T>>,
) -> Vec<T> {
    let mut ended = Vec::new(alloc);
    for handle in handles {
        ended.push(handle.join(rt)).expect(rt, "memory");
    }
    ended
}

/// A pass, and what it was told.
type Performed<F, G> = (Pass<F, G>, Result<Receipt, LiveFault>);

/// Takes the pass of the last process, which performs an operation from this place on, in a thread of its own.
pub fn perform_apart<
    F: FrontEnd + Send + Sync + 'static,
    G: Gate + Drop + Send + Sync + 'static,
    R: Threads + Wait + Abort + Copy + Send + Sync + 'static,
>(rt: R, passes: &mut Vec<Pass<F, G>>, op: Op, floor: u64) -> JoinHandle<Performed<F, G>> {
    let mut pass = last_of(&rt, passes);
    thread::spawn(&rt, move || {
        let told = pass.perform_after(&rt, op, floor);
        (pass, told)
    })
    .expect(&rt, "a thread")
}

/// What such a pass was told, once it is back after the others.
pub fn told_apart<
    F: FrontEnd + Send + Sync + 'static,
    G: Gate + Drop + Send + Sync + 'static,
    R: Threads + Wait + Abort,
>(
    rt: &R,
    passes: &mut Vec<Pass<F, G>>,
    caller: JoinHandle<Performed<F, G>>,
) -> Result<Receipt, LiveFault> {
    let (pass, told) = caller.join(rt);
    put_back(rt, passes, pass);
    told
}

/// How many turns are counted for what is to come: some seconds.
pub const LONG: u32 = 1_000_000_000;

/// Counts turns until the flag is set, or `turns` were counted. Tells whether it was set.
pub fn wait(flag: &AtomicBool, turns: u32) -> bool {
    for _ in 0..turns {
        if flag.load(Ordering::SeqCst) {
            return true;
        }
    }
    false
}

/// How many receipts a process has in a closed cluster.
pub fn told<F: FrontEnd>(closed: &Closed<F>, process: usize) -> Option<usize> {
    match closed.receipts.get(process) {
        Some(list) => Some(list.len()),
        None => None,
    }
}

/// How many events a closed cluster has, and how many entries its history.
pub fn size_of<F: FrontEnd>(closed: Closed<F>) -> (u32, usize) {
    let history = closed.world.history();
    (closed.world.events(), history.entries().len())
}

/// A courier in a thread of its own.
fn carry<
    F: FrontEnd + Send + Sync + 'static,
    G: Gate + Drop + Send + Sync + 'static,
    P: Road + Drop + Send + Sync + 'static,
    R: Threads + Wait + Abort + Copy + Send + Sync + 'static,
>(rt: R, courier: Courier<F, G>, road: &Arc<P>) -> JoinHandle<Courier<F, G>> {
    let mut courier = courier;
    let road = Arc::try_clone(road).expect(&rt, "a road");
    thread::spawn(&rt, move || {
        courier.run(&rt, &road);
        courier
    })
    .expect(&rt, "a thread")
}

/// The couriers, each in a thread of its own.
pub fn carry_all<
    F: FrontEnd + Send + Sync + 'static,
    G: Gate + Drop + Send + Sync + 'static,
    P: Road + Drop + Send + Sync + 'static,
    R: Threads + Wait + Abort + Copy + Send + Sync + 'static,
>(rt: R, alloc: Global, couriers: Vec<Courier<F, G>>, road: P) -> Vec<JoinHandle<Courier<F, G>>> {
    let road = Arc::new(alloc, road).expect(&rt, "a road");
    let mut handles = Vec::new(alloc);
    for courier in couriers {
        handles
            .push(carry(rt, courier, &road))
            .expect(&rt, "memory");
    }
    handles
}

/// Has the couriers of a cluster work, each in a thread of its own.
pub fn send_off<
    F: FrontEnd + Send + Sync + 'static,
    G: Gate + Drop + Send + Sync + 'static,
    P: Road + Drop + Send + Sync + 'static,
    R: Threads + Wait + Abort + Copy + Send + Sync + 'static,
>(rt: R, alloc: Global, parts: &mut Parts<F, G>, road: P) -> Vec<JoinHandle<Courier<F, G>>> {
    let couriers = mem::replace(&mut parts.couriers, Vec::new(alloc));
    carry_all(rt, alloc, couriers, road)
}

/// Stops a cluster and waits for its couriers. Whether it was stopped.
pub fn call_back<
    F: FrontEnd + Send + Sync + 'static,
    G: Gate + Drop + Send + Sync + 'static,
    R: Threads + Wait + Abort,
>(
    rt: &R,
    alloc: Global,
    parts: &mut Parts<F, G>,
    couriers: Vec<JoinHandle<Courier<F, G>>>,
) -> bool {
    let stopped = parts.cluster.stop(rt).is_ok();
    parts.couriers = join_all(rt, alloc, couriers);
    stopped
}

/// The pacer in a thread of its own.
fn pace<
    F: FrontEnd + Send + Sync + 'static,
    G: Gate + Drop + Send + Sync + 'static,
    R: Threads + Wait + Clock + Abort + Copy + Send + Sync + 'static,
>(rt: R, pacer: Pacer<F, G>) -> JoinHandle<Pacer<F, G>> {
    let mut pacer = pacer;
    thread::spawn(&rt, move || {
        pacer.run(&rt);
        pacer
    })
    .expect(&rt, "a thread")
}

/// A cluster whose couriers and pacer run in threads of their own.
#[derive(Drop)]
pub struct Running<F: FrontEnd, G> {
    cluster: Cluster<F, G>,
    couriers: Vec<JoinHandle<Courier<F, G>>>,
    pacer: JoinHandle<Pacer<F, G>>,
}

/// The passes of a cluster, and the rest of it at work over this road.
pub fn start<
    F: FrontEnd + Send + Sync + 'static,
    G: Gate + Drop + Send + Sync + 'static,
    P: Road + Drop + Send + Sync + 'static,
    R: Threads + Wait + Clock + Abort + Copy + Send + Sync + 'static,
>(rt: R, alloc: Global, parts: Parts<F, G>, road: P) -> (Vec<Pass<F, G>>, Running<F, G>) {
    let Parts {
        cluster,
        passes,
        couriers,
        pacer,
    } = parts;
    let couriers = carry_all(rt, alloc, couriers, road);
    let pacer = pace(rt, pacer);
    let running = Running {
        cluster,
        couriers,
        pacer,
    };
    (passes, running)
}

/// Stops a cluster, waits for its threads and closes it.
pub fn end<
    F: FrontEnd + Send + Sync + 'static,
    G: Gate + Drop + Send + Sync + 'static,
    R: Threads + Wait + Abort,
>(rt: &R, alloc: Global, running: Running<F, G>, passes: Vec<Pass<F, G>>) -> Closed<F> {
    let Running {
        cluster,
        couriers,
        pacer,
    } = running;
    cluster.stop(rt).expect(rt, "memory");
    let couriers = join_all(rt, alloc, couriers);
    let pacer = pacer.join(rt);
    let parts = Parts {
        cluster,
        passes,
        couriers,
        pacer,
    };
    shut(rt, alloc, parts)
}

/// Closes a cluster none of whose threads runs, and whose record is to be faithful.
pub fn shut<F: FrontEnd, G: Gate + Drop>(
    rt: &(impl Wait + Abort),
    alloc: Global,
    parts: Parts<F, G>,
) -> Closed<F> {
    close(rt, alloc, parts).expect(rt, "a faithful record")
}
