//! Four threads add to two counters that they share: to one while they hold a lock that is taken by swaps, to the other
//! by compare-and-swaps without a lock. The road loses and repeats parcels. It prints the same whatever the schedule.
use anyhow::anyhow;
use std::alloc::Global;
use std::sync::{Arc, Wait};
use std::thread;
use std::thread::{JoinHandle, Threads};
use std::time::Clock;
use tellwydar::{
    Linear, LiveFault, Names, NoGate, Pass, Rough, SeedWords, World, check_points, shape_for, start,
};

/// How often each thread adds 1 to each counter.
const TIMES: u32 = 5;

/// The registers that the threads share.
#[derive(Clone, Copy)]
struct Registers {
    /// 0 where the lock is free, and else 1.
    lock: u16,
    /// What is added to while the lock is held.
    counter: u16,
    /// What is added to without a lock.
    free: u16,
}

/// A pass, and whether all that its thread called was answered.
type Added = (Pass<Linear, NoGate>, Result<(), LiveFault>);

/// Swaps 1 in until a 0 comes out: then no other thread holds the lock.
fn take_lock<R: Wait>(rt: &R, pass: &mut Pass<Linear, NoGate>, lock: u16) -> Result<(), LiveFault> {
    for _ in rt.forever() {
        if pass.swap(rt, lock, 1)? == 0 {
            break;
        }
    }
    Ok(())
}

/// Reads a counter, and writes one more where it still holds what was read; as often as it takes.
fn add_one<R: Wait>(
    rt: &R,
    pass: &mut Pass<Linear, NoGate>,
    counter: u16,
) -> Result<(), LiveFault> {
    for _ in rt.forever() {
        let count = pass.read(rt, counter)?;
        if pass.compare_and_swap(rt, counter, count, count.saturating_add(1))? {
            break;
        }
    }
    Ok(())
}

/// Adds 1 to each counter `TIMES` times.
fn add<R: Wait>(
    rt: &R,
    pass: &mut Pass<Linear, NoGate>,
    shared: Registers,
) -> Result<(), LiveFault> {
    for _ in 0..TIMES {
        take_lock(rt, pass, shared.lock)?;
        let count = pass.read(rt, shared.counter)?;
        pass.write(rt, shared.counter, count.saturating_add(1))?;
        pass.write(rt, shared.lock, 0)?;
        add_one(rt, pass, shared.free)?;
    }
    Ok(())
}

/// The names of the registers.
fn named(alloc: Global) -> anyhow::Result<Names> {
    let mut names = Vec::new(alloc);
    for name in ["lock", "counter", "free"] {
        names.push(String::from_str(alloc, name)?)?;
    }
    Ok(Names::new(names)?)
}

/// The registers that have these names.
fn registers_of(names: &Names) -> anyhow::Result<Registers> {
    match (
        names.number("lock"),
        names.number("counter"),
        names.number("free"),
    ) {
        (Some(lock), Some(counter), Some(free)) => Ok(Registers {
            lock,
            counter,
            free,
        }),
        _ => Err(anyhow!("no such register")),
    }
}

/// Starts a thread for each pass.
fn start_all<R: Threads + Wait + Copy + Send + Sync + 'static>(
    rt: R,
    threads: &mut Vec<JoinHandle<Added>>,
    passes: Vec<Pass<Linear, NoGate>>,
    shared: Registers,
) -> anyhow::Result<()> {
    for mut pass in passes {
        threads.reserve(1)?;
        threads.push_reserved(thread::spawn(&rt, move || {
            let added = add(&rt, &mut pass, shared);
            (pass, added)
        })?);
    }
    Ok(())
}

/// Waits for the threads, whose passes come back, and reads both counters.
fn totals<R: Threads + Wait>(
    rt: &R,
    passes: &mut Vec<Pass<Linear, NoGate>>,
    threads: Vec<JoinHandle<Added>>,
    shared: Registers,
) -> anyhow::Result<(u64, u64)> {
    let mut ended = Ok(());
    for thread in threads {
        let (pass, added) = thread.join(rt);
        passes.push(pass)?;
        ended = ended.and(added);
    }
    ended?;
    let Some(pass) = passes.last_mut() else {
        return Err(anyhow!("no passes"));
    };
    Ok((pass.read(rt, shared.counter)?, pass.read(rt, shared.free)?))
}

/// Prints whether the points of the run are a linearization.
fn print_verdict(rt: &impl Print, alloc: Global, world: &World<Linear>) -> anyhow::Result<()> {
    let (history, points) = world.linearization()?;
    let verdict = check_points(alloc, history, &points);
    println!(rt; "linearizable: {:?}", verdict)?;
    Ok(())
}

/// Makes a cluster, has all threads add, closes it, and prints the totals.
pub fn run<R>(rt: R) -> anyhow::Result<()>
where
    R: AllocGlobal + Print + Clock + Threads + Wait + Copy + Send + Sync + 'static,
{
    let alloc = rt.alloc();
    let road = Arc::new(alloc, Rough::new(SeedWords::new(11), 10, 10))?;
    let names = named(alloc)?;
    let shape = shape_for(4, &names)?;
    let shared = registers_of(&names)?;
    let (running, passes) = start::<Linear, _, _, _>(rt, alloc, shape, NoGate, road)?;
    let mut threads = Vec::new(alloc);
    let mut passes_back = Vec::new(alloc);
    let started = start_all(rt, &mut threads, passes, shared);
    let totals = totals(&rt, &mut passes_back, threads, shared);
    let closed = running.close(&rt, alloc, passes_back)?;
    started?;
    let (counted, free) = totals?;
    println!(rt; "total: {}", counted)?;
    println!(rt; "without a lock: {}", free)?;
    print_verdict(&rt, alloc, &closed.world)
}
