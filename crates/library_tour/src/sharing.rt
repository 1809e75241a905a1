//! Two threads share a register over a road that loses and repeats parcels. One writes, and hands on how far the
//! journal has come; the other reads from there on, so it reads what was written. It prints the same whatever the
//! schedule.
use anyhow::anyhow;
use std::alloc::Global;
use std::sync::{Arc, Wait};
use std::thread;
use std::thread::Threads;
use std::time::Clock;
use tellwydar::{
    Linear, NoGate, Pass, Receipt, Rough, SeedWords, Shape, World, check_points, read_from, start,
    write,
};

/// Writes with one pass, and has another thread read with the other from after the answer on.
fn write_and_read<R: Threads + Wait + Copy + Send + Sync + 'static>(
    rt: R,
    passes: &mut Vec<Pass<Linear, NoGate>>,
) -> anyhow::Result<()> {
    let (Some(mut reader), Some(writer)) = (passes.pop(), passes.last_mut()) else {
        return Err(anyhow!("no passes"));
    };
    let floor = writer.perform(&rt, write(0, 5))?.answered.saturating_add(1);
    let other = thread::spawn(&rt, move || {
        let seen = read_from(&rt, &mut reader, 0, floor);
        (reader, seen)
    })?;
    let (reader, seen) = other.join(&rt);
    passes.push(reader)?;
    seen?;
    Ok(())
}

/// Prints what each thread was answered, and whether the points of the run are a linearization.
fn print_run(
    rt: &impl Print,
    alloc: Global,
    receipts: &[Vec<Receipt>],
    world: &World<Linear>,
) -> anyhow::Result<()> {
    for receipt in receipts.iter().flatten() {
        println!(rt;
            "process {}: {:?}, {:?}",
            receipt.id.process, receipt.op, receipt.answer
        )?;
    }
    let (history, points) = world.linearization()?;
    let verdict = check_points(alloc, history, &points);
    println!(rt; "points of {} operations: {:?}", points.len(), verdict)?;
    Ok(())
}

/// Makes a cluster, has its registers shared, closes it, and prints what came.
pub fn run<R>(rt: R) -> anyhow::Result<()>
where
    R: AllocGlobal + Print + Clock + Threads + Wait + Copy + Send + Sync + 'static,
{
    let alloc = rt.alloc();
    let road = Arc::new(alloc, Rough::new(SeedWords::new(7), 20, 20))?;
    let (running, mut passes) = start::<Linear, _, _, _>(
        rt,
        alloc,
        Shape::new(2, 1)?,
        NoGate,
        road,
    )?;
    let performed = write_and_read(rt, &mut passes);
    let closed = running.close(&rt, alloc, passes)?;
    performed?;
    print_run(&rt, alloc, closed.receipts.as_slice(), &closed.world)
}
