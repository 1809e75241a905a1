//! Logs of seeded plays, put into one order again: whole, with an entry cut off, and with a reply changed.
use crate::demands::demand_none;
use crate::lossy_plays::{SWAPS, THREE};
use crate::plays::{LOSSY, SMALL, work_of};
use reg_base::Shape;
use reg_front::{Front, FrontEnd, Linear, LocalRead, LocalWrite};
use reg_process::{Reply, Step};
use reg_records::{Left, LogEntry, MergeFault, Merged, merge, play};
use reg_workload::{Play, SeedWords, Workload, play_seeded};
use reg_world::{Event, Wires, World};
use std::alloc::Global;

type Logs = Vec<Vec<LogEntry>>;

/// A workload, the front end of its plays, and how many seeds play it.
const PLAYS: &[(&str, Front, u64)] = &[
    (SMALL, Front::LocalWrite, 1),
    (SWAPS, Front::LocalRead, 1),
    (THREE, Front::Linear, 1),
];

/// The process of an event, and its step.
fn step_of<F: FrontEnd>(world: &World<F>, event: &Event) -> Option<(u8, Step)> {
    match *event {
        Event::Call { process, op } => Some((process, Step::Call { op })),
        Event::Take { from, to, number } => match world.frame_at(from, to, number) {
            Some(frame) => Some((to, Step::Take { from, frame })),
            None => None,
        },
        Event::Tick { process } => Some((process, Step::Tick)),
    }
}

/// Adds an entry to the log of a process.
fn add(logs: &mut Logs, process: u8, entry: LogEntry) -> bool {
    match logs.get_mut(usize::from(process)) {
        Some(log) => log.push(entry).is_ok(),
        None => false,
    }
}

/// An empty log of each process.
fn empty_logs(alloc: Global, shape: Shape) -> Option<Logs> {
    let mut logs: Logs = Vec::new(alloc);
    for _process in 0..shape.processes() {
        if logs.push(Vec::new(alloc)).is_err() {
            return None;
        }
    }
    Some(logs)
}

/// Has a world make an event, and adds what its process logs of it.
fn log_event<F: FrontEnd>(logs: &mut Logs, world: &mut World<F>, event: &Event) -> bool {
    match (step_of(world, event), world.step_reply(event)) {
        (Some((process, step)), Ok(reply)) => add(logs, process, LogEntry { step, reply }),
        _ => false,
    }
}

/// The same of all events.
fn log_events<F: FrontEnd>(logs: &mut Logs, world: &mut World<F>, events: &[Event]) -> bool {
    for event in events {
        if !log_event(logs, world, event) {
            return false;
        }
    }
    true
}

/// The logs of the run of these events.
fn logs_of<F: FrontEnd>(alloc: Global, shape: Shape, events: &[Event]) -> Option<Logs> {
    let mut logs = empty_logs(alloc, shape)?;
    let logged = match World::<F>::new(alloc, shape) {
        Ok(mut world) => log_events(&mut logs, &mut world, events),
        Err(_) => false,
    };
    logged.then_some(logs)
}

fn merged<F: FrontEnd>(
    alloc: Global,
    shape: Shape,
    logs: &Logs,
) -> Result<Merged<Global>, MergeFault> {
    if logs.len() != shape.processes() as usize {
        return Err(MergeFault::TooMany);
    }
    merge::<F, Global, Wires<Global>>(alloc, shape, logs)
}

/// Whether the entries in this order are a run of all of them.
fn is_run<F: FrontEnd>(alloc: Global, shape: Shape, order: &[u8], logs: &Logs) -> bool {
    if logs.len() != shape.processes() as usize {
        return false;
    }
    play::<F, Global, Wires<Global>>(alloc, shape, order, logs).is_ok()
}

/// Whether the logs have an order of all entries, found again.
fn is_found<F: FrontEnd>(alloc: Global, shape: Shape, logs: &Logs) -> bool {
    match merged::<F>(alloc, shape, logs) {
        Ok(Merged { order, left: None }) => is_run::<F>(alloc, shape, &order, logs),
        _ => false,
    }
}

/// How many entries of a process an order has.
fn count_of(order: &[u8], process: usize) -> usize {
    let mut count = 0usize;
    for by in order {
        if usize::from(*by) == process {
            count = count.wrapping_add(1);
        }
    }
    count
}

/// Adds the first entries of a log. Tells whether there are so many.
fn add_first(some: &mut Logs, alloc: Global, log: &[LogEntry], count: usize) -> bool {
    let Some(entries) = log.get(..count) else {
        return false;
    };
    match entries.to_vec(alloc) {
        Ok(entries) => some.push(entries).is_ok(),
        Err(_) => false,
    }
}

/// The logs up to where an order goes.
fn placed(alloc: Global, order: &[u8], logs: &Logs) -> Option<Logs> {
    let mut some: Logs = Vec::new(alloc);
    for (process, log) in logs.iter().enumerate() {
        if !add_first(&mut some, alloc, log, count_of(order, process)) {
            return None;
        }
    }
    Some(some)
}

/// Whether an order is a run of the logs up to where it goes. None where it goes past an end.
fn runs<F: FrontEnd>(alloc: Global, shape: Shape, order: &[u8], logs: &Logs) -> Option<bool> {
    let some = placed(alloc, order, logs)?;
    Some(is_run::<F>(alloc, shape, order, &some))
}

/// Whether what is left is the next entry of its log, and none of the order with it is a run.
fn is_stuck<F: FrontEnd>(alloc: Global, shape: Shape, merged: Merged<Global>, logs: &Logs) -> bool {
    let Merged { mut order, left } = merged;
    if runs::<F>(alloc, shape, &order, logs) != Some(true) {
        return false;
    }
    let Some(Left { process, place }) = left else {
        return true;
    };
    let next = usize::from(process);
    next < logs.len()
        && count_of(&order, next) as u64 == place
        && order.push(process).is_ok()
        && runs::<F>(alloc, shape, &order, logs) == Some(false)
}

/// Whether the logs without the last entry of this one are put in order as far as that goes.
fn is_cut<F: FrontEnd>(alloc: Global, shape: Shape, logs: &mut Logs, process: usize) -> bool {
    match logs.get_mut(process) {
        Some(log) => drop(log.pop()),
        None => return false,
    }
    match merged::<F>(alloc, shape, logs) {
        Ok(merged) => is_stuck::<F>(alloc, shape, merged, logs),
        Err(_) => false,
    }
}

/// Changes the first reply of a log, and gives its place.
fn change(log: &mut Vec<LogEntry>) -> Option<u64> {
    let mut place = 0u64;
    for entry in log.iter_mut() {
        if let Some(Reply { answer, place: at }) = entry.reply {
            let at = at.wrapping_add(1);
            entry.reply = Some(Reply { answer, place: at });
            return Some(place);
        }
        place = place.wrapping_add(1);
    }
    None
}

/// Whether the logs are refused at the first reply of this one, if that is another.
fn is_other<F: FrontEnd>(alloc: Global, shape: Shape, logs: &mut Logs, process: u8) -> bool {
    let Some(log) = logs.get_mut(usize::from(process)) else {
        return false;
    };
    let Some(place) = change(log) else {
        return true;
    };
    matches!(merged::<F>(alloc, shape, logs), Err(fault) if fault == MergeFault::Other { process, place })
}

/// Whether the logs of the run of these events are put in order whole and cut.
fn are_found<F: FrontEnd>(alloc: Global, shape: Shape, events: &[Event]) -> bool {
    match logs_of::<F>(alloc, shape, events) {
        Some(mut logs) => {
            is_found::<F>(alloc, shape, &logs)
                && is_cut::<F>(alloc, shape, &mut logs, 1)
                && is_cut::<F>(alloc, shape, &mut logs, 0)
        }
        None => false,
    }
}

/// Whether they are refused where the first reply of process 0 is another.
fn are_others<F: FrontEnd>(alloc: Global, shape: Shape, events: &[Event]) -> bool {
    match logs_of::<F>(alloc, shape, events) {
        Some(mut logs) => is_other::<F>(alloc, shape, &mut logs, 0),
        None => false,
    }
}

/// Whether the logs of the play of a seed are put in order whole, cut and changed.
fn is_right<F: FrontEnd>(alloc: Global, work: &Workload, seed: u64) -> bool {
    match play_seeded::<F, _, _>(alloc, work, SeedWords::new(seed)) {
        Ok(Play { world, finished: _ }) => {
            let (shape, events) = (world.shape(), world.accepted());
            are_found::<F>(alloc, shape, events) && are_others::<F>(alloc, shape, events)
        }
        Err(_) => false,
    }
}

/// The same with this front end.
fn is_right_by(alloc: Global, work: &Workload, front: Front, seed: u64) -> bool {
    match front {
        Front::Linear => is_right::<Linear>(alloc, work, seed),
        Front::LocalRead => is_right::<LocalRead>(alloc, work, seed),
        Front::LocalWrite => is_right::<LocalWrite>(alloc, work, seed),
    }
}

/// The first seed whose play isn't right.
fn first_wrong(alloc: Global, work: &Workload, front: Front, seeds: u64) -> Option<u64> {
    for seed in 0..seeds {
        if !is_right_by(alloc, work, front, seed) {
            return Some(seed);
        }
    }
    None
}

/// The same of the workload that a document says.
fn first_wrong_of(alloc: Global, head: &str, front: Front, seeds: u64) -> Option<u64> {
    match work_of(alloc, head, LOSSY, 120) {
        Some(work) => first_wrong(alloc, &work, front, seeds),
        None => Some(seeds),
    }
}

#[test]
fn logs_of_plays_are_put_in_order_again(rt: HostRuntime) {
    for (head, front, seeds) in PLAYS {
        demand_none(&rt, head, &first_wrong_of(rt.alloc(), head, *front, *seeds));
    }
}
