//! A tour of the library: a world stepped by hand, its serial order and its linearization, and what the checkers say.
ghost use Rattle.std.specs.Prelude.{◌≡◌, []};

use anyhow::anyhow;
use std::alloc::Global;
use tellwydar::{
    Entry, Event, History, Linear, Op, Reply, Shape, World, WorldFault, call_first, check_points,
    check_serial,
};

const WRITE: Op = Op::Write {
    register: 0,
    value: 5,
};

const READ: Op = Op::Read { register: 0 };

/// After process 0 called a write: it reads, which is refused, since it runs an operation; the frames that matter are
/// taken, and process 1 reads.
const EVENTS: [Event; 6] = [
    Event::Call {
        process: 0,
        op: READ,
    },
    Event::Take {
        from: 0,
        to: 1,
        number: 0,
    },
    Event::Take {
        from: 1,
        to: 0,
        number: 1,
    },
    Event::Call {
        process: 1,
        op: READ,
    },
    Event::Take {
        from: 1,
        to: 0,
        number: 2,
    },
    Event::Take {
        from: 0,
        to: 1,
        number: 3,
    },
];

/// Tells what came of an event.
fn tell(
    rt: &impl Print,
    event: &Event,
    outcome: Result<Option<Reply>, WorldFault>,
) -> anyhow::Result<()> {
    match outcome {
        Ok(Some(reply)) => println!(rt; "{event:?}, answered {:?}", reply.answer)?,
        Ok(None) => println!(rt; "{event:?}")?,
        Err(fault) => println!(rt; "{event:?}, refused: {fault:?}")?,
    }
    Ok(())
}

/// Tells the calls and answers.
fn tell_history(rt: &impl Print, history: &History) -> anyhow::Result<()> {
    println!(rt; "history")?;
    for entry in history.entries() {
        match *entry {
            Entry::Called { at, id, op } => {
                println!(rt; "  {at}: p{} #{} calls {op:?}", id.process, id.number)?
            }
            Entry::Answered { at, id, answer } => {
                println!(rt;
                    "  {at}: p{} #{} is answered {answer:?}",
                    id.process, id.number
                )?
            }
        }
    }
    Ok(())
}

/// Makes the other events, and tells what came of each.
fn step_all(rt: &impl Print, world: &mut World<Linear>) -> anyhow::Result<()> {
    for event in &EVENTS {
        tell(rt, event, world.step_reply(event))?;
    }
    Ok(())
}

/// Tells a serial order of the history, and what the checker says of it and of the order turned round.
fn tell_serial_order(rt: &impl Print, alloc: Global, world: &World<Linear>) -> anyhow::Result<()> {
    let (history, mut ids) = world.serial_order()?;
    tell_history(rt, history)?;
    println!(rt; "serial order")?;
    for id in &ids {
        println!(rt; "  p{} #{}", id.process, id.number)?;
    }
    println!(rt; "  checked: {:?}", check_serial(alloc, history, &ids))?;
    ids.reverse();
    println!(rt; "  reversed: {:?}", check_serial(alloc, history, &ids))?;
    Ok(())
}

/// Tells the points of the history, and what the checker says of them.
fn tell_linearization(rt: &impl Print, alloc: Global, world: &World<Linear>) -> anyhow::Result<()> {
    let (history, points) = world.linearization()?;
    println!(rt; "linearization")?;
    for point in &points {
        println!(rt;
            "  p{} #{} at {}",
            point.id.process, point.id.number, point.at
        )?;
    }
    println!(rt; "  checked: {:?}", check_points(alloc, history, &points))?;
    Ok(())
}

/// The tour, through a world in which nothing was called yet.
fn tour(rt: &impl Print, alloc: Global, world: &mut World<Linear>) -> anyhow::Result<()>
    requires { world.old.history ≡ [] }
{
    let first = Event::Call {
        process: 0,
        op: WRITE,
    };
    tell(rt, &first, call_first(world, 0, WRITE))?;
    step_all(rt, world)?;
    tell_serial_order(rt, alloc, world)?;
    tell_linearization(rt, alloc, world)
}

/// Makes a world, and tells of it.
pub fn run(rt: &(impl AllocGlobal + Print)) -> anyhow::Result<()> {
    let Ok(shape) = Shape::new(2, 1) else {
        return Err(anyhow!("no shape"));
    };
    let mut world = World::<Linear>::new(rt.alloc(), shape)?;
    tour(rt, rt.alloc(), &mut world)
}
