//! What steps of processes give, a line for each.
use crate::demands::{demand, shape_of};
use reg_base::{Delivered, Op, Shape, Stamp};
use reg_frames::{Body, Frame};
use reg_front::FrontEnd;
use reg_process::{Outcome, Process, ProcessFault, Put, Reply, Step};
use reg_text::OpLine;
use std::alloc::{AllocError, Allocator, Global};
use std::process::Abort;

/// The process that makes the step, the step, and the line of what it gives.
pub(crate) type Row = (u8, Step, &'static str);

/// An operation by the names x and y of the first two registers.
fn op_line(op: Op) -> OpLine<'static> {
    let name = if op.register() == 0 { "x" } else { "y" };
    OpLine { name, op }
}

fn push_frame(text: &mut String, frame: &Frame) -> Result<(), AllocError> {
    match *frame {
        Frame::Got { count } => write!(text, "got {count}"),
        Frame::Numbered { number, body } => match body {
            Body::Ack { time } => write!(text, "#{number} ack {time}"),
            Body::Cast { time, op } => write!(text, "#{number} cast {time} {}", op_line(op)),
        },
    }
}

pub(crate) fn push_puts(text: &mut String, puts: &[Put]) -> Result<(), AllocError> {
    for put in puts {
        text.push_str("puts ")?;
        push_frame(text, &put.frame)?;
        write!(text, " to p{}, ", put.to)?;
    }
    Ok(())
}

fn push_casts(text: &mut String, casts: &[Delivered]) -> Result<(), AllocError> {
    for cast in casts {
        let op = op_line(cast.op);
        let stamp = cast.stamp;
        write!(
            text,
            "delivers {op} at {} of p{}, ",
            stamp.time, stamp.process
        )?;
    }
    Ok(())
}

fn push_cast(text: &mut String, cast: Option<Stamp>) -> Result<(), AllocError> {
    match cast {
        Some(stamp) => write!(text, "casts at {} of p{}, ", stamp.time, stamp.process),
        None => Ok(()),
    }
}

pub(crate) fn push_reply(text: &mut String, reply: Option<Reply>) -> Result<(), AllocError> {
    match reply {
        Some(reply) => write!(text, "{:?} at place {}, ", reply.answer, reply.place),
        None => Ok(()),
    }
}

fn push_told<A: Allocator + Copy>(text: &mut String, out: &Outcome<A>) -> Result<(), AllocError> {
    push_cast(text, out.cast)?;
    push_puts(text, out.frames.as_slice())?;
    push_casts(text, out.delivered.as_slice())?;
    push_reply(text, out.reply)
}

/// What a process gives where it makes the step.
pub(crate) fn step_of<F: FrontEnd, A: Allocator + Copy>(
    process: &mut Process<F, A>,
    step: &Step,
) -> Result<Outcome<A>, ProcessFault> {
    match step {
        Step::Call { op } => process.call(*op),
        Step::Take { from, frame } => process.take(*from, frame),
        Step::Tick => process.tick(),
    }
}

/// What the process answers.
fn push_state<F: FrontEnd, A: Allocator + Copy>(
    text: &mut String,
    process: &Process<F, A>,
) -> Result<(), AllocError> {
    let (clock, pending) = (process.clock(), process.pending());
    let (unsettled, delivered) = (process.unsettled(), process.delivered_count());
    let (busy, x) = (process.busy(), process.registers().get(0).unwrap_or(0));
    write!(
        text,
        "clock {clock}, pending {pending}, unsettled {unsettled}, delivered {delivered}, busy {busy}, x {x}"
    )
}

/// What a step gave, or why it was refused, and then what the process answers where it hasn't stopped.
pub(crate) fn push_made<F: FrontEnd, A: Allocator + Copy>(
    text: &mut String,
    process: &Process<F, A>,
    made: &Result<Outcome<A>, ProcessFault>,
) -> Result<(), AllocError> {
    let pushed = match made {
        Ok(out) => push_told(text, out),
        Err(fault @ (ProcessFault::ClockFull | ProcessFault::Failed)) => {
            return write!(text, "{fault:?}");
        }
        Err(fault) => write!(text, "{fault:?}, "),
    };
    pushed?;
    push_state(text, process)
}

/// Whether the step gives this line.
fn tells<F: FrontEnd>(alloc: Global, process: &mut Process<F>, step: &Step, told: &str) -> bool {
    let mut text = String::new(alloc);
    let made = step_of(process, step);
    push_made(&mut text, process, &made).is_ok() && text.as_str() == told
}

/// Has the processes make the steps, and demands the line of each.
fn demand_rows<F: FrontEnd>(rt: &(impl Abort + AllocGlobal), all: &mut [Process<F>], rows: &[Row]) {
    for (at, step, told) in rows {
        let process = all
            .get_mut(*at as usize)
            .expect(rt, "a process of the shape");
        demand(rt, told, tells(rt.alloc(), process, step, told));
    }
}

/// Adds a new process.
fn add_process<F: FrontEnd, A: Allocator + Copy>(
    all: &mut Vec<Process<F, A>>,
    alloc: A,
    shape: Shape,
    me: u8,
) -> Result<(), ProcessFault> {
    match all.push(Process::new(alloc, shape, me)?) {
        Ok(()) => Ok(()),
        Err(_) => Err(ProcessFault::OutOfMemory),
    }
}

/// The processes of a shape. They stand in a list of ample memory.
pub(crate) fn all_of<F: FrontEnd, A: Allocator + Copy>(
    alloc: A,
    ample: Global,
    shape: Shape,
) -> Result<Vec<Process<F, A>>, ProcessFault> {
    let mut all = Vec::new(ample);
    for me in 0..shape.processes() as u8 {
        add_process(&mut all, alloc, shape, me)?;
    }
    Ok(all)
}

/// Has processes of one shape make the steps, and demands the line of each.
pub(crate) fn follow<F: FrontEnd>(rt: &(impl Abort + AllocGlobal), processes: u32, rows: &[Row]) {
    let all = all_of::<F, Global>(rt.alloc(), rt.alloc(), shape_of(rt, processes));
    demand_rows(rt, all.expect(rt, "processes").as_mut_slice(), rows);
}
