//! The lines of an answer after its first word: for a person to read. No clause speaks of them.
use crate::rulings::keys::Ruling;
use crate::rulings::reported::Judgement;
use crate::rulings::search::Sought;
use crate::rulings::serial::Serial;
use reg_base::{Answer, Op, OpId};
use reg_checkers::Entry;
use reg_history::Report;
use reg_text::{OpLine, name_at, name_of_op};
use std::alloc::{AllocError, Allocator};

/// A call, with the number of its event.
#[derive(Clone, Copy)]
struct Call {
    at: u32,
    id: OpId,
    op: Op,
}

/// What is told of a register before its ruling.
pub fn ruling_text(ruling: Ruling) -> &'static str {
    match ruling {
        Ruling::Linearizable => ": linearizable\n",
        Ruling::Not { at: _ } => ": not linearizable\n",
    }
}

/// The line on a serial order, of None where there is a point order, which is one.
pub fn serial_text(serial: Option<Serial>) -> &'static str {
    match serial {
        Some(Serial::Yes) | None => "serial order: yes\n",
        Some(Serial::No) => "serial order: no\n",
        Some(Serial::Unjudged) => {
            "serial order: not judged, a process goes on after a call of unknown end\n"
        }
        Some(Serial::TooWide) => "serial order: not judged, too many stages\n",
    }
}

/// The calls on a register that have no answer before the event of this number, in the order of their calls.
fn under_way<A: Allocator + Copy>(
    alloc: A,
    entries: &[Entry],
    register: u16,
    at: u32,
) -> Result<Vec<Call, A>, AllocError> {
    let mut calls = Vec::new(alloc);
    for entry in entries {
        match *entry {
            Entry::Called { at: called, id, op } => {
                if called <= at && op.register() == register {
                    calls.push(Call { at: called, id, op })?;
                }
            }
            Entry::Answered {
                at: given,
                id,
                answer: _,
            } => {
                if given < at {
                    calls.retain(|call: &Call| call.id != id);
                }
            }
        }
    }
    Ok(calls)
}

/// What is answered at the event of this number, and under which id.
fn answer_at(entries: &[Entry], event: u32) -> Option<(OpId, Answer)> {
    for entry in entries {
        if let Entry::Answered { at, id, answer } = *entry {
            if at == event {
                return Some((id, answer));
            }
        }
    }
    None
}

/// The operation that was called under this id.
fn op_of(entries: &[Entry], sought: OpId) -> Option<Op> {
    for entry in entries {
        if let Entry::Called { at: _, id, op } = *entry {
            if id == sought {
                return Some(op);
            }
        }
    }
    None
}

/// A call, or the answer to it, as it is told, without its line feed.
fn call_text<A: Allocator + Copy>(
    alloc: A,
    report: &Report<A>,
    call: Call,
) -> Result<String<A>, AllocError> {
    let op = OpLine {
        name: name_of_op(report.names(), call.op),
        op: call.op,
    };
    let (at, process, number) = (call.at, call.id.process, call.id.number);
    format!(in alloc; "event {at}: p{process} #{number} {op}")
}

/// An answer as it is told.
fn answer_text<A: Allocator + Copy>(alloc: A, answer: Answer) -> Result<String<A>, AllocError> {
    match answer {
        Answer::Done => String::from_str(alloc, "done"),
        Answer::Unequal => String::from_str(alloc, "unequal"),
        Answer::Value(value) => format!(in alloc; "value {value}"),
    }
}

/// The start of the line on what might have been answered instead, and the line where that was not looked for.
pub const POSSIBLE: &str = "  possible: ";

pub const NOT_LOOKED_FOR: &str = "  possible: not looked for, there may be too many\n";

/// Puts what might have been answered instead, if that is told.
fn put_possible<A: Allocator + Copy>(
    alloc: A,
    out: &mut String<A>,
    possible: Option<&Option<Vec<Answer, A>>>,
) -> Result<(), AllocError> {
    let Some(Some(answers)) = possible else {
        return out.push_str(NOT_LOOKED_FOR);
    };
    let mut before = POSSIBLE;
    for answer in answers {
        out.push_str(before)?;
        out.push_str(answer_text(alloc, *answer)?.as_str())?;
        before = ", ";
    }
    out.push_str("\n")
}

/// Puts the line of the answer at the event of this number, by which there is no point order.
fn put_by<A: Allocator + Copy>(
    alloc: A,
    out: &mut String<A>,
    report: &Report<A>,
    at: u32,
) -> Result<(), AllocError> {
    let entries = report.history().entries();
    let Some((id, answer)) = answer_at(entries, at) else {
        return Ok(());
    };
    let Some(op) = op_of(entries, id) else {
        return Ok(());
    };
    out.push_str("  by ")?;
    out.push_str(call_text(alloc, report, Call { at, id, op })?.as_str())?;
    out.push_str(": ")?;
    out.push_str(answer_text(alloc, answer)?.as_str())?;
    out.push_str("\n")
}

/// Puts a line for each other call on the register that has no answer before the event of this number.
fn put_under_way<A: Allocator + Copy>(
    alloc: A,
    out: &mut String<A>,
    report: &Report<A>,
    register: u16,
    at: u32,
) -> Result<(), AllocError> {
    let entries = report.history().entries();
    let answered = answer_at(entries, at);
    for call in &under_way(alloc, entries, register, at)? {
        if answered.is_none_or(|(id, _)| id != call.id) {
            out.push_str("  under way ")?;
            out.push_str(call_text(alloc, report, *call)?.as_str())?;
            out.push_str("\n")?;
        }
    }
    Ok(())
}

/// Puts what was found out of a register.
fn put_register<A: Allocator + Copy>(
    alloc: A,
    out: &mut String<A>,
    report: &Report<A>,
    register: u16,
    judgement: &Judgement<A>,
) -> Result<(), AllocError> {
    let place = usize::from(register);
    let Some(ruling) = judgement.rulings.get(place) else {
        return Ok(());
    };
    out.push_str("register ")?;
    out.push_str(name_at(report.names(), register))?;
    out.push_str(ruling_text(*ruling))?;
    if let Ruling::Not { at } = *ruling {
        put_by(alloc, out, report, at)?;
        put_possible(alloc, out, judgement.possible.get(place))?;
        put_under_way(alloc, out, report, register, at)?;
    }
    Ok(())
}

/// The lines of an answer after its first word.
pub(crate) fn details<A: Allocator + Copy>(
    alloc: A,
    report: &Report<A>,
    judgement: &Judgement<A>,
) -> Result<String<A>, AllocError> {
    let mut out = String::new(alloc);
    for register in 0..report.history().shape().registers() {
        put_register(alloc, &mut out, report, register as u16, judgement)?;
    }
    out.push_str(order_text(&judgement.sought))?;
    out.push_str(serial_text(judgement.serial))?;
    Ok(out)
}

/// The line on a point order.
fn order_text<A: Allocator + Copy>(sought: &Sought<A>) -> &'static str {
    match sought {
        Sought::Points(_) => "point order: yes\n",
        Sought::None { place: _ } => "point order: no\n",
    }
}
