//! The lines of a verdict after its first word: for a person to read. No clause speaks of them.
use crate::events::{Event, Moment};
use crate::heard::Heard;
use crate::judging::Verdict;
use crate::rows::number_of;
use crate::words::Words;
use itoa::Buffer;
use reg_base::Answer;
use reg_judge::{Act, NOT_LOOKED_FOR, POSSIBLE, Ruling, ruling_text, serial_text};
use std::alloc::{AllocError, Allocator, Global};

fn put_number(out: &mut String, number: u32) -> Result<(), AllocError> {
    let mut digits = Buffer::new();
    out.push_str(digits.format(number))
}

fn put_word(out: &mut String, words: &Words, number: u32) -> Result<(), AllocError> {
    match words.word(number) {
        Some(word) => out.push_str(word),
        None => out.push_str("?"),
    }
}

fn name_of_act(act: Act) -> &'static str {
    match act {
        Act::Read => "read",
        Act::Write => "write",
        Act::Swap => "swap",
        Act::CompareAndSwap => "cas",
    }
}

/// Puts a value, after a space.
fn put_value(out: &mut String, heard: &Heard, value: u32) -> Result<(), AllocError> {
    out.push_str(" ")?;
    put_word(out, &heard.words.values, value)
}

/// Puts what is known of a compare-and-swap: of a call its two values, of an answer which it is.
fn put_compared(out: &mut String, heard: &Heard, event: Event) -> Result<(), AllocError> {
    match event.moment {
        Moment::Invoke => {
            put_value(out, heard, event.expected)?;
            put_value(out, heard, event.value)
        }
        Moment::Ok => out.push_str(" done"),
        Moment::Unequal => out.push_str(" unequal"),
        Moment::Fail | Moment::Info => Ok(()),
    }
}

/// Puts the line of an event, its process and what it tells, with the value where one is told.
fn put_event(out: &mut String, heard: &Heard, event: Event, told: bool) -> Result<(), AllocError> {
    out.push_str("line ")?;
    put_number(out, event.line)?;
    out.push_str(": process ")?;
    put_word(out, &heard.words.processes, event.process)?;
    out.push_str(" ")?;
    out.push_str(name_of_act(event.act))?;
    if event.act == Act::CompareAndSwap {
        put_compared(out, heard, event)?;
    } else if told {
        put_value(out, heard, event.value)?;
    }
    out.push_str("\n")
}

/// Whether the event ends its call for sure.
fn ends(event: Event) -> bool {
    match event.moment {
        Moment::Ok | Moment::Fail | Moment::Unequal => true,
        Moment::Invoke | Moment::Info => false,
    }
}

/// The calls at the key that have no sure end before the event of this number.
fn under_way(
    global: Global,
    events: &[Event],
    key: u32,
    at: u32,
) -> Result<Vec<Event>, AllocError> {
    let mut calls = Vec::new(global);
    for event in events.iter().take(at as usize) {
        if event.key == key {
            if event.moment == Moment::Invoke {
                calls.push(*event)?;
            } else if ends(*event) {
                let process = event.process;
                calls.retain(|call: &Event| call.process != process);
            }
        }
    }
    Ok(calls)
}

/// Puts the line of the answer of this number, by which there is no point order.
fn put_by(out: &mut String, heard: &Heard, at: u32) -> Result<(), AllocError> {
    let Some(event) = heard.events.get(at as usize).copied() else {
        return Ok(());
    };
    out.push_str("  by ")?;
    put_event(out, heard, event, event.act != Act::Write)
}

/// Puts an answer, where the first value of registers has this number.
fn put_answer(
    out: &mut String,
    heard: &Heard,
    first: u32,
    answer: Answer,
) -> Result<(), AllocError> {
    match answer {
        Answer::Done => out.push_str("done"),
        Answer::Unequal => out.push_str("unequal"),
        Answer::Value(value) => put_word(out, &heard.words.values, number_of(first, value)),
    }
}

/// Puts what might have been answered instead, if that is told.
fn put_possible(
    out: &mut String,
    heard: &Heard,
    first: u32,
    possible: Option<&Option<Vec<Answer>>>,
) -> Result<(), AllocError> {
    let Some(Some(answers)) = possible else {
        return out.push_str(NOT_LOOKED_FOR);
    };
    let mut before = POSSIBLE;
    for answer in answers {
        out.push_str(before)?;
        put_answer(out, heard, first, *answer)?;
        before = ", ";
    }
    out.push_str("\n")
}

/// Puts a line for each call of another process at the key that has no sure end before the event of this number.
fn put_under_way(
    global: Global,
    out: &mut String,
    heard: &Heard,
    key: u32,
    at: u32,
) -> Result<(), AllocError> {
    let Some(event) = heard.events.get(at as usize).copied() else {
        return Ok(());
    };
    for call in &under_way(global, &heard.events, key, at)? {
        if call.process != event.process {
            out.push_str("  under way ")?;
            put_event(out, heard, *call, call.act != Act::Read)?;
        }
    }
    Ok(())
}

/// Puts what was found out of each key.
fn put_keys<A: Allocator + Copy>(
    global: Global,
    out: &mut String,
    heard: &Heard,
    verdict: &Verdict<A>,
) -> Result<(), AllocError> {
    let mut key = 0u32;
    for ruling in &verdict.keys {
        out.push_str("key ")?;
        put_word(out, &heard.words.keys, key)?;
        out.push_str(ruling_text(*ruling))?;
        if let Ruling::Not { at } = *ruling {
            put_by(out, heard, at)?;
            let possible = verdict.possible.get(key as usize);
            put_possible(out, heard, verdict.first, possible)?;
            put_under_way(global, out, heard, key, at)?;
        }
        key = key.saturating_add(1);
    }
    Ok(())
}

/// The lines of a verdict after its first word.
pub(crate) fn details<A: Allocator + Copy>(
    global: Global,
    heard: &Heard,
    verdict: &Verdict<A>,
) -> Result<String, AllocError> {
    let mut out = String::new(global);
    put_keys(global, &mut out, heard, verdict)?;
    out.push_str("first value: ")?;
    put_word(&mut out, &heard.words.values, verdict.first)?;
    out.push_str("\n")?;
    if verdict.points.is_some() {
        out.push_str("point order: yes\n")?;
    } else {
        out.push_str("point order: no\n")?;
    }
    out.push_str(serial_text(verdict.serial))?;
    Ok(out)
}
