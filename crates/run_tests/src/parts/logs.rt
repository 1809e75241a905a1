//! Worked examples of logs as text. Their seals were computed with another program's CRC-32.
use crate::answers::{shown, unless_memory};
use crate::demands::{demand, demand_none, demand_refusals, shape_of};
use crate::parts::nodes::{ACKNOWLEDGED, CALL_READ, CALL_WRITE, TAKE_ACK, WROTE};
use crate::parts::texts::names_of;
use reg_base::{Names, Op, Shape};
use reg_frames::{Body, Frame};
use reg_front::{Front, Linear};
use reg_heap::Trial;
use reg_node::{
    LineFault, LogEntry, LogFault, LogId, LoggedFault, LoggedNode, MeetingFault, OpenFault,
    ReadLog, Recorded, Step, begin_log, read_log, sealed_entry,
};
use std::alloc::{AllocError, Allocator, Global};
use std::test::Fail;

/// The log of process 0 of two that share a register x.
pub(crate) const ID: LogId = LogId {
    cluster: 7,
    process: 0,
    chapter: 0,
    begun: 12,
};

pub(crate) const HEAD: &str =
    "e009c6ff tellwydar log 1\n69771c8e cluster 7\nded1c05f process 0\n91ba8d59 chapter 0\nb56a2825 begun 12\n2f99698f tellwydar record 1\n95118964 front linear\nc2025397 processes 2\ndc21685e registers x\n";

pub(crate) const WRITE: &str = "fbc16c9f 0 call write x 5\n";

pub(crate) const GOT: &str = "92e249cb 0 take 1 000a01020000000000000001\n";

pub(crate) const ACKNOWLEDGE: &str =
    "b9d266ce 0 take 1 001301010000000000000000020000000000000002 = done 0\n";

/// The acknowledgement that another process took the first body.
const TAKE_GOT: LogEntry = LogEntry {
    step: Step::Take {
        from: 1,
        frame: Frame::Got { count: 1 },
    },
    reply: None,
};

const ENTRIES: [(LogEntry, &str); 3] = [
    (WROTE, WRITE),
    (TAKE_GOT, GOT),
    (ACKNOWLEDGED, ACKNOWLEDGE),
];

/// Pieces of a text, how many entries were told to be durable, and what is read.
type Row = (&'static [&'static str], u64, &'static str);

const ROWS: &[Row] = &[
    (&[HEAD], 0, "0 entries, 192 bytes"),
    (&[HEAD, WRITE, GOT, ACKNOWLEDGE], 3, "3 entries, 331 bytes"),
    // (a crash tears the last line off, at its line feed, within it, or leaves zeros)
    (
        &[HEAD, WRITE, "92e249cb 0 take 1 000a01020000000000000001"],
        1,
        "1 entries, 218 bytes",
    ),
    (&[HEAD, WRITE, "92e249"], 1, "1 entries, 218 bytes"),
    (&[HEAD, WRITE, GOT, "\0\0\0\0"], 2, "2 entries, 261 bytes"),
    (
        &[HEAD, WRITE, "92e249cb 0 take\0\0\0\0\0\0\n", ACKNOWLEDGE],
        1,
        "1 entries, 218 bytes",
    ),
    // (a durable entry that is missing, changed or out of its place is told)
    (&[HEAD, WRITE], 2, "entry 1: damaged"),
    (
        &[HEAD, "fbc16c9f 0 call write x 6\n", GOT, ACKNOWLEDGE],
        3,
        "entry 0: damaged",
    ),
    (&[HEAD, WRITE, ACKNOWLEDGE], 2, "entry 1: damaged"),
    (
        &[HEAD, WRITE, "92e249ca 0 take 1 000a01020000000000000001\n"],
        2,
        "entry 1: damaged",
    ),
    // (seals that hold on lines of no log)
    (&[], 0, "line 1: end"),
    (&["79009745 tellwydar log 2\n"], 0, "line 1: form"),
    (&["e009c6ff tellwydar log 1\n"], 0, "line 2: end"),
    (
        &[HEAD, "077e23a4 1 tick\n"],
        0,
        "entry 0: of another process",
    ),
    (
        &[HEAD, "cc22f001 0 tick\n", "c890d3c4 0 call write y 5\n"],
        0,
        "line 11: form",
    ),
    (
        &[
            "e009c6ff tellwydar log 1\n69771c8e cluster 7\n30dfa173 process 2\nc9d63498 chapter 0\n7fa45ea9 begun 12\nb28b7edd tellwydar record 1\n4688717e front linear\n07190efc processes 2\n1bd50c63 registers x\n",
        ],
        0,
        "no process",
    ),
];

/// What was read of a log, or why none was.
fn push_read(text: &mut String, read: Result<ReadLog, LogFault>) -> Result<(), AllocError> {
    match read {
        Ok(read) => {
            let count = read.log.entries.len();
            write!(text, "{count} entries, {} bytes", read.whole)
        }
        Err(fault) => write!(text, "{fault}"),
    }
}

/// The pieces of a text as one.
pub(crate) fn joined(alloc: Global, pieces: &[&str]) -> Result<String, AllocError> {
    let mut text = String::new(alloc);
    for piece in pieces {
        text.push_str(piece)?;
    }
    Ok(text)
}

/// Whether this is told of the log of these pieces.
fn is_read_as(alloc: Global, pieces: &[&str], durable: u64, told: &str) -> bool {
    let Ok(bytes) = joined(alloc, pieces) else {
        return false;
    };
    let mut text = String::new(alloc);
    let read = read_log(alloc, bytes.as_bytes(), durable);
    push_read(&mut text, read).is_ok() && text.as_str() == told
}

#[test]
fn logs_are_read_up_to_what_a_crash_left(rt: HostRuntime) {
    for (pieces, durable, told) in ROWS {
        demand(&rt, told, is_read_as(rt.alloc(), pieces, *durable, told));
    }
}

/// What the seal of the first entry goes on from, where the log begins with its head.
fn crc_of_head(alloc: Global, shape: Shape, names: &Names) -> Option<u32> {
    match begin_log(alloc, ID, Front::Linear, shape, names) {
        Ok((head, crc)) if head.as_slice() == HEAD.as_bytes() => Some(crc),
        _ => None,
    }
}

/// What the seal behind an entry goes on from, where the entry is written as this line.
fn crc_behind(alloc: Global, names: &Names, crc: u32, row: &(LogEntry, &str)) -> Option<u32> {
    let (entry, line) = *row;
    match sealed_entry(alloc, names, crc, &Recorded { process: 0, entry }) {
        Ok((bytes, behind)) if bytes.as_slice() == line.as_bytes() => Some(behind),
        _ => None,
    }
}

/// The first line that isn't written.
fn unwritten(alloc: Global, shape: Shape, names: &Names) -> Option<&'static str> {
    let Some(mut crc) = crc_of_head(alloc, shape, names) else {
        return Some(HEAD);
    };
    for row in &ENTRIES {
        match crc_behind(alloc, names, crc, row) {
            Some(behind) => crc = behind,
            None => return Some(row.1),
        }
    }
    None
}

/// Whether the head of the log is read as it was written.
fn is_head_read(alloc: Global, shape: Shape) -> bool {
    match read_log(alloc, HEAD.as_bytes(), 0) {
        Ok(read) => {
            read.log.id == ID && read.log.front == Front::Linear && read.log.shape == shape
        }
        Err(_) => false,
    }
}

#[test]
fn logs_are_written_as_they_are_read(rt: HostRuntime) {
    let shape = shape_of(&rt, 2);
    let line = match names_of(rt.alloc(), "registers x") {
        Ok(names) => unwritten(rt.alloc(), shape, &names),
        Err(_) => Some("registers x"),
    };
    demand_none(&rt, &"written", &line);
    assert!(rt; is_head_read(rt.alloc(), shape));
}

/// A write of a register without a name, and a frame of a time past the last one.
const UNFIT: [Step; 2] = [
    Step::Call {
        op: Op::Read { register: 1 },
    },
    Step::Take {
        from: 1,
        frame: Frame::Numbered {
            number: 0,
            body: Body::Ack { time: u64::MAX },
        },
    },
];

/// Whether the entry of a step has no line.
fn has_no_line(alloc: Global, names: &Names, step: Step) -> bool {
    let entry = LogEntry { step, reply: None };
    let recorded = Recorded { process: 0, entry };
    sealed_entry(alloc, names, 0, &recorded).err() == Some(LineFault::Unfit)
}

/// The first step of which an entry has a line.
fn fit(alloc: Global, names: &Names) -> Option<Step> {
    for step in UNFIT {
        if !has_no_line(alloc, names, step) {
            return Some(step);
        }
    }
    None
}

#[test]
fn unfit_entries_have_no_line(rt: HostRuntime) {
    let names = names_of(rt.alloc(), "registers x").expect(&rt, "names");
    let step = fit(rt.alloc(), &names);
    drop(names);
    demand_none(&rt, &"unfit", &step);
}

/// A node that goes on after the log of these pieces. None where there is no memory, or no such log.
pub(crate) fn opened(alloc: Global, pieces: &[&str]) -> Option<LoggedNode<Linear>> {
    let text = joined(alloc, pieces).ok()?;
    match read_log(alloc, text.as_bytes(), 0) {
        Ok(read) => LoggedNode::open(alloc, read).ok(),
        Err(_) => None,
    }
}

/// Whether the log grows by this line.
fn writes(node: &mut LoggedNode<Linear>, step: Step, line: &str) -> bool {
    match node.step(&step) {
        Ok(bytes) => bytes.as_slice() == line.as_bytes(),
        Err(_) => false,
    }
}

/// Whether a step is refused since another process was not heard.
fn is_unheard(node: &mut LoggedNode<Linear>, step: Step) -> bool {
    let fault = MeetingFault::Unheard;
    node.step(&step).err() == Some(LoggedFault::OfMeeting { fault })
}

/// Whether something is handed out once the first entry is durable, and nothing before or after that.
fn hands_out_one(node: &mut LoggedNode<Linear>) -> bool {
    node.hand_out().is_none()
        && node.mark_durable(1).is_ok()
        && node.hand_out().is_some()
        && node.hand_out().is_none()
}

/// What a new node does otherwise: the first such line, or what else.
fn misspelled(node: &mut LoggedNode<Linear>) -> Option<&'static str> {
    if !is_unheard(node, CALL_WRITE) || node.hear(1, 0).is_err() {
        Some("unheard")
    } else if !writes(node, CALL_WRITE, WRITE) {
        Some(WRITE)
    } else if !hands_out_one(node) {
        Some("handed out")
    } else if !writes(node, TAKE_GOT.step, GOT) {
        Some(GOT)
    } else if !writes(node, TAKE_ACK, ACKNOWLEDGE) {
        Some(ACKNOWLEDGE)
    } else if node.mark_durable(4).is_ok() || node.is_stopped() {
        Some("durable")
    } else {
        None
    }
}

/// The same of a node that is opened.
fn misspelled_by_new(alloc: Global) -> Option<&'static str> {
    match opened(alloc, &[HEAD]) {
        Some(mut node) => misspelled(&mut node),
        None => Some(HEAD),
    }
}

#[test]
fn nodes_spell_the_entries_of_their_logs(rt: HostRuntime) {
    demand_none(&rt, &"spelled", &misspelled_by_new(rt.alloc()));
}

/// Whether a node has two entries of a log, and writes the third one again, and before that nothing of its own.
fn goes_on(node: &mut LoggedNode<Linear>) -> bool {
    node.meeting().node().logged() == 2
        && node.hand_out().is_none()
        && is_unheard(node, CALL_READ)
        && writes(node, TAKE_ACK, ACKNOWLEDGE)
}

/// The same of a node that is opened after a crash that tore the last entry off.
fn new_goes_on(alloc: Global) -> bool {
    match opened(alloc, &[HEAD, WRITE, GOT, "b9d266ce 0 take 1 00130101"]) {
        Some(mut node) => goes_on(&mut node),
        None => false,
    }
}

#[test]
fn nodes_go_on_behind_what_a_crash_left(rt: HostRuntime) {
    assert!(rt; new_goes_on(rt.alloc()));
}

/// A log that is read, with a node that is opened with it and acknowledged.
struct Continued;

/// Whether memory was refused: to a step, which was not made, or to its text, and the node has stopped and hands out
/// nothing.
fn is_refused<A: Allocator + Copy>(node: &mut LoggedNode<Linear, A>, fault: LoggedFault) -> bool {
    match fault {
        LoggedFault::Unspelled => {
            let marked = node.mark_durable(3).is_ok();
            marked && node.is_stopped() && node.hand_out().is_none()
        }
        LoggedFault::OfMeeting { .. } => node.meeting().node().logged() == 2,
        LoggedFault::Stopped => false,
    }
}

/// What the log grows by at a tick. None where memory is refused.
fn ticked<A: Allocator + Copy>(
    ample: Global,
    node: &mut LoggedNode<Linear, A>,
) -> Result<Option<String>, Fail> {
    match node.step(&Step::Tick) {
        Ok(bytes) => shown(ample, &bytes.as_slice()),
        Err(fault) => {
            let refused = is_refused(node, fault);
            unless_memory(fault, refused)
        }
    }
}

/// The same of a node that goes on after a log.
fn ticked_after<A: Allocator + Copy>(
    alloc: A,
    ample: Global,
    read: ReadLog<A>,
) -> Result<Option<String>, Fail> {
    match LoggedNode::<Linear, A>::open(alloc, read) {
        Ok(mut node) => ticked(ample, &mut node),
        Err(fault) => unless_memory(fault, fault == OpenFault::OutOfMemory),
    }
}

impl Trial for Continued {
    fn answer<A: Allocator + Copy>(&self, alloc: A, ample: Global) -> Result<Option<String>, Fail> {
        let text = joined(ample, &[HEAD, WRITE, GOT])?;
        match read_log(alloc, text.as_bytes(), 2) {
            Ok(read) => ticked_after(alloc, ample, read),
            Err(fault) => unless_memory(fault, fault == LogFault::OutOfMemory),
        }
    }
}

#[test]
fn each_growth_of_a_log_is_refused(rt: HostRuntime) -> Result<(), Fail> {
    demand_refusals(&rt, &Continued, 8)
}
