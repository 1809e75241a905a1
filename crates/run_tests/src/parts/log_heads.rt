//! What the head of a log says, and its text up to an entry.
use crate::answers::{shown, unless_memory};
use crate::demands::{demand, demand_refusals};
use crate::parts::logs::{ACKNOWLEDGE, GOT, HEAD, ID, WRITE, joined};
use reg_heap::Trial;
use reg_node::{Head, LogFault, first_part, read_head};
use reg_text::name_at;
use std::alloc::{AllocError, Allocator, Global};
use std::test::Fail;

/// What the head of the worked log says.
const TOLD: &str = "7 0 0 12 linear 2 x";

/// Pieces of a text, and what is told of the head that it begins with: cluster, process, chapter, what was drawn, front
/// end, number of processes and names; or why there is none.
type Row = (&'static [&'static str], &'static str);

const ROWS: &[Row] = &[
    (&[HEAD], TOLD),
    (&[HEAD, WRITE, GOT, ACKNOWLEDGE], TOLD),
    // (what stands behind it isn't looked at)
    (&[HEAD, "077e23a4 1 tick\n"], TOLD),
    (&[HEAD, "00000000 no line\n\0\0"], TOLD),
    (
        &[
            "e009c6ff tellwydar log 1\ned7784f0 cluster 18446744073709551615\n69db8e70 process 63\n3dc494f8 chapter 5\nd2d47416 begun 0\n373c1a41 tellwydar record 1\nf4dbaebb front local-write\n66693416 processes 64\n2e8c784b registers bc a\n",
        ],
        "18446744073709551615 63 5 0 local-write 64 bc a",
    ),
    (&[], "line 1: end"),
    (&["79009745 tellwydar log 2\n"], "line 1: form"),
    (&["e009c6ff tellwydar log 1\n"], "line 2: end"),
    (&[WRITE, HEAD], "line 1: end"),
    (
        &[
            "e009c6ff tellwydar log 1\ned7784f0 cluster 18446744073709551615\n69db8e70 process 63\n3dc494f8 chapter 5\nd2d47416 begun 0\n373c1a41 tellwydar record 1\nf4dbaebb front local-write\nf80da1b5 processes 63\nd375803e registers bc a\n",
        ],
        "no process",
    ),
];

/// What a head says.
fn push_said(text: &mut String, head: &Head) -> Result<(), AllocError> {
    let id = head.id;
    let (front, processes) = (head.front.name(), head.shape.processes());
    write!(
        text,
        "{} {} {} {} {front} {processes}",
        id.cluster, id.process, id.chapter, id.begun
    )?;
    for place in 0..head.names.count() {
        write!(text, " {}", name_at(&head.names, place as u16))?;
    }
    Ok(())
}

fn push_told(text: &mut String, told: Result<Head, LogFault>) -> Result<(), AllocError> {
    match told {
        Ok(head) => push_said(text, &head),
        Err(fault) => write!(text, "{fault}"),
    }
}

/// Whether this is told of the head of these pieces.
fn is_told_as(alloc: Global, pieces: &[&str], told: &str) -> bool {
    let Ok(bytes) = joined(alloc, pieces) else {
        return false;
    };
    let mut text = String::new(alloc);
    let head = read_head(alloc, bytes.as_bytes());
    push_told(&mut text, head).is_ok() && text.as_str() == told
}

#[test]
fn heads_are_told_whatever_stands_behind_them(rt: HostRuntime) {
    for (pieces, told) in ROWS {
        demand(&rt, told, is_told_as(rt.alloc(), pieces, told));
    }
}

/// Whether no head is told of each part of the worked one.
fn has_no_head(alloc: Global) -> bool {
    for length in 0..HEAD.len() {
        if read_head(alloc, &HEAD.as_bytes()[..length]).is_ok() {
            return false;
        }
    }
    true
}

#[test]
fn a_part_of_a_head_says_nothing(rt: HostRuntime) {
    assert!(rt; has_no_head(rt.alloc()));
}

/// How many bytes the head and so many entries take.
const LENGTHS: [(u64, usize); 4] = [(0, 192), (1, 218), (2, 261), (3, 331)];

/// Whether the worked log, with this behind it, has these first parts.
fn is_parted(alloc: Global, tail: &str) -> bool {
    let Ok(text) = joined(alloc, &[HEAD, WRITE, GOT, ACKNOWLEDGE, tail]) else {
        return false;
    };
    for (entries, length) in LENGTHS {
        if first_part(text.as_bytes(), entries) != &text.as_bytes()[..length.min(text.len())] {
            return false;
        }
    }
    true
}

#[test]
fn the_first_part_of_a_log_has_its_head_and_so_many_entries(rt: HostRuntime) {
    for tail in ["", "\n", "b9d266ce 0 tick"] {
        demand(&rt, &tail, is_parted(rt.alloc(), tail));
    }
}

/// The head of a log.
struct Told;

impl Trial for Told {
    fn answer<A: Allocator + Copy>(&self, alloc: A, ample: Global) -> Result<Option<String>, Fail> {
        match read_head(alloc, HEAD.as_bytes()) {
            Ok(head) => shown(ample, &(head.id == ID)),
            Err(fault) => unless_memory(fault, fault == LogFault::OutOfMemory),
        }
    }
}

#[test]
fn each_growth_of_a_head_is_refused(rt: HostRuntime) -> Result<(), Fail> {
    demand_refusals(&rt, &Told, 3)
}
