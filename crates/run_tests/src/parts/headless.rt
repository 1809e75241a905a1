//! What a crash leaves of a log before its head is whole.
use crate::answers::{shown, unless_memory};
use crate::demands::{demand, demand_refusals};
use crate::parts::logs::{HEAD, ID, WRITE, joined};
use reg_heap::Trial;
use reg_node::is_headless;
use std::alloc::{AllocError, Allocator, Global};
use std::test::Fail;

/// The lines of the log that are known before it is begun.
const FIRST: &str =
    "e009c6ff tellwydar log 1\n69771c8e cluster 7\nded1c05f process 0\n91ba8d59 chapter 0\n";

/// Pieces of a text, and whether it is what a crash leaves of the log before its head is whole.
type Row = (&'static [&'static str], bool);

const ROWS: &[Row] = &[
    (&[], true),
    (&["\0\0\0\0"], true),
    (&["e009c6ff tellw\0\0"], true),
    (&[FIRST, "\0"], true),
    (&[FIRST, "b56a2825 begun 1\0\0\0"], true),
    // (what was drawn is another number)
    (&[FIRST, "00000000 begun 11\n"], true),
    // (the text of a whole head, and of one with a step)
    (&[HEAD], false),
    (&[HEAD, "\0\0"], false),
    (&[HEAD, WRITE], false),
    // (the logs of another cluster and process, no log, and something behind the zeros)
    (&["e009c6ff tellwydar log 1\n69771c8e cluster 8"], false),
    (
        &["e009c6ff tellwydar log 1\n69771c8e cluster 7\nded1c05f process 1"],
        false,
    ),
    (&["tellwydar log 1\n"], false),
    (&["e009c6ff tellw\0\0e"], false),
    (&["\0e009c6ff tellw"], false),
];

/// Whether this is told of the text.
fn is_told(alloc: Global, bytes: &[u8], wanted: bool) -> bool {
    is_headless(alloc, bytes, ID).is_ok_and(|told| told == wanted)
}

#[test]
fn a_log_whose_head_is_not_whole_never_began(rt: HostRuntime) -> Result<(), Fail> {
    for (pieces, wanted) in ROWS {
        let text = joined(rt.alloc(), pieces)?;
        demand(&rt, pieces, is_told(rt.alloc(), text.as_bytes(), *wanted));
    }
    Ok(())
}

#[test]
fn each_part_of_a_head_is_a_log_that_never_began(rt: HostRuntime) {
    for length in 0..HEAD.len() {
        let part = &HEAD.as_bytes()[..length];
        demand(&rt, &length, is_told(rt.alloc(), part, true));
    }
}

/// The log of which a part was left.
struct Left;

impl Trial for Left {
    fn answer<A: Allocator + Copy>(&self, alloc: A, ample: Global) -> Result<Option<String>, Fail> {
        match is_headless(alloc, FIRST.as_bytes(), ID) {
            Ok(told) => shown(ample, &told),
            Err(AllocError) => unless_memory(AllocError, true),
        }
    }
}

#[test]
fn each_growth_of_the_first_lines_is_refused(rt: HostRuntime) -> Result<(), Fail> {
    demand_refusals(&rt, &Left, 3)
}
