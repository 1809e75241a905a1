//! Worked examples of a node that meets the others first, as tables of inputs and what each gives.
use crate::demands::{demand, shape_of};
use crate::parts::nodes::{
    CALL_READ, CALL_WRITE, TAKE_ACK, WROTE, push_counts, push_done, push_made, push_output,
};
use reg_front::{FrontEnd, Linear, LocalRead};
use reg_node::{LogEntry, MeetingNode, Step};
use std::alloc::{AllocError, Allocator, Global};
use std::process::Abort;

/// What a node is asked, or is told: how many of its bodies another process accepted.
#[derive(Clone, Copy)]
enum Input {
    Make(Step),
    Durable(u64),
    HandOut,
    Hear(u8, u64),
}

/// An input, and the line of what it gives.
type Row = (Input, &'static str);

/// It casts once it has heard from the other one, and stops where that one accepted more than was queued for it.
const OF_TWO: &[Row] = &[
    (Input::Make(CALL_WRITE), "unheard, 0 of 0"),
    (Input::Hear(0, 0), "no process, 0 of 0"),
    (Input::Hear(2, 0), "no process, 0 of 0"),
    (Input::Make(CALL_WRITE), "unheard, 0 of 0"),
    (Input::Hear(1, 0), "heard, 0 of 0"),
    (Input::Make(CALL_WRITE), "logged, 0 of 1"),
    (Input::Durable(2), "not logged, 0 of 1"),
    (Input::HandOut, "nothing, 0 of 1"),
    (Input::Durable(1), "durable, 1 of 1"),
    (Input::HandOut, "puts #0 cast 1 write x 5 to p1, 1 of 1"),
    (Input::Hear(1, 1), "heard, 1 of 1"),
    (Input::Make(CALL_READ), "busy, 1 of 1"),
    (Input::Make(Step::Tick), "logged, 1 of 2"),
    (Input::Durable(2), "durable, 2 of 2"),
    (Input::Hear(1, 2), "log lost, 2 of 2"),
    (Input::HandOut, "nothing, 2 of 2"),
    (Input::Make(TAKE_ACK), "log lost, 2 of 2"),
    (Input::Make(Step::Tick), "log lost, 2 of 2"),
    (Input::Make(CALL_READ), "log lost, 2 of 2"),
    (Input::Hear(1, 0), "log lost, 2 of 2"),
];

/// One of two others is not enough. Frames are taken before that.
const OF_THREE: &[Row] = &[
    (Input::Hear(2, 0), "heard, 0 of 0"),
    (Input::Make(CALL_WRITE), "unheard, 0 of 0"),
    (Input::Make(TAKE_ACK), "logged, 0 of 1"),
    (Input::Make(Step::Tick), "logged, 0 of 2"),
    (Input::Hear(1, 0), "heard, 0 of 2"),
    (Input::Make(CALL_WRITE), "logged, 0 of 3"),
];

/// A read that isn't cast needs nobody.
const READ_FIRST: &[Row] = &[
    (
        Input::Make(CALL_READ),
        "logged, Value(0) at place 0, 0 of 1",
    ),
    (Input::Make(CALL_WRITE), "unheard, 0 of 1"),
];

/// The other one accepted the frame of a write that this log doesn't have.
const LOST: &[Row] = &[
    (Input::Hear(1, 1), "log lost, 0 of 0"),
    (Input::Make(CALL_WRITE), "log lost, 0 of 0"),
];

/// This log has it.
const NOT_LOST: &[Row] = &[
    (Input::Hear(1, 1), "heard, 1 of 1"),
    (Input::Make(Step::Tick), "logged, 1 of 2"),
];

/// Alone there is nobody to hear.
const ALONE: &[Row] = &[(Input::Make(CALL_WRITE), "logged, Done at place 0, 0 of 1")];

/// What an input gives, and how many entries are durable then, of how many.
fn push_given<F: FrontEnd, A: Allocator + Copy>(
    text: &mut String,
    node: &mut MeetingNode<F, A>,
    input: &Input,
) -> Result<(), AllocError> {
    let pushed = match input {
        Input::Make(step) => push_made(text, step, &node.step(step)),
        Input::Durable(count) => push_done(text, "durable", &node.mark_durable(*count)),
        Input::HandOut => push_output(text, node.hand_out()),
        Input::Hear(other, count) => push_done(text, "heard", &node.hear(*other, *count)),
    };
    pushed?;
    push_counts(text, node.node().durable(), node.node().logged())
}

/// Whether the input gives this line.
fn gives<F: FrontEnd>(alloc: Global, node: &mut MeetingNode<F>, input: &Input, told: &str) -> bool {
    let mut text = String::new(alloc);
    push_given(&mut text, node, input).is_ok() && text.as_str() == told
}

/// Demands the line of each input.
fn demand_rows<F: FrontEnd>(
    rt: &(impl Abort + AllocGlobal),
    node: &mut MeetingNode<F>,
    rows: &[Row],
) {
    for (input, told) in rows {
        demand(rt, told, gives(rt.alloc(), node, input, told));
    }
}

/// Has the first node of this number, opened with these entries, make the rows.
fn follow<F: FrontEnd>(
    rt: &(impl Abort + AllocGlobal),
    processes: u32,
    entries: &[LogEntry],
    rows: &[Row],
) {
    let node = MeetingNode::<F>::open(rt.alloc(), shape_of(rt, processes), 0, entries);
    demand_rows(rt, &mut node.expect(rt, "a node"), rows);
}

#[test]
fn nodes_cast_once_they_have_heard_from_all(rt: HostRuntime) {
    follow::<Linear>(&rt, 2, &[], OF_TWO);
    follow::<Linear>(&rt, 3, &[], OF_THREE);
    follow::<LocalRead>(&rt, 2, &[], READ_FIRST);
    follow::<Linear>(&rt, 1, &[], ALONE);
}

#[test]
fn a_lost_log_is_found_out(rt: HostRuntime) {
    follow::<Linear>(&rt, 2, &[], LOST);
    follow::<Linear>(&rt, 2, &[WROTE], NOT_LOST);
}
