//! Worked examples of one node: what it logs, holds back and hands out, as tables of inputs and what each gives.
use crate::answers::unless_memory;
use crate::demands::{demand, demand_refusals, demand_same, shape_of};
use crate::parts::traces::{push_puts, push_reply};
use crate::values::{READ, WRITE_FIVE};
use reg_base::{Answer, Op, Shape};
use reg_frames::{Body, Frame};
use reg_front::{FrontEnd, Linear, LocalRead, LocalWrite};
use reg_heap::Trial;
use reg_node::{LogEntry, Node, NodeFault, OpenFault, Output, ProcessFault, Reply, Step};
use std::alloc::{AllocError, Allocator, Global};
use std::fmt;
use std::process::Abort;
use std::test::Fail;

/// What a node is asked: a step, to note that its first entries are durable, or to hand something out.
#[derive(Clone, Copy)]
enum Input {
    Make(Step),
    Durable(u64),
    HandOut,
}

/// An input, and the line of what it gives.
type Row = (Input, &'static str);

pub(crate) const CALL_WRITE: Step = Step::Call { op: WRITE_FIVE };

pub(crate) const CALL_READ: Step = Step::Call { op: READ };

const CALL_BEYOND: Step = Step::Call {
    op: Op::Read { register: 1 },
};

/// The acknowledgement of the write, by process 1.
pub(crate) const TAKE_ACK: Step = Step::Take {
    from: 1,
    frame: Frame::Numbered {
        number: 0,
        body: Body::Ack { time: 2 },
    },
};

const TAKE_PAST_LAST_TIME: Step = Step::Take {
    from: 1,
    frame: Frame::Numbered {
        number: 0,
        body: Body::Ack {
            time: 281_474_976_710_656,
        },
    },
};

const TAKE_OWN: Step = Step::Take {
    from: 0,
    frame: Frame::Got { count: 0 },
};

/// A frame goes out once its entry is durable, and so does a reply.
const HELD: &[Row] = &[
    (Input::HandOut, "nothing, 0 of 0"),
    (Input::Make(CALL_WRITE), "logged, 0 of 1"),
    (Input::HandOut, "nothing, 0 of 1"),
    (Input::Durable(2), "not logged, 0 of 1"),
    (Input::HandOut, "nothing, 0 of 1"),
    (Input::Durable(1), "durable, 1 of 1"),
    (Input::HandOut, "puts #0 cast 1 write x 5 to p1, 1 of 1"),
    (Input::HandOut, "nothing, 1 of 1"),
    (Input::Make(TAKE_ACK), "logged, Done at place 0, 1 of 2"),
    (Input::HandOut, "nothing, 1 of 2"),
    (Input::Durable(0), "durable, 1 of 2"),
    (Input::HandOut, "nothing, 1 of 2"),
    (Input::Durable(2), "durable, 2 of 2"),
    (Input::HandOut, "puts got 1 to p1, Done at place 0, 2 of 2"),
    (Input::HandOut, "nothing, 2 of 2"),
];

/// The reply of a read that puts no frame is held too.
const READ_HELD: &[Row] = &[
    (
        Input::Make(CALL_READ),
        "logged, Value(0) at place 0, 0 of 1",
    ),
    (Input::HandOut, "nothing, 0 of 1"),
    (Input::Durable(1), "durable, 1 of 1"),
    (Input::HandOut, "Value(0) at place 0, 1 of 1"),
];

/// Of two entries the first alone is durable.
const IN_ORDER: &[Row] = &[
    (Input::Make(CALL_WRITE), "logged, Done at place 0, 0 of 1"),
    (Input::Make(Step::Tick), "logged, 0 of 2"),
    (Input::Durable(1), "durable, 1 of 2"),
    (
        Input::HandOut,
        "puts #0 cast 1 write x 5 to p1, Done at place 0, 1 of 2",
    ),
    (Input::HandOut, "nothing, 1 of 2"),
    (Input::Durable(2), "durable, 2 of 2"),
    (Input::HandOut, "puts #0 cast 1 write x 5 to p1, 2 of 2"),
];

/// A refused step is not logged.
const REFUSED: &[Row] = &[
    (Input::Make(CALL_BEYOND), "no register, 0 of 0"),
    (Input::Make(TAKE_OWN), "no process, 0 of 0"),
    (Input::Make(CALL_WRITE), "logged, 0 of 1"),
    (Input::Make(CALL_READ), "busy, 0 of 1"),
    (Input::HandOut, "nothing, 0 of 1"),
];

/// Of a node whose process has stopped, what was logged before still goes out.
const STOPPED: &[Row] = &[
    (Input::Make(CALL_WRITE), "logged, 0 of 1"),
    (Input::Make(TAKE_PAST_LAST_TIME), "clock full, 0 of 1"),
    (Input::Make(Step::Tick), "failed, 0 of 1"),
    (Input::HandOut, "nothing, 0 of 1"),
    (Input::Durable(1), "durable, 1 of 1"),
    (Input::HandOut, "puts #0 cast 1 write x 5 to p1, 1 of 1"),
];

/// The entries of `HELD`.
pub(crate) const WROTE: LogEntry = LogEntry {
    step: CALL_WRITE,
    reply: None,
};

pub(crate) const ACKNOWLEDGED: LogEntry = LogEntry {
    step: TAKE_ACK,
    reply: Some(Reply {
        answer: Answer::Done,
        place: 0,
    }),
};

const ANOTHER_REPLY: LogEntry = LogEntry {
    step: TAKE_ACK,
    reply: Some(Reply {
        answer: Answer::Done,
        place: 1,
    }),
};

/// After a crash that lost the entry of the acknowledgement: the write runs still, and its frame is put again.
const ONE_LOST: &[Row] = &[
    (Input::HandOut, "nothing, 1 of 1"),
    (Input::Make(CALL_READ), "busy, 1 of 1"),
    (Input::Make(Step::Tick), "logged, 1 of 2"),
    (Input::HandOut, "nothing, 1 of 2"),
    (Input::Durable(2), "durable, 2 of 2"),
    (Input::HandOut, "puts #0 cast 1 write x 5 to p1, 2 of 2"),
    (Input::Make(TAKE_ACK), "logged, Done at place 0, 2 of 3"),
    (Input::Durable(3), "durable, 3 of 3"),
    (Input::HandOut, "puts got 1 to p1, Done at place 0, 3 of 3"),
];

/// After one that lost nothing: the write was answered.
const NONE_LOST: &[Row] = &[
    (Input::HandOut, "nothing, 2 of 2"),
    (Input::Make(CALL_READ), "logged, 2 of 3"),
    (Input::HandOut, "nothing, 2 of 3"),
    (Input::Durable(3), "durable, 3 of 3"),
    (Input::HandOut, "puts #1 cast 4 read x to p1, 3 of 3"),
];

fn push_entry(text: &mut String, step: &Step, entry: &LogEntry) -> Result<(), AllocError> {
    if entry.step != *step {
        text.push_str("another step, ")?;
    }
    text.push_str("logged, ")?;
    push_reply(text, entry.reply)
}

/// What a node gives for a step.
pub(crate) fn push_made<E: fmt::Display>(
    text: &mut String,
    step: &Step,
    made: &Result<LogEntry, E>,
) -> Result<(), AllocError> {
    match made {
        Ok(entry) => push_entry(text, step, entry),
        Err(fault) => write!(text, "{fault}, "),
    }
}

/// The word of what is done, or why it isn't.
pub(crate) fn push_done<E: fmt::Display>(
    text: &mut String,
    word: &str,
    done: &Result<(), E>,
) -> Result<(), AllocError> {
    match done {
        Ok(()) => write!(text, "{word}, "),
        Err(fault) => write!(text, "{fault}, "),
    }
}

/// What a node hands out.
pub(crate) fn push_output<A: Allocator + Copy>(
    text: &mut String,
    output: Option<Output<A>>,
) -> Result<(), AllocError> {
    match output {
        Some(output) => {
            push_puts(text, output.frames())?;
            push_reply(text, output.reply())
        }
        None => text.push_str("nothing, "),
    }
}

/// How many entries are durable, of how many.
pub(crate) fn push_counts(text: &mut String, durable: u64, logged: u64) -> Result<(), AllocError> {
    write!(text, "{durable} of {logged}")
}

/// What an input gives, and how many entries are durable then, of how many.
fn push_given<F: FrontEnd, A: Allocator + Copy>(
    text: &mut String,
    node: &mut Node<F, A>,
    input: &Input,
) -> Result<(), AllocError> {
    let pushed = match input {
        Input::Make(step) => push_made(text, step, &node.step(step)),
        Input::Durable(count) => push_done(text, "durable", &node.mark_durable(*count)),
        Input::HandOut => push_output(text, node.hand_out()),
    };
    pushed?;
    push_counts(text, node.durable(), node.logged())
}

/// Whether the input gives this line.
fn gives<F: FrontEnd>(alloc: Global, node: &mut Node<F>, input: &Input, told: &str) -> bool {
    let mut text = String::new(alloc);
    push_given(&mut text, node, input).is_ok() && text.as_str() == told
}

/// Demands the line of each input.
fn demand_rows<F: FrontEnd>(rt: &(impl Abort + AllocGlobal), node: &mut Node<F>, rows: &[Row]) {
    for (input, told) in rows {
        demand(rt, told, gives(rt.alloc(), node, input, told));
    }
}

/// Has the first node of two, opened with these entries, make the rows.
fn follow<F: FrontEnd>(rt: &(impl Abort + AllocGlobal), entries: &[LogEntry], rows: &[Row]) {
    let node = Node::<F>::open(rt.alloc(), shape_of(rt, 2), 0, entries);
    demand_rows(rt, &mut node.expect(rt, "a node"), rows);
}

#[test]
fn nodes_hold_back_what_is_not_durable(rt: HostRuntime) {
    follow::<Linear>(&rt, &[], HELD);
    follow::<LocalRead>(&rt, &[], READ_HELD);
    follow::<LocalWrite>(&rt, &[], IN_ORDER);
    follow::<Linear>(&rt, &[], REFUSED);
    follow::<Linear>(&rt, &[], STOPPED);
}

#[test]
fn nodes_go_on_after_their_logs(rt: HostRuntime) {
    follow::<Linear>(&rt, &[WROTE], ONE_LOST);
    follow::<Linear>(&rt, &[WROTE, ACKNOWLEDGED], NONE_LOST);
}

/// Why no node is opened for a process with these entries.
fn why_unopened(
    rt: &(impl Abort + AllocGlobal),
    me: u8,
    entries: &[LogEntry],
) -> Option<OpenFault> {
    Node::<Linear>::open(rt.alloc(), shape_of(rt, 2), me, entries).err()
}

/// A process, entries with which no node is opened for it, and why.
const UNOPENED: &[(u8, &[LogEntry], OpenFault)] = &[
    (0, &[ACKNOWLEDGED, WROTE], OpenFault::NoStep { place: 0 }),
    (
        0,
        &[WROTE, WROTE, ACKNOWLEDGED],
        OpenFault::NoStep { place: 1 },
    ),
    (0, &[WROTE, ANOTHER_REPLY], OpenFault::NoStep { place: 1 }),
    (2, &[WROTE], OpenFault::NoProcess),
];

#[test]
fn the_first_entry_that_is_no_step_is_told(rt: HostRuntime) {
    for (me, entries, fault) in UNOPENED {
        demand_same(
            &rt,
            entries,
            &why_unopened(&rt, *me, entries),
            &Some(*fault),
        );
    }
}

/// A node that is opened, and makes rows.
#[derive(Clone, Copy)]
struct Opened {
    shape: Shape,
    entries: &'static [LogEntry],
    rows: &'static [Row],
}

/// Whether memory was refused to a step: the node is as it was, or its process has stopped.
fn is_refused<F: FrontEnd, A: Allocator + Copy>(
    node: &mut Node<F, A>,
    step: &Step,
    before: u64,
) -> bool {
    match node.step(step) {
        Ok(_) => node.logged().checked_sub(before) == Some(1),
        Err(fault) => {
            fault
                == NodeFault::Refused {
                    fault: ProcessFault::Failed,
                }
                && node.logged() == before
        }
    }
}

/// What a node gives at each of its rows. None where memory is refused to a step, and the step can be made again or the
/// process has stopped.
fn all_given<A: Allocator + Copy>(
    ample: Global,
    node: &mut Node<Linear, A>,
    rows: &[Row],
) -> Result<Option<String>, Fail> {
    let mut text = String::new(ample);
    for (input, _) in rows {
        if let Input::Make(step) = input {
            let before = node.logged();
            match node.step(step) {
                Ok(entry) => push_entry(&mut text, step, &entry)?,
                Err(fault) => {
                    let refused = is_refused(node, step, before);
                    return unless_memory(fault, refused);
                }
            }
        } else {
            push_given(&mut text, node, input)?;
        }
    }
    Ok(Some(text))
}

impl Trial for Opened {
    fn answer<A: Allocator + Copy>(&self, alloc: A, ample: Global) -> Result<Option<String>, Fail> {
        match Node::open(alloc, self.shape, 0, self.entries) {
            Ok(mut node) => all_given(ample, &mut node, self.rows),
            Err(fault) => unless_memory(fault, fault == OpenFault::OutOfMemory),
        }
    }
}

#[test]
fn each_growth_of_a_node_is_refused(rt: HostRuntime) -> Result<(), Fail> {
    let shape = shape_of(&rt, 2);
    let new = Opened {
        shape,
        entries: &[],
        rows: HELD,
    };
    demand_refusals(&rt, &new, 4)?;
    let old = Opened {
        shape,
        entries: &[WROTE, ACKNOWLEDGED],
        rows: NONE_LOST,
    };
    demand_refusals(&rt, &old, 4)
}
