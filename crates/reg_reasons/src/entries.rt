//! Why an entry of a report may not come after those before it.
use crate::lines_at::Line;
use crate::report_lines::{Part, ReportLines, number_on};
use crate::saying::Notes;
use crate::scanning::{after, place_of, token_of};
use reg_text::{left_field, right_field};
use std::alloc::Allocator;

/// How long the word for a call or an answer is, with the spaces after it.
const COLUMN: usize = 8;

/// How an operation begins, what it is answered by, and what is said of one that has another answer. The first row of
/// which the begin fits is that of an operation.
const RULES: &[(&str, &[&str], &str)] = &[
    ("write ", &["done"], "a write is answered by done\n"),
    (
        "cas ",
        &["done", "unequal"],
        "a compare-and-swap is answered by done or unequal\n",
    ),
    (
        "",
        &["value"],
        "a read and a swap are answered by a value\n",
    ),
];

/// What is said of an operation that has this answer, where it may not.
fn broken_rule(op: &[u8], answer: &[u8]) -> Option<&'static str> {
    for (begin, answers, rule) in RULES {
        if op.starts_with(begin.as_bytes()) {
            let is_kept = place_of(answers, token_of(answer)).is_some();
            return (!is_kept).then_some(*rule);
        }
    }
    None
}

/// The columns of an entry.
#[derive(Clone, Copy)]
struct Columns<'a> {
    at: u64,
    process: u64,
    number: u64,
    is_call: bool,
    /// The operation of a call, or the answer.
    tail: &'a [u8],
}

/// The columns of a line that has them.
fn columns_of(line: &[u8]) -> Option<Columns<'_>> {
    let (at, later) = right_field(line, 8, b"  p")?;
    let (process, others) = left_field(later, 3, b"  #")?;
    let (number, kind) = left_field(others, 6, b"  ")?;
    Some(Columns {
        at,
        process,
        number,
        is_call: kind.starts_with(b"call"),
        tail: after(kind, COLUMN),
    })
}

/// What the entries before one say: the first event that may come behind the last of all, and the last of its process.
#[derive(Clone, Copy)]
struct Before<'a> {
    least: u64,
    own: Option<Columns<'a>>,
    /// How many processes the report says it has.
    processes: u64,
}

/// What stands before the line of this number, whose entry is of this process.
fn stands_before(text: &[u8], number: u64, process: u64) -> Before<'_> {
    let mut before = Before {
        least: 0,
        own: None,
        processes: 0,
    };
    let count = number.saturating_sub(1) as usize;
    for (walk, line) in ReportLines::new(text).take(count) {
        if walk.part == Part::Processes {
            before.processes = number_on(line);
        } else if walk.part == Part::Entry
            && let Some(columns) = columns_of(line)
        {
            before.least = columns.at.saturating_add(1);
            if columns.process == process {
                before.own = Some(columns);
            }
        }
    }
    before
}

const FALLS: &str = "event {} doesn't come after event {}, of the line before\n";

const NEXT: &str = "the next operation of process {} is #{}\n";

/// Why a call may not come here: a text, and the numbers in it.
fn why_no_call(entry: Columns<'_>, before: Before<'_>) -> (&'static str, [u64; 3]) {
    let process = entry.process;
    match before.own {
        _ if entry.at < before.least => (FALLS, [entry.at, before.least.saturating_sub(1), 0]),
        Some(own) if own.is_call => {
            let text = "p{} #{}, called at event {}, is not answered yet\n";
            (text, [process, own.number, own.at])
        }
        Some(own) => (NEXT, [process, own.number.saturating_add(1), 0]),
        None => (NEXT, [process, 0, 0]),
    }
}

/// Why an answer may not come here: a text, and the numbers in it.
fn why_no_answer(entry: Columns<'_>, before: Before<'_>) -> (&'static str, [u64; 3]) {
    let process = entry.process;
    match before.own {
        Some(own) if own.is_call && own.number != entry.number => {
            ("process {} runs p{} #{}\n", [process, process, own.number])
        }
        Some(own) if own.is_call => match broken_rule(own.tail, entry.tail) {
            Some(rule) => (rule, [0; 3]),
            None => (FALLS, [entry.at, before.least.saturating_sub(1), 0]),
        },
        _ => ("process {} runs no operation\n", [process, 0, 0]),
    }
}

/// Puts why the entry of this line may not come there.
pub fn explain_entry<A: Allocator + Copy>(notes: &mut Notes<'_, A>, text: &[u8], line: Line<'_>) {
    let Some(entry) = columns_of(line.bytes) else {
        return;
    };
    let before = stands_before(text, line.number, entry.process);
    let (text, numbers) = if entry.process >= before.processes {
        let last = before.processes.saturating_sub(1);
        let text = "there is no process {}: the report has processes 0 to {}\n";
        (text, [entry.process, last, 0])
    } else if entry.is_call {
        why_no_call(entry, before)
    } else {
        why_no_answer(entry, before)
    };
    notes.put_with(text, &numbers);
}
