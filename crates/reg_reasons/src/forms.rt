//! The forms of the lines of schedules and of reports, and the keys of workloads.
use crate::wanting::{Form, Quantity, Range, Rules, Step};
use reg_base::limits::{
    LAST_EVENT, LAST_SEED, MOST_EVENTS, MOST_ODDS, MOST_OPERATIONS, MOST_PROCESSES, MOST_REGISTERS,
};
use reg_history::{MOST_ENTRIES, MOST_IDS, OLDER_PROCESSES, OLDER_REGISTERS};
use reg_inputs::Key;

/// The names of the front ends.
pub const FRONTS: &[&str] = &["linear", "local-read", "local-write"];

/// The keys of a workload.
pub const KEYS: &[&str] = &[
    "front",
    "registers",
    "scripts",
    "seed",
    "loss",
    "repeat",
    "budget",
];

/// What a key may be.
pub fn kind_of_key(key: Key) -> &'static str {
    match key {
        Key::Front => "a string",
        Key::Registers => "an array of strings",
        Key::Scripts => "an array of arrays of strings, one for each process",
        _ => "an integer",
    }
}

/// The range of a key's number.
pub fn range_of(key: Key) -> Range {
    let (least, most) = match key {
        Key::Seed => (0, LAST_SEED),
        Key::Loss | Key::Repeat => (0, MOST_ODDS as u64),
        _ => (1, MOST_EVENTS as u64),
    };
    Range {
        what: key.name(),
        verb: "is",
        least,
        most,
    }
}

/// One of these words.
macro_rules! word {
    ($($word:literal)*) => {
        Step::Word {
            words: &[$($word),*],
            forms: &[],
        }
    };
}

/// One of these words, and the form after each.
macro_rules! choice {
    ($($word:literal => $form:expr),*) => {
        Step::Word {
            words: &[$($word),*],
            forms: &[$($form),*],
        }
    };
}

/// These signs, and how they are spoken of.
macro_rules! signs {
    ($signs:literal, $words:literal) => {
        Step::Signs {
            signs: $signs,
            words: $words,
        }
    };
}

/// A word, a number after it, and the end of the line.
macro_rules! count {
    ($word:literal, $what:ident) => {
        &[
            word!($word),
            Step::Space,
            Step::Number(Quantity::$what),
            Step::End,
        ]
    };
}

/// An operation by its process and its number, and these parts after it.
macro_rules! id {
    ($($step:expr),*) => {
        &[
            signs!(b"p", "p and a process, as in p0 #0"),
            Step::Number(Quantity::ReportProcess),
            Step::Space,
            signs!(b"#", "# and a number, as in p0 #0"),
            Step::Number(Quantity::Operation),
            $($step),*
        ]
    };
}

const LAST_OPERATION: u64 = (MOST_OPERATIONS - 1) as u64;

impl Rules<'_> {
    /// The range of a number of a line.
    pub fn range(&self, what: Quantity) -> Range {
        let processes = if self.is_older {
            OLDER_PROCESSES
        } else {
            MOST_PROCESSES as u32
        };
        let last_process = processes.saturating_sub(1) as u64;
        let (what, verb, least, most) = match what {
            Quantity::Process => ("a process", "is a number", 0, 255),
            Quantity::ReportProcess => ("a process", "is a number", 0, last_process),
            Quantity::Operation => ("the number of an operation", "is", 0, LAST_OPERATION),
            Quantity::Event => ("an event", "is a number", 0, LAST_EVENT as u64),
            Quantity::Frame => ("the place of a frame", "is a number", 0, u32::MAX as u64),
            Quantity::Value => ("a value", "is a number", 0, u64::MAX),
            Quantity::ProcessCount => ("the number of processes", "is", 1, processes as u64),
            Quantity::RegisterCount => ("the number of registers", "is", 1, MOST_REGISTERS as u64),
            Quantity::EntryCount => (
                "the number of lines of a history",
                "is",
                0,
                MOST_ENTRIES as u64,
            ),
            Quantity::IdCount => ("the number of lines", "is", 0, MOST_IDS as u64),
        };
        Range {
            what,
            verb,
            least,
            most,
        }
    }

    /// The most names that stand on a line.
    pub fn most_names(&self) -> u64 {
        if self.is_older {
            OLDER_REGISTERS as u64
        } else {
            MOST_REGISTERS as u64
        }
    }
}

/// The first words of events.
pub const EVENTS: &[&str] = &["call", "take", "tick"];

/// The first words of operations.
pub const OPERATIONS: &[&str] = &["read", "write", "swap", "cas"];

const OPS: Step = Step::Word {
    words: OPERATIONS,
    forms: &[READ, WRITE, WRITE, CAS],
};

/// The operations of reports before version 3.
const OLDER_OPS: Step = choice!("read" => READ, "write" => WRITE, "swap" => WRITE);

const READ: Form = &[Step::Space, Step::Register, Step::NoValue];

const WRITE: Form = &[
    Step::Space,
    Step::Register,
    Step::Space,
    Step::Number(Quantity::Value),
    Step::End,
];

const CAS: Form = &[
    Step::Space,
    Step::Register,
    Step::Space,
    Step::Number(Quantity::Value),
    Step::Space,
    Step::Number(Quantity::Value),
    Step::End,
];

/// The lines of a schedule before its events: what each says, and its form.
pub const HEAD: &[(&str, Form)] = &[
    ("processes and a number, as in processes 2", PROCESSES),
    ("registers and their names, as in registers x y", NAMES),
    ("front and one of linear, local-read and local-write", FRONT),
];

/// How many lines stand before the events.
pub const HEAD_LINES: usize = HEAD.len();

/// A line of names.
pub const NAMES: Form = &[word!("registers"), Step::Space, Step::Names];

const FRONT: Form = &[
    word!("front"),
    Step::Space,
    Step::Word {
        words: FRONTS,
        forms: &[],
    },
    Step::End,
];

/// The lines of a record before its steps: what each says, and its form.
pub const RECORD_HEAD: &[(&str, Form)] = &[
    ("tellwydar record 1", RECORD_VERSION),
    ("front and one of linear, local-read and local-write", FRONT),
    ("processes and a number, as in processes 2", PROCESSES),
    ("registers and their names, as in registers x y", NAMES),
];

const RECORD_VERSION: Form = &[
    word!("tellwydar"),
    Step::Space,
    word!("record"),
    Step::Space,
    word!("1"),
    Step::End,
];

/// The begin of a step of a record.
pub const RECORD_STEP: Form = &[
    Step::Number(Quantity::Process),
    Step::Space,
    word!("call" "take" "tick"),
];

/// The first line of a report.
pub const VERSION: Form = &[
    word!("awreg"),
    Step::Space,
    word!("report"),
    Step::Space,
    word!("1" "2" "3"),
    Step::End,
];

pub const REPORT_FRONT: Form = &[word!("front"), Step::Space, Step::FrontEnd, Step::End];

pub const PROCESSES: Form = count!("processes", ProcessCount);

pub const REGISTERS: Form = count!("registers", RegisterCount);

pub const NAME: Form = &[Step::Name, Step::End];

pub const HISTORY: Form = count!("history", EntryCount);

/// An entry whose call and whose answer have these forms.
macro_rules! entry {
    ($call:expr, $answer:expr) => {
        &[
            Step::Right,
            Step::Number(Quantity::Event),
            signs!(b"  p", "two spaces and p"),
            Step::Left {
                places: 3,
                words: "a process at the left of 3 places",
                what: Quantity::ReportProcess,
            },
            signs!(b"  #", "two spaces and #"),
            Step::Left {
                places: 6,
                words: "a number at the left of 6 places",
                what: Quantity::Operation,
            },
            signs!(b"  ", "two spaces"),
            choice!("call" => $call, "answer" => $answer),
        ]
    };
}

pub const ENTRY: Form = entry!(ENTRY_CALL, ENTRY_ANSWER);

/// An entry of a report before version 3.
pub const OLDER_ENTRY: Form = entry!(OLDER_CALL, OLDER_ANSWER);

pub const ORDER: Form = count!("order", IdCount);

pub const ID: Form = id!(Step::End);

pub const TAIL: Form = &[choice!("points" => POINTS, "end" => END)];

pub const POINT: Form = id!(
    Step::Space,
    word!("at"),
    Step::Space,
    Step::Number(Quantity::Event),
    Step::End
);

pub const LAST_LINE: Form = &[word!("end"), Step::End];

pub const NOTHING: Form = &[];

const ENTRY_CALL: Form = &[signs!(b"    ", "four spaces"), OPS];

const OLDER_CALL: Form = &[signs!(b"    ", "four spaces"), OLDER_OPS];

const ENTRY_ANSWER: Form = &[
    signs!(b"  ", "two spaces"),
    choice!("done" => END, "value" => ANSWER_VALUE, "unequal" => END),
];

const OLDER_ANSWER: Form = &[
    signs!(b"  ", "two spaces"),
    choice!("done" => END, "value" => ANSWER_VALUE),
];

const ANSWER_VALUE: Form = &[Step::Space, Step::Number(Quantity::Value), Step::End];

const POINTS: Form = &[Step::Space, Step::Number(Quantity::IdCount), Step::End];

const END: Form = &[Step::End];
