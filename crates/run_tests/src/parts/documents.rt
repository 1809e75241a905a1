//! Workloads that are read, and that are refused.
use crate::demands::demand;
use crate::plays::SMALL;
use crate::values::{READ, WRITE_FIVE};
use reg_base::Op;
use reg_front::Front;
use reg_inputs::{Key, Workload, WorkloadFault};
use std::alloc::Global;

const MOST: &str =
    "front = \"linear\"\nregisters = [\"x\", \"yy\"]\nscripts = [[], []]\nseed = 9223372036854775807\nloss = 100\nrepeat = 99\nbudget = 1048576\n";

const LEAST: &str =
    "budget = 1\nscripts = [[\"write b 18446744073709551615\"]]\nregisters = [\"a\", \"b\"]\nfront = \"local-read\"\nrepeat = 100\nloss = 0x0a\n";

/// What a document says.
struct Said {
    front: Front,
    /// The names of the first two registers, and how many registers have one.
    names: (Option<&'static str>, Option<&'static str>, usize),
    /// The seed, the loss, the repeat and the budget.
    numbers: (u64, u32, u32, u32),
    /// The script of each process.
    scripts: &'static [&'static [Op]],
    /// How many processes and registers there are.
    shape: (u32, u32),
}

/// Documents, and what they say.
const SAID: &[(&str, Said)] = &[
    (
        SMALL,
        Said {
            front: Front::LocalWrite,
            names: (Some("x"), None, 1),
            numbers: (0, 0, 0, 100_000),
            scripts: &[&[WRITE_FIVE, READ], &[READ]],
            shape: (2, 1),
        },
    ),
    (
        MOST,
        Said {
            front: Front::Linear,
            names: (Some("x"), Some("yy"), 2),
            numbers: (9_223_372_036_854_775_807, 100, 99, 1_048_576),
            scripts: &[&[], &[]],
            shape: (2, 2),
        },
    ),
    (
        LEAST,
        Said {
            front: Front::LocalRead,
            names: (Some("a"), Some("b"), 2),
            numbers: (0, 10, 100, 1),
            scripts: &[&[Op::Write {
                register: 1,
                value: 18_446_744_073_709_551_615,
            }]],
            shape: (1, 2),
        },
    ),
];

/// Whether these are the scripts.
fn are_scripts(scripts: &[Vec<Op>], told: &[&[Op]]) -> bool {
    for (process, script) in scripts.iter().enumerate() {
        if told.get(process) != Some(&script.as_slice()) {
            return false;
        }
    }
    scripts.len() == told.len()
}

/// Whether the workload is what its document says.
fn is_said(work: &Workload, said: &Said) -> bool {
    let (names, shape) = (&work.names, work.shape);
    work.front == said.front
        && (names.name(0), names.name(1), names.count()) == said.names
        && (work.seed, work.loss, work.repeat, work.budget) == said.numbers
        && are_scripts(work.scripts.as_slice(), said.scripts)
        && (shape.processes(), shape.registers()) == said.shape
}

/// Whether the document is read, and says this.
fn says(alloc: Global, document: &str, said: &Said) -> bool {
    match Workload::from_toml(alloc, document) {
        Ok(work) => is_said(&work, said),
        Err(_) => false,
    }
}

#[test]
fn documents_are_read(rt: HostRuntime) {
    for (document, said) in SAID {
        demand(&rt, document, says(rt.alloc(), document, said));
    }
}

/// A part of a document, and the fault.
type Refused = (&'static str, WorkloadFault);

/// Whether a document is refused with this fault.
fn is_refused(alloc: Global, document: &str, fault: WorkloadFault) -> bool {
    Workload::from_toml(alloc, document).err() == Some(fault)
}

/// Whether a part of a document is refused with this fault, with one text before it and another after it.
fn is_part_refused(alloc: Global, before: &str, row: &Refused, behind: &str) -> bool {
    let (part, fault) = row;
    match format!(in alloc; "{before}{part}{behind}") {
        Ok(text) => is_refused(alloc, text.as_str(), *fault),
        Err(_) => false,
    }
}

macro_rules! missing {
    ($key:expr) => {
        WorkloadFault::Missing { key: $key }
    };
}

macro_rules! kind {
    ($key:expr) => {
        WorkloadFault::Kind { key: $key }
    };
}

macro_rules! range {
    ($key:expr) => {
        WorkloadFault::Range { key: $key }
    };
}

const DOCUMENTS: &[Refused] = &[
    ("", missing!(Key::Front)),
    ("front = \"linear", WorkloadFault::Toml),
    (
        "front = \"linear\"\nfront = \"linear\"",
        WorkloadFault::Toml,
    ),
    ("front = \"linear\"\nspeed = 1", WorkloadFault::UnknownKey),
    ("front = 3\n[more]", WorkloadFault::UnknownKey),
    ("front = 3", kind!(Key::Front)),
    ("[front]", kind!(Key::Front)),
    ("front = \"other\"", range!(Key::Front)),
    ("front = \"Linear\"", range!(Key::Front)),
    ("front = \"linear\"\nloss = 101", missing!(Key::Registers)),
];

const REGISTERS: &[Refused] = &[
    ("\"x\"", kind!(Key::Registers)),
    ("[\"x\", 1]", kind!(Key::Registers)),
    ("[\"X\", [\"y\"]]", kind!(Key::Registers)),
    ("{ x = 1 }", kind!(Key::Registers)),
    ("[]", range!(Key::Registers)),
    ("[\"\"]", range!(Key::Registers)),
    ("[\"x\", \"Y\"]", range!(Key::Registers)),
    ("[\"x\", \"x\"]", range!(Key::Registers)),
    ("[\"abcdefghijklmnopq\"]", range!(Key::Registers)),
    ("[\"abcdefghijklmnop\"]", missing!(Key::Scripts)),
    ("[\"x\"]", missing!(Key::Scripts)),
];

const SCRIPTS: &[Refused] = &[
    ("[]", range!(Key::Scripts)),
    ("7", kind!(Key::Scripts)),
    ("[\"read x\"]", kind!(Key::Scripts)),
    ("[[\"read x\"], 3]", kind!(Key::Scripts)),
    ("[[\"read x\", 3]]", kind!(Key::Scripts)),
    ("[[\"read x\", true]]", kind!(Key::Scripts)),
    (
        "[[], [], [], [], [], [], [], [], [], [], [], [], [], [], [], [], \
         [], [], [], [], [], [], [], [], [], [], [], [], [], [], [], [], \
         [], [], [], [], [], [], [], [], [], [], [], [], [], [], [], [], \
         [], [], [], [], [], [], [], [], [], [], [], [], [], [], [], [], []]",
        range!(Key::Scripts),
    ),
    (
        "[[], [], [], [], [], [], [], [], [], [], [], [], [], [], [], [], \
         [], [], [], [], [], [], [], [], [], [], [], [], [], [], [], [], \
         [], [], [], [], [], [], [], [], [], [], [], [], [], [], [], [], \
         [], [], [], [], [], [], [], [], [], [], [], [], [], [], [], [], [1]]",
        kind!(Key::Scripts),
    ),
    (
        "[[\"read x\", \"write y 5\"]]",
        WorkloadFault::Script {
            process: 0,
            place: 1,
        },
    ),
    (
        "[[\"read x\"], [\"read x\", \"write x 5\", \"read x \"], [\"swap x\"]]",
        WorkloadFault::Script {
            process: 1,
            place: 2,
        },
    ),
    (
        "[[], [\"write x 18446744073709551616\"]]",
        WorkloadFault::Script {
            process: 1,
            place: 0,
        },
    ),
    (
        "[[\"write x 05\"]]",
        WorkloadFault::Script {
            process: 0,
            place: 0,
        },
    ),
];

const NUMBERS: &[Refused] = &[
    ("seed = -1", range!(Key::Seed)),
    ("seed = 1.0", kind!(Key::Seed)),
    ("seed = \"1\"", kind!(Key::Seed)),
    ("seed = 9223372036854775808", WorkloadFault::Toml),
    ("loss = 101", range!(Key::Loss)),
    ("loss = -1", range!(Key::Loss)),
    ("loss = true", kind!(Key::Loss)),
    ("repeat = 101", range!(Key::Repeat)),
    ("repeat = [1]", kind!(Key::Repeat)),
    ("budget = 0", range!(Key::Budget)),
    ("budget = 1048577", range!(Key::Budget)),
    ("budget = 1979-05-27", kind!(Key::Budget)),
    (
        "budget = 0\nrepeat = 101\nloss = \"\"\nseed = -1",
        range!(Key::Seed),
    ),
    ("budget = 0\nrepeat = 101\nloss = \"\"", kind!(Key::Loss)),
    ("budget = 0\nrepeat = 101", range!(Key::Repeat)),
];

/// What stands before each kind of parts, the parts, and what stands after each.
const REFUSED: &[(&str, &[Refused], &str)] = &[
    ("", DOCUMENTS, ""),
    ("front = \"linear\"\nregisters = ", REGISTERS, "\n"),
    (
        "front = \"linear\"\nregisters = [\"x\"]\nscripts = ",
        SCRIPTS,
        "\n",
    ),
    (
        "front = \"linear\"\nregisters = [\"x\"]\nscripts = [[\"none\"]]\n",
        NUMBERS,
        "\n",
    ),
];

#[test]
fn documents_are_refused(rt: HostRuntime) {
    for (before, rows, behind) in REFUSED {
        for row in *rows {
            demand(&rt, row, is_part_refused(rt.alloc(), before, row, behind));
        }
    }
}
