//! The logs of all processes of a chapter merged, and what is told of other logs. Their seals were computed with
//! another program's CRC-32.
use crate::records_judged::WRITE;
use reg_heap::{Trial, refusals};
use reg_verify::{HeadPart, LogFault, LogsFault, merge_logs_text};
use std::alloc::{Allocator, Global};
use std::test::Fail;

/// A log of the first process of a chapter, or of the second: its first six lines, and the others.
macro_rules! log_of {
    (first; $rest:literal) => {
        concat!("e009c6ff tellwydar log 1
69771c8e cluster 7
ded1c05f process 0
91ba8d59 chapter 0
b56a2825 begun 12
2f99698f tellwydar record 1
", $rest)
    };
    (second; $rest:literal) => {
        concat!("e009c6ff tellwydar log 1
69771c8e cluster 7
a9d6f0c9 process 1
50345299 chapter 0
d00d1363 begun 12
61106226 tellwydar record 1
", $rest)
    };
}

/// The log of the first process of `WRITE`.
const FIRST: &str = log_of!(first; "95118964 front linear
c2025397 processes 2
dc21685e registers x
fbc16c9f 0 call write x 5
92e249cb 0 take 1 000a01020000000000000001
b9d266ce 0 take 1 001301010000000000000000020000000000000002 = done 0
");

/// The log of the second.
const SECOND: &str = log_of!(second; "fcdd7569 front linear
4d377e02 processes 2
5263d960 registers x
a448f4e6 1 take 0 001e010100000000000000000100000000000000010200000000000000000005
");

/// A crash tore off a part of the last line of the first one.
const TORN: &str = log_of!(first; "95118964 front linear
c2025397 processes 2
dc21685e registers x
fbc16c9f 0 call write x 5
92e249cb 0 take 1 000a01020000000000000001
b9d266ce 0 take 1 0013010100000000000000");

/// The second entry of the first process is missing.
const SKIPPED: &str = log_of!(first; "95118964 front linear
c2025397 processes 2
dc21685e registers x
fbc16c9f 0 call write x 5
b9d266ce 0 take 1 001301010000000000000000020000000000000002 = done 0
");

/// The second process did nothing.
const IDLE: &str = log_of!(second; "fcdd7569 front linear
4d377e02 processes 2
5263d960 registers x
");

/// The second entry is of the first process.
const FOREIGN: &str = log_of!(second; "fcdd7569 front linear
4d377e02 processes 2
5263d960 registers x
a448f4e6 1 take 0 001e010100000000000000000100000000000000010200000000000000000005
8fb5bab1 0 tick
");

/// There is no third process.
const BEYOND: &str = "e009c6ff tellwydar log 1
69771c8e cluster 7
30dfa173 process 2
c9d63498 chapter 0
7fa45ea9 begun 12
b28b7edd tellwydar record 1
4688717e front linear
07190efc processes 2
1bd50c63 registers x
";

/// A log of another cluster, and another chapter and front end, too.
const OTHER_CLUSTER: &str = "e009c6ff tellwydar log 1
f9c8011f cluster 8
3a2e040f process 1
6b26ed21 chapter 1
b29bcf64 begun 12
b99a17e7 tellwydar record 1
6da9e908 front local-read
0f814e69 processes 2
50458a85 registers x
";

/// Of another chapter.
const OTHER_CHAPTER: &str = "e009c6ff tellwydar log 1
69771c8e cluster 7
a9d6f0c9 process 1
2733620f chapter 1
3fcf785d begun 12
0217bb02 tellwydar record 1
5de4f187 front linear
4c92d7b4 processes 2
1b8a747f registers x
";

/// Under another front end.
const OTHER_FRONT: &str = log_of!(second; "6ce47517 front local-write
de3fc724 processes 2
6166d971 registers x
");

/// Of one of three processes.
const OTHER_PROCESSES: &str = log_of!(second; "fcdd7569 front linear
3a304e94 processes 3
8ff500e5 registers x
");

/// Of a register of another name.
const OTHER_NAME: &str = log_of!(second; "fcdd7569 front linear
4d377e02 processes 2
2564e9f6 registers y
");

/// Of one register more.
const ONE_MORE: &str = log_of!(second; "fcdd7569 front linear
4d377e02 processes 2
6776ac71 registers x y
");

/// The log of a process that is alone.
const ALONE: &str = log_of!(first; "95118964 front linear
5b0b022d processes 1
61eb0490 registers x
4ffe801d 0 call write x 5 = done 0
e786a0c8 0 tick
");

/// The record of `TORN` and `SECOND`: the last step of the first process is missing.
const WITHOUT_LAST: &str = "tellwydar record 1
front linear
processes 2
registers x
0 call write x 5
1 take 0 001e010100000000000000000100000000000000010200000000000000000005
0 take 1 000a01020000000000000001
";

/// And that of `ALONE`.
const OF_ONE: &str = "tellwydar record 1
front linear
processes 1
registers x
0 call write x 5 = done 0
0 tick
";

/// The fault that the log at place 1 differs from the first one in this part of its head.
macro_rules! other {
    ($part:ident) => {
        Err(LogsFault::Other {
            log: 1,
            part: HeadPart::$part,
        })
    };
}

/// Logs, and the record that they give, or what is told of them.
type Row = (&'static [&'static str], Result<&'static str, LogsFault>);

const ROWS: &[Row] = &[
    (&[FIRST, SECOND], Ok(WRITE)),
    (&[SECOND, FIRST], Ok(WRITE)),
    (&[TORN, SECOND], Ok(WITHOUT_LAST)),
    (&[ALONE], Ok(OF_ONE)),
    (&[], Err(LogsFault::NoLog)),
    (&[FIRST], Err(LogsFault::Missing { process: 1 })),
    (&[SECOND], Err(LogsFault::Missing { process: 0 })),
    (
        &[SECOND, FIRST, FIRST],
        Err(LogsFault::Twice { log: 2, before: 1 }),
    ),
    (
        &[SKIPPED, SECOND],
        Err(LogsFault::Unread {
            log: 0,
            fault: LogFault::Damaged { place: 1 },
        }),
    ),
    (
        &[FIRST, FOREIGN],
        Err(LogsFault::Unread {
            log: 1,
            fault: LogFault::Foreign { place: 1 },
        }),
    ),
    (
        &[FIRST, BEYOND],
        Err(LogsFault::Unread {
            log: 1,
            fault: LogFault::NoProcess,
        }),
    ),
    (&[FIRST, OTHER_CLUSTER], other!(Cluster)),
    (&[FIRST, OTHER_CHAPTER], other!(Chapter)),
    (&[FIRST, OTHER_FRONT], other!(Front)),
    (&[FIRST, OTHER_PROCESSES], other!(Processes)),
    (&[FIRST, OTHER_NAME], other!(Registers)),
    (&[FIRST, ONE_MORE], other!(Registers)),
    // (nothing puts what the first process takes)
    (
        &[FIRST, IDLE],
        Err(LogsFault::Unfaithful { log: 0, entry: 1 }),
    ),
    (
        &[IDLE, FIRST],
        Err(LogsFault::Unfaithful { log: 1, entry: 1 }),
    ),
];

/// The text of the record of these logs.
fn merged<A: Allocator + Copy>(alloc: A, logs: &[&str]) -> Result<Vec<u8, A>, LogsFault> {
    let mut texts = Vec::new(alloc);
    for log in logs {
        if texts.push(log.as_bytes()).is_err() {
            return Err(LogsFault::OutOfMemory);
        }
    }
    merge_logs_text(alloc, &texts)
}

/// Whether this is told of the logs.
fn are_told(alloc: Global, logs: &[&str], wanted: Result<&str, LogsFault>) -> bool {
    match (merged(alloc, logs), wanted) {
        (Ok(text), Ok(wanted)) => text.as_slice() == wanted.as_bytes(),
        (Err(fault), Err(wanted)) => fault == wanted,
        _ => false,
    }
}

#[test]
fn logs_are_merged_or_told(rt: HostRuntime) {
    for (place, (logs, wanted)) in ROWS.iter().enumerate() {
        assert!(rt; are_told(rt.alloc(), logs, *wanted), "row {place}");
    }
}

/// Two logs, merged.
#[derive(Clone, Copy)]
struct TwoLogs;

impl Trial for TwoLogs {
    fn answer<A: Allocator + Copy>(&self, alloc: A, ample: Global) -> Result<Option<String>, Fail> {
        let told = match merged(alloc, &[FIRST, SECOND]) {
            Ok(text) => text,
            Err(LogsFault::OutOfMemory) => return Ok(None),
            Err(_) => return Ok(Some(String::new(ample))),
        };
        Ok(String::from_utf8(Vec::from_slice(ample, &told)?).ok())
    }
}

#[test]
fn want_of_memory_is_told_of_logs(rt: HostRuntime) -> Result<(), Fail> {
    assert!(rt; refusals(&TwoLogs, rt.alloc())? > 3);
    Ok(())
}
