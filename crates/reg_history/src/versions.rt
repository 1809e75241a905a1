//! The versions of the text of a report.
ghost use Rattle.std.specs.Prelude.{◌≡◌, ◌+◌, IfSome, Some, IsTrue, true, ◌↔◌};
ghost use Rattle.std.specs.List.{list_all};
ghost use Rattle.reg_history.specs.declared.versions.Version.{Version};
ghost use Rattle.reg_history.specs.Versions.{compares, is_older_entry, may_answer, may_call, most_processes};
ghost use Rattle.reg_history.specs.Versions.{most_registers, version_for as version_for_entries, version_line};

use crate::report_limits::{OLDER_PROCESSES, OLDER_REGISTERS};
use reg_base::limits::{MOST_PROCESSES, MOST_REGISTERS};
use reg_base::{Answer, Op};
use reg_checkers::Entry;

/// A version of the text of a report. All are read. A report is written in version 2, and one with a compare-and-swap
/// in version 3.
#[derive(Clone, Copy, Debug, PartialEq, Eq)]
pub enum Version {
    /// All names stand on one line. There are at most `OLDER_PROCESSES` processes and `OLDER_REGISTERS` registers.
    One,
    /// Each name stands on a line of its own.
    Two,
    /// As version 2, and operations may be compare-and-swaps.
    Three,
}

impl Version {
    /// The version that the first line of a report names.
    pub fn of_line(line: &[u8]) -> Option<Version>
        ensures read { IfSome result (λ version. line.now ≡ version_line version) }
        ensures whole { (version : Version) → line.now ≡ version_line version → result ≡ Some version }
    {
        if line == b"awreg report 1".as_slice() {
            return Some(Version::One);
        }
        if line == b"awreg report 2".as_slice() {
            return Some(Version::Two);
        }
        if line == b"awreg report 3".as_slice() {
            return Some(Version::Three);
        }
        None
    }

    /// The most processes of a report.
    pub fn most_processes(self) -> u32
        ensures { result ≡ most_processes self }
    {
        match self {
            Version::One => OLDER_PROCESSES,
            Version::Two => MOST_PROCESSES,
            Version::Three => MOST_PROCESSES,
        }
    }

    /// The number of the last process that a report may name.
    pub fn last_process(self) -> u8
        ensures { result + 1 ≡ most_processes self }
    {
        match self {
            Version::One => (OLDER_PROCESSES - 1) as u8,
            Version::Two => (MOST_PROCESSES - 1) as u8,
            Version::Three => (MOST_PROCESSES - 1) as u8,
        }
    }

    /// The most registers of a report.
    pub fn most_registers(self) -> u32
        ensures { result ≡ most_registers self }
    {
        match self {
            Version::One => OLDER_REGISTERS,
            Version::Two => MOST_REGISTERS,
            Version::Three => MOST_REGISTERS,
        }
    }

    /// The first line of a report.
    pub fn line(self) -> &'static str
        ensures { result.now ≡ version_line self }
    {
        match self {
            Version::One => "awreg report 1",
            Version::Two => "awreg report 2",
            Version::Three => "awreg report 3",
        }
    }

    /// Whether a report may have compare-and-swaps.
    pub fn compares(self) -> bool
        ensures { result ≡ compares self }
    {
        match self {
            Version::One => false,
            Version::Two => false,
            Version::Three => true,
        }
    }

    /// Whether a report may have the operation.
    pub fn may_call(self, op: Op) -> bool
        ensures { result ≡ may_call self op }
    {
        match op {
            Op::CompareAndSwap { .. } => self.compares(),
            Op::Read { .. } => true,
            Op::Write { .. } => true,
            Op::Swap { .. } => true,
        }
    }

    /// Whether a report may have the answer.
    pub fn may_answer(self, answer: Answer) -> bool
        ensures { result ≡ may_answer self answer }
    {
        match answer {
            Answer::Unequal => self.compares(),
            Answer::Done => true,
            Answer::Value(_) => true,
        }
    }
}

fn is_older(entry: Entry) -> bool
    ensures { result ≡ is_older_entry entry }
{
    match entry {
        Entry::Called { op, .. } => Version::Two.may_call(op),
        Entry::Answered { answer, .. } => Version::Two.may_answer(answer),
    }
}

fn are_older(entries: &[Entry]) -> bool
    ensures { result ≡ list_all is_older_entry entries.now }
{
    entries.iter().all(|entry| is_older(*entry))
}

/// The version in which a report of these entries is written.
pub fn version_for(entries: &[Entry]) -> Version
    ensures { result ≡ version_for_entries entries.now }
{
    if are_older(entries) {
        Version::Two
    } else {
        Version::Three
    }
}
