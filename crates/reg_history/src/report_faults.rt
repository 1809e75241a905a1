//! Why a report is refused.
ghost use Rattle.std.specs.Prelude.{◌≡◌};
ghost use Rattle.reg_history.specs.Whys.{why_text};

use reg_text::{Lines, TextFault, Why};
use std::fmt;
use thiserror::Error;

/// Why parts are no report: the first of these that applies.
#[derive(Clone, Copy, Debug, PartialEq, Eq, Error)]
pub enum ReportFault {
    /// The front end's name isn't one word of 1 to 16 letters a to z or hyphens.
    #[error("front")]
    Front,
    /// There are not as many names as the history has registers.
    #[error("names")]
    Names,
    /// The history or a list is too long for a report, or an id or a point is beyond its limits.
    #[error("range")]
    Range,
}

/// What is wrong with a line of a report. The form of a whole line is judged first, then its fields from left to right,
/// and last the place of an entry.
#[derive(Clone, Copy, Debug, PartialEq, Eq, Error)]
pub enum ReadWhy {
    /// The line is spelled otherwise than lines of its kind are.
    Form,
    /// A number, or how many names there are, is out of range.
    Range,
    /// A name is misspelt, repeated or not known.
    Name,
    /// The entry may not come after those before it.
    Place,
    /// The text ends before this line, or this line stands after the last one of a report.
    End,
}

impl ReadWhy {
    /// The word for what is wrong.
    pub fn word(self) -> &'static str
        ensures { result.now ≡ why_text self }
    {
        match self {
            ReadWhy::Form => "form",
            ReadWhy::Range => "range",
            ReadWhy::Name => "name",
            ReadWhy::Place => "place",
            ReadWhy::End => "end",
        }
    }
}

impl fmt::Display for ReadWhy {
    ghost use Rattle.std.specs.Prelude.{Some};
    ghost use Rattle.reg_history.specs.Whys.{why_text};

    ghost output = { λ why. Some (why_text why) };

    fn fmt<W: fmt::Write>(&self, f: &mut fmt::Formatter<W>) -> fmt::Result {
        f.write_str(self.word())
    }
}

/// Why a text is no report.
#[derive(Clone, Copy, Debug, PartialEq, Eq, Error)]
pub enum ReadFault {
    /// This line is the first that is wrong. Lines are counted from 1. Where the text ends too early, it is the line
    /// after its last one.
    #[error("line {line}: {why}")]
    Line { line: u64, why: ReadWhy },
    /// There was no memory to keep what was read.
    #[error("out of memory")]
    OutOfMemory,
}

/// Why a report was not written.
#[derive(Clone, Copy, Debug, PartialEq, Eq, Error)]
pub enum WriteFault {
    /// The writer failed. It took a first part of the text; how long a part is not told.
    #[error("write")]
    Write,
    /// There was no memory. `write_report` never gives this.
    #[error("out of memory")]
    OutOfMemory,
}

impl From<Why> for ReadWhy {
    ghost use Rattle.reg_history.specs.ReadFaults.{why_of};

    ghost from_gives = { λ why gives. gives ≡ why_of why };

    fn from(why: Why) -> ReadWhy {
        match why {
            Why::Form => ReadWhy::Form,
            Why::Range => ReadWhy::Range,
            Why::Name => ReadWhy::Name,
            Why::End => ReadWhy::End,
        }
    }
}

impl From<TextFault> for ReadFault {
    ghost use Rattle.reg_history.specs.ReadFaults.{read_fault};

    ghost from_gives = { λ fault gives. gives ≡ read_fault fault };

    fn from(fault: TextFault) -> ReadFault {
        match fault {
            TextFault::Line { line, why } => ReadFault::Line {
                line,
                why: ReadWhy::from(why),
            },
            TextFault::OutOfMemory => ReadFault::OutOfMemory,
        }
    }
}

/// A fault of the line that was asked for last.
pub fn at_line(lines: &Lines<'_>, why: ReadWhy) -> ReadFault
    ensures { result ≡ ReadFault.Line lines.now.number why }
{
    ReadFault::Line {
        line: lines.number(),
        why,
    }
}
