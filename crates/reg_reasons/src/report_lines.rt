//! The lines of a report, part by part.
ghost use Rattle.std.specs.Iterator.{item_count};

use crate::forms::{
    ENTRY, HISTORY, ID, LAST_LINE, NAME, NAMES, NOTHING, OLDER_ENTRY, ORDER, POINT, PROCESSES,
    REGISTERS, REPORT_FRONT, TAIL, VERSION,
};
use crate::wanting::Form;
use reg_text::{Lines, cut_at, numeral};

/// What stands on a line of a report.
#[derive(Clone, Copy, PartialEq, Eq)]
pub enum Part {
    Version,
    Front,
    Processes,
    Registers,
    Name,
    History,
    Entry,
    Order,
    Id,
    Tail,
    Point,
    End,
    After,
}

/// Where one is in a report: what stands on the next line, and how many such lines are announced.
#[derive(Clone, Copy)]
pub struct Walk {
    pub part: Part,
    left: u64,
    /// Whether it is a report of version 1.
    pub is_older: bool,
    /// Whether it is a report of version 3, which may have compare-and-swaps.
    compares: bool,
}

/// The number after the first word of a line, and 0 where none is there.
pub fn number_on(line: &[u8]) -> u64 {
    match cut_at(line, b' ') {
        Some((_, digits)) => numeral(digits).unwrap_or(0),
        None => 0,
    }
}

impl Walk {
    /// After one more line.
    fn after(self, line: &[u8]) -> Walk {
        let left = match self.part {
            Part::Name | Part::Entry | Part::Id | Part::Point => self.left.saturating_sub(1),
            _ => number_on(line),
        };
        let part = match self.part {
            Part::Version => Part::Front,
            Part::Front => Part::Processes,
            Part::Processes => Part::Registers,
            Part::Registers if self.is_older => Part::History,
            Part::Registers | Part::Name if left > 0 => Part::Name,
            Part::Registers | Part::Name => Part::History,
            Part::History | Part::Entry if left > 0 => Part::Entry,
            Part::History | Part::Entry => Part::Order,
            Part::Order | Part::Id if left > 0 => Part::Id,
            Part::Order | Part::Id => Part::Tail,
            Part::Tail if line == b"end".as_slice() => Part::After,
            Part::Tail | Part::Point if left > 0 => Part::Point,
            Part::Tail | Part::Point => Part::End,
            Part::End | Part::After => Part::After,
        };
        let is_older = self.is_older || self.part == Part::Version && line.ends_with(b" 1");
        let compares = self.compares || self.part == Part::Version && line.ends_with(b" 3");
        Walk {
            part,
            left,
            is_older,
            compares,
        }
    }

    /// What the next line is, and its form.
    pub fn layout(self) -> (&'static str, Form) {
        match self.part {
            Part::Version => ("awreg report 2", VERSION),
            Part::Front => ("front and a word, as in front linear", REPORT_FRONT),
            Part::Processes => ("processes and a number, as in processes 2", PROCESSES),
            Part::Registers => {
                let form = if self.is_older { NAMES } else { REGISTERS };
                ("registers and their number, as in registers 1", form)
            }
            Part::Name => ("the name of a register", NAME),
            Part::History => ("history and a number, as in history 4", HISTORY),
            Part::Entry => {
                let form = if self.compares { ENTRY } else { OLDER_ENTRY };
                ("a line of the history", form)
            }
            Part::Order => ("order and a number, as in order 2", ORDER),
            Part::Id => ("an operation of the order, as in p0 #0", ID),
            Part::Tail => ("end, or points and a number, as in points 2", TAIL),
            Part::Point => ("a point, as in p0 #0 at 3", POINT),
            Part::End => ("end", LAST_LINE),
            Part::After => ("nothing", NOTHING),
        }
    }

    /// What is told of a line beside what was wanted: more or fewer lines stand there than a count before announces.
    pub fn miscounted(self, line: &[u8]) -> &'static str {
        match (self.part, line) {
            (Part::Order, [b' ', ..]) => {
                "more lines of the history stand here than its count says\n"
            }
            (Part::Entry, [b'o', b'r', ..]) => {
                "fewer lines of the history stand here than its count says\n"
            }
            (Part::Tail, [b'p', b'0'..=b'9', ..]) => {
                "more lines of the order stand here than its count says\n"
            }
            (Part::Id, [b'p', b'o', ..] | [b'e', ..]) => {
                "fewer lines of the order stand here than its count says\n"
            }
            (Part::End, [b'p', b'0'..=b'9', ..]) =>
                "more points stand here than their count says\n",
            (Part::Point, [b'e', ..]) => "fewer points stand here than their count says\n",
            _ => "",
        }
    }
}

/// The lines of a report, each with where one is before it.
#[derive(Drop)]
pub struct ReportLines<'a> {
    lines: Lines<'a>,
    walk: Walk,
}

impl<'a> ReportLines<'a> {
    /// All lines of a text.
    pub fn new(text: &'a [u8]) -> ReportLines<'a> {
        ReportLines {
            lines: Lines::new(text),
            walk: Walk {
                part: Part::Version,
                left: 0,
                is_older: false,
                compares: false,
            },
        }
    }
}

impl<'a> Iterator for ReportLines<'a> {
    type Item = (Walk, &'a [u8]);

    ghost remaining = { item_count (λ s. s.lines.left) };

    fn next(&mut self) -> Option<(Walk, &'a [u8])> {
        let walk = self.walk;
        let line = self.lines.next()?;
        self.walk = walk.after(line);
        Some((walk, line))
    }
}

/// The number of the first line of a part.
pub fn first_line(text: &[u8], part: Part) -> u64 {
    let mut number = 1u64;
    for (walk, _) in ReportLines::new(text) {
        if walk.part == part {
            break;
        }
        number = number.saturating_add(1);
    }
    number
}

/// Where one is in a report before the line of this number.
pub fn walk_to(text: &[u8], number: u64) -> Walk {
    let mut lines = ReportLines::new(text);
    for _ in 1..number {
        lines.next();
    }
    lines.walk
}
