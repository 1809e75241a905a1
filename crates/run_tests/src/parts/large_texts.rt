//! Texts with as many names, scripts and operations as there may be.
use crate::demands::demand_same;
use crate::parts::bases::push_name;
use crate::parts::reports::is_written_as;
use crate::replays::add_times;
use reg_base::Names;
use reg_history::{ReadFault, ReadWhy, read_report};
use reg_inputs::{Key, Workload, WorkloadFault};
use reg_workload::{ScheduleFault, Why, parse_schedule};
use std::alloc::{AllocError, Global};

/// A text with a number of names: what stands before them and behind them, and the mark before each.
struct Named {
    head: &'static str,
    mark: char,
    count: u32,
    rest: &'static str,
}

/// Adds the text of a report or a schedule.
fn push_named(text: &mut String, named: &Named) -> Result<(), AllocError> {
    text.push_str(named.head)?;
    for number in 0..named.count {
        text.push(named.mark)?;
        push_name(text, number)?;
    }
    text.push_str(named.rest)
}

/// The text of a report or a schedule.
fn text_of(alloc: Global, named: &Named) -> Result<String, AllocError> {
    let mut text = String::new(alloc);
    push_named(&mut text, named)?;
    Ok(text)
}

macro_rules! older {
    ($count:expr, $rest:expr) => {
        Named {
            head: "awreg report 1\nfront linear\nprocesses 1\nregisters",
            mark: ' ',
            count: $count,
            rest: $rest,
        }
    };
}

macro_rules! refused_names {
    ($why:ident) => {
        Some(ReadFault::Line {
            line: 4,
            why: ReadWhy::$why,
        })
    };
}

/// Reports of version 1, and why each is refused. Of too many names the first one over is beyond the limit, whatever it
/// is.
const REPORTS: &[(Named, Option<ReadFault>)] = &[
    (older!(256, "\nhistory 0\norder 0\nend\n"), None),
    (
        older!(257, "\nhistory 0\norder 0\nend\n"),
        refused_names!(Range),
    ),
    (older!(256, " aaa\n"), refused_names!(Range)),
    (older!(256, " x1\n"), refused_names!(Range)),
    (older!(256, " \n"), refused_names!(Form)),
    (older!(256, " x  y\n"), refused_names!(Form)),
];

/// Why a report is refused.
fn report_fault(alloc: Global, named: &Named) -> Option<ReadFault> {
    match text_of(alloc, named) {
        Ok(text) => read_report(alloc, text.as_str()).err(),
        Err(_) => Some(ReadFault::OutOfMemory),
    }
}

#[test]
fn reports_have_as_many_names_as_they_may(rt: HostRuntime) {
    for (named, fault) in REPORTS {
        let row = (named.count, named.rest);
        demand_same(&rt, &row, &report_fault(rt.alloc(), named), fault);
    }
}

/// The largest report of version 2 with no entries.
const LARGEST: Named = Named {
    head: "awreg report 2\nfront linear\nprocesses 64\nregisters 4096",
    mark: '\n',
    count: 4096,
    rest: "\nhistory 0\norder 1\np63 #65534\nend\n",
};

/// Whether each name has its number.
fn have_numbers(names: &Names) -> bool {
    for number in 0..4096u16 {
        match names.name(number) {
            Some(name) if names.number(name) == Some(number) => {}
            _ => return false,
        }
    }
    names.count() == 4096
}

/// Whether a report is read with all its names, and written as it was.
fn is_read_whole(alloc: Global, text: &str) -> bool {
    match read_report(alloc, text) {
        Ok(report) => have_numbers(report.names())
            && is_written_as(alloc, &report, text) == Some(true),
        Err(_) => false,
    }
}

#[test]
fn the_largest_report_is_read_as_it_was_written(rt: HostRuntime) {
    let text = text_of(rt.alloc(), &LARGEST).expect(&rt, "memory");
    assert!(rt; is_read_whole(rt.alloc(), text.as_str()));
}

/// Schedules, and why each is refused.
const SCHEDULES: &[(Named, Option<ScheduleFault>)] = &[
    (
        Named {
            head: "processes 64\nregisters",
            mark: ' ',
            count: 4096,
            rest: "\nfront linear\n",
        },
        None,
    ),
    (
        Named {
            head: "processes 64\nregisters",
            mark: ' ',
            count: 4097,
            rest: "\nfront linear\n",
        },
        Some(ScheduleFault::Line {
            line: 2,
            why: Why::Range,
        }),
    ),
];

/// Why a schedule is refused.
fn schedule_fault(alloc: Global, named: &Named) -> Option<ScheduleFault> {
    match text_of(alloc, named) {
        Ok(text) => parse_schedule(alloc, text.as_str()).err(),
        Err(_) => Some(ScheduleFault::OutOfMemory),
    }
}

#[test]
fn a_schedule_has_as_many_names_as_it_may(rt: HostRuntime) {
    for (named, fault) in SCHEDULES {
        demand_same(&rt, &named.count, &schedule_fault(rt.alloc(), named), fault);
    }
}

/// How many names, scripts and operations of the first script a document has.
#[derive(Clone, Copy, Debug)]
struct Counts {
    names: u32,
    scripts: u32,
    reads: u32,
}

macro_rules! counts {
    ($names:expr, $scripts:expr, $reads:expr) => {
        Counts {
            names: $names,
            scripts: $scripts,
            reads: $reads,
        }
    };
}

macro_rules! range {
    ($key:ident) => {
        Some(WorkloadFault::Range { key: Key::$key })
    };
}

/// The counts of a document, and why it is refused.
const DOCUMENTS: &[(Counts, Option<WorkloadFault>)] = &[
    (counts!(4096, 1, 1), None),
    (counts!(4097, 1, 1), range!(Registers)),
    (counts!(1, 64, 1), None),
    (counts!(1, 65, 1), range!(Scripts)),
    (counts!(1, 1, 65_535), None),
    (counts!(1, 1, 65_536), range!(Scripts)),
];

/// Adds this number of names, each in quotes.
fn push_names(text: &mut String, names: u32) -> Result<(), AllocError> {
    for number in 0..names {
        text.push('"')?;
        push_name(text, number)?;
        text.push_str("\",")?;
    }
    Ok(())
}

/// Adds the document of these counts.
fn push_document(text: &mut String, counts: &Counts) -> Result<(), AllocError> {
    text.push_str("front = \"linear\"\nregisters = [")?;
    push_names(text, counts.names)?;
    text.push_str("]\nscripts = [[")?;
    add_times(text, "\"read aaa\",", counts.reads)?;
    text.push_str("],")?;
    add_times(text, "[],", counts.scripts.saturating_sub(1))?;
    text.push_str("]\n")
}

/// Why the document of these counts is refused.
fn document_fault(alloc: Global, counts: &Counts) -> Option<WorkloadFault> {
    let mut text = String::new(alloc);
    match push_document(&mut text, counts) {
        Ok(()) => Workload::from_toml(alloc, text.as_str()).err(),
        Err(_) => Some(WorkloadFault::OutOfMemory),
    }
}

#[test]
fn a_document_has_as_much_as_it_may(rt: HostRuntime) {
    for (counts, fault) in DOCUMENTS {
        demand_same(&rt, counts, &document_fault(rt.alloc(), counts), fault);
    }
}
