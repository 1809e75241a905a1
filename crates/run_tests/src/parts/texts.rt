//! Names as a line has them.
use crate::demands::demand;
use reg_base::Names;
use reg_text::{Lines, TextFault, Why, read_names};
use std::alloc::Global;

/// A first line that isn't one of names, and why.
const NO_NAMES: &[(&str, Why)] = &[
    ("", Why::End),
    ("register x", Why::Form),
    ("registers", Why::Form),
    ("registers ", Why::Form),
    ("registers x ", Why::Form),
    ("registers  x", Why::Form),
    ("registers x1 x ", Why::Form),
    ("registers x é", Why::Form),
    ("registers x x", Why::Name),
    ("registers x X", Why::Name),
    ("registers x abcdefghijklmnopq", Why::Name),
];

/// The names of the first line, of which there may be 256.
pub(crate) fn names_of(alloc: Global, text: &str) -> Result<Names, TextFault> {
    let mut lines = Lines::new(text.as_bytes());
    read_names(alloc, &mut lines, 256)
}

/// Whether these are the names x and y.
fn are_x_and_y(names: &Names) -> bool {
    names.count() == 2
        && [names.number("x"), names.number("y"), names.number("z")] == [Some(0), Some(1), None]
        && [names.name(0), names.name(1), names.name(2)] == [Some("x"), Some("y"), None]
}

/// Whether the line of x and y names them.
fn names_x_and_y(alloc: Global) -> bool {
    match names_of(alloc, "registers x y") {
        Ok(names) => are_x_and_y(&names),
        Err(_) => false,
    }
}

/// Whether a line isn't one of names, for this cause.
fn names_none(alloc: Global, text: &str, why: Why) -> bool {
    names_of(alloc, text).err() == Some(TextFault::Line { line: 1, why })
}

#[test]
fn names_of_their_line(rt: HostRuntime) {
    assert!(rt; names_x_and_y(rt.alloc()));
    for (text, why) in NO_NAMES {
        demand(&rt, text, names_none(rt.alloc(), text, *why));
    }
}
