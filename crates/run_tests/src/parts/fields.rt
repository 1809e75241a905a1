//! Parts of lines, as the formats have them: numerals, columns, operations and heads.
use crate::demands::{demand, demand_none};
use crate::macros::{cas_of, swap_of};
use crate::parts::texts::names_of;
use crate::values::READ;
use reg_base::{Names, Op};
use reg_text::{
    Lines, OpLine, TextFault, Why, expect_line, field_within, in_front, is_numeral, left_field,
    name_of_op, numeral, op_form, read_count, read_op, right_field, why_number, within,
};
use std::alloc::Global;

/// A text, the number that it spells, and whether it has a numeral's form.
const NUMERALS: &[(&str, Option<u64>, bool)] = &[
    ("0", Some(0), true),
    ("7", Some(7), true),
    ("10", Some(10), true),
    ("9999999999999999999", Some(9_999_999_999_999_999_999), true),
    (
        "18446744073709551615",
        Some(18_446_744_073_709_551_615),
        true,
    ),
    ("18446744073709551616", None, true),
    ("100000000000000000000", None, true),
    ("", None, false),
    ("00", None, false),
    ("01", None, false),
    ("+1", None, false),
    ("-1", None, false),
    (" 1", None, false),
    ("1 ", None, false),
    ("1a", None, false),
    ("/", None, false),
    (":", None, false),
];

/// Whether a text spells this number, if any, has the form of one or not, and lies within a limit accordingly.
fn is_spelled(bytes: &[u8], number: Option<u64>, has_form: bool) -> bool {
    let why = if has_form { Why::Range } else { Why::Form };
    let limited = match number {
        Some(number) => within(bytes, number) && (number == 0 || !within(bytes, number - 1)),
        None => !within(bytes, u64::MAX),
    };
    numeral(bytes) == number && is_numeral(bytes) == has_form && why_number(bytes) == why && limited
}

#[test]
fn numerals(rt: HostRuntime) {
    for (text, number, has_form) in NUMERALS {
        demand(&rt, text, is_spelled(text.as_bytes(), *number, *has_form));
    }
}

/// A field at the front of a text, and what comes behind it.
type Field = Option<(u64, &'static str)>;

/// A text, and the number at the right of its first 8 places in front of a mark.
const RIGHT: &[(&str, Field)] = &[
    ("      12  p", Some((12, ""))),
    ("12345678  p0", Some((12_345_678, "0"))),
    ("12        p", None),
    ("     012  p", None),
    ("          p", None),
    ("      12  q", None),
    ("      12  ", None),
];

/// A text, and the number at the left of its first 3 places in front of a mark.
const LEFT: &[(&str, Field)] = &[
    ("1    #0", Some((1, "0"))),
    ("123  #0", Some((123, "0"))),
    (" 1   #0", None),
    ("1 2  #0", None),
    ("1   #0", None),
    ("1    #27", Some((1, "27"))),
];

/// A text, and the number up to 16 in front of its first space.
const SPACED: &[(&str, Field)] = &[("16 x", Some((16, "x"))), ("17 x", None), ("16", None)];

/// A text, and what stands in front of its spaces, where they stand at its end alone.
const FRONTS: &[(&str, &str)] = &[("1  ", "1"), ("123", "123"), (" 1 ", " 1 "), ("1 2", "1 2")];

/// Whether a field is this one.
fn is_field(found: Option<(u64, &[u8])>, field: Field) -> bool {
    match (found, field) {
        (Some((number, rest)), Some((wanted, behind))) => {
            number == wanted && rest == behind.as_bytes()
        }
        (None, None) => true,
        _ => false,
    }
}

/// Where a field is looked for.
#[derive(Clone, Copy, Debug)]
enum Column {
    Right,
    Left,
    Spaced,
}

const COLUMNS: &[(Column, &[(&str, Field)])] = &[
    (Column::Right, RIGHT),
    (Column::Left, LEFT),
    (Column::Spaced, SPACED),
];

/// The field of a column.
fn field_of(column: Column, bytes: &[u8]) -> Option<(u64, &[u8])> {
    match column {
        Column::Right => right_field(bytes, 8, b"  p"),
        Column::Left => left_field(bytes, 3, b"  #"),
        Column::Spaced => field_within(bytes, 16, b' '),
    }
}

/// The first text whose field in a column is another.
fn other_field(column: Column, rows: &[(&'static str, Field)]) -> Option<&'static str> {
    for (text, field) in rows {
        if !is_field(field_of(column, text.as_bytes()), *field) {
            return Some(*text);
        }
    }
    None
}

#[test]
fn columns(rt: HostRuntime) {
    for (column, rows) in COLUMNS {
        demand_none(&rt, column, &other_field(*column, rows));
    }
    for (text, front) in FRONTS {
        demand(&rt, text, in_front(text.as_bytes()) == front.as_bytes());
    }
}

/// A text, and the operation that it is.
const OPERATIONS: &[(&str, Op)] = &[
    ("read x", READ),
    (
        "write y 18446744073709551615",
        Op::Write {
            register: 1,
            value: 18_446_744_073_709_551_615,
        },
    ),
    ("swap x 5", swap_of!(5)),
    ("cas x 0 5", cas_of!(0, 5)),
    (
        "cas y 18446744073709551615 18446744073709551615",
        Op::CompareAndSwap {
            register: 1,
            expected: 18_446_744_073_709_551_615,
            value: 18_446_744_073_709_551_615,
        },
    ),
];

/// A text that is no operation, and why, where it has the form of one.
const NO_OPERATIONS: &[(&str, Option<Why>)] = &[
    ("", None),
    ("read", None),
    ("read ", None),
    ("read  x", None),
    ("read x ", None),
    ("Read x", None),
    ("read z", Some(Why::Name)),
    ("read A1!", Some(Why::Name)),
    ("read é", None),
    ("write z", None),
    ("write z ", None),
    ("write z 5", Some(Why::Name)),
    ("write z 18446744073709551616", Some(Why::Name)),
    ("write x", None),
    ("write  5", None),
    ("write x  5", None),
    ("write x 5 ", None),
    ("write x 05", None),
    ("write é 5", None),
    ("write x 18446744073709551616", Some(Why::Range)),
    ("swap z 5", Some(Why::Name)),
    ("swap x 18446744073709551616", Some(Why::Range)),
    ("swap x", None),
    ("swap  x 5", None),
    ("swapx 5", None),
    ("swap x 05", None),
    ("cas z 0 5", Some(Why::Name)),
    ("cas z 18446744073709551616 5", Some(Why::Name)),
    ("cas x 18446744073709551616 5", Some(Why::Range)),
    ("cas x 0 18446744073709551616", Some(Why::Range)),
    ("cas", None),
    ("cas x", None),
    ("cas x 0", None),
    ("cas x 0 ", None),
    ("cas x  5", None),
    ("cas  0 5", None),
    ("cas x 0  5", None),
    ("cas x 0 5 6", None),
    ("cas x 0 05", None),
    ("cas x 00 5", None),
    ("casx 0 5", None),
    ("Cas x 0 5", None),
    ("erase x", None),
];

/// The operation that a text is.
fn op_of(text: &str, names: &Names) -> Option<Op> {
    // (for the proof: by this getter's contract the names have no fault)
    let _count = names.count();
    read_op(text.as_bytes(), names)
}

/// Whether a text is read as the operation, and the operation is spelled so.
fn is_operation(alloc: Global, names: &Names, text: &str, op: Op) -> bool {
    let name = name_of_op(names, op);
    match format!(in alloc; "{}", OpLine { name, op }) {
        Ok(spelled) => spelled.as_str() == text && op_of(text, names) == Some(op),
        Err(_) => false,
    }
}

/// Whether a text isn't read as an operation, for this cause.
fn is_no_operation(names: &Names, text: &str, why: Option<Why>) -> bool {
    op_of(text, names).is_none() && op_form(text.as_bytes(), names) == why
}

/// The first text of an operation that is read or spelled otherwise.
fn misread_operation(alloc: Global, names: &Names) -> Option<&'static str> {
    for (text, op) in OPERATIONS {
        if !is_operation(alloc, names, text, *op) {
            return Some(*text);
        }
    }
    None
}

/// The first text of no operation that is read as one, or refused for another cause.
fn read_as_one(names: &Names) -> Option<&'static str> {
    for (text, why) in NO_OPERATIONS {
        if !is_no_operation(names, text, *why) {
            return Some(*text);
        }
    }
    None
}

#[test]
fn operations(rt: HostRuntime) {
    let names = names_of(rt.alloc(), "registers x y").expect(&rt, "names");
    let (misread, read) = (misread_operation(rt.alloc(), &names), read_as_one(&names));
    drop(names);
    demand_none(&rt, &"read", &misread);
    demand_none(&rt, &"not read", &read);
}

/// What is asked of the next line of a head: to be this line, or a number up to 16 behind a mark.
enum Head {
    Line(&'static str),
    Count(&'static str),
}

/// What is asked of the lines of a head, and what each answers: its number, or 0 where it is the line.
type Rows = &'static [(Head, Result<u64, Why>)];

const HEADS: &[(&str, Rows)] = &[
    (
        "processes 16\nfront linear",
        &[
            (Head::Count("processes "), Ok(16)),
            (Head::Line("front linear"), Ok(0)),
            (Head::Line("end"), Err(Why::End)),
        ],
    ),
    (
        "end \n17\n01\n x\n9\n",
        &[
            (Head::Line("end"), Err(Why::Form)),
            (Head::Count(""), Err(Why::Range)),
            (Head::Count(""), Err(Why::Form)),
            (Head::Count(""), Err(Why::Form)),
            (Head::Count("p"), Err(Why::Form)),
            (Head::Count("p"), Err(Why::End)),
        ],
    ),
];

/// What the next line answers.
fn asked(lines: &mut Lines<'_>, head: &Head) -> Result<u64, TextFault> {
    match head {
        Head::Line(text) => {
            expect_line(lines, text.as_bytes())?;
            Ok(0)
        }
        Head::Count(mark) => read_count(lines, mark.as_bytes(), 16),
    }
}

/// The first line of a head, from 1, that doesn't answer so.
fn other_line(text: &str, rows: Rows) -> Option<u64> {
    let mut lines = Lines::new(text.as_bytes());
    let mut line = 0u64;
    for (head, told) in rows {
        line = line.wrapping_add(1);
        let told = match told {
            Ok(number) => Ok(*number),
            Err(why) => Err(TextFault::Line { line, why: *why }),
        };
        if asked(&mut lines, head) != told {
            return Some(line);
        }
    }
    None
}

#[test]
fn heads(rt: HostRuntime) {
    for (text, rows) in HEADS {
        demand_none(&rt, text, &other_line(text, rows));
    }
}
