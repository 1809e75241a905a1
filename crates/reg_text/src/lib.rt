//! What the texts of the project share: a cursor over lines, numerals, columns, names, and operations as text.
//!
//! Each reader has two clauses: `read` says that what it read is spelled so, and `whole` that all that is spelled so
//! is read, with its value. So what a reader takes has one meaning, and is the only spelling of it.
#![tactic(auto)]

mod cursor;
mod faults;
mod feeds;
mod fields;
mod forms;
mod heads;
mod numbers;
mod ops;
mod words;
mod writing;

pub use cursor::Lines;
pub use faults::{TextFault, Why};
pub use fields::{cut, cut_at, left_field, numeral, right_field, skip, spaces_before};
pub use forms::{form, in_front, is_numeral, is_word, op_form, why_number, within};
pub use heads::{are_front_letters, expect_line, owned, read_count};
pub use numbers::{field_within, numeral_within};
pub use ops::{OpLine, name_at, name_of_op, put_answer, put_op, read_op};
pub use words::read_names;
pub use writing::{Sink, Unwritten, put_number, write_bytes};
