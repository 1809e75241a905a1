//! What is found out of histories: whether there is a point order, of the whole and of each register, by which answer
//! there is none, and whether there is a serial order.
mod answers;
mod command;
mod details;
mod faults;
mod firsts;
mod history_rows;
mod instead;
mod keys;
mod reported;
mod rows;
mod search;
mod seats;
mod serial;

pub use answers::{TextOrReport, write_text_or_report, yes_or_no};
pub use command::JudgeReport;
pub use details::{NOT_LOOKED_FOR, POSSIBLE, ruling_text, serial_text};
pub use faults::{RuleFault, RulingFault};
pub use instead::possible_all;
pub use keys::{Ruling, rule_all};
pub use reported::{Judgement, judge_report};
pub use rows::{Act, Row, Step};
pub use search::{Sought, seek};
pub use seats::{Naming, Unseated, history_of};
pub use serial::{Serial, seek_serial};
