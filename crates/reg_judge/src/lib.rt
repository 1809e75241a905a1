//! Histories judged: a point order, or the first answer that none explains; of the whole and of each register; whether
//! there is a serial order; and the command that finds it out of a report.
#![tactic(auto)]

mod acts;
mod bits;
mod calls;
mod found;
mod judge;
pub mod laws;
mod order;
mod possible;
mod rulings;
mod search;
mod stages;
mod trail;

pub use judge::{MOST_STAGES, PointsFault, judge_points};
pub use possible::possible_answers;
pub use rulings::{
    Act, JudgeReport, Judgement, NOT_LOOKED_FOR, Naming, POSSIBLE, Row, RuleFault, Ruling,
    RulingFault, Serial, Sought, Step, TextOrReport, Unseated, history_of, judge_report,
    possible_all, rule_all, ruling_text, seek, seek_serial, serial_text, write_text_or_report,
    yes_or_no,
};
