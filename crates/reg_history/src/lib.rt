//! Histories, the two checkers of their orders, and reports: a history with its order and its points, read from a text
//! and written as one.
#![tactic(auto)]

mod blocks;
mod column_forms;
mod entry_lines;
mod id_lines;
mod items;
pub mod laws;
mod name_lines;
mod parts;
mod report_faults;
mod report_limits;
mod reports;
mod versions;
mod write;

pub use reg_checkers::{
    CheckFault, Entry, History, HistoryFault, Point, check_points, check_serial,
};
pub use report_faults::{ReadFault, ReadWhy, ReportFault, WriteFault};
pub use report_limits::{LONGEST_FRONT, MOST_ENTRIES, MOST_IDS, OLDER_PROCESSES, OLDER_REGISTERS};
pub use reports::{Report, read_report, write_report};
