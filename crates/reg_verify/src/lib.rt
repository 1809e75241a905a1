//! The commands over what processes that ran apart wrote down. Of a record, one judges it, and prints the report of
//! the run that it is, or names the first line with which it is none; one puts its steps into an order that is a run,
//! and so it does with the logs of all processes of a chapter. Of the reports of chapters, one says whether they are
//! one story.
#![tactic(auto)]

mod faults;
mod gathering;
pub mod laws;
mod laying;
mod log_merging;
mod logs;
mod merging;
mod stories;
mod verifying;

pub use faults::VerifyFault;
pub use gathering::{HeadPart, LogsFault};
pub use log_merging::{merge_logs, merge_logs_text};
pub use merging::Merge;
pub use reg_node::{LogFault, Record, RecordFault, Recorded, parse_record};
pub use stories::{Breach, ChapterPart, Ruling, Story, judge_story, read_reports};
pub use verifying::{Verify, read_record_text, report_by_front};
