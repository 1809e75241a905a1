//! Histories as clients of any system write them down, the history of registers that each stands for, and the command
//! that judges it.
#![tactic(auto)]

mod answers;
mod command;
mod details;
mod edn;
mod edn_bytes;
mod edn_entries;
mod edn_says;
mod edn_words;
mod events;
mod faults;
mod first_values;
mod flags;
mod heard;
mod histories;
mod json_lines;
mod judging;
pub mod laws;
mod reading;
mod reports;
mod rows;
mod told;
mod turns;
mod words;

pub use command::{CommandFault, judge_text};
pub use edn::read_edn;
pub use edn_entries::MOST_OPEN;
pub use events::{Event, Moment};
pub use faults::{JudgeFault, ReadFault, Why};
pub use flags::JudgeFlags;
pub use heard::{Heard, Vocabulary};
pub use judging::{Verdict, judge};
pub use reading::{read_history, read_json_lines};
pub use words::Words;
