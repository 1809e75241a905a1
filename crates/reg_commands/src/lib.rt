//! The commands over any reader and writer, and what they tell: answers, verdicts, and faults with their lines. And the
//! one layout of a workload, which is read and written where there is no global heap.
//!
//! Two things have no clause: that a command whose error stream fails has the same status, and that the table of a
//! workload alone is kept in the global heap.
#![tactic(auto)]

mod checking;
mod command;
mod fault_lines;
mod faults;
mod input;
mod kinds;
mod layout;
mod lent;
mod output;
mod playing;
mod refusal;
mod replaying;
mod reporting;
mod running;
mod shell;
mod verdicts;
mod works;

pub use checking::{check, read_report_text};
pub use command::Command;
pub use fault_lines::put_fault_text;
pub use faults::Fault;
pub use input::read_input;
pub use kinds::{Kind, command_of, kind_of};
pub use layout::{guess_workload, lay_out, read_layout};
pub use lent::{Lengths, Response, fill, tell};
pub use output::write_answer;
pub use playing::{play_by, play_workload, read_workload};
pub use refusal::Refusal;
pub use replaying::{Ran, read_schedule, replay, run_events};
pub use reporting::{report_run, write_out};
pub use running::OverText;
pub use shell::{TextCommand, run_command};
pub use verdicts::{
    Reason, Verdict, Verdicts, all_yes, judge, put_points, put_serial, write_verdicts,
};
pub use works::{OfDocument, WorkCommand};
