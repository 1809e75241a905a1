//! What players and runs are given: workloads, read from TOML documents, and schedules, read and written as lists of
//! events.
#![tactic(auto)]

mod event_lines;
mod event_misfits;
mod faults;
mod head_lines;
mod keys;
mod misfits;
mod numbers;
mod schedule_text;
mod schedules;
mod scripts;
mod values;
mod workloads;

pub use event_lines::read_event;
pub use event_misfits::op_misfit;
pub use faults::WorkloadFault;
pub use head_lines::{read_front, read_processes};
pub use keys::Key;
pub use misfits::{Misfit, Rule, Wanted};
pub use schedule_text::{put_event, put_take, write_schedule};
pub use schedules::{Schedule, ScheduleFault, parse_schedule};
pub use workloads::{Workload, read_table};
