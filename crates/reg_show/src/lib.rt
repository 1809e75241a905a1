//! Runs shown: the schedule of a play, what happened event by event, drawings, data and pages; the table of many plays,
//! and all outcomes; and an order of a report's history.
//!
//! Two things have no clause: that a command whose error stream fails has the same status, and that the table of a
//! workload alone is kept in the global heap.
#![tactic(auto)]

mod commands;
mod counting;
mod every;
mod faults;
mod finding;
mod forms;
mod one_outcome;
mod page_head;
mod page_tail;
mod paging;
mod players;
mod resting;
mod running;
mod scheduling;
mod seeding;
mod short_schedules;
mod shortening;
mod showing;
mod telling;
mod under;

pub use counting::ManyPlays;
pub use every::EveryOutcome;
pub use faults::ShowFault;
pub use finding::FindOrder;
pub use one_outcome::OneOutcome;
pub use page_head::PAGE_HEAD;
pub use page_tail::PAGE_TAIL;
pub use paging::send_data;
pub use players::Player;
pub use reg_outcomes::MOST_PLAYS;
pub use running::{ShowEither, show_run};
pub use scheduling::{FullSchedule, write_play_schedule};
pub use short_schedules::{MOST_SHORTENED, ShortSchedule};
pub use showing::{Form, SHORT_FORM, Showing, View};
pub use under::told_under;
