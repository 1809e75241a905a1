//! What scripts may answer: all outcomes of their interleavings on one memory, what none of them has, and a run of
//! each; the table of what many plays told; and orders of a history, found by a search.
#![tactic(auto)]

mod faults;
mod interleavings;
pub mod laws;
mod orders;
mod tables;
mod told;
mod turning;
mod values;

pub use faults::InterleavingFault;
pub use interleavings::{
    AllOutcomes, MOST_NEVERS, MOST_STAGES, Outcome, all_outcomes, are_playable, count_operations,
    few_outcomes, nevers_of, write_all,
};
pub use orders::{OrderKind, find_points, find_serial};
pub use tables::{MOST_COUNTED_STAGES, MOST_PLAYS, Outcomes, Row, Tally, play_many, write_table};
pub use told::{ToldAnswer, tell};
pub use turning::{TurnsFault, run_outcome};
