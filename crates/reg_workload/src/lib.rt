//! Plays of workloads: runs in which each process calls the operations of its script. Workloads and schedules are
//! passed on from below.
#![tactic(auto)]

mod choices;
mod fair;
mod playing;
mod plays;
mod seeded;
mod seeds;

pub use playing::Play;
pub use plays::{play_fair, play_fair_in, play_seeded, play_seeded_in};
pub use reg_base::Words;
pub use reg_inputs::{
    Key, Schedule, ScheduleFault, Workload, WorkloadFault, parse_schedule, read_table,
};
pub use reg_text::Why;
pub use seeds::SeedWords;
