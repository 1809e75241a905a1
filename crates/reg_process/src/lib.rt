//! One process: what goes into it in an event, what comes out of it, and the step between them.
#![tactic(auto)]

mod awaited;
mod events;
mod faults;
mod known;
pub mod laws;
mod outcomes;
mod parts;
mod processes;
mod puts;
mod running;
mod sends;
mod spare;
mod steps;
mod stops;

pub use awaited::Awaited;
pub use events::Event;
pub use faults::ProcessFault;
pub use known::Known;
pub use outcomes::{Brief, Effect, Outcome};
pub use processes::Process;
pub use reg_base::Delivered;
pub use reg_frames::Put;
pub use sends::{Sends, Sent};
pub use steps::{Reply, Step};
pub use stops::is_stop;
