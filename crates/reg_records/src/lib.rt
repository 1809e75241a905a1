//! What processes that run apart write down: the check that it is a run, and one order of it that is a run, where there
//! is any. Bringing a world to rest, and laws of whole runs. No thread is needed.
#![tactic(auto)]

mod entries;
mod faults;
mod finding;
mod going;
mod hints;
pub mod laws;
mod merging;
pub mod overtaking;
mod placing;
mod playing;
mod resting;
mod tallies;
mod telling;
mod verifying;

pub use entries::{LogEntry, Receipt};
pub use faults::{CloseFault, SettleFault};
pub use finding::{event_of, hinted_event};
pub use hints::Hints;
pub use merging::{Left, MergeFault, Merged, merge};
pub use playing::{make_event, play};
pub use resting::settle;
pub use tallies::{bump, entry_at, no_counts};
pub use verifying::{verify, verify_in};
