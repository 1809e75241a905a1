//! How operations start: the front ends and their laws.
#![tactic(auto)]

mod choosing;
mod ends;
pub mod laws;
mod named;
mod starts;

pub use ends::{FrontEnd, Linear, LocalRead, LocalWrite, RealTime};
pub use named::Front;
pub use starts::Start;
