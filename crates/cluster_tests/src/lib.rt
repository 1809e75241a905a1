//! Tests of running clusters over their public calls, of `awreg live`, of the lines that tell its stops, and of the
//! names that each layer passes on. Each ends by itself, whatever the schedule.
//!
//! They stand in a crate of their own since a crate with tests is proved twice.
#![tactic(auto)]

#[cfg(test)]
mod doors;
#[cfg(test)]
mod live;
#[cfg(test)]
mod stop_lines;
pub mod values;
