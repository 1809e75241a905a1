//! Tests of the parts, from shapes to reports and workloads, and of whole runs, by worlds, players and commands, over
//! their public calls: values and runs worked by hand, refusals, limits, and memory refused at each growth.
//!
//! They stand in a crate of their own since a crate with tests is proved twice.
#![tactic(auto)]

#[cfg(test)]
mod answers;
#[cfg(test)]
mod checks;
#[cfg(test)]
mod commands;
#[cfg(test)]
mod compared_rows;
#[cfg(test)]
mod demands;
#[cfg(test)]
mod examples;
#[cfg(test)]
mod fault_lines;
#[cfg(test)]
mod growths;
#[cfg(test)]
mod growths_of_texts;
#[cfg(test)]
mod histories;
#[cfg(test)]
mod interleavings;
#[cfg(test)]
mod large_shapes;
#[cfg(test)]
mod limits;
#[cfg(test)]
mod local_rows;
#[cfg(test)]
mod lossy_plays;
#[cfg(test)]
mod macros;
#[cfg(test)]
mod merges;
pub mod mixed;
#[cfg(test)]
mod mixed_runs;
#[cfg(test)]
mod nevers;
#[cfg(test)]
mod orders_found;
#[cfg(test)]
mod orders_lagging;
#[cfg(test)]
mod overtaking;
#[cfg(test)]
mod parts;
#[cfg(test)]
mod play_reports;
#[cfg(test)]
mod plays;
#[cfg(test)]
mod replay_reports;
#[cfg(test)]
mod replay_rows;
#[cfg(test)]
mod replays;
#[cfg(test)]
mod report_texts;
#[cfg(test)]
mod resting;
#[cfg(test)]
mod schedules;
#[cfg(test)]
mod seeded;
#[cfg(test)]
mod sources;
#[cfg(test)]
mod streams;
pub mod values;
#[cfg(test)]
mod world_rows;
#[cfg(test)]
mod worlds;
