//! What is wrong with a text, or what an accepted one is. The first line of an answer is exact. What stands after it,
//! the place that doesn't fit and what was expected there, has no clause but that it is safe.
//!
//! Two things more have no clause: that a status is the same where the error stream fails, and that the table of a
//! workload alone is kept in the global heap.
#![tactic(auto)]

mod asking;
mod documents;
mod entries;
mod events;
mod explaining;
mod first_lines;
mod forms;
mod hints;
mod lent;
mod lines_at;
mod orders;
mod records;
mod refusals;
mod report_lines;
mod saying;
mod scanning;
mod steps;
mod stops;
mod toml_steps;
mod toml_values;
mod toml_words;
mod wanting;
mod word_lines;

pub use asking::{Explain, ExplainLent};
