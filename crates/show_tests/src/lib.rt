//! Tests of the words of both command lines, of what is shown of a text, of the data of a run, of what is told of a
//! wrong text, and of records and histories judged, over public calls.
//!
//! They stand in a crate of their own since a crate with tests is proved twice.
#![tactic(auto)]

#[cfg(test)]
mod all_shown;
#[cfg(test)]
mod edn_judged;
#[cfg(test)]
mod given;
#[cfg(test)]
mod histories_judged;
#[cfg(test)]
mod layouts;
#[cfg(test)]
mod lines;
#[cfg(test)]
mod litmus;
#[cfg(test)]
mod logs_merged;
#[cfg(test)]
mod one_shown;
#[cfg(test)]
mod orders_shown;
#[cfg(test)]
mod play_words;
#[cfg(test)]
mod plays_counted;
#[cfg(test)]
mod records_judged;
#[cfg(test)]
mod records_merged;
#[cfg(test)]
mod reports_judged;
#[cfg(test)]
mod rests_shown;
#[cfg(test)]
mod run_data;
#[cfg(test)]
mod seeds_shown;
#[cfg(test)]
mod short_shown;
#[cfg(test)]
mod show_words;
#[cfg(test)]
mod shown;
#[cfg(test)]
mod stories;
#[cfg(test)]
mod story_texts;
#[cfg(test)]
mod streams;
pub mod values;
#[cfg(test)]
mod why;
#[cfg(test)]
mod why_events;
#[cfg(test)]
mod why_reports;
#[cfg(test)]
mod why_schedules;
#[cfg(test)]
mod why_workloads;
#[cfg(test)]
mod words;
