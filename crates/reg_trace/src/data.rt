//! The data of a run, as JSON: what each event did and its note, the states after it, and the orders of the whole run.
mod comments;
mod contents;
mod events;
mod json;
mod looks;
mod notes;
mod parts;
mod rows;
mod strings;
mod telling;
mod text;
mod watching;

pub use contents::Data;
pub use notes::{Notes, read_notes};
pub use telling::{tell_data, tell_data_under};
pub use text::write_data;
