//! What is told of a run: what each event did, as text and as data; and its drawings.
#![tactic(auto)]

mod data;
mod drawing;
mod figures;
pub mod laws;
mod moments;
mod putters;
mod rooms;
mod told;
mod trace_text;
mod waits;
mod watching;

pub use data::{Data, Notes, read_notes, tell_data, tell_data_under, write_data};
pub use drawing::{Size, draw_told};
pub use figures::{Arrow, Bar, End, arrows, bars, is_taken};
pub use moments::{Delivery, Moment, Sent, process_of_event};
pub use rooms::{Filled, GAP};
pub use told::TracedRun;
pub use trace_text::{put_cast, put_frame, write_trace};
pub use watching::{Watched, watch, watch_run};
