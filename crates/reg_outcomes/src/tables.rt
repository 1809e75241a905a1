//! The table of what many plays told.
pub(crate) mod plays;
pub(crate) mod rows;
pub(crate) mod tallies;
pub(crate) mod text;
pub(crate) mod timing;
pub(crate) mod undrawn;

pub use plays::{MOST_PLAYS, Outcomes, play_many};
pub use rows::Row;
pub use tallies::Tally;
pub use text::write_table;
pub use undrawn::MOST_COUNTED_STAGES;
