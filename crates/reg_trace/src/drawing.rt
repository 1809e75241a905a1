//! Drawings of runs.
mod description;
mod layout;
mod legend;
mod pictures;
mod shapes;
mod sheet;
mod sizes;
mod words;

pub use pictures::draw_told;
pub use sizes::Size;
