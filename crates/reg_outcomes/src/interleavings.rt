//! All that interleavings of scripts on one memory may answer, and what none of them answers.
pub(crate) mod few;
pub(crate) mod layers;
pub(crate) mod nevers;
pub(crate) mod outcomes;
pub(crate) mod scripts;
pub(crate) mod stages;
pub(crate) mod text;

pub use few::few_outcomes;
pub use layers::count_operations;
pub use nevers::{MOST_NEVERS, nevers_of};
pub use outcomes::{AllOutcomes, MOST_STAGES, Outcome, all_outcomes};
pub use scripts::are_playable;
pub use text::write_all;
