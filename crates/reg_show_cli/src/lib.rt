//! The words of the command line of `awshow`, and the program: what is shown of a text, over the standard streams.
#![tactic(auto)]

mod asking;
mod flags;
mod program;
mod topics;
mod words;

pub use asking::{LAST_OUTCOME, ask};
pub use flags::USUAL_PLAYS;
pub use program::{refuse, run_line, run_program, run_words};
pub use reg_cli::WordsFault;
pub use reg_commands::Command;
pub use reg_observed::JudgeFlags;
pub use reg_show::{Form, Player, Showing, View};
pub use topics::Topic;
pub use words::Asked;
