//! The program `awreg`: its command line, its commands over the standard streams, and the command that runs threads.
//! And what both programs have of command lines: subcommands, how a refused one is told, and how a program ends.
#![tactic(auto)]

mod exits;
mod faults;
mod performing;
mod program;
mod stop_lines;
mod stops;
mod subcommands;
mod telling;
mod texts;
mod words;

pub use exits::exit_code;
pub use faults::WordsFault;
pub use performing::run_live;
pub use program::{refuse, run_line, run_program, run_words};
pub use reg_commands::{Command, Fault};
pub use stops::Stop;
pub use subcommands::{has_dashes, met, with_fair};
pub use telling::{tell, words_of};
pub use texts::run_text;
pub use words::{Asked, choose};
