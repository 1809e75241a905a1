//! The commands.

/// What the program is asked to do with the text on its input.
#[derive(Clone, Copy, Debug, PartialEq, Eq)]
pub enum Command {
    /// Runs a schedule and prints the report of the run.
    Replay,
    /// Judges a report from its text alone.
    Check,
    /// Plays a workload and prints the report of what happened.
    Play {
        /// Whether the play is the fair one. Else the words of the workload's seed make its choices.
        fair: bool,
    },
}
