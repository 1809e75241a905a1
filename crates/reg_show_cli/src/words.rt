//! The words of the command line.
use crate::topics::Topic;
use reg_commands::Command;
use reg_observed::JudgeFlags;
use reg_outcomes::OrderKind;
use reg_show::{Player, View};

/// What the words ask for.
#[derive(Clone, Copy, Debug, PartialEq, Eq)]
pub enum Asked<'a> {
    /// To answer the text on the input, as `awreg` does by this command.
    Text { command: Command },
    /// To show something of the text on the input.
    Show { view: View },
    /// To print the schedule of this player's play of the workload on the input.
    Schedule { player: Player },
    /// To print the schedule of the short form of this player's play of the workload on the input.
    ShortSchedule { player: Player },
    /// To count what this number of plays of the workload on the input tells, from this seed on, or else from its own.
    Outcomes { plays: u32, seed: Option<u64> },
    /// To print all outcomes that the scripts of the workload on the input can have.
    AllOutcomes,
    /// To print the schedule of a run with the outcome of this number, among all of the workload on the input.
    Outcome { number: u32 },
    /// To find an order of the history of the report on the input.
    Find { kind: OrderKind },
    /// To tell what is wrong with the text on the input.
    Why,
    /// To judge the record on the input.
    Verify,
    /// To put the steps of the record on the input into an order that is a run.
    Merge,
    /// To judge whether the reports on the input are one story.
    Story,
    /// To judge the history on the input.
    Judge { flags: JudgeFlags<'a> },
    /// How the program is used: one command, or all of it.
    Help { topic: Option<Topic> },
    /// Which version of the program this is.
    Version,
}

/// The program's version, and the kit that it was proved with.
pub const VERSION: &str = "awshow 0.1.0, proved with rattle-kit-13f\n";

/// What help begins with: how the program is used.
pub const HELP_BEGIN: &str = "\
Shows what processes that share registers do. Each command reads standard input: awshow COMMAND < FILE.

";

/// What help ends with.
pub const HELP_END: &str = "  \
awshow help                   prints this; so do -h and --help
  awshow help COMMAND           prints the lines of this command; so do COMMAND -h and COMMAND --help
  awshow --version              prints the version

The program awreg has replay, check, play and live; its commands read the same texts as these, from standard input too,
and live a workload.
";
