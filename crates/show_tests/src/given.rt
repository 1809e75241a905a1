//! What is done with a text, and what is to be given for it.
use reg_commands::{OfDocument, run_command};
use reg_outcomes::OrderKind;
use reg_reasons::{Explain, ExplainLent};
use reg_show::{
    EveryOutcome, FindOrder, Form, FullSchedule, ManyPlays, OneOutcome, Player, ShortSchedule,
    ShowEither, Showing, View,
};
use reg_verify::{Merge, Story, Verify};
use std::alloc::Global;
use std::process::Abort;

/// What a command is to give: its status, its output, and the lines of its faults.
pub(crate) type Given<'a> = (u8, &'a str, &'a str);

/// A text, and what is to be given for it.
pub(crate) type Row = (&'static str, Given<'static>);

/// What is done with a text.
#[derive(Clone, Copy)]
pub(crate) enum Task {
    /// All outcomes of a workload are told.
    AllOutcomes,
    /// One play of a workload is counted.
    OnePlay,
    /// The schedule of a run with the outcome of this number, which isn't 0, is written.
    Outcome { number: u32 },
    /// The steps of a record are put into an order that is a run.
    Merge,
    /// An order of a report's history is found.
    Order { kind: OrderKind },
    /// The schedule of a workload's fair play is written.
    Schedule,
    /// The short schedule of a workload's fair play is written.
    ShortSchedule,
    /// A run is shown, of a workload's play all of it.
    Show { showing: Showing },
    /// A run is shown, of a workload's play its short form.
    ShowShort { showing: Showing },
    /// It is judged whether reports are one story.
    Story,
    /// A record is judged.
    Verify,
    /// It is told what is wrong with the text.
    Why,
    /// The same, where there is no heap but one.
    WhyLent,
}

/// The status of a task. No command has 255, which stands for an outcome of number 0.
fn run(alloc: Global, task: Task, text: &str, output: &mut Vec<u8>, errors: &mut Vec<u8>) -> u8 {
    let (global, mut input) = (alloc, text.as_bytes());
    let input = &mut input;
    let player = Player::Fair;
    match task {
        Task::AllOutcomes => {
            let command = EveryOutcome;
            run_command(OfDocument { command, global }, alloc, input, output, errors)
        }
        Task::OnePlay => {
            let (plays, seed) = (1, None);
            let command = ManyPlays { plays, seed };
            run_command(OfDocument { command, global }, alloc, input, output, errors)
        }
        Task::Outcome { number: 0 } => 255,
        Task::Outcome { number } => {
            let command = OneOutcome { number };
            run_command(OfDocument { command, global }, alloc, input, output, errors)
        }
        Task::Merge => run_command(Merge, alloc, input, output, errors),
        Task::Order { kind } => run_command(FindOrder { kind }, alloc, input, output, errors),
        Task::Schedule => {
            let command = FullSchedule { player };
            run_command(OfDocument { command, global }, alloc, input, output, errors)
        }
        Task::ShortSchedule => {
            let command = ShortSchedule { player };
            run_command(OfDocument { command, global }, alloc, input, output, errors)
        }
        Task::Show { showing } => {
            let form = Form::Whole;
            let view = View { showing, form };
            run_command(ShowEither { view, global }, alloc, input, output, errors)
        }
        Task::ShowShort { showing } => {
            let form = Form::Short;
            let view = View { showing, form };
            run_command(ShowEither { view, global }, alloc, input, output, errors)
        }
        Task::Story => run_command(Story, alloc, input, output, errors),
        Task::Verify => run_command(Verify, alloc, input, output, errors),
        Task::Why => run_command(Explain { global }, alloc, input, output, errors),
        Task::WhyLent => run_command(ExplainLent, alloc, input, output, errors),
    }
}

/// Whether this is given for a text.
pub(crate) fn tells(alloc: Global, task: Task, text: &str, given: Given<'_>) -> bool {
    let (status, wanted, faults) = given;
    let (mut output, mut errors) = (Vec::new(alloc), Vec::new(alloc));
    run(alloc, task, text, &mut output, &mut errors) == status
        && output.as_slice() == wanted.as_bytes()
        && errors.as_slice() == faults.as_bytes()
}

/// Demands what is to be given for each text.
pub(crate) fn demand(rt: &(impl Abort + AllocGlobal), task: Task, rows: &[Row]) {
    for (text, given) in rows {
        assert!(rt; tells(rt.alloc(), task, text, *given), "{text}");
    }
}

/// What a command wrote, as the answer of a trial. None where it told that it was out of memory, and wrote nothing.
pub(crate) fn answer_of(ample: Global, output: Vec<u8>, faults: &[u8]) -> Option<String> {
    if faults == "out of memory\n".as_bytes() && output.is_empty() {
        return None;
    }
    match String::from_utf8(output) {
        Ok(text) => Some(text),
        Err(_) => Some(String::new(ample)),
    }
}
