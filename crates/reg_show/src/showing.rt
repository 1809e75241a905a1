//! What can be shown.

/// What the program is asked to show of the text on its input.
#[derive(Clone, Copy, Debug, PartialEq, Eq)]
pub enum Showing {
    /// What happens in the run of a schedule, event by event.
    Trace,
    /// The space-time diagram of the run of a schedule.
    Draw,
    /// The same, large enough for a projector.
    DrawLarge,
    /// The run of a schedule as data.
    Data,
    /// The run of a schedule as a page that one steps through.
    Page,
    /// The schedule with the ticks and takes after it that bring its run to rest.
    Rest,
}

/// How much of a workload's play is shown.
#[derive(Clone, Copy, Debug, PartialEq, Eq)]
pub enum Form {
    /// All of its events.
    Whole,
    /// Its events up to the last answer without those that no answer needs, which the title then says; all of them
    /// where there are too many to be shortened.
    Short,
}

/// What is shown of a text, and of a workload's play in which form.
#[derive(Clone, Copy, Debug, PartialEq, Eq)]
pub struct View {
    pub showing: Showing,
    pub form: Form,
}

/// The title of what is shown of a play in its short form.
pub const SHORT_FORM: &str = "short form of a play: events that no answer needs are left out";
