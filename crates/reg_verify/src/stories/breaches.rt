//! What is said of reports in a row.
use reg_base::Op;
use reg_commands::Reason;

/// What the chapters of a story have in common, in the order in which it is compared.
#[derive(Clone, Copy, Debug, PartialEq, Eq)]
pub enum ChapterPart {
    Front,
    /// How many processes there are.
    Processes,
    /// The names of the registers.
    Registers,
}

/// What is wrong with a report, so that reports in a row are no story.
#[derive(Clone, Copy)]
pub enum Breach {
    /// Its order is none that `check` accepts.
    Order { reason: Reason },
    /// Its order is, and its points aren't.
    Points { reason: Reason },
    /// It has another such part than the one before it.
    Other { part: ChapterPart },
    /// Process 0 didn't make this write as its operation with this number, with which the chapter before ended.
    Write { number: u32, op: Op },
    /// It did, but that operation doesn't stand at this place of the order, from 0.
    Place { number: u32 },
}

/// What is said of reports in a row.
#[derive(Clone, Copy)]
pub enum Ruling {
    /// They are one story, of so many chapters.
    Story { chapters: u64 },
    /// They are none: this report, counted from 0, is the first with which they go wrong.
    Broken { chapter: u64, breach: Breach },
}
