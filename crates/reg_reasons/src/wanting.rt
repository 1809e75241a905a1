//! What is wanted at a place of a line.

/// What a number of a line is.
#[derive(Clone, Copy)]
pub enum Quantity {
    Process,
    /// A process of a report, which has fewer than a number in one byte can tell.
    ReportProcess,
    Operation,
    Event,
    Frame,
    Value,
    ProcessCount,
    RegisterCount,
    EntryCount,
    IdCount,
}

/// A number that is wanted.
#[derive(Clone, Copy)]
pub struct Range {
    /// What the number is, as `a process`.
    pub what: &'static str,
    /// What joins that and the bounds, as in `a process is a number from 0 to 255`.
    pub verb: &'static str,
    pub least: u64,
    pub most: u64,
}

/// The parts of a line, or of what stands after a word.
pub type Form = &'static [Step];

/// A part of a line.
#[derive(Clone, Copy)]
pub enum Step {
    /// One of these words. Where forms are given, that of its place among them goes on.
    Word {
        words: &'static [&'static str],
        forms: &'static [Form],
    },
    /// One space, with no second one after it.
    Space,
    /// These signs, of which `words` speaks.
    Signs {
        signs: &'static [u8],
        words: &'static str,
    },
    Number(Quantity),
    /// The spaces before a number that ends a column of 8 places.
    Right,
    /// A number that begins a column of `places` places, of which `words` speaks.
    Left {
        places: usize,
        words: &'static str,
        what: Quantity,
    },
    /// The name of a front end.
    FrontEnd,
    /// A register that the text has named.
    Register,
    /// The name of a register.
    Name,
    /// The names of registers, with a space before each, and the end of the line.
    Names,
    /// The end of the line.
    End,
    /// The end of the line of a read.
    NoValue,
}

/// By what the lines of a text are judged.
#[derive(Clone, Copy)]
pub struct Rules<'a> {
    /// The names of its registers.
    pub names: &'a [&'a [u8]],
    /// Whether it is a report of version 1.
    pub is_older: bool,
    /// Whether numbers and names are looked at too, and not the form alone.
    pub is_strict: bool,
}

/// What is wanted at a place of a line.
#[derive(Clone, Copy)]
pub enum Wanted {
    /// One of these words.
    Words(&'static [&'static str]),
    /// What these words say.
    Text(&'static str),
    Number(Range),
    /// A register that the text has named, in the place of this one.
    Register,
    /// The name of a register. What is told of the one that stands there, which is misspelt or taken.
    Name(&'static str),
    /// No more names than this.
    Fewer(u64),
    /// What these two texts say, of which the first may say what the other is told of.
    Told(&'static str, &'static str),
}

/// What is told of a name that is none.
pub const NAME_FORM: &str = ": a register's name is 1 to 16 letters a to z";

/// What is told of a name that another register has.
pub const NAME_TAKEN: &str = " stands before: each register has a name of its own";

/// The first place of a line that doesn't fit: how many bytes stand before it, what stands there, and what was wanted.
#[derive(Clone, Copy)]
pub struct Mismatch<'a> {
    pub at: usize,
    pub found: &'a [u8],
    pub wanted: Wanted,
}
