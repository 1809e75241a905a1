//! A line, part by part, up to the first place that doesn't fit. It judges nothing: the readers have refused the line,
//! and it says where.
use crate::lines_at::behind_parts;
use crate::wanting::{Form, Mismatch, NAME_FORM, NAME_TAKEN, Quantity, Rules, Step, Wanted};
use reg_base::is_name;
use reg_history::LONGEST_FRONT;
use reg_text::{are_front_letters, in_front, is_numeral, numeral_within, skip, spaces_before};
use std::str;
use toml_parser::bytes::{is_bare, is_word, is_ws};

/// No line has more parts that take no byte of it.
const MOST_EMPTY: usize = 8;

/// How many places the number of an event has.
const EVENT_PLACES: usize = 8;

const MISSING: &str = " is missing";

/// The first bytes, or all where there are fewer.
pub fn front_of(bytes: &[u8], count: usize) -> &[u8] {
    bytes.get(..count).unwrap_or(bytes)
}

/// What stands after the first bytes.
pub fn after(bytes: &[u8], count: usize) -> &[u8] {
    bytes.get(count..).unwrap_or(b"")
}

/// A kind of signs.
#[derive(Clone, Copy)]
pub enum Signs {
    /// What is printed, but for spaces.
    Graphic,
    /// The bytes after the first of a character that is not ASCII.
    Later,
    Digit,
    /// Digits, and the underscores between them.
    NumberPart,
    /// Spaces and tabs.
    Blank,
    /// Those of the keys of documents.
    Bare,
    /// Those of the numbers, dates and other words of documents.
    Word,
    Only(u8),
}

impl Signs {
    pub fn has(self, byte: u8) -> bool {
        match self {
            Signs::Graphic => byte.is_ascii_graphic(),
            Signs::Later => byte & 0xC0 == 0x80,
            Signs::Digit => byte.is_ascii_digit(),
            Signs::NumberPart => byte.is_ascii_digit() || byte == b'_',
            Signs::Blank => is_ws(byte),
            Signs::Bare => is_bare(byte),
            Signs::Word => is_word(byte),
            Signs::Only(sign) => byte == sign,
        }
    }
}

/// How many of these signs stand at the start.
pub fn run_of(bytes: &[u8], signs: Signs) -> usize {
    let mut count = 0usize;
    for byte in bytes {
        if !signs.has(*byte) {
            break;
        }
        count = count.saturating_add(1);
    }
    count
}

/// The printed signs at the start, up to the first space, control character or byte past ASCII.
pub fn token_of(bytes: &[u8]) -> &[u8] {
    front_of(bytes, run_of(bytes, Signs::Graphic))
}

/// The place of a word among these.
pub fn place_of(words: &[&str], word: &[u8]) -> Option<usize> {
    for (place, it) in words.iter().enumerate() {
        if it.as_bytes() == word {
            return Some(place);
        }
    }
    None
}

/// Whether a name is one of these.
fn is_among(names: &[&[u8]], token: &[u8]) -> bool {
    for name in names {
        if *name == token {
            return true;
        }
    }
    false
}

/// Whether the bytes are a register's name.
pub fn is_register(bytes: &[u8]) -> bool {
    match str::from_utf8(bytes) {
        Ok(name) => is_name(name),
        Err(_) => false,
    }
}

/// Whether a number ends the first column, of 8 places.
fn has_right_number(bytes: &[u8]) -> bool {
    let column = front_of(bytes, EVENT_PLACES);
    column.len() == EVENT_PLACES && is_numeral(after(column, spaces_before(column)))
}

/// Whether a number begins the first column, of `places` places.
fn has_left_number(bytes: &[u8], places: usize) -> bool {
    let column = front_of(bytes, places);
    column.len() == places && is_numeral(in_front(column))
}

/// A line, and what of it is not scanned yet.
#[derive(Clone, Copy)]
struct Scan<'a> {
    line: &'a [u8],
    rest: &'a [u8],
    rules: Rules<'a>,
}

impl<'a> Scan<'a> {
    /// What stands before on the line.
    fn before(&self) -> &'a [u8] {
        front_of(self.line, self.line.len().saturating_sub(self.rest.len()))
    }

    /// Whether as many names as there may be stand before on the line: a space stands before each of them, and before
    /// the next one.
    fn is_full(&self) -> bool {
        let mut spaces = 0u64;
        for byte in self.before() {
            if *byte == b' ' {
                spaces = spaces.saturating_add(1);
            }
        }
        spaces > self.rules.most_names()
    }

    fn is_number(&self, token: &[u8], what: Quantity) -> bool {
        if !self.rules.is_strict {
            return is_numeral(token);
        }
        let range = self.rules.range(what);
        match numeral_within(token, range.most) {
            Some(number) => number >= range.least,
            None => false,
        }
    }

    /// Whether a name is well spelled, and none of the names that stand before on the line, after its first word.
    fn is_new_name(&self, token: &[u8]) -> bool {
        if !self.rules.is_strict {
            return true;
        }
        let mut rest = self.before();
        for _ in 0..rest.len() {
            rest = behind_parts(rest, b' ', 1);
            if token_of(rest) == token {
                return false;
            }
            if rest.is_empty() {
                break;
            }
        }
        is_register(token)
    }

    /// Whether a word, a number or a name fits a part.
    fn fits(&self, token: &[u8], step: Step) -> bool {
        match step {
            Step::Word { words, .. } => place_of(words, token).is_some(),
            Step::Number(what) => self.is_number(token, what),
            Step::FrontEnd => token.len() <= LONGEST_FRONT && are_front_letters(token),
            Step::Register => !self.rules.is_strict || is_among(self.rules.names, token),
            Step::Name => self.is_new_name(token),
            Step::Names => self.is_new_name(token) && !self.is_full(),
            _ => false,
        }
    }

    /// How many bytes a part takes, where it fits.
    fn taken(&self, step: Step) -> Option<usize> {
        let rest = self.rest;
        let token = token_of(rest);
        let (fits, count) = match step {
            Step::Space => (spaces_before(rest) == 1, 1),
            Step::Signs { signs, .. } => (rest.starts_with(signs), signs.len()),
            Step::Right => (has_right_number(rest), spaces_before(rest)),
            Step::Left { places, what, .. } => {
                let fits = !self.rules.is_strict || self.is_number(token, what);
                (fits && has_left_number(rest, places), places)
            }
            Step::End | Step::NoValue => (rest.is_empty(), 0),
            _ => (!token.is_empty() && self.fits(token, step), token.len()),
        };
        fits.then_some(count)
    }

    /// What is wanted in the place of a part that doesn't fit.
    fn wanted(&self, step: Step) -> Wanted {
        let rest = self.rest;
        let token = token_of(rest);
        match step {
            Step::Word { words, .. } => Wanted::Words(words),
            Step::Space => Wanted::Text("one space"),
            Step::Signs { words, .. } => Wanted::Text(words),
            Step::Number(what) => Wanted::Number(self.rules.range(what)),
            Step::Right => Wanted::Text("an event at the right of 8 places"),
            Step::Left { places, what, .. } if has_left_number(rest, places) => {
                Wanted::Number(self.rules.range(what))
            }
            Step::Left { words, .. } => Wanted::Text(words),
            Step::FrontEnd => Wanted::Text("1 to 16 letters a to z and hyphens"),
            Step::Names if self.is_full() => Wanted::Fewer(self.rules.most_names()),
            Step::Register if token.is_empty() => Wanted::Text("a register"),
            Step::Register => Wanted::Register,
            Step::Name | Step::Names if token.is_empty() => Wanted::Text("a name"),
            Step::Name | Step::Names if is_register(token) => Wanted::Name(NAME_TAKEN),
            Step::Name | Step::Names => Wanted::Name(NAME_FORM),
            Step::NoValue if starts_value(rest) => Wanted::Told("a read takes no value", ""),
            Step::NoValue | Step::End if starts_comment(rest) => {
                Wanted::Told("a comment stands on a line of its own", "")
            }
            Step::NoValue | Step::End => Wanted::Text("the end of the line"),
        }
    }

    /// What doesn't fit of this part, before these others. What is too much after one space is marked, and not the
    /// space.
    fn mismatch(&self, step: Step, later: Form) -> Mismatch<'a> {
        let rest = self.rest;
        let (wanted, is_after_space) = match step {
            Step::Space if rest.is_empty() => (self.missing(later), false),
            Step::Space => (self.wanted(step), spaces_before(rest) > 1),
            Step::NoValue => (self.wanted(step), starts_value(rest)),
            _ => (self.wanted(step), false),
        };
        let before = self.before().len();
        Mismatch {
            at: before.saturating_add(usize::from(is_after_space)),
            found: rest,
            wanted,
        }
    }

    /// What is missing where the line ends in the place of a space and these parts.
    fn missing(&self, later: Form) -> Wanted {
        match later.first().copied() {
            Some(Step::Number(what)) => Wanted::Told(self.rules.range(what).what, MISSING),
            Some(Step::Register) => Wanted::Told("a register", MISSING),
            Some(Step::Names) => Wanted::Told("a name", MISSING),
            Some(Step::Word { words, .. }) => Wanted::Words(words),
            _ => Wanted::Text("one space"),
        }
    }
}

/// Whether a comment begins here, after spaces or none.
fn starts_comment(bytes: &[u8]) -> bool {
    after(bytes, spaces_before(bytes)).starts_with(b"#")
}

/// Whether one space and a number stand at the start.
fn starts_value(bytes: &[u8]) -> bool {
    match skip(bytes, b" ") {
        Some(value) => is_numeral(token_of(value)),
        None => false,
    }
}

/// The first place of a line that doesn't fit a form.
pub fn mismatch_of<'a>(line: &'a [u8], form: Form, rules: Rules<'a>) -> Option<Mismatch<'a>> {
    let mut scan = Scan {
        line,
        rest: line,
        rules,
    };
    let mut steps = form;
    for _ in 0..line.len().saturating_add(MOST_EMPTY) {
        let [step, later @ ..] = steps else {
            return None;
        };
        let Some(count) = scan.taken(*step) else {
            return Some(scan.mismatch(*step, later));
        };
        steps = match *step {
            Step::Word { words, forms } => {
                let place = place_of(words, token_of(scan.rest)).unwrap_or(0);
                forms.get(place).copied().unwrap_or(later)
            }
            // After a name, the parts after the first word of the line go on again.
            Step::Names if count < scan.rest.len() => form.get(1..).unwrap_or(later),
            _ => later,
        };
        scan.rest = after(scan.rest, count);
    }
    None
}
