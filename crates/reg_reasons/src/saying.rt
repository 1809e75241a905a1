//! What doesn't fit, in plain words: the line with its number, a mark below the place, and what was wanted there.
use crate::lines_at::{Line, line_of_place};
use crate::scanning::{Signs, after, front_of, run_of, token_of};
use crate::wanting::{Mismatch, Range, Wanted};
use reg_text::{Sink, cut_at, is_numeral, put_number, skip, spaces_before};
use std::alloc::{AllocError, Allocator};
use strsim::generic_levenshtein;

/// A byte order mark.
pub const MARK: &[u8] = &[0xEF, 0xBB, 0xBF];

/// No word that is wanted is longer.
const LONGEST_WORD: usize = 16;

/// As many spaces as the greatest number has digits.
const MARGIN: &[u8] = &[b' '; 20];

/// Lines of more bytes are shown in part.
const LONGEST_SHOWN: usize = 96;

/// How much of a long line is shown before the place.
const SHOWN_BEFORE: usize = 60;

/// The most names that are listed.
const MOST_LISTED: usize = 10;

/// How signs are spoken of that are not shown.
const UNSHOWN: &[(&[u8], &str)] = &[
    (b"  ", "{} spaces"),
    (b" ", "a space"),
    (b"\t", "a tab"),
    (b"\r", "a carriage return"),
    (b"\xC2\xA0", "a no-break space"),
];

/// The printed signs at the start, as many as are shown.
fn shown_token(found: &[u8]) -> &[u8] {
    front_of(token_of(found), LONGEST_SHOWN)
}

/// The part of a line that is shown, and how many bytes stand before it.
fn shown_part(line: &[u8], at: usize) -> (&[u8], usize) {
    if line.len() <= LONGEST_SHOWN {
        return (line, 0);
    }
    let start = at.saturating_sub(SHOWN_BEFORE);
    let rest = after(line, start);
    let cut = run_of(rest, Signs::Later);
    let part = front_of(after(rest, cut), LONGEST_SHOWN);
    (part, start.saturating_add(cut))
}

/// What is shown of what stands at a place: the printed signs there, or one character that is not ASCII.
fn shown_sign(found: &[u8]) -> &[u8] {
    match found {
        [0xC2, 0xA0, ..] => b"",
        [0x80..=0xFF, more @ ..] => {
            front_of(found, run_of(more, Signs::Later).saturating_add(1))
        }
        _ => shown_token(found),
    }
}

/// What is told of what stands at a place, after what is shown of it; with the number of its spaces.
fn told_of(found: &[u8]) -> &'static str {
    for (signs, text) in UNSHOWN {
        if found.starts_with(signs) {
            return text;
        }
    }
    match found {
        [] => "the end of the line",
        [b'!'..=b'~', ..] => "",
        [0x80..=0xFF, ..] => ", which is not ASCII",
        _ => "a control character",
    }
}

/// What is told of a text. Where memory is refused, `finish` says so.
#[derive(Drop)]
pub struct Notes<'a, A: Allocator + Copy> {
    pub alloc: A,
    pub sink: Sink<'a, Vec<u8, A>>,
    has_memory: bool,
}

impl<'a, A: Allocator + Copy> Notes<'a, A> {
    /// Notes that come after these bytes.
    pub fn new(alloc: A, bytes: &'a mut Vec<u8, A>) -> Notes<'a, A> {
        Notes {
            alloc,
            sink: Sink::new(bytes),
            has_memory: true,
        }
    }

    /// Whether all was told.
    pub fn finish(&self) -> Result<(), AllocError> {
        if self.has_memory && self.sink.finish().is_ok() {
            Ok(())
        } else {
            Err(AllocError)
        }
    }

    pub fn put(&mut self, text: &str) {
        self.sink.put(text.as_bytes());
    }

    /// Puts texts, one after the other.
    pub fn put_all(&mut self, texts: &[&str]) {
        for text in texts {
            self.put(text);
        }
    }

    /// Puts a text with these numbers in the places of its `{}`.
    pub fn put_with(&mut self, text: &str, numbers: &[u64]) {
        let mut rest = text.as_bytes();
        for number in numbers {
            if let Some((before, later)) = cut_at(rest, b'{') {
                self.sink.put(before);
                put_number(&mut self.sink, "", *number);
                rest = after(later, 1);
            }
        }
        self.sink.put(rest);
    }

    /// Puts what was found in marks of quotation, and what is told of it.
    pub fn put_quoted(&mut self, found: &[u8], told: &str) {
        self.put("\"");
        self.sink.put(found);
        self.put("\"");
        self.put(told);
    }

    /// Puts a line with its number, and a mark below one of its places. For a control character but a tab a question
    /// mark is shown.
    pub fn put_place(&mut self, line: Line<'_>, at: usize) {
        let bare = line.bytes.strip_suffix(b"\r").unwrap_or(line.bytes);
        let shown = skip(bare, MARK).unwrap_or(bare);
        let place = at.saturating_sub(bare.len().saturating_sub(shown.len()));
        let (part, from) = shown_part(shown, place);
        self.put_with("{} | ", &[line.number]);
        for byte in part {
            let is_hidden = byte.is_ascii_control() && *byte != b'\t';
            self.sink.put(&[if is_hidden { b'?' } else { *byte }]);
        }
        self.put("\n");
        self.put_mark(line.number, front_of(part, place.saturating_sub(from)));
    }

    /// Puts a mark below a line of this number, after these of its bytes.
    fn put_mark(&mut self, number: u64, before: &[u8]) {
        let width = number.checked_ilog10().unwrap_or(0) as usize;
        self.sink.put(front_of(MARGIN, width.saturating_add(1)));
        self.put(" | ");
        for byte in before {
            if !Signs::Later.has(*byte) {
                self.put(if *byte == b'\t' { "\t" } else { " " });
            }
        }
        self.put("^\n");
    }

    /// Puts the line in which a place of a text stands.
    pub fn put_text_place(&mut self, text: &[u8], place: usize) {
        let (line, column) = line_of_place(text, place);
        self.put_place(line, column);
    }

    /// Puts words as a list: `a`, `a or b`, `a, b or c`.
    pub fn put_words(&mut self, words: &[&str]) {
        let mut left = words.len();
        for word in words {
            left = left.saturating_sub(1);
            let joint = match left {
                0 => "",
                1 => " or ",
                _ => ", ",
            };
            self.put_all(&[word, joint]);
        }
    }

    /// Puts what was expected, and what stands there.
    fn put_expected(&mut self, words: &str, found: &[u8]) {
        self.put_all(&["expected ", words]);
        self.put_found(found);
    }

    /// Puts what stands at a place, after what was expected there.
    fn put_found(&mut self, found: &[u8]) {
        let shown = shown_sign(found);
        self.put(", found ");
        if !shown.is_empty() {
            self.put_quoted(shown, "");
        }
        self.put_with(told_of(found), &[spaces_before(found) as u64]);
    }

    /// The word that is next to the one that was found: the same but for capital letters, or one or two edits away.
    pub fn near(&mut self, found: &[u8], words: &'static [&'static str]) -> Option<&'static str> {
        if found.is_empty() || found.len() > LONGEST_WORD {
            return None;
        }
        let mut best = None;
        let mut least = 3usize;
        for word in words {
            let edits = self.edits_between(found, word.as_bytes());
            if edits < least && edits < word.len() {
                best = Some(*word);
                least = edits;
            }
        }
        best
    }

    /// How many edits lead from what was found to a word, but for capital letters.
    fn edits_between(&mut self, found: &[u8], word: &[u8]) -> usize {
        if found.eq_ignore_ascii_case(word) {
            return 0;
        }
        match generic_levenshtein(self.alloc, found, word) {
            Ok(edits) => edits,
            Err(_) => {
                self.has_memory = false;
                0
            }
        }
    }

    /// Puts which words were expected, or the one that was meant.
    pub fn put_wanted_words(&mut self, words: &'static [&'static str], found: &[u8]) {
        let token = shown_token(found);
        if let Some(word) = self.near(token, words) {
            self.put_quoted(token, ": did you mean ");
            return self.put_all(&[word, "?"]);
        }
        self.put("expected ");
        self.put_words(words);
        self.put_found(found);
    }

    /// Puts why a number doesn't fit.
    fn put_wanted_number(&mut self, range: Range, found: &[u8]) {
        let token = shown_token(found);
        if is_numeral(token) {
            self.sink.put(token);
            self.put_out_of_range(range);
        } else if token.len() > 1 && run_of(token, Signs::Digit) == token.len() {
            self.put_quoted(token, ": a number doesn't begin with a needless 0");
        } else {
            let bounds = [range.least, range.most];
            self.put_with("expected a number from {} to {}", &bounds);
            self.put_found(found);
        }
    }

    /// Puts what a number is that is out of range, after it.
    pub fn put_out_of_range(&mut self, range: Range) {
        self.put_all(&[" is out of range: ", range.what, " ", range.verb]);
        self.put_with(" from {} to {}", &[range.least, range.most]);
    }

    /// Puts names as a list, or the first of them and how many more there are.
    fn put_names(&mut self, names: &[&[u8]]) {
        let mut joint = "";
        for name in names.get(..MOST_LISTED).unwrap_or(names) {
            self.put(joint);
            self.sink.put(name);
            joint = ", ";
        }
        let more = names.len().saturating_sub(MOST_LISTED);
        if more > 0 {
            self.put_with(" and {} more", &[more as u64]);
        }
    }

    /// Puts that no register has a name, and the names that they have.
    fn put_unknown_register(&mut self, token: &[u8], names: &[&[u8]]) {
        self.put("no register ");
        let is_one = names.len() == 1;
        let told = if is_one {
            ": the register is "
        } else {
            ": the registers are "
        };
        self.put_quoted(token, told);
        self.put_names(names);
    }

    /// Puts what was wanted and what was found.
    fn put_wanted(&mut self, names: &[&[u8]], wanted: Wanted, found: &[u8]) {
        let token = shown_token(found);
        match wanted {
            Wanted::Words(words) => self.put_wanted_words(words, found),
            Wanted::Number(range) => self.put_wanted_number(range, found),
            Wanted::Text(words) => self.put_expected(words, found),
            Wanted::Register => self.put_unknown_register(token, names),
            Wanted::Name(fault) => self.put_quoted(token, fault),
            Wanted::Fewer(most) => self.put_with("there are no more registers than {}", &[most]),
            Wanted::Told(what, told) => self.put_all(&[what, told]),
        }
    }

    /// Puts why a line doesn't fit, with its line feed.
    pub fn put_mismatch(&mut self, names: &[&[u8]], mismatch: Mismatch<'_>) {
        let found = mismatch.found;
        if found == b"\r".as_slice() {
            let words = "this line ends in a carriage return: save the text with line feeds alone";
            self.put(words);
        } else if mismatch.at == 0 && found.starts_with(MARK) {
            let words = "a byte order mark stands before the first line: save the text without one";
            self.put(words);
        } else {
            self.put_wanted(names, mismatch.wanted, found);
        }
        self.put("\n");
    }
}
