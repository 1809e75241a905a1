//! A text, line by line.
ghost use Rattle.std.specs.Prelude.{◌≡◌, [], ◌∷◌, MatchOption, IfNone, IfSome, ◌<◌, ◌+◌, length, true, false};
ghost use Rattle.reg_text.specs.Lines.{lines_of, kept, is_kept as is_kept_of, IsAsked};
ghost use Rattle.reg_text.specs.Reading.{IsFound};

use crate::faults::{TextFault, Why};
use crate::feeds::line_feed;
use std::marker::Model;

/// The first line of a text, with no line feed, and the rest.
// (in line: it runs once for each line, and often does less than a call costs)
#[inline(always)]
fn cut_line(text: &[u8]) -> Option<(&[u8], &[u8])>
    ensures lines { MatchOption result (lines_of text.now ≡ []) (λ p. lines_of text.now ≡ p.0.now ∷ lines_of p.1.now) }
    ensures shorter { IfSome result (λ p. length p.1.now < length text.now) }
{
    if text.is_empty() {
        return None;
    }
    let place = line_feed(text);
    if place < text.len() {
        Some((&text[..place], &text[place + 1..]))
    } else {
        Some((text, b"".as_slice()))
    }
}

fn is_kept(line: &[u8]) -> bool
    ensures { result ≡ is_kept_of line.now }
{
    match line {
        [] => false,
        [first, ..] => *first != b'#',
    }
}

/// The first line that is kept, and the rest. The number grows by the lines passed.
#[inline]
fn next_kept<'a>(text: &'a [u8], number: &mut u64) -> Option<(&'a [u8], &'a [u8])>
    ensures lines { MatchOption result (kept (lines_of text.now) ≡ [])
        (λ p. kept (lines_of text.now) ≡ p.0.now ∷ kept (lines_of p.1.now)) }
    ensures number { number.old + length (lines_of text.now) < u64.MAX
        → MatchOption result (number.new ≡ number.old + length (lines_of text.now) + 1)
        (λ p. IsFound p.0.now (lines_of text.now) (lines_of p.1.now) number.old number.new) }
{
    let mut rest = text;
    while let Some((line, after)) = cut_line(rest) {
        *number = number.saturating_add(1);
        if is_kept(line) {
            return Some((line, after));
        }
        rest = after;
    }
    *number = number.saturating_add(1);
    None
}

/// A cursor over the lines of a text: the lines to come, and the number of the one that was asked for last. A line ends
/// at a line feed, and the last one there or at the end of the text.
#[derive(Drop)]
pub struct Lines<'a> {
    rest: &'a [u8],
    number: u64,
    skips: bool,
}

impl<'a> Model for Lines<'a> {
    ghost use Rattle.reg_text.specs.Lines.{lines_of, shown, Rest};

    ghost Value = { Rest };

    ghost view = { λ l.
        record {
          left = shown l.skips (lines_of l.rest.now);
          all = lines_of l.rest.now;
          number = l.number;
          skips = l.skips;
        } };
}

impl<'a> Lines<'a> {
    /// A cursor over all lines of the text, of which none was asked for.
    pub fn new(text: &'a [u8]) -> Lines<'a>
        ensures lines { (result.left ≡ lines_of text.now) × (result.all ≡ lines_of text.now) }
        ensures number { (result.number ≡ 0) × (result.skips ≡ false) }
    {
        Lines {
            rest: text,
            number: 0,
            skips: false,
        }
    }

    /// A cursor over the lines of the text that are neither empty nor begin with `#`. The others are skipped, but
    /// counted. None was asked for.
    pub fn skipping(text: &'a [u8]) -> Lines<'a>
        ensures lines { (result.left ≡ kept (lines_of text.now)) × (result.all ≡ lines_of text.now) }
        ensures number { (result.number ≡ 0) × (result.skips ≡ true) }
    {
        Lines {
            rest: text,
            number: 0,
            skips: true,
        }
    }

    /// The number of the line that was asked for last, the first being 1. It is 0 where none was.
    pub fn number(&self) -> u64
        ensures { result ≡ self.now.number }
    {
        self.number
    }

    /// A fault of the line that was asked for last.
    pub fn fault(&self, why: Why) -> TextFault
        ensures { result ≡ TextFault.Line self.now.number why }
    {
        TextFault::Line {
            line: self.number,
            why,
        }
    }

    /// The next line, with no line feed, and None at the end. The end, asked for once, has the number after the last
    /// line's.
    #[inline]
    pub fn next(&mut self) -> Option<&'a [u8]>
        ensures line { MatchOption result (self.old.left ≡ []) (λ line. self.old.left ≡ line.now ∷ self.new.left) }
        ensures end { IfNone result ((self.new.left ≡ []) × (self.new.all ≡ [])) }
        ensures asked { IsAsked self.old self.new }
    {
        let mut number = self.number;
        let found = if self.skips {
            next_kept(self.rest, &mut number)
        } else {
            number = number.saturating_add(1);
            cut_line(self.rest)
        };
        self.number = number;
        match found {
            Some((line, after)) => {
                self.rest = after;
                Some(line)
            }
            None => {
                self.rest = b"".as_slice();
                None
            }
        }
    }
}
