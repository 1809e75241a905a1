//! Single lines of a text.
use reg_text::{Lines, cut_at};
use std::alloc::{AllocError, Allocator};

/// A line of a text, with no line feed, and its number, the first being 1.
#[derive(Clone, Copy)]
pub struct Line<'a> {
    pub number: u64,
    pub bytes: &'a [u8],
}

/// The line at a place, from 0, of these.
fn nth(mut lines: Lines<'_>, place: u64) -> Option<Line<'_>> {
    for _ in 0..place {
        lines.next()?;
    }
    let bytes = lines.next()?;
    Some(Line {
        number: lines.number(),
        bytes,
    })
}

/// The bytes of a line, and none where it isn't there.
pub fn bytes_of(line: Option<Line<'_>>) -> &[u8] {
    line.map_or(b"", |line| line.bytes)
}

/// The line of this number.
pub fn line_at(text: &[u8], number: u64) -> Option<Line<'_>> {
    nth(Lines::new(text), number.checked_sub(1)?)
}

/// The line at a place, from 0, of those that are neither empty nor begin with `#`.
pub fn kept_at(text: &[u8], place: usize) -> Option<Line<'_>> {
    nth(Lines::skipping(text), place as u64)
}

/// How many lines before the one of this number are neither empty nor begin with `#`.
pub fn kept_before(text: &[u8], number: u64) -> usize {
    let mut lines = Lines::skipping(text);
    for count in 0..text.len() {
        if lines.next().is_none() || lines.number() >= number {
            return count;
        }
    }
    text.len()
}

/// What stands behind so many parts, each with a byte of this kind after it.
pub fn behind_parts(bytes: &[u8], joint: u8, count: usize) -> &[u8] {
    let mut rest = bytes;
    for _ in 0..count {
        rest = match cut_at(rest, joint) {
            Some((_, later)) => later,
            None => b"",
        };
    }
    rest
}

/// Where the word at a place, from 0, begins on a line with one space between each two; its end where it has fewer.
pub fn word_at(line: &[u8], place: usize) -> usize {
    let rest = behind_parts(line, b' ', place);
    line.len().saturating_sub(rest.len())
}

/// The line in which a place of a text stands, and the place there.
pub fn line_of_place(text: &[u8], place: usize) -> (Line<'_>, usize) {
    let mut column = place.min(text.len());
    let mut number = 1u64;
    let mut rest = text;
    for _ in 0..text.len() {
        let (bytes, later) = cut_at(rest, b'\n').unwrap_or((rest, b""));
        if column <= bytes.len() {
            return (Line { number, bytes }, column);
        }
        column = column.saturating_sub(bytes.len()).saturating_sub(1);
        number = number.saturating_add(1);
        rest = later;
    }
    (
        Line {
            number,
            bytes: rest,
        },
        column,
    )
}

/// What stands between bytes of this kind, and of these parts no more than `most`.
pub fn parts_between<A: Allocator + Copy>(
    alloc: A,
    bytes: &[u8],
    joint: u8,
    most: usize,
) -> Result<Vec<&[u8], A>, AllocError> {
    let mut parts = Vec::new(alloc);
    let mut rest = bytes;
    for _ in 0..most {
        if rest.is_empty() {
            break;
        }
        let (part, later) = cut_at(rest, joint).unwrap_or((rest, b""));
        parts.push(part)?;
        rest = later;
    }
    Ok(parts)
}
