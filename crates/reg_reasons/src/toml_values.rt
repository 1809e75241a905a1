//! The keys and the values of a TOML document.
use crate::saying::MARK;
use crate::scanning::{Signs, after, front_of, run_of};
use crate::toml_steps::{
    Stop, behind_equals, behind_line, behind_part, behind_value, end_of_text, quotes_of,
    skip_blank, skip_spaces, starts_text,
};
use crate::toml_words::{integer_of, is_time, word_of};
use reg_text::skip;
use std::alloc::{AllocError, Allocator};
use toml_parser::ErrorKind;

/// The value of a key that names a table, and of one that names an array of tables.
const TABLE: &[u8] = b"{}";

const TABLES: &[u8] = b"[{}]";

/// A key of a document that stands in no table, with its value.
#[derive(Clone, Copy)]
pub struct Entry<'a> {
    /// What stands from its line on.
    line: &'a [u8],
    /// The place of its name.
    pub place: usize,
    pub name: &'a [u8],
    /// What stands from the value on.
    pub value: &'a [u8],
    /// Whether more parts of the key follow the first one, which is its name here.
    has_parts: bool,
    /// Whether it names a table for what stands in it: it has parts, or stands in a header.
    is_table: bool,
}

impl<'a> Entry<'a> {
    /// The key of a line of a text, with its value.
    fn at(text: &[u8], line: &'a [u8]) -> Entry<'a> {
        let brackets = run_of(line, Signs::Only(b'[')).min(2);
        let start = skip_spaces(after(line, brackets));
        let behind = behind_part(start).unwrap_or(b"");
        let has_parts = skip_spaces(behind).starts_with(b".");
        let value = match brackets {
            0 if !has_parts => behind_equals(line).unwrap_or(TABLE),
            2 if !has_parts => TABLES,
            _ => TABLE,
        };
        let quotes = usize::from(starts_text(start));
        let from = after(start, quotes);
        let length = from
            .len()
            .saturating_sub(behind.len().saturating_add(quotes));
        Entry {
            line,
            place: text.len().saturating_sub(from.len()),
            name: front_of(from, length),
            value,
            has_parts,
            is_table: has_parts || brackets > 0,
        }
    }

    /// What is wrong with it after these, where one of the same name stands among them.
    fn fault(&self, before: &[Entry<'_>]) -> Option<ErrorKind> {
        for known in before {
            if known.name == self.name && !(known.is_table && self.is_table) {
                let extends = self.has_parts && !known.is_table;
                return Some(if extends {
                    ErrorKind::Extend
                } else {
                    ErrorKind::DuplicateKey
                });
            }
        }
        None
    }
}

/// Puts the keys of a document that stand in no table, in their order. A header is one of them. They end at the first
/// place at which the text is no document but for its keys, and that is given.
pub fn read_entries<'a, A: Allocator + Copy>(
    entries: &mut Vec<Entry<'a>, A>,
    text: &'a [u8],
) -> Result<Option<Stop<'a>>, AllocError> {
    let mut rest = skip_blank(skip(text, MARK).unwrap_or(text));
    let mut is_in_table = false;
    for _ in 0..text.len() {
        if rest.is_empty() {
            break;
        }
        let behind = match behind_line(rest) {
            Ok(behind) => behind,
            Err(stop) => return Ok(Some(stop)),
        };
        let is_header = rest.starts_with(b"[");
        if is_header || !is_in_table {
            entries.push(Entry::at(text, rest))?;
        }
        is_in_table |= is_header;
        rest = skip_blank(behind);
    }
    Ok(None)
}

/// The first key that may not stand after those before it.
fn stop_at_key<'a>(entries: &[Entry<'a>]) -> Option<Stop<'a>> {
    for (count, entry) in entries.iter().enumerate() {
        if let Some((before, _)) = entries.split_at_checked(count)
            && let Some(kind) = entry.fault(before)
        {
            return Some((kind, entry.line));
        }
    }
    None
}

/// The first place at which a text is no document. Keys that stand twice in a table are passed over.
pub fn stop_of<A: Allocator + Copy>(alloc: A, text: &[u8]) -> Result<Option<Stop<'_>>, AllocError> {
    let mut entries = Vec::new(alloc);
    let stop = read_entries(&mut entries, text)?;
    Ok(stop_at_key(entries.as_slice()).or(stop))
}

/// What stands from each item of an array on, and nothing where a value is none.
pub fn items_of<A: Allocator + Copy>(alloc: A, value: &[u8]) -> Result<Vec<&[u8], A>, AllocError> {
    let mut items = Vec::new(alloc);
    let mut rest = skip_blank(skip(value, b"[").unwrap_or(b""));
    for _ in 0..value.len() {
        let Ok(behind) = behind_value(rest) else {
            break;
        };
        items.push(rest)?;
        let next = skip_blank(behind);
        rest = skip_blank(skip(next, b",").unwrap_or(next));
    }
    Ok(items)
}

/// What stands between the quotes of a value, and nothing of what is no text.
pub fn text_of(value: &[u8]) -> &[u8] {
    let quotes = quotes_of(value, true);
    let behind = match end_of_text(value, true) {
        Ok(end) if starts_text(value) => end.len().saturating_add(quotes),
        _ => return b"",
    };
    let inner = front_of(after(value, quotes), value.len().saturating_sub(behind));
    match inner {
        [b'\n', text @ ..] | [b'\r', b'\n', text @ ..] if quotes == 3 => text,
        _ => inner,
    }
}

/// The word for the kind of a value.
pub fn kind_of(value: &[u8]) -> &'static str {
    let word = word_of(value);
    match value {
        [b'"' | b'\'', ..] => "string",
        [b'[', ..] => "array",
        [b'{', ..] => "table",
        [b't' | b'f', ..] => "boolean",
        _ if is_time(word) => "datetime",
        _ if integer_of(word).is_none() => "float",
        _ => "integer",
    }
}
