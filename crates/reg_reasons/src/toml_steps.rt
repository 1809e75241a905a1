//! The steps over a TOML document, from one place to what stands behind it. The first place at which a text is none
//! ends them, with what the kit's reader tells there. No table is kept.
use crate::scanning::{Signs, after, front_of, run_of};
use crate::toml_words::{fault_of_word, magnitude, word_of};
use toml_parser::bytes::{is_non_eol, is_ws};
use toml_parser::{ErrorKind, RECURSION_LIMIT};

/// What is wrong at a place, and what stands from there on.
pub type Stop<'a> = (ErrorKind, &'a [u8]);

/// After spaces and tabs.
pub fn skip_spaces(bytes: &[u8]) -> &[u8] {
    after(bytes, run_of(bytes, Signs::Blank))
}

/// Whether a line ends here.
fn starts_line_end(bytes: &[u8]) -> bool {
    matches!(bytes, [b'\n', ..] | [b'\r', b'\n', ..])
}

/// After spaces and line ends, and after comments if they may stand there.
fn skip_between(bytes: &[u8], has_comments: bool) -> &[u8] {
    let mut is_comment = false;
    for (place, byte) in bytes.iter().enumerate() {
        if starts_line_end(after(bytes, place)) {
            is_comment = false;
        } else if has_comments && !is_comment && *byte == b'#' {
            is_comment = true;
        } else if !(is_comment && is_non_eol(*byte)) && !is_ws(*byte) {
            return after(bytes, place);
        }
    }
    b""
}

/// After spaces, line ends and comments.
pub fn skip_blank(bytes: &[u8]) -> &[u8] {
    skip_between(bytes, true)
}

/// Whether these digits say a character.
fn is_character(digits: &[u8]) -> bool {
    let number = magnitude(digits, 16).unwrap_or(u64::MAX);
    match u32::try_from(number) {
        Ok(code) => !digits.contains(&b'_') && char::from_u32(code).is_some(),
        Err(_) => false,
    }
}

/// What stands behind an escape, after its backslash.
fn behind_escape(bytes: &[u8], is_long: bool) -> Result<&[u8], Stop<'_>> {
    if is_long && starts_line_end(skip_spaces(bytes)) {
        return Ok(skip_between(bytes, false));
    }
    let count = match bytes {
        [b'x', ..] => 2,
        [b'u', ..] => 4,
        [b'U', ..] => 8,
        [b'b' | b'e' | b'f' | b'n' | b'r' | b't' | b'"' | b'\\', ..] => 0,
        _ => return Err((ErrorKind::Escape, bytes)),
    };
    let digits = front_of(after(bytes, 1), count);
    if digits.len() < count || !is_character(digits) {
        return Err((ErrorKind::Escape, bytes));
    }
    Ok(after(bytes, count.saturating_add(1)))
}

/// Whether a quote or an apostrophe stands at the start.
pub fn starts_text(bytes: &[u8]) -> bool {
    matches!(bytes, [b'"' | b'\'', ..])
}

/// How many quotes stand on each side of the text at the start, which may be three where it is a value.
pub fn quotes_of(bytes: &[u8], is_value: bool) -> usize {
    if is_value && (bytes.starts_with(b"\"\"\"") || bytes.starts_with(b"'''")) {
        3
    } else {
        1
    }
}

/// From the quotes that end the text at the start on.
pub fn end_of_text(bytes: &[u8], is_value: bool) -> Result<&[u8], Stop<'_>> {
    let quote = bytes.first().copied().unwrap_or(b'"');
    let quotes = quotes_of(bytes, is_value);
    let is_long = quotes == 3;
    let mut rest = after(bytes, quotes);
    for _ in 0..bytes.len() {
        let run = run_of(rest, Signs::Only(quote));
        if run == quotes || run > 0 && !is_long {
            return Ok(rest);
        }
        rest = match rest {
            [b'\\', escape @ ..] if quote == b'"' => behind_escape(escape, is_long)?,
            [byte, more @ ..] if run < 6 && is_non_eol(*byte) => more,
            [_, more @ ..] if is_long && starts_line_end(rest) => more,
            _ => return Err((ErrorKind::String, rest)),
        };
    }
    Err((ErrorKind::String, rest))
}

/// What stands behind the part of a key at the start.
pub fn behind_part(bytes: &[u8]) -> Result<&[u8], Stop<'_>> {
    if starts_text(bytes) {
        return Ok(after(end_of_text(bytes, false)?, 1));
    }
    match run_of(bytes, Signs::Bare) {
        0 => Err((ErrorKind::Key, bytes)),
        length => Ok(after(bytes, length)),
    }
}

/// What stands behind a key and the spaces after it.
fn behind_key(bytes: &[u8]) -> Result<&[u8], Stop<'_>> {
    let mut rest = bytes;
    for _ in 0..RECURSION_LIMIT {
        match skip_spaces(behind_part(rest)?) {
            [b'.', part @ ..] => rest = skip_spaces(part),
            next => return Ok(next),
        }
    }
    Err((ErrorKind::Recursion, bytes))
}

/// What stands behind a key and its equals sign.
pub fn behind_equals(bytes: &[u8]) -> Result<&[u8], Stop<'_>> {
    match behind_key(bytes)? {
        [b'=', value @ ..] => Ok(skip_spaces(value)),
        rest => Err((ErrorKind::MissingEquals, rest)),
    }
}

/// What stands behind a value that is no array and no table.
fn behind_atom(bytes: &[u8]) -> Result<&[u8], Stop<'_>> {
    if starts_text(bytes) {
        return Ok(after(end_of_text(bytes, true)?, quotes_of(bytes, true)));
    }
    let word = word_of(bytes);
    match fault_of_word(word) {
        Some(kind) => Err((kind, bytes)),
        None => Ok(after(bytes, word.len())),
    }
}

/// The arrays and tables that lie open around a place: how many, and for each a bit, which is 1 for a table, the lowest
/// for the innermost.
#[derive(Clone, Copy)]
struct Open {
    depth: usize,
    tables: u128,
}

impl Open {
    fn pushed(self, is_table: bool) -> Open {
        Open {
            depth: self.depth.saturating_add(1),
            tables: self.tables.wrapping_mul(2) | u128::from(is_table),
        }
    }

    fn popped(self) -> Open {
        Open {
            depth: self.depth.saturating_sub(1),
            tables: self.tables / 2,
        }
    }

    fn is_table(self) -> bool {
        self.tables % 2 == 1
    }

    /// Whether the innermost one ends here.
    fn ends(self, bytes: &[u8]) -> bool {
        bytes.starts_with(if self.is_table() { b"}" } else { b"]" })
    }

    /// Before the next value, or behind the bracket that ends the innermost one; with whether that is so.
    fn next(self, bytes: &[u8]) -> Result<(&[u8], bool), Stop<'_>> {
        let rest = skip_blank(bytes);
        if self.ends(rest) {
            Ok((after(rest, 1), true))
        } else if self.is_table() {
            Ok((behind_equals(rest)?, false))
        } else {
            Ok((rest, false))
        }
    }

    /// What stands behind a value and its comma, or before the bracket that ends the innermost one.
    fn behind_item(self, bytes: &[u8]) -> Result<&[u8], Stop<'_>> {
        let rest = skip_blank(bytes);
        match rest {
            [b',', more @ ..] => Ok(more),
            _ if self.ends(rest) => Ok(rest),
            _ if self.is_table() => Err((ErrorKind::InlineTable, rest)),
            _ => Err((ErrorKind::Array, rest)),
        }
    }
}

/// What stands behind a value.
pub fn behind_value(bytes: &[u8]) -> Result<&[u8], Stop<'_>> {
    let mut open = Open {
        depth: 0,
        tables: 0,
    };
    let mut rest = bytes;
    let mut is_ended = false;
    // Each byte is the bracket of one array or table, or one of a value.
    for _ in 0..bytes.len().saturating_mul(2).saturating_add(1) {
        if is_ended && open.depth == 0 {
            return Ok(rest);
        }
        if is_ended {
            (rest, is_ended) = open.next(open.behind_item(rest)?)?;
        } else if matches!(rest, [b'[' | b'{', ..]) {
            if open.depth == RECURSION_LIMIT {
                return Err((ErrorKind::Recursion, rest));
            }
            open = open.pushed(rest.starts_with(b"{"));
            (rest, is_ended) = open.next(after(rest, 1))?;
        } else {
            rest = behind_atom(rest)?;
            is_ended = true;
            continue;
        }
        if is_ended {
            open = open.popped();
        }
    }
    Ok(rest)
}

/// What stands behind the key of a header and its first bracket.
fn behind_header(bytes: &[u8]) -> Result<&[u8], Stop<'_>> {
    match behind_key(skip_spaces(bytes))? {
        [b']', rest @ ..] => Ok(rest),
        rest => Err((ErrorKind::UnclosedTable, rest)),
    }
}

/// What stands behind what a line says.
pub fn behind_line(bytes: &[u8]) -> Result<&[u8], Stop<'_>> {
    let behind = match bytes {
        [b'[', b'[', name @ ..] => match behind_header(name)? {
            [b']', rest @ ..] => rest,
            rest => return Err((ErrorKind::UnclosedArrayTable, rest)),
        },
        [b'[', name @ ..] => behind_header(name)?,
        _ => behind_value(behind_equals(bytes)?)?,
    };
    match skip_spaces(behind) {
        [] | [b'#' | b'\n' | b'\r', ..] => Ok(behind),
        end => Err((ErrorKind::EndOfLine, end)),
    }
}
