//! Steps over the keys and values of a document.
use crate::layout::bytes::{behind, first, is_control, line_end, skip_blank, skip_spaces};
use crate::layout::scalars::{hexadecimal, scalar_at};

/// How deep arrays and tables may lie in each other.
const MOST_OPEN: u32 = 64;

/// What lies open around a value.
#[derive(Clone, Copy, PartialEq, Eq)]
enum Around {
    Array,
    Table,
}

/// The arrays and tables that lie open around a value, the innermost in the lowest bit, which is 1 for a table.
#[derive(Clone, Copy)]
struct Open {
    bits: u64,
    depth: u32,
}

impl Open {
    fn pushed(self, around: Around) -> Option<Open> {
        if self.depth >= MOST_OPEN {
            return None;
        }
        Some(Open {
            bits: self.bits.wrapping_mul(2) | u64::from(around == Around::Table),
            depth: self.depth + 1,
        })
    }

    fn popped(self) -> Open {
        Open {
            bits: self.bits / 2,
            depth: self.depth.saturating_sub(1),
        }
    }

    fn innermost(self) -> Option<Around> {
        if self.depth == 0 {
            None
        } else if self.bits % 2 == 1 {
            Some(Around::Table)
        } else {
            Some(Around::Array)
        }
    }
}

/// Behind an escape, after its backslash; None where it is none.
fn behind_escape(bytes: &[u8]) -> Option<&[u8]> {
    let (kind, rest) = bytes.split_first()?;
    let count = match *kind {
        b'x' => 2,
        b'u' => 4,
        b'U' => 8,
        b'b' | b'e' | b'f' | b'n' | b'r' | b't' | b'"' | b'\\' => return Some(rest),
        _ => return None,
    };
    let number = hexadecimal(rest.get(..count)?)?;
    char::from_u32(u32::try_from(number).ok()?)?;
    rest.get(count..)
}

/// The same in a text over several lines, where a backslash at the end of a line leaves out what is blank behind it.
fn behind_long_escape(bytes: &[u8]) -> Option<&[u8]> {
    let line = skip_spaces(bytes);
    if line_end(line) > 0 {
        line.get(line_end(line)..)
    } else {
        behind_escape(bytes)
    }
}

/// Behind three quotes that end a text over several lines, with up to two more of its own before them.
fn behind_three(bytes: &[u8], quote: u8) -> Option<&[u8]> {
    let mut rest = bytes;
    for _ in 0..bytes.len() {
        let quotes = rest.iter().take(5).take_while(|b| **b == quote).count();
        if quotes >= 3 {
            return rest.get(quotes..);
        }
        rest = match rest {
            [b'\\', escape @ ..] if quote == b'"' => behind_long_escape(escape)?,
            _ => behind(rest),
        };
    }
    None
}

/// Behind the quote that ends a text on its line.
fn behind_one(bytes: &[u8], quote: u8) -> Option<&[u8]> {
    let mut rest = bytes;
    for _ in 0..bytes.len() {
        let byte = first(rest);
        if is_control(byte) {
            return None;
        }
        if byte == quote {
            return Some(behind(rest));
        }
        rest = match rest {
            [b'\\', escape @ ..] if quote == b'"' => behind_escape(escape)?,
            _ => behind(rest),
        };
    }
    None
}

/// Behind the text in quotes at the start.
fn behind_text(bytes: &[u8]) -> Option<&[u8]> {
    let quote = first(bytes);
    if quote != b'"' && quote != b'\'' {
        return None;
    }
    let rest = behind(bytes);
    if first(rest) == quote && first(behind(rest)) == quote {
        return behind_three(behind(behind(rest)), quote);
    }
    behind_one(rest, quote)
}

/// Behind a part of a key.
pub(crate) fn behind_part(bytes: &[u8]) -> Option<&[u8]> {
    if let Some(rest) = behind_text(bytes) {
        return Some(rest);
    }
    let count = bytes
        .iter()
        .take_while(|b| b.is_ascii_alphanumeric() || **b == b'_' || **b == b'-')
        .count();
    if count == 0 { None } else { bytes.get(count..) }
}

/// Behind a key, which may have several parts with dots between them.
pub(crate) fn behind_key(bytes: &[u8]) -> Option<&[u8]> {
    let mut rest = behind_part(bytes)?;
    for _ in 0..bytes.len() {
        let after = skip_spaces(rest);
        if first(after) != b'.' {
            return Some(rest);
        }
        rest = behind_part(skip_spaces(behind(after)))?;
    }
    None
}

/// Behind a key and its equals sign.
pub(crate) fn behind_equals(bytes: &[u8]) -> Option<&[u8]> {
    let rest = skip_spaces(behind_key(bytes)?);
    if first(rest) == b'=' {
        Some(skip_spaces(behind(rest)))
    } else {
        None
    }
}

/// What stands from the name of a table on, or of a list of tables, and what stands behind its brackets.
pub(crate) fn header_at(bytes: &[u8]) -> Option<(&[u8], &[u8])> {
    let inner = behind(bytes);
    let (is_list, name) = match inner.split_first() {
        Some((b'[', inside)) => (true, skip_spaces(inside)),
        _ => (false, skip_spaces(inner)),
    };
    let close = skip_spaces(behind_key(name)?);
    let close = close.strip_prefix(b"]")?;
    let rest = if is_list {
        close.strip_prefix(b"]")?
    } else {
        close
    };
    Some((name, rest))
}

/// Before the first value of an array or table that was opened, or behind the closing one that stands there at once,
/// with whether it does.
fn begun(bytes: &[u8], around: Around) -> Option<(&[u8], bool)> {
    let rest = skip_blank(bytes);
    match around {
        Around::Array if first(rest) == b']' => Some((behind(rest), true)),
        Around::Table if first(rest) == b'}' => Some((behind(rest), true)),
        Around::Array => Some((rest, false)),
        Around::Table => Some((behind_equals(rest)?, false)),
    }
}

/// Before the next value, behind a comma, or behind all that ends here, with what is open then.
fn ended(bytes: &[u8], open: Open) -> Option<(&[u8], Open, bool)> {
    let mut rest = bytes;
    let mut open = open;
    for _ in 0..=bytes.len() {
        let Some(around) = open.innermost() else {
            return Some((rest, open, true));
        };
        rest = skip_blank(rest);
        if first(rest) == b',' {
            let (next, is_closed) = begun(behind(rest), around)?;
            if !is_closed {
                return Some((next, open, false));
            }
            rest = next;
        } else {
            match around {
                Around::Array if first(rest) == b']' => rest = behind(rest),
                Around::Table if first(rest) == b'}' => rest = behind(rest),
                _ => return None,
            }
        }
        open = open.popped();
    }
    None
}

/// Behind a value.
pub(crate) fn behind_value(bytes: &[u8]) -> Option<&[u8]> {
    let mut rest = bytes;
    let mut open = Open { bits: 0, depth: 0 };
    for _ in 0..bytes.len() {
        let around = match first(rest) {
            b'[' => Some(Around::Array),
            b'{' => Some(Around::Table),
            _ => None,
        };
        let after = match around {
            Some(around) => {
                let (inner, is_closed) = begun(behind(rest), around)?;
                if !is_closed {
                    open = open.pushed(around)?;
                    rest = inner;
                    continue;
                }
                inner
            }
            None => match behind_text(rest) {
                Some(after) => after,
                None => scalar_at(rest)?.1,
            },
        };
        let (next, left, is_over) = ended(after, open)?;
        if is_over {
            return Some(next);
        }
        rest = next;
        open = left;
    }
    None
}
