//! Steps over the bytes of a text.

/// The first byte, 0 where there is none.
pub(crate) fn first(bytes: &[u8]) -> u8 {
    bytes.first().copied().unwrap_or(0)
}

/// What stands after the first byte.
pub(crate) fn behind(bytes: &[u8]) -> &[u8] {
    match bytes.split_first() {
        Some((_, rest)) => rest,
        None => bytes,
    }
}

/// After spaces and tabs.
pub(crate) fn skip_spaces(bytes: &[u8]) -> &[u8] {
    let count = bytes
        .iter()
        .take_while(|b| **b == b' ' || **b == b'\t')
        .count();
    bytes.get(count..).unwrap_or(&[])
}

/// After a comment, where one begins.
fn skip_comment(bytes: &[u8]) -> &[u8] {
    if first(bytes) != b'#' {
        return bytes;
    }
    let count = bytes.iter().take_while(|b| **b != b'\n').count();
    bytes.get(count..).unwrap_or(&[])
}

/// How many bytes of a line's end stand at the start: a line feed, alone or behind a carriage return.
pub(crate) fn line_end(bytes: &[u8]) -> usize {
    match bytes {
        [b'\n', ..] => 1,
        [b'\r', b'\n', ..] => 2,
        _ => 0,
    }
}

/// After spaces, line ends and comments.
pub(crate) fn skip_blank(bytes: &[u8]) -> &[u8] {
    let mut rest = bytes;
    for _ in 0..bytes.len() {
        let next = skip_comment(skip_spaces(rest));
        let after = next.get(line_end(next)..).unwrap_or(&[]);
        if after.len() == rest.len() {
            return rest;
        }
        rest = after;
    }
    rest
}

/// Whether it may not stand in a text on one line.
pub(crate) fn is_control(byte: u8) -> bool {
    byte.is_ascii_control() && byte != b'\t'
}

/// The text between these three quotes at the start, and what stands after it.
fn long_text_at<'a>(bytes: &'a [u8], quotes: &[u8]) -> Option<(&'a [u8], &'a [u8])> {
    let inner = bytes.strip_prefix(quotes)?;
    let count = inner.windows(3).position(|it| it == quotes)?;
    let text = inner.get(..count)?;
    let rest = inner.get(count..)?.strip_prefix(quotes)?;
    let text = text.get(line_end(text)..)?;
    if text.iter().any(|b| *b == b'\\') || first(rest) == first(quotes) {
        return None;
    }
    Some((text, rest))
}

/// The string at the start, and what stands after it. One with an escape isn't read.
pub(crate) fn text_at(bytes: &[u8]) -> Option<(&[u8], &[u8])> {
    let quote = first(bytes);
    if quote != b'"' && quote != b'\'' {
        return None;
    }
    if let Some(told) = long_text_at(bytes, b"\"\"\"") {
        return Some(told);
    }
    if let Some(told) = long_text_at(bytes, b"'''") {
        return Some(told);
    }
    let rest = behind(bytes);
    let count = rest.iter().position(|b| *b == quote)?;
    let text = rest.get(..count)?;
    if text.iter().any(|b| *b == b'\\' || is_control(*b)) {
        return None;
    }
    Some((text, behind(rest.get(count..)?)))
}

/// Behind an item of an array: after its comma, or before the bracket that closes the array.
pub(crate) fn behind_item(bytes: &[u8]) -> Option<&[u8]> {
    let rest = skip_blank(bytes);
    match first(rest) {
        b',' => Some(skip_blank(behind(rest))),
        b']' => Some(rest),
        _ => None,
    }
}
