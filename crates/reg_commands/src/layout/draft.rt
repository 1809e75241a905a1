//! Where the values of a document stand.
use crate::layout::bytes::{first, line_end, skip_blank, skip_spaces};
use crate::layout::values::{behind_equals, behind_key, behind_part, behind_value, header_at};

/// Where each value begins.
#[derive(Clone, Copy)]
pub(crate) struct Draft {
    pub(crate) front: Option<usize>,
    pub(crate) registers: Option<usize>,
    pub(crate) scripts: Option<usize>,
    pub(crate) seed: Option<usize>,
    pub(crate) loss: Option<usize>,
    pub(crate) repeat: Option<usize>,
    pub(crate) budget: Option<usize>,
    pub(crate) has_unknown: bool,
}

impl Draft {
    fn new() -> Draft {
        Draft {
            front: None,
            registers: None,
            scripts: None,
            seed: None,
            loss: None,
            repeat: None,
            budget: None,
            has_unknown: false,
        }
    }

    /// With this value at a key; None where the key has one.
    fn with(mut self, key: &[u8], at: usize) -> Option<Draft> {
        let was = if key == b"front".as_slice() {
            self.front.replace(at)
        } else if key == b"registers".as_slice() {
            self.registers.replace(at)
        } else if key == b"scripts".as_slice() {
            self.scripts.replace(at)
        } else if key == b"seed".as_slice() {
            self.seed.replace(at)
        } else if key == b"loss".as_slice() {
            self.loss.replace(at)
        } else if key == b"repeat".as_slice() {
            self.repeat.replace(at)
        } else if key == b"budget".as_slice() {
            self.budget.replace(at)
        } else {
            self.has_unknown = true;
            None
        };
        match was {
            Some(_) => None,
            None => Some(self),
        }
    }
}

/// What stands before the rest of a text.
fn before<'a>(text: &'a [u8], rest: &[u8]) -> &'a [u8] {
    text.get(..text.len().saturating_sub(rest.len()))
        .unwrap_or(&[])
}

/// A key without the quotes that may stand around it.
fn unquoted(key: &[u8]) -> &[u8] {
    match key {
        [b'"', inner @ .., b'"'] | [b'\'', inner @ .., b'\''] => inner,
        _ => key,
    }
}

/// With the value at a key of a document that begins here. Where the key has several parts, its value is a table, and
/// so nothing that a key of a workload has.
fn with_key(draft: Draft, text: &[u8], key: &[u8], value: &[u8]) -> Option<Draft> {
    let first = before(key, behind_part(key)?);
    let whole = before(key, behind_key(key)?);
    if first.len() == whole.len() {
        draft.with(unquoted(first), before(text, value).len())
    } else {
        draft.with(unquoted(first), text.len())
    }
}

/// The values of a document, None where the text is none.
pub(crate) fn draft_of(text: &[u8]) -> Option<Draft> {
    let mut draft = Draft::new();
    let mut is_in_table = false;
    let mut rest = skip_blank(text);
    for _ in 0..text.len() {
        if rest.is_empty() {
            return Some(draft);
        }
        let after = if first(rest) == b'[' {
            is_in_table = true;
            let (name, after) = header_at(rest)?;
            draft = with_key(draft, text, name, &[])?;
            after
        } else {
            let value = behind_equals(rest)?;
            if !is_in_table {
                draft = with_key(draft, text, rest, value)?;
            }
            behind_value(value)?
        };
        let line = skip_spaces(after);
        let is_over = line.is_empty() || first(line) == b'#' || line_end(line) > 0;
        if !is_over {
            return None;
        }
        rest = skip_blank(line);
    }
    if rest.is_empty() { Some(draft) } else { None }
}
