//! Where a text stops being a document.
use crate::hints::put_hint;
use crate::lines_at::line_of_place;
use crate::saying::Notes;
use crate::toml_values::stop_of;
use std::alloc::{AllocError, Allocator, Global};
use toml::table_from_str;

/// Where one is in nested arrays.
#[derive(Clone, Copy)]
struct Nest {
    /// The byte that ends the string or the comment that one is in.
    until: Option<u8>,
    /// Whether the next byte of a string is escaped.
    is_escaped: bool,
    depth: usize,
}

impl Nest {
    /// After one more byte.
    fn after(self, byte: u8) -> Nest {
        let mut next = self;
        match (self.until, byte) {
            (Some(_), _) if self.is_escaped => next.is_escaped = false,
            (Some(b'"'), b'\\') => next.is_escaped = true,
            (Some(end), _) if byte == end => next.until = None,
            (Some(_), _) => {}
            (None, b'#') => next.until = Some(b'\n'),
            (None, b'"' | b'\'') => next.until = Some(byte),
            (None, b'[') => next.depth = self.depth.saturating_add(1),
            (None, b']') => next.depth = self.depth.saturating_sub(1),
            (None, _) => {}
        }
        next
    }
}

/// The place of the outermost array that is open before this place.
fn open_array(text: &[u8], end: usize) -> Option<usize> {
    let mut nest = Nest {
        until: None,
        is_escaped: false,
        depth: 0,
    };
    let mut opened = 0;
    for (place, byte) in text.iter().take(end).enumerate() {
        if nest.depth == 0 {
            opened = place;
        }
        nest = nest.after(*byte);
    }
    (nest.depth > 0).then_some(opened)
}

/// Puts the place at which a text is no document, and what is wrong there.
fn put_stop<A: Allocator + Copy>(
    notes: &mut Notes<'_, A>,
    text: &[u8],
    place: usize,
    message: &str,
) {
    notes.put_text_place(text, place);
    notes.put_all(&[message, "\n"]);
    if let Some(opened) = open_array(text, place) {
        let (line, _) = line_of_place(text, opened);
        notes.put_with("an array of line {} is still open here\n", &[line.number]);
    }
}

/// What finds the place at which a text is no document. (It is a trait, so that what is built for a page has no code
/// for the heap that a page lacks.)
pub trait Documents: Copy {
    /// Puts the place at which a text is no document, and what is wrong there.
    fn put_stop<A: Allocator + Copy>(
        self,
        notes: &mut Notes<'_, A>,
        text: &str,
    ) -> Result<(), AllocError>;
}

/// The kit's reader of documents, which keeps their tables in the global heap.
#[derive(Clone, Copy)]
pub(crate) struct Tables {
    pub(crate) global: Global,
}

impl Documents for Tables {
    fn put_stop<A: Allocator + Copy>(
        self,
        notes: &mut Notes<'_, A>,
        text: &str,
    ) -> Result<(), AllocError> {
        if let Err(error) = table_from_str(self.global, text) {
            let Some(span) = error.span() else {
                return Err(AllocError);
            };
            put_stop(notes, text.as_bytes(), span.start, error.message());
        }
        Ok(())
    }
}

/// Steps that keep no table, and need no heap but the one of what is told.
#[derive(Clone, Copy)]
pub(crate) struct Steps;

impl Documents for Steps {
    fn put_stop<A: Allocator + Copy>(
        self,
        notes: &mut Notes<'_, A>,
        text: &str,
    ) -> Result<(), AllocError> {
        let bytes = text.as_bytes();
        if let Some((kind, rest)) = stop_of(notes.alloc, bytes)? {
            let place = bytes.len().saturating_sub(rest.len());
            put_stop(notes, bytes, place, kind.description());
        }
        Ok(())
    }
}

/// Puts where a text is no document, and why.
pub fn explain_stop<D: Documents, A: Allocator + Copy>(
    notes: &mut Notes<'_, A>,
    documents: D,
    text: &str,
) -> Result<(), AllocError> {
    documents.put_stop(notes, text)?;
    put_hint(notes, text.as_bytes());
    Ok(())
}
