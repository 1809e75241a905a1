//! The notes of a schedule's text.
ghost use Rattle.std.specs.Prelude.{◌≡◌, [], IfOk, get_or};
ghost use Rattle.reg_base.specs.Names.{texts};
ghost use Rattle.reg_text.specs.Lines.{lines_of};
ghost use Rattle.reg_trace.specs.Notes.{no_notes, notes_above, notes_of, titled};

use crate::data::comments::{add_comment, comment, cut_line, is_kept};
use std::alloc::{AllocError, Allocator, Global};
use std::marker::Model;

/// How many lines stand before the events of a schedule: the processes, the registers and the front end.
const HEAD_LINES: usize = 3;

/// What the comments of a schedule say: its title, and a note for each event.
#[derive(Drop)]
pub struct Notes<A: Allocator + Copy = Global> {
    /// A note for each line that is kept, also for those of the head.
    above: Vec<String<A>, A>,
}

impl<A: Allocator + Copy> Model for Notes<A> {
    ghost use Rattle.reg_base.specs.Names.{texts};
    ghost use Rattle.reg_trace.specs.Notes.{Notes as AnyNotes, notes_from};

    ghost Value = { AnyNotes };

    ghost view = { λ n. notes_from (texts n.above.items) };
}

/// The note above each line that is kept.
fn read_above<A: Allocator + Copy>(alloc: A, text: &str) -> Result<Vec<String<A>, A>, AllocError>
    ensures { IfOk result (λ v. texts v.items ≡ notes_above (lines_of text.now)) }
{
    let mut above = Vec::new(alloc);
    let mut note = String::new(alloc);
    let mut rest = text;
    while let Some((line, after)) = cut_line(rest) {
        if is_kept(line) {
            above.push(note)?;
            note = String::new(alloc);
        } else {
            add_comment(&mut note, comment(line))?;
        }
        rest = after;
    }
    Ok(above)
}

/// What the comments of a schedule's text say.
///
/// # Errors
///
/// Memory is refused.
pub fn read_notes<A: Allocator + Copy>(alloc: A, text: &str) -> Result<Notes<A>, AllocError>
    ensures { IfOk result (λ n. n ≡ notes_of text.now) }
{
    Ok(Notes {
        above: read_above(alloc, text)?,
    })
}

/// The note at this place, or an empty one.
fn note_at<A: Allocator + Copy>(above: &[String<A>], place: usize) -> &str
    ensures { result.now ≡ get_or (texts above.now) place [] }
{
    match above.get(place) {
        Some(note) => note.as_str(),
        None => "",
    }
}

impl<A: Allocator + Copy> Notes<A> {
    /// No title, and no note of any event.
    pub fn none(alloc: A) -> Notes<A>
        ensures { result ≡ no_notes }
    {
        Notes {
            above: Vec::new(alloc),
        }
    }

    /// This title, and no note of any event.
    ///
    /// # Errors
    ///
    /// Memory is refused.
    pub fn titled(alloc: A, title: &str) -> Result<Notes<A>, AllocError>
        ensures { IfOk result (λ n. n ≡ titled title.now) }
    {
        let mut first = String::new(alloc);
        first.push_str(title)?;
        let mut above = Vec::new(alloc);
        above.push(first)?;
        Ok(Notes { above })
    }

    /// The title: what the comments above the head say, or an empty text.
    pub fn title(&self) -> &str
        ensures { result.now ≡ self.now.title }
    {
        note_at(self.above.as_slice(), 0)
    }

    /// The note of an event: what the comments directly above it say, or an empty text.
    pub fn note(&self, event: usize) -> &str
        ensures { result.now ≡ get_or self.now.notes event [] }
    {
        match event.checked_add(HEAD_LINES) {
            Some(place) => note_at(self.above.as_slice(), place),
            None => "",
        }
    }
}
