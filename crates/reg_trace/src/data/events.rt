//! The events of the data, each with its note.
ghost use Rattle.reg_text.specs.Writing.{Puts};
ghost use Rattle.reg_trace.specs.Json.{lines_text};
ghost use Rattle.reg_trace.specs.Noted.{noted};
ghost use Rattle.reg_trace.specs.Parts.{moment_part};

use crate::data::json::put_comma;
use crate::data::notes::Notes;
use crate::data::parts::put_moment;
use crate::moments::Moment;
use reg_base::Names;
use reg_text::Sink;
use std::alloc::Allocator;
use std::io::Write;

/// Puts what each event did and its note, with a line for each.
pub fn put_events<A: Allocator + Copy, W: Write>(
    sink: &mut Sink<'_, W>,
    names: &Names<A>,
    moments: &[Moment<A>],
    notes: &Notes<A>,
)
    ensures { Puts W.contents sink.old sink.new
        (lines_text (moment_part names.now) (noted moments.now notes.now.notes)) }
{
    sink.put(b"[\n");
    for (place, moment) in moments.iter().enumerate() {
        put_comma(sink, place);
        put_moment(sink, names, moment, notes.note(place));
        sink.put(b"\n");
    }
    sink.put(b"]");
}
