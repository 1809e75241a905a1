//! The parts of a JSON text.
ghost use Rattle.std.specs.Prelude.{◌++◌, ℕ, List};
ghost use Rattle.reg_text.specs.Writing.{Puts};
ghost use Rattle.reg_trace.specs.Json.{comma_at, lines_text, list_text, numbers_text, quoted};

use reg_base::Names;
use reg_text::{Sink, put_number};
use std::alloc::Allocator;
use std::io::Write;

/// A value that is a part of the data, as text under the names of the registers.
pub trait Part {
    ghost part: { List (List ℕ) → Self → List ℕ };

    /// Puts its text.
    fn put<A: Allocator + Copy, W: Write>(&self, sink: &mut Sink<'_, W>, names: &Names<A>)
        ensures { Puts W.contents sink.old sink.new (part names.now self.now) };
}

/// Puts what stands before the part at this place of a list.
pub fn put_comma<W: Write>(sink: &mut Sink<'_, W>, place: usize)
    ensures { Puts W.contents sink.old sink.new (comma_at place) }
{
    if place > 0 {
        sink.put(b",");
    }
}

/// Puts a mark, and then a list.
pub fn put_list<T: Part, A: Allocator + Copy, W: Write>(
    sink: &mut Sink<'_, W>,
    mark: &str,
    names: &Names<A>,
    parts: &[T],
)
    ensures { Puts W.contents sink.old sink.new (mark.now ++ list_text (T.part names.now) parts.now) }
{
    sink.put(mark.as_bytes());
    sink.put(b"[");
    for (place, part) in parts.iter().enumerate() {
        put_comma(sink, place);
        part.put(sink, names);
    }
    sink.put(b"]");
}

/// Puts a mark, and then a list with a line for each part.
pub fn put_lines<T: Part, A: Allocator + Copy, W: Write>(
    sink: &mut Sink<'_, W>,
    mark: &str,
    names: &Names<A>,
    parts: &[T],
)
    ensures { Puts W.contents sink.old sink.new (mark.now ++ lines_text (T.part names.now) parts.now) }
{
    sink.put(mark.as_bytes());
    sink.put(b"[\n");
    for (place, part) in parts.iter().enumerate() {
        put_comma(sink, place);
        part.put(sink, names);
        sink.put(b"\n");
    }
    sink.put(b"]");
}

/// Puts a list of numbers.
pub fn put_numbers<W: Write>(sink: &mut Sink<'_, W>, numbers: &[u64])
    ensures { Puts W.contents sink.old sink.new (numbers_text numbers.now) }
{
    sink.put(b"[");
    for (place, number) in numbers.iter().enumerate() {
        put_comma(sink, place);
        put_number(sink, "", *number);
    }
    sink.put(b"]");
}

/// Puts a text in quotes.
pub fn put_quoted<W: Write>(sink: &mut Sink<'_, W>, text: &str)
    ensures { Puts W.contents sink.old sink.new (quoted text.now) }
{
    sink.put(b"\"");
    sink.put(text.as_bytes());
    sink.put(b"\"");
}
