//! The text of the data.
ghost use Rattle.std.specs.Prelude.{◌++◌};
ghost use Rattle.reg_text.specs.Writing.{Puts, IsWritten};
ghost use Rattle.reg_trace.specs.Data.{data_text, head_text, order_text, points_part, run_text};
ghost use Rattle.reg_trace.specs.Json.{list_text, quoted};
ghost use Rattle.std.specs.Prelude.{option_map};

use crate::data::contents::Data;
use crate::data::events::put_events;
use crate::data::json::{put_comma, put_lines, put_quoted};
use crate::data::strings::put_string;
use reg_base::Names;
use reg_checkers::Point;
use reg_text::{Sink, Unwritten, name_at, put_number};
use std::alloc::Allocator;
use std::io::Write;

/// Puts the names of the registers.
fn put_names<A: Allocator + Copy, W: Write>(sink: &mut Sink<'_, W>, names: &Names<A>)
    ensures { Puts W.contents sink.old sink.new (list_text quoted names.now) }
{
    sink.put(b"[");
    for place in 0..names.count() {
        put_comma(sink, place);
        put_quoted(sink, name_at(names, place as u16));
    }
    sink.put(b"]");
}

/// Puts the points, where there are any.
fn put_points<A: Allocator + Copy, W: Write>(
    sink: &mut Sink<'_, W>,
    names: &Names<A>,
    points: &Option<Vec<Point, A>>,
)
    ensures { Puts W.contents sink.old sink.new (points_part names.now (option_map (λ v. v.items) points.now)) }
{
    match points {
        Some(points) => put_lines(sink, "", names, points.as_slice()),
        None => sink.put(b"null"),
    }
}

/// Puts the title, the processes, the names and the front end.
fn put_head<A: Allocator + Copy, W: Write>(sink: &mut Sink<'_, W>, run: &Data<A>)
    ensures { Puts W.contents sink.old sink.new (head_text run.now) }
{
    sink.put(b"{\"version\":1,\n\"title\":");
    put_string(sink, run.notes.title());
    put_number(sink, ",\n\"processes\":", run.processes as u64);
    sink.put(b",\n\"registers\":");
    put_names(sink, &run.names);
    sink.put(b",\n\"front\":");
    put_quoted(sink, run.front.name());
}

/// Puts the events with their notes, the states, the frames taken and the operations.
fn put_run<A: Allocator + Copy, W: Write>(sink: &mut Sink<'_, W>, run: &Data<A>)
    ensures { Puts W.contents sink.old sink.new (run_text run.now) }
{
    sink.put(b",\n\"events\":");
    put_events(sink, &run.names, run.moments.as_slice(), &run.notes);
    put_lines(sink, ",\n\"states\":", &run.names, run.looks.as_slice());
    put_lines(sink, ",\n\"arrows\":", &run.names, run.arrows.as_slice());
    put_lines(sink, ",\n\"operations\":", &run.names, run.bars.as_slice());
}

/// Puts the one order of casts, the reads beside it, the witness and the points.
fn put_orders<A: Allocator + Copy, W: Write>(sink: &mut Sink<'_, W>, run: &Data<A>)
    ensures { Puts W.contents sink.old sink.new (order_text run.now) }
{
    put_lines(sink, ",\n\"order\":", &run.names, run.order.as_slice());
    put_lines(sink, ",\n\"reads\":", &run.names, run.reads.as_slice());
    put_lines(sink, ",\n\"witness\":", &run.names, run.witness.as_slice());
    sink.put(b",\n\"points\":");
    put_points(sink, &run.names, &run.points);
    sink.put(b"}");
}

/// Puts the data between two texts.
fn put_between<A: Allocator + Copy, W: Write>(
    sink: &mut Sink<'_, W>,
    head: &str,
    run: &Data<A>,
    tail: &str,
)
    ensures { Puts W.contents sink.old sink.new (head.now ++ (data_text run.now ++ tail.now)) }
{
    sink.put(head.as_bytes());
    put_head(sink, run);
    put_run(sink, run);
    put_orders(sink, run);
    sink.put(tail.as_bytes());
}

/// Writes the data of a run between the texts of a head and of a tail, all of it or, where the writer fails, a first
/// part.
pub fn write_data<A: Allocator + Copy, W: Write>(
    writer: &mut W,
    head: &str,
    run: &Data<A>,
    tail: &str,
) -> Result<(), Unwritten>
    ensures { IsWritten result (W.contents writer.old) (W.contents writer.new)
        (head.now ++ (data_text run.now ++ tail.now)) }
{
    let mut sink = Sink::new(writer);
    put_between(&mut sink, head, run, tail);
    sink.finish()
}
