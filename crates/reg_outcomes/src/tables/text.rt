//! The text of a table.
ghost use Rattle.std.specs.Prelude.{◌++◌, ◌∷◌, [], map, replicate};
ghost use Rattle.std.specs.Fmt.{decimal};
ghost use Rattle.reg_text.specs.Columns.{to_right};
ghost use Rattle.reg_text.specs.Lines.{text_of};
ghost use Rattle.reg_text.specs.Writing.{Puts, IsWritten};
ghost use Rattle.reg_outcomes.specs.TableText.{firsts_text, line_text, play_text, seed_text, shortest_text, table_text};
ghost use Rattle.reg_outcomes.specs.TableText.{time_text, undrawn_lines};

use crate::tables::plays::Outcomes;
use crate::tables::rows::Row;
use crate::tables::tallies::Tally;
use crate::values::{put_count, put_outcome};
use itoa::Buffer;
use reg_text::{Sink, Unwritten, put_number};
use std::alloc::Allocator;
use std::io::Write;

/// Puts spaces.
fn put_spaces<W: Write>(sink: &mut Sink<'_, W>, count: usize)
    ensures { Puts W.contents sink.old sink.new (replicate count 32) }
{
    for _ in 0..count {
        sink.put(b" ");
    }
}

/// Puts a number at the right of `places` places, or of more where it has more digits.
fn put_right<W: Write>(sink: &mut Sink<'_, W>, number: u64, places: usize)
    ensures { Puts W.contents sink.old sink.new (to_right places (decimal number)) }
{
    let mut buffer = Buffer::new();
    let digits = buffer.format(number).as_bytes();
    put_spaces(sink, places.saturating_sub(digits.len()));
    sink.put(digits);
}

/// Puts whether some play is linearizable, by the seed of the first that is.
fn put_time<W: Write>(sink: &mut Sink<'_, W>, in_time: Option<u64>)
    ensures { Puts W.contents sink.old sink.new (time_text in_time) }
{
    match in_time {
        Some(_) => sink.put(b"real time"),
        None => sink.put(b"late     "),
    }
}

/// Puts a seed, or that there is none.
fn put_seed<W: Write>(sink: &mut Sink<'_, W>, seed: Option<u64>)
    ensures { Puts W.contents sink.old sink.new (seed_text seed) }
{
    match seed {
        Some(seed) => put_number(sink, "", seed),
        None => sink.put(b"-"),
    }
}

/// Puts the shortest play.
fn put_shortest<W: Write>(sink: &mut Sink<'_, W>, tally: Tally)
    ensures { Puts W.contents sink.old sink.new (shortest_text tally) }
{
    put_right(sink, tally.events as u64, 5);
    put_number(sink, " events  seed ", tally.seed);
}

/// Puts the first play that is linearizable, and the first that is not.
fn put_firsts<W: Write>(sink: &mut Sink<'_, W>, tally: Tally)
    ensures { Puts W.contents sink.old sink.new (firsts_text tally) }
{
    sink.put(b"  linearizable ");
    put_seed(sink, tally.in_time);
    sink.put(b"  not linearizable ");
    put_seed(sink, tally.late);
}

/// Puts whether some play is linearizable, and which plays to look at.
fn put_play<W: Write>(sink: &mut Sink<'_, W>, tally: Tally)
    ensures { Puts W.contents sink.old sink.new (play_text tally) }
{
    put_time(sink, tally.in_time);
    sink.put(b"  ");
    put_shortest(sink, tally);
    put_firsts(sink, tally);
}

/// Puts the line of an outcome.
fn put_row<A: Allocator + Copy, W: Write>(sink: &mut Sink<'_, W>, row: &Row<A>)
    ensures { Puts W.contents sink.old sink.new (line_text row.now ++ 10 ∷ []) }
{
    put_right(sink, row.tally.count as u64, 8);
    sink.put(b"  ");
    put_outcome(sink, row.outcome.as_slice());
    put_play(sink, row.tally);
    sink.put(b"\n");
}

/// Puts a line for each outcome.
fn put_rows<A: Allocator + Copy, W: Write>(sink: &mut Sink<'_, W>, rows: &[Row<A>])
    ensures { Puts W.contents sink.old sink.new (text_of (map line_text rows.now)) }
{
    for row in rows {
        put_row(sink, row);
    }
}

/// Puts the line of how many outcomes no play had, where they were counted.
fn put_undrawn<W: Write>(sink: &mut Sink<'_, W>, undrawn: Option<usize>)
    ensures { Puts W.contents sink.old sink.new (text_of (undrawn_lines undrawn)) }
{
    if let Some(count) = undrawn {
        put_count(sink, "never drawn ", count as u64);
    }
}

/// Puts the text of a table.
fn put_table<A: Allocator + Copy, W: Write>(
    sink: &mut Sink<'_, W>,
    plays: u32,
    outcomes: &Outcomes<A>,
)
    ensures { Puts W.contents sink.old sink.new
        (table_text plays outcomes.now.rows.items outcomes.now.unfinished outcomes.now.undrawn) }
{
    let rows = outcomes.rows.as_slice();
    put_count(sink, "plays ", plays as u64);
    put_count(sink, "outcomes ", rows.len() as u64);
    put_rows(sink, rows);
    put_count(sink, "unfinished ", outcomes.unfinished as u64);
    put_undrawn(sink, outcomes.undrawn);
}

/// Writes the text of the table of the given number of plays: all of it or, where the writer fails, a first part.
pub fn write_table<A: Allocator + Copy, W: Write>(
    writer: &mut W,
    plays: u32,
    outcomes: &Outcomes<A>,
) -> Result<(), Unwritten>
    ensures { IsWritten result (W.contents writer.old) (W.contents writer.new)
        (table_text plays outcomes.now.rows.items outcomes.now.unfinished outcomes.now.undrawn) }
{
    let mut sink = Sink::new(writer);
    put_table(&mut sink, plays, outcomes);
    sink.finish()
}
