//! The line that is told of reports in a row.
ghost use Rattle.std.specs.Prelude.{[]};
ghost use Rattle.reg_text.specs.Writing.{Puts, IsWritten, IsWrittenOr};
ghost use Rattle.reg_verify.specs.StoryTexts.{breach_text, part_text, ruling_text};

use crate::stories::breaches::{Breach, ChapterPart, Ruling};
use reg_base::{Names, Op};
use reg_commands::{Fault, Verdict, put_points, put_serial};
use reg_text::{Sink, put_number, put_op};
use std::alloc::Allocator;
use std::io::Write;

/// Puts in which part a report differs from the one before it.
fn put_part<W: Write>(sink: &mut Sink<'_, W>, part: ChapterPart)
    ensures { Puts W.contents sink.old sink.new (part_text part) }
{
    match part {
        ChapterPart::Front => sink.put(b"another front end\n"),
        ChapterPart::Processes => sink.put(b"another number of processes\n"),
        ChapterPart::Registers => sink.put(b"other registers\n"),
    }
}

/// Puts which write an operation of process 0 should be.
fn put_write<A: Allocator + Copy, W: Write>(
    sink: &mut Sink<'_, W>,
    names: &Names<A>,
    number: u32,
    op: Op,
)
    ensures { Puts W.contents sink.old sink.new (breach_text names.now (Breach.Write number op)) }
{
    put_number(sink, "p0 #", number as u64);
    sink.put(b" should be ");
    put_op(sink, names, op);
    sink.put(b", with which the chapter before ended\n");
}

/// Puts where in the order an operation of process 0 should stand.
fn put_place<W: Write>(sink: &mut Sink<'_, W>, number: u32)
    ensures { Puts W.contents sink.old sink.new (breach_text [] (Breach.Place number)) }
{
    put_number(sink, "p0 #", number as u64);
    put_number(sink, " should be number ", number as u64);
    sink.put(b" of the order\n");
}

/// Puts what is wrong with a report.
fn put_breach<A: Allocator + Copy, W: Write>(
    sink: &mut Sink<'_, W>,
    names: &Names<A>,
    breach: Breach,
)
    ensures { Puts W.contents sink.old sink.new (breach_text names.now breach) }
{
    match breach {
        Breach::Order { reason } => put_serial(sink, Verdict::No(reason)),
        Breach::Points { reason } => put_points(sink, Some(Verdict::No(reason))),
        Breach::Other { part } => put_part(sink, part),
        Breach::Write { number, op } => put_write(sink, names, number, op),
        Breach::Place { number } => put_place(sink, number),
    }
}

/// Puts how many chapters a story has.
fn put_story<W: Write>(sink: &mut Sink<'_, W>, chapters: u64)
    ensures { Puts W.contents sink.old sink.new (ruling_text [] (Ruling.Story chapters)) }
{
    put_number(sink, "one story of ", chapters);
    sink.put(b" chapters\n");
}

/// Puts with which report they go wrong, and how.
fn put_broken<A: Allocator + Copy, W: Write>(
    sink: &mut Sink<'_, W>,
    names: &Names<A>,
    chapter: u64,
    breach: Breach,
)
    ensures { Puts W.contents sink.old sink.new (ruling_text names.now (Ruling.Broken chapter breach)) }
{
    put_number(sink, "report ", chapter);
    sink.put(b": ");
    put_breach(sink, names, breach);
}

/// Puts what is said of reports in a row.
fn put_ruling<A: Allocator + Copy, W: Write>(
    sink: &mut Sink<'_, W>,
    names: &Names<A>,
    ruling: Ruling,
)
    ensures { Puts W.contents sink.old sink.new (ruling_text names.now ruling) }
{
    match ruling {
        Ruling::Story { chapters } => put_story(sink, chapters),
        Ruling::Broken { chapter, breach } => put_broken(sink, names, chapter, breach),
    }
}

/// Writes the line without a flush.
fn write_line<A: Allocator + Copy, W: Write>(
    writer: &mut W,
    names: &Names<A>,
    ruling: Ruling,
) -> Result<(), Fault>
    ensures { IsWritten result (W.contents writer.old) (W.contents writer.new) (ruling_text names.now ruling) }
{
    let mut sink = Sink::new(writer);
    put_ruling(&mut sink, names, ruling);
    if sink.failed {
        return Err(Fault::Output);
    }
    Ok(())
}

/// Writes what is said of reports in a row, of registers with these names.
///
/// # Errors
///
/// `Output` where the writer failed, and then a first part of the line went out.
pub(crate) fn write_ruling<A: Allocator + Copy, W: Write>(
    writer: &mut W,
    names: &Names<A>,
    ruling: Ruling,
) -> Result<(), Fault>
    ensures { IsWrittenOr Fault.Output result (W.contents writer.old) (W.contents writer.new)
        (ruling_text names.now ruling) }
{
    if write_line(writer, names, ruling).is_err() || writer.flush().is_err() {
        return Err(Fault::Output);
    }
    Ok(())
}
