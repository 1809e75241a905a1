//! The first line of an answer: what an accepted text is, and what is told of a refused one.
ghost use Rattle.std.specs.Prelude.{◌≡◌, ◌++◌, IfOk};
ghost use Rattle.reg_text.specs.Writing.{Puts};
ghost use Rattle.reg_reasons.specs.FirstLines.{counted, subject_text, first_no};

use reg_commands::{Refusal, Verdict, Verdicts, put_points, put_serial};
use reg_text::{Sink, put_number};
use std::alloc::{AllocError, Allocator};
use std::io::Write;

/// What an accepted text is.
#[derive(Clone, Copy)]
pub struct Subject<'a> {
    /// The words at the start.
    pub name: &'a str,
    pub processes: u32,
    pub registers: u32,
    pub front: &'a str,
    /// How many events, operations or entries it has, and the words for one and for more.
    pub count: usize,
    pub one: &'a str,
    pub many: &'a str,
}

/// Puts how many there are.
fn put_counted<W: Write>(sink: &mut Sink<'_, W>, count: u64, one: &str, many: &str)
    ensures { Puts W.contents sink.old sink.new (counted count one.now many.now) }
{
    put_number(sink, "", count);
    if count == 1 {
        sink.put(one.as_bytes());
    } else {
        sink.put(many.as_bytes());
    }
}

fn put_subject<W: Write>(sink: &mut Sink<'_, W>, subject: Subject<'_>)
    ensures { Puts W.contents sink.old sink.new
        (subject_text subject.entry.name.now subject.entry.processes subject.entry.registers subject.entry.front.now
        subject.entry.count subject.entry.one.now subject.entry.many.now) }
{
    sink.put(subject.name.as_bytes());
    put_counted(sink, subject.processes as u64, " process, ", " processes, ");
    put_counted(
        sink,
        subject.registers as u64,
        " register, ",
        " registers, ",
    );
    sink.put(subject.front.as_bytes());
    sink.put(b", ");
    put_counted(sink, subject.count as u64, subject.one, subject.many);
}

/// The line of an accepted text.
pub fn line_of_subject<A: Allocator + Copy>(
    alloc: A,
    subject: Subject<'_>,
    tail: &str,
) -> Result<Vec<u8, A>, AllocError>
    ensures { IfOk result (λ v. v.items
        ≡ subject_text subject.entry.name.now subject.entry.processes subject.entry.registers subject.entry.front.now
        subject.entry.count subject.entry.one.now subject.entry.many.now
        ++ tail.now) }
{
    let mut line = Vec::new(alloc);
    let mut sink = Sink::new(&mut line);
    put_subject(&mut sink, subject);
    sink.put(tail.as_bytes());
    if sink.failed {
        return Err(AllocError);
    }
    Ok(line)
}

/// The line of a fault.
pub fn line_of_fault<A: Allocator + Copy, R: Refusal>(
    alloc: A,
    fault: R,
) -> Result<Vec<u8, A>, AllocError>
    ensures { IfOk result (λ v. v.items ≡ R.line fault) }
{
    let mut line = Vec::new(alloc);
    if fault.write_line(&mut line).is_err() {
        return Err(AllocError);
    }
    Ok(line)
}

/// The line of the first verdict that is no.
pub fn line_of_no<A: Allocator + Copy>(
    alloc: A,
    verdicts: Verdicts,
) -> Result<Vec<u8, A>, AllocError>
    ensures { IfOk result (λ v. v.items ≡ first_no verdicts) }
{
    let mut line = Vec::new(alloc);
    let mut sink = Sink::new(&mut line);
    match verdicts.serial {
        Verdict::Yes => put_points(&mut sink, verdicts.points),
        Verdict::No(_) => put_serial(&mut sink, verdicts.serial),
    }
    if sink.failed {
        return Err(AllocError);
    }
    Ok(line)
}
