//! The line of each fault on the error stream.
ghost use Rattle.std.specs.Prelude.{◌++◌, codes};
ghost use Rattle.std.specs.Fmt.{decimal};
ghost use Rattle.reg_text.specs.Writing.{Puts};
ghost use Rattle.reg_inputs.specs.Keys.{key_name};
ghost use Rattle.reg_inputs.specs.FaultTexts.{workload_text};
ghost use Rattle.reg_commands.specs.FaultLines.{fault_text, fault_line};

use crate::faults::Fault;
use crate::refusal::Refusal;
use reg_inputs::{Key, WorkloadFault};
use reg_text::{Sink, Unwritten, put_number};
use std::io::Write;

/// Puts what is wrong at a line or an event of this number.
fn put_place<W: Write>(sink: &mut Sink<'_, W>, name: &str, number: u64, words: &str)
    ensures { Puts W.contents sink.old sink.new (name.now ++ decimal number ++ codes ": " ++ words.now) }
{
    put_number(sink, name, number);
    sink.put(b": ");
    sink.put(words.as_bytes());
}

/// Puts what is wrong with a key.
fn put_key<W: Write>(sink: &mut Sink<'_, W>, words: &str, key: Key)
    ensures { Puts W.contents sink.old sink.new (words.now ++ key_name key) }
{
    sink.put(words.as_bytes());
    sink.put(key.name().as_bytes());
}

/// Puts which place of the scripts has no operation.
fn put_script<W: Write>(sink: &mut Sink<'_, W>, process: u8, place: u32)
    ensures { Puts W.contents sink.old sink.new (codes "script " ++ decimal process ++ codes " " ++ decimal place) }
{
    put_number(sink, "script ", process as u64);
    put_number(sink, " ", place as u64);
}

/// Puts why a document says no workload.
fn put_workload<W: Write>(sink: &mut Sink<'_, W>, fault: WorkloadFault)
    ensures { Puts W.contents sink.old sink.new (workload_text fault) }
{
    match fault {
        WorkloadFault::Toml => sink.put(b"toml"),
        WorkloadFault::UnknownKey => sink.put(b"unknown key"),
        WorkloadFault::Missing { key } => put_key(sink, "missing ", key),
        WorkloadFault::Kind { key } => put_key(sink, "kind ", key),
        WorkloadFault::Range { key } => put_key(sink, "range ", key),
        WorkloadFault::Script { process, place } => put_script(sink, process, place),
        WorkloadFault::OutOfMemory => sink.put(b"out of memory"),
    }
}

/// Puts a fault as text: its line without the line feed.
pub fn put_fault_text<W: Write>(sink: &mut Sink<'_, W>, fault: Fault)
    ensures { Puts W.contents sink.old sink.new (fault_text fault) }
{
    match fault {
        Fault::Unread => sink.put(b"input: read"),
        Fault::TooLong => sink.put(b"input: too long"),
        Fault::NotText => sink.put(b"input: not text"),
        Fault::Output => sink.put(b"output: write"),
        Fault::Line { line, why } => put_place(sink, "line ", line, why.word()),
        Fault::Event { at, fault } => put_place(sink, "event ", at as u64, fault.words()),
        Fault::Workload { fault } => put_workload(sink, fault),
        Fault::OutOfMemory => sink.put(b"out of memory"),
    }
}

/// Puts the line of a fault.
fn put_fault<W: Write>(sink: &mut Sink<'_, W>, fault: Fault)
    ensures { Puts W.contents sink.old sink.new (fault_line fault) }
{
    put_fault_text(sink, fault);
    sink.put(b"\n");
}

impl Refusal for Fault {
    ghost use Rattle.reg_commands.specs.FaultLines.{fault_line};

    ghost line = { fault_line };

    ghost of_fault = { λ fault. fault };

    fn write_line<W: Write>(self, errors: &mut W) -> Result<(), Unwritten> {
        let mut sink = Sink::new(errors);
        put_fault(&mut sink, self);
        sink.finish()
    }

    ghost is_told = { λ _ _ same. same };

    ghost tells_output = { λ _ same. same };
}
