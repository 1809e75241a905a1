//! The line of each stop on the error stream.
ghost use Rattle.std.specs.Prelude.{◌++◌, codes};
ghost use Rattle.std.specs.Fmt.{decimal};
ghost use Rattle.reg_text.specs.Writing.{Puts};
ghost use Rattle.reg_cli.specs.StopLines.{stop_text, stop_line};

use crate::stops::Stop;
use reg_commands::{Refusal, put_fault_text};
use reg_text::{Sink, Unwritten, put_number};
use std::io::Write;

/// Puts why the pass of a process was refused.
fn put_pass<W: Write>(sink: &mut Sink<'_, W>, process: u8, words: &str)
    ensures { Puts W.contents sink.old sink.new (codes "process " ++ decimal process ++ words.now) }
{
    put_number(sink, "process ", process as u64);
    sink.put(words.as_bytes());
}

/// Puts how far the journal has come, which isn't as far as a process asked.
fn put_behind<W: Write>(sink: &mut Sink<'_, W>, process: u8, length: u64)
    ensures { Puts W.contents sink.old sink.new
        (codes "process " ++ decimal process ++ codes ": behind " ++ decimal length) }
{
    put_number(sink, "process ", process as u64);
    put_number(sink, ": behind ", length);
}

/// Puts a stop as text: its line without the line feed.
fn put_stop_text<W: Write>(sink: &mut Sink<'_, W>, stop: Stop)
    ensures { Puts W.contents sink.old sink.new (stop_text stop) }
{
    match stop {
        Stop::Command { fault } => put_fault_text(sink, fault),
        Stop::Failed { process } => put_pass(sink, process, ": failed"),
        Stop::NoRegister { process } => put_pass(sink, process, ": no register"),
        Stop::Behind { process, length } => put_behind(sink, process, length),
        Stop::Full { process } => put_pass(sink, process, ": full"),
        Stop::Unfaithful { place } => put_number(sink, "close: unfaithful ", place),
        Stop::Mismatch { process } => put_number(sink, "close: mismatch ", process as u64),
    }
}

/// Puts the line of a stop.
fn put_stop<W: Write>(sink: &mut Sink<'_, W>, stop: Stop)
    ensures { Puts W.contents sink.old sink.new (stop_line stop) }
{
    put_stop_text(sink, stop);
    sink.put(b"\n");
}

impl Refusal for Stop {
    ghost use Rattle.reg_cli.specs.StopLines.{stop_line};
    ghost use Rattle.reg_cli.specs.declared.stops.Stop.TheVariants.{Command};

    ghost line = { stop_line };

    ghost of_fault = { λ fault. Command fault };

    fn write_line<W: Write>(self, errors: &mut W) -> Result<(), Unwritten> {
        let mut sink = Sink::new(errors);
        put_stop(&mut sink, self);
        sink.finish()
    }

    ghost is_told = { λ _ _ same. same };

    ghost tells_output = { λ _ same. cc };
}
