//! The program: the words of its command line, and then the command over the standard streams.
ghost use Rattle.std.specs.Prelude.{◌≡◌, ◌≤◌, ◌⊎◌};
ghost use Rattle.std.specs.Io.KnownBytes.{Appends};
ghost use Rattle.reg_text.specs.Writing.{AppendsPart};
ghost use Rattle.reg_cli.specs.Faults.{status_of};
ghost use Rattle.reg_cli.specs.Subcommands.{behind_name};
ghost use Rattle.reg_cli.specs.Lines.{IsCommandLine, line_of, refused_line};
ghost use Rattle.reg_cli.specs.Statuses.{Obeys, Stops, Tells, memory_line};
ghost use Rattle.reg_cli.specs.declared.words.Asked.{Asked as AnyAsked};

use crate::faults::WordsFault;
use crate::performing::run_live;
use crate::telling::{tell, words_of};
use crate::texts::run_text;
use crate::words::{Asked, choose};
use std::io::{self, BufWriter, Read, Write};
use std::rt::Env;
use std::sync::Wait;
use std::thread::Threads;
use std::time::Clock;

/// Runs what is asked for, and gives its status.
fn obey<R, I: Read, O: Write, E: Write>(
    rt: &R,
    asked: Asked,
    reader: &mut I,
    writer: &mut O,
    errors: &mut E,
) -> u8
where
    R: AllocGlobal + Threads + Wait + Clock + Copy + Send + Sync + 'static,
    ensures range { result ≤ 1 }
    ensures obeyed { result ≡ 0
        → Obeys asked (I.remaining reader.old) (Appends (O.contents writer.old) (O.contents writer.new)) }
    ensures stopped { result ≡ 1
        → Stops asked (I.remaining reader.old) (writer.new ≡ writer.old) (O.contents writer.old) (O.contents writer.new)
        (errors.new ≡ errors.old) (E.contents errors.old) (E.contents errors.new) }
    ensures quiet { result ≡ 0 → errors.new ≡ errors.old }
{
    match asked {
        Asked::Live => run_live(*rt, rt.alloc(), reader, writer, errors),
        Asked::Text { command } => { run_text(rt.alloc(), command, reader, writer, errors) }
    }
}

/// Tells why the words ask for nothing, and gives the status.
pub fn refuse<E: Write>(fault: WordsFault, errors: &mut E) -> u8
    ensures status { result ≡ status_of fault }
    ensures told { result ≡ 2 → AppendsPart (E.contents errors.old) (E.contents errors.new) refused_line }
    ensures memory { result ≡ 1 → AppendsPart (E.contents errors.old) (E.contents errors.new) memory_line }
{
    tell(fault, b"command line\n", errors)
}

/// Does what the words of a command line ask for, over this reader and this writer, and gives the exit status: 0, or 1
/// where something was refused or a check said no, or 2 for the command line. The line of a fault, or a first part of
/// it, goes to `errors`.
pub fn run_line<R, I: Read, O: Write, E: Write>(
    rt: &R,
    words: &[String],
    reader: &mut I,
    writer: &mut O,
    errors: &mut E,
) -> u8
where
    R: AllocGlobal + Threads + Wait + Clock + Copy + Send + Sync + 'static,
    ensures range { result ≤ 2 }
    ensures obeyed { result ≡ 0
        → (asked : AnyAsked) × (behind_name words.now ≡ line_of asked)
        × Obeys asked (I.remaining reader.old) (Appends (O.contents writer.old) (O.contents writer.new)) }
    ensures stopped { result ≡ 1
        → ((asked : AnyAsked) × (behind_name words.now ≡ line_of asked)
        × Stops asked (I.remaining reader.old) (writer.new ≡ writer.old) (O.contents writer.old) (O.contents writer.new)
        (errors.new ≡ errors.old) (E.contents errors.old) (E.contents errors.new))
        ⊎ ((writer.new ≡ writer.old) × AppendsPart (E.contents errors.old) (E.contents errors.new) memory_line) }
    ensures refused { result ≡ 2 → (¬ IsCommandLine (behind_name words.now)) × (writer.new ≡ writer.old) }
    ensures told { result ≡ 2 → AppendsPart (E.contents errors.old) (E.contents errors.new) refused_line }
    ensures quiet { result ≡ 0 → errors.new ≡ errors.old }
{
    match choose(rt.alloc(), words) {
        Ok(asked) => obey(rt, asked, reader, writer, errors),
        Err(fault) => refuse(fault, errors),
    }
}

/// `run_line` over the standard streams.
pub fn run_words<R, E>(rt: &R, words: &[String], errors: &mut E) -> u8
where
    R: AllocGlobal + Input + Print + Threads + Wait + Clock + Copy + Send + Sync + 'static,
    E: Write,
    ensures range { result ≤ 2 }
    ensures obeyed { result ≡ 0 → IsCommandLine (behind_name words.now) }
    ensures stopped { result ≡ 1
        → ((asked : AnyAsked) × (behind_name words.now ≡ line_of asked)
        × Tells asked (errors.new ≡ errors.old) (E.contents errors.old) (E.contents errors.new))
        ⊎ AppendsPart (E.contents errors.old) (E.contents errors.new) memory_line }
    ensures refused { result ≡ 2 → ¬ IsCommandLine (behind_name words.now) }
    ensures told { result ≡ 2 → AppendsPart (E.contents errors.old) (E.contents errors.new) refused_line }
    ensures quiet { result ≡ 0 → errors.new ≡ errors.old }
{
    let mut reader = rt.reader();
    let Ok(mut writer) = BufWriter::new(rt.alloc(), io::writer(rt)) else {
        return refuse(WordsFault::OutOfMemory, errors);
    };
    run_line(rt, words, &mut reader, &mut writer, errors)
}

/// `run_words` of the words that the program was started with.
pub fn run_program<R, E>(rt: &R, errors: &mut E) -> u8
where
    R: AllocGlobal + Env + Input + Print + Threads + Wait + Clock + Copy + Send + Sync + 'static,
    E: Write,
    ensures range { result ≤ 2 }
    ensures told { result ≡ 2 → AppendsPart (E.contents errors.old) (E.contents errors.new) refused_line }
    ensures quiet { result ≡ 0 → errors.new ≡ errors.old }
{
    match words_of(rt) {
        Ok(words) => run_words(rt, words.as_slice(), errors),
        Err(fault) => refuse(fault, errors),
    }
}
