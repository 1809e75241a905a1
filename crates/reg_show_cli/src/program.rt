//! The program: the words of its command line, and then what they ask for, over the standard streams.
ghost use Rattle.std.specs.Prelude.{◌≡◌, ◌≤◌, ◌⊎◌, OnOk, flat_map};
ghost use Rattle.std.specs.Io.KnownBytes.{Appends};
ghost use Rattle.reg_text.specs.Writing.{AppendsPart, Puts};
ghost use Rattle.reg_commands.specs.FaultLines.{fault_line};
ghost use Rattle.reg_cli.specs.Faults.{status_of};
ghost use Rattle.reg_cli.specs.Subcommands.{behind_name};
ghost use Rattle.reg_show_cli.specs.Lines.{IsLineOf, NumbersFit, refused_line};
ghost use Rattle.reg_show_cli.specs.Statuses.{Obeys, Stops, Tells, memory_line};
ghost use Rattle.reg_show_cli.specs.declared.words.Asked.{Asked as AnyAsked};
ghost use Rattle.reg_show_cli.specs.declared.words.TheConstants.{VERSION};
ghost use Rattle.reg_show_cli.specs.Printed.{own_text};
ghost use Rattle.reg_show_cli.specs.Topics.{help_text, topic_lines, topics};

use crate::asking::ask;
use crate::topics::{TOPICS, Topic};
use crate::words::{Asked, HELP_BEGIN, HELP_END, VERSION};
use reg_cli::{WordsFault, tell, words_of};
use reg_commands::{Fault, OfDocument, OverText, Refusal, TextCommand, WorkCommand, run_command};
use reg_observed::judge_text;
use reg_reasons::Explain;
use reg_show::{
    EveryOutcome, FindOrder, FullSchedule, ManyPlays, OneOutcome, ShortSchedule, ShowEither,
};
use reg_text::{Sink, Unwritten};
use reg_verify::{Merge, Story, Verify};
use std::io::{self, BufWriter, Read, Write};
use std::rt::Env;

/// A text of the program's own.
#[derive(Clone, Copy)]
enum OwnText {
    Help { topic: Option<Topic> },
    Version,
}

/// Puts what help tells of each command.
fn put_topics<W: Write>(sink: &mut Sink<'_, W>)
    ensures { Puts W.contents sink.old sink.new (flat_map topic_lines topics) }
{
    for topic in TOPICS.as_slice() {
        sink.put(topic.lines().as_bytes());
    }
}

/// Puts the help with a command, or with all.
fn put_help<W: Write>(sink: &mut Sink<'_, W>, topic: Option<Topic>)
    ensures { Puts W.contents sink.old sink.new (help_text topic) }
{
    match topic {
        Some(topic) => sink.put(topic.lines().as_bytes()),
        None => {
            sink.put(HELP_BEGIN.as_bytes());
            put_topics(sink);
            sink.put(HELP_END.as_bytes());
        }
    }
}

fn write_own<W: Write>(writer: &mut W, text: OwnText) -> Result<(), Unwritten>
    ensures { OnOk result (Appends (W.contents writer.old) (W.contents writer.new) (own_text text)) }
{
    let mut sink = Sink::new(writer);
    match text {
        OwnText::Help { topic } => put_help(&mut sink, topic),
        OwnText::Version => sink.put(VERSION.as_bytes()),
    }
    sink.finish()
}

/// Writes a text of the program's own. Where the writer fails, that is told.
fn print<W: Write, E: Write>(text: OwnText, writer: &mut W, errors: &mut E) -> u8
    ensures range { result ≤ 1 }
    ensures written { result ≡ 0 → Appends (W.contents writer.old) (W.contents writer.new) (own_text text) }
    ensures told { result ≡ 1 → AppendsPart (E.contents errors.old) (E.contents errors.new) (fault_line Fault.Output) }
    ensures quiet { result ≡ 0 → errors.new ≡ errors.old }
{
    if write_own(writer, text).is_ok() && writer.flush().is_ok() {
        return 0;
    }
    let _ = Fault::Output.write_line(errors);
    1
}

/// Does what is asked for, and gives the status.
fn obey<R: AllocGlobal, I: Read, O: Write, E: Write>(
    rt: &R,
    asked: Asked<'_>,
    reader: &mut I,
    writer: &mut O,
    errors: &mut E,
) -> u8
    requires { NumbersFit asked }
    ensures range { result ≤ 1 }
    ensures obeyed { result ≡ 0
        → Obeys VERSION.now asked.entry (I.remaining reader.old)
        (Appends (O.contents writer.old) (O.contents writer.new)) }
    ensures stopped { result ≡ 1
        → Stops asked.entry (I.remaining reader.old) (writer.new ≡ writer.old) (O.contents writer.old)
        (O.contents writer.new) (errors.new ≡ errors.old) (E.contents errors.old) (E.contents errors.new) }
    ensures quiet { result ≡ 0 → errors.new ≡ errors.old }
{
    let alloc = rt.alloc();
    let global = alloc;
    macro_rules! run {
        ($command:expr) => {
            run_command($command, alloc, reader, writer, errors)
        };
    }
    macro_rules! run_work {
        ($command:expr) => {
            run!(OfDocument {
                command: $command,
                global
            })
        };
    }
    match asked {
        Asked::Help { topic } => print(OwnText::Help { topic }, writer, errors),
        Asked::Version => print(OwnText::Version, writer, errors),
        Asked::Text { command } => run!(OverText { command, global }),
        Asked::Show { view } => run!(ShowEither { view, global }),
        Asked::Schedule { player } => run_work!(FullSchedule { player }),
        Asked::ShortSchedule { player } => run_work!(ShortSchedule { player }),
        Asked::Outcomes { plays, seed } => run_work!(ManyPlays { plays, seed }),
        Asked::AllOutcomes => run_work!(EveryOutcome),
        Asked::Outcome { number } => run_work!(OneOutcome { number }),
        Asked::Find { kind } => run!(FindOrder { kind }),
        Asked::Why => run!(Explain { global }),
        Asked::Verify => run!(Verify),
        Asked::Merge => run!(Merge),
        Asked::Story => run!(Story),
        Asked::Judge { flags } => judge_text(alloc, flags, reader, writer, errors),
    }
}

/// Tells why the words ask for nothing, and gives the status.
pub fn refuse<E: Write>(fault: WordsFault, errors: &mut E) -> u8
    ensures status { result ≡ status_of fault }
    ensures told { result ≡ 2 → AppendsPart (E.contents errors.old) (E.contents errors.new) refused_line }
    ensures memory { result ≡ 1 → AppendsPart (E.contents errors.old) (E.contents errors.new) memory_line }
{
    tell(
        fault,
        b"usage: awshow COMMAND [FLAGS] < TEXT, and awshow help lists the commands\n",
        errors,
    )
}

/// Does what the words of a command line ask for, over this reader and this writer, and gives the exit status: 0, or 1
/// where something was refused or the answer is a no, or 2 for the command line. The line of a fault, or a first part
/// of it, goes to `errors`.
pub fn run_line<R: AllocGlobal, I: Read, O: Write, E: Write>(
    rt: &R,
    words: &[String],
    reader: &mut I,
    writer: &mut O,
    errors: &mut E,
) -> u8
    ensures range { result ≤ 2 }
    ensures obeyed { result ≡ 0
        → (asked : AnyAsked) × IsLineOf asked (behind_name words.now)
        × Obeys VERSION.now asked (I.remaining reader.old) (Appends (O.contents writer.old) (O.contents writer.new)) }
    ensures stopped { result ≡ 1
        → (asked : AnyAsked) × IsLineOf asked (behind_name words.now)
        × Stops asked (I.remaining reader.old) (writer.new ≡ writer.old) (O.contents writer.old) (O.contents writer.new)
        (errors.new ≡ errors.old) (E.contents errors.old) (E.contents errors.new) }
    ensures refused { result ≡ 2
        → ((asked : AnyAsked) → ¬ IsLineOf asked (behind_name words.now)) × (writer.new ≡ writer.old) }
    ensures told { result ≡ 2 → AppendsPart (E.contents errors.old) (E.contents errors.new) refused_line }
    ensures quiet { result ≡ 0 → errors.new ≡ errors.old }
{
    match ask(words) {
        Some(asked) => obey(rt, asked, reader, writer, errors),
        None => refuse(WordsFault::CommandLine, errors),
    }
}

/// `run_line` over the standard streams.
pub fn run_words<R, E>(rt: &R, words: &[String], errors: &mut E) -> u8
where
    R: AllocGlobal + Input + Print + Copy,
    E: Write,
    ensures range { result ≤ 2 }
    ensures obeyed { result ≡ 0 → (asked : AnyAsked) × IsLineOf asked (behind_name words.now) }
    ensures stopped { result ≡ 1
        → ((asked : AnyAsked) × IsLineOf asked (behind_name words.now)
        × Tells asked (errors.new ≡ errors.old) (E.contents errors.old) (E.contents errors.new))
        ⊎ AppendsPart (E.contents errors.old) (E.contents errors.new) memory_line }
    ensures refused { result ≡ 2 → (asked : AnyAsked) → ¬ IsLineOf asked (behind_name words.now) }
    ensures told { result ≡ 2 → AppendsPart (E.contents errors.old) (E.contents errors.new) refused_line }
    ensures quiet { result ≡ 0 → errors.new ≡ errors.old }
{
    let mut reader = rt.reader();
    let Ok(mut writer) = BufWriter::new(rt.alloc(), io::writer(rt)) else {
        return refuse(WordsFault::OutOfMemory, errors);
    };
    run_line(rt, words, &mut reader, &mut writer, errors)
}

/// `run_words` of the words that the program was started with.
pub fn run_program<R, E>(rt: &R, errors: &mut E) -> u8
where
    R: AllocGlobal + Env + Input + Print + Copy,
    E: Write,
    ensures range { result ≤ 2 }
    ensures told { result ≡ 2 → AppendsPart (E.contents errors.old) (E.contents errors.new) refused_line }
    ensures quiet { result ≡ 0 → errors.new ≡ errors.old }
{
    match words_of(rt) {
        Ok(words) => run_words(rt, words.as_slice(), errors),
        Err(fault) => refuse(fault, errors),
    }
}
