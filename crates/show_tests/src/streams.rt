//! Every command of both programs over streams that fail: over a reader that fails at one read, over a writer that
//! fails at one write or at its flush alone, and over one that holds what it is given until it is flushed.
use crate::lines::words_of;
use crate::{
    histories_judged, one_shown, orders_shown, records_judged, short_shown, shown, story_texts, why,
};
use reg_cli::{Asked, choose, run_text};
use reg_show_cli::run_line;
use std::io;
use std::io::{ErrorKind, Read, Write};
use std::process::Abort;

/// A command line, the text on the input, and the status of the answer. Nothing is told of a fault.
type Row = (&'static str, &'static str, u8);

/// All commands, each with every answer that it writes in a way of its own.
const COMMANDS: [Row; 32] = [
    ("awreg replay", shown::WRITE, 0),
    ("awreg check", records_judged::REPORT, 0),
    ("awreg check", orders_shown::STALE, 1),
    ("awreg play", short_shown::LONE_WRITE, 0),
    ("awreg play --fair", short_shown::LONE_WRITE, 0),
    ("awshow replay", shown::WRITE, 0),
    ("awshow check", orders_shown::STALE, 1),
    ("awshow play --fair", short_shown::LONE_WRITE, 0),
    ("awshow help", "", 0),
    ("awshow --version", "", 0),
    ("awshow schedule", short_shown::LONE_WRITE, 0),
    ("awshow schedule --short", short_shown::LONE_WRITE, 0),
    ("awshow outcomes --plays 2", one_shown::LOCK, 0),
    ("awshow outcomes --all", one_shown::LOCK, 0),
    ("awshow outcomes --all 2", one_shown::LOCK, 0),
    ("awshow find serial", orders_shown::STALE, 0),
    ("awshow find points", orders_shown::STALE, 1),
    ("awshow trace", shown::WRITE, 0),
    ("awshow draw", shown::WRITE, 0),
    ("awshow draw", one_shown::LOCK, 0),
    ("awshow data", shown::WRITE, 0),
    ("awshow page", shown::WRITE, 0),
    ("awshow rest", shown::WRITE, 0),
    ("awshow why", shown::WRITE, 0),
    ("awshow why", why::REFUSED, 1),
    ("awshow verify", records_judged::WRITE, 0),
    ("awshow merge", records_judged::WRITE, 0),
    ("awshow story", story_texts::FIRST, 0),
    ("awshow story", story_texts::OUT_OF_ORDER, 1),
    ("awshow judge", histories_judged::BOTH_WELL, 0),
    ("awshow judge", histories_judged::STALE, 1),
    ("awshow judge --report", histories_judged::READ_BACK, 0),
];

/// How a read or a write fails.
#[derive(Clone, Copy)]
enum Failure {
    /// By this error.
    Error { kind: ErrorKind },
    /// It takes nothing.
    Nothing,
}

/// Gives a text, at most `most` bytes a read. The read after the first `before` fails, and no other.
#[derive(Drop)]
struct FailingReader<'a> {
    rest: &'a [u8],
    most: usize,
    before: u32,
    kind: ErrorKind,
}

impl Read for FailingReader<'_> {
    fn read(&mut self, buf: &mut [u8]) -> io::Result<usize> {
        let fails = self.before == 0;
        self.before = self.before.wrapping_sub(1);
        if fails {
            return Err(io::Error::from(self.kind));
        }
        let count = buf.len().min(self.most).min(self.rest.len());
        buf[..count].copy_from_slice(&self.rest[..count]);
        self.rest = &self.rest[count..];
        Ok(count)
    }
}

/// Holds what it is given until it is flushed. It is to be given an answer, and takes at most `most` bytes of it a
/// write. The write after the first `before` fails, and no other.
#[derive(Drop)]
struct HoldingWriter<'a> {
    /// What it is still to be given.
    rest: &'a [u8],
    /// What hasn't gone out by a flush.
    held: &'a [u8],
    /// Whether it was given anything else.
    differs: bool,
    most: usize,
    before: u32,
    failure: Failure,
    /// Whether a flush succeeds.
    flushes: bool,
}

impl Write for HoldingWriter<'_> {
    fn write(&mut self, buf: &[u8]) -> io::Result<usize> {
        let fails = self.before == 0;
        self.before = self.before.wrapping_sub(1);
        if fails {
            return match self.failure {
                Failure::Error { kind } => Err(io::Error::from(kind)),
                Failure::Nothing => Ok(0),
            };
        }
        let end = buf.len().min(self.most);
        match self.rest.strip_prefix(&buf[..end]) {
            Some(rest) => self.rest = rest,
            None => self.differs = true,
        }
        Ok(end)
    }

    fn flush(&mut self) -> io::Result<()> {
        if !self.flushes {
            return Err(io::Error::from(ErrorKind::Other));
        }
        self.held = self.rest;
        Ok(())
    }
}

/// Runs a command line over these streams. No command has the status 255, which stands for a line that asks for none.
fn run<I: Read, O: Write>(
    rt: &(impl Abort + AllocGlobal),
    line: &str,
    reader: &mut I,
    writer: &mut O,
    errors: &mut Vec<u8>,
) -> u8 {
    let words = words_of(rt, rt.alloc(), "", line);
    if line.starts_with("awshow ") {
        return run_line(rt, words.as_slice(), reader, writer, errors);
    }
    match choose(rt.alloc(), words.as_slice()) {
        Ok(Asked::Text { command }) => run_text(rt.alloc(), command, reader, writer, errors),
        _ => 255,
    }
}

/// What is told of a fault behind the word by which `judge` begins, which no other command has.
fn told_of<'a>(line: &str, errors: &'a [u8]) -> &'a [u8] {
    if line.starts_with("awshow judge") {
        errors
            .strip_prefix("refused: ".as_bytes())
            .unwrap_or(errors)
    } else {
        errors
    }
}

/// Whether a line has this status over these streams, and these faults are told.
fn ends_so<I: Read, O: Write>(
    rt: &(impl Abort + AllocGlobal),
    line: &str,
    streams: (&mut I, &mut O),
    status: u8,
    faults: &str,
) -> bool {
    let (reader, writer) = streams;
    let mut errors = Vec::new(rt.alloc());
    let ended = run(rt, line, reader, writer, &mut errors) == status;
    ended && told_of(line, errors.as_slice()) == faults.as_bytes()
}

/// The answer to a row. Empty where it has another status, or a fault is told.
fn answer(rt: &(impl Abort + AllocGlobal), row: &Row) -> Vec<u8> {
    let (line, input, status) = *row;
    let mut answer = Vec::new(rt.alloc());
    if !ends_so(rt, line, (&mut input.as_bytes(), &mut answer), status, "") {
        answer.clear();
    }
    answer
}

/// Gives a text in some thirty reads, of which none fails.
fn reader_of(input: &str) -> FailingReader<'_> {
    FailingReader {
        rest: input.as_bytes(),
        most: input.len() / 30 + 1,
        before: u32::MAX,
        kind: ErrorKind::Other,
    }
}

/// How many reads the command of a row makes where none fails.
fn reads_of(rt: &(impl Abort + AllocGlobal), row: &Row) -> u32 {
    let (line, input, status) = *row;
    let (mut reader, mut output) = (reader_of(input), Vec::new(rt.alloc()));
    if ends_so(rt, line, (&mut reader, &mut output), status, "") {
        u32::MAX.saturating_sub(reader.before)
    } else {
        0
    }
}

/// Whether the failure of one read is told, no other read is made after it, and nothing is written.
fn is_read_told(rt: &(impl Abort + AllocGlobal), row: &Row, before: u32, kind: ErrorKind) -> bool {
    let (line, input, _) = *row;
    let mut reader = FailingReader {
        before,
        kind,
        ..reader_of(input)
    };
    let mut output = Vec::new(rt.alloc());
    let is_told = ends_so(rt, line, (&mut reader, &mut output), 1, "input: read\n");
    is_told && output.is_empty() && reader.before == u32::MAX
}

/// Whether it is told where every read of a row's command fails in turn.
fn is_each_read_told(rt: &(impl Abort + AllocGlobal), row: &Row) -> bool {
    let reads = reads_of(rt, row);
    for before in 0..reads {
        for kind in [ErrorKind::Other, ErrorKind::Interrupted] {
            if !is_read_told(rt, row, before, kind) {
                return false;
            }
        }
    }
    reads > 1 || row.1.is_empty()
}

/// Is to be given an answer in at least some thirty writes, of which none fails.
fn writer_of(answer: &[u8]) -> HoldingWriter<'_> {
    HoldingWriter {
        rest: answer,
        held: answer,
        differs: false,
        most: answer.len() / 30 + 1,
        before: u32::MAX,
        failure: Failure::Nothing,
        flushes: true,
    }
}

/// How many writes the command of a row makes where none fails. None where its answer doesn't go out whole.
fn writes_of(rt: &(impl Abort + AllocGlobal), row: &Row, answer: &[u8]) -> Option<u32> {
    let (line, input, status) = *row;
    let mut writer = writer_of(answer);
    let has_ended = ends_so(rt, line, (&mut input.as_bytes(), &mut writer), status, "");
    if has_ended && !writer.differs && writer.held.is_empty() {
        Some(u32::MAX.saturating_sub(writer.before))
    } else {
        None
    }
}

/// Whether it is told that this writer fails, which was given a first part of the answer.
fn is_write_told(
    rt: &(impl Abort + AllocGlobal),
    row: &Row,
    mut writer: HoldingWriter<'_>,
) -> bool {
    let (line, input, _) = *row;
    let streams = (&mut input.as_bytes(), &mut writer);
    ends_so(rt, line, streams, 1, "output: write\n") && !writer.differs
}

/// How one write fails, each in turn.
const WRITE_FAILURES: [Failure; 3] = [
    Failure::Error {
        kind: ErrorKind::Other,
    },
    Failure::Error {
        kind: ErrorKind::Interrupted,
    },
    Failure::Nothing,
];

/// Whether the failure of one write is told, by each error and where it takes nothing.
fn is_write_after_told(
    rt: &(impl Abort + AllocGlobal),
    row: &Row,
    answer: &[u8],
    before: u32,
) -> bool {
    for failure in WRITE_FAILURES {
        let writer = HoldingWriter {
            before,
            failure,
            ..writer_of(answer)
        };
        if !is_write_told(rt, row, writer) {
            return false;
        }
    }
    true
}

/// Whether an answer goes out whole, and it is told where every write fails in turn, and where the flush does.
fn is_each_write_told(rt: &(impl Abort + AllocGlobal), row: &Row) -> bool {
    let answer = answer(rt, row);
    let Some(writes) = writes_of(rt, row, answer.as_slice()) else {
        return false;
    };
    for before in 0..writes {
        if !is_write_after_told(rt, row, answer.as_slice(), before) {
            return false;
        }
    }
    let writer = HoldingWriter {
        flushes: false,
        ..writer_of(answer.as_slice())
    };
    !answer.is_empty() && is_write_told(rt, row, writer)
}

#[test]
fn each_command_tells_that_a_read_failed(rt: HostRuntime) {
    for row in &COMMANDS {
        assert!(rt; is_each_read_told(&rt, row), "{}", row.0);
    }
}

#[test]
fn each_answer_goes_out_whole_or_it_is_told(rt: HostRuntime) {
    for row in &COMMANDS {
        assert!(rt; is_each_write_told(&rt, row), "{}", row.0);
    }
}
