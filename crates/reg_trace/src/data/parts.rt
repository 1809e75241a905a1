//! The parts of the data: states, frames, events and operations.
ghost use Rattle.std.specs.Prelude.{Some, option_map};
ghost use Rattle.reg_text.specs.Writing.{Puts};
ghost use Rattle.reg_trace.specs.Json.{quoted};
ghost use Rattle.reg_text.specs.Ops.{answer_text, op_text};
ghost use Rattle.reg_inputs.specs.Schedules.{event_text};
ghost use Rattle.reg_process.specs.Waits.{running_of};
ghost use Rattle.reg_trace.specs.Parts.{bar_part, body_part, end_part, frame_part, kept_part, look_part, moment_part};
ghost use Rattle.reg_trace.specs.Parts.{peer_part, reply_part, running_part, sent_part, taken_part};

use crate::data::json::{Part, put_list, put_numbers};
use crate::data::looks::{Kept, Look};
use crate::data::strings::put_string;
use crate::figures::{Bar, End};
use crate::moments::{Moment, Sent};
use reg_base::{Answer, Names, Op};
use reg_frames::{Body, Frame};
use reg_inputs::put_event;
use reg_process::{Awaited, Known, Reply};
use reg_text::{Sink, put_answer, put_number, put_op};
use reg_world::Event;
use std::alloc::Allocator;
use std::io::Write;

impl Part for Option<Known> {
    ghost part = { peer_part };

    fn put<A: Allocator + Copy, W: Write>(&self, sink: &mut Sink<'_, W>, _names: &Names<A>) {
        match self {
            Some(known) => put_numbers(
                sink,
                &[known.seen, known.expected, known.first, known.next],
            ),
            None => sink.put(b"null"),
        }
    }
}

impl Part for Kept {
    ghost part = { kept_part };

    fn put<A: Allocator + Copy, W: Write>(&self, sink: &mut Sink<'_, W>, _names: &Names<A>) {
        put_number(sink, "[", self.register as u64);
        put_number(sink, ",\"", self.value);
        sink.put(b"\"]");
    }
}

/// Puts what a running operation waits for.
fn put_awaited<W: Write>(sink: &mut Sink<'_, W>, awaited: Awaited)
    ensures { Puts W.contents sink.old sink.new (running_part (Some (running_of awaited))) }
{
    match awaited {
        Awaited::Cast { stamp, .. } => {
            put_number(sink, "[\"cast\",", stamp.time);
            sink.put(b"]");
        }
        Awaited::Settling { .. } => sink.put(b"[\"held\"]"),
    }
}

/// Puts what the running operation waits for, or null where none runs.
fn put_running<W: Write>(sink: &mut Sink<'_, W>, awaited: Option<Awaited>)
    ensures { Puts W.contents sink.old sink.new (running_part (option_map running_of awaited)) }
{
    match awaited {
        Some(awaited) => put_awaited(sink, awaited),
        None => sink.put(b"null"),
    }
}

impl<B: Allocator + Copy> Part for Look<B> {
    ghost part = { look_part };

    fn put<A: Allocator + Copy, W: Write>(&self, sink: &mut Sink<'_, W>, names: &Names<A>) {
        put_list(sink, "{\"peers\":", names, self.peers.as_slice());
        put_list(sink, ",\"held\":", names, self.held.as_slice());
        put_list(sink, ",\"copy\":", names, self.copy.as_slice());
        put_number(sink, ",\"delivered\":", self.delivered);
        sink.put(b",\"running\":");
        put_running(sink, self.awaited);
        sink.put(b"}");
    }
}

/// Puts the text of an operation in quotes.
fn put_quoted_op<A: Allocator + Copy, W: Write>(sink: &mut Sink<'_, W>, names: &Names<A>, op: Op)
    ensures { Puts W.contents sink.old sink.new (quoted (op_text names.now op)) }
{
    sink.put(b"\"");
    put_op(sink, names, op);
    sink.put(b"\"");
}

/// Puts the text of an answer in quotes.
fn put_quoted_answer<W: Write>(sink: &mut Sink<'_, W>, answer: Answer)
    ensures { Puts W.contents sink.old sink.new (quoted (answer_text answer)) }
{
    sink.put(b"\"");
    put_answer(sink, answer);
    sink.put(b"\"");
}

/// Puts a data frame: its number, and its body's time and operation.
fn put_body<A: Allocator + Copy, W: Write>(
    sink: &mut Sink<'_, W>,
    names: &Names<A>,
    number: u64,
    body: Body,
)
    ensures { Puts W.contents sink.old sink.new (body_part names.now number body) }
{
    match body {
        Body::Cast { time, op } => {
            put_number(sink, "[\"cast\",", number);
            put_number(sink, ",", time);
            sink.put(b",");
            put_quoted_op(sink, names, op);
            sink.put(b"]");
        }
        Body::Ack { time } => {
            put_number(sink, "[\"ack\",", number);
            put_number(sink, ",", time);
            sink.put(b"]");
        }
    }
}

/// Puts a frame.
fn put_frame<A: Allocator + Copy, W: Write>(sink: &mut Sink<'_, W>, names: &Names<A>, frame: Frame)
    ensures { Puts W.contents sink.old sink.new (frame_part names.now frame) }
{
    match frame {
        Frame::Numbered { number, body } => put_body(sink, names, number, body),
        Frame::Got { count } => {
            put_number(sink, "[\"count\",", count);
            sink.put(b"]");
        }
    }
}

impl Part for Sent {
    ghost part = { sent_part };

    fn put<A: Allocator + Copy, W: Write>(&self, sink: &mut Sink<'_, W>, names: &Names<A>) {
        put_number(sink, "[", self.to as u64);
        put_number(sink, ",", self.place as u64);
        sink.put(b",");
        put_frame(sink, names, self.frame);
        sink.put(b"]");
    }
}

/// Puts an event in the words of a schedule, in quotes.
fn put_quoted_event<A: Allocator + Copy, W: Write>(
    sink: &mut Sink<'_, W>,
    names: &Names<A>,
    event: Event,
)
    ensures { Puts W.contents sink.old sink.new (quoted (event_text names.now event)) }
{
    sink.put(b"\"");
    put_event(sink, names, event);
    sink.put(b"\"");
}

/// Puts the frame that an event took, where it took one.
fn put_taken<A: Allocator + Copy, W: Write>(
    sink: &mut Sink<'_, W>,
    names: &Names<A>,
    frame: Option<Frame>,
)
    ensures { Puts W.contents sink.old sink.new (taken_part names.now frame) }
{
    match frame {
        Some(frame) => put_frame(sink, names, frame),
        None => sink.put(b"null"),
    }
}

/// Puts a reply, where there is one.
fn put_reply<W: Write>(sink: &mut Sink<'_, W>, reply: Option<Reply>)
    ensures { Puts W.contents sink.old sink.new (reply_part reply) }
{
    match reply {
        Some(reply) => {
            sink.put(b"{\"answer\":");
            put_quoted_answer(sink, reply.answer);
            put_number(sink, ",\"place\":", reply.place);
            sink.put(b"}");
        }
        None => sink.put(b"null"),
    }
}

/// Puts an event, what it did, and its note.
pub fn put_moment<A: Allocator + Copy, B: Allocator + Copy, W: Write>(
    sink: &mut Sink<'_, W>,
    names: &Names<A>,
    moment: &Moment<B>,
    note: &str,
)
    ensures { Puts W.contents sink.old sink.new
        (moment_part names.now (record { fact = moment.now; note = note.now })) }
{
    sink.put(b"{\"event\":");
    put_quoted_event(sink, names, moment.event);
    put_number(sink, ",\"process\":", moment.process as u64);
    sink.put(b",\"frame\":");
    put_taken(sink, names, moment.frame);
    put_number(sink, ",\"clock\":", moment.clock);
    put_list(sink, ",\"delivered\":", names, moment.delivered.as_slice());
    sink.put(b",\"reply\":");
    put_reply(sink, moment.reply);
    put_list(sink, ",\"sent\":", names, moment.sent.as_slice());
    sink.put(b",\"note\":");
    put_string(sink, note);
    sink.put(b"}");
}

/// Puts the answer of an operation, where it has one.
fn put_end<W: Write>(sink: &mut Sink<'_, W>, end: Option<End>)
    ensures { Puts W.contents sink.old sink.new (end_part end) }
{
    match end {
        Some(end) => {
            put_number(sink, "{\"at\":", end.at as u64);
            sink.put(b",\"text\":");
            put_quoted_answer(sink, end.answer);
            sink.put(b"}");
        }
        None => sink.put(b"null"),
    }
}

impl Part for Bar {
    ghost part = { bar_part };

    fn put<A: Allocator + Copy, W: Write>(&self, sink: &mut Sink<'_, W>, names: &Names<A>) {
        put_number(sink, "{\"process\":", self.id.process as u64);
        put_number(sink, ",\"number\":", self.id.number as u64);
        sink.put(b",\"op\":");
        put_quoted_op(sink, names, self.op);
        put_number(sink, ",\"call\":", self.call as u64);
        sink.put(b",\"answer\":");
        put_end(sink, self.end);
        sink.put(b"}");
    }
}
