//! What happens in a run, event by event, as text.
ghost use Rattle.std.specs.Prelude.{◌++◌, ◌∷◌, [], Option, codes, flat_map, Some};
ghost use Rattle.reg_base.specs.Memory.{updates};
ghost use Rattle.std.specs.Fmt.{decimal};
ghost use Rattle.reg_text.specs.Lines.{text_of, lines_by};
ghost use Rattle.reg_text.specs.Writing.{Puts, IsWritten};
ghost use Rattle.reg_inputs.specs.Schedules.{event_text};
ghost use Rattle.reg_trace.specs.Traces.{answers_lines, body_text, cast_text, copy_lines, delivers_line};
ghost use Rattle.reg_trace.specs.Traces.{delivers_lines, drops_lines, holds_line, frame_text, moment_lines, puts_line};
ghost use Rattle.reg_trace.specs.Traces.{stamp_text, taken_lines, takes_lines, title_line, trace_text};

use crate::moments::{Delivery, Moment, Sent};
use crate::waits::Wait;
use reg_base::{Names, Stamp};
use reg_frames::{Body, Frame};
use reg_inputs::{put_event, put_take};
use reg_process::{Delivered, Reply};
use reg_text::{Sink, Unwritten, name_at, put_answer, put_number, put_op};
use reg_world::Event;
use std::alloc::Allocator;
use std::io::Write;

/// Puts a stamp: its time and its process.
fn put_stamp<W: Write>(sink: &mut Sink<'_, W>, stamp: Stamp)
    ensures { Puts W.contents sink.old sink.new (stamp_text stamp) }
{
    put_number(sink, "(", stamp.time);
    put_number(sink, ", ", stamp.process as u64);
    sink.put(b")");
}

/// Puts a cast: its stamp and its operation.
pub fn put_cast<A: Allocator + Copy, W: Write>(
    sink: &mut Sink<'_, W>,
    names: &Names<A>,
    cast: Delivered,
)
    ensures { Puts W.contents sink.old sink.new (cast_text names.now cast) }
{
    put_stamp(sink, cast.stamp);
    sink.put(b" ");
    put_op(sink, names, cast.op);
}

/// Puts what a data frame says that this process put.
fn put_body<A: Allocator + Copy, W: Write>(
    sink: &mut Sink<'_, W>,
    names: &Names<A>,
    process: u8,
    body: Body,
)
    ensures { Puts W.contents sink.old sink.new (body_text names.now process body) }
{
    match body {
        Body::Cast { time, op } => {
            let stamp = Stamp { time, process };
            sink.put(b"cast ");
            put_cast(sink, names, Delivered { stamp, op });
        }
        Body::Ack { time } => {
            sink.put(b"acknowledgement ");
            put_stamp(sink, Stamp { time, process });
        }
    }
}

/// Puts a frame, which this process put, in words.
pub fn put_frame<A: Allocator + Copy, W: Write>(
    sink: &mut Sink<'_, W>,
    names: &Names<A>,
    from: u8,
    frame: Frame,
)
    ensures { Puts W.contents sink.old sink.new (frame_text names.now from frame) }
{
    match frame {
        Frame::Numbered { number, body } => {
            put_number(sink, "data ", number);
            sink.put(b": ");
            put_body(sink, names, from, body);
        }
        Frame::Got { count } => put_number(sink, "count ", count),
    }
}

/// Puts the first line of an event: its number and its words.
fn put_head<A: Allocator + Copy, W: Write>(
    sink: &mut Sink<'_, W>,
    names: &Names<A>,
    number: usize,
    event: Event,
)
    ensures { Puts W.contents sink.old sink.new
        ((decimal number ++ (codes " " ++ event_text names.now event)) ++ 10 ∷ []) }
{
    put_number(sink, "", number as u64);
    sink.put(b" ");
    put_event(sink, names, event);
    sink.put(b"\n");
}

/// Puts the line of a frame that was taken, if there is one.
fn put_taken<A: Allocator + Copy, W: Write>(
    sink: &mut Sink<'_, W>,
    names: &Names<A>,
    from: u8,
    frame: Option<Frame>,
)
    ensures { Puts W.contents sink.old sink.new (text_of (taken_lines names.now from frame)) }
{
    if let Some(frame) = frame {
        sink.put(b"    takes ");
        put_frame(sink, names, from, frame);
        sink.put(b"\n");
    }
}

/// Puts the line of the frame that an event takes, if there is one.
fn put_takes<A: Allocator + Copy, W: Write>(
    sink: &mut Sink<'_, W>,
    names: &Names<A>,
    event: Event,
    frame: Option<Frame>,
)
    ensures { Puts W.contents sink.old sink.new (text_of (takes_lines names.now event frame)) }
{
    if let Event::Take { from, .. } = event {
        put_taken(sink, names, from, frame);
    }
}

/// Puts the line of a frame that was dropped, if one was.
fn put_drops<W: Write>(sink: &mut Sink<'_, W>, expected: Option<u64>)
    ensures { Puts W.contents sink.old sink.new (text_of (drops_lines expected)) }
{
    if let Some(number) = expected {
        put_number(sink, "    drops it: number ", number);
        sink.put(b" is expected\n");
    }
}

/// Puts the line of a clock.
fn put_clock<W: Write>(sink: &mut Sink<'_, W>, clock: u64)
    ensures { Puts W.contents sink.old sink.new ((codes "    clock " ++ decimal clock) ++ 10 ∷ []) }
{
    put_number(sink, "    clock ", clock);
    sink.put(b"\n");
}

/// Puts the line of a cast that was delivered.
fn put_delivery<A: Allocator + Copy, W: Write>(
    sink: &mut Sink<'_, W>,
    names: &Names<A>,
    cast: Delivered,
)
    ensures { Puts W.contents sink.old sink.new (delivers_line names.now cast ++ 10 ∷ []) }
{
    sink.put(b"    delivers ");
    put_cast(sink, names, cast);
    sink.put(b"\n");
}

/// Puts the line of the copy after the delivery of an operation, if that may change it.
fn put_copy<A: Allocator + Copy, W: Write>(
    sink: &mut Sink<'_, W>,
    names: &Names<A>,
    delivery: Delivery,
)
    ensures { Puts W.contents sink.old sink.new (text_of (copy_lines names.now delivery)) }
{
    let op = delivery.cast.op;
    if op.updates() {
        sink.put(b"    copy ");
        sink.put(name_at(names, op.register()).as_bytes());
        put_number(sink, " ", delivery.value);
        sink.put(b"\n");
    }
}

/// Puts the lines of a cast that was delivered, with the copy after it.
fn put_delivered<A: Allocator + Copy, W: Write>(
    sink: &mut Sink<'_, W>,
    names: &Names<A>,
    delivery: Delivery,
)
    ensures { Puts W.contents sink.old sink.new (text_of (delivers_lines names.now delivery)) }
{
    put_delivery(sink, names, delivery.cast);
    put_copy(sink, names, delivery);
}

/// Puts the lines of each cast that was delivered.
fn put_deliveries<A: Allocator + Copy, W: Write>(
    sink: &mut Sink<'_, W>,
    names: &Names<A>,
    deliveries: &[Delivery],
)
    ensures { Puts W.contents sink.old sink.new (text_of (flat_map (delivers_lines names.now) deliveries.now)) }
{
    for delivery in deliveries {
        put_delivered(sink, names, *delivery);
    }
}

/// Puts the line of a reply, if there is one.
fn put_reply<W: Write>(sink: &mut Sink<'_, W>, reply: Option<Reply>)
    ensures { Puts W.contents sink.old sink.new (text_of (answers_lines reply)) }
{
    if let Some(reply) = reply {
        sink.put(b"    answers ");
        put_answer(sink, reply.answer);
        put_number(sink, ", place ", reply.place);
        sink.put(b"\n");
    }
}

/// Puts the line of a cast that is held back.
fn put_wait<W: Write>(sink: &mut Sink<'_, W>, wait: Wait)
    ensures { Puts W.contents sink.old sink.new (holds_line wait ++ 10 ∷ []) }
{
    sink.put(b"    holds ");
    put_stamp(sink, wait.stamp);
    put_number(sink, ": p", wait.unheard as u64);
    sink.put(b" was not heard past it\n");
}

/// Puts a line for each cast that is held back.
fn put_waits<W: Write>(sink: &mut Sink<'_, W>, waits: &[Wait])
    ensures { Puts W.contents sink.old sink.new (lines_by holds_line waits.now) }
{
    for wait in waits {
        put_wait(sink, *wait);
    }
}

/// Puts the line of a frame that this process put, with the event that takes it.
fn put_sent<A: Allocator + Copy, W: Write>(
    sink: &mut Sink<'_, W>,
    names: &Names<A>,
    from: u8,
    sent: Sent,
)
    ensures { Puts W.contents sink.old sink.new (puts_line names.now from sent ++ 10 ∷ []) }
{
    sink.put(b"    puts ");
    put_frame(sink, names, from, sent.frame);
    sink.put(b" (");
    put_take(sink, from, sent.to, sent.place);
    sink.put(b")\n");
}

/// Puts a line for each frame that this process put.
fn put_all_sent<A: Allocator + Copy, W: Write>(
    sink: &mut Sink<'_, W>,
    names: &Names<A>,
    from: u8,
    all: &[Sent],
)
    ensures { Puts W.contents sink.old sink.new (lines_by (puts_line names.now from) all.now) }
{
    for sent in all {
        put_sent(sink, names, from, *sent);
    }
}

/// Puts what an event did: its number and its line, and then a line for each thing that happened.
fn put_moment<A: Allocator + Copy, W: Write>(
    sink: &mut Sink<'_, W>,
    names: &Names<A>,
    number: usize,
    moment: &Moment<A>,
)
    ensures { Puts W.contents sink.old sink.new (text_of (moment_lines names.now number moment.now)) }
{
    put_head(sink, names, number, moment.event);
    put_takes(sink, names, moment.event, moment.frame);
    put_drops(sink, moment.expected);
    put_clock(sink, moment.clock);
    put_deliveries(sink, names, moment.delivered.as_slice());
    put_reply(sink, moment.reply);
    put_waits(sink, moment.waits.as_slice());
    put_all_sent(sink, names, moment.process, moment.sent.as_slice());
}

/// Puts what each event did.
fn put_trace<A: Allocator + Copy, W: Write>(
    sink: &mut Sink<'_, W>,
    names: &Names<A>,
    moments: &[Moment<A>],
)
    ensures { Puts W.contents sink.old sink.new (trace_text names.now moments.now) }
{
    for (number, moment) in moments.iter().enumerate() {
        put_moment(sink, names, number, moment);
    }
}

/// Puts the line of a title, unless it is empty.
fn put_title<W: Write>(sink: &mut Sink<'_, W>, title: &str)
    ensures { Puts W.contents sink.old sink.new (title_line title.now) }
{
    if !title.is_empty() {
        sink.put(title.as_bytes());
        sink.put(b"\n");
    }
}

/// Puts the line of a title, unless it is empty, and what each event did.
fn put_titled<A: Allocator + Copy, W: Write>(
    sink: &mut Sink<'_, W>,
    title: &str,
    names: &Names<A>,
    moments: &[Moment<A>],
)
    ensures { Puts W.contents sink.old sink.new (title_line title.now ++ trace_text names.now moments.now) }
{
    put_title(sink, title);
    put_trace(sink, names, moments);
}

/// Writes the line of a title, unless it is empty, and what each event did: all of it or, where the writer fails, a
/// first part.
pub fn write_trace<A: Allocator + Copy, W: Write>(
    writer: &mut W,
    title: &str,
    names: &Names<A>,
    moments: &[Moment<A>],
) -> Result<(), Unwritten>
    ensures { IsWritten result (W.contents writer.old) (W.contents writer.new)
        (title_line title.now ++ trace_text names.now moments.now) }
{
    let mut sink = Sink::new(writer);
    put_titled(&mut sink, title, names, moments);
    sink.finish()
}
