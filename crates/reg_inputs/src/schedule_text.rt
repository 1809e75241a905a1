//! The text of a schedule.
ghost use Rattle.std.specs.Prelude.{◌++◌, ◌∷◌, [], codes};
ghost use Rattle.std.specs.Fmt.{decimal};
ghost use Rattle.reg_front.specs.Table.{front_name};
ghost use Rattle.reg_text.specs.Words.{names_text};
ghost use Rattle.reg_text.specs.Writing.{Puts, IsWritten};
ghost use Rattle.reg_text.specs.Lines.{lines_by};
ghost use Rattle.reg_inputs.specs.Schedules.{Plan, event_text};
ghost use Rattle.reg_inputs.specs.ScheduleText.{schedule_text};

use reg_base::{Names, Shape};
use reg_front::Front;
use reg_process::Event;
use reg_text::{Sink, Unwritten, name_at, put_number, put_op};
use std::alloc::Allocator;
use std::io::Write;

/// Puts the event that takes the frame at this place, from 0, of a wire, without a line feed.
pub fn put_take<W: Write>(sink: &mut Sink<'_, W>, from: u8, to: u8, place: usize)
    ensures { Puts W.contents sink.old sink.new
        (codes "take " ++ (decimal from ++ 32 ∷ (decimal to ++ 32 ∷ decimal place))) }
{
    put_number(sink, "take ", from as u64);
    put_number(sink, " ", to as u64);
    put_number(sink, " ", place as u64);
}

/// Puts an event in the words of a schedule, without a line feed.
pub fn put_event<A: Allocator + Copy, W: Write>(
    sink: &mut Sink<'_, W>,
    names: &Names<A>,
    event: Event,
)
    ensures { Puts W.contents sink.old sink.new (event_text names.now event) }
{
    match event {
        Event::Call { process, op } => {
            put_number(sink, "call ", process as u64);
            sink.put(b" ");
            put_op(sink, names, op);
        }
        Event::Take { from, to, number } => put_take(sink, from, to, number as usize),
        Event::Tick { process } => put_number(sink, "tick ", process as u64),
    }
}

/// Puts the line of an event.
fn put_event_line<A: Allocator + Copy, W: Write>(
    sink: &mut Sink<'_, W>,
    names: &Names<A>,
    event: Event,
)
    ensures { Puts W.contents sink.old sink.new (event_text names.now event ++ 10 ∷ []) }
{
    put_event(sink, names, event);
    sink.put(b"\n");
}

/// Puts a line for each event.
fn put_events<A: Allocator + Copy, W: Write>(
    sink: &mut Sink<'_, W>,
    names: &Names<A>,
    events: &[Event],
)
    ensures { Puts W.contents sink.old sink.new (lines_by (event_text names.now) events.now) }
{
    for event in events {
        put_event_line(sink, names, *event);
    }
}

/// Puts a name after a space.
fn put_name<W: Write>(sink: &mut Sink<'_, W>, name: &str)
    ensures { Puts W.contents sink.old sink.new (32 ∷ name.now) }
{
    sink.put(b" ");
    sink.put(name.as_bytes());
}

/// Puts each name after a space.
fn put_names<A: Allocator + Copy, W: Write>(sink: &mut Sink<'_, W>, names: &Names<A>)
    ensures { Puts W.contents sink.old sink.new (names_text names.now) }
{
    for place in 0..names.count() {
        let name = name_at(names, place as u16);
        put_name(sink, name);
    }
}

/// Puts the line of the number of processes.
fn put_processes<W: Write>(sink: &mut Sink<'_, W>, processes: u32)
    ensures { Puts W.contents sink.old sink.new (codes "processes " ++ decimal processes ++ 10 ∷ []) }
{
    put_number(sink, "processes ", processes as u64);
    sink.put(b"\n");
}

/// Puts the line of the names.
fn put_registers<A: Allocator + Copy, W: Write>(sink: &mut Sink<'_, W>, names: &Names<A>)
    ensures { Puts W.contents sink.old sink.new (codes "registers" ++ (names_text names.now ++ 10 ∷ [])) }
{
    sink.put(b"registers");
    put_names(sink, names);
    sink.put(b"\n");
}

/// Puts the line of the front end.
fn put_front<W: Write>(sink: &mut Sink<'_, W>, front: Front)
    ensures { Puts W.contents sink.old sink.new (codes "front" ++ (32 ∷ front_name front ++ 10 ∷ [])) }
{
    sink.put(b"front");
    put_name(sink, front.name());
    sink.put(b"\n");
}

/// Puts the text of the schedule that has these parts.
fn put_schedule<A: Allocator + Copy, W: Write>(
    sink: &mut Sink<'_, W>,
    shape: Shape,
    names: &Names<A>,
    front: Front,
    events: &[Event],
)
    ensures { let plan : Plan = record { shape = shape; names = names.now; front = front; events = events.now } in
        Puts W.contents sink.old sink.new (schedule_text plan) }
{
    put_processes(sink, shape.processes());
    put_registers(sink, names);
    put_front(sink, front);
    put_events(sink, names, events);
}

/// Writes the text of the schedule that has these parts. That they are within the limits of a schedule is not checked.
///
/// # Errors
///
/// `Unwritten` where the writer failed: what went out before is a first part of the text.
pub fn write_schedule<A: Allocator + Copy, W: Write>(
    writer: &mut W,
    shape: Shape,
    names: &Names<A>,
    front: Front,
    events: &[Event],
) -> Result<(), Unwritten>
    ensures { let plan : Plan = record { shape = shape; names = names.now; front = front; events = events.now } in
        IsWritten result (W.contents writer.old) (W.contents writer.new) (schedule_text plan) }
{
    let mut sink = Sink::new(writer);
    put_schedule(&mut sink, shape, names, front, events);
    sink.finish()
}
