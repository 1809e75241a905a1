//! Why an event is refused: what the world is like just before it.
use crate::forms::HEAD_LINES;
use crate::lines_at::{Line, kept_at, word_at};
use crate::saying::Notes;
use reg_base::limits::{MOST_EVENTS, MOST_OPERATIONS};
use reg_base::{OpId, Shape};
use reg_front::{FrontEnd, by_front};
use reg_history::Entry;
use reg_inputs::{Schedule, parse_schedule};
use reg_world::{Event, PackedWires, World, WorldFault};
use std::alloc::{AllocError, Allocator};

/// Puts that a process is not there.
pub(crate) fn put_processes<A: Allocator + Copy>(
    notes: &mut Notes<'_, A>,
    process: u8,
    processes: u32,
) {
    let text = match processes {
        1 => "there is no process {}: the process is 0\n",
        _ => "there is no process {}: the processes are 0 to {}\n",
    };
    let last = processes.saturating_sub(1);
    notes.put_with(text, &[process as u64, last as u64]);
}

/// Puts how many frames a wire has, where there is one.
fn put_frames<A: Allocator + Copy>(
    notes: &mut Notes<'_, A>,
    from: u8,
    to: u8,
    frames: Option<usize>,
) {
    let text = match frames {
        None => "no wire goes from a process to itself\n",
        Some(0) => "the wire from {} to {} has no frame yet\n",
        Some(1) => "the wire from {} to {} has 1 frame, 0\n",
        Some(2) => "the wire from {} to {} has 2 frames, 0 and 1\n",
        Some(_) => "the wire from {} to {} has {} frames, 0 to {}\n",
    };
    let count = frames.unwrap_or(0);
    let last = count.saturating_sub(1);
    notes.put_with(text, &[from as u64, to as u64, count as u64, last as u64]);
}

/// The last call of a process, and the number of its event.
pub(crate) fn last_call(entries: &[Entry], process: u8) -> Option<(OpId, u64)> {
    for entry in entries.iter().rev() {
        if let Entry::Called { at, id, .. } = *entry
            && id.process == process
        {
            return Some((id, at as u64));
        }
    }
    None
}

/// Puts why a world of so many processes refuses an event of a process, where that is told by the fault alone.
pub(crate) fn put_refusal<A: Allocator + Copy>(
    notes: &mut Notes<'_, A>,
    fault: WorldFault,
    process: u8,
    processes: u32,
) {
    let (text, most) = match fault {
        WorldFault::NoProcess => return put_processes(notes, process, processes),
        WorldFault::TooManyOperations => {
            ("a process calls at most {} operations\n", MOST_OPERATIONS)
        }
        WorldFault::TooManyEvents => ("a run has at most {} events\n", MOST_EVENTS),
        _ => return,
    };
    notes.put_with(text, &[most as u64]);
}

/// An event that is refused, after others of a run of this shape.
#[derive(Clone, Copy)]
struct RefusedEvent<'a> {
    shape: Shape,
    before: &'a [Event],
    event: Event,
    fault: WorldFault,
}

impl RefusedEvent<'_> {
    /// The place of the word for which it is refused, and a process: where that is not there, the one that is missing.
    fn word(&self) -> (usize, u8) {
        match self.event {
            Event::Call { process, .. } | Event::Tick { process } => (1, process),
            Event::Take { from, .. } if self.fault != WorldFault::NoProcess => (3, from),
            Event::Take { from, to, .. } if u32::from(from) < self.shape.processes() => (2, to),
            Event::Take { from, .. } => (1, from),
        }
    }

    /// Puts why a world refuses it, whose history has these entries, and that has this many frames on its wire.
    fn put_refusal<A: Allocator + Copy>(
        &self,
        notes: &mut Notes<'_, A>,
        frames: Option<usize>,
        entries: &[Entry],
    ) {
        let (_, process) = self.word();
        match (self.fault, self.event) {
            (WorldFault::NoFrame, Event::Take { from, to, .. }) => {
                put_frames(notes, from, to, frames);
            }
            (WorldFault::Busy, _) => {
                if let Some((id, at)) = last_call(entries, process) {
                    let number = process as u64;
                    let text = "process {} runs p{} #{}, called at event {}\n";
                    notes.put_with(text, &[number, number, id.number as u64, at]);
                }
            }
            _ => put_refusal(notes, self.fault, process, self.shape.processes()),
        }
    }

    /// Runs the events before it, and puts why it is refused.
    fn explain<F: FrontEnd, A: Allocator + Copy>(
        &self,
        notes: &mut Notes<'_, A>,
    ) -> Result<(), AllocError> {
        match World::<F, A, PackedWires<A>>::run(notes.alloc, self.shape, self.before) {
            Ok(world) => {
                let frames = match self.event {
                    Event::Take { from, to, .. } => world.frame_count(from, to),
                    _ => None,
                };
                self.put_refusal(notes, frames, world.history().entries());
                Ok(())
            }
            Err(_) => Err(AllocError),
        }
    }
}

/// Puts the line of the event at a place of a schedule, and why it is refused.
fn explain_in<A: Allocator + Copy>(
    notes: &mut Notes<'_, A>,
    schedule: &Schedule<A>,
    line: Line<'_>,
    at: usize,
    fault: WorldFault,
) -> Result<(), AllocError> {
    let Some((before, [event, ..])) = schedule.events.as_slice().split_at_checked(at) else {
        return Ok(());
    };
    let refused = RefusedEvent {
        shape: schedule.shape,
        before,
        event: *event,
        fault,
    };
    let (word, _) = refused.word();
    notes.put_place(line, word_at(line.bytes, word));
    by_front!(schedule.front, refused.explain::<_, A>(notes))
}

/// Puts the line of a refused event and why it is refused.
pub fn explain_event<A: Allocator + Copy>(
    notes: &mut Notes<'_, A>,
    text: &str,
    at: usize,
    fault: WorldFault,
) -> Result<(), AllocError> {
    let Some(line) = kept_at(text.as_bytes(), at.saturating_add(HEAD_LINES)) else {
        return Ok(());
    };
    let schedule = parse_schedule(notes.alloc, text).map_err(|_| AllocError)?;
    explain_in(notes, &schedule, line, at, fault)
}
