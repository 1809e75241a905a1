//! Why a step of a record is none that its process makes after those before it.
use crate::events::{last_call, put_processes, put_refusal};
use crate::explaining::RefusedLine;
use crate::lines_at::line_at;
use crate::saying::Notes;
use reg_base::{Names, Shape};
use reg_commands::Fault;
use reg_frames::Frame;
use reg_front::{FrontEnd, by_front};
use reg_history::Entry;
use reg_node::{Record, Recorded, parse_record, recorded_line};
use reg_process::{Reply, Step};
use reg_records::LogEntry;
use reg_verify::VerifyFault;
use reg_world::{Event, World, WorldFault};
use std::alloc::{AllocError, Allocator};

/// The line of the first step of a record.
const FIRST_STEP: u64 = 5;

/// The last place of a frame on a wire: a frame is mostly taken soon after it was put.
fn last_place(frames: &[Frame], frame: Frame) -> Option<u32> {
    let mut place = frames.len();
    for put in frames.iter().rev() {
        place = place.saturating_sub(1);
        if *put == frame {
            return u32::try_from(place).ok();
        }
    }
    None
}

/// The event in which a process makes a step, if its frame stands on its wire.
fn event_of<F: FrontEnd, A: Allocator + Copy>(
    world: &World<F, A>,
    recorded: &Recorded,
) -> Option<Event> {
    let process = recorded.process;
    match recorded.entry.step {
        Step::Call { op } => Some(Event::Call { process, op }),
        Step::Tick => Some(Event::Tick { process }),
        Step::Take { from, frame } => {
            let number = last_place(world.wire(from, process)?, frame)?;
            Some(Event::Take {
                from,
                to: process,
                number,
            })
        }
    }
}

/// Makes steps that are a run, each with its reply, so that none fails unless there is no memory.
fn replay<F: FrontEnd, A: Allocator + Copy>(
    world: &mut World<F, A>,
    steps: &[Recorded],
) -> Result<(), AllocError> {
    for recorded in steps {
        match event_of(world, recorded) {
            Some(event) if world.step(&event).is_ok() => {}
            _ => return Err(AllocError),
        }
    }
    Ok(())
}

/// The line of the step that puts the frame at a place of a wire, in a run of these events.
fn line_of_put<F: FrontEnd, A: Allocator + Copy>(
    world: &mut World<F, A>,
    events: &[Event],
    (from, to): (u8, u8),
    place: usize,
) -> Option<u64> {
    let mut line = FIRST_STEP;
    for event in events {
        world.step(event).ok()?;
        if world.frame_count(from, to)? > place {
            return Some(line);
        }
        line = line.saturating_add(1);
    }
    None
}

/// The place of the first data frame of the same number, where this is one.
fn place_of_number(frames: &[Frame], frame: Frame) -> Option<usize> {
    let Frame::Numbered { number, .. } = frame else {
        return None;
    };
    for (place, put) in frames.iter().enumerate() {
        if let Frame::Numbered { number: other, .. } = *put
            && other == number
        {
            return Some(place);
        }
    }
    None
}

/// A step of a record that its process doesn't make after the steps before it.
#[derive(Drop)]
struct WrongStep<'s, A: Allocator + Copy> {
    shape: Shape,
    names: &'s Names<A>,
    before: &'s [Recorded],
    step: Recorded,
}

impl<A: Allocator + Copy> WrongStep<'_, A> {
    /// Puts the line that the step has with the reply that its process gives.
    fn put_right(&self, notes: &mut Notes<'_, A>, reply: Option<Reply>) {
        let right = Recorded {
            process: self.step.process,
            entry: LogEntry {
                step: self.step.entry.step,
                reply,
            },
        };
        if let Ok(line) = recorded_line(notes.alloc, self.names, &right) {
            notes.put("after the lines before it, this one is ");
            notes.sink.put(line.as_bytes());
            notes.put("\n");
        }
    }

    /// Puts why a world refuses it, whose history has these entries.
    fn put_refusal(&self, notes: &mut Notes<'_, A>, fault: WorldFault, entries: &[Entry]) {
        let process = self.step.process;
        if fault != WorldFault::Busy {
            return put_refusal(notes, fault, process, self.shape.processes());
        }
        if let Some((id, at)) = last_call(entries, process) {
            let text = "process {} runs its operation {}, called on line {}\n";
            let line = at.saturating_add(FIRST_STEP);
            notes.put_with(text, &[process as u64, id.number as u64, line]);
        }
    }

    /// Puts why no wire goes from a process to the step's own.
    fn put_no_wire(&self, notes: &mut Notes<'_, A>, from: u8) {
        let process = self.step.process;
        let processes = self.shape.processes();
        if u32::from(process) >= processes {
            put_processes(notes, process, processes);
        } else if u32::from(from) >= processes {
            put_processes(notes, from, processes);
        } else {
            notes.put("no wire goes from a process to itself\n");
        }
    }

    /// Puts which line put the frame at a place of a wire to its process.
    fn put_other_body<F: FrontEnd>(
        &self,
        notes: &mut Notes<'_, A>,
        events: &[Event],
        from: u8,
        place: usize,
    ) {
        let Ok(mut world) = World::<F, A>::new(notes.alloc, self.shape) else {
            return;
        };
        let wire = (from, self.step.process);
        if let Some(line) = line_of_put(&mut world, events, wire, place) {
            let text = "it put another body under that number, on line {}\n";
            notes.put_with(text, &[line]);
        }
    }

    /// Puts that the frame which it takes was put by no step, and which line put another one under its number.
    fn put_missing<F: FrontEnd>(&self, notes: &mut Notes<'_, A>, world: &World<F, A>) {
        let Step::Take { from, frame } = self.step.entry.step else {
            return;
        };
        let to = self.step.process;
        let Some(frames) = world.wire(from, to) else {
            return self.put_no_wire(notes, from);
        };
        let text = "process {} put no such frame for process {} before this line\n";
        notes.put_with(text, &[from as u64, to as u64]);
        if let Some(place) = place_of_number(frames, frame) {
            self.put_other_body::<F>(notes, world.accepted(), from, place);
        }
    }

    /// Puts why it is none that its process makes, in a world of no events.
    fn put_why<F: FrontEnd>(
        &self,
        notes: &mut Notes<'_, A>,
        world: &mut World<F, A>,
    ) -> Result<(), AllocError> {
        replay(world, self.before)?;
        match event_of(world, &self.step) {
            Some(event) => match world.step_reply(&event) {
                Ok(reply) => self.put_right(notes, reply),
                Err(fault) => self.put_refusal(notes, fault, world.history().entries()),
            },
            None => self.put_missing(notes, world),
        }
        Ok(())
    }

    /// Puts why it is none that its process makes.
    fn explain<F: FrontEnd>(&self, notes: &mut Notes<'_, A>) -> Result<(), AllocError> {
        let mut world = World::<F, A>::new(notes.alloc, self.shape)?;
        self.put_why(notes, &mut world)
    }
}

/// Puts why the step at a place of a record is none that its process makes.
fn explain_in<A: Allocator + Copy>(
    notes: &mut Notes<'_, A>,
    record: &Record<A>,
    place: usize,
) -> Result<(), AllocError> {
    let Some((before, [step, ..])) = record.steps.as_slice().split_at_checked(place) else {
        return Ok(());
    };
    let wrong = WrongStep {
        shape: record.shape,
        names: &record.names,
        before,
        step: *step,
    };
    by_front!(record.front, wrong.explain::<_>(notes))
}

/// Puts the step on a line of a record, the first with which its steps are no run, and why.
fn explain_step<A: Allocator + Copy>(
    notes: &mut Notes<'_, A>,
    text: &str,
    number: u64,
) -> Result<(), AllocError> {
    let Some(line) = line_at(text.as_bytes(), number) else {
        return Ok(());
    };
    notes.put_place(line, 0);
    let record = parse_record(notes.alloc, text).map_err(|_| AllocError)?;
    explain_in(notes, &record, number.saturating_sub(FIRST_STEP) as usize)
}

/// What explains the fault that `verify` tells of a record.
pub(crate) fn explain_record<A: Allocator + Copy>(
    alloc: A,
    text: &str,
    fault: VerifyFault,
) -> Result<Vec<u8, A>, AllocError> {
    let mut bytes = Vec::new(alloc);
    let mut notes = Notes::new(alloc, &mut bytes);
    let told = match fault {
        VerifyFault::Command {
            fault: Fault::Line { line, why },
        } => {
            let refused = RefusedLine {
                text: text.as_bytes(),
                number: line,
                why,
            };
            refused.explain_in_record(&mut notes);
            Ok(())
        }
        VerifyFault::Unfaithful { line } => explain_step(&mut notes, text, line),
        _ => Ok(()),
    };
    told.and(notes.finish())?;
    Ok(bytes)
}
