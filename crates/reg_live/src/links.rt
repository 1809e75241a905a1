//! How far the links of a station have come.
ghost use Rattle.std.specs.Prelude.{◌≡◌, replicate, IfOk};
ghost use Rattle.reg_live.specs.Progress.{Reached, first_unacknowledged, queued_by, queued_by_all, with_puts};
ghost use Rattle.reg_live.specs.Progress.{with_step};

use reg_frames::Frame;
use reg_process::{Put, Step};
use std::alloc::{AllocError, Allocator};
use std::marker::Model;

/// How many bodies a station has queued on each of its links, and how many of these each process has acknowledged, as
/// the steps and the frames of its sections tell. The pacer goes by it, and nothing that is proved does.
#[derive(Drop)]
pub(crate) struct Links<A: Allocator + Copy> {
    queued: u64,
    counts: Vec<u64, A>,
}

impl<A: Allocator + Copy> Model for Links<A> {
    ghost use Rattle.reg_live.specs.Progress.{Reached};

    ghost Value = { Reached };

    ghost view = { λ l. record { queued = l.queued; counts = l.counts.items } };
}

/// How many bodies are queued, as a frame tells, where `known` were known to be.
fn queued_by(known: u64, frame: &Frame) -> u64
    ensures { result ≡ queued_by known frame.now }
{
    match *frame {
        Frame::Numbered { number, body: _ } => known.max(number.saturating_add(1)),
        Frame::Got { count: _ } => known,
    }
}

/// How many bodies are known to be queued once these frames are seen, where `known` were known to be before.
fn queued_by_all(known: u64, frames: &[Put]) -> u64
    ensures { result ≡ queued_by_all known frames.now }
{
    let mut queued = known;
    for put in frames {
        queued = queued_by(queued, &put.frame);
    }
    queued
}

impl<A: Allocator + Copy> Links<A> {
    /// Links to the given number of processes, on which nothing was queued.
    pub(crate) fn new(alloc: A, processes: u32) -> Result<Links<A>, AllocError>
        ensures { IfOk result (λ l. l ≡ record { queued = 0; counts = replicate processes 0 }) }
    {
        let mut counts = Vec::with_capacity(alloc, processes as usize)?;
        for _i in 0..processes {
            counts.push(0)?;
        }
        Ok(Links { queued: 0, counts })
    }

    /// Notes the step of a section: a count that is taken says how much its sender has accepted.
    pub(crate) fn note_step(&mut self, step: &Step)
        ensures { self.new ≡ with_step self.old step.now }
    {
        if let Step::Take {
            from,
            frame: Frame::Got { count },
        } = *step
        {
            let from = usize::from(from);
            if from < self.counts.len() && self.counts[from] < count {
                self.counts[from] = count;
            }
        }
    }

    /// Notes the frames of a section: a number says that all bodies up to its own are queued.
    pub(crate) fn note_frames(&mut self, frames: &[Put])
        ensures { self.new ≡ with_puts self.old frames.now }
    {
        self.queued = queued_by_all(self.queued, frames);
    }

    /// The number of the first frame to a process that it hasn't acknowledged, where there is one.
    pub(crate) fn first_to(&self, process: u8) -> Option<u64>
        ensures { result ≡ first_unacknowledged self.now process }
    {
        let count = *self.counts.get(usize::from(process))?;
        if count < self.queued {
            Some(count)
        } else {
            None
        }
    }
}
