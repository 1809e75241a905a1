//! The wires of one process, with slices of its frames.
ghost use Rattle.std.specs.Prelude.{◌≡◌, [], slice_index_or};

use crate::accepted::Accepted;
use crate::stores::{ListingStore, WireStore};
use crate::strips::{Item, Strips};
use reg_frames::Frame;
use reg_process::Event;
use std::alloc::{AllocError, Allocator, Global};
use std::marker::Model;

impl Item for Frame {
    // (in line: it runs for each frame that is put)
    #[inline(always)]
    fn is(&self, other: &Frame) -> bool {
        self == other
    }
}

/// All frames that a process ever put for each process, as slices.
// (most frames go to all others, so those that stand on several wires at the same place are kept once, up to the first
// that differs)
#[derive(Drop)]
pub struct Wires<A: Allocator + Copy = Global> {
    strips: Strips<Frame, A>,
}

impl<A: Allocator + Copy> Model for Wires<A> {
    ghost use Rattle.std.specs.Prelude.{List};
    ghost use Rattle.reg_frames.specs.declared.bodies.Frame.{Frame};

    ghost Value = { List (List Frame) };

    ghost view = { λ w. w.strips };
}

impl<A: Allocator + Copy> Wires<A> {
    /// All frames ever put for a process, none where there is no such process.
    pub fn to(&self, to: u8) -> &[Frame]
        ensures { result.now ≡ slice_index_or self.now to [] }
    {
        self.strips.to(usize::from(to))
    }
}

impl<A: Allocator + Copy> WireStore<A> for Wires<A> {
    type Events = Accepted<A>;

    ghost wires = { λ w. w };

    fn new(alloc: A, count: u32) -> Result<Wires<A>, AllocError> {
        let strips = Strips::new(alloc, count)?;
        Ok(Wires { strips })
    }

    fn count(&self, to: u8) -> usize {
        self.strips.count(usize::from(to))
    }

    fn frame_at(&self, to: u8, number: u32) -> Option<Frame> {
        self.strips.at(usize::from(to), number)
    }

    // (in line: it runs for each frame that is put, and does little more than a call costs)
    #[inline(always)]
    fn put(&mut self, to: u8, frame: &Frame) -> Result<(), AllocError> {
        self.strips.push(usize::from(to), *frame)
    }

    // (a frame is copied from nowhere but its process, since these wires keep no body under its number)
    #[inline(always)]
    fn put_again(&mut self, _to: u8, _first: u64, _count: u64) -> Result<bool, AllocError> {
        Ok(false)
    }
}

impl<A: Allocator + Copy> ListingStore<A> for Wires<A> {
    fn listed(events: &Accepted<A>) -> &[Event] {
        events.as_slice()
    }
}
