//! The wires of one process in a world that doesn't list its events.
use crate::packed::PackedWires;
use crate::packed_events::PackedEvents;
use crate::stores::WireStore;
use reg_frames::Frame;
use std::alloc::{AllocError, Allocator, Global};
use std::marker::Model;

/// `PackedWires` of a world that doesn't list the events that it accepted: it keeps them in eight bytes each, and those
/// of calls with their values. How much memory they take is not promised.
#[derive(Drop)]
pub struct UnlistedWires<A: Allocator + Copy = Global> {
    wires: PackedWires<A>,
}

impl<A: Allocator + Copy> Model for UnlistedWires<A> {
    ghost use Rattle.std.specs.Prelude.{List};
    ghost use Rattle.reg_frames.specs.declared.bodies.Frame.{Frame};

    ghost Value = { List (List Frame) };

    ghost view = { λ w. w.wires };
}

impl<A: Allocator + Copy> WireStore<A> for UnlistedWires<A> {
    type Events = PackedEvents<A>;

    ghost wires = { λ w. w };

    fn new(alloc: A, count: u32) -> Result<UnlistedWires<A>, AllocError> {
        let wires = PackedWires::new(alloc, count)?;
        Ok(UnlistedWires { wires })
    }

    fn count(&self, to: u8) -> usize {
        self.wires.count(to)
    }

    // (in line: it runs for each frame that is taken, and only passes on)
    #[inline(always)]
    fn frame_at(&self, to: u8, number: u32) -> Option<Frame> {
        self.wires.frame_at(to, number)
    }

    // (in line: it runs for each frame that is put, and only passes on)
    #[inline(always)]
    fn put(&mut self, to: u8, frame: &Frame) -> Result<(), AllocError> {
        self.wires.put(to, frame)
    }

    fn put_again(&mut self, to: u8, first: u64, count: u64) -> Result<bool, AllocError> {
        self.wires.put_again(to, first, count)
    }
}
