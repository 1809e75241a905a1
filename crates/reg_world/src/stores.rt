//! What keeps the wires of one process, and with them which list of events a world keeps.
ghost use Rattle.std.specs.Prelude.{◌≡◌, ◌<◌, ◌≤◌, ◌++◌, ◌∷◌, List, [], true, false, length, replicate, IfOk, OnOk};
ghost use Rattle.std.specs.Prelude.{slice_get, slice_set, slice_index_or};
ghost use Rattle.reg_base.specs.declared.limits.TheConstants.{MOST_RESENT};
ghost use Rattle.reg_frames.specs.declared.bodies.Body.{Body};
ghost use Rattle.reg_frames.specs.declared.bodies.Frame.{Frame};
ghost use Rattle.reg_process.specs.Process.{numbered_from};
ghost use Rattle.reg_world.specs.Sent.{AreOn};

use crate::events::EventStore;
use reg_frames::Frame;
use reg_process::Event;
use std::alloc::{AllocError, Allocator};

/// All frames that a process ever put for each process.
pub trait WireStore<A: Allocator + Copy>: Drop {
    /// What keeps the events of a world with these wires.
    type Events: EventStore<A>;

    ghost wires: { Self → List (List Frame) };

    /// A wire to each of `count` processes, with no frame.
    fn new(alloc: A, count: u32) -> Result<Self, AllocError>
        ensures { IfOk result (λ w. wires w ≡ replicate count []) };

    /// How many frames were ever put for a process, 0 where there is no such process.
    fn count(&self, to: u8) -> usize
        ensures { result ≡ length (slice_index_or (wires self.now) to []) };

    /// The frame at this place, from 0, of all frames ever put for a process. None where there is no such place or
    /// process.
    fn frame_at(&self, to: u8, number: u32) -> Option<Frame>
        ensures { result ≡ slice_get (slice_index_or (wires self.now) to []) number };

    /// Puts a frame for a process. Where memory is refused nothing is claimed of the wires.
    fn put(&mut self, to: u8, frame: &Frame) -> Result<(), AllocError>
        requires { to < length (wires self.old) }
        ensures { OnOk result
            (wires self.new
            ≡ slice_set (wires self.old) to (slice_index_or (wires self.old) to [] ++ frame.now ∷ [])) };

    /// Puts data frames again that were put for this process before: so many, of the numbers from `first` on. Says
    /// whether it did so. Else nothing has changed, and each is to be put by itself. Nothing is claimed of the wires
    /// where a frame wasn't put before, and where memory is refused.
    fn put_again(&mut self, to: u8, first: u64, count: u64) -> Result<bool, AllocError>
        requires within { to < length (wires self.old) }
        requires few { count ≤ MOST_RESENT }
        ensures again { IfOk result (λ done. done ≡ true → (bodies : List Body) → length bodies ≡ count
            → AreOn (slice_index_or (wires self.old) to []) (numbered_from first bodies)
            → wires self.new
            ≡ slice_set (wires self.old) to (slice_index_or (wires self.old) to [] ++ numbered_from first bodies)) }
        ensures kept { IfOk result (λ done. done ≡ false → wires self.new ≡ wires self.old) };
}

/// Wires whose worlds can list the events that they accepted.
pub trait ListingStore<A: Allocator + Copy>: WireStore<A> {
    /// The events that were accepted.
    fn listed(events: &Self::Events) -> &[Event]
        ensures { result.now ≡ Self.Events.taken events.now };
}
