//! What keeps the events that a world accepted.
ghost use Rattle.std.specs.Prelude.{◌≡◌, ◌≤◌, ◌++◌, ◌∷◌, ℕ, List, [], length, drop, OnOk, slice_get};
ghost use Rattle.reg_process.specs.declared.events.Event.{Event};

use reg_process::Event;
use std::alloc::{AllocError, Allocator};

/// The events that a world accepted, and those that a run has ahead.
pub trait EventStore<A: Allocator + Copy>: Drop {
    ghost taken: { Self → List Event };

    ghost ahead: { Self → List Event };

    // (how many can be added with no more memory)
    ghost room: { Self → ℕ };

    /// No event was accepted, and none is ahead.
    fn new(alloc: A) -> Self
        ensures taken { taken result ≡ [] }
        ensures ahead { ahead result ≡ [] };

    /// How many events were accepted.
    fn len(&self) -> usize
        ensures { result ≡ length (taken self.now) };

    /// The first event that is ahead.
    fn next(&self) -> Option<Event>
        ensures { result ≡ slice_get (ahead self.now) 0 };

    /// Puts these events ahead, before any was accepted. It takes them over, and nothing is claimed of the list then.
    fn put_ahead(&mut self, events: &mut Vec<Event, A>)
        ensures taken { taken self.new ≡ [] }
        ensures ahead { ahead self.new ≡ events.old.items };

    /// Makes room for one more event. Nothing else changes.
    fn make_room(&mut self) -> Result<(), AllocError>
        ensures taken { taken self.new ≡ taken self.old }
        ensures ahead { ahead self.new ≡ ahead self.old }
        ensures room { OnOk result (1 ≤ room self.new) };

    /// Adds an accepted event, in the place of the first one that is ahead, where one is.
    fn add(&mut self, event: Event)
        requires { 1 ≤ room self.old }
        ensures taken { taken self.new ≡ taken self.old ++ event ∷ [] }
        ensures ahead { ahead self.new ≡ drop 1 (ahead self.old) };
}
