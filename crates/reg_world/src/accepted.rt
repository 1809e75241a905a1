//! The events that a world accepted, as one list.
ghost use Rattle.std.specs.Prelude.{◌≡◌};

use crate::events::EventStore;
use reg_process::Event;
use std::alloc::{AllocError, Allocator, Global};
use std::marker::Model;
use std::mem;

/// The events that a world accepted, and those that a run has ahead: a run keeps one list for both.
#[derive(Drop)]
pub struct Accepted<A: Allocator + Copy = Global> {
    events: Vec<Event, A>,
    /// How many of them were accepted.
    count: usize,
}

impl<A: Allocator + Copy> Model for Accepted<A> {
    ghost use Rattle.std.specs.Prelude.{◌≤◌, ◌-◌, length, take, drop, vec_capacity};
    ghost use Rattle.reg_world.specs.Pages.{Taken};

    ghost Value = { Taken };

    ghost view = { λ a.
        record {
          taken = take a.count a.events.items;
          ahead = drop a.count a.events.items;
          room = vec_capacity a.events - a.count;
        } };

    ghost invariant = { λ a. a.count ≤ length a.events.items };
}

impl<A: Allocator + Copy> Accepted<A> {
    /// The events that were accepted.
    pub(crate) fn as_slice(&self) -> &[Event]
        ensures { result.now ≡ self.now.taken }
    {
        &self.events[..self.count]
    }
}

impl<A: Allocator + Copy> EventStore<A> for Accepted<A> {
    ghost taken = { λ a. a.taken };

    ghost ahead = { λ a. a.ahead };

    ghost room = { λ a. a.room };

    fn new(alloc: A) -> Accepted<A> {
        Accepted {
            events: Vec::new(alloc),
            count: 0,
        }
    }

    fn len(&self) -> usize {
        self.count
    }

    fn next(&self) -> Option<Event> {
        match self.events.get(self.count) {
            Some(event) => Some(*event),
            None => None,
        }
    }

    fn put_ahead(&mut self, events: &mut Vec<Event, A>) {
        mem::swap(&mut self.events, events);
        self.count = 0;
    }

    fn make_room(&mut self) -> Result<(), AllocError> {
        if self.count < self.events.len() {
            return Ok(());
        }
        self.events.reserve(1)
    }

    // (in line: it runs at each event, which would be copied for a call)
    #[inline(always)]
    fn add(&mut self, event: Event) {
        let count = self.count;
        if count < self.events.len() {
            self.events[count] = event;
        } else {
            self.events.push_reserved(event);
        }
        self.count = count + 1;
    }
}
