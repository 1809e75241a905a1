//! The events that a world accepted, in eight bytes each.
ghost use Rattle.std.specs.Prelude.{◌≡◌, drop};

use crate::events::EventStore;
use crate::outlines::{MOST_VALUES, Outline, outline_of, push_values};
use reg_process::Event;
use std::alloc::{AllocError, Allocator, Global};
use std::marker::Model;
use std::mem;

/// The events that a world accepted, which nobody asks for: each without its values, which are kept apart. How much
/// memory they take is not promised.
#[derive(Drop)]
pub struct PackedEvents<A: Allocator + Copy = Global> {
    outlines: Vec<Outline, A>,
    values: Vec<u64, A>,
    ahead: Vec<Event, A>,
    /// How many of those ahead were accepted.
    passed: usize,
}

impl<A: Allocator + Copy> Model for PackedEvents<A> {
    ghost use Rattle.std.specs.Prelude.{◌-◌, ◌/◌, length, min, drop, vec_capacity};
    ghost use Rattle.reg_world.specs.Pages.{Taken};
    ghost use Rattle.reg_world.specs.Outlines.{events_of, AreOf};

    ghost Value = { Taken };

    ghost view = { λ e.
        record {
          taken = events_of e.outlines.items e.values.items;
          ahead = drop e.passed e.ahead.items;
          room = min (vec_capacity e.outlines - length e.outlines.items)
              ((vec_capacity e.values - length e.values.items) / 2);
        } };

    ghost invariant = { λ e. AreOf e.outlines.items e.values.items (events_of e.outlines.items e.values.items) };
}

/// How many events that were ahead are passed after one more, where one is.
fn passed_after<A: Allocator + Copy>(ahead: &Vec<Event, A>, passed: usize) -> usize
    ensures { drop result ahead.now.items ≡ drop 1 (drop passed ahead.now.items) }
{
    if passed < ahead.len() {
        passed + 1
    } else {
        passed
    }
}

impl<A: Allocator + Copy> EventStore<A> for PackedEvents<A> {
    ghost taken = { λ e. e.taken };

    ghost ahead = { λ e. e.ahead };

    ghost room = { λ e. e.room };

    fn new(alloc: A) -> PackedEvents<A> {
        PackedEvents {
            outlines: Vec::new(alloc),
            values: Vec::new(alloc),
            ahead: Vec::new(alloc),
            passed: 0,
        }
    }

    fn len(&self) -> usize {
        self.outlines.len()
    }

    fn next(&self) -> Option<Event> {
        match self.ahead.get(self.passed) {
            Some(event) => Some(*event),
            None => None,
        }
    }

    fn put_ahead(&mut self, events: &mut Vec<Event, A>) {
        self.outlines.clear();
        self.values.clear();
        mem::swap(&mut self.ahead, events);
        self.passed = 0;
    }

    fn make_room(&mut self) -> Result<(), AllocError> {
        self.outlines.reserve(1)?;
        self.values.reserve(MOST_VALUES)
    }

    // (in line: it runs at each event, which would be copied for a call)
    #[inline(always)]
    fn add(&mut self, event: Event) {
        self.outlines.push_reserved(outline_of(&event));
        push_values(&mut self.values, &event);
        self.passed = passed_after(&self.ahead, self.passed);
    }
}
