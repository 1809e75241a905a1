//! Lists that later events put their frames in.
ghost use Rattle.std.specs.Prelude.{◌≡◌, max, [], vec_capacity};

use reg_frames::Put;
use std::alloc::Allocator;
use std::marker::Model;
use std::mem;

/// A list that a later event can put its frames in, so that it takes no memory for one. Contracts see how many frames
/// fit. Ticks leave that list, so for speed they have one of their own, of which contracts say nothing.
#[derive(Drop)]
pub(crate) struct Spare<A: Allocator + Copy> {
    list: Vec<Put, A>,
    for_ticks: Vec<Put, A>,
}

impl<A: Allocator + Copy> Model for Spare<A> {
    ghost use Rattle.std.specs.Prelude.{ℕ, vec_capacity};

    ghost Value = { ℕ };

    ghost view = { λ s. vec_capacity s.list };
}

impl<A: Allocator + Copy> Spare<A> {
    /// A list without room.
    pub(crate) fn new(alloc: A) -> Spare<A>
        ensures { result ≡ 0 }
    {
        Spare {
            list: Vec::new(alloc),
            for_ticks: Vec::new(alloc),
        }
    }

    /// The list, with nothing in it. One without room stays.
    pub(crate) fn take(&mut self, alloc: A) -> Vec<Put, A>
        ensures empty { result.items ≡ [] }
        ensures room { vec_capacity result ≡ self.old }
        ensures left { self.new ≡ 0 }
    {
        let mut list = mem::replace(&mut self.list, Vec::new(alloc));
        list.clear();
        list
    }

    /// The list for ticks, with nothing in it. The other one stays.
    pub(crate) fn take_for_tick(&mut self, alloc: A) -> Vec<Put, A>
        ensures empty { result.items ≡ [] }
        ensures left { self.new ≡ self.old }
    {
        let mut list = mem::replace(&mut self.for_ticks, Vec::new(alloc));
        list.clear();
        list
    }

    /// Keeps a list for later, where it has more room. The one with less is kept for ticks, where that has more room.
    pub(crate) fn keep(&mut self, list: Vec<Put, A>)
        ensures { self.new ≡ max self.old (vec_capacity list) }
    {
        let mut other = list;
        if self.list.capacity() < other.capacity() {
            other = mem::replace(&mut self.list, other);
        }
        if self.for_ticks.capacity() < other.capacity() {
            self.for_ticks = other;
        }
    }
}
