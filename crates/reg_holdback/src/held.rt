//! Held casts, with the first in the order of their stamps at hand.
ghost use Rattle.std.specs.Prelude.{◌≡◌, ◌≢◌, [], ◌∷◌, ◌==◌, length, IfOk, OnErr, OnOk, MatchOption, slice_get};
ghost use Rattle.std.proofs.Common.{rules};
ghost use Rattle.std.specs.Cmp.{partial_order_from_own_ties};
ghost use Rattle.std.specs.Cmp.Rules.{comparing};
ghost use Rattle.std.specs.Ordering.{on, flip_args, then_cmp, eq_of_both, nat_cmp, as_partial_cmp};
ghost use Rattle.reg_base.specs.declared.stamps.Delivered.{Delivered as AnyCast};
ghost use Rattle.reg_base.specs.Order.{In, Rising, insert};

use reg_base::{Delivered, Op, Stamp};
use std::alloc::{AllocError, Allocator, Global};
use std::cmp::Ordering;
use std::collections::BinaryHeap;
use std::marker::Model;

/// A held cast. Of two, the one with the earlier stamp is the greater, so that a heap has the first on top.
#[derive(Clone, Copy)]
pub(crate) struct HeldCast {
    pub(crate) cast: Delivered,
}

impl PartialEq for HeldCast {
    ghost eq = { eq_of_both (on (λ h. h.cast.stamp.time) ◌==◌) (on (λ h. h.cast.stamp.process) ◌==◌) };

    ghost laws = { Prim.search (comparing, rules) };

    fn eq(&self, other: &HeldCast) -> bool {
        self.cast.stamp.time == other.cast.stamp.time
            && self.cast.stamp.process == other.cast.stamp.process
    }
}

impl Eq for HeldCast {
    ghost laws = { Prim.search (comparing, rules) };
}

impl Ord for HeldCast {
    ghost cmp = { then_cmp (flip_args (on (λ h. h.cast.stamp.time) nat_cmp))
        (flip_args (on (λ h. h.cast.stamp.process) nat_cmp)) };

    ghost total = { Prim.search (comparing, rules) };

    ghost matches_partial_cmp = { Prim.search (comparing, rules) };

    ghost matches_eq = { Prim.search (comparing, rules) };

    fn cmp(&self, other: &HeldCast) -> Ordering {
        let (mine, others) = (self.cast.stamp, other.cast.stamp);
        others
            .time
            .cmp(&mine.time)
            .then(others.process.cmp(&mine.process))
    }
}

impl PartialOrd for HeldCast {
    ghost partial_cmp = { as_partial_cmp
        (then_cmp (flip_args (on (λ h. h.cast.stamp.time) nat_cmp))
        (flip_args (on (λ h. h.cast.stamp.process) nat_cmp))) };

    ghost laws = { partial_order_from_own_ties (Prim.search (comparing, rules)) (Prim.search (comparing, rules)) };

    fn partial_cmp(&self, other: &HeldCast) -> Option<Ordering> {
        Some(self.cmp(other))
    }
}

/// Held casts in the order of their stamps, of which no two are the same.
#[derive(Drop)]
pub(crate) struct HeldCasts<A: Allocator + Copy = Global> {
    heap: BinaryHeap<HeldCast, A>,
}

impl<A: Allocator + Copy> Model for HeldCasts<A> {
    ghost use Rattle.std.specs.Prelude.{List};
    ghost use Rattle.std.specs.BinaryHeap.{IsHeap, heap_items};
    ghost use Rattle.reg_base.specs.declared.stamps.Delivered.{Delivered};
    ghost use Rattle.reg_holdback.specs.Heap.{AreApart, in_order, later_cmp};

    ghost Value = { List Delivered };

    ghost view = { λ c. in_order (heap_items c.heap) };

    ghost invariant = { λ c. IsHeap later_cmp (heap_items c.heap) × AreApart (heap_items c.heap) };
}

impl<A: Allocator + Copy> HeldCasts<A> {
    /// None.
    pub(crate) fn new(alloc: A) -> HeldCasts<A>
        ensures { result ≡ [] }
    {
        HeldCasts {
            heap: BinaryHeap::new(alloc),
        }
    }

    /// Puts a cast in its place.
    pub(crate) fn insert(&mut self, stamp: Stamp, op: Op) -> Result<(), AllocError>
        requires { (c : AnyCast) → In c self.old → c.stamp ≢ stamp }
        ensures entries { OnOk result (self.new ≡ insert (record { stamp = stamp; op = op }) self.old) }
        ensures kept { OnErr result (self.new ≡ self.old) }
    {
        let cast = Delivered { stamp, op };
        self.heap.push(HeldCast { cast })?;
        Ok(())
    }

    /// How many there are.
    pub(crate) fn len(&self) -> usize
        ensures { result ≡ length self.now }
    {
        self.heap.len()
    }

    /// The first.
    pub(crate) fn first(&self) -> Option<Delivered>
        ensures first { result ≡ slice_get self.now 0 }
        ensures rising { Rising self.now }
    {
        match self.heap.peek() {
            Some(held) => Some(held.cast),
            None => None,
        }
    }

    /// Takes out the first, and gives it.
    pub(crate) fn pop_first(&mut self) -> Option<Delivered>
        ensures { MatchOption result ((self.old ≡ []) × (self.new ≡ self.old)) (λ c. self.old ≡ c ∷ self.new) }
    {
        let held = self.heap.pop()?;
        Some(held.cast)
    }

    /// The same casts, in other memory.
    fn copied<B: Allocator + Copy>(&self, alloc: B) -> Result<HeldCasts<B>, AllocError>
        ensures { IfOk result (λ c. c ≡ self.now) }
    {
        let casts = Vec::from_slice(alloc, self.heap.as_slice())?;
        Ok(HeldCasts {
            heap: BinaryHeap::from(casts),
        })
    }

    /// All of them.
    pub(crate) fn list<B: Allocator + Copy>(
        &self,
        alloc: B,
    ) -> Result<Vec<Delivered, B>, AllocError>
        ensures { IfOk result (λ v. v.items ≡ self.now) }
    {
        let mut rest = self.copied(alloc)?;
        let mut list = Vec::new(alloc);
        while let Some(cast) = rest.pop_first() {
            list.push(cast)?;
        }
        Ok(list)
    }
}
