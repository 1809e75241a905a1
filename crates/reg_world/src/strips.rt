//! Items on each of some wires: frames, or the words that stand for them.
ghost use Rattle.std.specs.Prelude.{◌≡◌, ◌<◌, ◌≤◌, ◌++◌, ◌∷◌, [], true, Decides, length, replicate, IfOk, OnOk, OnErr};
ghost use Rattle.std.specs.Prelude.{slice_get, slice_set, slice_index_or};
ghost use Rattle.reg_world.specs.Sharing.{items_in, no_items, IsLonger};

use std::alloc::{AllocError, Allocator, Global};
use std::marker::Model;

/// What stands on a wire.
pub(crate) trait Item: Copy {
    /// Whether both say the same.
    // (not `==`, which of a type parameter promises no more than some equivalence)
    fn is(&self, other: &Self) -> bool
        ensures { Decides result (self.now ≡ other.now) };
}

/// A list of fewer items grows to twice its room.
const SHORT: usize = 2048;

/// A list of `SHORT` items or more grows by at least this number of items.
const MANY: usize = 4096;

/// Makes room for so many items more. Growing a list can copy its items, while room that isn't used costs next to
/// nothing: so a list that isn't short gets much at once. Nothing else changes.
// (apart: it runs seldom, and would take room in what runs for each frame)
#[cold]
#[inline(never)]
fn make_room<T: Item, A: Allocator + Copy>(
    items: &mut Vec<T, A>,
    count: usize,
) -> Result<(), AllocError>
    ensures { items.new.items ≡ items.old.items }
{
    if items.len() < SHORT {
        items.reserve(count)
    } else {
        items.reserve(count.max(MANY))
    }
}

/// Puts an item at the end.
// (in line: it runs for each frame put or taken, and does little more than a call costs)
#[inline(always)]
fn push<T: Item, A: Allocator + Copy>(items: &mut Vec<T, A>, item: T) -> Result<(), AllocError>
    ensures put { OnOk result (items.new.items ≡ items.old.items ++ item ∷ []) }
    ensures kept { OnErr result (items.new.items ≡ items.old.items) }
{
    if items.len() == items.capacity() {
        make_room(items, 1)?;
    }
    items.push(item)?;
    Ok(())
}

/// Puts items at the end.
#[inline(always)]
fn extend<T: Item, A: Allocator + Copy>(items: &mut Vec<T, A>, more: &[T]) -> Result<(), AllocError>
    ensures put { OnOk result (items.new.items ≡ items.old.items ++ more.now) }
    ensures kept { OnErr result (items.new.items ≡ items.old.items) }
{
    if more.len() > items.capacity() - items.len() {
        make_room(items, more.len())?;
    }
    items.extend_from_slice(more)
}

/// Whether both say the same, item by item.
fn are_same<T: Item>(some: &[T], others: &[T]) -> bool
    requires { length some.now ≡ length others.now }
    ensures { result ≡ true → some.now ≡ others.now }
{
    for place in 0..some.len() {
        if !some[place].is(&others[place]) {
            return false;
        }
    }
    true
}

/// What is kept of a wire: how many of the common items it has, or all of its items once they differ from those.
#[derive(Drop)]
pub(crate) struct Line<T, A: Allocator + Copy = Global> {
    shared: usize,
    own: Vec<T, A>,
}

impl<T, A: Allocator + Copy> Model for Line<T, A> {
    ghost use Rattle.reg_world.specs.Sharing.{Strip};

    ghost Value = { Strip T };

    ghost view = { λ w. record { shared = w.shared; own = w.own.items } };
}

impl<T: Item, A: Allocator + Copy> Line<T, A> {
    /// A wire with no item.
    fn new(alloc: A) -> Line<T, A>
        ensures { result ≡ no_items }
    {
        Line {
            shared: 0,
            own: Vec::new(alloc),
        }
    }

    /// All items of the wire, where `common` has those that it shares.
    // (in line: it runs for each frame put or taken, and does little more than a call costs)
    #[inline(always)]
    fn items<'w>(&'w self, common: &'w [T]) -> &'w [T]
        requires { self.now.shared ≤ length common.now }
        ensures { result.now ≡ items_in common.now self.now }
    {
        if self.own.is_empty() {
            &common[..self.shared]
        } else {
            self.own.as_slice()
        }
    }

    /// Puts items that aren't the next ones of the common items: from now on the wire has its own.
    // (apart: it runs seldom, and would take room in what runs for each frame)
    #[cold]
    #[inline(never)]
    fn part(&mut self, common: &[T], items: &[T]) -> Result<(), AllocError>
        requires shared { self.old.shared ≤ length common.now }
        requires own { self.old.own ≡ [] }
        ensures items { OnOk result (items_in common.now self.new ≡ items_in common.now self.old ++ items.now) }
        ensures kept { OnErr result (items_in common.now self.new ≡ items_in common.now self.old) }
        ensures shared { self.new.shared ≡ self.old.shared }
    {
        let shared = &common[..self.shared];
        self.own.extend_from_slice(shared)?;
        extend(&mut self.own, items)
    }

    /// Puts an item. It is kept once where it is the next one of the common items, or can be.
    // (in line: it runs for each frame put or taken, and does little more than a call costs)
    #[inline(always)]
    fn put(&mut self, common: &mut Vec<T, A>, item: T) -> Result<(), AllocError>
        requires { self.old.shared ≤ length common.old.items }
        ensures items { OnOk result
            (items_in common.new.items self.new ≡ items_in common.old.items self.old ++ item ∷ []) }
        ensures kept { OnErr result (items_in common.new.items self.new ≡ items_in common.old.items self.old) }
        ensures longer { IsLonger common.old.items common.new.items }
        ensures shared { self.new.shared ≤ length common.new.items }
    {
        if !self.own.is_empty() {
            return push(&mut self.own, item);
        }
        if self.shared == common.len() {
            push(common, item)?;
            self.shared = common.len();
            return Ok(());
        }
        if common[self.shared].is(&item) {
            self.shared += 1;
            return Ok(());
        }
        self.part(common, &[item])
    }

    /// Puts items. They are kept once where they are the next ones of the common items, or can be.
    fn put_all(&mut self, common: &mut Vec<T, A>, items: &[T]) -> Result<(), AllocError>
        requires { self.old.shared ≤ length common.old.items }
        ensures items { OnOk result
            (items_in common.new.items self.new ≡ items_in common.old.items self.old ++ items.now) }
        ensures kept { OnErr result (items_in common.new.items self.new ≡ items_in common.old.items self.old) }
        ensures longer { IsLonger common.old.items common.new.items }
        ensures shared { self.new.shared ≤ length common.new.items }
    {
        if !self.own.is_empty() {
            return extend(&mut self.own, items);
        }
        let next = &common[self.shared..];
        let count = next.len().min(items.len());
        if !are_same(&next[..count], &items[..count]) {
            return self.part(common, items);
        }
        extend(common, &items[count..])?;
        self.shared += items.len();
        Ok(())
    }
}

/// A wire to each of `count` processes, with no item.
fn new_lines<T: Item, A: Allocator + Copy>(
    alloc: A,
    count: u32,
) -> Result<Vec<Line<T, A>, A>, AllocError>
    ensures { IfOk result (λ v. v.items ≡ replicate count no_items) }
{
    let mut lines = Vec::new(alloc);
    for _i in 0..count {
        lines.push(Line::new(alloc))?;
    }
    Ok(lines)
}

/// The items of all wires. Most stand on all of them, so those that stand on several wires at the same place are kept
/// once, up to the first that differs.
#[derive(Drop)]
pub(crate) struct Strips<T, A: Allocator + Copy = Global> {
    common: Vec<T, A>,
    lines: Vec<Line<T, A>, A>,
}

impl<T, A: Allocator + Copy> Model for Strips<T, A> {
    ghost use Rattle.std.specs.Prelude.{List, map};
    ghost use Rattle.reg_world.specs.Sharing.{items_in, AreInCommon};

    ghost Value = { List (List T) };

    ghost view = { λ w. map (items_in w.common.items) w.lines.items };

    ghost invariant = { λ w. AreInCommon w.common.items w.lines.items };
}

impl<T: Item, A: Allocator + Copy> Strips<T, A> {
    /// A wire to each of `count` processes, with no item.
    pub(crate) fn new(alloc: A, count: u32) -> Result<Strips<T, A>, AllocError>
        ensures { IfOk result (λ w. w ≡ replicate count []) }
    {
        let common = Vec::new(alloc);
        let lines = new_lines(alloc, count)?;
        Ok(Strips { common, lines })
    }

    /// All items of a wire, none where there is no such one.
    // (in line: it runs for each frame put or taken, and does little more than a call costs)
    #[inline(always)]
    pub(crate) fn to(&self, to: usize) -> &[T]
        ensures { result.now ≡ slice_index_or self.now to [] }
    {
        match self.lines.get(to) {
            Some(line) => line.items(&self.common),
            None => &[],
        }
    }

    /// How many items a wire has.
    pub(crate) fn count(&self, to: usize) -> usize
        ensures { result ≡ length (slice_index_or self.now to []) }
    {
        self.to(to).len()
    }

    /// The item at this place of a wire, from 0.
    // (in line: it runs for each frame put or taken, and does little more than a call costs)
    #[inline(always)]
    pub(crate) fn at(&self, to: usize, number: u32) -> Option<T>
        ensures { result ≡ slice_get (slice_index_or self.now to []) number }
    {
        match self.to(to).get(number as usize) {
            Some(item) => Some(*item),
            None => None,
        }
    }

    /// Puts an item at the end of a wire.
    // (in line: it runs for each frame put or taken, and does little more than a call costs)
    #[inline(always)]
    pub(crate) fn push(&mut self, to: usize, item: T) -> Result<(), AllocError>
        requires { to < length self.old }
        ensures pushed { OnOk result (self.new ≡ slice_set self.old to (slice_index_or self.old to [] ++ item ∷ [])) }
        ensures kept { OnErr result (self.new ≡ self.old) }
    {
        self.lines[to].put(&mut self.common, item)
    }

    /// Puts items at the end of a wire.
    pub(crate) fn push_all(&mut self, to: usize, items: &[T]) -> Result<(), AllocError>
        requires { to < length self.old }
        ensures pushed { OnOk result (self.new ≡ slice_set self.old to (slice_index_or self.old to [] ++ items.now)) }
        ensures kept { OnErr result (self.new ≡ self.old) }
    {
        self.lines[to].put_all(&mut self.common, items)
    }
}
